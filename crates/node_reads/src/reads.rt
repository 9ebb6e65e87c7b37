//! The tickets of calls that read which stand at a node.
ghost use Rattle.std.specs.Prelude.{◌≡◌, ◌≢◌, ℕ, List, cond, [], ◌∷◌, true, false, Some, None, is_some, IfOk, OnOk, OnErr};
ghost use Rattle.std.specs.Option.{option_copied};
ghost use Rattle.std.specs.Ordering.{nat_cmp};
ghost use Rattle.std.specs.FinMap as fin;
ghost use Rattle.std.specs.BTreeMap as tree;
ghost use Rattle.mail_model.specs.Identity as identity;
ghost use Rattle.mail_model.specs.Plan as plan;
ghost use Rattle.object_model.specs.Sets.{has};
ghost use Rattle.object_model.specs.Mishaps.{no_mishaps};
ghost use Rattle.object_model.specs.Letters as plain;
ghost use Rattle.object_model.specs.Letters.Body.{LoginTold, ListTold, FetchTold};
ghost use Rattle.mail_base.specs.Bodies.{proof_seen, word_seen, part_seen};
ghost use Rattle.login_model.specs.Rules as rules;
ghost use Rattle.login_model.specs.Rules.{begin_login, begin_fetch};
ghost use Rattle.node_tickets.specs.Seen.{kind_of_mishap};
ghost use Rattle.node_reads.specs.Seen.{reading_seen};
ghost use Rattle.node_reads.specs.Asking.{done_at, kind_at, chances_at, user_befallen_at, user_held_at};
ghost use Rattle.node_reads.specs.Readings.{listed, user_at};
ghost use Rattle.node_reads.specs.Tables.{seen, reads_in, IsOf, is_own, ticket_at, Begins, Hears, Befalls, GivesUp, Asks};
ghost use Rattle.node_reads.specs.Tickets.{ticket_told, ticket_befell, did_if_stands, taken_if_stands, letters_given_up};

use crate::asking::ask_at;
use crate::fetch::Fetch;
use crate::letters::{ask, no_letters};
use crate::login::Login;
use crate::progress::{ReadProgress, Reading};
use crate::under::Under;
use call_tickets::Ask;
use mail_base::{
    Body, CallKind, EpochId, Letter, LoginWord, MsgId, Name, NodeNo, NodeSet, Proof, Sequence,
    Ticket, ToldItem, ToldPart,
};
use node_tickets::MishapKind;
use std::alloc::{AllocError, Global};
use std::collections::BTreeMap;

/// The standing tickets of the calls that read, at a node in one boot. A crash forgets them.
#[derive(Drop)]
pub struct NodeReads {
    own: NodeNo,
    boot: u32,
    entries: BTreeMap<u64, ReadProgress>,
}

// Puts the ticket under the number.
fn put(
    entries: &mut BTreeMap<u64, ReadProgress>,
    seq: u64,
    progress: ReadProgress,
) -> Result<(), AllocError>
    ensures ok { OnOk result ((other : ℕ) → tree.get nat_cmp entries.new other ≡ cond (tree.is_at (nat_cmp seq) other) (Some progress) (tree.get nat_cmp entries.old other)) }
    ensures err { OnErr result (entries.new.entries ≡ entries.old.entries) }
{
    entries.insert(seq, progress)?;
    Ok(())
}

fn put_in(
    entries: &mut BTreeMap<u64, ReadProgress>,
    seq: u64,
    progress: ReadProgress,
) -> Result<(), AllocError>
    ensures ok { OnOk result (seen entries.new.entries ≡ fin.insert (seen entries.old.entries) seq progress) }
    ensures err { OnErr result (seen entries.new.entries ≡ seen entries.old.entries) }
{
    put(entries, seq, progress)
}

/// What stands under the number. It takes no memory.
pub(crate) fn get_in(entries: &BTreeMap<u64, ReadProgress>, seq: u64) -> Option<&ReadProgress>
    ensures { option_copied result ≡ fin.get (seen entries.now.entries) seq }
{
    entries.get(&seq)
}

/// Takes out what stands under the number. It takes no memory.
pub(crate) fn take_out(entries: &mut BTreeMap<u64, ReadProgress>, seq: u64) -> Option<ReadProgress>
    ensures was { result ≡ fin.get (seen entries.old.entries) seq }
    ensures out { seen entries.new.entries ≡ taken_if_stands (seen entries.old.entries) seq (fin.get (seen entries.old.entries) seq) }
{
    entries.remove(&seq)
}

fn word_at(
    entries: &mut BTreeMap<u64, ReadProgress>,
    alloc: Global,
    seq: u64,
    u: &Under,
    from: NodeNo,
    word: LoginWord,
    mine: Sequence<ToldItem>,
) -> Result<Sequence<Letter>, AllocError>
    ensures ok { IfOk result (λ letters. did_if_stands (ticket_told u.now from mine (LoginTold (word_seen word))) (seen entries.old.entries) seq (fin.get (seen entries.old.entries) seq) ≡ record { reads = seen entries.new.entries; out = letters }) }
    ensures err { OnErr result (seen entries.new.entries ≡ seen entries.old.entries) }
{
    match entries.get_mut(&seq) {
        Some(progress) => progress.hear_word(alloc, u, from, word, mine),
        None => Ok(no_letters(alloc)),
    }
}

fn list_at(
    entries: &mut BTreeMap<u64, ReadProgress>,
    seq: u64,
    from: NodeNo,
    items: Sequence<ToldItem>,
) -> Result<(), AllocError>
    ensures ok { OnOk result ((u : rules.Under) (mine : List plain.ToldItem) → did_if_stands (ticket_told u from mine (ListTold items)) (seen entries.old.entries) seq (fin.get (seen entries.old.entries) seq) ≡ record { reads = seen entries.new.entries; out = [] }) }
    ensures err { OnErr result (seen entries.new.entries ≡ seen entries.old.entries) }
{
    match entries.get_mut(&seq) {
        Some(progress) => progress.hear_list(from, items),
        None => Ok(()),
    }
}

fn part_at(entries: &mut BTreeMap<u64, ReadProgress>, seq: u64, from: NodeNo, part: ToldPart)
    ensures { (u : rules.Under) (mine : List plain.ToldItem) → did_if_stands (ticket_told u from mine (FetchTold (part_seen part))) (seen entries.old.entries) seq (fin.get (seen entries.old.entries) seq) ≡ record { reads = seen entries.new.entries; out = [] } }
{
    match entries.get_mut(&seq) {
        Some(progress) => progress.hear_part(from, part),
        None => {}
    }
}

fn befell_at(
    entries: &mut BTreeMap<u64, ReadProgress>,
    seq: u64,
    u: &Under,
    kind: MishapKind,
    at: NodeNo,
) -> Option<Letter>
    ensures { did_if_stands (ticket_befell u.now (kind_of_mishap kind) at) (seen entries.old.entries) seq (fin.get (seen entries.old.entries) seq) ≡ record { reads = seen entries.new.entries; out = listed result } }
{
    match entries.get_mut(&seq) {
        Some(progress) => progress.befell(u, kind, at),
        None => None,
    }
}

fn give_up_at(entries: &mut BTreeMap<u64, ReadProgress>, seq: u64, u: &Under) -> Option<Letter>
    ensures out { listed result ≡ letters_given_up u.now (fin.get (seen entries.old.entries) seq) }
    ensures tickets { seen entries.new.entries ≡ taken_if_stands (seen entries.old.entries) seq (fin.get (seen entries.old.entries) seq) }
{
    match take_out(entries, seq) {
        Some(progress) => progress.give_up(u),
        None => None,
    }
}

impl NodeReads {
    /// No tickets, as the node has them when it starts in this boot. It takes no memory.
    pub fn new(alloc: Global, own: NodeNo, boot: u32) -> NodeReads
        ensures whose { IsOf own boot result }
        ensures none { reads_in result ≡ fin.empty }
    {
        NodeReads {
            own,
            boot,
            entries: BTreeMap::new(alloc),
        }
    }

    /// Its node.
    pub fn own(&self) -> NodeNo
        ensures { result ≡ self.now.own }
    {
        self.own
    }

    // Whether this number is of the node in its boot.
    fn is_own(&self, ticket: Ticket) -> bool
        ensures { result ≡ is_own self.now ticket }
    {
        ticket.node == self.own && ticket.boot == self.boot
    }

    // The ticket of this number, if it stands.
    fn find(&self, ticket: Ticket) -> Option<&ReadProgress>
        ensures { option_copied result ≡ ticket_at self.now ticket }
    {
        if !self.is_own(ticket) {
            return None;
        }
        get_in(&self.entries, ticket.seq)
    }

    /// Whether a ticket of a call that reads stands under this number. It takes no memory.
    pub fn stands(&self, ticket: Ticket) -> bool
        ensures { result ≡ is_some (ticket_at self.now ticket) }
    {
        self.find(ticket).is_some()
    }

    /// Whose list of the own node is wanted, where the node is named in the word that answers this ticket: the user of the login;
    /// nothing where no login stands under the number. It takes no memory.
    pub fn user(&self, ticket: Ticket) -> Option<&Name>
        ensures { option_copied result ≡ user_at (ticket_at self.now ticket) }
    {
        match self.find(ticket) {
            Some(progress) => progress.user_of_login(),
            None => None,
        }
    }

    /// Whose lock the own node lets go at a mishap of a letter to or from the node: the user of a login that the own node manages, and
    /// that fails by the mishap; nothing where no such login stands under the number. It takes no memory.
    pub fn user_befallen(&self, ticket: Ticket, at: NodeNo) -> Option<&Name>
        ensures { option_copied result ≡ user_befallen_at self.now.own at (ticket_at self.now ticket) }
    {
        match self.find(ticket) {
            Some(progress) => progress.user_befallen(self.own, at),
            None => None,
        }
    }

    /// Whose lock the own node lets go as a login is given up: the user of a login that the own node manages and may have given a lock;
    /// nothing where no such login stands under the number. It takes no memory.
    pub fn user_held(&self, ticket: Ticket) -> Option<&Name>
        ensures { option_copied result ≡ user_held_at self.now.own (ticket_at self.now ticket) }
    {
        match self.find(ticket) {
            Some(progress) => progress.user_held(self.own),
            None => None,
        }
    }

    /// The kind of the call, if the ticket stands. It takes no memory.
    pub fn kind(&self, ticket: Ticket) -> Option<CallKind>
        ensures { result ≡ kind_at (ticket_at self.now ticket) }
    {
        match self.find(ticket) {
            Some(progress) => Some(progress.kind()),
            None => None,
        }
    }

    /// Whether a ticket stands under the number whose call is done: an ask of it has an answer. It takes no memory.
    pub fn is_done(&self, ticket: Ticket) -> bool
        ensures { result ≡ done_at (ticket_at self.now ticket) }
    {
        match self.find(ticket) {
            Some(progress) => progress.is_done(),
            None => false,
        }
    }

    /// How many letters mishaps may still send for the call; none where no ticket stands under the number. Each such letter is one
    /// less. It takes no memory.
    pub fn chances(&self, ticket: Ticket) -> u32
        ensures { result ≡ chances_at (ticket_at self.now ticket) }
    {
        match self.find(ticket) {
            Some(progress) => progress.chances(),
            None => 0,
        }
    }

    // What a call that begins at this node sends its letters under.
    fn next_under(&self, epoch: EpochId, seq: u64) -> Under
        ensures { result ≡ record { own = self.now.own; epoch = epoch; number = record { node = self.now.own; boot = self.now.boot; seq = seq } } }
    {
        Under {
            own: self.own,
            epoch,
            number: Ticket::new(self.own, self.boot, seq),
        }
    }

    // Puts the ticket of a call that begins under its number.
    fn put(&mut self, seq: u64, reading: Reading) -> Result<(), AllocError>
        ensures ok { OnOk result (reads_in self.new ≡ fin.insert (reads_in self.old) seq (record { reading = reading_seen reading; mishaps = no_mishaps })) }
        ensures err { OnErr result (reads_in self.new ≡ reads_in self.old) }
        ensures whose { IsOf self.old.own self.old.boot self.new }
    {
        put_in(&mut self.entries, seq, ReadProgress::new(reading))
    }

    /// Begins a login whose user another node manages: that node is asked. The ticket's number is the one that the node draws
    /// next. The proof is moved.
    ///
    /// # Errors
    ///
    /// Out of memory alone; the tickets are then as before.
    pub fn begin_login(
        &mut self,
        epoch: EpochId,
        seq: u64,
        user: Name,
        proof: Proof,
        manager: NodeNo,
    ) -> Result<Letter, AllocError>
        requires { manager ≢ self.old.own }
        ensures ok { IfOk result (λ letter. (word : plain.LoginWord) (mine : List plain.ToldItem) → Begins epoch seq (λ u. begin_login u user (proof_seen proof) manager word mine) (letter ∷ []) self.old self.new) }
        ensures err { OnErr result (reads_in self.new ≡ reads_in self.old) }
        ensures whose { IsOf self.old.own self.old.boot self.new }
    {
        let u = self.next_under(epoch, seq);
        let asked = Body::LoginAsk {
            user: user.copy()?,
            proof,
        };
        self.put(seq, Reading::LogsIn(Login::new(user, manager)?))?;
        Ok(ask(&u, manager, asked))
    }

    /// Begins a login whose user the node manages itself: it takes its own word at once. Where that lets the login in, exactly
    /// the nodes that it names are asked for their lists, and the own one, `mine`, is taken where the own node is named. The list
    /// is moved.
    ///
    /// # Errors
    ///
    /// Out of memory alone; the tickets are then as before.
    pub fn begin_own_login(
        &mut self,
        alloc: Global,
        epoch: EpochId,
        seq: u64,
        user: Name,
        word: LoginWord,
        mine: Sequence<ToldItem>,
    ) -> Result<Sequence<Letter>, AllocError>
        ensures ok { IfOk result (λ letters. (proof : plan.Proof) → Begins epoch seq (λ u. begin_login u user proof self.old.own (word_seen word) mine) letters self.old self.new) }
        ensures err { OnErr result (reads_in self.new ≡ reads_in self.old) }
        ensures whose { IsOf self.old.own self.old.boot self.new }
    {
        let u = self.next_under(epoch, seq);
        let mut login = Login::new(user, self.own)?;
        let letters = login.take_word(alloc, &u, word, mine)?;
        self.put(seq, Reading::LogsIn(login))?;
        Ok(letters)
    }

    /// Begins a fetch of a part of a message that the own node does not hold: the lowest of the holders is asked. Nobody is asked
    /// exactly where there is none; the fetch has then failed.
    ///
    /// # Errors
    ///
    /// Out of memory alone; the tickets are then as before.
    pub fn begin_fetch(
        &mut self,
        alloc: Global,
        epoch: EpochId,
        seq: u64,
        user: Name,
        id: MsgId,
        from: u64,
        most: u64,
        holders: NodeSet,
    ) -> Result<Option<Letter>, AllocError>
        requires { has holders self.old.own ≡ false }
        ensures ok { IfOk result (λ letter. (part : plain.ToldPart) → Begins epoch seq (λ u. begin_fetch u user id from most holders part) (listed letter) self.old self.new) }
        ensures err { OnErr result (reads_in self.new ≡ reads_in self.old) }
        ensures whose { IsOf self.old.own self.old.boot self.new }
    {
        let u = self.next_under(epoch, seq);
        let mut fetch = Fetch::new(alloc, self.own, user, id, from, most, holders)?;
        let letter = fetch.ask_next(&u, holders);
        self.put(seq, Reading::Fetches(fetch))?;
        Ok(letter)
    }

    /// Begins a fetch of a part of a message that the own node holds: it is answered at once, and no letter is sent. The part is
    /// moved.
    ///
    /// # Errors
    ///
    /// Out of memory alone; the tickets are then as before.
    pub fn begin_own_fetch(
        &mut self,
        alloc: Global,
        seq: u64,
        user: Name,
        id: MsgId,
        from: u64,
        most: u64,
        part: ToldPart,
    ) -> Result<(), AllocError>
        ensures ok { OnOk result ((epoch : identity.EpochId) (holders : ℕ) → has holders self.old.own ≡ true → Begins epoch seq (λ u. begin_fetch u user id from most holders (part_seen part)) [] self.old self.new) }
        ensures err { OnErr result (reads_in self.new ≡ reads_in self.old) }
        ensures whose { IsOf self.old.own self.old.boot self.new }
    {
        let fetch = Fetch::answered(alloc, user, id, from, most, self.own, part);
        self.put(seq, Reading::Fetches(fetch))
    }

    /// Hears what a manager told, `from` that node, for this ticket. Only the word of the manager that is asked counts, and only
    /// the first: then exactly the nodes that it names are asked, and the own list, `mine`, is taken where the own node is named
    /// (`user` says whose it is). Otherwise nothing changes, and no letter is sent. The list is moved.
    ///
    /// # Errors
    ///
    /// Out of memory alone; the tickets are then as before.
    pub fn hear_word(
        &mut self,
        alloc: Global,
        epoch: EpochId,
        ticket: Ticket,
        from: NodeNo,
        word: LoginWord,
        mine: Sequence<ToldItem>,
    ) -> Result<Sequence<Letter>, AllocError>
        ensures ok { IfOk result (λ letters. Hears epoch ticket from (LoginTold (word_seen word)) mine letters self.old self.new) }
        ensures err { OnErr result (reads_in self.new ≡ reads_in self.old) }
        ensures whose { IsOf self.old.own self.old.boot self.new }
    {
        if !self.is_own(ticket) {
            return Ok(no_letters(alloc));
        }
        let u = Under {
            own: self.own,
            epoch,
            number: ticket,
        };
        word_at(&mut self.entries, alloc, ticket.seq, &u, from, word, mine)
    }

    /// Hears the list of a node for this ticket. It counts where the node was named and has not told yet, so once for each; a list
    /// for another call is let go. The list is moved.
    ///
    /// # Errors
    ///
    /// Out of memory alone; the tickets are then as before.
    pub fn hear_list(
        &mut self,
        ticket: Ticket,
        from: NodeNo,
        items: Sequence<ToldItem>,
    ) -> Result<(), AllocError>
        ensures ok { OnOk result ((epoch : identity.EpochId) (mine : List plain.ToldItem) → Hears epoch ticket from (ListTold items) mine [] self.old self.new) }
        ensures err { OnErr result (reads_in self.new ≡ reads_in self.old) }
        ensures whose { IsOf self.old.own self.old.boot self.new }
    {
        if !self.is_own(ticket) {
            return Ok(());
        }
        list_at(&mut self.entries, ticket.seq, from, items)
    }

    /// Hears a part of a message for this ticket, from any holder. The first counts; a part for another call is let go. It is
    /// moved, and takes no memory.
    pub fn hear_part(&mut self, ticket: Ticket, from: NodeNo, part: ToldPart)
        ensures did { (epoch : identity.EpochId) (mine : List plain.ToldItem) → Hears epoch ticket from (FetchTold (part_seen part)) mine [] self.old self.new }
        ensures whose { IsOf self.old.own self.old.boot self.new }
    {
        if !self.is_own(ticket) {
            return;
        }
        part_at(&mut self.entries, ticket.seq, from, part);
    }

    /// Notes a mishap of a letter to or from the node at this ticket. A login that waits for the node fails, and its manager gets
    /// the lock back; a fetch that does asks the next holder. There is one letter at most. It takes no memory.
    pub fn mishap(
        &mut self,
        epoch: EpochId,
        ticket: Ticket,
        kind: MishapKind,
        at: NodeNo,
    ) -> Option<Letter>
        ensures did { Befalls epoch ticket (kind_of_mishap kind) at (listed result) self.old self.new }
        ensures whose { IsOf self.old.own self.old.boot self.new }
    {
        if !self.is_own(ticket) {
            return None;
        }
        let u = Under {
            own: self.own,
            epoch,
            number: ticket,
        };
        befell_at(&mut self.entries, ticket.seq, &u, kind, at)
    }

    /// Gives the ticket up: it is taken out. A login that its manager may have let in, and that has not failed, gives the lock back
    /// by the letter. It takes no memory.
    pub fn give_up(&mut self, epoch: EpochId, ticket: Ticket) -> Option<Letter>
        ensures did { GivesUp epoch ticket (listed result) self.old self.new }
        ensures whose { IsOf self.old.own self.old.boot self.new }
    {
        if !self.is_own(ticket) {
            return None;
        }
        let u = Under {
            own: self.own,
            epoch,
            number: ticket,
        };
        give_up_at(&mut self.entries, ticket.seq, &u)
    }

    /// How far the call has come, or its answer; nothing exactly where no ticket stands under the number. A ticket that is done is
    /// taken out. A login is done once each node that was named has told: its answer has what they told, joined, and it takes
    /// n log n steps for n messages that were told. The octets of a fetch are moved.
    ///
    /// # Errors
    ///
    /// Out of memory alone, where the call is done; the tickets are then as before.
    pub fn ask(&mut self, alloc: Global, ticket: Ticket) -> Result<Option<Ask>, AllocError>
        ensures ok { IfOk result (λ ask. Asks ticket ask self.old self.new) }
        ensures done { OnErr result (done_at (ticket_at self.old ticket) ≡ true) }
        ensures err { OnErr result (reads_in self.new ≡ reads_in self.old) }
        ensures whose { IsOf self.old.own self.old.boot self.new }
    {
        if !self.is_own(ticket) {
            return Ok(None);
        }
        ask_at(&mut self.entries, alloc, ticket)
    }
}
