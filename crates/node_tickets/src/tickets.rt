//! The tickets that stand at a node.
ghost use Rattle.std.specs.Prelude.{◌≡◌, ◌≤◌, ◌-◌, ℕ, cond, [], ◌∷◌, map, length, Some, None, is_some, IfOk, OnOk, OnErr, vec_len, vec_capacity};
ghost use Rattle.std.specs.Option.{option_copied};
ghost use Rattle.std.specs.Ordering.{nat_cmp};
ghost use Rattle.std.specs.FinMap as fin;
ghost use Rattle.std.specs.BTreeMap as tree;
ghost use Rattle.object_model.specs.Sets.{has};
ghost use Rattle.mail_base.specs.Bodies.{body_seen};
ghost use Rattle.node_tickets.specs.Seen.{kind_of_mishap, kind_seen, mishaps_seen, filing_seen};
ghost use Rattle.cluster_model.specs.Cluster.AskedOfNodes.{Copies, Deletion};
ghost use Rattle.cluster_model.specs.Rules.{new_want};
ghost use Rattle.cluster_model.specs.TicketLaws.{delivery_ticket};
ghost use Rattle.node_tickets.specs.Standing.{seen, asks_seen, asks_at, call_kind_seen, kind_of_ticket, filed_seen, filing_at, wants_at, ticket_of_deletion, tickets_in, is_own, ticket_standing_here, IsOf, tickets_told, befell_in, ticket_taken_out, asked_out, waits_at, done_at};

use crate::mishap::{MishapKind, none};
use crate::progress::Progress;
use crate::want::{Asked, Want};
use call_tickets::{Ask, Mishaps};
use mail_base::{Body, CallKind, Filing, MsgId, Name, NodeNo, NodeSet, Ticket};
use std::alloc::{AllocError, Global};
use std::collections::BTreeMap;

/// The standing tickets of a node in one boot, in a plan of F confirmations.
#[derive(Drop)]
pub struct Tickets {
    own: NodeNo,
    boot: u32,
    confirm: u8,
    entries: BTreeMap<u64, Progress>,
}

// Puts the ticket under the number.
fn put(
    entries: &mut BTreeMap<u64, Progress>,
    seq: u64,
    progress: Progress,
) -> Result<(), AllocError>
    ensures ok { OnOk result ((other : ℕ) → tree.get nat_cmp entries.new other ≡ cond (tree.is_at (nat_cmp seq) other) (Some progress) (tree.get nat_cmp entries.old other)) }
    ensures err { OnErr result (entries.new.entries ≡ entries.old.entries) }
{
    entries.insert(seq, progress)?;
    Ok(())
}

fn put_in(
    entries: &mut BTreeMap<u64, Progress>,
    seq: u64,
    progress: Progress,
) -> Result<(), AllocError>
    ensures ok { OnOk result (seen entries.new.entries ≡ fin.insert (seen entries.old.entries) seq progress) }
    ensures err { OnErr result (seen entries.new.entries ≡ seen entries.old.entries) }
{
    put(entries, seq, progress)
}

fn get_in(entries: &BTreeMap<u64, Progress>, seq: u64) -> Option<&Progress>
    ensures { option_copied result ≡ fin.get (seen entries.now.entries) seq }
{
    entries.get(&seq)
}

// Takes out what stands under the number.
fn take_out(entries: &mut BTreeMap<u64, Progress>, seq: u64) -> Option<Progress>
    ensures was { result ≡ fin.get (seen entries.old.entries) seq }
    ensures out { seen entries.new.entries ≡ ticket_taken_out seq (fin.get (seen entries.old.entries) seq) (seen entries.old.entries) }
{
    entries.remove(&seq)
}

fn told_at(entries: &mut BTreeMap<u64, Progress>, seq: u64, from: NodeNo, body: &Body) -> bool
    ensures tickets { seen entries.new.entries ≡ tickets_told (body_seen body.now) from seq (fin.get (seen entries.old.entries) seq) (seen entries.old.entries) }
    ensures stood { result ≡ is_some (fin.get (seen entries.old.entries) seq) }
{
    match entries.get_mut(&seq) {
        Some(progress) => {
            progress.told(body, from);
            true
        }
        None => false,
    }
}

fn befell_at(entries: &mut BTreeMap<u64, Progress>, seq: u64, kind: MishapKind, at: NodeNo) -> bool
    ensures tickets { seen entries.new.entries ≡ befell_in (kind_of_mishap kind) at seq (fin.get (seen entries.old.entries) seq) (seen entries.old.entries) }
    ensures stood { result ≡ is_some (fin.get (seen entries.old.entries) seq) }
{
    match entries.get_mut(&seq) {
        Some(progress) => {
            progress.befell(kind, at);
            true
        }
        None => false,
    }
}

// A list of as many wants as are pushed, with room for their confirmers.
fn room_for(alloc: Global, wants: &[Want]) -> Result<Vec<NodeSet>, AllocError>
    ensures empty { IfOk result (λ room. room.items ≡ []) }
    ensures spare { IfOk result (λ room. length wants.now ≤ vec_capacity room - vec_len room) }
{
    let mut room = Vec::new(alloc);
    room.reserve(wants.len())?;
    Ok(room)
}

fn begun(
    alloc: Global,
    kind: CallKind,
    wants: Vec<Want>,
    mishaps: Mishaps,
) -> Result<Progress, AllocError>
    ensures { IfOk result (λ progress. progress ≡ record { kind = kind_seen kind; wants = wants.items; mishaps = mishaps_seen mishaps }) }
{
    let room = room_for(alloc, &wants)?;
    Ok(Progress::new(kind, wants, mishaps, room))
}

fn copies(
    alloc: Global,
    own: NodeNo,
    filing: Filing,
    targets: NodeSet,
) -> Result<Vec<Want>, AllocError>
    ensures { IfOk result (λ wants. wants.items ≡ new_want own (Copies (filing_seen filing)) targets ∷ []) }
{
    let mut wants = Vec::new(alloc);
    wants.push(Want::new(own, Asked::Copies(filing), targets))?;
    Ok(wants)
}

fn deletions(
    alloc: Global,
    own: NodeNo,
    user: &Name,
    asks: &[(MsgId, NodeSet)],
) -> Result<Vec<Want>, AllocError>
    ensures { IfOk result (λ wants. wants.items ≡ map (λ item. new_want own (Deletion user.now item.0) item.1) asks.now) }
{
    let mut wants = Vec::new(alloc);
    for (id, targets) in asks.iter() {
        let asked = Asked::Deletion {
            user: user.copy()?,
            id: *id,
        };
        wants.push(Want::new(own, asked, *targets))?;
    }
    Ok(wants)
}

impl Tickets {
    /// No tickets. It takes no memory.
    pub fn new(alloc: Global, own: NodeNo, boot: u32, confirm: u8) -> Tickets
        ensures whose { IsOf own boot confirm result }
        ensures none { tickets_in result ≡ fin.empty }
    {
        Tickets {
            own,
            boot,
            confirm,
            entries: BTreeMap::new(alloc),
        }
    }

    // Whether this number is of the node in its boot.
    fn is_own(&self, ticket: Ticket) -> bool
        ensures { result ≡ is_own self.now ticket }
    {
        ticket.node == self.own && ticket.boot == self.boot
    }

    // The ticket of this number, if it stands.
    fn find(&self, ticket: Ticket) -> Option<&Progress>
        ensures { option_copied result ≡ ticket_standing_here self.now ticket }
    {
        if !self.is_own(ticket) {
            return None;
        }
        get_in(&self.entries, ticket.seq)
    }

    /// Begins the ticket of a delivery to these targets, under this number of the node's boot. The own node has confirmed, where
    /// it is a target, and the others are waited for.
    ///
    /// # Errors
    ///
    /// Out of memory alone; the tickets are then as before.
    pub fn open_delivery(
        &mut self,
        alloc: Global,
        seq: u64,
        filing: Filing,
        targets: NodeSet,
    ) -> Result<(), AllocError>
        ensures ok { OnOk result (tickets_in self.new ≡ fin.insert (tickets_in self.old) seq (delivery_ticket self.old.own (filing_seen filing) targets)) }
        ensures err { OnErr result (tickets_in self.new ≡ tickets_in self.old) }
        ensures whose { IsOf self.old.own self.old.boot self.old.confirm self.new }
    {
        let wants = copies(alloc, self.own, filing, targets)?;
        let progress = begun(alloc, CallKind::Deliver, wants, none())?;
        put_in(&mut self.entries, seq, progress)
    }

    /// Begins the ticket of a deletion: of each of the user's messages the nodes that are asked for it.
    ///
    /// # Errors
    ///
    /// Out of memory alone; the tickets are then as before.
    pub fn open_deletion(
        &mut self,
        alloc: Global,
        seq: u64,
        user: &Name,
        asks: &[(MsgId, NodeSet)],
    ) -> Result<(), AllocError>
        ensures ok { OnOk result (tickets_in self.new ≡ fin.insert (tickets_in self.old) seq (ticket_of_deletion self.old.own user.now asks.now)) }
        ensures err { OnErr result (tickets_in self.new ≡ tickets_in self.old) }
        ensures whose { IsOf self.old.own self.old.boot self.old.confirm self.new }
    {
        let wants = deletions(alloc, self.own, user, asks)?;
        let progress = begun(alloc, CallKind::Strike, wants, none())?;
        put_in(&mut self.entries, seq, progress)
    }

    /// Begins the ticket of a call that fails at once: it wants nothing.
    ///
    /// # Errors
    ///
    /// Out of memory alone; the tickets are then as before.
    pub fn open_failed(
        &mut self,
        alloc: Global,
        seq: u64,
        kind: CallKind,
        mishaps: Mishaps,
    ) -> Result<(), AllocError>
        ensures ok { OnOk result (tickets_in self.new ≡ fin.insert (tickets_in self.old) seq (record { kind = kind_seen kind; wants = []; mishaps = mishaps_seen mishaps })) }
        ensures err { OnErr result (tickets_in self.new ≡ tickets_in self.old) }
        ensures whose { IsOf self.old.own self.old.boot self.old.confirm self.new }
    {
        let progress = begun(alloc, kind, Vec::new(alloc), mishaps)?;
        put_in(&mut self.entries, seq, progress)
    }

    /// One answer is heard. Whoever waits or failed is confirmed where the letter tells that it was done; false exactly where the
    /// ticket is not there. It takes no memory.
    pub fn told(&mut self, ticket: Ticket, from: NodeNo, body: &Body) -> bool
        ensures tickets { tickets_in self.new ≡ tickets_told (body_seen body.now) from ticket.seq (ticket_standing_here self.old ticket) (tickets_in self.old) }
        ensures whose { IsOf self.old.own self.old.boot self.old.confirm self.new }
        ensures stood { result ≡ is_some (ticket_standing_here self.old ticket) }
    {
        if !self.is_own(ticket) {
            return false;
        }
        told_at(&mut self.entries, ticket.seq, from, body)
    }

    /// A mishap of a letter to or from the node is counted, and the node fails where it is waited for; false exactly where the
    /// ticket is not there. It takes no memory.
    pub fn mishap(&mut self, ticket: Ticket, kind: MishapKind, at: NodeNo) -> bool
        ensures tickets { tickets_in self.new ≡ befell_in (kind_of_mishap kind) at ticket.seq (ticket_standing_here self.old ticket) (tickets_in self.old) }
        ensures whose { IsOf self.old.own self.old.boot self.old.confirm self.new }
        ensures stood { result ≡ is_some (ticket_standing_here self.old ticket) }
    {
        if !self.is_own(ticket) {
            return false;
        }
        befell_at(&mut self.entries, ticket.seq, kind, at)
    }

    /// The nodes that the ticket waits for, none where it is not there. It takes no memory.
    pub fn waiting(&self, ticket: Ticket) -> NodeSet
        ensures { (m : ℕ) → has result m ≡ waits_at (ticket_standing_here self.now ticket) m }
    {
        match self.find(ticket) {
            Some(progress) => progress.waiting(),
            None => NodeSet::empty(),
        }
    }

    /// The kind of the call, if the ticket stands. It takes no memory.
    pub fn kind(&self, ticket: Ticket) -> Option<CallKind>
        ensures { call_kind_seen result ≡ kind_of_ticket (ticket_standing_here self.now ticket) }
    {
        match self.find(ticket) {
            Some(progress) => Some(progress.kind()),
            None => None,
        }
    }

    /// What the call wants of nodes: one want of a delivery, one for each item of a deletion, and none of a call that failed at once
    /// or of a ticket that is not there. It takes no memory.
    pub fn wants(&self, ticket: Ticket) -> &[Want]
        ensures { result.now ≡ wants_at (ticket_standing_here self.now ticket) }
    {
        match self.find(ticket) {
            Some(progress) => progress.wants(),
            None => &[],
        }
    }

    /// What the delivery filed; nothing exactly where no delivery stands under the ticket, or it failed at once. It takes no memory.
    pub fn filing(&self, ticket: Ticket) -> Option<&Filing>
        ensures { filed_seen (option_copied result) ≡ filing_at (ticket_standing_here self.now ticket) }
    {
        match self.find(ticket) {
            Some(progress) => progress.filing(),
            None => None,
        }
    }

    /// Whether an ask would be answered. It takes no memory.
    pub fn is_done(&self, ticket: Ticket) -> bool
        ensures { result ≡ done_at self.now.confirm (ticket_standing_here self.now ticket) }
    {
        match self.find(ticket) {
            Some(progress) => progress.is_done(self.confirm),
            None => false,
        }
    }

    /// How far the call has come, or its answer; nothing exactly where the ticket is not there. A ticket that is done is taken out.
    /// It takes no memory.
    pub fn ask(&mut self, ticket: Ticket) -> Option<Ask>
        ensures answer { asks_seen result ≡ asks_at self.old.confirm (ticket_standing_here self.old ticket) }
        ensures tickets { tickets_in self.new ≡ asked_out self.old.confirm ticket.seq (ticket_standing_here self.old ticket) (tickets_in self.old) }
        ensures whose { IsOf self.old.own self.old.boot self.old.confirm self.new }
    {
        let confirm = self.confirm;
        let progress = self.find(ticket)?;
        if !progress.is_done(confirm) {
            return Some(progress.pending(confirm));
        }
        let done = take_out(&mut self.entries, ticket.seq)?;
        Some(Ask::Done(done.into_answer(confirm)))
    }

    /// Takes the ticket out; false exactly where it is not there. It takes no memory.
    pub fn give_up(&mut self, ticket: Ticket) -> bool
        ensures tickets { tickets_in self.new ≡ ticket_taken_out ticket.seq (ticket_standing_here self.old ticket) (tickets_in self.old) }
        ensures whose { IsOf self.old.own self.old.boot self.old.confirm self.new }
        ensures stood { result ≡ is_some (ticket_standing_here self.old ticket) }
    {
        if !self.is_own(ticket) {
            return false;
        }
        take_out(&mut self.entries, ticket.seq).is_some()
    }
}
