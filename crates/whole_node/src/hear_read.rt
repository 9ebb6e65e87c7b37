//! Letters of calls that read.
ghost use Rattle.std.specs.Prelude.{◌≡◌, [], ℕ, List, Some, true, IfOk, OnErr, is_some};
ghost use Rattle.mail_model.specs.Plan.{Plan as PlainPlan};
ghost use Rattle.mail_model.specs.Record.{Record};
ghost use Rattle.mail_base.specs.Bodies.{body_seen, proof_seen, word_seen, part_seen};
ghost use Rattle.object_model.specs.Letters.{is_read_body};
ghost use Rattle.object_model.specs.Letters.Body.{LoginAsk, LoginTold, ListAsk, ListTold, FetchTold, Unlock, FetchAsk};
ghost use Rattle.object_model.specs.Locks.{released};
ghost use Rattle.cluster_model.specs.Thrown.{answers_ticket};
ghost use Rattle.login_model.specs.Cluster as login;
ghost use Rattle.joint_world.specs.Rules.{judged_for};
ghost use Rattle.cluster_model.specs.Makes.{IsFetchAsk};
ghost use Rattle.joint_world.specs.Makes.{is_late_read};
ghost use Rattle.node_store.specs.Disks.{view_of};
ghost use Rattle.node_core.specs.Nodes.{NodeKeeps, IsNodeOf};
ghost use Rattle.node_core.specs.Works.{LeavesUp};
ghost use Rattle.node_reads.specs.Readings.{user_at};
ghost use Rattle.node_reads.specs.Tables.{reads_in, IsOf, ticket_at};
ghost use Rattle.whole_node.specs.Nodes.{joint_seen, HasReads, WholeWorks};
ghost use Rattle.whole_node.specs.Reading.{KeepsHalves, HearsRead};
ghost use Rattle.whole_node.specs.HearingReads.{HasOwnList, HearsAtRest, HearsAs};

use crate::logging::sent;
use crate::managing::{judge_for, own_list};
use crate::node::WholeNode;
use drop_lock::Locks;
use io_edge::Disk;
use mail_base::{
    Body, Letter, LoginWord, MsgId, Name, NodeSet, Proof, Sequence, Ticket, ToldItem, ToldPart,
    Users,
};
use node_core::{NodeFault, Outbox, Why};
use node_reads::{answer_fetch, answer_list, answer_login, judge};
use std::alloc::{AllocError, Global};

/// Whether a letter of this kind is one of a call that reads.
pub fn is_of_reads(body: &Body) -> bool
    ensures { result ≡ is_read_body (body_seen body.now) }
{
    match body {
        Body::LoginAsk { .. }
        | Body::LoginTold { .. }
        | Body::ListAsk { .. }
        | Body::ListTold { .. }
        | Body::FetchAsk { .. }
        | Body::FetchTold { .. }
        | Body::Unlock { .. } => true,
        Body::File { .. }
        | Body::Filed { .. }
        | Body::Strike { .. }
        | Body::StrikeTold { .. }
        | Body::Push { .. }
        | Body::PushAck { .. }
        | Body::Retired { .. }
        | Body::Group { .. }
        | Body::Join { .. }
        | Body::Install { .. }
        | Body::Report { .. }
        | Body::ReportAck { .. } => false,
    }
}

// Whether it answers a ticket.
fn answers_ticket(body: &Body) -> bool
    ensures { result ≡ answers_ticket (body_seen body.now) }
{
    match body {
        Body::Filed { .. }
        | Body::LoginTold { .. }
        | Body::ListTold { .. }
        | Body::FetchTold { .. }
        | Body::StrikeTold { .. } => true,
        Body::LoginAsk { .. }
        | Body::ListAsk { .. }
        | Body::FetchAsk { .. }
        | Body::Unlock { .. }
        | Body::File { .. }
        | Body::Strike { .. }
        | Body::Push { .. }
        | Body::PushAck { .. }
        | Body::Retired { .. }
        | Body::Group { .. }
        | Body::Join { .. }
        | Body::Install { .. }
        | Body::Report { .. }
        | Body::ReportAck { .. } => false,
    }
}

// Nothing is sent, and the letter is thrown for this.
fn thrown(alloc: Global, why: Why) -> Outbox
    ensures letters { result.letters ≡ [] }
    ensures thrown { result.thrown ≡ Some why }
{
    Outbox {
        letters: Sequence::new(alloc),
        thrown: Some(why),
    }
}

fn ticket_of(letter: &Letter) -> Option<Ticket>
    ensures { result ≡ letter.now.ticket }
{
    match &letter.ticket {
        Some(ticket) => Some(*ticket),
        None => None,
    }
}

// The word of a manager; a letter without a ticket takes no lock.
fn judge_letter(
    users: &Users,
    named: NodeSet,
    user: &Name,
    proof: &Proof,
    ticket: Option<Ticket>,
    locks: &mut Locks,
) -> Result<LoginWord, AllocError>
    ensures ok { IfOk result (λ word. (plan : PlainPlan) (node : login.Node) → users.now ≡ plan.users → node.named user.now ≡ named → judged_for plan node user.now (proof_seen proof.now) ticket locks.old ≡ record { word = word_seen word; locks = locks.new }) }
    ensures err { OnErr result (locks.new ≡ locks.old) }
{
    match ticket {
        Some(ticket) => judge_for(users, named, user, proof, ticket, locks),
        None => Ok(judge(users, user, proof, named)),
    }
}

impl WholeNode {
    // Whether the letter answers a ticket that stands no more.
    fn is_late_read(&self, letter: &Letter) -> bool
        requires reads { HasReads self.now }
        ensures { result ≡ is_late_read self.now.mail.store.own (joint_seen self.now) letter.now }
    {
        if !answers_ticket(&letter.body) {
            return false;
        }
        match ticket_of(letter) {
            Some(ticket) => !self.reads.stands(ticket),
            None => true,
        }
    }

    // A login asks the node as its manager.
    fn hear_login_ask(
        &mut self,
        alloc: Global,
        users: &Users,
        letter: &Letter,
        user: &Name,
        proof: &Proof,
    ) -> Result<Sequence<Letter>, AllocError>
        ensures ok { IfOk result (λ letters. (plan : PlainPlan) → users.now ≡ plan.users → HearsAtRest plan letter.now (LoginAsk user.now (proof_seen proof.now)) letters self.old self.new) }
        ensures err { OnErr result (self.new.locks ≡ self.old.locks) }
        ensures reads { self.new.reads ≡ self.old.reads }
        ensures halves { KeepsHalves self.old self.new }
    {
        let mut letters = Vec::new(alloc);
        letters.reserve(1)?;
        let named = self.maps.named(user);
        let word = judge_letter(
            users,
            named,
            user,
            proof,
            ticket_of(letter),
            &mut self.locks,
        )?;
        letters.push_reserved(answer_login(letter, word));
        Ok(Sequence::from_vec(letters))
    }

    // The own list for the login of this ticket, where the word names the own node.
    fn list_for(
        &self,
        alloc: Global,
        ticket: Ticket,
        word: &LoginWord,
    ) -> Result<Sequence<ToldItem>, AllocError>
        ensures { IfOk result (λ mine. (records : List Record) → NodeKeeps records self.now.mail → HasOwnList self.now.mail.store.own records (user_at (ticket_at self.now.reads ticket)) (word_seen word.now) mine) }
    {
        match self.reads.user(ticket) {
            Some(user) => own_list(alloc, &self.mail, user, word),
            None => Ok(Sequence::new(alloc)),
        }
    }

    // A manager tells its word for a login of this node.
    fn hear_login_told(
        &mut self,
        alloc: Global,
        letter: &Letter,
        word: &LoginWord,
    ) -> Result<Sequence<Letter>, AllocError>
        requires reads { HasReads self.old }
        requires body { letter.now.body ≡ LoginTold (word_seen word.now) }
        ensures ok { IfOk result (λ letters. (plan : PlainPlan) → HearsAtRest plan letter.now (LoginTold (word_seen word.now)) letters self.old self.new) }
        ensures err { OnErr result (reads_in self.new.reads ≡ reads_in self.old.reads) }
        ensures whose { IsOf self.old.reads.own self.old.reads.boot self.new.reads }
        ensures locks { self.new.locks ≡ self.old.locks }
        ensures halves { KeepsHalves self.old self.new }
    {
        let Some(ticket) = ticket_of(letter) else {
            return Ok(Sequence::new(alloc));
        };
        let mine = self.list_for(alloc, ticket, word)?;
        let epoch = self.mail.epoch();
        self.reads
            .hear_word(alloc, epoch, ticket, letter.from, word.copy(), mine)
    }

    // A login asks the node for its list.
    fn hear_list_ask(
        &self,
        alloc: Global,
        letter: &Letter,
        user: &Name,
    ) -> Result<Sequence<Letter>, AllocError>
        ensures { IfOk result (λ letters. (plan : PlainPlan) → HearsAtRest plan letter.now (ListAsk user.now) letters self.now self.now) }
    {
        let mut letters = Sequence::new(alloc);
        let mine = self.mail.told_list(alloc, user)?;
        letters.push(answer_list(letter, mine))?;
        Ok(letters)
    }

    // A node tells its list for a login of this node.
    fn hear_list_told(
        &mut self,
        alloc: Global,
        letter: &Letter,
        items: &Sequence<ToldItem>,
    ) -> Result<Sequence<Letter>, AllocError>
        requires reads { HasReads self.old }
        requires body { letter.now.body ≡ ListTold items.now }
        ensures ok { IfOk result (λ letters. (plan : PlainPlan) → HearsAtRest plan letter.now (ListTold items.now) letters self.old self.new) }
        ensures err { OnErr result (reads_in self.new.reads ≡ reads_in self.old.reads) }
        ensures whose { IsOf self.old.reads.own self.old.reads.boot self.new.reads }
        ensures locks { self.new.locks ≡ self.old.locks }
        ensures halves { KeepsHalves self.old self.new }
    {
        let Some(ticket) = ticket_of(letter) else {
            return Ok(Sequence::new(alloc));
        };
        self.reads.hear_list(ticket, letter.from, items.copy()?)?;
        Ok(Sequence::new(alloc))
    }

    // A holder tells a part for a fetch of this node.
    fn hear_fetch_told(
        &mut self,
        alloc: Global,
        letter: &Letter,
        part: &ToldPart,
    ) -> Result<Sequence<Letter>, AllocError>
        requires reads { HasReads self.old }
        requires body { letter.now.body ≡ FetchTold (part_seen part.now) }
        ensures ok { IfOk result (λ letters. (plan : PlainPlan) → HearsAtRest plan letter.now (FetchTold (part_seen part.now)) letters self.old self.new) }
        ensures err { OnErr result (reads_in self.new.reads ≡ reads_in self.old.reads) }
        ensures whose { IsOf self.old.reads.own self.old.reads.boot self.new.reads }
        ensures locks { self.new.locks ≡ self.old.locks }
        ensures halves { KeepsHalves self.old self.new }
    {
        let Some(ticket) = ticket_of(letter) else {
            return Ok(Sequence::new(alloc));
        };
        self.reads.hear_part(ticket, letter.from, part.copy()?);
        Ok(Sequence::new(alloc))
    }

    // A login ends.
    fn hear_unlock(&mut self, user: &Name, login: Ticket)
        ensures locks { self.new.locks ≡ released user.now login self.old.locks }
        ensures reads { self.new.reads ≡ self.old.reads }
        ensures halves { KeepsHalves self.old self.new }
    {
        self.locks.release(user, login);
    }

    // A letter is heard for which the disk is not looked at.
    fn hear_at_rest(
        &mut self,
        alloc: Global,
        users: &Users,
        letter: &Letter,
    ) -> Result<Sequence<Letter>, AllocError>
        requires reads { HasReads self.old }
        requires kind { is_read_body letter.now.body ≡ true }
        requires rest { IsFetchAsk letter.now.body → ⊥ }
        ensures ok { IfOk result (λ letters. (plan : PlainPlan) → users.now ≡ plan.users → HearsAtRest plan letter.now letter.now.body letters self.old self.new) }
        ensures err { OnErr result (reads_in self.new.reads ≡ reads_in self.old.reads) }
        ensures locks { OnErr result (self.new.locks ≡ self.old.locks) }
        ensures whose { IsOf self.old.reads.own self.old.reads.boot self.new.reads }
        ensures halves { KeepsHalves self.old self.new }
    {
        match &letter.body {
            Body::LoginAsk { user, proof } => {
                self.hear_login_ask(alloc, users, letter, user, proof)
            }
            Body::LoginTold { word } => self.hear_login_told(alloc, letter, word),
            Body::ListAsk { user } => self.hear_list_ask(alloc, letter, user),
            Body::ListTold { items } => self.hear_list_told(alloc, letter, items),
            Body::FetchTold { part } => self.hear_fetch_told(alloc, letter, part),
            Body::Unlock { user, login } => {
                self.hear_unlock(user, *login);
                Ok(Sequence::new(alloc))
            }
            Body::FetchAsk { .. } => unreachable!(),
            Body::File { .. }
            | Body::Filed { .. }
            | Body::Strike { .. }
            | Body::StrikeTold { .. }
            | Body::Push { .. }
            | Body::PushAck { .. }
            | Body::Retired { .. }
            | Body::Group { .. }
            | Body::Join { .. }
            | Body::Install { .. }
            | Body::Report { .. }
            | Body::ReportAck { .. } => unreachable!(),
        }
    }

    // A fetch asks the node as a holder.
    fn hear_fetch_ask<D: Disk>(
        &self,
        alloc: Global,
        disk: &mut D,
        letter: &Letter,
        user: &Name,
        id: MsgId,
        from: u64,
        most: u64,
    ) -> Result<Sequence<Letter>, NodeFault>
        requires works { WholeWorks (D.seen disk.old) self.now }
        requires body { letter.now.body ≡ FetchAsk user.now id from most }
        ensures hears { (plan : PlainPlan) → HearsAs (view_of D.seen D.faults D.clock) plan letter.now self.now disk.old self.now disk.new result }
        ensures settled { LeavesUp result → D.settled disk.old → D.settled disk.new }
    {
        let mut letters = Sequence::new(alloc);
        let part = self.mail.told_part(alloc, disk, user, id, from, most)?;
        letters.push(answer_fetch(letter, part))?;
        Ok(letters)
    }

    // The letter is heard, but for the stamps of it.
    fn hear_by_rule<D: Disk>(
        &mut self,
        alloc: Global,
        disk: &mut D,
        users: &Users,
        letter: &Letter,
    ) -> Result<Sequence<Letter>, NodeFault>
        requires works { WholeWorks (D.seen disk.old) self.old }
        requires kind { is_read_body letter.now.body ≡ true }
        ensures hears { (plan : PlainPlan) → users.now ≡ plan.users → HearsAs (view_of D.seen D.faults D.clock) plan letter.now self.old disk.old self.new disk.new result }
        ensures whose { IsOf self.old.reads.own self.old.reads.boot self.new.reads }
        ensures halves { KeepsHalves self.old self.new }
        ensures settled { LeavesUp result → D.settled disk.old → D.settled disk.new }
    {
        if let Body::FetchAsk {
            user,
            id,
            from,
            most,
        } = &letter.body
        {
            return self.hear_fetch_ask(alloc, disk, letter, user, *id, *from, *most);
        }
        let letters = self.hear_at_rest(alloc, users, letter)?;
        Ok(letters)
    }

    /// Hears a letter of a call that reads which is for this node, or throws it. One that is of another epoch is thrown, and so is one
    /// that answers a ticket which stands no more. Else the node learns the stamps of it, and does by its kind: as manager it judges a
    /// login and keeps the lock of the maildrop, as holder it tells a list or a part, and for its own tickets it takes what is told. The
    /// users are those of the plan, with their secrets.
    ///
    /// # Errors
    ///
    /// `Disk` where the disk fails as it is read for a FetchAsk: the node has to go down. Or out of memory, and nothing has changed, also
    /// no lock.
    pub fn hear_read<D: Disk>(
        &mut self,
        alloc: Global,
        disk: &mut D,
        users: &Users,
        letter: &Letter,
    ) -> Result<Outbox, NodeFault>
        requires works { WholeWorks (D.seen disk.old) self.old }
        requires kind { is_read_body letter.now.body ≡ true }
        ensures hears { (plan : PlainPlan) (own : ℕ) → IsNodeOf plan own self.old.mail → users.now ≡ plan.users → HearsRead (view_of D.seen D.faults D.clock) plan own self.old disk.old self.new disk.new letter.now result }
        ensures works { LeavesUp result → WholeWorks (D.seen disk.new) self.new }
        ensures settled { LeavesUp result → D.settled disk.old → D.settled disk.new }
    {
        if self.mail.is_stale(letter) {
            return Ok(thrown(alloc, Why::Stale));
        }
        if self.is_late_read(letter) {
            return Ok(thrown(alloc, Why::Late));
        }
        let letters = self.hear_by_rule(alloc, disk, users, letter)?;
        self.mail.learn(&letter.body);
        Ok(sent(letters))
    }
}
