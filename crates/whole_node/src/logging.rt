//! A login that begins at a node.
ghost use Rattle.std.specs.Prelude.{◌≡◌, ◌≢◌, ℕ, List, Option, Some, None, IfOk, OnErr};
ghost use Rattle.mail_model.specs.Plan.{Plan as PlainPlan};
ghost use Rattle.cluster_model.specs.Rules.{new_number};
ghost use Rattle.mail_base.specs.Bodies.{proof_seen, word_seen};
ghost use Rattle.joint_model.specs.Joint.{user_manager_in};
ghost use Rattle.node_maps.specs.Nodes.{node_of};
ghost use Rattle.node_core.specs.Nodes.{node_seen, IsNodeOf};
ghost use Rattle.node_reads.specs.Tables.{reads_in, IsOf};
ghost use Rattle.whole_node.specs.Nodes.{HasReads, WholeWorks};
ghost use Rattle.node_tickets.specs.Seen.{kind_seen};
ghost use Rattle.whole_node.specs.Beginning.{TakesOwnWord, LogsInAs, RefusesAs};
ghost use Rattle.whole_node.specs.Reading.{KeepsHalves, BeginsLogin};

use crate::managing::{give_back, is_free, judge_for, own_list};
use crate::node::WholeNode;
use mail_base::{CallKind, Letter, LoginWord, Name, NodeNo, Proof, Sequence, Ticket, Users};
use node_core::{NodeFault, Outbox};
use std::alloc::{AllocError, Global};

/// These letters are sent.
pub(crate) fn sent(letters: Sequence<Letter>) -> Outbox
    ensures letters { result.letters ≡ letters }
    ensures thrown { result.thrown ≡ None }
{
    Outbox {
        letters,
        thrown: None,
    }
}

impl WholeNode {
    // The node takes its own word, with its own list where that names it.
    fn take_own_word(
        &mut self,
        alloc: Global,
        user: Name,
        ticket: Ticket,
        word: LoginWord,
    ) -> Result<Sequence<Letter>, AllocError>
        ensures ok { IfOk result (λ letters. TakesOwnWord user ticket (word_seen word) letters self.old self.new) }
        ensures err { OnErr result (reads_in self.new.reads ≡ reads_in self.old.reads) }
        ensures whose { IsOf self.old.reads.own self.old.reads.boot self.new.reads }
        ensures halves { KeepsHalves self.old self.new }
        ensures locks { self.new.locks ≡ self.old.locks }
    {
        let mine = own_list(alloc, &self.mail, &user, &word)?;
        let epoch = self.mail.epoch();
        self.reads
            .begin_own_login(alloc, epoch, ticket.seq, user, word, mine)
    }

    // A login of a user whom the node manages: it judges at once, and takes its own word. Where there is no memory for that, a lock
    // that was taken is let go.
    fn log_in_here(
        &mut self,
        alloc: Global,
        users: &Users,
        user: Name,
        proof: &Proof,
        ticket: Ticket,
    ) -> Result<Sequence<Letter>, AllocError>
        requires reads { HasReads self.old }
        requires number { ticket ≡ new_number self.old.mail.store.own (node_seen self.old.mail) }
        requires managed { user_manager_in user (node_of self.old.maps).installed ≡ Some self.old.mail.store.own }
        ensures ok { IfOk result (λ letters. (plan : PlainPlan) → users.now ≡ plan.users → LogsInAs plan user (proof_seen proof.now) letters self.old self.new) }
        ensures err { OnErr result (reads_in self.new.reads ≡ reads_in self.old.reads) }
        ensures locks { OnErr result (self.new.locks ≡ self.old.locks) }
        ensures whose { IsOf self.old.reads.own self.old.reads.boot self.new.reads }
        ensures halves { KeepsHalves self.old self.new }
    {
        let named = self.maps.named(&user);
        let back = user.copy()?;
        let was_free = is_free(&self.locks, &user);
        let word = judge_for(users, named, &user, proof, ticket, &mut self.locks)?;
        match self.take_own_word(alloc, user, ticket, word) {
            Ok(letters) => Ok(letters),
            Err(AllocError) => {
                give_back(&mut self.locks, &back, ticket, was_free);
                Err(AllocError)
            }
        }
    }

    // A login of a user whom another node manages: that node is asked.
    fn ask_manager(
        &mut self,
        alloc: Global,
        user: Name,
        proof: Proof,
        manager: NodeNo,
        ticket: Ticket,
    ) -> Result<Sequence<Letter>, AllocError>
        requires reads { HasReads self.old }
        requires number { ticket ≡ new_number self.old.mail.store.own (node_seen self.old.mail) }
        requires managed { user_manager_in user (node_of self.old.maps).installed ≡ Some manager }
        requires other { manager ≢ self.old.mail.store.own }
        ensures ok { IfOk result (λ letters. (plan : PlainPlan) → LogsInAs plan user (proof_seen proof) letters self.old self.new) }
        ensures err { OnErr result (reads_in self.new.reads ≡ reads_in self.old.reads) }
        ensures locks { self.new.locks ≡ self.old.locks }
        ensures whose { IsOf self.old.reads.own self.old.reads.boot self.new.reads }
        ensures halves { KeepsHalves self.old self.new }
    {
        let mut letters = Vec::new(alloc);
        letters.reserve(1)?;
        let epoch = self.mail.epoch();
        let letter = self
            .reads
            .begin_login(epoch, ticket.seq, user, proof, manager)?;
        letters.push_reserved(letter);
        Ok(Sequence::from_vec(letters))
    }

    // A login of a user who has a manager.
    fn log_in(
        &mut self,
        alloc: Global,
        users: &Users,
        user: Name,
        proof: Proof,
        manager: NodeNo,
        ticket: Ticket,
    ) -> Result<Sequence<Letter>, AllocError>
        requires reads { HasReads self.old }
        requires number { ticket ≡ new_number self.old.mail.store.own (node_seen self.old.mail) }
        requires managed { user_manager_in user (node_of self.old.maps).installed ≡ Some manager }
        ensures ok { IfOk result (λ letters. (plan : PlainPlan) → users.now ≡ plan.users → LogsInAs plan user (proof_seen proof) letters self.old self.new) }
        ensures err { OnErr result (reads_in self.new.reads ≡ reads_in self.old.reads) }
        ensures locks { OnErr result (self.new.locks ≡ self.old.locks) }
        ensures whose { IsOf self.old.reads.own self.old.reads.boot self.new.reads }
        ensures halves { KeepsHalves self.old self.new }
    {
        if manager == self.mail.own() {
            return self.log_in_here(alloc, users, user, &proof, ticket);
        }
        self.ask_manager(alloc, user, proof, manager, ticket)
    }

    // A login of a user who has a manager begins under the next ticket.
    fn log_in_at(
        &mut self,
        alloc: Global,
        users: &Users,
        user: Name,
        proof: Proof,
        manager: NodeNo,
    ) -> Result<(Option<Ticket>, Outbox), NodeFault>
        requires reads { HasReads self.old }
        requires managed { user_manager_in user (node_of self.old.maps).installed ≡ Some manager }
        ensures begins { (plan : PlainPlan) (own seconds : ℕ) → IsNodeOf plan own self.old.mail → users.now ≡ plan.users → BeginsLogin plan own seconds user (proof_seen proof) result self.old self.new }
        ensures works { (seen : Option (List ℕ)) → WholeWorks seen self.old → WholeWorks seen self.new }
    {
        if self.mail.is_worn() {
            return Err(NodeFault::Worn);
        }
        let ticket = self.mail.next_ticket();
        let letters = self.log_in(alloc, users, user, proof, manager, ticket)?;
        self.mail.draw_ticket();
        Ok((Some(ticket), sent(letters)))
    }

    // A call that reads fails at once.
    pub(crate) fn refuse_read(
        &mut self,
        alloc: Global,
        kind: CallKind,
    ) -> Result<(Option<Ticket>, Outbox), NodeFault>
        requires reads { HasReads self.old }
        ensures refuses { RefusesAs (kind_seen kind) result self.old self.new }
        ensures works { (seen : Option (List ℕ)) → WholeWorks seen self.old → WholeWorks seen self.new }
    {
        if self.mail.is_worn() {
            return Err(NodeFault::Worn);
        }
        let ticket = self.mail.refuse_read(alloc, kind)?;
        Ok((Some(ticket), sent(Sequence::new(alloc))))
    }

    /// Begins a login under the next ticket. Where the node manages the user itself, it judges at once: with a right proof the
    /// login takes the lock of the maildrop, unless another one has it, and the nodes that are named are asked for their lists.
    /// Else the manager is asked. Where the node's map has no manager of the user, as where no epoch is installed, the call fails
    /// at once: its ticket is one of messages. The users are those of the plan, with their secrets. The disk is not looked at.
    ///
    /// # Errors
    ///
    /// `Worn` exactly where the number of the ticket is used up. Or out of memory. Nothing has then changed, and no lock was taken.
    pub fn begin_login(
        &mut self,
        alloc: Global,
        users: &Users,
        user: Name,
        proof: Proof,
    ) -> Result<(Option<Ticket>, Outbox), NodeFault>
        requires reads { HasReads self.old }
        ensures begins { (plan : PlainPlan) (own seconds : ℕ) → IsNodeOf plan own self.old.mail → users.now ≡ plan.users → BeginsLogin plan own seconds user (proof_seen proof) result self.old self.new }
        ensures works { (seen : Option (List ℕ)) → WholeWorks seen self.old → WholeWorks seen self.new }
    {
        match self.maps.manager(&user) {
            Some(manager) => self.log_in_at(alloc, users, user, proof, manager),
            None => self.refuse_read(alloc, CallKind::Login),
        }
    }
}
