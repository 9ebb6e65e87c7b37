//! A fetch of a part of a message that begins at a node.
ghost use Rattle.std.specs.Prelude.{◌≡◌, ◌+◌, ℕ, List, Option, Some, true, false, IfOk, OnErr};
ghost use Rattle.mail_model.specs.Plan.{Plan as PlainPlan};
ghost use Rattle.object_model.specs.Sets.{has};
ghost use Rattle.cluster_model.specs.Rules.{new_number};
ghost use Rattle.node_store.specs.Disks.{view_of};
ghost use Rattle.node_core.specs.Nodes.{node_seen, IsNodeOf};
ghost use Rattle.node_core.specs.Works.{LeavesUp};
ghost use Rattle.node_reads.specs.Tables.{reads_in, IsOf};
ghost use Rattle.login_model.specs.NodeLaws.{HasHolder};
ghost use Rattle.cluster_model.specs.Steps.{asked_of};
ghost use Rattle.whole_node.specs.Nodes.{HasReads, WholeWorks};
ghost use Rattle.whole_node.specs.Beginning.{AsksAHolder, FetchesAmong};
ghost use Rattle.whole_node.specs.Reading.{KeepsHalves, BeginsFetch};

use crate::logging::sent;
use crate::node::WholeNode;
use io_edge::Disk;
use mail_base::{CallKind, Letter, MsgId, Name, NodeSet, Sequence, Ticket};
use node_core::{NodeFault, Outbox};
use std::alloc::{AllocError, Global};

impl WholeNode {
    // The lowest of these holders is asked, none of which is the own node.
    fn ask_holder(
        &mut self,
        alloc: Global,
        user: Name,
        id: MsgId,
        from: u64,
        most: u64,
        asked: NodeSet,
        ticket: Ticket,
    ) -> Result<Sequence<Letter>, AllocError>
        requires other { has asked self.old.mail.store.own ≡ false }
        requires reads { HasReads self.old }
        ensures ok { IfOk result (λ letters. AsksAHolder user id from most asked ticket letters self.old self.new) }
        ensures err { OnErr result (reads_in self.new.reads ≡ reads_in self.old.reads) }
        ensures whose { IsOf self.old.reads.own self.old.reads.boot self.new.reads }
        ensures halves { KeepsHalves self.old self.new }
        ensures locks { self.new.locks ≡ self.old.locks }
    {
        let mut letters = Vec::new(alloc);
        letters.reserve(1)?;
        let epoch = self.mail.epoch();
        let letter = self
            .reads
            .begin_fetch(alloc, epoch, ticket.seq, user, id, from, most, asked)?;
        if let Some(letter) = letter {
            letters.push_reserved(letter);
        }
        Ok(Sequence::from_vec(letters))
    }

    // The own node is a holder, and answers at once.
    fn fetch_here<D: Disk>(
        &mut self,
        alloc: Global,
        disk: &mut D,
        user: Name,
        id: MsgId,
        from: u64,
        most: u64,
        asked: NodeSet,
        ticket: Ticket,
    ) -> Result<Sequence<Letter>, NodeFault>
        requires works { WholeWorks (D.seen disk.old) self.old }
        requires own { has asked self.old.mail.store.own ≡ true }
        ensures fetches { FetchesAmong (view_of D.seen D.faults D.clock) user id from most asked ticket self.old disk.old self.new disk.new result }
        ensures whose { IsOf self.old.reads.own self.old.reads.boot self.new.reads }
        ensures halves { KeepsHalves self.old self.new }
        ensures locks { self.new.locks ≡ self.old.locks }
        ensures settled { LeavesUp result → D.settled disk.old → D.settled disk.new }
    {
        let part = self.mail.told_part(alloc, disk, &user, id, from, most)?;
        self.reads
            .begin_own_fetch(alloc, ticket.seq, user, id, from, most, part)?;
        Ok(Sequence::new(alloc))
    }

    // A fetch that some of these members are asked for.
    fn fetch_among<D: Disk>(
        &mut self,
        alloc: Global,
        disk: &mut D,
        user: Name,
        id: MsgId,
        from: u64,
        most: u64,
        asked: NodeSet,
        ticket: Ticket,
    ) -> Result<Sequence<Letter>, NodeFault>
        requires works { WholeWorks (D.seen disk.old) self.old }
        ensures fetches { FetchesAmong (view_of D.seen D.faults D.clock) user id from most asked ticket self.old disk.old self.new disk.new result }
        ensures whose { IsOf self.old.reads.own self.old.reads.boot self.new.reads }
        ensures halves { KeepsHalves self.old self.new }
        ensures locks { self.new.locks ≡ self.old.locks }
        ensures settled { LeavesUp result → D.settled disk.old → D.settled disk.new }
    {
        if asked.has(self.mail.own()) {
            return self.fetch_here(alloc, disk, user, id, from, most, asked, ticket);
        }
        let letters = self.ask_holder(alloc, user, id, from, most, asked, ticket)?;
        Ok(letters)
    }

    // So it begins under the next ticket.
    fn fetch_at<D: Disk>(
        &mut self,
        alloc: Global,
        disk: &mut D,
        user: Name,
        id: MsgId,
        from: u64,
        most: u64,
        asked: NodeSet,
    ) -> Result<(Option<Ticket>, Outbox), NodeFault>
        requires works { WholeWorks (D.seen disk.old) self.old }
        requires some { HasHolder asked }
        ensures begins { (plan : PlainPlan) (own seconds holders : ℕ) → IsNodeOf plan own self.old.mail → asked ≡ asked_of (node_seen self.old.mail) holders → BeginsFetch (view_of D.seen D.faults D.clock) plan own self.old disk.old self.new disk.new seconds user id from most holders result }
        ensures works { LeavesUp result → WholeWorks (D.seen disk.new) self.new }
        ensures settled { LeavesUp result → D.settled disk.old → D.settled disk.new }
    {
        if self.mail.is_worn() {
            return Err(NodeFault::Worn);
        }
        let ticket = self.mail.next_ticket();
        let letters = self.fetch_among(alloc, disk, user, id, from, most, asked, ticket)?;
        self.mail.draw_ticket();
        Ok((Some(ticket), sent(letters)))
    }

    /// Begins a fetch under the next ticket: of so many octets at most of the message, from a number of them on. Of the holders those
    /// that are members of the node's epoch are asked, one after another: the own node first, which reads its disk, and then in rising
    /// order. Where none is a member the call fails at once: its ticket is one of messages.
    ///
    /// # Errors
    ///
    /// `Worn` exactly where the number of the ticket is used up. `Disk` where the own disk fails as it is read: the node has to go
    /// down. Or out of memory. Nothing has then changed.
    pub fn begin_fetch<D: Disk>(
        &mut self,
        alloc: Global,
        disk: &mut D,
        user: Name,
        id: MsgId,
        from: u64,
        most: u64,
        holders: NodeSet,
    ) -> Result<(Option<Ticket>, Outbox), NodeFault>
        requires works { WholeWorks (D.seen disk.old) self.old }
        ensures begins { (plan : PlainPlan) (own seconds : ℕ) → IsNodeOf plan own self.old.mail → BeginsFetch (view_of D.seen D.faults D.clock) plan own self.old disk.old self.new disk.new seconds user id from most holders result }
        ensures works { LeavesUp result → WholeWorks (D.seen disk.new) self.new }
        ensures settled { LeavesUp result → D.settled disk.old → D.settled disk.new }
    {
        let asked = self.mail.members_among(holders);
        if asked.count() == 0 {
            return self.refuse_read(alloc, CallKind::Fetch);
        }
        self.fetch_at(alloc, disk, user, id, from, most, asked)
    }
}
