//! Copies of messages that are to be deleted.
ghost use Rattle.std.specs.Prelude.{◌≡◌, ◌≤◌, ◌<◌, ◌+◌, ◌++◌, ℕ, false, Some, All, length, OnOk, IfOk};
ghost use Rattle.mail_model.specs.Plan.{Plan as PlainPlan};
ghost use Rattle.mail_model.specs.Grammar.{IsStamp, IsObject};
ghost use Rattle.object_model.specs.Sets.{nodes_in, all_nodes};
ghost use Rattle.object_model.specs.Letters.Body.{Strike as StrikeBody};
ghost use Rattle.cluster_model.specs.Cluster.{members_of, epoch_of};
ghost use Rattle.cluster_model.specs.Rules.{marks_for, strike_to, strikes_to, new_number};
ghost use Rattle.cluster_model.specs.Steps.{greatest};
ghost use Rattle.cluster_model.specs.Steps.NodeCall.{Strike as Strikes};
ghost use Rattle.cluster_model.specs.Store.{take_all, gone_updates};
ghost use Rattle.node_store.specs.Disks.{view_of};
ghost use Rattle.node_store.specs.Writes.{WroteChange};
ghost use Rattle.node_core.specs.Nodes.{node_seen, IsWhole, CanWork, IsNodeOf};
ghost use Rattle.node_core.specs.Works.{LeavesUp};
ghost use Rattle.node_core.specs.Spelling.{AllCanBeTaken};
ghost use Rattle.node_core.specs.Failing.{lacks_numbers};
ghost use Rattle.node_core.specs.Striking.{asks_among, next_dated, BeginsStrike};
ghost use Rattle.node_core.specs.Beginning.{NodeBegins, struck_of};

use crate::failing::{few_members, has_any};
use crate::fault::NodeFault;
use crate::letters::no_letters;
use crate::node::Node;
use crate::nodes::node_of;
use crate::outbox::Outbox;
use crate::spelling::{are_ids, is_name, stamp_of};
use crate::targets::strike_asks;
use io_edge::Disk;
use mail_base::{
    Body, CallKind, Item, Letter, MsgId, Name, NodeNo, NodeSet, Sequence, StrikeMark, Ticket,
};
use node_store::KeepFault;
use std::alloc::{AllocError, Global};

// The nodes that are asked for each of these copies.
fn asks_among(
    alloc: Global,
    confirm: u8,
    own: NodeNo,
    items: &[Item],
    members: &[NodeNo],
) -> Result<Vec<(MsgId, NodeSet)>, AllocError>
    ensures { IfOk result (λ asks. asks.items ≡ asks_among confirm own (struck_of items.now) members.now) }
{
    let mut asks = Vec::new(alloc);
    for item in items {
        let asked = strike_asks(alloc, confirm, own, item.targets, members)?;
        asks.push((item.id, asked))?;
    }
    Ok(asks)
}

impl Node {
    // The deletions that the node is asked for, each with a stamp of its own.
    fn marks_for(
        &self,
        alloc: Global,
        to: NodeNo,
        asks: &[(MsgId, NodeSet)],
    ) -> Result<Sequence<StrikeMark>, AllocError>
        requires fresh { self.now.numbers.count + length asks.now ≤ greatest }
        ensures value { IfOk result (λ marks. marks ≡ marks_for to (next_dated self.now asks.now)) }
        ensures stamps { IfOk result (λ marks. All (λ mark. IsStamp mark.stamp) marks) }
    {
        let own = self.store.own();
        let boot = self.numbers.boot;
        let mut count = self.numbers.count;
        let mut marks = Sequence::new(alloc);
        for (id, asked) in asks {
            count += 1;
            if asked.has(to) {
                marks.push(StrikeMark::new(*id, stamp_of(count, boot, own)))?;
            }
        }
        Ok(marks)
    }

    // The letter with these deletions.
    fn strike_letter(
        &self,
        to: NodeNo,
        user: &Name,
        marks: Sequence<StrikeMark>,
    ) -> Result<Letter, AllocError>
        requires whole { IsWhole self.now }
        requires fresh { self.now.numbers.calls + 1 ≤ greatest }
        ensures { IfOk result (λ letter. letter ≡ record { from = self.now.store.own; to = to; epoch = epoch_of (node_seen self.now); ticket = Some (new_number self.now.store.own (node_seen self.now)); body = StrikeBody user.now marks }) }
    {
        Ok(Letter {
            from: self.store.own(),
            to,
            epoch: self.epoch(),
            ticket: Some(self.next_ticket()),
            body: Body::Strike {
                user: user.copy()?,
                marks,
            },
        })
    }

    // These letters, and after them the one to the node, if it is asked for anything.
    fn with_strike(
        &self,
        alloc: Global,
        mut letters: Sequence<Letter>,
        to: NodeNo,
        user: &Name,
        asks: &[(MsgId, NodeSet)],
    ) -> Result<Sequence<Letter>, AllocError>
        requires whole { IsWhole self.now }
        requires calls { self.now.numbers.calls + 1 ≤ greatest }
        requires fresh { self.now.numbers.count + length asks.now ≤ greatest }
        requires fits { AllCanBeTaken letters }
        ensures letters { IfOk result (λ list. list ≡ letters ++ strike_to self.now.store.own (epoch_of (node_seen self.now)) (new_number self.now.store.own (node_seen self.now)) user.now to (marks_for to (next_dated self.now asks.now))) }
        ensures fits { IfOk result AllCanBeTaken }
    {
        let marks = self.marks_for(alloc, to, asks)?;
        if marks.is_empty() {
            return Ok(letters);
        }
        letters.push(self.strike_letter(to, user, marks)?)?;
        Ok(letters)
    }

    // The letters to the nodes from 1 to so many, but for the own one: what each is asked for.
    fn strikes_to(
        &self,
        alloc: Global,
        user: &Name,
        asks: &[(MsgId, NodeSet)],
        nodes: u8,
    ) -> Result<Sequence<Letter>, AllocError>
        requires whole { IsWhole self.now }
        requires calls { self.now.numbers.calls + 1 ≤ greatest }
        requires fresh { self.now.numbers.count + length asks.now ≤ greatest }
        requires few { nodes ≤ 16 }
        ensures letters { IfOk result (λ letters. letters ≡ strikes_to self.now.store.own (epoch_of (node_seen self.now)) (new_number self.now.store.own (node_seen self.now)) user.now (next_dated self.now asks.now) nodes) }
        ensures fits { IfOk result AllCanBeTaken }
    {
        if nodes == 0 {
            return Ok(no_letters(alloc));
        }
        let letters = self.strikes_to(alloc, user, asks, nodes - 1)?;
        let to = node_of(nodes);
        if to == self.store.own() {
            return Ok(letters);
        }
        self.with_strike(alloc, letters, to, user, asks)
    }

    // Takes these deletions.
    fn take_marks<D: Disk>(
        &mut self,
        alloc: Global,
        disk: &mut D,
        user: &Name,
        marks: &[StrikeMark],
    ) -> Result<(), KeepFault>
        requires works { CanWork (D.seen disk.old) self.old }
        requires stamps { All (λ mark. IsStamp mark.stamp) marks.now }
        ensures wrote { WroteChange (view_of D.seen D.faults D.clock) (take_all self.old.store.own (gone_updates user.now (all_nodes self.old.shape.nodes) marks.now)) result self.old.store disk.old self.new.store disk.new }
        ensures fits { All (λ update. IsObject update.key update.state) (gone_updates user.now (all_nodes self.old.shape.nodes) marks.now) }
        ensures same { self.new ≡ record self.old { store = self.new.store } }
        ensures settled { OnOk result (D.settled disk.old → D.settled disk.new) }
    {
        is_name(user);
        are_ids(marks);
        let targets = self.everyone();
        self.store.take_gone(alloc, disk, user, targets, marks)
    }

    // Takes what the own node is asked for, and sends the others what they are asked for. All memory but that of the records is
    // taken before the first of them.
    fn strike_and_send<D: Disk>(
        &mut self,
        alloc: Global,
        disk: &mut D,
        user: &Name,
        items: &[Item],
        members: &[NodeNo],
    ) -> Result<(Option<Ticket>, Outbox), NodeFault>
        requires works { CanWork (D.seen disk.old) self.old }
        requires fresh { lacks_numbers 0 (length items.now) self.old ≡ false }
        requires members { members.now ≡ nodes_in (members_of (node_seen self.old)) self.old.shape.nodes }
        ensures begins { BeginsStrike (view_of D.seen D.faults D.clock) user.now (struck_of items.now) self.old disk.old self.new disk.new result }
        ensures settled { LeavesUp result → D.settled disk.old → D.settled disk.new }
    {
        let own = self.store.own();
        let ticket = self.next_ticket();
        let asks = asks_among(alloc, self.shape.confirm, own, items, members)?;
        let marks = self.marks_for(alloc, own, &asks)?;
        let letters = self.strikes_to(alloc, user, &asks, self.shape.nodes)?;
        self.tickets
            .open_deletion(alloc, self.numbers.calls + 1, user, &asks)?;
        self.take_marks(alloc, disk, user, marks.as_slice())?;
        self.numbers.draw(0, items.len() as u64);
        self.numbers.know_marks(own, marks.as_slice());
        Ok((Some(ticket), Outbox::sent(letters)))
    }

    /// Begins the deletion of these copies of the user under the next ticket: those that the node is asked for are recorded, and
    /// the letters to the others are answered. It fails at once where the epoch has fewer than F members or none.
    ///
    /// # Errors
    ///
    /// `Worn` exactly where a number that the call would draw is used up.
    pub fn strike<D: Disk>(
        &mut self,
        alloc: Global,
        disk: &mut D,
        user: &Name,
        items: &[Item],
    ) -> Result<(Option<Ticket>, Outbox), NodeFault>
        requires works { CanWork (D.seen disk.old) self.old }
        ensures begins { (plan : PlainPlan) (own seconds : ℕ) → IsNodeOf plan own self.old → NodeBegins (view_of D.seen D.faults D.clock) plan own seconds (Strikes user.now (struck_of items.now)) self.old disk.old self.new disk.new result }
        ensures settled { LeavesUp result → D.settled disk.old → D.settled disk.new }
    {
        let members = self.members(alloc)?;
        let mishaps = few_members(&members, self.shape.confirm);
        if has_any(&mishaps) {
            return self.refuse(alloc, CallKind::Strike, mishaps, 0);
        }
        if self.numbers.lack(0, items.len() as u64) {
            return Err(NodeFault::Worn);
        }
        self.strike_and_send(alloc, disk, user, items, &members)
    }
}
