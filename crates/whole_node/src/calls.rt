//! The calls of a node, and its maps after them.
ghost use Rattle.std.specs.Prelude.{◌≡◌, ℕ, List, All, Option, IfOk, is_some};
ghost use Rattle.mail_model.specs.Plan.{Plan as PlainPlan};
ghost use Rattle.mail_model.specs.Identity.Key.{Message};
ghost use Rattle.cluster_model.specs.Deeds.{hear};
ghost use Rattle.cluster_model.specs.Rules.{widen};
ghost use Rattle.node_store.specs.Disks.{view_of};
ghost use Rattle.node_tickets.specs.Seen.{kind_of_mishap};
ghost use Rattle.node_tickets.specs.Standing.{asks_seen, asks_at, asked_out, befell_in, ticket_taken_out};
ghost use Rattle.node_core.specs.Nodes.{node_seen, IsWhole, CanWork, IsNodeOf, ChangesTickets};
ghost use Rattle.node_core.specs.Spelling.{CanBeTaken};
ghost use Rattle.node_core.specs.Standing.{ticket_standing};
ghost use Rattle.node_core.specs.Works.{LeavesUp};
ghost use Rattle.node_core.specs.Beginning.{NodeBegins, IsTextEnded, call_seen};
ghost use Rattle.node_core.specs.Hearing.{HearsLetter};
ghost use Rattle.node_core.specs.Pushing.{PushesOut, WidensCopy};
ghost use Rattle.whole_node.specs.Hearing.{FitsMaps};
ghost use Rattle.joint_model.specs.Joint.Life.{Up};
ghost use Rattle.joint_world.specs.Staying.{KeepsReads, IsMailCall};
ghost use Rattle.whole_node.specs.Nodes.{joint_seen, KeepsBeside, WholeWorks};
ghost use Rattle.whole_node.specs.Following.{FollowsRule, FollowsLetter, FollowsCall};

use crate::node::WholeNode;
use crate::noting::{note_begun, note_letter};
use call_tickets::{Ask, Call};
use io_edge::Disk;
use mail_base::{Letter, MsgId, Name, NodeNo, Ticket};
use node_core::{NodeFault, Outbox};
use node_tickets::MishapKind;
use std::alloc::Global;

impl WholeNode {
    // The half for messages begins a call of messages.
    fn begin_mail<D: Disk>(
        &mut self,
        alloc: Global,
        disk: &mut D,
        call: Call,
        seconds: u64,
    ) -> Result<(Option<Ticket>, Outbox), NodeFault>
        requires works { CanWork (D.seen disk.old) self.old.mail }
        requires mail { IsMailCall (call_seen call) }
        requires ended { IsTextEnded (call_seen call) }
        ensures begins { (plan : PlainPlan) (own : ℕ) → IsNodeOf plan own self.old.mail → NodeBegins (view_of D.seen D.faults D.clock) plan own seconds (call_seen call) self.old.mail disk.old self.new.mail disk.new result }
        ensures maps { self.new.maps ≡ self.old.maps }
        ensures beside { KeepsBeside self.old self.new }
        ensures settled { LeavesUp result → D.settled disk.old → D.settled disk.new }
    {
        match call {
            Call::Deliver(deliver) => self.mail.deliver(alloc, disk, deliver, seconds),
            Call::Strike { user, items } => {
                self.mail.strike(alloc, disk, &user, items.as_slice())
            }
            Call::Login { .. } | Call::Fetch { .. } | Call::Leave { .. } => unreachable!(),
        }
    }

    /// Begins a call of messages under the next ticket: a Deliver or a Strike. The copies that the node files or deletes itself are
    /// noted. The text of a message has to be empty or to end in CRLF.
    ///
    /// # Errors
    ///
    /// `Worn` exactly where a number that the call would draw is used up.
    pub fn begin<D: Disk>(
        &mut self,
        alloc: Global,
        disk: &mut D,
        call: Call,
        seconds: u64,
    ) -> Result<(Option<Ticket>, Outbox), NodeFault>
        requires works { WholeWorks (D.seen disk.old) self.old }
        requires mail { IsMailCall (call_seen call) }
        requires ended { IsTextEnded (call_seen call) }
        ensures begins { (plan : PlainPlan) (own : ℕ) → IsNodeOf plan own self.old.mail → NodeBegins (view_of D.seen D.faults D.clock) plan own seconds (call_seen call) self.old.mail disk.old self.new.mail disk.new result }
        ensures follows { (plan : PlainPlan) (own : ℕ) → IsNodeOf plan own self.old.mail → FollowsCall (view_of D.seen D.faults D.clock) plan own seconds (call_seen call) result self.old disk.old self.new disk.new }
        ensures beside { LeavesUp result → KeepsReads (Up (joint_seen self.old)) (joint_seen self.new) }
        ensures fits { IfOk result (λ begun. All FitsMaps (begun.1).letters) }
        ensures works { LeavesUp result → WholeWorks (D.seen disk.new) self.new }
        ensures settled { LeavesUp result → D.settled disk.old → D.settled disk.new }
    {
        let begun = self.begin_mail(alloc, disk, call, seconds)?;
        if note_begun(&mut self.maps, &self.mail, &begun.0).is_err() {
            return Err(NodeFault::NoMemory { down: true });
        }
        Ok(begun)
    }

    /// Hears a letter of messages that is for this node, or throws it, as `Node::hear`, and notes the copies that it speaks of.
    pub fn hear_mail<D: Disk>(
        &mut self,
        alloc: Global,
        disk: &mut D,
        letter: &Letter,
    ) -> Result<Outbox, NodeFault>
        requires works { WholeWorks (D.seen disk.old) self.old }
        requires spelt { CanBeTaken letter.now.body }
        ensures hears { (plan : PlainPlan) (own : ℕ) → IsNodeOf plan own self.old.mail → HearsLetter (view_of D.seen D.faults D.clock) own plan.nodes letter.now self.old.mail disk.old self.new.mail disk.new result }
        ensures follows { (plan : PlainPlan) (own : ℕ) → IsNodeOf plan own self.old.mail → FollowsLetter (λ node disk. hear own plan.nodes node disk letter.now) result self.old self.new }
        ensures beside { LeavesUp result → KeepsReads (Up (joint_seen self.old)) (joint_seen self.new) }
        ensures fits { IfOk result (λ outbox. All FitsMaps outbox.letters) }
        ensures works { LeavesUp result → WholeWorks (D.seen disk.new) self.new }
        ensures settled { LeavesUp result → D.settled disk.old → D.settled disk.new }
    {
        let outbox = self.mail.hear(alloc, disk, letter)?;
        if outbox.thrown.is_some() {
            return Ok(outbox);
        }
        if note_letter(&mut self.maps, &self.mail, &letter.body).is_err() {
            return Err(NodeFault::NoMemory { down: true });
        }
        Ok(outbox)
    }

    /// Pushes to the member what is due to it, as `Node::push`.
    ///
    /// # Errors
    ///
    /// It is never `Worn`, and changes nothing.
    pub fn push<D: Disk>(
        &mut self,
        alloc: Global,
        disk: &mut D,
        to: NodeNo,
        most: usize,
        room: u64,
    ) -> Result<Outbox, NodeFault>
        requires works { WholeWorks (D.seen disk.old) self.old }
        ensures pushes { (plan : PlainPlan) (own : ℕ) → IsNodeOf plan own self.old.mail → PushesOut (view_of D.seen D.faults D.clock) own to most room self.old.mail disk.old self.new.mail disk.new result }
        ensures maps { self.new.maps ≡ self.old.maps }
        ensures beside { LeavesUp result → KeepsReads (Up (joint_seen self.old)) (joint_seen self.new) }
        ensures fits { IfOk result (λ outbox. All FitsMaps outbox.letters) }
        ensures works { LeavesUp result → WholeWorks (D.seen disk.new) self.new }
        ensures settled { D.settled disk.old → D.settled disk.new }
    {
        self.mail.push(alloc, disk, to, most, room)
    }

    /// The user's copy of the message gets the node as a target, as `Node::widen`. It is here before and after, so nothing is
    /// noted.
    ///
    /// # Errors
    ///
    /// It is never `Worn`.
    pub fn widen<D: Disk>(
        &mut self,
        alloc: Global,
        disk: &mut D,
        user: &Name,
        id: MsgId,
        to: NodeNo,
    ) -> Result<bool, NodeFault>
        requires works { WholeWorks (D.seen disk.old) self.old }
        ensures widens { (plan : PlainPlan) (own : ℕ) → IsNodeOf plan own self.old.mail → WidensCopy (view_of D.seen D.faults D.clock) own to (Message user.now id) self.old.mail disk.old self.new.mail disk.new result }
        ensures follows { (plan : PlainPlan) (own : ℕ) → IsNodeOf plan own self.old.mail → FollowsRule (λ node disk. widen own to (Message user.now id) node disk) result self.old self.new }
        ensures beside { LeavesUp result → KeepsReads (Up (joint_seen self.old)) (joint_seen self.new) }
        ensures works { LeavesUp result → WholeWorks (D.seen disk.new) self.new }
        ensures settled { LeavesUp result → D.settled disk.old → D.settled disk.new }
    {
        self.mail.widen(alloc, disk, user, id, to)
    }

    /// How far a call of messages has come, or its answer, as `Node::ask`.
    pub fn ask(&mut self, ticket: Ticket) -> Option<Ask>
        requires whole { IsWhole self.old.mail }
        ensures answer { asks_seen result ≡ asks_at self.old.mail.shape.confirm (ticket_standing self.old.mail ticket) }
        ensures tickets { ChangesTickets (asked_out self.old.mail.shape.confirm ticket.seq (ticket_standing self.old.mail ticket) (node_seen self.old.mail).tickets) self.old.mail self.new.mail }
        ensures maps { self.new.maps ≡ self.old.maps }
        ensures beside { KeepsReads (Up (joint_seen self.old)) (joint_seen self.new) }
        ensures works { (seen : Option (List ℕ)) → WholeWorks seen self.old → WholeWorks seen self.new }
    {
        self.mail.ask(ticket)
    }

    /// Takes the ticket of a call of messages out, as `Node::give_up`.
    pub fn give_up(&mut self, ticket: Ticket) -> bool
        requires whole { IsWhole self.old.mail }
        ensures stood { result ≡ is_some (ticket_standing self.old.mail ticket) }
        ensures tickets { ChangesTickets (ticket_taken_out ticket.seq (ticket_standing self.old.mail ticket) (node_seen self.old.mail).tickets) self.old.mail self.new.mail }
        ensures maps { self.new.maps ≡ self.old.maps }
        ensures beside { KeepsReads (Up (joint_seen self.old)) (joint_seen self.new) }
        ensures works { (seen : Option (List ℕ)) → WholeWorks seen self.old → WholeWorks seen self.new }
    {
        self.mail.give_up(ticket)
    }

    /// A mishap of a letter of messages to or from the node is counted at the ticket, as `Node::mishap`.
    pub fn mishap(&mut self, ticket: Ticket, kind: MishapKind, at: NodeNo) -> bool
        requires whole { IsWhole self.old.mail }
        ensures stood { result ≡ is_some (ticket_standing self.old.mail ticket) }
        ensures tickets { ChangesTickets (befell_in (kind_of_mishap kind) at ticket.seq (ticket_standing self.old.mail ticket) (node_seen self.old.mail).tickets) self.old.mail self.new.mail }
        ensures maps { self.new.maps ≡ self.old.maps }
        ensures beside { KeepsReads (Up (joint_seen self.old)) (joint_seen self.new) }
        ensures works { (seen : Option (List ℕ)) → WholeWorks seen self.old → WholeWorks seen self.new }
    {
        self.mail.mishap(ticket, kind, at)
    }
}
