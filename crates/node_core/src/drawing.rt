//! The tickets of calls that read: their numbers are drawn here, and kept elsewhere.
ghost use Rattle.std.specs.Prelude.{◌≡◌, ◌≤◌, ℕ, List, false};
ghost use Rattle.mail_model.specs.Plan.{Plan as PlainPlan};
ghost use Rattle.object_model.specs.Letters.{Number};
ghost use Rattle.cluster_model.specs.Rules.{new_number};
ghost use Rattle.cluster_model.specs.Steps.{NodeCall, greatest, is_worn_for};
ghost use Rattle.cluster_model.specs.Steps.NodeCall.{Leave as Leaves};
ghost use Rattle.cluster_model.specs.Makes.{DrawsTicket};
ghost use Rattle.node_tickets.specs.Seen.{kind_seen};
ghost use Rattle.node_core.specs.Nodes.{node_seen, IsWhole, Becomes};
ghost use Rattle.node_core.specs.Drawing.{lacks_ticket, with_call, RefusesRead};

use crate::failing::few_if;
use crate::fault::NodeFault;
use crate::node::Node;
use crate::numbers::Numbers;
use mail_base::{CallKind, Ticket};
use std::alloc::Global;

impl Numbers {
    // None of them is above the greatest.
    fn are_within(&self)
        ensures calls { self.now.calls ≤ greatest }
        ensures drawn { self.now.drawn ≤ greatest }
        ensures count { self.now.count ≤ greatest }
    {
        let _calls = self.calls;
        let _drawn = self.drawn;
        let _count = self.count;
    }
}

impl Node {
    /// Whether no ticket can be drawn any more: a call that reads is then worn. It takes no memory.
    pub fn is_worn(&self) -> bool
        ensures value { result ≡ lacks_ticket (node_seen self.now) }
        ensures reads { (plan : PlainPlan) (seconds : ℕ) (call : NodeCall) → DrawsTicket call → is_worn_for plan seconds (node_seen self.now) call ≡ result }
    {
        self.numbers.are_within();
        self.numbers.calls == u64::MAX
    }

    /// The end of a login draws no number, so it is never worn. It does nothing.
    pub fn can_leave(&self)
        ensures { (plan : PlainPlan) (seconds : ℕ) (user : List ℕ) (login : Number) (manager : ℕ) → is_worn_for plan seconds (node_seen self.now) (Leaves user login manager) ≡ false }
    {
        self.numbers.are_within();
    }

    /// Draws the ticket of a call that reads: `next_ticket` told it before. The node has no such ticket itself. It takes no
    /// memory.
    pub fn draw_ticket(&mut self) -> Ticket
        requires fresh { lacks_ticket (node_seen self.old) ≡ false }
        ensures ticket { result ≡ new_number self.old.store.own (node_seen self.old) }
        ensures drawn { Becomes (with_call (node_seen self.old)) self.old self.new }
    {
        let ticket = self.next_ticket();
        self.numbers.calls += 1;
        ticket
    }

    /// Begins a call that reads and fails at once: a login at a node without an epoch or without a manager of the user, and a
    /// fetch of which no holder is a member. It has its ticket among those of messages, which counts that too few nodes are
    /// members.
    ///
    /// # Errors
    ///
    /// `Worn` exactly where no ticket can be drawn any more; otherwise only out of memory. Nothing was changed then.
    pub fn refuse_read(&mut self, alloc: Global, kind: CallKind) -> Result<Ticket, NodeFault>
        requires whole { IsWhole self.old }
        ensures { RefusesRead (kind_seen kind) result self.old self.new }
    {
        if self.is_worn() {
            return Err(NodeFault::Worn);
        }
        self.tickets
            .open_failed(alloc, self.numbers.calls + 1, kind, few_if(true))?;
        Ok(self.draw_ticket())
    }
}
