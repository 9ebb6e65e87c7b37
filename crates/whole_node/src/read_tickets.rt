//! Tickets of calls that read, and the end of a login.
ghost use Rattle.std.specs.Prelude.{◌≡◌, ℕ, List, Option, None, false, is_some};
ghost use Rattle.mail_model.specs.Plan.{Plan as PlainPlan};
ghost use Rattle.cluster_model.specs.Steps.{is_worn_for};
ghost use Rattle.cluster_model.specs.Steps.NodeCall.{Leave as Leaves};
ghost use Rattle.node_core.specs.Nodes.{node_seen};
ghost use Rattle.node_tickets.specs.Seen.{kind_of_mishap};
ghost use Rattle.object_model.specs.Locks.{released};
ghost use Rattle.node_reads.specs.Asking.{user_befallen_at, user_held_at};
ghost use Rattle.node_reads.specs.Tables.{ticket_at};
ghost use Rattle.whole_node.specs.Nodes.{HasReads, WholeWorks};
ghost use Rattle.whole_node.specs.ReadTickets.{let_go_for, reading_standing, AsksRead, GivesUpRead, BefallsRead, LeavesLogin};

use crate::node::WholeNode;
use call_tickets::Ask;
use drop_lock::Locks;
use mail_base::{Letter, Name, NodeNo, Ticket};
use node_reads::{NodeReads, leave};
use node_tickets::MishapKind;
use std::alloc::{AllocError, Global};

// The lock of a login that the node manages itself goes back where a mishap at that node makes the login fail.
fn let_go_befallen(locks: &mut Locks, reads: &NodeReads, ticket: Ticket, at: NodeNo)
    ensures { locks.new ≡ let_go_for (user_befallen_at reads.now.own at (ticket_at reads.now ticket)) ticket locks.old }
{
    if let Some(user) = reads.user_befallen(ticket, at) {
        locks.release(user, ticket);
    }
}

// So it does where the login is given up.
fn let_go_given_up(locks: &mut Locks, reads: &NodeReads, ticket: Ticket)
    ensures { locks.new ≡ let_go_for (user_held_at reads.now.own (ticket_at reads.now ticket)) ticket locks.old }
{
    if let Some(user) = reads.user_held(ticket) {
        locks.release(user, ticket);
    }
}

impl WholeNode {
    /// Whether a ticket of a call that reads stands under the number. It takes no memory.
    pub fn reads_stand(&self, ticket: Ticket) -> bool
        requires reads { HasReads self.now }
        ensures { result ≡ is_some (reading_standing self.now ticket) }
    {
        self.reads.stands(ticket)
    }

    /// How far the call that reads has come, or its answer; nothing exactly where no such ticket stands under the number. One that is
    /// done is taken out.
    ///
    /// # Errors
    ///
    /// Only out of memory, where the call is done. The ticket then stands as it was.
    pub fn ask_read(&mut self, alloc: Global, ticket: Ticket) -> Result<Option<Ask>, AllocError>
        requires reads { HasReads self.old }
        ensures asks { AsksRead ticket result self.old self.new }
        ensures works { (seen : Option (List ℕ)) → WholeWorks seen self.old → WholeWorks seen self.new }
    {
        self.reads.ask(alloc, ticket)
    }

    /// Gives the ticket of a call that reads up, if it stands. The lock that its login may hold goes back, by the letter where another
    /// node manages the user. It takes no memory.
    pub fn give_up_read(&mut self, ticket: Ticket) -> Option<Letter>
        requires reads { HasReads self.old }
        ensures gives_up { GivesUpRead ticket result self.old self.new }
        ensures works { (seen : Option (List ℕ)) → WholeWorks seen self.old → WholeWorks seen self.new }
    {
        let_go_given_up(&mut self.locks, &self.reads, ticket);
        let epoch = self.mail.epoch();
        self.reads.give_up(epoch, ticket)
    }

    /// Notes a mishap of a letter to or from the node at the ticket of a call that reads, if it stands. A login that waits for the node
    /// fails, and its lock goes back, by the letter where another node manages the user; a fetch that does asks the next holder by the
    /// letter. It takes no memory.
    pub fn befall(&mut self, ticket: Ticket, kind: MishapKind, at: NodeNo) -> Option<Letter>
        requires reads { HasReads self.old }
        ensures befalls { BefallsRead (kind_of_mishap kind) at ticket result self.old self.new }
        ensures mail { self.new.mail ≡ self.old.mail }
        ensures works { (seen : Option (List ℕ)) → WholeWorks seen self.old → WholeWorks seen self.new }
    {
        let_go_befallen(&mut self.locks, &self.reads, ticket, at);
        let epoch = self.mail.epoch();
        self.reads.mishap(epoch, ticket, kind, at)
    }

    // The lock of a login goes back that the node has managed itself.
    fn leave_here(&mut self, user: &Name, login: Ticket) -> Option<Letter>
        ensures locks { self.new.locks ≡ released user.now login self.old.locks }
        ensures none { result ≡ None }
        ensures mail { self.new.mail ≡ self.old.mail }
        ensures maps { self.new.maps ≡ self.old.maps }
        ensures reads { self.new.reads ≡ self.old.reads }
    {
        self.locks.release(user, login);
        None
    }

    /// A session of this login has ended: the lock goes back to its manager, by the letter where that is another node. It has no ticket,
    /// and takes no memory.
    pub fn leave(&mut self, user: Name, login: Ticket, manager: NodeNo) -> Option<Letter>
        requires reads { HasReads self.old }
        ensures leaves { LeavesLogin user login manager result self.old self.new }
        ensures fresh { (plan : PlainPlan) (seconds : ℕ) → is_worn_for plan seconds (node_seen self.old.mail) (Leaves user login manager) ≡ false }
        ensures mail { self.new.mail ≡ self.old.mail }
        ensures works { (seen : Option (List ℕ)) → WholeWorks seen self.old → WholeWorks seen self.new }
    {
        self.mail.can_leave();
        if manager == self.mail.own() {
            return self.leave_here(&user, login);
        }
        leave(self.mail.own(), self.mail.epoch(), user, login, manager)
    }
}
