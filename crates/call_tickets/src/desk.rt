//! What sessions use of a cluster.
ghost use Rattle.std.specs.Prelude.{◌≡◌, List, Option, Some, IfNone};
ghost use Rattle.mail_model.specs.Book.{BookEntry};
ghost use Rattle.io_edge.specs.Causes.{Rose};
ghost use Rattle.session_model.specs.Calls as calls;
ghost use Rattle.call_tickets.specs.Seen.{call_seen};
ghost use Rattle.call_tickets.specs.Passes.{known_to, IsQuiet};
ghost use Rattle.call_tickets.specs.Begins.{DeskBegins, DeskLeaves};
ghost use Rattle.call_tickets.specs.Asks.{DeskAsks, OnlyRefuses};
ghost use Rattle.call_tickets.specs.declared.tally.Tally.{Tally as Counts};

use crate::{Ask, Call, Tally};
use mail_base::{Begun, NodeNo, Ticket};
use std::alloc::Global;

/// Why a desk did not do what it was asked.
#[derive(Clone, Copy, Debug, PartialEq, Eq)]
pub enum DeskFault {
    /// A node is not up, or what the ticket named stands no more.
    Down,
    /// A number is used up.
    Worn,
    /// Memory ran out.
    NoMemory,
}

/// A node that is up.
#[derive(Clone, Copy, Debug, PartialEq, Eq)]
pub struct Life {
    /// Its boot.
    pub boot: u32,
    /// The seconds of its clock, since 1970.
    pub seconds: u64,
}

/// Whether letters were looked at.
#[derive(Clone, Copy, Debug, PartialEq, Eq)]
pub enum Posted {
    /// There was something to do, and it was done.
    Did,
    /// No letter was in flight, and nothing was due.
    Quiet,
}

/// A call that was begun and waits for its answer.
#[derive(Debug, Drop)]
pub struct DeskTicket {
    /// Its ticket at its node.
    pub ticket: Ticket,
    /// What its beginning found.
    pub begun: Begun,
}

/// What sessions use of a cluster. Each caller has a pass, which every call is lent. A pass knows which entries of the book
/// its own calls added, where that is told, and counts what came of them. A pass may cease to tell within any call, as where
/// another caller makes a step of which nothing is known; one that told nothing never tells again.
pub trait Desk {
    /// What a caller holds.
    type Pass;

    /// Which passes are of this desk.
    ghost belongs: { Self → Self.Pass → Type 0 };

    /// The entries of the book that the pass's own calls added, where told.
    ghost own: { Self.Pass → Option (List BookEntry) };

    /// What it counted.
    ghost counts: { Self.Pass → Counts };

    /// The life of a node; nothing where it is not up, which is counted. Takes no memory.
    fn is_up(&self, pass: &mut Self::Pass, node: NodeNo) -> Option<Life>
        requires belongs { belongs self.now pass.old }
        ensures belongs { belongs self.now pass.new }
        ensures quiet { IsQuiet (known_to (own pass.old) (counts pass.old)) (known_to (own pass.new) (counts pass.new)) }
        ensures down { IfNone result (Rose (counts pass.old).down (counts pass.new).down) };

    /// Begins a call that has an answer.
    ///
    /// # Errors
    ///
    /// `Down`, `Worn`, which are counted, and out of memory. Nothing is then acknowledged or struck.
    fn begin(
        &self,
        alloc: Global,
        pass: &mut Self::Pass,
        node: NodeNo,
        call: Call,
    ) -> Result<DeskTicket, DeskFault>
        requires belongs { belongs self.now pass.old }
        ensures belongs { belongs self.now pass.new }
        ensures began { (asked : calls.Call) → call_seen call ≡ Some asked
            → DeskBegins asked result (known_to (own pass.old) (counts pass.old)) (known_to (own pass.new) (counts pass.new)) };

    /// Begins the Leave of a login, which has no answer.
    ///
    /// # Errors
    ///
    /// `Down`, `Worn`, which are counted, and out of memory. No Leave was then begun.
    fn leave(
        &self,
        alloc: Global,
        pass: &mut Self::Pass,
        node: NodeNo,
        call: Call,
    ) -> Result<(), DeskFault>
        requires belongs { belongs self.now pass.old }
        ensures belongs { belongs self.now pass.new }
        ensures left { DeskLeaves result (known_to (own pass.old) (counts pass.old)) (known_to (own pass.new) (counts pass.new)) };

    /// Asks what became of a call. A call that is done waits no more.
    ///
    /// # Errors
    ///
    /// `Down`, where its node is not up or its ticket stands no more, and `Worn`, which are counted, and out of memory.
    fn ask(
        &self,
        alloc: Global,
        pass: &mut Self::Pass,
        ticket: &DeskTicket,
    ) -> Result<Ask, DeskFault>
        requires belongs { belongs self.now pass.old }
        ensures belongs { belongs self.now pass.new }
        ensures asked { DeskAsks ticket.now.begun result (known_to (own pass.old) (counts pass.old)) (known_to (own pass.new) (counts pass.new)) };

    /// Gives up a call that still stands; one that stands no more is passed over.
    ///
    /// # Errors
    ///
    /// `Worn`, which is counted, and out of memory.
    fn give_up(
        &self,
        alloc: Global,
        pass: &mut Self::Pass,
        ticket: DeskTicket,
    ) -> Result<(), DeskFault>
        requires belongs { belongs self.now pass.old }
        ensures belongs { belongs self.now pass.new }
        ensures quiet { OnlyRefuses result (known_to (own pass.old) (counts pass.old)) (known_to (own pass.new) (counts pass.new)) };

    /// Has a letter posted, or what is due sent.
    ///
    /// # Errors
    ///
    /// `Worn`, which is counted, and out of memory.
    fn post_one(&self, alloc: Global, pass: &mut Self::Pass) -> Result<Posted, DeskFault>
        requires belongs { belongs self.now pass.old }
        ensures belongs { belongs self.now pass.new }
        ensures quiet { OnlyRefuses result (known_to (own pass.old) (counts pass.old)) (known_to (own pass.new) (counts pass.new)) };

    /// What the pass counted. Takes no memory.
    fn tally(&self, pass: &Self::Pass) -> Tally
        ensures { result ≡ counts pass.now };
}
