//! What the calls of a desk do to the world of a board.
ghost use Rattle.std.specs.Prelude.{true};
ghost use Rattle.node_store.specs.Disks.{view_of};
ghost use Rattle.board_desk.specs.Deeds.{Begins, Leaves, Asks, GivesUp};

use call_tickets::{Ask, Call, DeskFault, DeskTicket};
use cluster_world::World;
use io_edge::Disk;
use mail_base::NodeNo;
use shard_board::Deed;
use solo_desk::{ask_call, begin_call, give_up_call, leave_login};
use std::alloc::Global;

/// A call with an answer begins at a node.
#[derive(Drop)]
pub struct Beginning {
    /// The node.
    pub node: NodeNo,
    /// The call. A Leave is refused.
    pub call: Call,
}

impl<D: Disk> Deed<D> for Beginning {
    type Out = Result<DeskTicket, DeskFault>;

    ghost asks = { λ deed world. Unit {0} };

    ghost did = { λ deed old result new. Begins (view_of D.seen D.faults D.clock) deed.node deed.call result old new };

    ghost blind = { λ deed nodes. true };

    fn is_blind(&self, nodes: u8) -> bool {
        let _ = nodes;
        true
    }

    fn act(self, alloc: Global, world: &mut World<D>) -> Result<DeskTicket, DeskFault> {
        begin_call(alloc, world, self.node, self.call)
    }

    fn short(self) -> Result<DeskTicket, DeskFault> {
        Err(DeskFault::NoMemory)
    }
}

/// The Leave of a login begins at a node.
#[derive(Drop)]
pub struct Leaving {
    /// The node.
    pub node: NodeNo,
    /// The Leave. Another call is refused.
    pub call: Call,
}

impl<D: Disk> Deed<D> for Leaving {
    type Out = Result<(), DeskFault>;

    ghost asks = { λ deed world. Unit {0} };

    ghost did = { λ deed old result new. Leaves (view_of D.seen D.faults D.clock) deed.node deed.call result old new };

    ghost blind = { λ deed nodes. true };

    fn is_blind(&self, nodes: u8) -> bool {
        let _ = nodes;
        true
    }

    fn act(self, alloc: Global, world: &mut World<D>) -> Result<(), DeskFault> {
        leave_login(alloc, world, self.node, self.call)
    }

    fn short(self) -> Result<(), DeskFault> {
        Err(DeskFault::NoMemory)
    }
}

/// It is asked what became of a call.
#[derive(Drop)]
pub struct Asking<'a> {
    /// What its beginning handed out.
    pub ticket: &'a DeskTicket,
}

impl<'a, D: Disk> Deed<D> for Asking<'a> {
    type Out = Result<Ask, DeskFault>;

    ghost asks = { λ deed world. Unit {0} };

    ghost did = { λ deed old result new. Asks (view_of D.seen D.faults D.clock) deed.ticket.now result old new };

    ghost blind = { λ deed nodes. true };

    fn is_blind(&self, nodes: u8) -> bool {
        let _ = nodes;
        true
    }

    fn act(self, alloc: Global, world: &mut World<D>) -> Result<Ask, DeskFault> {
        ask_call(alloc, world, self.ticket)
    }

    fn short(self) -> Result<Ask, DeskFault> {
        Err(DeskFault::NoMemory)
    }
}

/// A call that still stands is given up.
#[derive(Drop)]
pub struct GivingUp<'a> {
    /// What its beginning handed out.
    pub ticket: &'a DeskTicket,
}

impl<'a, D: Disk> Deed<D> for GivingUp<'a> {
    type Out = Result<(), DeskFault>;

    ghost asks = { λ deed world. Unit {0} };

    ghost did = { λ deed old result new. GivesUp (view_of D.seen D.faults D.clock) deed.ticket.now result old new };

    ghost blind = { λ deed nodes. true };

    fn is_blind(&self, nodes: u8) -> bool {
        let _ = nodes;
        true
    }

    fn act(self, alloc: Global, world: &mut World<D>) -> Result<(), DeskFault> {
        give_up_call(alloc, world, self.ticket)
    }

    fn short(self) -> Result<(), DeskFault> {
        Err(DeskFault::NoMemory)
    }
}
