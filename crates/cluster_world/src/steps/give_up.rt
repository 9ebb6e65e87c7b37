//! A call is given up.
ghost use Rattle.std.specs.Prelude.{◌≡◌, ℕ, None};
ghost use Rattle.node_store.specs.Disks.{view_of};
ghost use Rattle.world_book.specs.declared.book.Book.{Book as ABook};
ghost use Rattle.cluster_world.specs.Lives.{of_node, all_falls_left, CanWorkOn};
ghost use Rattle.cluster_world.specs.Worlds.{state_with, life_among};
ghost use Rattle.cluster_world.specs.Turns.{node_refusal};
ghost use Rattle.cluster_world.specs.Asking.{IsUpWhole, StandsAmongMails, IsRetold, tickets_without};
ghost use Rattle.cluster_world.specs.Steps.{StepDid, AreSettled};
ghost use Rattle.cluster_world.specs.Sure.{IsSurelyDone};
ghost use Rattle.cluster_world.specs.declared.step.Step.TheVariants as step;

use crate::fault::StepFault;
use crate::flying::{Flying, is_worn};
use crate::life::Life;
use crate::nodes::Nodes;
use crate::step::Said;
use crate::steps::ask::ticket_of;
use io_edge::Disk;
use mail_base::Ticket;

/// Gives a ticket up at a node that is up.
pub(crate) fn give_up_at(life: &mut Life, ticket: &Ticket)
    requires up { IsUpWhole life.old }
    ensures { IsRetold (tickets_without ticket.now) life.old life.new }
{
    match life {
        Life::Up(node) => {
            node.give_up(ticket_of(ticket));
        }
        Life::Down | Life::Lost => unreachable!(),
    }
}

/// Gives a call of messages up: its ticket stands no more. It takes no memory.
pub(crate) fn give_up_call<D: Disk>(
    nodes: &mut Nodes<D>,
    flying: &Flying,
    ticket: &Ticket,
) -> Result<Said, StepFault>
    requires fit { node_refusal nodes.old.plan (life_among nodes.old) (step.GiveUp ticket.now) ≡ None }
    requires mail { StandsAmongMails ticket.now (of_node nodes.old.lives.items ticket.now.node) }
    requires ready { CanWorkOn D.seen nodes.old.plan nodes.old.lives.items nodes.old.disks.items }
    ensures did { (seconds : ℕ) (book : ABook) → StepDid (view_of D.seen D.faults D.clock) result (step.GiveUp ticket.now) (state_with nodes.old flying.now seconds book) (state_with nodes.new flying.now seconds book) }
    ensures sure { (seconds : ℕ) (book : ABook) → IsSurelyDone (state_with nodes.old flying.now seconds book) (step.GiveUp ticket.now) result }
    ensures ready { CanWorkOn D.seen nodes.new.plan nodes.new.lives.items nodes.new.disks.items }
    ensures settled { (seconds : ℕ) (book : ABook) → AreSettled D.settled (state_with nodes.old flying.now seconds book) → AreSettled D.settled (state_with nodes.new flying.now seconds book) }
    ensures falls { all_falls_left nodes.new.lives.items ≡ all_falls_left nodes.old.lives.items }
{
    if is_worn(flying.sent()) {
        return Err(StepFault::Worn);
    }
    nodes.give_up(ticket);
    Ok(Said::Done)
}
