//! A call that reads is asked for.
ghost use Rattle.std.specs.Prelude.{◌≡◌, ◌≤◌, ℕ, None, IfSome};
ghost use Rattle.node_store.specs.Disks.{view_of};
ghost use Rattle.world_book.specs.declared.book.Book.{Book as ABook};
ghost use Rattle.cluster_world.specs.AskingReads.{IsReader, StandsAmongReads, AsksReading, IsReadAskedOn};
ghost use Rattle.cluster_world.specs.Changes.{ChangesNode};
ghost use Rattle.cluster_world.specs.Flights.{InFlight};
ghost use Rattle.cluster_world.specs.Lives.{of_node, all_falls_left, CanWorkOn};
ghost use Rattle.cluster_world.specs.Worlds.{state_with, life_among};
ghost use Rattle.cluster_world.specs.Turns.{node_refusal};
ghost use Rattle.cluster_world.specs.Steps.{StepDid, AreSettled};
ghost use Rattle.cluster_world.specs.Sure.{IsSurelyDone};
ghost use Rattle.cluster_world.specs.declared.step.Step.TheVariants as step;

use crate::fault::StepFault;
use crate::life::Life;
use crate::nodes::{Nodes, place_of};
use crate::step::Said;
use crate::steps::ask::{node_of, ticket_of};
use call_tickets::Ask;
use io_edge::Disk;
use mail_base::Ticket;
use std::alloc::{AllocError, Global};

/// Asks a node that is up for a call that reads.
fn ask_read_at(alloc: Global, life: &mut Life, ticket: &Ticket) -> Result<Option<Ask>, AllocError>
    requires up { IsReader ticket.now.node life.old }
    ensures { AsksReading ticket.now result life.old life.new }
{
    match life {
        Life::Up(node) => node.ask_read(alloc, ticket_of(ticket)),
        Life::Down | Life::Lost => unreachable!(),
    }
}

/// Asks the node of the ticket, which is up.
fn ask_read_in<D>(
    alloc: Global,
    nodes: &mut Nodes<D>,
    ticket: &Ticket,
) -> Result<Option<Ask>, AllocError>
    requires within { ticket.now.node ≤ nodes.old.plan.nodes }
    requires up { IfSome (of_node nodes.old.lives.items ticket.now.node) (IsReader ticket.now.node) }
    ensures { ChangesNode ticket.now.node (IsReadAskedOn ticket.now result) nodes.old nodes.new }
{
    ask_read_at(alloc, &mut nodes.lives[place_of(node_of(ticket))], ticket)
}

/// Asks what became of a call that reads. One that is done ends. It takes memory only where it is done: a listing is joined then.
pub(crate) fn ask_read<D: Disk>(
    alloc: Global,
    nodes: &mut Nodes<D>,
    ticket: &Ticket,
) -> Result<Said, StepFault>
    requires fit { node_refusal nodes.old.plan (life_among nodes.old) (step.Ask ticket.now) ≡ None }
    requires reads { StandsAmongReads ticket.now (of_node nodes.old.lives.items ticket.now.node) }
    requires ready { CanWorkOn D.seen nodes.old.plan nodes.old.lives.items nodes.old.disks.items }
    ensures did { (flying : InFlight) (seconds : ℕ) (book : ABook) → StepDid (view_of D.seen D.faults D.clock) result (step.Ask ticket.now) (state_with nodes.old flying seconds book) (state_with nodes.new flying seconds book) }
    ensures sure { (flying : InFlight) (seconds : ℕ) (book : ABook) → IsSurelyDone (state_with nodes.old flying seconds book) (step.Ask ticket.now) result }
    ensures ready { CanWorkOn D.seen nodes.new.plan nodes.new.lives.items nodes.new.disks.items }
    ensures settled { (flying : InFlight) (seconds : ℕ) (book : ABook) → AreSettled D.settled (state_with nodes.old flying seconds book) → AreSettled D.settled (state_with nodes.new flying seconds book) }
    ensures falls { all_falls_left nodes.new.lives.items ≡ all_falls_left nodes.old.lives.items }
{
    let Some(ask) = ask_read_in(alloc, nodes, ticket)? else {
        unreachable!()
    };
    Ok(Said::Asked(ask))
}
