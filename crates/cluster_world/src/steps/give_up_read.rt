//! A call that reads is given up.
ghost use Rattle.std.specs.Prelude.{◌≡◌, ◌≤◌, ℕ, None, IfSome};
ghost use Rattle.node_store.specs.Disks.{view_of};
ghost use Rattle.node_reads.specs.Readings.{listed};
ghost use Rattle.world_book.specs.declared.book.Book.{Book as ABook};
ghost use Rattle.cluster_world.specs.AskingReads.{IsReader, StandsAmongReads, GivesReading, IsReadGivenOn};
ghost use Rattle.cluster_world.specs.Changes.{ChangesNode};
ghost use Rattle.cluster_world.specs.Hears.{AllCanBeHeard};
ghost use Rattle.cluster_world.specs.Lives.{of_node, all_falls_left, CanWorkOn};
ghost use Rattle.cluster_world.specs.Worlds.{state_with, life_among};
ghost use Rattle.cluster_world.specs.Turns.{node_refusal};
ghost use Rattle.cluster_world.specs.Steps.{StepDid, AreSettled};
ghost use Rattle.cluster_world.specs.Sure.{IsSurelyDone};
ghost use Rattle.cluster_world.specs.declared.step.Step.TheVariants as step;

use crate::fault::StepFault;
use crate::flying::{Flying, is_worn};
use crate::life::Life;
use crate::nodes::{Nodes, place_of};
use crate::queue::put_next;
use crate::step::Said;
use crate::steps::ask::{node_of, ticket_of};
use io_edge::Disk;
use mail_base::{Letter, Ticket};
use std::alloc::Global;

/// Gives a call that reads up at a node that is up, which may send a letter for it.
fn give_up_read_at(life: &mut Life, ticket: &Ticket) -> Option<Letter>
    requires up { IsReader ticket.now.node life.old }
    ensures { GivesReading ticket.now result life.old life.new }
{
    match life {
        Life::Up(node) => node.give_up_read(ticket_of(ticket)),
        Life::Down | Life::Lost => unreachable!(),
    }
}

/// The same at the node of the ticket.
fn give_up_read_in<D>(nodes: &mut Nodes<D>, ticket: &Ticket) -> Option<Letter>
    requires within { ticket.now.node ≤ nodes.old.plan.nodes }
    requires up { IfSome (of_node nodes.old.lives.items ticket.now.node) (IsReader ticket.now.node) }
    ensures given { ChangesNode ticket.now.node (IsReadGivenOn ticket.now result) nodes.old nodes.new }
    ensures heard { AllCanBeHeard (listed result) }
{
    give_up_read_at(&mut nodes.lives[place_of(node_of(ticket))], ticket)
}

/// Gives a call that reads up: its ticket stands no more, and the lock of its login goes back. Room in memory for one letter is made
/// before.
pub(crate) fn give_up_read<D: Disk>(
    alloc: Global,
    nodes: &mut Nodes<D>,
    flying: &mut Flying,
    ticket: &Ticket,
) -> Result<Said, StepFault>
    requires fit { node_refusal nodes.old.plan (life_among nodes.old) (step.GiveUp ticket.now) ≡ None }
    requires reads { StandsAmongReads ticket.now (of_node nodes.old.lives.items ticket.now.node) }
    requires ready { CanWorkOn D.seen nodes.old.plan nodes.old.lives.items nodes.old.disks.items }
    ensures did { (seconds : ℕ) (book : ABook) → StepDid (view_of D.seen D.faults D.clock) result (step.GiveUp ticket.now) (state_with nodes.old flying.old seconds book) (state_with nodes.new flying.new seconds book) }
    ensures sure { (seconds : ℕ) (book : ABook) → IsSurelyDone (state_with nodes.old flying.old seconds book) (step.GiveUp ticket.now) result }
    ensures ready { CanWorkOn D.seen nodes.new.plan nodes.new.lives.items nodes.new.disks.items }
    ensures settled { (seconds : ℕ) (book : ABook) → AreSettled D.settled (state_with nodes.old flying.old seconds book) → AreSettled D.settled (state_with nodes.new flying.new seconds book) }
    ensures falls { all_falls_left nodes.new.lives.items ≡ all_falls_left nodes.old.lives.items }
{
    if is_worn(flying.sent()) {
        return Err(StepFault::Worn);
    }
    let mut roomy = flying.make_room(alloc, 1)?;
    let letter = give_up_read_in(nodes, ticket);
    put_next(nodes, &mut roomy, letter);
    flying.put_back(roomy);
    Ok(Said::Done)
}
