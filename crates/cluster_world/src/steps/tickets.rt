//! A ticket is looked for among those of messages first, and then among those of calls that read.
ghost use Rattle.std.specs.Prelude.{◌≡◌, ◌≤◌, ℕ, None, Some, is_some};
ghost use Rattle.node_store.specs.Disks.{view_of};
ghost use Rattle.world_book.specs.Books.{spare_of};
ghost use Rattle.world_book.specs.declared.book.Book.{Book as ABook};
ghost use Rattle.cluster_world.specs.AskingReads.{IsReader};
ghost use Rattle.cluster_world.specs.Flights.{InFlight};
ghost use Rattle.cluster_world.specs.Installs.{installs_booked};
ghost use Rattle.cluster_world.specs.Lives.{all_falls_left, CanWorkOn};
ghost use Rattle.cluster_world.specs.Steps.{StepDid, AreSettled};
ghost use Rattle.cluster_world.specs.Sure.{IsSurelyDone};
ghost use Rattle.cluster_world.specs.Telling.{standing_on, reading_on};
ghost use Rattle.cluster_world.specs.Turns.{node_refusal};
ghost use Rattle.cluster_world.specs.Worlds.{state_with, life_among};
ghost use Rattle.cluster_world.specs.declared.step.Step.TheVariants as step;

use crate::fault::StepFault;
use crate::flying::Flying;
use crate::life::Life;
use crate::nodes::Nodes;
use crate::step::Said;
use crate::steps::ask::{ask_for, node_of, ticket_of};
use crate::steps::ask_read::ask_read;
use crate::steps::give_up::give_up_call;
use crate::steps::give_up_read::give_up_read;
use io_edge::Disk;
use mail_base::Ticket;
use std::alloc::Global;
use world_book::Book;

/// Whether a ticket of messages stands at a node that is up.
fn stands_among_mails(life: &Life, ticket: &Ticket) -> bool
    requires up { IsReader ticket.now.node life.now }
    ensures { result ≡ is_some (standing_on (Some life.now) ticket.now) }
{
    match life {
        Life::Up(node) => node.mail().kind(ticket_of(ticket)).is_some(),
        Life::Down | Life::Lost => unreachable!(),
    }
}

/// Whether one of a call that reads does.
fn stands_among_reads(life: &Life, ticket: &Ticket) -> bool
    requires up { IsReader ticket.now.node life.now }
    ensures { result ≡ is_some (reading_on (Some life.now) ticket.now) }
{
    match life {
        Life::Up(node) => node.reads_stand(ticket_of(ticket)),
        Life::Down | Life::Lost => unreachable!(),
    }
}

/// Asks what became of the call of a ticket.
pub(crate) fn ask_any<D: Disk>(
    alloc: Global,
    nodes: &mut Nodes<D>,
    book: &mut Book,
    ticket: &Ticket,
) -> Result<Said, StepFault>
    requires fit { node_refusal nodes.old.plan (life_among nodes.old) (step.Ask ticket.now) ≡ None }
    requires ready { CanWorkOn D.seen nodes.old.plan nodes.old.lives.items nodes.old.disks.items }
    requires room { all_falls_left nodes.old.lives.items ≤ spare_of book.old }
    ensures did { (flying : InFlight) (seconds : ℕ) → StepDid (view_of D.seen D.faults D.clock) result (step.Ask ticket.now) (state_with nodes.old flying seconds book.old) (state_with nodes.new flying seconds book.new) }
    ensures sure { (flying : InFlight) (seconds : ℕ) → IsSurelyDone (state_with nodes.old flying seconds book.old) (step.Ask ticket.now) result }
    ensures ready { CanWorkOn D.seen nodes.new.plan nodes.new.lives.items nodes.new.disks.items }
    ensures settled { (flying : InFlight) (seconds : ℕ) → AreSettled D.settled (state_with nodes.old flying seconds book.old) → AreSettled D.settled (state_with nodes.new flying seconds book.new) }
    ensures room { all_falls_left nodes.new.lives.items ≤ spare_of book.new }
    ensures installs { installs_booked book.new ≡ installs_booked book.old }
{
    let life = nodes.at(node_of(ticket));
    if stands_among_mails(life, ticket) {
        return ask_for(alloc, nodes, book, ticket);
    }
    if stands_among_reads(life, ticket) {
        return ask_read(alloc, nodes, ticket);
    }
    Err(StepFault::NoSuchTicket)
}

/// Gives the call of a ticket up.
pub(crate) fn give_up_any<D: Disk>(
    alloc: Global,
    nodes: &mut Nodes<D>,
    flying: &mut Flying,
    ticket: &Ticket,
) -> Result<Said, StepFault>
    requires fit { node_refusal nodes.old.plan (life_among nodes.old) (step.GiveUp ticket.now) ≡ None }
    requires ready { CanWorkOn D.seen nodes.old.plan nodes.old.lives.items nodes.old.disks.items }
    ensures did { (seconds : ℕ) (book : ABook) → StepDid (view_of D.seen D.faults D.clock) result (step.GiveUp ticket.now) (state_with nodes.old flying.old seconds book) (state_with nodes.new flying.new seconds book) }
    ensures sure { (seconds : ℕ) (book : ABook) → IsSurelyDone (state_with nodes.old flying.old seconds book) (step.GiveUp ticket.now) result }
    ensures ready { CanWorkOn D.seen nodes.new.plan nodes.new.lives.items nodes.new.disks.items }
    ensures settled { (seconds : ℕ) (book : ABook) → AreSettled D.settled (state_with nodes.old flying.old seconds book) → AreSettled D.settled (state_with nodes.new flying.new seconds book) }
    ensures falls { all_falls_left nodes.new.lives.items ≡ all_falls_left nodes.old.lives.items }
{
    let life = nodes.at(node_of(ticket));
    if stands_among_mails(life, ticket) {
        return give_up_call(nodes, flying, ticket);
    }
    if stands_among_reads(life, ticket) {
        return give_up_read(alloc, nodes, flying, ticket);
    }
    Err(StepFault::NoSuchTicket)
}
