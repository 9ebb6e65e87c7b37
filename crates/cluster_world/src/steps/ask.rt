//! A call is asked for.
ghost use Rattle.std.specs.Prelude.{◌≡◌, ◌+◌, ◌≤◌, ◌<◌, ◌^◌, ◌++◌, ℕ, [], length, None, IfOk, OnOk, OnErr, if◌then◌else◌};
ghost use Rattle.node_store.specs.Disks.{view_of};
ghost use Rattle.node_tickets.specs.Seen.{ask_seen};
ghost use Rattle.world_book.specs.Books.{entries_of as all_of, spare_of};
ghost use Rattle.cluster_world.specs.Flights.{InFlight};
ghost use Rattle.cluster_world.specs.Installs.{installs_in, installs_booked};
ghost use Rattle.cluster_world.specs.Lives.{of_node, all_falls_left, CanWorkOn};
ghost use Rattle.cluster_world.specs.Worlds.{state_with, life_among};
ghost use Rattle.cluster_world.specs.Turns.{node_refusal};
ghost use Rattle.cluster_world.specs.Asking.{IsUpWhole, StandsAmongMails, IsDoneAt, AreForTicket, confirms, AsksNode};
ghost use Rattle.cluster_world.specs.Steps.{StepDid, AreSettled};
ghost use Rattle.cluster_world.specs.Sure.{IsSurelyDone};
ghost use Rattle.cluster_world.specs.declared.step.Step.TheVariants as step;

use crate::entries::entries_of;
use crate::fault::StepFault;
use crate::life::Life;
use crate::nodes::Nodes;
use crate::step::Said;
use call_tickets::{Answer, Ask};
use io_edge::Disk;
use mail_base::{NodeNo, Ticket};
use std::alloc::{AllocError, Global};
use world_book::{Book, Entry};

/// The same ticket once more.
pub(crate) fn ticket_of(ticket: &Ticket) -> Ticket
    ensures { result ≡ ticket.now }
{
    Ticket::new(ticket.node, ticket.boot, ticket.seq)
}

/// The node of a ticket.
pub(crate) fn node_of(ticket: &Ticket) -> NodeNo
    ensures { result ≡ ticket.now.node }
{
    ticket.node
}

// What the book is to say, should the ticket be done.
fn entries_at(alloc: Global, life: &Life, ticket: &Ticket) -> Result<Vec<Entry>, AllocError>
    requires up { IsUpWhole life.now }
    ensures fit { IfOk result (λ entries. AreForTicket ticket.now life.now entries.items) }
    ensures installs { IfOk result (λ entries. installs_in entries.items ≡ []) }
    ensures done { OnErr result (IsDoneAt ticket.now life.now) }
{
    match life {
        Life::Up(node) => {
            let mail = node.mail();
            if mail.is_done(ticket_of(ticket)) {
                entries_of(alloc, mail.wants(ticket_of(ticket)))
            } else {
                Ok(Vec::new(alloc))
            }
        }
        Life::Down | Life::Lost => unreachable!(),
    }
}

/// Asks a node that is up.
pub(crate) fn ask_at(life: &mut Life, ticket: &Ticket) -> Option<Ask>
    requires up { IsUpWhole life.old }
    ensures { AsksNode ticket.now result life.old life.new }
{
    match life {
        Life::Up(node) => node.ask(ticket_of(ticket)),
        Life::Down | Life::Lost => unreachable!(),
    }
}

fn confirms(ask: &Ask) -> bool
    ensures { result ≡ confirms (ask_seen ask.now) }
{
    let answer = match ask {
        Ask::Pending { .. } => return false,
        Ask::Done(answer) => answer,
    };
    match answer {
        Answer::Stored { .. } | Answer::Dropped { .. } => true,
        Answer::Listed { .. }
        | Answer::Wrong { .. }
        | Answer::InUse { .. }
        | Answer::NoProfile { .. }
        | Answer::Part { .. }
        | Answer::GoneAlready
        | Answer::Failed(_) => false,
    }
}

// Room for so many entries, and for the falls of all nodes. Where there are no entries it takes no memory.
fn make_room(book: &mut Book, count: usize, falls: usize) -> Result<(), AllocError>
    requires fits { count + falls < 2 ^ 64 }
    ensures entries { all_of book.new ≡ all_of book.old }
    ensures spare { (need : ℕ) → need ≤ falls → need ≤ spare_of book.old → OnOk result (need + count ≤ spare_of book.new) }
    ensures some { OnErr result (1 ≤ count) }
    ensures same { OnErr result (spare_of book.new ≡ spare_of book.old) }
{
    if count == 0 {
        return Ok(());
    }
    book.reserve(count + falls)?;
    Ok(())
}

// The book has these entries, where the answer confirms them.
fn enter(book: &mut Book, ask: &Ask, entries: Vec<Entry>)
    requires room { length entries.items ≤ spare_of book.old }
    ensures entries { all_of book.new ≡ all_of book.old ++ (if confirms (ask_seen ask.now) then entries.items else []) }
    ensures spare { spare_of book.old ≤ spare_of book.new + length entries.items }
{
    if confirms(ask) {
        book.add_all(entries);
    }
}

/// Asks what became of a call of messages. One that is done ends, and the book has what was confirmed. Where it is not done this takes no
/// memory.
pub(crate) fn ask_for<D: Disk>(
    alloc: Global,
    nodes: &mut Nodes<D>,
    book: &mut Book,
    ticket: &Ticket,
) -> Result<Said, StepFault>
    requires fit { node_refusal nodes.old.plan (life_among nodes.old) (step.Ask ticket.now) ≡ None }
    requires mail { StandsAmongMails ticket.now (of_node nodes.old.lives.items ticket.now.node) }
    requires ready { CanWorkOn D.seen nodes.old.plan nodes.old.lives.items nodes.old.disks.items }
    requires room { all_falls_left nodes.old.lives.items ≤ spare_of book.old }
    ensures did { (flying : InFlight) (seconds : ℕ) → StepDid (view_of D.seen D.faults D.clock) result (step.Ask ticket.now) (state_with nodes.old flying seconds book.old) (state_with nodes.new flying seconds book.new) }
    ensures sure { (flying : InFlight) (seconds : ℕ) → IsSurelyDone (state_with nodes.old flying seconds book.old) (step.Ask ticket.now) result }
    ensures ready { CanWorkOn D.seen nodes.new.plan nodes.new.lives.items nodes.new.disks.items }
    ensures settled { (flying : InFlight) (seconds : ℕ) → AreSettled D.settled (state_with nodes.old flying seconds book.old) → AreSettled D.settled (state_with nodes.new flying seconds book.new) }
    ensures room { all_falls_left nodes.new.lives.items ≤ spare_of book.new }
    ensures installs { installs_booked book.new ≡ installs_booked book.old }
{
    let entries = entries_at(alloc, nodes.at(node_of(ticket)), ticket)?;
    make_room(book, entries.len(), nodes.most_falls())?;
    let Some(ask) = nodes.ask(ticket) else {
        unreachable!()
    };
    enter(book, &ask, entries);
    Ok(Said::Asked(ask))
}
