//! A node pushes to another what is due to it.
ghost use Rattle.std.specs.Prelude.{◌≡◌, ◌+◌, ◌≤◌, ◌<◌, ℕ, All, None, length, IfOk, IfErr};
ghost use Rattle.node_store.specs.Disks.{view_of};
ghost use Rattle.whole_node.specs.Hearing.{FitsMaps};
ghost use Rattle.cluster_world.specs.Hears.{AllCanBeHeard};
ghost use Rattle.world_book.specs.Books.{spare_of};
ghost use Rattle.cluster_world.specs.Asking.{IsUpWhole};
ghost use Rattle.cluster_world.specs.Installs.{installs_booked};
ghost use Rattle.cluster_world.specs.Lives.{all_falls_left, CanWorkOn};
ghost use Rattle.cluster_world.specs.Worlds.{state_with, life_among};
ghost use Rattle.cluster_world.specs.Turns.{node_refusal};
ghost use Rattle.cluster_world.specs.Changes.{ChangesNode};
ghost use Rattle.cluster_world.specs.Missing.{SentOff};
ghost use Rattle.cluster_world.specs.Pushes.{letters_left_by, octets_left_by, IsCrowdedAt, PushesAt};
ghost use Rattle.cluster_world.specs.Steps.{StepDid, AreSettled};
ghost use Rattle.cluster_world.specs.declared.step.Step.TheVariants as step;
ghost use Rattle.cluster_world.specs.declared.step.Said.TheVariants.{Sent};
ghost use Rattle.cluster_world.specs.declared.fault.StepFault.TheVariants.{NoMemory};

use crate::fault::StepFault;
use crate::flying::{Flying, is_worn};
use crate::life::Life;
use crate::limits::{MOST_LETTERS, MOST_OCTETS};
use crate::nodes::{Nodes, place_of};
use crate::sending::send;
use crate::step::Said;
use crate::steps::fault::tell_fault;
use crate::working::push_at;
use io_edge::Disk;
use mail_base::{Letter, NodeNo};
use node_core::{NodeFault, Outbox};
use std::alloc::{AllocError, Global};
use world_book::Book;

/// How many letters more may be in flight.
fn letters_left(flying: &Flying) -> usize
    ensures { result ≡ letters_left_by flying.now.flights }
{
    if flying.octets() > MOST_OCTETS {
        return 0;
    }
    MOST_LETTERS.saturating_sub(flying.count())
}

/// How many octets more they may have.
fn octets_left(flying: &Flying) -> u64
    ensures { result ≡ octets_left_by flying.now.flights }
{
    MOST_OCTETS.saturating_sub(flying.octets())
}

/// Whether something is due to the other node, and not even the first letter finds room.
fn is_crowded_at(
    alloc: Global,
    life: &Life,
    to: NodeNo,
    most: usize,
    room: u64,
) -> Result<bool, AllocError>
    requires up { IsUpWhole life.now }
    ensures { IfOk result (λ crowded. IsCrowdedAt to most room crowded life.now) }
{
    match life {
        Life::Up(node) => node.mail().is_crowded(alloc, to, most, room),
        Life::Down | Life::Lost => unreachable!(),
    }
}

/// The node pushes.
fn push_in<D: Disk>(
    alloc: Global,
    nodes: &mut Nodes<D>,
    from: NodeNo,
    to: NodeNo,
    most: usize,
    room: u64,
) -> Result<Outbox, NodeFault>
    requires fit { node_refusal nodes.old.plan (life_among nodes.old) (step.Push from to) ≡ None }
    requires works { CanWorkOn D.seen nodes.old.plan nodes.old.lives.items nodes.old.disks.items }
    ensures pushes { ChangesNode from (PushesAt (view_of D.seen D.faults D.clock) D.settled from to most room result) nodes.old nodes.new }
    ensures fits { IfOk result (λ outbox. All FitsMaps outbox.letters) }
{
    let place = place_of(from);
    push_at(
        alloc,
        &mut nodes.lives[place],
        &mut nodes.disks[place],
        to,
        most,
        room,
    )
}

/// The letters of a node are put in flight, and it is said how many they were.
pub(crate) fn send_pushed<D: Disk>(
    alloc: Global,
    nodes: &mut Nodes<D>,
    flying: &mut Flying,
    letters: Vec<Letter>,
) -> Result<Said, StepFault>
    requires works { CanWorkOn D.seen nodes.old.plan nodes.old.lives.items nodes.old.disks.items }
    requires heard { AllCanBeHeard letters.items }
    ensures ok { IfOk result (λ said. (said ≡ Sent (length letters.items)) × SentOff (view_of D.seen D.faults D.clock) nodes.old.plan letters.items None flying.old flying.new nodes.old nodes.new) }
    ensures err { IfErr result (λ why. (why ≡ NoMemory None) × (flying.new ≡ flying.old) × (nodes.new ≡ nodes.old)) }
{
    let count = letters.len() as u64;
    send(alloc, nodes, flying, letters, None)?;
    Ok(Said::Sent { letters: count })
}

/// A node that is up sends another what is due to it: the first 64 states at most, as far as their letters find room.
pub(crate) fn push_states<D: Disk>(
    alloc: Global,
    nodes: &mut Nodes<D>,
    flying: &mut Flying,
    book: &mut Book,
    from: NodeNo,
    to: NodeNo,
) -> Result<Said, StepFault>
    requires fit { node_refusal nodes.old.plan (life_among nodes.old) (step.Push from to) ≡ None }
    requires ready { CanWorkOn D.seen nodes.old.plan nodes.old.lives.items nodes.old.disks.items }
    requires room { all_falls_left nodes.old.lives.items ≤ spare_of book.old }
    ensures did { (seconds : ℕ) → StepDid (view_of D.seen D.faults D.clock) result (step.Push from to) (state_with nodes.old flying.old seconds book.old) (state_with nodes.new flying.new seconds book.new) }
    ensures ready { CanWorkOn D.seen nodes.new.plan nodes.new.lives.items nodes.new.disks.items }
    ensures settled { (seconds : ℕ) → AreSettled D.settled (state_with nodes.old flying.old seconds book.old) → AreSettled D.settled (state_with nodes.new flying.new seconds book.new) }
    ensures room { all_falls_left nodes.new.lives.items ≤ spare_of book.new }
    ensures installs { installs_booked book.new ≡ installs_booked book.old }
{
    if is_worn(flying.sent()) {
        return Err(StepFault::Worn);
    }
    let most = letters_left(flying);
    let room = octets_left(flying);
    if is_crowded_at(alloc, nodes.at(from), to, most, room)? {
        return Err(StepFault::NoRoom);
    }
    book.reserve(nodes.most_falls() + 1)?;
    match push_in(alloc, nodes, from, to, most, room) {
        Ok(outbox) => send_pushed(alloc, nodes, flying, outbox.letters.into_vec()),
        Err(fault) => tell_fault(book, from, fault),
    }
}
