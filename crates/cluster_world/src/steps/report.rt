//! A node reports to another, as their manager, what it has of users.
ghost use Rattle.std.specs.Prelude.{◌≡◌, ℕ, None, IfOk};
ghost use Rattle.whole_world.specs.Steps.{room_left};
ghost use Rattle.node_store.specs.Disks.{view_of};
ghost use Rattle.world_book.specs.declared.book.Book.{Book as ABook};
ghost use Rattle.cluster_world.specs.Lives.{all_falls_left, CanWorkOn};
ghost use Rattle.cluster_world.specs.Worlds.{state_with, life_among};
ghost use Rattle.cluster_world.specs.Turns.{node_refusal};
ghost use Rattle.cluster_world.specs.Reports.{OwesRowsAt, LacksRoomAt, ReportsAt, TellsRowsAt, IsUpMapped};
ghost use Rattle.cluster_world.specs.Steps.{StepDid, AreSettled};
ghost use Rattle.cluster_world.specs.declared.step.Step.TheVariants as step;

use crate::fault::StepFault;
use crate::flying::{Flying, is_worn};
use crate::life::Life;
use crate::limits::{MOST_LETTERS, MOST_OCTETS};
use crate::nodes::Nodes;
use crate::step::Said;
use crate::steps::push::send_pushed;
use io_edge::Disk;
use mail_base::{Letter, NodeNo, Sequence};
use std::alloc::{AllocError, Global};

/// How many letters that carry no message find room beside those in flight.
fn room_for(flying: &Flying) -> usize
    ensures { result ≡ room_left flying.now.flights }
{
    let by_octets = MOST_OCTETS.saturating_sub(flying.octets()) / 64;
    MOST_LETTERS
        .saturating_sub(flying.count())
        .min(by_octets as usize)
}

/// Whether a row is due to that node as a manager.
fn owes_rows_at(life: &Life, to: NodeNo) -> bool
    requires up { IsUpMapped life.now }
    ensures { OwesRowsAt to result life.now }
{
    match life {
        Life::Up(node) => node.owes_rows(to),
        Life::Down | Life::Lost => unreachable!(),
    }
}

/// Whether a row is due, and there is no room for the letter of one.
fn lacks_room_at(life: &Life, to: NodeNo, room: usize) -> bool
    requires up { IsUpMapped life.now }
    ensures { LacksRoomAt to room result life.now }
{
    if room > 0 {
        return false;
    }
    owes_rows_at(life, to)
}

/// The reports of the first rows that are due to that node.
fn reports_at(
    alloc: Global,
    life: &Life,
    to: NodeNo,
    room: usize,
) -> Result<Sequence<Letter>, AllocError>
    requires up { IsUpMapped life.now }
    ensures { IfOk result (λ letters. ReportsAt to room letters life.now) }
{
    match life {
        Life::Up(node) => node.report(alloc, to, room),
        Life::Down | Life::Lost => unreachable!(),
    }
}

/// The reports of the first rows that are due to that node, unless there is no room for one.
fn rows_at(
    alloc: Global,
    life: &Life,
    to: NodeNo,
    room: usize,
) -> Result<Sequence<Letter>, StepFault>
    requires up { IsUpMapped life.now }
    ensures { TellsRowsAt to room result life.now }
{
    if lacks_room_at(life, to, room) {
        return Err(StepFault::NoRoom);
    }
    Ok(reports_at(alloc, life, to, room)?)
}

/// A node that is up tells another, as their manager, the first rows that are due to it: 64 at most, as far as there is room. No
/// node is changed, and no disk is touched.
pub(crate) fn report_rows<D: Disk>(
    alloc: Global,
    nodes: &mut Nodes<D>,
    flying: &mut Flying,
    from: NodeNo,
    to: NodeNo,
) -> Result<Said, StepFault>
    requires fit { node_refusal nodes.old.plan (life_among nodes.old) (step.Report from to) ≡ None }
    requires ready { CanWorkOn D.seen nodes.old.plan nodes.old.lives.items nodes.old.disks.items }
    ensures did { (seconds : ℕ) (book : ABook) → StepDid (view_of D.seen D.faults D.clock) result (step.Report from to) (state_with nodes.old flying.old seconds book) (state_with nodes.new flying.new seconds book) }
    ensures ready { CanWorkOn D.seen nodes.new.plan nodes.new.lives.items nodes.new.disks.items }
    ensures settled { (seconds : ℕ) (book : ABook) → AreSettled D.settled (state_with nodes.old flying.old seconds book) → AreSettled D.settled (state_with nodes.new flying.new seconds book) }
    ensures falls { all_falls_left nodes.new.lives.items ≡ all_falls_left nodes.old.lives.items }
{
    if is_worn(flying.sent()) {
        return Err(StepFault::Worn);
    }
    let room = room_for(flying);
    let letters = rows_at(alloc, nodes.at(from), to, room)?;
    send_pushed(alloc, nodes, flying, letters.into_vec())
}
