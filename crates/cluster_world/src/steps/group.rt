//! A node opens a group.
ghost use Rattle.std.specs.Prelude.{◌≡◌, ◌≤◌, ◌<◌, ℕ, nat_le, None, IfOk};
ghost use Rattle.whole_world.specs.Steps.{room_left};
ghost use Rattle.node_store.specs.Disks.{view_of};
ghost use Rattle.world_book.specs.Books.{spare_of};
ghost use Rattle.cluster_world.specs.Hears.{AllCanBeHeard};
ghost use Rattle.cluster_world.specs.Installs.{installs_booked};
ghost use Rattle.cluster_world.specs.Lives.{all_falls_left, CanWorkOn};
ghost use Rattle.cluster_world.specs.Worlds.{state_with, life_among};
ghost use Rattle.cluster_world.specs.Turns.{node_refusal};
ghost use Rattle.cluster_world.specs.Changes.{ChangesNode};
ghost use Rattle.cluster_world.specs.Forms.{has_used_up, GroupsAt};
ghost use Rattle.cluster_world.specs.Steps.{StepDid, AreSettled};
ghost use Rattle.cluster_world.specs.declared.step.Step.TheVariants as step;

use crate::fault::StepFault;
use crate::flying::{Flying, is_worn};
use crate::life::Life;
use crate::limits::{MOST_LETTERS, MOST_OCTETS};
use crate::nodes::{Nodes, place_of};
use crate::step::Said;
use crate::steps::fault::tell_fault;
use crate::steps::post::send_answers;
use crate::working::open_at;
use io_edge::Disk;
use mail_base::NodeNo;
use node_core::NodeFault;
use std::alloc::Global;
use whole_node::Grouped;
use world_book::Book;

/// Whether so many letters that carry no message find room beside those in flight.
pub(crate) fn find_room(flying: &Flying, letters: usize) -> bool
    ensures { result ≡ nat_le letters (room_left flying.now.flights) }
{
    let by_octets = MOST_OCTETS.saturating_sub(flying.octets()) / 64;
    letters
        <= MOST_LETTERS
            .saturating_sub(flying.count())
            .min(by_octets as usize)
}

/// Whether a node that is up has used up the count of epochs.
pub(crate) fn is_used_up(life: &Life) -> bool
    ensures { result ≡ has_used_up life.now }
{
    match life {
        Life::Up(node) => u64::MAX <= node.maps().group().heard(),
        Life::Down | Life::Lost => false,
    }
}

/// The node opens a group.
fn open_in<D: Disk>(alloc: Global, nodes: &mut Nodes<D>, node: NodeNo) -> Result<Grouped, NodeFault>
    requires fit { node_refusal nodes.old.plan (life_among nodes.old) (step.Group node) ≡ None }
    requires works { CanWorkOn D.seen nodes.old.plan nodes.old.lives.items nodes.old.disks.items }
    ensures does { ChangesNode node (GroupsAt (view_of D.seen D.faults D.clock) D.settled nodes.old.plan.nodes result) nodes.old nodes.new }
    ensures sent { IfOk result (λ done. AllCanBeHeard done.letters) }
{
    let place = place_of(node);
    let count = nodes.plan.nodes;
    open_at(
        alloc,
        &mut nodes.lives[place],
        &mut nodes.disks[place],
        count,
    )
}

/// A node that is up opens a group: its promise of the next epoch is recorded, and then it asks every other node of the plan. All
/// the letters find room, or it is refused.
pub(crate) fn group_node<D: Disk>(
    alloc: Global,
    nodes: &mut Nodes<D>,
    flying: &mut Flying,
    book: &mut Book,
    node: NodeNo,
) -> Result<Said, StepFault>
    requires fit { node_refusal nodes.old.plan (life_among nodes.old) (step.Group node) ≡ None }
    requires ready { CanWorkOn D.seen nodes.old.plan nodes.old.lives.items nodes.old.disks.items }
    requires room { all_falls_left nodes.old.lives.items ≤ spare_of book.old }
    ensures did { (seconds : ℕ) → StepDid (view_of D.seen D.faults D.clock) result (step.Group node) (state_with nodes.old flying.old seconds book.old) (state_with nodes.new flying.new seconds book.new) }
    ensures ready { CanWorkOn D.seen nodes.new.plan nodes.new.lives.items nodes.new.disks.items }
    ensures settled { (seconds : ℕ) → AreSettled D.settled (state_with nodes.old flying.old seconds book.old) → AreSettled D.settled (state_with nodes.new flying.new seconds book.new) }
    ensures room { all_falls_left nodes.new.lives.items ≤ spare_of book.new }
    ensures installs { installs_booked book.new ≡ installs_booked book.old }
{
    if is_worn(flying.sent()) {
        return Err(StepFault::Worn);
    }
    if is_used_up(nodes.at(node)) {
        return Err(StepFault::Worn);
    }
    if !find_room(flying, nodes.lives.len().saturating_sub(1)) {
        return Err(StepFault::NoRoom);
    }
    book.reserve(nodes.most_falls() + 1)?;
    match open_in(alloc, nodes, node) {
        Ok(done) => send_answers(
            alloc,
            nodes,
            flying,
            book,
            node,
            None,
            Said::Grouped(done.epoch),
            done.letters.into_vec(),
        ),
        Err(fault) => tell_fault(book, node, fault),
    }
}
