//! A node concludes the group that it has open.
ghost use Rattle.std.specs.Prelude.{◌≡◌, ◌+◌, ◌≤◌, ◌<◌, ℕ, None, IfOk, IfSome};
ghost use Rattle.node_store.specs.Disks.{view_of};
ghost use Rattle.world_book.specs.Books.{spare_of};
ghost use Rattle.cluster_world.specs.Hears.{AllCanBeHeard};
ghost use Rattle.cluster_world.specs.Lives.{all_falls_left, CanWorkOn};
ghost use Rattle.cluster_world.specs.Worlds.{state_with, life_among};
ghost use Rattle.cluster_world.specs.Turns.{node_refusal};
ghost use Rattle.cluster_world.specs.Installs.{installs_booked, AddsInstalls};
ghost use Rattle.cluster_world.specs.Changes.{ChangesNode};
ghost use Rattle.cluster_world.specs.Forms.{joins_at, ConcludesGroupAt};
ghost use Rattle.cluster_world.specs.Steps.{StepDid, AreSettled};
ghost use Rattle.cluster_world.specs.declared.step.Step.TheVariants as step;

use crate::fault::StepFault;
use crate::flying::{Flying, is_worn};
use crate::installing::{enter_install, epoch_at};
use crate::life::Life;
use crate::nodes::{Nodes, place_of};
use crate::step::Said;
use crate::steps::fault::tell_fault;
use crate::steps::group::find_room;
use crate::steps::post::send_answers;
use crate::telling::members_at;
use crate::working::conclude_at;
use io_edge::Disk;
use mail_base::NodeNo;
use node_core::NodeFault;
use node_maps::Concluded;
use std::alloc::Global;
use world_book::Book;

// How many nodes have joined the node's open group, if it has one open.
fn joins_at(life: &Life) -> Option<usize>
    ensures { result ≡ joins_at life.now }
{
    match life {
        Life::Up(node) => node.maps().group().size(),
        Life::Down | Life::Lost => None,
    }
}

/// The node concludes its group.
fn conclude_in<D: Disk>(
    alloc: Global,
    nodes: &mut Nodes<D>,
    node: NodeNo,
) -> Result<Option<Concluded>, NodeFault>
    requires fit { node_refusal nodes.old.plan (life_among nodes.old) (step.Conclude node) ≡ None }
    requires works { CanWorkOn D.seen nodes.old.plan nodes.old.lives.items nodes.old.disks.items }
    ensures does { ChangesNode node (ConcludesGroupAt (view_of D.seen D.faults D.clock) nodes.old.plan.buckets result) nodes.old nodes.new }
    ensures sent { IfOk result (λ done. IfSome done (λ concluded. AllCanBeHeard concluded.letters)) }
{
    let place = place_of(node);
    let buckets = nodes.plan.buckets;
    conclude_at(alloc, &mut nodes.lives[place], &nodes.disks[place], buckets)
}

// The node concludes its group. Of what it installs the book has nothing yet.
fn conclude_group<D: Disk>(
    alloc: Global,
    nodes: &mut Nodes<D>,
    flying: &mut Flying,
    book: &mut Book,
    node: NodeNo,
) -> Result<Said, StepFault>
    requires fit { node_refusal nodes.old.plan (life_among nodes.old) (step.Conclude node) ≡ None }
    requires ready { CanWorkOn D.seen nodes.old.plan nodes.old.lives.items nodes.old.disks.items }
    requires room { all_falls_left nodes.old.lives.items + 1 ≤ spare_of book.old }
    ensures did { (seconds : ℕ) → StepDid (view_of D.seen D.faults D.clock) result (step.Conclude node) (state_with nodes.old flying.old seconds book.old) (state_with nodes.new flying.new seconds book.new) }
    ensures ready { CanWorkOn D.seen nodes.new.plan nodes.new.lives.items nodes.new.disks.items }
    ensures settled { (seconds : ℕ) → AreSettled D.settled (state_with nodes.old flying.old seconds book.old) → AreSettled D.settled (state_with nodes.new flying.new seconds book.new) }
    ensures spare { spare_of book.old + all_falls_left nodes.new.lives.items ≤ spare_of book.new + all_falls_left nodes.old.lives.items + 1 }
    ensures installs { installs_booked book.new ≡ installs_booked book.old }
{
    let Some(joins) = joins_at(nodes.at(node)) else {
        return Err(StepFault::NotAGroup);
    };
    if is_worn(flying.sent()) {
        return Err(StepFault::Worn);
    }
    if !find_room(flying, joins.saturating_sub(1)) {
        return Err(StepFault::NoRoom);
    }
    match conclude_in(alloc, nodes, node) {
        Ok(Some(done)) => {
            let members = members_at(nodes.at(node));
            send_answers(
                alloc,
                nodes,
                flying,
                book,
                node,
                None,
                Said::Concluded {
                    epoch: done.epoch,
                    members,
                },
                done.letters.into_vec(),
            )
        }
        Ok(None) => Err(StepFault::NotAGroup),
        Err(fault) => tell_fault(book, node, fault),
    }
}

/// A node that is up concludes the group that it has open: those that joined are the members, and each of the others is told. All
/// the letters find room, or it is refused. The book has the epoch that the node then has installed.
pub(crate) fn conclude_node<D: Disk>(
    alloc: Global,
    nodes: &mut Nodes<D>,
    flying: &mut Flying,
    book: &mut Book,
    node: NodeNo,
) -> Result<Said, StepFault>
    requires fit { node_refusal nodes.old.plan (life_among nodes.old) (step.Conclude node) ≡ None }
    requires ready { CanWorkOn D.seen nodes.old.plan nodes.old.lives.items nodes.old.disks.items }
    requires room { all_falls_left nodes.old.lives.items ≤ spare_of book.old }
    ensures did { (seconds : ℕ) → StepDid (view_of D.seen D.faults D.clock) result (step.Conclude node) (state_with nodes.old flying.old seconds book.old) (state_with nodes.new flying.new seconds book.new) }
    ensures ready { CanWorkOn D.seen nodes.new.plan nodes.new.lives.items nodes.new.disks.items }
    ensures settled { (seconds : ℕ) → AreSettled D.settled (state_with nodes.old flying.old seconds book.old) → AreSettled D.settled (state_with nodes.new flying.new seconds book.new) }
    ensures room { all_falls_left nodes.new.lives.items ≤ spare_of book.new }
    ensures installs { AddsInstalls (step.Conclude node) flying.old.flights nodes.old.lives.items book.old nodes.new.lives.items book.new }
{
    // One entry more than the conclusion needs, for the epoch.
    book.reserve(nodes.most_falls() + 2)?;
    let was = epoch_at(nodes, node);
    let said = conclude_group(alloc, nodes, flying, book, node);
    enter_install(nodes, book, node, was);
    said
}
