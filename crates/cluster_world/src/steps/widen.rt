//! A copy gets a target more.
ghost use Rattle.std.specs.Prelude.{◌≡◌, ◌+◌, ◌≤◌, ◌<◌, ◌++◌, ℕ, None};
ghost use Rattle.mail_model.specs.Identity.Key.{Message};
ghost use Rattle.node_store.specs.Disks.{view_of};
ghost use Rattle.world_book.specs.Books.{entries_of, spare_of};
ghost use Rattle.cluster_world.specs.Installs.{installs_booked};
ghost use Rattle.cluster_world.specs.Lives.{all_falls_left, CanWorkOn};
ghost use Rattle.cluster_world.specs.Worlds.{state_with, life_among};
ghost use Rattle.cluster_world.specs.Turns.{node_refusal};
ghost use Rattle.cluster_world.specs.Changes.{ChangesNode};
ghost use Rattle.cluster_world.specs.Widens.{said_of_widening, entries_of_widening, WidensAt};
ghost use Rattle.cluster_world.specs.Steps.{StepDid, AreSettled};
ghost use Rattle.cluster_world.specs.declared.step.Step.TheVariants as step;

use crate::fault::StepFault;
use crate::flying::{Flying, is_worn};
use crate::nodes::{Nodes, place_of};
use crate::step::Said;
use crate::steps::fault::tell_fault;
use crate::working::widen_at;
use io_edge::Disk;
use mail_base::{MsgId, Name, NodeNo};
use node_core::NodeFault;
use std::alloc::Global;
use world_book::{Book, Entry};

/// The node gives the copy the target.
fn widen_in<D: Disk>(
    alloc: Global,
    nodes: &mut Nodes<D>,
    at: NodeNo,
    user: &Name,
    id: MsgId,
    to: NodeNo,
) -> Result<bool, NodeFault>
    requires fit { node_refusal nodes.old.plan (life_among nodes.old) (step.Widen at user.now id to) ≡ None }
    requires works { CanWorkOn D.seen nodes.old.plan nodes.old.lives.items nodes.old.disks.items }
    ensures { ChangesNode at (WidensAt (view_of D.seen D.faults D.clock) D.settled at to (Message user.now id) result) nodes.old nodes.new }
{
    let place = place_of(at);
    widen_at(
        alloc,
        &mut nodes.lives[place],
        &mut nodes.disks[place],
        user,
        id,
        to,
    )
}

/// What is said of it.
fn tell(book: &mut Book, node: NodeNo, did: Result<bool, NodeFault>) -> Result<Said, StepFault>
    requires room { 0 < spare_of book.old }
    ensures said { result ≡ said_of_widening node did }
    ensures entries { entries_of book.new ≡ entries_of book.old ++ entries_of_widening node did }
    ensures installs { installs_booked book.new ≡ installs_booked book.old }
    ensures spare { spare_of book.old ≤ spare_of book.new + 1 }
{
    match did {
        Ok(did) => Ok(Said::Widened(did)),
        Err(fault) => tell_fault(book, node, fault),
    }
}

/// A user's copy of a message that is here gets a target more, at a node that is up. No letters are sent.
pub(crate) fn widen_copy<D: Disk>(
    alloc: Global,
    nodes: &mut Nodes<D>,
    flying: &Flying,
    book: &mut Book,
    at: NodeNo,
    user: &Name,
    id: MsgId,
    to: NodeNo,
) -> Result<Said, StepFault>
    requires fit { node_refusal nodes.old.plan (life_among nodes.old) (step.Widen at user.now id to) ≡ None }
    requires ready { CanWorkOn D.seen nodes.old.plan nodes.old.lives.items nodes.old.disks.items }
    requires room { all_falls_left nodes.old.lives.items ≤ spare_of book.old }
    ensures did { (seconds : ℕ) → StepDid (view_of D.seen D.faults D.clock) result (step.Widen at user.now id to) (state_with nodes.old flying.now seconds book.old) (state_with nodes.new flying.now seconds book.new) }
    ensures ready { CanWorkOn D.seen nodes.new.plan nodes.new.lives.items nodes.new.disks.items }
    ensures settled { (seconds : ℕ) → AreSettled D.settled (state_with nodes.old flying.now seconds book.old) → AreSettled D.settled (state_with nodes.new flying.now seconds book.new) }
    ensures room { all_falls_left nodes.new.lives.items ≤ spare_of book.new }
    ensures installs { installs_booked book.new ≡ installs_booked book.old }
{
    if is_worn(flying.sent()) {
        return Err(StepFault::Worn);
    }
    book.reserve(nodes.most_falls() + 1)?;
    let did = widen_in(alloc, nodes, at, user, id, to);
    tell(book, at, did)
}
