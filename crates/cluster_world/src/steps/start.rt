//! A node that is down starts.
ghost use Rattle.std.specs.Prelude.{◌≡◌, ◌+◌, ◌≤◌, ◌<◌, ◌++◌, ℕ, None};
ghost use Rattle.node_store.specs.Disks.{view_of};
ghost use Rattle.world_book.specs.Books.{entries_of, spare_of};
ghost use Rattle.cluster_world.specs.Installs.{installs_booked};
ghost use Rattle.cluster_world.specs.Lives.{all_falls_left, CanWorkOn};
ghost use Rattle.cluster_world.specs.Worlds.{state_with, life_among};
ghost use Rattle.cluster_world.specs.Turns.{node_refusal};
ghost use Rattle.cluster_world.specs.Starting.{HasStarted, said_of_start, entries_of_start};
ghost use Rattle.cluster_world.specs.Steps.{StepDid, AreSettled};
ghost use Rattle.cluster_world.specs.declared.step.Step.TheVariants as step;
ghost use Rattle.cluster_world.specs.declared.life.Life.TheVariants as lives;

use crate::fault::StepFault;
use crate::flying::{Flying, is_worn};
use crate::life::Life;
use crate::nodes::{Nodes, put_life};
use crate::step::Said;
use crate::steps::fault::tell_fault;
use io_edge::Disk;
use mail_base::{NodeNo, Plan};
use node_core::NodeFault;
use std::alloc::Global;
use whole_node::WholeNode;
use world_book::{Book, Entry};

/// Starts a node that is down over its disk. It answers its boot.
pub(crate) fn start_at<D: Disk>(
    alloc: Global,
    life: &mut Life,
    disk: &mut D,
    plan: &Plan,
    node: NodeNo,
) -> Result<u32, NodeFault>
    requires down { life.old ≡ lives.Down }
    requires within { node ≤ plan.now.nodes }
    requires few { plan.now.nodes ≤ 16 }
    requires copies { 1 ≤ plan.now.copies }
    ensures { HasStarted (view_of D.seen D.faults D.clock) plan.now node D.settled result life.old disk.old life.new disk.new }
{
    let up = WholeNode::start(alloc, disk, plan, node)?;
    let boot = up.mail().boot();
    put_life(life, Life::Up(up));
    Ok(boot)
}

// What is said of the start, and what the book has of it.
fn tell(book: &mut Book, node: NodeNo, started: Result<u32, NodeFault>) -> Result<Said, StepFault>
    requires room { 0 < spare_of book.old }
    ensures said { result ≡ said_of_start node started }
    ensures entries { entries_of book.new ≡ entries_of book.old ++ entries_of_start node started }
    ensures installs { installs_booked book.new ≡ installs_booked book.old }
    ensures spare { spare_of book.old ≤ spare_of book.new + 1 }
{
    match started {
        Ok(boot) => {
            book.add(Entry::Up { node, boot });
            Ok(Said::NodeUp { boot })
        }
        Err(fault) => tell_fault(book, node, fault),
    }
}

/// Starts a node that is down: the record of its next boot is written before all else.
pub(crate) fn start_node<D: Disk>(
    alloc: Global,
    nodes: &mut Nodes<D>,
    flying: &Flying,
    book: &mut Book,
    node: NodeNo,
) -> Result<Said, StepFault>
    requires fit { node_refusal nodes.old.plan (life_among nodes.old) (step.Start node) ≡ None }
    requires room { all_falls_left nodes.old.lives.items ≤ spare_of book.old }
    ensures did { (seconds : ℕ) → StepDid (view_of D.seen D.faults D.clock) result (step.Start node) (state_with nodes.old flying.now seconds book.old) (state_with nodes.new flying.now seconds book.new) }
    ensures ready { CanWorkOn D.seen nodes.old.plan nodes.old.lives.items nodes.old.disks.items → CanWorkOn D.seen nodes.new.plan nodes.new.lives.items nodes.new.disks.items }
    ensures settled { (seconds : ℕ) → AreSettled D.settled (state_with nodes.old flying.now seconds book.old) → AreSettled D.settled (state_with nodes.new flying.now seconds book.new) }
    ensures room { all_falls_left nodes.new.lives.items ≤ spare_of book.new }
    ensures installs { installs_booked book.new ≡ installs_booked book.old }
{
    if is_worn(flying.sent()) {
        return Err(StepFault::Worn);
    }
    book.reserve(nodes.most_falls() + 2)?;
    let started = nodes.start(alloc, node);
    tell(book, node, started)
}
