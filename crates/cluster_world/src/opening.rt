//! The nodes of a plan start for the first time, each on its empty disk.
ghost use Rattle.std.specs.Prelude.{◌≡◌, ◌+◌, ◌*◌, ◌≤◌, ◌<◌, [], length, Some, IfSome, IfOk, slice_get};
ghost use Rattle.io_edge.specs.Octets.{IsToldAlike};
ghost use Rattle.node_store.specs.Disks.{view_of};
ghost use Rattle.world_book.specs.Books.{entries_of, spare_of};
ghost use Rattle.cluster_world.specs.Opens.{AreEmpty, OpensSo, OpensNext, AllOpen};

use crate::fault::OpenFault;
use crate::life::Life;
use crate::nodes::node_at;
use io_edge::Disk;
use mail_base::{NodeNo, Plan};
use node_core::NodeFault;
use std::alloc::{AllocError, Global};
use whole_node::WholeNode;
use world_book::Book;

/// Starts a node in its first boot on its disk, which is empty.
fn open_node<D: Disk>(
    alloc: Global,
    disk: &mut D,
    plan: &Plan,
    node: NodeNo,
) -> Result<Life, OpenFault>
    requires empty { IfSome (D.seen disk.old) (λ held. held ≡ []) }
    requires within { node ≤ plan.now.nodes }
    requires few { plan.now.nodes ≤ 16 }
    requires copies { 1 ≤ plan.now.copies }
    ensures so { OpensSo (view_of D.seen D.faults D.clock) D.settled plan.now node result disk.old disk.new }
    ensures told { IsToldAlike (D.seen disk.old) (D.seen disk.new) }
    ensures later { D.faults disk.old ≤ D.faults disk.new }
{
    match WholeNode::first(alloc, disk, plan, node) {
        Ok(up) => Ok(Life::Up(up)),
        Err(NodeFault::Disk) => Err(OpenFault::DiskFault(node)),
        Err(NodeFault::Worn) => unreachable!(),
        Err(NodeFault::NoMemory { .. }) => Err(OpenFault::NoMemory),
    }
}

/// Starts the next node on its disk.
fn open_next<D: Disk>(
    alloc: Global,
    plan: &Plan,
    disks: &mut Vec<D>,
    lives: &mut Vec<Life>,
) -> Result<(), OpenFault>
    requires next { length lives.old.items < length disks.old.items }
    requires each { length disks.old.items ≤ plan.now.nodes }
    requires few { plan.now.nodes ≤ 16 }
    requires copies { 1 ≤ plan.now.copies }
    requires empty { (disk : D) → slice_get disks.old.items (length lives.old.items) ≡ Some disk → IfSome (D.seen disk) (λ held. held ≡ []) }
    ensures { OpensNext (view_of D.seen D.faults D.clock) D.settled plan.now result lives.old.items disks.old.items lives.new.items disks.new.items }
{
    let place = lives.len();
    let life = open_node(alloc, &mut disks[place], plan, node_at(place))?;
    let Ok(()) = lives.push(life) else {
        return Err(OpenFault::NoMemory);
    };
    Ok(())
}

/// Starts all of them, one after another.
pub(crate) fn open_all<D: Disk>(
    alloc: Global,
    plan: &Plan,
    disks: &mut Vec<D>,
    lives: &mut Vec<Life>,
) -> Result<(), OpenFault>
    requires none { lives.old.items ≡ [] }
    requires each { length disks.old.items ≡ plan.now.nodes }
    requires few { plan.now.nodes ≤ 16 }
    requires copies { 1 ≤ plan.now.copies }
    requires empty { AreEmpty D.seen disks.old.items }
    ensures { AllOpen (view_of D.seen D.faults D.clock) D.settled plan.now result lives.new.items disks.old.items disks.new.items }
{
    while lives.len() < disks.len() {
        open_next(alloc, plan, disks, lives)?;
    }
    Ok(())
}

/// A book without entries that has room for the falls of so many nodes.
pub(crate) fn roomy_book(alloc: Global, nodes: usize) -> Result<Book, AllocError>
    requires few { nodes ≤ 16 }
    ensures none { IfOk result (λ book. entries_of book ≡ []) }
    ensures room { IfOk result (λ book. 2 * nodes ≤ spare_of book) }
{
    let mut book = Book::new(alloc);
    book.reserve(2 * nodes)?;
    Ok(book)
}
