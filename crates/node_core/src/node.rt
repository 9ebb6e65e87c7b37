//! One node of a cluster.
ghost use Rattle.std.specs.Prelude.{◌≡◌, ◌≤◌, [], None, IfSome, OnOk};
ghost use Rattle.io_edge.specs.Moments.{Keeps, Tears};
ghost use Rattle.io_edge.specs.Octets.{IsToldAlike};
ghost use Rattle.node_store.specs.Disks.{view_of};
ghost use Rattle.node_core.specs.Starting.{NodeCreated, NodeStarts, ReopensStore, StartsWithPromise};

use crate::fault::NodeFault;
use crate::numbers::Numbers;
use crate::shape::Shape;
use io_edge::Disk;
use mail_base::{EpochId, NodeNo, Plan};
use node_store::{KeepFault, NodeStore, ReadFault, Recovered};
use node_tickets::Tickets;
use std::alloc::Global;

/// One node: what it keeps on its disk, and what a crash forgets.
#[derive(Drop)]
pub struct Node {
    pub(crate) shape: Shape,
    pub(crate) numbers: Numbers,
    pub(crate) store: NodeStore,
    pub(crate) tickets: Tickets,
}

// Starts the disk again, and opens the store over what it then holds.
fn reopened<D: Disk>(
    alloc: Global,
    disk: &mut D,
    number: NodeNo,
) -> Result<(NodeStore, Recovered), NodeFault>
    ensures reopens { ReopensStore (view_of D.seen D.faults D.clock) number disk.old disk.new result }
    ensures images { Keeps D.clock disk.old disk.new }
    ensures told { IsToldAlike (D.seen disk.old) (D.seen disk.new) }
    ensures faults { D.faults disk.old ≤ D.faults disk.new }
    ensures settled { OnOk result (D.settled disk.new) }
{
    let Ok(()) = disk.restart() else {
        return Err(NodeFault::Disk);
    };
    match NodeStore::open(alloc, disk, number) {
        Ok(opened) => Ok(opened),
        Err(ReadFault::Disk) => Err(NodeFault::Disk),
        Err(ReadFault::NotAJournal) => Err(NodeFault::Disk),
        Err(ReadFault::NoMemory) => Err(NodeFault::NoMemory { down: false }),
    }
}

// The numbers of a plan that a node needs. It has no epoch.
pub(crate) fn shape_of(plan: &Plan) -> Shape
    ensures nodes { result.nodes ≡ plan.now.nodes }
    ensures copies { result.copies ≡ plan.now.copies }
    ensures confirm { result.confirm ≡ plan.now.confirm }
    ensures installed { result.installed ≡ None }
{
    Shape {
        nodes: plan.nodes,
        copies: plan.copies,
        confirm: plan.confirm,
        installed: None,
    }
}

impl Node {
    /// Makes the journal of a node on its disk, which is empty: the node can then be started for the first time.
    ///
    /// # Errors
    ///
    /// It is never `Worn`. After `Disk` the disk has to be emptied before it is tried again.
    pub fn create<D: Disk>(alloc: Global, disk: &mut D, number: NodeNo) -> Result<(), NodeFault>
        requires empty { IfSome (D.seen disk.old) (λ held. held ≡ []) }
        ensures created { NodeCreated (view_of D.seen D.faults D.clock) number disk.old disk.new result }
        ensures settled { OnOk result (D.settled disk.new) }
        ensures images { Tears D.clock disk.old disk.new 0 17 }
    {
        match NodeStore::create(alloc, disk, number) {
            Ok(_) => Ok(()),
            Err(KeepFault::Disk) => Err(NodeFault::Disk),
            Err(KeepFault::NoMemory) => Err(NodeFault::NoMemory { down: false }),
        }
    }

    /// Starts a node over its disk, which has its journal: the disk is started again, the journal is read, and the record of the
    /// next boot is appended before all else. A node that has started has no epoch.
    ///
    /// # Errors
    ///
    /// `Worn` where the boot on the disk is the greatest. `Disk` also where the disk holds no journal of the node.
    pub fn start<D: Disk>(
        alloc: Global,
        disk: &mut D,
        plan: &Plan,
        number: NodeNo,
    ) -> Result<Node, NodeFault>
        requires within { number ≤ plan.now.nodes }
        requires few { plan.now.nodes ≤ 16 }
        requires copies { 1 ≤ plan.now.copies }
        ensures starts { NodeStarts (view_of D.seen D.faults D.clock) plan.now number disk.old disk.new result }
        ensures told { IsToldAlike (D.seen disk.old) (D.seen disk.new) }
        ensures faults { D.faults disk.old ≤ D.faults disk.new }
        ensures settled { OnOk result (D.settled disk.new) }
    {
        let (node, _) = Node::start_with_promise(alloc, disk, plan, number)?;
        Ok(node)
    }

    /// Starts a node over its disk, as `start`, and tells the last epoch that the node promised: the one of the last Promise
    /// record, or that of no epoch.
    ///
    /// # Errors
    ///
    /// Those of `start`.
    pub fn start_with_promise<D: Disk>(
        alloc: Global,
        disk: &mut D,
        plan: &Plan,
        number: NodeNo,
    ) -> Result<(Node, EpochId), NodeFault>
        requires within { number ≤ plan.now.nodes }
        requires few { plan.now.nodes ≤ 16 }
        requires copies { 1 ≤ plan.now.copies }
        ensures starts { StartsWithPromise (view_of D.seen D.faults D.clock) plan.now number disk.old disk.new result }
        ensures told { IsToldAlike (D.seen disk.old) (D.seen disk.new) }
        ensures faults { D.faults disk.old ≤ D.faults disk.new }
        ensures settled { OnOk result (D.settled disk.new) }
    {
        let (mut store, found) = reopened(alloc, disk, number)?;
        let last = found.boot();
        if last == u32::MAX {
            return Err(NodeFault::Worn);
        }
        let boot = last + 1;
        store.boot(alloc, disk, boot)?;
        let shape = shape_of(plan);
        let tickets = Tickets::new(alloc, number, boot, shape.confirm);
        let numbers = Numbers {
            boot,
            drawn: found.drawn(boot),
            count: found.count(),
            calls: 0,
        };
        let node = Node {
            shape,
            numbers,
            store,
            tickets,
        };
        Ok((node, found.promise()))
    }
}
