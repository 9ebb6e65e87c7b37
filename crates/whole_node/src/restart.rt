//! A node that starts over its disk.
ghost use Rattle.std.specs.Prelude.{◌≡◌, ◌≤◌, ◌+◌, List, [], None, IfOk, OnOk};
ghost use Rattle.io_edge.specs.Octets.{IsToldAlike};
ghost use Rattle.mail_model.specs.Record.{Record};
ghost use Rattle.maps_model.specs.Cluster.{Disk as PlainDisk};
ghost use Rattle.maps_model.specs.Rules.{started};
ghost use Rattle.node_store.specs.Disks.{view_of};
ghost use Rattle.node_core.specs.Nodes.{node_seen, NodeKeeps, IsWhole};
ghost use Rattle.node_maps.specs.Nodes.{node_of};
ghost use Rattle.joint_model.specs.Joint.Life.{Down};
ghost use Rattle.joint_world.specs.Staying.{KeepsReads};
ghost use Rattle.whole_node.specs.Nodes.{joint_seen, AreReadsOf, HasMaps, HasNoReads};
ghost use Rattle.whole_node.specs.Restarting.{StartsWhole};

use crate::node::WholeNode;
use io_edge::Disk;
use mail_base::{EpochId, NodeNo, Plan};
use node_core::{Node, NodeFault};
use std::alloc::{AllocError, Global};

// A node that has started, with its maps over the users of whom its disk says something.
fn with_maps(alloc: Global, mail: Node, promise: EpochId) -> Result<WholeNode, AllocError>
    requires whole { IsWhole mail }
    requires without { (node_seen mail).installed ≡ None }
    requires some { (records : List Record) × NodeKeeps records mail }
    ensures mail { IfOk result (λ node. node.mail ≡ mail) }
    ensures has_maps { IfOk result (λ node. HasMaps node) }
    ensures reads { IfOk result (λ node. AreReadsOf node.mail node.reads) }
    ensures blank { IfOk result (λ node. HasNoReads node) }
    ensures starts { IfOk result (λ node. (image : PlainDisk) → image.boot + 1 ≡ (node_seen mail).boot → image.promise ≡ promise → node_of node.maps ≡ started image) }
{
    let users = mail.users(alloc)?;
    WholeNode::over(alloc, mail, promise, users.as_slice())
}

impl WholeNode {
    /// Starts a node over its disk, as `Node::start`, with the maps that the disk says: no epoch, the last promise, versions 0,
    /// nothing due, no rows, and each message that is here.
    ///
    /// It costs a look at each object, beside what `Node::start` costs.
    ///
    /// # Errors
    ///
    /// Those of `Node::start`. Where memory runs out once the boot is recorded, that record stands.
    pub fn start<D: Disk>(
        alloc: Global,
        disk: &mut D,
        plan: &Plan,
        number: NodeNo,
    ) -> Result<WholeNode, NodeFault>
        requires within { number ≤ plan.now.nodes }
        requires few { plan.now.nodes ≤ 16 }
        requires copies { 1 ≤ plan.now.copies }
        ensures starts { StartsWhole (view_of D.seen D.faults D.clock) plan.now number disk.old disk.new result }
        ensures beside { IfOk result (λ node. KeepsReads (Down []) (joint_seen node)) }
        ensures told { IsToldAlike (D.seen disk.old) (D.seen disk.new) }
        ensures faults { D.faults disk.old ≤ D.faults disk.new }
        ensures settled { OnOk result (D.settled disk.new) }
    {
        let (mail, promise) = Node::start_with_promise(alloc, disk, plan, number)?;
        match with_maps(alloc, mail, promise) {
            Ok(node) => Ok(node),
            Err(AllocError) => Err(NodeFault::NoMemory { down: true }),
        }
    }
}
