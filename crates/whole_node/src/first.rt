//! A node in its first boot: it is in the first epoch, which it makes itself.
ghost use Rattle.std.specs.Prelude.{◌≡◌, ◌≤◌, [], None, IfOk, IfSome, OnOk};
ghost use Rattle.io_edge.specs.Octets.{IsToldAlike};
ghost use Rattle.mail_model.specs.Identity.{no_epoch};
ghost use Rattle.object_model.specs.Letters.Body.{Install as InstallBody};
ghost use Rattle.cluster_model.specs.Starts.{first_epoch, first_members, first_membership};
ghost use Rattle.maps_model.specs.Cluster.{NamesNode};
ghost use Rattle.node_store.specs.Disks.{view_of};
ghost use Rattle.node_maps.specs.Nodes.{node_of, own_of};
ghost use Rattle.node_maps.specs.Hearing.{IsDue};
ghost use Rattle.joint_model.specs.Joint.Life.{Down};
ghost use Rattle.joint_world.specs.Staying.{KeepsReads};
ghost use Rattle.whole_node.specs.Nodes.{joint_seen};
ghost use Rattle.whole_node.specs.Starting.{first_map, HasPromisedFirst, EntersEpoch, HasEnteredFirst, StartsFirstWhole};

use crate::node::WholeNode;
use io_edge::Disk;
use mail_base::{Body, EpochId, Letter, Member, NodeNo, Plan, Sequence};
use membership::Install;
use node_core::{Node, NodeFault};
use std::alloc::{AllocError, Global};
use user_map::assign;

// The node with this number.
fn node_of(number: u8) -> NodeNo
    requires low { 1 ≤ number }
    requires high { number ≤ 16 }
    ensures { result ≡ number }
{
    NodeNo::new(number).unwrap()
}

fn first_epoch() -> EpochId
    ensures { result ≡ first_epoch }
{
    EpochId::new(1, 1)
}

// All nodes of a plan of so many, each in its first boot.
fn first_members(alloc: Global, nodes: u8) -> Result<Sequence<Member>, AllocError>
    requires few { nodes ≤ 16 }
    ensures { IfOk result (λ members. members ≡ first_members nodes) }
{
    if nodes == 0 {
        return Ok(Sequence::new(alloc));
    }
    let mut members = first_members(alloc, nodes - 1)?;
    members.push(Member::new(node_of(nodes), 1, EpochId::none()))?;
    Ok(members)
}

// The first membership of a plan.
fn first_membership(alloc: Global, plan: &Plan) -> Result<Install, AllocError>
    requires some { 1 ≤ plan.now.nodes }
    requires few { plan.now.nodes ≤ 16 }
    ensures { IfOk result (λ install. install ≡ first_membership plan.now.nodes (first_map plan.now)) }
{
    let members = first_members(alloc, plan.nodes)?;
    let epoch = first_epoch();
    let map = assign(alloc, &[], members.as_slice(), plan.buckets, epoch)?;
    Ok(Install::new(epoch, members, map))
}

// The letter by which a node tells itself of an epoch.
fn letter_of(own: NodeNo, install: Install) -> Letter
    ensures { result ≡ record { from = own; to = own; epoch = no_epoch; ticket = None; body = InstallBody install } }
{
    let body = Body::Install {
        epoch: install.epoch,
        members: install.members,
        map: install.map,
    };
    Letter {
        from: own,
        to: own,
        epoch: EpochId::none(),
        ticket: None,
        body,
    }
}

impl WholeNode {
    // The node enters an epoch that it has promised, and whose membership names it.
    fn enter(&mut self, alloc: Global, install: Install) -> Result<(), AllocError>
        requires due { IsDue (node_of self.old.maps) install }
        requires named { NamesNode install (own_of self.old.maps) (node_of self.old.maps).boot }
        ensures { OnOk result (EntersEpoch install self.old self.new) }
    {
        let letter = letter_of(self.mail.own(), install);
        self.maps.hear(alloc, &letter)?;
        self.share_epoch()?;
        Ok(())
    }

    // A node that has promised the first epoch gets its maps, and enters it.
    fn in_first_epoch(alloc: Global, mail: Node, plan: &Plan) -> Result<WholeNode, AllocError>
        requires first { HasPromisedFirst plan.now mail }
        ensures { IfOk result (λ node. HasEnteredFirst plan.now mail node) }
    {
        let install = first_membership(alloc, plan)?;
        let mut node = WholeNode::over(alloc, mail, first_epoch(), &[])?;
        node.enter(alloc, install)?;
        Ok(node)
    }

    /// Makes the journal of a node on its disk, which is empty, and starts the node in its first boot, as `Node::first`. Then it
    /// promises the first epoch, whose record is appended, and enters it: its members are all nodes of the plan, each in its
    /// first boot, and the buckets are spread evenly over them. So all nodes of a plan are in one epoch without a letter. No
    /// message is here.
    ///
    /// # Errors
    ///
    /// It is never `Worn`. After an error the disk has to be emptied before it is tried again.
    pub fn first<D: Disk>(
        alloc: Global,
        disk: &mut D,
        plan: &Plan,
        number: NodeNo,
    ) -> Result<WholeNode, NodeFault>
        requires empty { IfSome (D.seen disk.old) (λ held. held ≡ []) }
        requires within { number ≤ plan.now.nodes }
        requires few { plan.now.nodes ≤ 16 }
        requires copies { 1 ≤ plan.now.copies }
        ensures starts { StartsFirstWhole (view_of D.seen D.faults D.clock) plan.now number disk.old disk.new result }
        ensures beside { IfOk result (λ node. KeepsReads (Down []) (joint_seen node)) }
        ensures told { IsToldAlike (D.seen disk.old) (D.seen disk.new) }
        ensures faults { D.faults disk.old ≤ D.faults disk.new }
        ensures settled { OnOk result (D.settled disk.new) }
    {
        let mut mail = Node::first(alloc, disk, plan, number)?;
        mail.promise(alloc, disk, first_epoch())?;
        match WholeNode::in_first_epoch(alloc, mail, plan) {
            Ok(node) => Ok(node),
            Err(AllocError) => Err(NodeFault::NoMemory { down: true }),
        }
    }
}
