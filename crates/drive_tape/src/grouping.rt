// What a run line that forms an epoch makes of the cluster.
ghost use Rattle.std.specs.Prelude.{◌≡◌, List, IsErrOf};
ghost use Rattle.mail_model.specs.Tape.{ClusterOrder as order};
ghost use Rattle.session_model.specs.Acts.{Act as AnAct};
ghost use Rattle.node_store.specs.Disks.{view_of};
ghost use Rattle.cluster_world.specs.Worlds.{plan_of};
ghost use Rattle.cluster_world.specs.Outcomes.{Outcome, Awaited};
ghost use Rattle.cluster_world.specs.declared.world.World.{World as AWorld};
ghost use Rattle.drive_tape.specs.Worlds.{WorldIsReady};
ghost use Rattle.drive_tape.specs.Moved.{MovedSo, OrderIsFit};
ghost use Rattle.drive_tape.specs.Forms.{IsSaidOfForming, FormsTo, RegroupsTo};

use crate::Stop;
use crate::denial::stop_by;
use crate::event::ClusterEvent;
use cluster_world::{Regroup, Said, Step, StepFault, World};
use io_edge::Disk;
use mail_base::NodeNo;
use std::alloc::Global;

// What came of a group that was to be opened, or concluded.
fn formed(said: &Result<Said, StepFault>) -> Result<ClusterEvent, Stop>
    requires fits { IsSaidOfForming said.now }
    ensures forms { FormsTo said.now result }
    ensures why { IsErrOf result Stop.WriteFault → ⊥ }
{
    match said {
        Ok(Said::Grouped(epoch)) => Ok(ClusterEvent::HasGrouped(*epoch)),
        Ok(Said::Concluded { epoch, members }) => Ok(ClusterEvent::HasFormed {
            epoch: *epoch,
            members: *members,
        }),
        Ok(Said::Faulted(node)) => Ok(ClusterEvent::HasFaulted(*node)),
        // Nothing else is said of it.
        Ok(_) => unreachable!(),
        Err(fault) => Err(stop_by(*fault)),
    }
}

// What came of a regroup.
fn regrouped(did: &Result<Regroup, StepFault>) -> Result<ClusterEvent, Stop>
    ensures forms { RegroupsTo did.now result }
    ensures why { IsErrOf result Stop.WriteFault → ⊥ }
{
    match did {
        Ok(Regroup::Formed { epoch, members }) => Ok(ClusterEvent::HasFormed {
            epoch: *epoch,
            members: *members,
        }),
        Ok(Regroup::Fault(failed)) => Ok(ClusterEvent::HasFaulted(*failed)),
        Err(fault) => Err(stop_by(*fault)),
    }
}

/// A node opens a group.
#[tactic(auto, using(crate::proofs::Forming::said_of_group))]
pub(crate) fn group<D: Disk>(
    world: &mut World<D>,
    alloc: Global,
    node: NodeNo,
) -> Result<ClusterEvent, Stop>
    requires ready { WorldIsReady D.seen D.settled world.old }
    ensures ready { WorldIsReady D.seen D.settled world.new }
    ensures plan { plan_of world.new ≡ plan_of world.old }
    ensures moved { (start : AWorld D) (outcomes : List Outcome) (awaited : List Awaited) (been : List AnAct)
        → OrderIsFit (view_of D.seen D.faults D.clock) start outcomes awaited been (order.Group node) world.old → MovedSo (view_of D.seen D.faults D.clock) start outcomes awaited been world.old (order.Group node) result world.new }
    ensures why { IsErrOf result Stop.WriteFault → ⊥ }
{
    let said = world.step(alloc, Step::Group { node });
    formed(&said)
}

/// A node concludes its group.
#[tactic(auto, using(crate::proofs::Forming::said_of_conclude))]
pub(crate) fn conclude<D: Disk>(
    world: &mut World<D>,
    alloc: Global,
    node: NodeNo,
) -> Result<ClusterEvent, Stop>
    requires ready { WorldIsReady D.seen D.settled world.old }
    ensures ready { WorldIsReady D.seen D.settled world.new }
    ensures plan { plan_of world.new ≡ plan_of world.old }
    ensures moved { (start : AWorld D) (outcomes : List Outcome) (awaited : List Awaited) (been : List AnAct)
        → OrderIsFit (view_of D.seen D.faults D.clock) start outcomes awaited been (order.Conclude node) world.old → MovedSo (view_of D.seen D.faults D.clock) start outcomes awaited been world.old (order.Conclude node) result world.new }
    ensures why { IsErrOf result Stop.WriteFault → ⊥ }
{
    let said = world.step(alloc, Step::Conclude { node });
    formed(&said)
}

/// A node forms the next epoch: it opens a group, the letters of the group are posted, and it concludes the group.
pub(crate) fn regroup<D: Disk>(
    world: &mut World<D>,
    alloc: Global,
    node: NodeNo,
) -> Result<ClusterEvent, Stop>
    requires ready { WorldIsReady D.seen D.settled world.old }
    ensures ready { WorldIsReady D.seen D.settled world.new }
    ensures plan { plan_of world.new ≡ plan_of world.old }
    ensures moved { (start : AWorld D) (outcomes : List Outcome) (awaited : List Awaited) (been : List AnAct)
        → OrderIsFit (view_of D.seen D.faults D.clock) start outcomes awaited been (order.Regroup node) world.old → MovedSo (view_of D.seen D.faults D.clock) start outcomes awaited been world.old (order.Regroup node) result world.new }
    ensures why { IsErrOf result Stop.WriteFault → ⊥ }
{
    let did = world.regroup(alloc, node);
    regrouped(&did)
}
