// What the run lines make of the cluster by which it comes to rest, and what is told of its maps.
ghost use Rattle.std.specs.Prelude.{◌≡◌, ◌≤◌, ◌&&◌, not, nat_eq, List, Ok, IsErrOf};
ghost use Rattle.object_model.specs.Sets.{has};
ghost use Rattle.mail_model.specs.Tape.{ClusterOrder as order};
ghost use Rattle.session_model.specs.Acts.{Act as AnAct};
ghost use Rattle.node_store.specs.Disks.{view_of};
ghost use Rattle.cluster_world.specs.Made.{others_in};
ghost use Rattle.cluster_world.specs.Worlds.{plan_of};
ghost use Rattle.cluster_world.specs.Outcomes.{Outcome, Awaited};
ghost use Rattle.cluster_world.specs.declared.world.World.{World as AWorld};
ghost use Rattle.drive_tape.specs.Forms.{SettlesTo};
ghost use Rattle.drive_tape.specs.Worlds.{WorldIsReady};
ghost use Rattle.drive_tape.specs.Moved.{MovedSo, OrderIsFit, IsSaidOfReport, SendsTo, ReportedSo, ReportsSo};

use crate::Stop;
use crate::denial::stop_by;
use crate::event::ClusterEvent;
use cluster_world::{Said, Settle, Step, StepFault, World};
use io_edge::Disk;
use mail_base::{Name, NodeNo, NodeSet};
use std::alloc::Global;

// Whether the second node is one of these members, and another than the first.
fn is_other(members: NodeSet, from: NodeNo, to: NodeNo) -> bool
    ensures { result ≡ (has members to && not (nat_eq from to)) }
{
    members.has(to) && from != to
}

// The node of this number.
fn numbered(number: u8) -> NodeNo
    requires above { 1 ≤ number }
    requires within { number ≤ 16 }
    ensures { result ≡ number }
{
    let Some(node) = NodeNo::new(number) else {
        unreachable!()
    };
    node
}

// How many letters a report sent.
fn sent(said: &Result<Said, StepFault>) -> Result<u64, Stop>
    requires fits { IsSaidOfReport said.now }
    ensures sent { SendsTo said.now result }
    ensures why { IsErrOf result Stop.WriteFault → ⊥ }
{
    match said {
        Ok(Said::Sent { letters }) => Ok(*letters),
        // Nothing else is said of it.
        Ok(_) => unreachable!(),
        Err(fault) => Err(stop_by(*fault)),
    }
}

// How many letters a node sent to another, as its manager.
#[tactic(auto, using(crate::proofs::Reports::said_of_report))]
fn report_to<D: Disk>(
    world: &mut World<D>,
    alloc: Global,
    from: NodeNo,
    to: NodeNo,
) -> Result<u64, Stop>
    requires ready { WorldIsReady D.seen D.settled world.old }
    ensures ready { WorldIsReady D.seen D.settled world.new }
    ensures plan { plan_of world.new ≡ plan_of world.old }
    ensures reported { ReportedSo (view_of D.seen D.faults D.clock) from to result world.old world.new }
    ensures why { IsErrOf result Stop.WriteFault → ⊥ }
{
    let said = world.step(alloc, Step::Report { from, to });
    sent(&said)
}

// How many letters a node sent to each other of these members, of the nodes from 1 to so many, in rising order.
#[tactic(auto, using(crate::proofs::Reports::reported_none, crate::proofs::Reports::reported_past, crate::proofs::Reports::refused_before))]
fn report_each<D: Disk>(
    world: &mut World<D>,
    alloc: Global,
    from: NodeNo,
    members: NodeSet,
    nodes: u8,
) -> Result<u64, Stop>
    requires ready { WorldIsReady D.seen D.settled world.old }
    requires few { nodes ≤ 16 }
    ensures ready { WorldIsReady D.seen D.settled world.new }
    ensures plan { plan_of world.new ≡ plan_of world.old }
    ensures reported { ReportsSo (view_of D.seen D.faults D.clock) from (others_in from members nodes) result world.old world.new }
    ensures why { IsErrOf result Stop.WriteFault → ⊥ }
{
    if nodes == 0 {
        return Ok(0);
    }
    let sent = report_each(world, alloc, from, members, nodes - 1)?;
    let to = numbered(nodes);
    if is_other(members, from, to) {
        let more = report_to(world, alloc, from, to)?;
        return Ok(sent.saturating_add(more));
    }
    Ok(sent)
}

/// A node reports its rows to each other member of its epoch, in rising order.
pub(crate) fn report<D: Disk>(
    world: &mut World<D>,
    alloc: Global,
    from: NodeNo,
) -> Result<ClusterEvent, Stop>
    requires ready { WorldIsReady D.seen D.settled world.old }
    ensures ready { WorldIsReady D.seen D.settled world.new }
    ensures plan { plan_of world.new ≡ plan_of world.old }
    ensures moved { (start : AWorld D) (outcomes : List Outcome) (awaited : List Awaited) (been : List AnAct)
        → OrderIsFit (view_of D.seen D.faults D.clock) start outcomes awaited been (order.Report from) world.old → MovedSo (view_of D.seen D.faults D.clock) start outcomes awaited been world.old (order.Report from) result world.new }
    ensures why { IsErrOf result Stop.WriteFault → ⊥ }
{
    let members = world.members(from);
    let sent = report_each(world, alloc, from, members, 16)?;
    Ok(ClusterEvent::HasSent(sent))
}

// What came of a settle.
fn settled(came: &Result<Settle, StepFault>) -> Result<ClusterEvent, Stop>
    ensures settles { SettlesTo came.now result }
    ensures why { IsErrOf result Stop.WriteFault → ⊥ }
{
    match came {
        Ok(Settle::Settled) => Ok(ClusterEvent::HasSettled),
        Ok(Settle::NotAllUp(member)) => Ok(ClusterEvent::WasAbsent(*member)),
        Ok(Settle::Fault(failed)) => Ok(ClusterEvent::HasFaulted(*failed)),
        Err(fault) => Err(stop_by(*fault)),
    }
}

/// The cluster settles: letters are posted, and members push and report, until nothing is due.
pub(crate) fn settle<D: Disk>(world: &mut World<D>, alloc: Global) -> Result<ClusterEvent, Stop>
    requires ready { WorldIsReady D.seen D.settled world.old }
    ensures ready { WorldIsReady D.seen D.settled world.new }
    ensures plan { plan_of world.new ≡ plan_of world.old }
    ensures moved { (start : AWorld D) (outcomes : List Outcome) (awaited : List Awaited) (been : List AnAct)
        → OrderIsFit (view_of D.seen D.faults D.clock) start outcomes awaited been order.Settle world.old → MovedSo (view_of D.seen D.faults D.clock) start outcomes awaited been world.old order.Settle result world.new }
    ensures why { IsErrOf result Stop.WriteFault → ⊥ }
{
    let came = world.settle(alloc);
    settled(&came)
}

/// The nodes with mail of the user, as its manager names them. No step is made.
pub(crate) fn maps<D: Disk>(world: &World<D>, user: Name) -> ClusterEvent
    ensures moved { (start : AWorld D) (outcomes : List Outcome) (awaited : List Awaited) (been : List AnAct)
        → OrderIsFit (view_of D.seen D.faults D.clock) start outcomes awaited been (order.Maps user) world.now → MovedSo (view_of D.seen D.faults D.clock) start outcomes awaited been world.now (order.Maps user) (Ok result) world.now }
{
    let told = world.maps(&user);
    ClusterEvent::HasMapped { user, told }
}
