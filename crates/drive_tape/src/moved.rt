// What a run line makes of the cluster: its steps, and what came of them.
ghost use Rattle.std.specs.Prelude.{◌≡◌, ◌≤◌, ◌<◌, List, None, Some, Ok, IsErrOf, if◌then◌else◌};
ghost use Rattle.mail_model.specs.Tape.{ClusterOrder as order};
ghost use Rattle.session_model.specs.Acts.{Act as AnAct};
ghost use Rattle.node_store.specs.Disks.{view_of};
ghost use Rattle.cluster_world.specs.Worlds.{plan_of};
ghost use Rattle.cluster_world.specs.Outcomes.{Outcome, Awaited};
ghost use Rattle.cluster_world.specs.declared.world.World.{World as AWorld};
ghost use Rattle.drive_tape.specs.Orders.{admitted_seen};
ghost use Rattle.drive_tape.specs.Worlds.{WorldIsReady};
ghost use Rattle.drive_tape.specs.Moved.{MovedSo, OrderIsFit, PushedSo, PostsTo, IsSaidOfPost};

use crate::Stop;
use crate::denial::{done, stop_by};
use crate::event::ClusterEvent;
use crate::grouping::{conclude, group, regroup};
use crate::orders::Admitted;
use crate::resting::{maps, report, settle};
use cluster_world::{Said, Step, StepFault, World};
use io_edge::Disk;
use mail_base::{MsgId, Name, NodeNo};
use std::alloc::Global;

// A node stops.
fn crash<D: Disk>(world: &mut World<D>, alloc: Global, node: NodeNo) -> Result<ClusterEvent, Stop>
    requires ready { WorldIsReady D.seen D.settled world.old }
    ensures ready { WorldIsReady D.seen D.settled world.new }
    ensures plan { plan_of world.new ≡ plan_of world.old }
    ensures moved { (start : AWorld D) (outcomes : List Outcome) (awaited : List Awaited) (been : List AnAct)
        → OrderIsFit (view_of D.seen D.faults D.clock) start outcomes awaited been (order.Crash node) world.old → MovedSo (view_of D.seen D.faults D.clock) start outcomes awaited been world.old (order.Crash node) result world.new }
    ensures why { IsErrOf result Stop.WriteFault → ⊥ }
{
    let said = world.step(alloc, Step::Crash { node });
    done(&said)?;
    Ok(ClusterEvent::WentDown(node))
}

// A node starts.
fn start<D: Disk>(world: &mut World<D>, alloc: Global, node: NodeNo) -> Result<ClusterEvent, Stop>
    requires ready { WorldIsReady D.seen D.settled world.old }
    ensures ready { WorldIsReady D.seen D.settled world.new }
    ensures plan { plan_of world.new ≡ plan_of world.old }
    ensures moved { (start : AWorld D) (outcomes : List Outcome) (awaited : List Awaited) (been : List AnAct)
        → OrderIsFit (view_of D.seen D.faults D.clock) start outcomes awaited been (order.Start node) world.old → MovedSo (view_of D.seen D.faults D.clock) start outcomes awaited been world.old (order.Start node) result world.new }
    ensures why { IsErrOf result Stop.WriteFault → ⊥ }
{
    match world.step(alloc, Step::Start { node }) {
        Ok(Said::NodeUp { boot }) => Ok(ClusterEvent::CameUp { node, boot }),
        Ok(Said::Faulted(_)) => Ok(ClusterEvent::HasFaulted(node)),
        // Nothing else is said of it.
        Ok(_) => unreachable!(),
        Err(fault) => Err(stop_by(fault)),
    }
}

// A node is lost.
fn lose<D: Disk>(world: &mut World<D>, alloc: Global, node: NodeNo) -> Result<ClusterEvent, Stop>
    requires ready { WorldIsReady D.seen D.settled world.old }
    ensures ready { WorldIsReady D.seen D.settled world.new }
    ensures plan { plan_of world.new ≡ plan_of world.old }
    ensures moved { (start : AWorld D) (outcomes : List Outcome) (awaited : List Awaited) (been : List AnAct)
        → OrderIsFit (view_of D.seen D.faults D.clock) start outcomes awaited been (order.Lose node) world.old → MovedSo (view_of D.seen D.faults D.clock) start outcomes awaited been world.old (order.Lose node) result world.new }
    ensures why { IsErrOf result Stop.WriteFault → ⊥ }
{
    let said = world.step(alloc, Step::Lose { node });
    done(&said)?;
    Ok(ClusterEvent::WasLost(node))
}

// What came of posting the letter.
fn posted(said: &Result<Said, StepFault>, letter: u64) -> Result<ClusterEvent, Stop>
    requires fits { IsSaidOfPost said.now }
    ensures posts { PostsTo letter said.now result }
    ensures why { IsErrOf result Stop.WriteFault → ⊥ }
{
    match said {
        Ok(Said::Heard) => Ok(ClusterEvent::WasHeard(letter)),
        Ok(Said::Thrown(why)) => Ok(ClusterEvent::WasThrown { letter, why: *why }),
        Ok(Said::Faulted(node)) => Ok(ClusterEvent::HasFaulted(*node)),
        // Nothing else is said of it.
        Ok(_) => unreachable!(),
        Err(fault) => Err(stop_by(*fault)),
    }
}

// A letter is posted.
fn post<D: Disk>(
    world: &mut World<D>,
    alloc: Global,
    letter: u64,
    keep: bool,
) -> Result<ClusterEvent, Stop>
    requires ready { WorldIsReady D.seen D.settled world.old }
    ensures ready { WorldIsReady D.seen D.settled world.new }
    ensures plan { plan_of world.new ≡ plan_of world.old }
    ensures moved { (start : AWorld D) (outcomes : List Outcome) (awaited : List Awaited) (been : List AnAct)
        → OrderIsFit (view_of D.seen D.faults D.clock) start outcomes awaited been (if keep then order.Again letter else order.Post letter) world.old → MovedSo (view_of D.seen D.faults D.clock) start outcomes awaited been world.old (if keep then order.Again letter else order.Post letter) result world.new }
    ensures why { IsErrOf result Stop.WriteFault → ⊥ }
{
    let said = world.step(alloc, Step::Post { letter, keep });
    posted(&said, letter)
}

// A letter is dropped.
fn drop_letter<D: Disk>(
    world: &mut World<D>,
    alloc: Global,
    letter: u64,
) -> Result<ClusterEvent, Stop>
    requires ready { WorldIsReady D.seen D.settled world.old }
    ensures ready { WorldIsReady D.seen D.settled world.new }
    ensures plan { plan_of world.new ≡ plan_of world.old }
    ensures moved { (start : AWorld D) (outcomes : List Outcome) (awaited : List Awaited) (been : List AnAct)
        → OrderIsFit (view_of D.seen D.faults D.clock) start outcomes awaited been (order.Drop letter) world.old → MovedSo (view_of D.seen D.faults D.clock) start outcomes awaited been world.old (order.Drop letter) result world.new }
    ensures why { IsErrOf result Stop.WriteFault → ⊥ }
{
    let said = world.step(alloc, Step::Drop { letter });
    done(&said)?;
    Ok(ClusterEvent::WasDropped(letter))
}

// A copy gets a target more.
fn widen<D: Disk>(
    world: &mut World<D>,
    alloc: Global,
    at: NodeNo,
    user: Name,
    id: MsgId,
    to: NodeNo,
) -> Result<ClusterEvent, Stop>
    requires ready { WorldIsReady D.seen D.settled world.old }
    ensures ready { WorldIsReady D.seen D.settled world.new }
    ensures plan { plan_of world.new ≡ plan_of world.old }
    ensures moved { (start : AWorld D) (outcomes : List Outcome) (awaited : List Awaited) (been : List AnAct)
        → OrderIsFit (view_of D.seen D.faults D.clock) start outcomes awaited been (order.Widen at user id to) world.old → MovedSo (view_of D.seen D.faults D.clock) start outcomes awaited been world.old (order.Widen at user id to) result world.new }
    ensures why { IsErrOf result Stop.WriteFault → ⊥ }
{
    match world.step(alloc, Step::Widen { at, user, id, to }) {
        Ok(Said::Widened(did)) => Ok(ClusterEvent::HasWidened(did)),
        Ok(Said::Faulted(_)) => Ok(ClusterEvent::HasFaulted(at)),
        // Nothing else is said of it.
        Ok(_) => unreachable!(),
        Err(fault) => Err(stop_by(fault)),
    }
}

// All letters are posted.
fn flow<D: Disk>(world: &mut World<D>, alloc: Global) -> Result<ClusterEvent, Stop>
    requires ready { WorldIsReady D.seen D.settled world.old }
    ensures ready { WorldIsReady D.seen D.settled world.new }
    ensures plan { plan_of world.new ≡ plan_of world.old }
    ensures moved { (start : AWorld D) (outcomes : List Outcome) (awaited : List Awaited) (been : List AnAct)
        → OrderIsFit (view_of D.seen D.faults D.clock) start outcomes awaited been (order.Flow) world.old → MovedSo (view_of D.seen D.faults D.clock) start outcomes awaited been world.old (order.Flow) result world.new }
    ensures why { IsErrOf result Stop.WriteFault → ⊥ }
{
    match world.flow(alloc) {
        Ok(None) => Ok(ClusterEvent::HasFlowed),
        Ok(Some(node)) => Ok(ClusterEvent::HasFaulted(node)),
        Err(fault) => Err(stop_by(fault)),
    }
}

// How many letters a node sent to another; none where its disk failed.
fn push_to<D: Disk>(
    world: &mut World<D>,
    alloc: Global,
    from: NodeNo,
    to: NodeNo,
) -> Result<Option<u64>, Stop>
    requires ready { WorldIsReady D.seen D.settled world.old }
    ensures ready { WorldIsReady D.seen D.settled world.new }
    ensures plan { plan_of world.new ≡ plan_of world.old }
    ensures pushed { PushedSo (view_of D.seen D.faults D.clock) from to result world.old world.new }
    ensures why { IsErrOf result Stop.WriteFault → ⊥ }
{
    match world.step(alloc, Step::Push { from, to }) {
        Ok(Said::Sent { letters }) => Ok(Some(letters)),
        Ok(Said::Faulted(_)) => Ok(None),
        // Nothing else is said of it.
        Ok(_) => unreachable!(),
        Err(fault) => Err(stop_by(fault)),
    }
}

// How many letters a node sent to the one of this number. To itself it sends none.
fn push_on<D: Disk>(
    world: &mut World<D>,
    alloc: Global,
    from: NodeNo,
    number: u8,
) -> Result<Option<u64>, Stop>
    requires ready { WorldIsReady D.seen D.settled world.old }
    requires above { 1 ≤ number }
    requires within { number ≤ 16 }
    ensures ready { WorldIsReady D.seen D.settled world.new }
    ensures plan { plan_of world.new ≡ plan_of world.old }
    ensures own { number ≡ from → (world.new ≡ world.old) × (result ≡ Ok (Some 0)) }
    ensures pushed { (number ≡ from → ⊥) → PushedSo (view_of D.seen D.faults D.clock) from number result world.old world.new }
    ensures why { IsErrOf result Stop.WriteFault → ⊥ }
{
    let Some(to) = NodeNo::new(number) else {
        unreachable!()
    };
    if to.number() == from.number() {
        return Ok(Some(0));
    }
    push_to(world, alloc, from, to)
}

// A node pushes to each other, in rising order.
fn push<D: Disk>(world: &mut World<D>, alloc: Global, from: NodeNo) -> Result<ClusterEvent, Stop>
    requires ready { WorldIsReady D.seen D.settled world.old }
    ensures ready { WorldIsReady D.seen D.settled world.new }
    ensures plan { plan_of world.new ≡ plan_of world.old }
    ensures moved { (start : AWorld D) (outcomes : List Outcome) (awaited : List Awaited) (been : List AnAct)
        → OrderIsFit (view_of D.seen D.faults D.clock) start outcomes awaited been (order.Push from) world.old → MovedSo (view_of D.seen D.faults D.clock) start outcomes awaited been world.old (order.Push from) result world.new }
    ensures why { IsErrOf result Stop.WriteFault → ⊥ }
{
    let mut sent: u64 = 0;
    if !world.is_up(from) {
        return Ok(ClusterEvent::HasSent(sent));
    }
    for done in 0..world.plan().nodes {
        match push_on(world, alloc, from, done + 1)? {
            Some(letters) => sent = sent.saturating_add(letters),
            None => return Ok(ClusterEvent::HasFaulted(from)),
        }
    }
    Ok(ClusterEvent::HasSent(sent))
}

// The clock is set.
fn tick<D: Disk>(world: &mut World<D>, alloc: Global, seconds: u64) -> Result<ClusterEvent, Stop>
    requires ready { WorldIsReady D.seen D.settled world.old }
    ensures ready { WorldIsReady D.seen D.settled world.new }
    ensures plan { plan_of world.new ≡ plan_of world.old }
    ensures moved { (start : AWorld D) (outcomes : List Outcome) (awaited : List Awaited) (been : List AnAct)
        → OrderIsFit (view_of D.seen D.faults D.clock) start outcomes awaited been (order.Tick seconds) world.old → MovedSo (view_of D.seen D.faults D.clock) start outcomes awaited been world.old (order.Tick seconds) result world.new }
    ensures why { IsErrOf result Stop.WriteFault → ⊥ }
{
    let said = world.step(alloc, Step::Tick { seconds });
    done(&said)?;
    Ok(ClusterEvent::HasTicked)
}

// The entries of the book are counted. No step is made.
fn sum<D: Disk>(world: &World<D>) -> ClusterEvent
    ensures moved { (start : AWorld D) (outcomes : List Outcome) (awaited : List Awaited) (been : List AnAct)
        → OrderIsFit (view_of D.seen D.faults D.clock) start outcomes awaited been order.Sum world.now → MovedSo (view_of D.seen D.faults D.clock) start outcomes awaited been world.now order.Sum (Ok result) world.now }
{
    ClusterEvent::HasSummed(world.sum())
}

/// Makes the steps of the order, and says what came of them.
///
/// # Errors
///
/// The fault by which the tape is refused, where a step was; or out of memory.
pub(crate) fn make<D: Disk>(
    world: &mut World<D>,
    alloc: Global,
    admitted: Admitted,
) -> Result<ClusterEvent, Stop>
    requires ready { WorldIsReady D.seen D.settled world.old }
    ensures ready { WorldIsReady D.seen D.settled world.new }
    ensures plan { plan_of world.new ≡ plan_of world.old }
    ensures moved { (start : AWorld D) (outcomes : List Outcome) (awaited : List Awaited) (been : List AnAct)
        → OrderIsFit (view_of D.seen D.faults D.clock) start outcomes awaited been (admitted_seen admitted) world.old → MovedSo (view_of D.seen D.faults D.clock) start outcomes awaited been world.old (admitted_seen admitted) result world.new }
    ensures why { IsErrOf result Stop.WriteFault → ⊥ }
{
    match admitted {
        Admitted::Crash(node) => crash(world, alloc, node),
        Admitted::Start(node) => start(world, alloc, node),
        Admitted::Lose(node) => lose(world, alloc, node),
        Admitted::Post { letter, keep } => post(world, alloc, letter, keep),
        Admitted::Drop(letter) => drop_letter(world, alloc, letter),
        Admitted::Flow => flow(world, alloc),
        Admitted::Push(node) => push(world, alloc, node),
        Admitted::Widen { at, user, id, to } => widen(world, alloc, at, user, id, to),
        Admitted::Group(node) => group(world, alloc, node),
        Admitted::Conclude(node) => conclude(world, alloc, node),
        Admitted::Regroup(node) => regroup(world, alloc, node),
        Admitted::Report(node) => report(world, alloc, node),
        Admitted::Settle => settle(world, alloc),
        Admitted::Maps(user) => Ok(maps(world, user)),
        Admitted::Tick(seconds) => tick(world, alloc, seconds),
        Admitted::Sum => Ok(sum(world)),
    }
}
