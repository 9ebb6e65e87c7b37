// The steps that sessions lead to: a call is begun, asked for or given up, and a session leaves.
ghost use Rattle.std.specs.Prelude.{◌≡◌, Some, List, ℕ, IsErrOf};
ghost use Rattle.session_model.specs.Calls as calls;
ghost use Rattle.call_tickets.specs.Seen.{call_seen};
ghost use Rattle.node_store.specs.Disks.{view_of};
ghost use Rattle.cluster_world.specs.Outcomes.{Outcome, Awaited, IsLeave};
ghost use Rattle.cluster_world.specs.Worlds.{plan_of};
ghost use Rattle.cluster_world.specs.declared.world.World.{World as AWorld};
ghost use Rattle.object_model.specs.Lists.{Among};
ghost use Rattle.drive_tape.specs.Kinds.{IsKindOf, IsNoLeave};
ghost use Rattle.drive_tape.specs.Leaving.{IsALeave};
ghost use Rattle.drive_tape.specs.Worlds.{IsWholeCall, IsSaidOfBeginning, IsSaidOfLeave, HandsOn, IsNoted, WorldIsAt, WorldIsReady, BeganSo, AskedSo, GaveUpSo, LeftSo};

use crate::Stop;
use crate::denial::done;
use crate::open_call::{OpenCall, fits, kind_of};
use call_tickets::{Answer, Ask, Call};
use cluster_world::{Said, Step, StepFault, World};
use io_edge::Disk;
use mail_base::{CallKind, NodeNo};
use std::alloc::{AllocError, Global};

// The call that has begun; none where the disk failed.
fn hand_on(said: &Result<Said, StepFault>, kind: CallKind) -> Result<Option<OpenCall>, AllocError>
    requires fits { IsSaidOfBeginning said.now }
    ensures { HandsOn kind said.now result }
{
    match said {
        Ok(Said::Begun { ticket, stirs: _ }) => Ok(Some(OpenCall {
            ticket: *ticket,
            kind,
        })),
        Ok(Said::Faulted(_)) => Ok(None),
        // Nothing else is said of a beginning.
        Ok(_) => unreachable!(),
        Err(_) => Err(AllocError),
    }
}

/// Begins the call at this node: the call in progress, or none where the disk failed and the node is down.
///
/// # Errors
///
/// Out of memory. Also where all numbers of 64 bits are used up, which no tape is long enough for.
pub(crate) fn begin<D: Disk>(
    world: &mut World<D>,
    alloc: Global,
    node: NodeNo,
    call: Call,
) -> Result<Option<OpenCall>, AllocError>
    requires ready { WorldIsReady D.seen D.settled world.old }
    requires asks { IsNoLeave call }
    ensures ready { WorldIsReady D.seen D.settled world.new }
    ensures plan { plan_of world.new ≡ plan_of world.old }
    ensures began { (start : AWorld D) (outcomes : List Outcome) (awaited : List Awaited) (k : ℕ) (asked : calls.Call) → call_seen call ≡ Some asked → IsWholeCall asked
        → WorldIsAt (view_of D.seen D.faults D.clock) start outcomes awaited world.old → BeganSo (view_of D.seen D.faults D.clock) start outcomes awaited k node asked result world.old world.new }
{
    let kind = kind_of(&call);
    let said = world.step(alloc, Step::Begin { node, call });
    hand_on(&said, kind)
}

/// Asks for a call in progress: its answer; none where it is not there yet.
///
/// # Errors
///
/// Out of memory.
pub(crate) fn ask<D: Disk>(
    world: &mut World<D>,
    alloc: Global,
    open_call: &OpenCall,
) -> Result<Option<Answer>, AllocError>
    requires ready { WorldIsReady D.seen D.settled world.old }
    ensures ready { WorldIsReady D.seen D.settled world.new }
    ensures plan { plan_of world.new ≡ plan_of world.old }
    ensures asked { (start : AWorld D) (outcomes : List Outcome) (awaited : List Awaited) (k : ℕ) (asked : calls.Call)
        → Among (record { ticket = open_call.now.ticket; session = k; call = asked }) awaited → IsKindOf open_call.now.kind asked
        → WorldIsAt (view_of D.seen D.faults D.clock) start outcomes awaited world.old
        → AskedSo (view_of D.seen D.faults D.clock) start outcomes awaited k asked open_call.now result world.old world.new }
{
    match world.step(
        alloc,
        Step::Ask {
            ticket: open_call.ticket,
        },
    ) {
        Ok(Said::Asked(Ask::Done(answer))) => {
            // A world answers each call in its own kind.
            if fits(open_call.kind, &answer) {
                Ok(Some(answer))
            } else {
                Err(AllocError)
            }
        }
        Ok(Said::Asked(Ask::Pending { .. })) => Ok(None),
        // Nothing else is said of it.
        Ok(_) => unreachable!(),
        Err(_) => Err(AllocError),
    }
}

/// Gives up a call in progress.
///
/// # Errors
///
/// Why it was not: the fault by which the tape is refused, or out of memory.
pub(crate) fn give_up<D: Disk>(
    world: &mut World<D>,
    alloc: Global,
    open_call: &OpenCall,
) -> Result<(), Stop>
    requires ready { WorldIsReady D.seen D.settled world.old }
    ensures ready { WorldIsReady D.seen D.settled world.new }
    ensures plan { plan_of world.new ≡ plan_of world.old }
    ensures gave_up { (start : AWorld D) (outcomes : List Outcome) (awaited : List Awaited) (k : ℕ) (asked : calls.Call)
        → Among (record { ticket = open_call.now.ticket; session = k; call = asked }) awaited
        → WorldIsAt (view_of D.seen D.faults D.clock) start outcomes awaited world.old
        → GaveUpSo (view_of D.seen D.faults D.clock) start outcomes awaited k asked open_call.now.ticket result world.old world.new }
    ensures why { IsErrOf result Stop.WriteFault → ⊥ }
{
    let said = world.step(
        alloc,
        Step::GiveUp {
            ticket: open_call.ticket,
        },
    );
    // Nothing else is said of it but that it is done.
    done(&said)
}

// The leave was noted.
fn noted(said: &Result<Said, StepFault>) -> Result<(), AllocError>
    requires fits { IsSaidOfLeave said.now }
    ensures { IsNoted said.now result }
{
    match said {
        Ok(Said::Noted) => Ok(()),
        // Nothing else is said of a leave.
        Ok(_) => unreachable!(),
        Err(_) => Err(AllocError),
    }
}

/// Tells this node that a session leaves.
///
/// # Errors
///
/// Out of memory.
pub(crate) fn leave<D: Disk>(
    world: &mut World<D>,
    alloc: Global,
    node: NodeNo,
    call: Call,
) -> Result<(), AllocError>
    requires ready { WorldIsReady D.seen D.settled world.old }
    requires leaves { IsALeave call }
    ensures ready { WorldIsReady D.seen D.settled world.new }
    ensures plan { plan_of world.new ≡ plan_of world.old }
    ensures left { (start : AWorld D) (outcomes : List Outcome) (awaited : List Awaited) (k : ℕ) (user : List ℕ) → IsLeave user call
        → WorldIsAt (view_of D.seen D.faults D.clock) start outcomes awaited world.old
        → LeftSo (view_of D.seen D.faults D.clock) start outcomes awaited k node user result world.old world.new }
{
    let said = world.step(alloc, Step::Begin { node, call });
    noted(&said)
}
