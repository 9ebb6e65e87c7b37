// The Leave of a login begins.
ghost use Rattle.std.specs.Prelude.{◌≡◌};
ghost use Rattle.node_store.specs.Disks.{view_of};
ghost use Rattle.cluster_world.specs.Books.{IsLongerBook};
ghost use Rattle.cluster_world.specs.Worlds.{plan_of, book_of, CanMakeSteps};
ghost use Rattle.desk_model.specs.Added.{AreQuiet};
ghost use Rattle.solo_desk.specs.Serving.{CanServe, AddsTo};
ghost use Rattle.solo_desk.specs.Steps.{LeavesBy};
ghost use Rattle.solo_desk.specs.Leaving.{IsSaidOfLeave, IsNoted, IsLeave};

use crate::refusal::refusal_of;
use call_tickets::{Call, DeskFault};
use cluster_world::{Said, Step, StepFault, World};
use io_edge::Disk;
use mail_base::NodeNo;
use std::alloc::Global;

fn is_leave(call: &Call) -> bool
    ensures { IsLeave call.now result }
{
    match call {
        Call::Leave { .. } => true,
        Call::Deliver(_) | Call::Login { .. } | Call::Fetch { .. } | Call::Strike { .. } => false,
    }
}

fn noted(said: &Result<Said, StepFault>) -> Result<(), DeskFault>
    requires { IsSaidOfLeave said.now }
    ensures { IsNoted said.now result }
{
    match said {
        Ok(Said::Noted) => Ok(()),
        // Nothing else is said of a Leave.
        Ok(_) => unreachable!(),
        Err(fault) => Err(refusal_of(*fault)),
    }
}

/// Begins the Leave of a login, which has no answer. Another call is refused as `Down`.
///
/// # Errors
///
/// `Down`, `Worn`, and out of memory. No Leave was then begun.
pub fn leave_login<D: Disk>(
    alloc: Global,
    world: &mut World<D>,
    node: NodeNo,
    call: Call,
) -> Result<(), DeskFault>
    requires { CanMakeSteps D.seen world.old }
    ensures ready { CanMakeSteps D.seen world.new }
    ensures serves { CanServe (view_of D.seen D.faults D.clock) world.old → CanServe (view_of D.seen D.faults D.clock) world.new }
    ensures plan { plan_of world.new ≡ plan_of world.old }
    ensures longer { IsLongerBook (book_of world.old) (book_of world.new) }
    ensures adds { CanServe (view_of D.seen D.faults D.clock) world.old → AddsTo AreQuiet world.old world.new }
    ensures made { LeavesBy (view_of D.seen D.faults D.clock) node call result world.old world.new }
{
    if !is_leave(&call) {
        return Err(DeskFault::Down);
    }
    let said = world.step(alloc, Step::Begin { node, call });
    noted(&said)
}
