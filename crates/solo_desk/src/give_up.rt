// A call is given up.
ghost use Rattle.std.specs.Prelude.{◌≡◌};
ghost use Rattle.node_store.specs.Disks.{view_of};
ghost use Rattle.cluster_world.specs.Books.{IsLongerBook};
ghost use Rattle.cluster_world.specs.Worlds.{plan_of, book_of, CanMakeSteps};
ghost use Rattle.desk_model.specs.Added.{AreQuiet};
ghost use Rattle.solo_desk.specs.Serving.{CanServe, AddsTo};
ghost use Rattle.solo_desk.specs.Steps.{GivesUpBy};
ghost use Rattle.solo_desk.specs.GivingUp.{EndsAs};
ghost use Rattle.desk_model.specs.Tallies.{IsNeverDown};

use crate::refusal::refusal_of;
use crate::standing::stands_as_begun;
use call_tickets::{DeskFault, DeskTicket};
use cluster_world::{Said, Step, StepFault, World};
use io_edge::Disk;
use std::alloc::Global;

// What stands no more needs not be given up.
fn ended(said: &Result<Said, StepFault>) -> Result<(), DeskFault>
    ensures ends { EndsAs said.now result }
    ensures never { IsNeverDown result }
{
    match said {
        Ok(_) => Ok(()),
        Err(fault) => match refusal_of(*fault) {
            DeskFault::Down => Ok(()),
            DeskFault::Worn => Err(DeskFault::Worn),
            DeskFault::NoMemory => Err(DeskFault::NoMemory),
        },
    }
}

/// Gives up a call that still stands; one that stands no more is passed over.
///
/// # Errors
///
/// `Worn`, and out of memory. The call then still stands.
pub fn give_up_call<D: Disk>(
    alloc: Global,
    world: &mut World<D>,
    ticket: &DeskTicket,
) -> Result<(), DeskFault>
    requires { CanMakeSteps D.seen world.old }
    ensures ready { CanMakeSteps D.seen world.new }
    ensures serves { CanServe (view_of D.seen D.faults D.clock) world.old → CanServe (view_of D.seen D.faults D.clock) world.new }
    ensures plan { plan_of world.new ≡ plan_of world.old }
    ensures longer { IsLongerBook (book_of world.old) (book_of world.new) }
    ensures adds { CanServe (view_of D.seen D.faults D.clock) world.old → AddsTo AreQuiet world.old world.new }
    ensures never { IsNeverDown result }
    ensures made { GivesUpBy (view_of D.seen D.faults D.clock) ticket.now result world.old world.new }
{
    if !stands_as_begun(world, ticket) {
        return Ok(());
    }
    let step = Step::GiveUp {
        ticket: ticket.ticket,
    };
    let said = world.step(alloc, step);
    ended(&said)
}
