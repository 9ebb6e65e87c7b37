// A letter is posted.
ghost use Rattle.std.specs.Prelude.{◌≡◌};
ghost use Rattle.node_store.specs.Disks.{view_of};
ghost use Rattle.cluster_world.specs.Books.{IsLongerBook};
ghost use Rattle.cluster_world.specs.Worlds.{plan_of, book_of, CanMakeSteps};
ghost use Rattle.desk_model.specs.Added.{AreQuiet};
ghost use Rattle.solo_desk.specs.Serving.{CanServe, AddsTo};
ghost use Rattle.solo_desk.specs.Steps.{PostsBy};
ghost use Rattle.desk_model.specs.Tallies.{IsNeverDown};
ghost use Rattle.solo_desk.specs.Posting.{IsPosted};

use call_tickets::{DeskFault, Posted};
use cluster_world::{Said, Step, StepFault, World};
use io_edge::Disk;
use std::alloc::Global;

// The letter is in flight, and names no node that would have to be up: over a sound world it is refused only where a number is
// used up, or memory runs out.
fn posted(said: &Result<Said, StepFault>) -> Result<Posted, DeskFault>
    ensures posted { IsPosted said.now result }
    ensures never { IsNeverDown result }
{
    match said {
        Ok(_) => Ok(Posted::Did),
        Err(StepFault::Worn) => Err(DeskFault::Worn),
        Err(_) => Err(DeskFault::NoMemory),
    }
}

/// Posts the letter of the lowest number in flight. It answers `Quiet` where none is.
///
/// # Errors
///
/// `Worn`, and out of memory. The letter then stays in flight.
pub fn post_first<D: Disk>(alloc: Global, world: &mut World<D>) -> Result<Posted, DeskFault>
    requires { CanMakeSteps D.seen world.old }
    ensures ready { CanMakeSteps D.seen world.new }
    ensures serves { CanServe (view_of D.seen D.faults D.clock) world.old → CanServe (view_of D.seen D.faults D.clock) world.new }
    ensures plan { plan_of world.new ≡ plan_of world.old }
    ensures longer { IsLongerBook (book_of world.old) (book_of world.new) }
    ensures adds { CanServe (view_of D.seen D.faults D.clock) world.old → AddsTo AreQuiet world.old world.new }
    ensures never { IsNeverDown result }
    ensures made { PostsBy (view_of D.seen D.faults D.clock) result world.old world.new }
{
    let Some(letter) = world.flying() else {
        return Ok(Posted::Quiet);
    };
    let said = world.step(
        alloc,
        Step::Post {
            letter,
            keep: false,
        },
    );
    posted(&said)
}
