//! What a pass counts of a call, after its turn.
ghost use Rattle.std.specs.Prelude.{IfNone};
ghost use Rattle.io_edge.specs.Causes.{Rose};
ghost use Rattle.call_tickets.specs.Passes.{NoneFell};
ghost use Rattle.desk_model.specs.Tallies.{LeaveCounts};

use call_tickets::{DeskFault, Life, Tally};
use solo_desk::{count_leave, count_refusal};

/// Counts a node that is not up.
pub(crate) fn count_absence(tally: &mut Tally, life: &Option<Life>)
    ensures fell { NoneFell tally.old tally.new }
    ensures down { IfNone life.now (Rose (tally.old).down (tally.new).down) }
{
    match life {
        Some(_) => {}
        None => count_refusal(tally, DeskFault::Down),
    }
}

/// Counts a Leave that was begun, or why it was refused.
pub(crate) fn count_left(tally: &mut Tally, left: &Result<(), DeskFault>)
    ensures { LeaveCounts left.now tally.old tally.new }
{
    match left {
        Ok(()) => count_leave(tally),
        Err(why) => count_refusal(tally, *why),
    }
}
