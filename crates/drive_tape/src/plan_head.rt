// Reads the plan lines of a tape, up to `go`.
ghost use Rattle.std.specs.Prelude.{◌+◌, ◌^◌, ◌≤◌, ◌<◌, IfOk, OnOk, IsErrOf};
ghost use Rattle.io_edge.specs.Causes.{Rose};
ghost use Rattle.drive_tape.specs.Plans.{PlanTurned, ReadsHead, HeadEnds, IsTapePlan};

use crate::driver::{TAPE_OCTETS, at_line};
use crate::reader::next_line;
use crate::{Drove, Stop, TapeFault};
use line_source::LineSource;
use mail_base::Plan;
use std::alloc::Global;
use tape_lines::{Draft, PlanLine, read_plan_line};

/// What a line of the plan part was.
#[derive(Clone, Copy, Debug, PartialEq, Eq)]
enum PlanTurn {
    /// A line that the draft took.
    Line,
    /// `go`.
    End,
}

// One line is read, and the draft takes it.
fn plan_turn<S: LineSource>(
    alloc: Global,
    source: &mut S,
    room: &mut u64,
    draft: &mut Draft,
) -> Result<PlanTurn, Stop>
    ensures turned { PlanTurned (S.left source.old) (S.left source.new) result room.old draft.old room.new draft.new }
    ensures less { OnOk result (room.new < room.old) }
    ensures read_later { S.faults source.old ≤ S.faults source.new }
    ensures read_fault { IsErrOf result Stop.ReadFault → Rose (S.faults source.old) (S.faults source.new) }
{
    let line = next_line(alloc, source, room)?;
    match read_plan_line(alloc, line.octets())? {
        None => Err(Stop::Bad(TapeFault::BadPlan)),
        Some(PlanLine::Go) => Ok(PlanTurn::End),
        Some(other) => {
            if draft.add(other)? {
                Ok(PlanTurn::Line)
            } else {
                Err(Stop::Bad(TapeFault::BadPlan))
            }
        }
    }
}

// The plan at `go`, at the line of this number.
fn finish(draft: Draft, number: u64) -> Result<(Plan, u64), Drove>
    ensures { HeadEnds result draft number }
{
    match draft.finish() {
        Some(plan) => Ok((plan, number)),
        None => Err(Drove::BadTape(number, TapeFault::BadPlan)),
    }
}

/// Reads the plan lines of a tape through `go`, and no octet after it: the plan, and how many lines were read.
///
/// # Errors
///
/// `BadTape(n, BadPlan)` with the number of the line that is no plan line, or that of `go` where the plan does not fit
/// together; `BadTape(n, BadLine)` where line n has more than 65,536 octets with its LF, or
/// the source ended before it was whole; `ReadFault` where the source failed; `NoMemory`.
pub fn read_drive_head<S: LineSource>(alloc: Global, source: &mut S) -> Result<(Plan, u64), Drove>
    ensures plan { ReadsHead (S.left source.old) (S.left source.new) result }
    ensures fits { IfOk result (λ head. IsTapePlan head.0) }
    ensures few { IfOk result (λ head. head.1 ≤ 2 ^ 40) }
    ensures read_later { S.faults source.old ≤ S.faults source.new }
    ensures read_fault { IsErrOf result Drove.ReadFault → Rose (S.faults source.old) (S.faults source.new) }
{
    let mut room = TAPE_OCTETS;
    let mut draft = Draft::new(alloc);
    let mut count: u64 = 0;
    loop {
        match plan_turn(alloc, source, &mut room, &mut draft) {
            Ok(PlanTurn::Line) => count += 1,
            Ok(PlanTurn::End) => return finish(draft, count + 1),
            Err(stop) => return Err(at_line(stop, count + 1)),
        }
    }
}
