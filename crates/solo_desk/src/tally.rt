// What a pass counts.
ghost use Rattle.std.specs.Prelude.{◌≡◌};
ghost use Rattle.io_edge.specs.Causes.{Rose};
ghost use Rattle.call_tickets.specs.Seen.{answer_seen};
ghost use Rattle.call_tickets.specs.Passes.{NoneFell, AnswerCounted, with_leave};
ghost use Rattle.desk_model.specs.Tallies.{RefusalRose, RefusalCounts, AskCounts, no_counts};

use call_tickets::{Answer, Ask, DeskFault, Tally};

/// Nothing was counted yet.
pub fn no_counts() -> Tally
    ensures { result ≡ no_counts }
{
    Tally {
        stored: 0,
        listed: 0,
        wrong: 0,
        in_use: 0,
        no_profile: 0,
        part: 0,
        gone: 0,
        dropped: 0,
        failed: 0,
        down: 0,
        worn: 0,
        leaves: 0,
    }
}

fn one_more(count: u64) -> u64
    ensures { Rose count result }
{
    count.saturating_add(1)
}

/// Counts why a call was refused. Want of memory has no count.
pub fn count_refusal(tally: &mut Tally, why: DeskFault)
    ensures fell { NoneFell tally.old tally.new }
    ensures rose { RefusalRose why tally.old tally.new }
{
    match why {
        DeskFault::Down => tally.down = one_more(tally.down),
        DeskFault::Worn => tally.worn = one_more(tally.worn),
        DeskFault::NoMemory => {}
    }
}

/// The same, if it was.
pub fn count_if_refused<T>(tally: &mut Tally, came: &Result<T, DeskFault>)
    ensures fell { NoneFell tally.old tally.new }
    ensures rose { RefusalCounts came.now tally.old tally.new }
{
    match came {
        Ok(_) => {}
        Err(why) => count_refusal(tally, *why),
    }
}

/// Counts an answer.
pub fn count_answer(tally: &mut Tally, answer: &Answer)
    ensures fell { NoneFell tally.old tally.new }
    ensures rose { AnswerCounted (answer_seen answer.now) tally.old tally.new }
{
    match answer {
        Answer::Stored { .. } => tally.stored = one_more(tally.stored),
        Answer::Listed { .. } => tally.listed = one_more(tally.listed),
        Answer::Wrong { .. } => tally.wrong = one_more(tally.wrong),
        Answer::InUse { .. } => tally.in_use = one_more(tally.in_use),
        Answer::NoProfile { .. } => tally.no_profile = one_more(tally.no_profile),
        Answer::Part { .. } => tally.part = one_more(tally.part),
        Answer::GoneAlready => tally.gone = one_more(tally.gone),
        Answer::Dropped { .. } => tally.dropped = one_more(tally.dropped),
        Answer::Failed(_) => tally.failed = one_more(tally.failed),
    }
}

/// Counts what came of asking for a call: its answer, or why it was refused. One that is pending is not counted.
pub fn count_asked(tally: &mut Tally, asked: &Result<Ask, DeskFault>)
    ensures fell { NoneFell tally.old tally.new }
    ensures rose { AskCounts asked.now tally.old tally.new }
{
    match asked {
        Ok(Ask::Pending { .. }) => {}
        Ok(Ask::Done(answer)) => count_answer(tally, answer),
        Err(why) => count_refusal(tally, *why),
    }
}

/// Counts a Leave.
pub fn count_leave(tally: &mut Tally)
    ensures { NoneFell (with_leave tally.old) tally.new }
{
    tally.leaves = tally.leaves.saturating_add(1);
}
