//! Counts of passes.
ghost use Rattle.std.specs.Prelude.{◌≡◌};
ghost use Rattle.desk_model.specs.Tallies.{no_counts};
ghost use Rattle.shard_board.specs.Tallies.{counts_of_both};

use call_tickets::Tally;

/// Nothing was counted.
pub(crate) fn no_counts() -> Tally
    ensures { result ≡ no_counts }
{
    Tally {
        stored: 0,
        listed: 0,
        wrong: 0,
        in_use: 0,
        no_profile: 0,
        part: 0,
        gone: 0,
        dropped: 0,
        failed: 0,
        down: 0,
        worn: 0,
        leaves: 0,
    }
}

/// What two passes counted together.
pub(crate) fn counts_of_both(first: &Tally, second: &Tally) -> Tally
    ensures { result ≡ counts_of_both first.now second.now }
{
    Tally {
        stored: first.stored.saturating_add(second.stored),
        listed: first.listed.saturating_add(second.listed),
        wrong: first.wrong.saturating_add(second.wrong),
        part: first.part.saturating_add(second.part),
        gone: first.gone.saturating_add(second.gone),
        dropped: first.dropped.saturating_add(second.dropped),
        failed: first.failed.saturating_add(second.failed),
        down: first.down.saturating_add(second.down),
        worn: first.worn.saturating_add(second.worn),
        in_use: first.in_use.saturating_add(second.in_use),
        no_profile: first.no_profile.saturating_add(second.no_profile),
        leaves: first.leaves.saturating_add(second.leaves),
    }
}
