//! How often each mishap befell a call.
ghost use Rattle.std.specs.Prelude.{◌≡◌};
ghost use Rattle.object_model.specs.Mishaps.{no_mishaps, counted, one_more};
ghost use Rattle.node_tickets.specs.Seen.{kind_of_mishap, mishaps_seen};

use call_tickets::Mishaps;
use node_tickets::MishapKind;

/// Nothing befell the call.
pub(crate) fn none() -> Mishaps
    ensures { mishaps_seen result ≡ no_mishaps }
{
    Mishaps {
        few_members: 0,
        year: 0,
        dropped: 0,
        stale: 0,
        down: 0,
        disk: 0,
        crowded: 0,
    }
}

// One more; a count at its greatest stays there.
fn raise(count: &mut u64)
    ensures { count.new ≡ one_more count.old }
{
    if *count < u64::MAX {
        *count += 1;
    }
}

/// A mishap of the kind is counted.
pub(crate) fn count(mishaps: &mut Mishaps, kind: MishapKind)
    ensures { mishaps_seen mishaps.new ≡ counted (kind_of_mishap kind) (mishaps_seen mishaps.old) }
{
    match kind {
        MishapKind::FewMembers => raise(&mut mishaps.few_members),
        MishapKind::Year => raise(&mut mishaps.year),
        MishapKind::Dropped => raise(&mut mishaps.dropped),
        MishapKind::Stale => raise(&mut mishaps.stale),
        MishapKind::Down => raise(&mut mishaps.down),
        MishapKind::Disk => raise(&mut mishaps.disk),
        MishapKind::Crowded => raise(&mut mishaps.crowded),
    }
}
