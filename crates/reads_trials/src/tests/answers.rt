// Whether an ask was answered so.
use crate::tests::messages::Shown;
use call_tickets::{Answer, Ask};
use mail_base::{Item, Items};

fn is_shown(item: &Item, shown: &Shown) -> bool {
    item.id.node().number() == shown.node
        && item.id.seq() == shown.seq
        && item.stamp.count == shown.count
        && item.targets.mask() == shown.targets
        && item.holders.mask() == shown.holders
        && item.length == shown.length
}

fn are_shown(items: &Items, all: &[Shown]) -> bool {
    items.len() == all.len()
        && items
            .as_slice()
            .iter()
            .zip(all.iter())
            .all(|(item, shown)| is_shown(item, shown))
}

// Whether a login has this listing, of the user's manager, and these nodes were asked.
pub(crate) fn lists(ask: &Option<Ask>, by: u8, named: u16, all: &[Shown]) -> bool {
    match ask {
        Some(
            Ask::Done(
                Answer::Listed {
                    login,
                    manager,
                    asked,
                    items,
                },
            ),
        ) => {
            login.seq == 1
                && manager.number() == by
                && asked.mask() == named
                && are_shown(items, all)
        }
        _ => false,
    }
}

pub(crate) fn waits(ask: &Option<Ask>, so_far: u64, of: u64) -> bool {
    match ask {
        Some(Ask::Pending { got, wanted }) => *got == so_far && *wanted == of,
        _ => false,
    }
}

pub(crate) fn failed(ask: &Option<Ask>, dropped: u64, down: u64) -> bool {
    match ask {
        Some(Ask::Done(Answer::Failed(mishaps))) => {
            mishaps.dropped == dropped && mishaps.down == down
        }
        _ => false,
    }
}

pub(crate) fn is_wrong(ask: &Option<Ask>) -> bool {
    match ask {
        Some(Ask::Done(Answer::Wrong { .. })) => true,
        _ => false,
    }
}

pub(crate) fn is_gone(ask: &Option<Ask>) -> bool {
    match ask {
        Some(Ask::Done(Answer::GoneAlready)) => true,
        _ => false,
    }
}

pub(crate) fn gives(ask: &Option<Ask>, number: u8) -> bool {
    match ask {
        Some(Ask::Done(Answer::Part { octets, whole })) => {
            octets.as_slice() == [number].as_slice() && *whole == 1
        }
        _ => false,
    }
}
