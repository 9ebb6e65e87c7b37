// A fetch of node 1 from others. Node 3 tells that the message is gone.
use crate::tests::cluster::{Act, goes};
use node_tickets::MishapKind;
use std::test::Fail;

const ANSWERED: [Act; 6] = [
    Act::Fetches(0b110),
    Act::Waits(2, 0, 1),
    Act::Hears(0),
    Act::Hears(0),
    Act::Gives(2),
    Act::IsNone(2),
];

const AT_HOME: [Act; 3] = [Act::FetchesAtHome, Act::Fly(0), Act::Gives(1)];

// The first holder is down: the next is asked.
const FIRST_DOWN: [Act; 6] = [
    Act::Fetches(0b110),
    Act::Loses(0, MishapKind::Down),
    Act::Waits(2, 0, 1),
    Act::Hears(0),
    Act::Hears(0),
    Act::IsGone,
];

// So is the last.
const ALL_DOWN: [Act; 6] = [
    Act::Fetches(0b110),
    Act::Loses(0, MishapKind::Down),
    Act::Loses(0, MishapKind::Down),
    Act::Fly(0),
    Act::Failed(2, 0, 2),
    Act::IsNone(2),
];

#[test]
fn holders_are_asked_in_turn(rt: HostRuntime) -> Result<(), Fail> {
    assert_eq!(rt; goes(rt.alloc(), &ANSWERED)?, ANSWERED.len());
    assert_eq!(rt; goes(rt.alloc(), &AT_HOME)?, AT_HOME.len());
    assert_eq!(rt; goes(rt.alloc(), &FIRST_DOWN)?, FIRST_DOWN.len());
    assert_eq!(rt; goes(rt.alloc(), &ALL_DOWN)?, ALL_DOWN.len());
    Ok(())
}

// A holder that was given up tells all the same: its part counts, since it is the first, and that of the next does not.
const LATE: [Act; 7] = [
    Act::Fetches(0b110),
    Act::Repeats(0),
    Act::Loses(0, MishapKind::Down),
    Act::Hears(0),
    Act::Hears(0),
    Act::Hears(0),
    Act::Gives(2),
];

// A part counts after nobody was left, too.
const NOBODY_LEFT: [Act; 5] = [
    Act::Fetches(0b010),
    Act::Repeats(0),
    Act::Loses(0, MishapKind::Down),
    Act::Hears(0),
    Act::Gives(2),
];

// A mishap of a holder that is not asked any more asks nobody.
const PASSED: [Act; 7] = [
    Act::Fetches(0b110),
    Act::Repeats(0),
    Act::Loses(0, MishapKind::Down),
    Act::Loses(0, MishapKind::Dropped),
    Act::Fly(1),
    Act::Loses(0, MishapKind::Down),
    Act::Failed(2, 1, 2),
];

// A fetch that is given up sends nothing, and its part comes to no ticket. A login beside it goes on.
const GIVEN_UP: [Act; 8] = [
    Act::LogsIn(2),
    Act::Fetches(0b010),
    Act::GivesUp(2),
    Act::Fly(2),
    Act::Hears(1),
    Act::Hears(1),
    Act::IsNone(2),
    Act::Waits(1, 0, 1),
];

#[test]
fn the_first_part_counts(rt: HostRuntime) -> Result<(), Fail> {
    assert_eq!(rt; goes(rt.alloc(), &LATE)?, LATE.len());
    assert_eq!(rt; goes(rt.alloc(), &NOBODY_LEFT)?, NOBODY_LEFT.len());
    assert_eq!(rt; goes(rt.alloc(), &PASSED)?, PASSED.len());
    assert_eq!(rt; goes(rt.alloc(), &GIVEN_UP)?, GIVEN_UP.len());
    Ok(())
}
