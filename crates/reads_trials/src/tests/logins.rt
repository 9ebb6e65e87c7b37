// A login of node 1, whose manager and holders are others.
use crate::tests::cluster::{Act, goes};
use node_tickets::MishapKind;
use std::test::Fail;

// Each letter once. The last list is heard before the first.
const ONCE: [Act; 15] = [
    Act::LogsIn(2),
    Act::Fly(1),
    Act::Waits(1, 0, 1),
    Act::Hears(0),
    Act::Waits(1, 0, 1),
    Act::Hears(0),
    // the lists of nodes 2 and 3 are asked for, and the own one is told
    Act::Fly(2),
    Act::Waits(1, 1, 3),
    Act::Hears(1),
    Act::Hears(0),
    Act::Hears(0),
    Act::Waits(1, 2, 3),
    Act::Hears(0),
    Act::ListsAll(2),
    Act::IsNone(1),
];

// Each letter twice: the second changes nothing.
const TWICE: [Act; 19] = [
    Act::LogsIn(2),
    Act::Repeats(0),
    Act::Hears(0),
    // two words: the second asks nobody
    Act::Repeats(0),
    Act::Hears(0),
    Act::Hears(0),
    Act::Fly(2),
    Act::Repeats(0),
    Act::Hears(0),
    // two lists of node 2, of which one is heard twice
    Act::Repeats(1),
    Act::Waits(1, 2, 3),
    Act::Hears(1),
    Act::Hears(1),
    Act::Waits(1, 2, 3),
    Act::Hears(0),
    Act::Repeats(0),
    Act::ListsAll(2),
    Act::Hears(0),
    Act::IsNone(1),
];

// The user's manager is node 1.
const AT_HOME: [Act; 9] = [
    Act::LogsInAtHome,
    Act::Fly(2),
    Act::Waits(1, 1, 3),
    Act::Hears(0),
    Act::Hears(0),
    Act::Hears(0),
    Act::Hears(0),
    Act::ListsAll(1),
    Act::Fly(0),
];

#[test]
fn what_nodes_told_is_joined(rt: HostRuntime) -> Result<(), Fail> {
    assert_eq!(rt; goes(rt.alloc(), &ONCE)?, ONCE.len());
    assert_eq!(rt; goes(rt.alloc(), &TWICE)?, TWICE.len());
    assert_eq!(rt; goes(rt.alloc(), &AT_HOME)?, AT_HOME.len());
    Ok(())
}

// Exactly the nodes that were named are asked, and counted.
const NAMED: [Act; 12] = [
    Act::Names(0b110),
    Act::LogsIn(2),
    // a word of a node that is not asked
    Act::IsNamedBy(3),
    Act::Fly(1),
    Act::Hears(0),
    Act::Hears(0),
    Act::Waits(1, 0, 2),
    // a list of a node that was not named, and two lists for other calls
    Act::IsTold(1, 1),
    Act::IsTold(2, 7),
    Act::Fetches(0b010),
    Act::IsTold(2, 2),
    Act::Waits(1, 0, 2),
];

const NAMED_ALONE: [Act; 8] = [
    Act::Names(0b110),
    Act::LogsIn(2),
    Act::Hears(0),
    Act::Hears(0),
    Act::IsTold(3, 1),
    Act::IsTold(2, 1),
    Act::ListsOthers,
    Act::IsNone(1),
];

const NOBODY_NAMED: [Act; 6] = [
    Act::Names(0),
    Act::LogsIn(2),
    Act::Hears(0),
    Act::Hears(0),
    Act::Fly(0),
    Act::ListsNothing,
];

const WRONG: [Act; 6] = [
    Act::GuessesAt(2),
    Act::Hears(0),
    Act::Hears(0),
    Act::Fly(0),
    Act::IsWrong,
    Act::IsNone(1),
];

#[test]
fn the_named_nodes_are_asked(rt: HostRuntime) -> Result<(), Fail> {
    assert_eq!(rt; goes(rt.alloc(), &NAMED)?, NAMED.len());
    assert_eq!(rt; goes(rt.alloc(), &NAMED_ALONE)?, NAMED_ALONE.len());
    assert_eq!(rt; goes(rt.alloc(), &NOBODY_NAMED)?, NOBODY_NAMED.len());
    assert_eq!(rt; goes(rt.alloc(), &WRONG)?, WRONG.len());
    Ok(())
}

const NO_QUESTION: [Act; 6] = [
    Act::LogsIn(2),
    Act::Loses(0, MishapKind::Dropped),
    Act::Fly(1),
    Act::Unlock(1),
    Act::Failed(1, 1, 0),
    Act::IsNone(1),
];

const NO_WORD: [Act; 6] = [
    Act::LogsIn(2),
    Act::Hears(0),
    Act::Loses(0, MishapKind::Dropped),
    Act::Fly(1),
    Act::Unlock(1),
    Act::Failed(1, 1, 0),
];

// Both questions for lists are lost: the lock is given back once.
const NO_LIST_ASKED: [Act; 9] = [
    Act::LogsIn(2),
    Act::Hears(0),
    Act::Hears(0),
    Act::Loses(0, MishapKind::Dropped),
    Act::Unlock(1),
    Act::Loses(0, MishapKind::Dropped),
    Act::Fly(1),
    Act::Unlock(1),
    Act::Failed(1, 2, 0),
];

// A list is lost, and the other comes after the login has failed.
const NO_LIST: [Act; 10] = [
    Act::LogsIn(2),
    Act::Hears(0),
    Act::Hears(0),
    Act::Hears(0),
    Act::Hears(0),
    Act::Loses(1, MishapKind::Dropped),
    Act::Hears(0),
    Act::Fly(1),
    Act::Unlock(1),
    Act::Failed(1, 1, 0),
];

// A question to a node that has told is lost: nothing waits for it.
const TOLD_BEFORE: [Act; 10] = [
    Act::LogsIn(2),
    Act::Hears(0),
    Act::Hears(0),
    Act::Repeats(0),
    Act::Hears(2),
    Act::Loses(0, MishapKind::Dropped),
    Act::Waits(1, 2, 3),
    Act::Hears(0),
    Act::Hears(0),
    Act::ListsAll(2),
];

#[test]
fn each_letter_is_lost(rt: HostRuntime) -> Result<(), Fail> {
    assert_eq!(rt; goes(rt.alloc(), &NO_QUESTION)?, NO_QUESTION.len());
    assert_eq!(rt; goes(rt.alloc(), &NO_WORD)?, NO_WORD.len());
    assert_eq!(rt; goes(rt.alloc(), &NO_LIST_ASKED)?, NO_LIST_ASKED.len());
    assert_eq!(rt; goes(rt.alloc(), &NO_LIST)?, NO_LIST.len());
    assert_eq!(rt; goes(rt.alloc(), &TOLD_BEFORE)?, TOLD_BEFORE.len());
    Ok(())
}

// The manager is down before it is asked; its lock is sent back, and that letter is lost, too.
const DOWN_AT_FIRST: [Act; 6] = [
    Act::LogsIn(2),
    Act::Loses(0, MishapKind::Down),
    Act::Unlock(1),
    Act::Loses(0, MishapKind::Down),
    Act::Fly(0),
    Act::Failed(1, 0, 1),
];

// It was named as a holder, and is down before it is asked for its list.
const DOWN_UNASKED: [Act; 8] = [
    Act::LogsIn(2),
    Act::Hears(0),
    Act::Hears(0),
    Act::Loses(0, MishapKind::Down),
    Act::Unlock(1),
    Act::Hears(0),
    Act::Hears(1),
    Act::Failed(1, 0, 1),
];

// Its list was sent, and is lost.
const DOWN_UNHEARD: [Act; 8] = [
    Act::LogsIn(2),
    Act::Hears(0),
    Act::Hears(0),
    Act::Hears(0),
    Act::Hears(0),
    Act::Loses(0, MishapKind::Down),
    Act::Unlock(1),
    Act::Failed(1, 0, 1),
];

// Its list was heard: nothing waits for it any more.
const DOWN_AT_LAST: [Act; 9] = [
    Act::LogsIn(2),
    Act::Hears(0),
    Act::Repeats(0),
    Act::Hears(1),
    Act::Hears(2),
    Act::Loses(0, MishapKind::Down),
    Act::Hears(0),
    Act::Hears(0),
    Act::ListsAll(2),
];

#[test]
fn the_manager_is_down(rt: HostRuntime) -> Result<(), Fail> {
    assert_eq!(rt; goes(rt.alloc(), &DOWN_AT_FIRST)?, DOWN_AT_FIRST.len());
    assert_eq!(rt; goes(rt.alloc(), &DOWN_UNASKED)?, DOWN_UNASKED.len());
    assert_eq!(rt; goes(rt.alloc(), &DOWN_UNHEARD)?, DOWN_UNHEARD.len());
    assert_eq!(rt; goes(rt.alloc(), &DOWN_AT_LAST)?, DOWN_AT_LAST.len());
    Ok(())
}

// A login is given up while its manager is asked. The word comes late, and asks nobody.
const GIVEN_UP: [Act; 9] = [
    Act::LogsIn(2),
    Act::GivesUp(1),
    Act::Unlock(1),
    Act::IsNone(1),
    Act::Hears(0),
    Act::Hears(1),
    Act::GivesUp(1),
    Act::Fly(1),
    Act::Unlock(1),
];

const GIVEN_UP_LATER: [Act; 7] = [
    Act::LogsIn(2),
    Act::Hears(0),
    Act::Hears(0),
    Act::Hears(0),
    Act::GivesUp(1),
    Act::Unlock(1),
    Act::IsNone(1),
];

// A login that has failed gave the lock back already.
const FAILED_BEFORE: [Act; 5] = [
    Act::LogsIn(2),
    Act::Loses(0, MishapKind::Down),
    Act::GivesUp(1),
    Act::Unlock(1),
    Act::IsNone(1),
];

// One that was not let in has no lock, nor has one of a user whom node 1 manages itself by a letter.
const NO_LOCK: [Act; 9] = [
    Act::GuessesAt(2),
    Act::Hears(0),
    Act::Hears(0),
    Act::GivesUp(1),
    Act::Fly(0),
    Act::LogsInAtHome,
    Act::Loses(0, MishapKind::Down),
    Act::Unlock(0),
    Act::Failed(1, 0, 1),
];

#[test]
fn a_lock_is_given_back_once(rt: HostRuntime) -> Result<(), Fail> {
    assert_eq!(rt; goes(rt.alloc(), &GIVEN_UP)?, GIVEN_UP.len());
    assert_eq!(rt; goes(rt.alloc(), &GIVEN_UP_LATER)?, GIVEN_UP_LATER.len());
    assert_eq!(rt; goes(rt.alloc(), &FAILED_BEFORE)?, FAILED_BEFORE.len());
    assert_eq!(rt; goes(rt.alloc(), &NO_LOCK)?, NO_LOCK.len());
    Ok(())
}
