// Versions and marks, as rows change, are reported and are marked anew at installs.
use mail_base::{EpochId, MapRow, Name, Names, NodeNo, UserMap};
use map_rebuild::Reports;
use std::alloc::Global;
use std::test::Fail;

// A map of one bucket, which this node manages.
fn map_of(alloc: Global, manager: NodeNo) -> Option<UserMap> {
    let mut rows = Vec::new(alloc);
    let Ok(()) = rows.push(MapRow::new(manager, EpochId::new(1, 1))) else {
        return None;
    };
    Some(UserMap::from_rows(rows))
}

// Whether just these two are named, in this order.
fn are_two(names: &Names, first: &Name, second: &Name) -> bool {
    match names.as_slice() {
        [a, b] => *a == *first && *b == *second,
        _ => false,
    }
}

fn two_names(alloc: Global, first: &Name, second: &Name) -> Option<Names> {
    let mut names = Names::new(alloc);
    let (Ok(first), Ok(second)) = (first.copy(), second.copy()) else {
        return None;
    };
    let (Ok(()), Ok(())) = (names.push(first), names.push(second)) else {
        return None;
    };
    Some(names)
}

#[test]
fn a_round_clears_a_mark(rt: HostRuntime) -> Result<(), Fail> {
    let (Ok(ann), Ok(bob)) = (
        Name::read(rt.alloc(), b"ann"),
        Name::read(rt.alloc(), b"bob"),
    ) else {
        panic!(rt; "no names");
    };
    let (Some(one), Some(two)) = (NodeNo::new(1), NodeNo::new(2)) else {
        panic!(rt; "no nodes");
    };
    let Some(map) = map_of(rt.alloc(), two) else {
        panic!(rt; "out of memory");
    };
    let mut reports = Reports::new(rt.alloc());
    assert!(rt; reports.is_clear());
    assert!(rt; !reports.is_due(&map, two));
    assert!(rt; reports.mark_user(&bob) == Ok(1));
    assert!(rt; reports.mark_user(&ann) == Ok(1));
    assert!(rt; reports.mark_user(&bob) == Ok(2));
    assert!(rt; reports.version(&bob) == 2);
    let Ok(due) = reports.due(&map, two, 5) else {
        panic!(rt; "out of memory");
    };
    assert!(rt; are_two(&due, &ann, &bob));
    let Ok(first) = reports.due(&map, two, 1) else {
        panic!(rt; "out of memory");
    };
    assert!(rt; first.len() == 1);
    let Ok(none) = reports.due(&map, one, 5) else {
        panic!(rt; "out of memory");
    };
    assert!(rt; none.is_empty());
    assert!(rt; reports.is_due(&map, two));
    assert!(rt; !reports.is_due(&map, one));
    assert!(rt; !reports.report_acknowledged(&bob, 1));
    assert!(rt; reports.report_acknowledged(&bob, 2));
    assert!(rt; !reports.report_acknowledged(&bob, 2));
    assert!(rt; reports.is_due(&map, two));
    reports.told(&ann);
    assert!(rt; !reports.is_due(&map, two));
    assert!(rt; reports.is_clear());
    assert!(rt; reports.version(&ann) == 1);
    Ok(())
}

// Two users, their manager, and a map that says so.
#[derive(Drop)]
struct Town {
    ann: Name,
    bob: Name,
    both: Names,
    map: UserMap,
    manager: NodeNo,
}

fn make_town(alloc: Global) -> Option<Town> {
    let (Ok(ann), Ok(bob)) = (Name::read(alloc, b"ann"), Name::read(alloc, b"bob")) else {
        return None;
    };
    let both = two_names(alloc, &ann, &bob)?;
    let manager = NodeNo::new(2)?;
    let map = map_of(alloc, manager)?;
    Some(Town {
        ann,
        bob,
        both,
        map,
        manager,
    })
}

fn change(reports: &mut Reports, user: &Name) -> Option<()> {
    if reports.version(user) > 8 {
        return None;
    }
    match reports.mark_user(user) {
        Ok(_) => Some(()),
        Err(_) => None,
    }
}

fn mark(reports: &mut Reports, users: &[Name], count: u64) -> Option<()> {
    match reports.mark_bucket(users, EpochId::new(count, 1)) {
        Ok(()) => Some(()),
        Err(_) => None,
    }
}

// Acknowledges the user's row as it is.
fn acknowledge(reports: &mut Reports, user: &Name) {
    let version = reports.version(user);
    reports.report_acknowledged(user, version);
}

// A small letter changes the user's row, a capital acknowledges it, and `t` tells that of ann. A digit is an install: 4 and 5
// mark both users for the epoch of that count, and 6 marks nobody.
fn play(alloc: Global, reports: &mut Reports, town: &Town, letter: u8) -> Option<()> {
    match letter {
        b'a' => change(reports, &town.ann)?,
        b'b' => change(reports, &town.bob)?,
        b'A' => acknowledge(reports, &town.ann),
        b'B' => acknowledge(reports, &town.bob),
        b't' => reports.told(&town.ann),
        b'4' => mark(reports, town.both.as_slice(), 4)?,
        b'5' => mark(reports, town.both.as_slice(), 5)?,
        _ => mark(reports, Names::new(alloc).as_slice(), 6)?,
    }
    Some(())
}

fn digit(number: u64) -> u8 {
    match number {
        0 => b'0',
        1 => b'1',
        2 => b'2',
        _ => b'+',
    }
}

// Which of both users are marked, 0 to 3, then the versions of ann and bob, and how many marks the last install made.
fn state(reports: &Reports, town: &Town) -> Option<[u8; 4]> {
    let Ok(due) = reports.due(&town.map, town.manager, 2) else {
        return None;
    };
    let marks = match due.as_slice() {
        [] => b'0',
        [one] => { if *one == town.ann { b'1' } else { b'2' } }
        _ => b'3',
    };
    let ann = digit(reports.version(&town.ann));
    let bob = digit(reports.version(&town.bob));
    Some([marks, ann, bob, digit(reports.marked_at_install())])
}

// Whether these letters lead to this state.
fn leads(alloc: Global, letters: &[u8], wanted: [u8; 4]) -> Option<bool> {
    let town = make_town(alloc)?;
    let mut reports = Reports::new(alloc);
    for letter in letters {
        play(alloc, &mut reports, &town, *letter)?;
    }
    Some(state(&reports, &town)? == wanted)
}

#[test]
fn two_installs_mark(rt: HostRuntime) -> Result<(), Fail> {
    let alloc = rt.alloc();
    // the first install marks whom no change had marked, and raises no version
    assert!(rt; leads(alloc, b"b4", *b"3011") == Some(true));
    // a second call of the same install counts on
    assert!(rt; leads(alloc, b"b4A4", *b"3012") == Some(true));
    // the second install counts anew, and marks only those who were cleared
    assert!(rt; leads(alloc, b"4B5", *b"3001") == Some(true));
    assert!(rt; leads(alloc, b"4AB5", *b"3002") == Some(true));
    assert!(rt; leads(alloc, b"45", *b"3000") == Some(true));
    // marks stay where it marks nobody
    assert!(rt; leads(alloc, b"4A6", *b"2000") == Some(true));
    // versions go on through both installs, and whoever is told is not marked
    assert!(rt; leads(alloc, b"a4Ba5t", *b"2201") == Some(true));
    Ok(())
}
