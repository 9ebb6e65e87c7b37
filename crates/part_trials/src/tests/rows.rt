// Rows as they are told, and what installs keep of them.
use mail_base::{EpochId, MapRow, Member, Name, NodeNo, NodeSet, Row, Secret, Stamp, UserMap};
use mail_map::MailMap;
use std::alloc::Global;
use std::test::Fail;

fn alice(alloc: Global) -> Option<Name> {
    match Name::read(alloc, b"alice") {
        Ok(name) => Some(name),
        Err(_) => None,
    }
}

fn row_of(alloc: Global, node: u8, boot: u32, version: u64, full: bool) -> Option<Row> {
    Some(Row {
        user: alice(alloc)?,
        node: NodeNo::new(node)?,
        boot,
        version,
        full,
        profile: None,
    })
}

// Tells the row; nothing where that fails.
fn told(
    alloc: Global,
    map: &mut MailMap,
    node: u8,
    boot: u32,
    version: u64,
    full: bool,
) -> Option<bool> {
    let row = row_of(alloc, node, boot, version, full)?;
    match map.tell(&row) {
        Ok(taken) => Some(taken),
        Err(_) => None,
    }
}

// A member that comes from the first epoch of node 1.
fn member(node: u8, boot: u32) -> Option<Member> {
    Some(Member::new(NodeNo::new(node)?, boot, EpochId::new(4, 1)))
}

fn names_two(alloc: Global, map: &MailMap) -> Option<bool> {
    let members = [member(2, 1)?];
    Some(map.named(&alice(alloc)?, &members).has(NodeNo::new(2)?))
}

// Each digit tells a row of version 1, full; 2, empty; 3, full; or 3 again, empty. Then `+` says that the row that stands is
// full, and `-` that it is empty; and all begins anew.
fn agrees(alloc: Global, table: &[u8]) -> Option<bool> {
    let mut map = MailMap::new(alloc);
    for x in table {
        match *x {
            b'1' => {
                told(alloc, &mut map, 2, 1, 1, true)?;
            }
            b'2' => {
                told(alloc, &mut map, 2, 1, 2, false)?;
            }
            b'3' => {
                told(alloc, &mut map, 2, 1, 3, true)?;
            }
            b'4' => {
                told(alloc, &mut map, 2, 1, 3, false)?;
            }
            sign => {
                if names_two(alloc, &map)? != (sign == b'+') {
                    return Some(false);
                }
                map = MailMap::new(alloc);
            }
        }
    }
    Some(true)
}

#[test]
fn the_latest_row_stands_in_any_order(rt: HostRuntime) -> Result<(), Fail> {
    let table =
        b"1234-1243+1324-1342-1423+1432+2134-2143+2314-2341-2413+2431+3124-3142-3214-3241-3412-3421-4123+4132+4213+4231+4312+4321+";
    assert!(rt; agrees(rt.alloc(), table) == Some(true));
    let mut map = MailMap::new(rt.alloc());
    assert!(rt; told(rt.alloc(), &mut map, 2, 1, 3, true) == Some(true));
    assert!(rt; told(rt.alloc(), &mut map, 2, 1, 2, false) == Some(false));
    assert!(rt; told(rt.alloc(), &mut map, 2, 2, 1, false) == Some(true));
    assert!(rt; names_two(rt.alloc(), &map) == Some(true));
    Ok(())
}

// A map of one bucket, which this node manages.
fn map_of(alloc: Global, manager: u8) -> Option<UserMap> {
    let mut rows = Vec::new(alloc);
    match rows.push(MapRow::new(NodeNo::new(manager)?, EpochId::new(4, 1))) {
        Ok(()) => Some(UserMap::from_rows(rows)),
        Err(_) => None,
    }
}

// Who is named once node 1 has installed a map, where nodes 2, 3 and 4 told full rows in boot 1. Of the members node 3 has
// begun another boot, and node 4 comes from another epoch.
fn named_after(alloc: Global, old: &UserMap, new: &UserMap) -> Option<NodeSet> {
    let mut map = MailMap::new(alloc);
    told(alloc, &mut map, 2, 1, 1, true)?;
    told(alloc, &mut map, 3, 1, 1, true)?;
    told(alloc, &mut map, 4, 1, 1, true)?;
    let stranger = Member::new(NodeNo::new(4)?, 1, EpochId::new(3, 1));
    let members = [member(1, 1)?, member(2, 1)?, member(3, 2)?, stranger];
    map.install(
        NodeNo::new(1)?,
        Some(old),
        new,
        EpochId::new(4, 1),
        &members,
    );
    let all = [member(1, 1)?, member(2, 1)?, member(3, 1)?, member(4, 1)?];
    Some(map.named(&alice(alloc)?, &all))
}

#[test]
fn installs_keep_rows_of_the_same_boot_and_epoch(rt: HostRuntime) -> Result<(), Fail> {
    let (Some(mine), Some(other)) = (map_of(rt.alloc(), 1), map_of(rt.alloc(), 2)) else {
        panic!(rt; "out of memory");
    };
    let Some(kept) = named_after(rt.alloc(), &mine, &mine) else {
        panic!(rt; "out of memory");
    };
    assert!(rt; kept.mask() == 2);
    let Some(left) = named_after(rt.alloc(), &mine, &other) else {
        panic!(rt; "out of memory");
    };
    assert!(rt; left.mask() == 0);
    let Some(come) = named_after(rt.alloc(), &other, &mine) else {
        panic!(rt; "out of memory");
    };
    assert!(rt; come.mask() == 0);
    Ok(())
}

fn with_profile(alloc: Global, node: u8, count: u64, octets: &[u8]) -> Option<Row> {
    let Ok(Some(secret)) = Secret::read(alloc, octets) else {
        return None;
    };
    Some(Row {
        user: alice(alloc)?,
        node: NodeNo::new(node)?,
        boot: 1,
        version: 1,
        full: false,
        profile: Some((Stamp::new(count, 1, 1), secret)),
    })
}

#[test]
fn the_greatest_profile_is_found(rt: HostRuntime) -> Result<(), Fail> {
    let Some(user) = alice(rt.alloc()) else {
        panic!(rt; "no name");
    };
    let mut map = MailMap::new(rt.alloc());
    assert!(rt; map.profile(&user).is_none());
    let (Some(first), Some(second), Some(third)) = (
        with_profile(rt.alloc(), 1, 5, b"oak"),
        with_profile(rt.alloc(), 2, 7, b"elm"),
        with_profile(rt.alloc(), 3, 7, b"ash"),
    ) else {
        panic!(rt; "out of memory");
    };
    assert!(rt; map.tell(&first) == Ok(true));
    assert!(rt; map.tell(&second) == Ok(true));
    assert!(rt; map.tell(&third) == Ok(true));
    let Some((stamp, secret)) = map.profile(&user) else {
        panic!(rt; "no profile");
    };
    assert!(rt; stamp == Stamp::new(7, 1, 1));
    assert!(rt; secret.octets() == b"elm".as_slice());
    Ok(())
}
