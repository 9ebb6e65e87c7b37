// What is due, who has acknowledged what, and each public call once.
use mail_base::{Key, Name, NodeNo, NodeSet, ObjState, Stamp, Value};
use std::alloc::Global;
use std::test::Fail;
use update_log::{Acked, UpdateLog};

/// The key of this user's profile. The log asks nothing of a state's kind.
fn key(alloc: Global, user: &str) -> Result<Key, Fail> {
    match Name::spelt(alloc, user.as_bytes())? {
        Some(name) => Ok(Key::Profile(name)),
        None => Err(Fail::new("no name")),
    }
}

/// A state of this count for these targets.
fn state(count: u64, targets: u16) -> ObjState {
    ObjState::new(
        Value::Gone,
        Stamp::new(count, 1, 1),
        NodeSet::from_mask(targets),
    )
}

/// The log of node 1: of `ann` nodes 2 and 3 remain, of `bob` node 3, of `cid` node 2 and of `dan` nodes 2 and 3.
fn log_of_four(alloc: Global, own: NodeNo) -> Result<UpdateLog, Fail> {
    let mut log = UpdateLog::new(alloc);
    for (user, targets) in [
        ("dan", 0b111),
        ("bob", 0b101),
        ("cid", 0b011),
        ("ann", 0b110),
    ] {
        log.note(&key(alloc, user)?, &state(1, targets), own)?;
    }
    Ok(log)
}

/// The users of these keys, each with a blank after it.
fn users_of(alloc: Global, keys: &[Key]) -> Result<Vec<u8>, Fail> {
    let mut users = Vec::new(alloc);
    for key in keys {
        users.extend_from_slice(key.user().octets())?;
        users.push(b' ')?;
    }
    Ok(users)
}

#[test]
fn the_first_that_are_due_are_given(rt: HostRuntime) -> Result<(), Fail> {
    let alloc = rt.alloc();
    let (Some(one), Some(two), Some(three), Some(four)) = (
        NodeNo::new(1),
        NodeNo::new(2),
        NodeNo::new(3),
        NodeNo::new(4),
    ) else {
        return Err(Fail::new("no node"));
    };
    let log = log_of_four(alloc, one)?;
    for (to, most, users) in [
        (one, 9, ""),
        (two, 9, "ann cid dan "),
        (two, 2, "ann cid "),
        (two, 0, ""),
        (three, 3, "ann bob dan "),
        (four, 1, ""),
    ] {
        let keys = log.due(alloc, to, most)?;
        assert!(rt;
            users_of(alloc, &keys)?.as_slice() == users.as_bytes(),
            "{users}"
        );
        assert_eq!(rt; log.owes(to), to == two || to == three);
    }
    Ok(())
}

#[test]
fn an_entry_goes_node_by_node(rt: HostRuntime) -> Result<(), Fail> {
    let alloc = rt.alloc();
    let (Some(one), Some(two), Some(three)) = (NodeNo::new(1), NodeNo::new(2), NodeNo::new(3))
    else {
        return Err(Fail::new("no node"));
    };
    let mut log = log_of_four(alloc, one)?;
    let ann = key(alloc, "ann")?;
    for (count, targets, by, wanted, left) in [
        // Another state, a node that is no target, both targets, and one of them once more.
        (2, 0b110, two, Acked::Other, 0b110),
        (1, 0b111, two, Acked::Other, 0b110),
        (1, 0b110, one, Acked::Other, 0b110),
        (1, 0b110, two, Acked::Cleared, 0b100),
        (1, 0b110, two, Acked::Other, 0b100),
        (1, 0b110, three, Acked::Emptied, 0),
    ] {
        assert_eq!(rt; log.acknowledged(&ann, &state(count, targets), by), wanted);
        let remaining = log.entry(&ann).map(|entry| entry.remaining);
        assert_eq!(rt; remaining, Some(NodeSet::from_mask(left)));
    }
    assert!(rt; !log.retire(&ann, &state(2, 0b110)));
    assert!(rt; log.retire(&ann, &state(1, 0b110)));
    assert!(rt; log.entry(&ann).is_none() && !log.retire(&ann, &state(1, 0b110)));
    Ok(())
}
