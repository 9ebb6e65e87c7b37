// A store over a disk in memory: what each call records and tells.

use io_edge::PlainDisk;
use mail_base::{EpochId, Key, MsgId, Name, NodeNo, NodeSet, ObjState, Stamp, StrikeMark, Value};
use node_store::NodeStore;
use std::test::Fail;
use update_log::Acked;

#[test]
fn records_and_tells(rt: HostRuntime) -> Result<(), Fail> {
    let alloc = rt.alloc();
    let (Some(one), Some(two)) = (NodeNo::new(1), NodeNo::new(2)) else {
        panic!(rt; "no nodes");
    };
    let (Some(id), Some(ann)) = (MsgId::new(one, 1, 1), Name::spelt(alloc, b"ann")?) else {
        panic!(rt; "no id");
    };
    let both = NodeSet::from_mask(3);
    let stamp = Stamp::new(1, 1, 1);
    let mut disk = PlainDisk::new(alloc);
    let Ok(mut store) = NodeStore::create(alloc, &mut disk, one) else {
        panic!(rt; "no store");
    };
    let Ok(()) = store.boot(alloc, &mut disk, 1) else {
        panic!(rt; "no boot");
    };
    let users = [ann];
    let Ok(()) = store.store_octets(alloc, &mut disk, id, &users, b"hello") else {
        panic!(rt; "no octets");
    };
    let Ok(()) = store.take_here(alloc, &mut disk, id, stamp, both, &users) else {
        panic!(rt; "no copy");
    };
    // A header of 16 octets, a boot of 5, octets of 19 and a state of 35, each after a gate and a length, and a gate.
    assert!(rt; disk.octets.len() == 91);
    assert!(rt; store.length(id) == Some(5) && store.owes(two) && !store.owes(one));
    assert!(rt; store.due(alloc, two, 9)?.len() == 1);
    let mut into = [0; 5];
    assert!(rt; store.fetch(&mut disk, id, 0, &mut into) == Ok(5) && into == *b"hello");
    let key = Key::Message(users[0].copy()?, id);
    let here = ObjState::new(Value::Here, stamp, both);
    assert!(rt; store.acknowledged(alloc, &mut disk, &key, &here, two) == Ok(Acked::Emptied));
    assert!(rt; disk.octets.len() == 131 && !store.owes(two));
    Ok(())
}

#[test]
fn records_promises(rt: HostRuntime) -> Result<(), Fail> {
    let alloc = rt.alloc();
    let (Some(one), Some(ann)) = (NodeNo::new(1), Name::spelt(alloc, b"ann")?) else {
        panic!(rt; "no node");
    };
    let mut disk = PlainDisk::new(alloc);
    let Ok(mut store) = NodeStore::create(alloc, &mut disk, one) else {
        panic!(rt; "no store");
    };
    assert!(rt; store.users(alloc)?.is_empty());
    // The kind, eight octets of the count and one of the node, after a gate and a length.
    let epoch = EpochId::new(7, one.number());
    let Ok(()) = store.promise(alloc, &mut disk, epoch) else {
        panic!(rt; "no promise");
    };
    assert!(rt; disk.octets.len() == 32);
    assert_eq!(rt;
        &disk.octets[17..31],
        b"\x00\x00\x00\x0A\x02\x00\x00\x00\x00\x00\x00\x00\x07\x01".as_slice()
    );
    let gone = [StrikeMark::new(MsgId::new(one, 1, 1).unwrap(), Stamp::new(2, 1, 1))];
    let Ok(()) = store.take_gone(alloc, &mut disk, &ann, NodeSet::from_mask(1), &gone) else {
        panic!(rt; "no deletion");
    };
    let users = store.users(alloc)?;
    assert!(rt; users.len() == 1);
    Ok(())
}

#[test]
fn takes_deletions(rt: HostRuntime) -> Result<(), Fail> {
    let alloc = rt.alloc();
    let (Some(one), Some(two)) = (NodeNo::new(1), NodeNo::new(2)) else {
        panic!(rt; "no nodes");
    };
    let (Some(id), Some(ann)) = (MsgId::new(one, 1, 1), Name::spelt(alloc, b"ann")?) else {
        panic!(rt; "no id");
    };
    let mut disk = PlainDisk::new(alloc);
    let Ok(mut store) = NodeStore::create(alloc, &mut disk, one) else {
        panic!(rt; "no store");
    };
    let gone = [StrikeMark::new(id, Stamp::new(2, 1, 1))];
    let Ok(()) = store.take_gone(alloc, &mut disk, &ann, NodeSet::from_mask(1), &gone) else {
        panic!(rt; "no deletion");
    };
    // The state and that it is retired, since no other node is a target.
    assert!(rt; disk.octets.len() == 97 && !store.owes(two));
    let users = [ann];
    assert!(rt;
        store
            .store_octets(alloc, &mut disk, id, &users, b"hello")
            .is_ok()
    );
    assert!(rt; disk.octets.len() == 97 && store.length(id).is_none());
    Ok(())
}
