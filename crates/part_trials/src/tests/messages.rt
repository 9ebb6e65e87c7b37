// Messages that are filed and fetched, over a disk in memory.
use disk_journal::{Journal, Place};
use io_edge::PlainDisk;
use mail_base::{MsgId, NodeNo};
use message_store::{MessageStore, StoreFault};
use std::test::Fail;

// The id 1.1.N.
fn id_of(seq: u64) -> Option<MsgId> {
    MsgId::new(NodeNo::new(1)?, 1, seq)
}

#[test]
fn files_and_fetches(rt: HostRuntime) -> Result<(), Fail> {
    let (Some(node), Some(first), Some(second)) = (NodeNo::new(1), id_of(1), id_of(2)) else {
        panic!(rt; "no ids");
    };
    let mut disk = PlainDisk::new(rt.alloc());
    let Ok(mut journal) = Journal::create(rt.alloc(), &mut disk, node) else {
        panic!(rt; "no journal");
    };
    let mut store = MessageStore::new(rt.alloc());
    assert!(rt;
        store
            .file(rt.alloc(), &mut journal, &mut disk, first, b"hello")
            .is_ok()
    );
    assert!(rt; journal.gate() == 40);
    assert!(rt;
        store
            .file(rt.alloc(), &mut journal, &mut disk, first, b"other")
            .is_ok()
    );
    assert!(rt;
        journal.gate() == 40 && store.length(first) == Some(5) && store.length(second).is_none()
    );
    let mut into = [0; 4];
    for (from, count, octets) in [
        (0, 4, b"hell"),
        (3, 2, b"loll"),
        (5, 0, b"loll"),
        (9, 0, b"loll"),
    ] {
        assert!(rt; store.fetch(&journal, &mut disk, first, from, &mut into) == Ok(count));
        assert!(rt; into == *octets, "from {from}");
    }
    assert!(rt; store.fetch(&journal, &mut disk, second, 0, &mut into) == Err(StoreFault::NotHere));
    Ok(())
}

#[test]
fn finds_what_was_filed_before(rt: HostRuntime) -> Result<(), Fail> {
    let (Some(node), Some(first), Some(second)) = (NodeNo::new(1), id_of(1), id_of(2)) else {
        panic!(rt; "no ids");
    };
    let mut disk = PlainDisk::new(rt.alloc());
    let Ok(mut journal) = Journal::create(rt.alloc(), &mut disk, node) else {
        panic!(rt; "no journal");
    };
    let mut before = MessageStore::new(rt.alloc());
    assert!(rt;
        before
            .file(rt.alloc(), &mut journal, &mut disk, first, b"hello")
            .is_ok()
    );
    let mut store = MessageStore::new(rt.alloc());
    store.found(first, Place { at: 21, length: 19 })?;
    store.found(first, Place { at: 22, length: 18 })?;
    store.found(second, Place { at: 21, length: 19 })?;
    let mut into = [0; 5];
    assert!(rt;
        store.fetch(&journal, &mut disk, first, 0, &mut into) == Ok(5) && into == *b"hello"
    );
    assert!(rt;
        store.fetch(&journal, &mut disk, second, 0, &mut into) == Err(StoreFault::NotAJournal)
    );
    Ok(())
}
