// Stores over journals that are there.
ghost use Rattle.std.specs.Prelude.{◌≡◌, ◌+◌, ◌≤◌, [], length, IfSome};
ghost use Rattle.disk_journal.specs.Journal.{largest};

use io_edge::{Disk, PlainDisk};
use mail_base::{EpochId, Key, MsgId, Name, NodeNo, NodeSet, ObjState, Stamp, Value};
use node_disk::MemoryDisk;
use node_store::{KeepFault, NodeStore, ReadFault};
use std::alloc::{AllocError, Global};
use std::test::Fail;
use update_log::Acked;

/// The header of the journal of node 1.
const HEADER: [u8; 16] = *b"PORCUPN1\x00\x01\x00\x00\x00\x00\x00\x00";

/// Octets that begin as the record of a state does.
const LONG: [u8; 300] = [4; 300];

/// The payload of a record that a letter stands for.
fn payload(letter: u8) -> &'static [u8]
    ensures { length result.now ≤ 300 }
{
    match letter {
        // Boots 3 and 2.
        b'B' => b"\x01\x00\x00\x00\x03",
        b'b' => b"\x01\x00\x00\x00\x02",
        // The promises of epoch 7 of node 2, and of epoch 8 of node 1.
        b'P' => b"\x02\x00\x00\x00\x00\x00\x00\x00\x07\x02",
        b'p' => b"\x02\x00\x00\x00\x00\x00\x00\x00\x08\x01",
        // The octets of message 1.3.5, and others of it.
        b'O' => b"\x03\x01\x00\x00\x00\x03\x00\x00\x00\x00\x00\x00\x00\x05hello",
        b'o' => b"\x03\x01\x00\x00\x00\x03\x00\x00\x00\x00\x00\x00\x00\x05others",
        // That ann's copy of it is here for nodes 1 and 2, and that all its targets have it.
        b'S' => {
            b"\x04\x02\x03ann\x01\x00\x00\x00\x03\x00\x00\x00\x00\x00\x00\x00\x05\
\x01\x00\x00\x00\x00\x00\x00\x00\x09\x00\x00\x00\x03\x01\x00\x03"
        }
        b'R' => {
            b"\x05\x02\x03ann\x01\x00\x00\x00\x03\x00\x00\x00\x00\x00\x00\x00\x05\
\x01\x00\x00\x00\x00\x00\x00\x00\x09\x00\x00\x00\x03\x01\x00\x03"
        }
        // The same of a copy that is here for node 1 alone.
        b's' => {
            b"\x04\x02\x03ann\x01\x00\x00\x00\x03\x00\x00\x00\x00\x00\x00\x00\x05\
\x01\x00\x00\x00\x00\x00\x00\x00\x09\x00\x00\x00\x03\x01\x00\x01"
        }
        b'r' => {
            b"\x05\x02\x03ann\x01\x00\x00\x00\x03\x00\x00\x00\x00\x00\x00\x00\x05\
\x01\x00\x00\x00\x00\x00\x00\x00\x09\x00\x00\x00\x03\x01\x00\x01"
        }
        // A boot 0, a payload that is too long for a state, and octets of no message.
        b'0' => b"\x01\x00\x00\x00\x00",
        b'L' => LONG.as_slice(),
        _ => b"\x03\x01\x00\x00\x00\x03",
    }
}

/// The octets of a journal of node 1 with these records, and a closed gate.
fn journal_of(alloc: Global, letters: &[u8]) -> Result<Vec<u8>, AllocError> {
    let mut octets = Vec::from_slice(alloc, &HEADER)?;
    for letter in letters {
        let payload = payload(*letter);
        octets.push(0xA5)?;
        octets.extend_from_slice(&(payload.len() as u32).to_be_bytes())?;
        octets.extend_from_slice(payload)?;
    }
    octets.push(0)?;
    Ok(octets)
}

/// What a start finds over these octets: the boot, the count, the number of its last boot, how many octets message 1.3.5
/// has, and whether anything is owed to node 2.
fn found(octets: Vec<u8>) -> Result<(u32, u64, u64, Option<u64>, bool), ReadFault> {
    let alloc = *octets.allocator();
    let mut disk = PlainDisk { octets };
    let (Some(one), Some(two)) = (NodeNo::new(1), NodeNo::new(2)) else {
        return Err(ReadFault::NoMemory);
    };
    let (store, found) = NodeStore::open(alloc, &mut disk, one)?;
    let length = match MsgId::new(one, 3, 5) {
        Some(id) => store.length(id),
        None => None,
    };
    Ok((
        found.boot(),
        found.count(),
        found.drawn(3),
        length,
        store.owes(two),
    ))
}

/// The last promise that a start finds over these octets.
fn promised(octets: Vec<u8>) -> Result<EpochId, ReadFault> {
    let alloc = *octets.allocator();
    let mut disk = PlainDisk { octets };
    let Some(one) = NodeNo::new(1) else {
        return Err(ReadFault::NoMemory);
    };
    let (_, found) = NodeStore::open(alloc, &mut disk, one)?;
    Ok(found.promise())
}

#[test]
fn what_was_promised_is_found(rt: HostRuntime) -> Result<(), Fail> {
    let alloc = rt.alloc();
    let none = journal_of(alloc, b"bBOS")?;
    assert!(rt; promised(none) == Ok(EpochId::none()));
    let one = journal_of(alloc, b"bBPOSR")?;
    assert!(rt; promised(one) == Ok(EpochId::new(7, 2)));
    // The last one counts, whatever stands between them.
    let two = journal_of(alloc, b"BPOpS")?;
    assert!(rt; promised(two) == Ok(EpochId::new(8, 1)));
    let back = journal_of(alloc, b"BpBP")?;
    assert!(rt; promised(back) == Ok(EpochId::new(7, 2)));
    Ok(())
}

#[test]
fn what_was_recorded_is_found(rt: HostRuntime) -> Result<(), Fail> {
    let alloc = rt.alloc();
    let all = journal_of(alloc, b"bBPOSR")?;
    assert_eq!(rt; found(all), Ok((3, 9, 5, Some(5), false)));
    let none = journal_of(alloc, b"")?;
    assert_eq!(rt; found(none), Ok((0, 0, 0, None, false)));
    let owed = journal_of(alloc, b"BOoPS")?;
    assert_eq!(rt; found(owed), Ok((3, 9, 5, Some(5), true)));
    // A state is retired by a record after it, of that very state; and one that is recorded again is owed again.
    let before = journal_of(alloc, b"BRS")?;
    assert_eq!(rt; found(before), Ok((3, 9, 5, None, true)));
    let other = journal_of(alloc, b"BSr")?;
    assert_eq!(rt; found(other), Ok((3, 9, 5, None, true)));
    let again = journal_of(alloc, b"BSRs")?;
    assert_eq!(rt; found(again), Ok((3, 9, 5, None, true)));
    let alone = journal_of(alloc, b"Bs")?;
    assert_eq!(rt; found(alone), Ok((3, 9, 5, None, false)));
    Ok(())
}

#[test]
fn what_is_no_journal_is_refused(rt: HostRuntime) -> Result<(), Fail> {
    let alloc = rt.alloc();
    // The last record was not written to its end: its gate is closed, or the octets end within it.
    let mut torn = journal_of(alloc, b"BOSR")?;
    assert!(rt; torn.len() == 131);
    torn[90] = 0;
    assert_eq!(rt; found(torn), Ok((3, 9, 5, Some(5), true)));
    let mut cut = journal_of(alloc, b"BOSR")?;
    cut.truncate(130);
    assert_eq!(rt; found(cut), Err(ReadFault::NotAJournal));
    let mut another = journal_of(alloc, b"BOSR")?;
    assert!(rt; another.len() == 131);
    another[9] = 2;
    assert_eq!(rt; found(another), Err(ReadFault::NotAJournal));
    let boot = journal_of(alloc, b"B0")?;
    assert_eq!(rt; found(boot), Err(ReadFault::NotAJournal));
    let long = journal_of(alloc, b"BL")?;
    assert_eq!(rt; found(long), Err(ReadFault::NotAJournal));
    let outside = journal_of(alloc, b"OX")?;
    assert_eq!(rt; found(outside), Err(ReadFault::NotAJournal));
    Ok(())
}

/// Message 1.1.1, and its octets.
fn message() -> Option<MsgId> {
    MsgId::new(NodeNo::new(1)?, 1, 1)
}

/// Stores a message for ann on an empty disk, and that her copy is here for nodes 1 and 2.
fn begin<D: Disk>(alloc: Global, disk: &mut D, octets: &[u8]) -> Result<(), KeepFault>
    requires empty { IfSome (D.seen disk.old) (λ held. held ≡ []) }
    requires short { 14 + length octets.now ≤ largest }
{
    let (Some(one), Some(id)) = (NodeNo::new(1), message()) else {
        return Err(KeepFault::NoMemory);
    };
    let Some(ann) = Name::spelt(alloc, b"ann")? else {
        return Err(KeepFault::NoMemory);
    };
    let users = [ann];
    let mut store = NodeStore::create(alloc, disk, one)?;
    store.boot(alloc, disk, 1)?;
    store.store_octets(alloc, disk, id, &users, octets)?;
    store.take_here(
        alloc,
        disk,
        id,
        Stamp::new(1, 1, 1),
        NodeSet::from_mask(3),
        &users,
    )
}

/// Node 2 acknowledges that copy, once the journal is opened again.
fn go_on<D: Disk>(alloc: Global, disk: &mut D) -> Result<Option<Acked>, KeepFault> {
    let (Some(one), Some(two), Some(id)) = (NodeNo::new(1), NodeNo::new(2), message()) else {
        return Ok(None);
    };
    let Some(ann) = Name::spelt(alloc, b"ann")? else {
        return Ok(None);
    };
    let Ok((mut store, _)) = NodeStore::open(alloc, disk, one) else {
        return Ok(None);
    };
    let here = ObjState::new(Value::Here, Stamp::new(1, 1, 1), NodeSet::from_mask(3));
    let acked = store.acknowledged(alloc, disk, &Key::Message(ann, id), &here, two)?;
    Ok(Some(acked))
}

/// How many octets the message has that is read after a start, how many a part of it has, and whether it is owed.
fn reread<D: Disk>(alloc: Global, disk: &mut D) -> Result<(usize, usize, bool), ReadFault> {
    let (Some(one), Some(two), Some(id)) = (NodeNo::new(1), NodeNo::new(2), message()) else {
        return Err(ReadFault::NoMemory);
    };
    let (store, _) = NodeStore::open(alloc, disk, one)?;
    let part = match store.octets_part(alloc, disk, id, 2, 7)? {
        Some(part) => part.len(),
        None => 0,
    };
    match store.octets(alloc, disk, id)? {
        Some(octets) => Ok((octets.len(), part, store.owes(two))),
        None => Ok((0, part, store.owes(two))),
    }
}

#[test]
fn a_store_goes_on_after_a_restart(rt: HostRuntime) -> Result<(), Fail> {
    let alloc = rt.alloc();
    let mut disk = MemoryDisk::new(alloc);
    let long = [b'x'; 900];
    assert!(rt; begin(alloc, &mut disk, long.as_slice()).is_ok());
    assert!(rt; disk.restart().is_ok());
    assert_eq!(rt; reread(alloc, &mut disk), Ok((900, 7, true)));
    assert_eq!(rt; go_on(alloc, &mut disk), Ok(Some(Acked::Emptied)));
    assert!(rt; disk.restart().is_ok());
    assert_eq!(rt; reread(alloc, &mut disk), Ok((900, 7, false)));
    Ok(())
}

#[test]
fn a_disk_that_fails_is_told(rt: HostRuntime) -> Result<(), Fail> {
    let alloc = rt.alloc();
    let mut disk = MemoryDisk::new(alloc);
    assert!(rt; begin(alloc, &mut disk, b"hello").is_ok());
    let next = disk.calls().len() as u64 + 3;
    disk.fail_at(next)?;
    assert_eq!(rt; reread(alloc, &mut disk), Err(ReadFault::Disk));
    assert_eq!(rt; reread(alloc, &mut disk), Ok((5, 3, true)));
    Ok(())
}

#[test]
fn what_is_given_is_what_is_stored(rt: HostRuntime) -> Result<(), Fail> {
    let alloc = rt.alloc();
    let mut disk = PlainDisk {
        octets: journal_of(alloc, b"BO")?,
    };
    let (Some(one), Some(id), Some(other)) = (
        NodeNo::new(1),
        NodeNo::new(1).and_then(|one| MsgId::new(one, 3, 5)),
        message(),
    ) else {
        panic!(rt; "no id");
    };
    let Ok((store, _)) = NodeStore::open(alloc, &mut disk, one) else {
        panic!(rt; "no store");
    };
    let Ok(Some(whole)) = store.octets(alloc, &mut disk, id) else {
        panic!(rt; "no octets");
    };
    assert_eq!(rt; whole.as_slice(), b"hello".as_slice());
    let Ok(Some(part)) = store.octets_part(alloc, &mut disk, id, 1, 3) else {
        panic!(rt; "no part");
    };
    assert_eq!(rt; part.as_slice(), b"ell".as_slice());
    assert!(rt; store.octets(alloc, &mut disk, other) == Ok(None));
    Ok(())
}
