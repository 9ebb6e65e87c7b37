// Nodes that start over journals that are there.
ghost use Rattle.std.specs.Prelude.{◌≤◌, length};

use super::lines::node_at;
use super::{plays, started};
use io_edge::PlainDisk;
use node_core::NodeFault;
use std::alloc::{AllocError, Global};
use std::process::Abort;
use std::test::Fail;

/// The header of the journal of node 1.
const HEADER: [u8; 16] = *b"PORCUPN1\x00\x01\x00\x00\x00\x00\x00\x00";

/// The payload of a record that a letter stands for.
fn payload(letter: u8) -> &'static [u8]
    ensures { length result.now ≤ 300 }
{
    match letter {
        // Boots 3 and 2, and the greatest.
        b'B' => b"\x01\x00\x00\x00\x03",
        b'b' => b"\x01\x00\x00\x00\x02",
        b'M' => b"\x01\xFF\xFF\xFF\xFF",
        // The promise of epoch 7 of node 2.
        b'P' => b"\x02\x00\x00\x00\x00\x00\x00\x00\x07\x02",
        // The octets of message 1.3.5.
        b'O' => b"\x03\x01\x00\x00\x00\x03\x00\x00\x00\x00\x00\x00\x00\x05hello",
        // That ann's copy of it is here for nodes 1 and 2, and that both have it.
        b'S' => {
            b"\x04\x02\x03ann\x01\x00\x00\x00\x03\x00\x00\x00\x00\x00\x00\x00\x05\
\x01\x00\x00\x00\x00\x00\x00\x00\x05\x00\x00\x00\x03\x01\x00\x03"
        }
        b'R' => {
            b"\x05\x02\x03ann\x01\x00\x00\x00\x03\x00\x00\x00\x00\x00\x00\x00\x05\
\x01\x00\x00\x00\x00\x00\x00\x00\x05\x00\x00\x00\x03\x01\x00\x03"
        }
        // The same of a copy that is here for node 1 alone.
        b's' => {
            b"\x04\x02\x03ann\x01\x00\x00\x00\x03\x00\x00\x00\x00\x00\x00\x00\x05\
\x01\x00\x00\x00\x00\x00\x00\x00\x05\x00\x00\x00\x03\x01\x00\x01"
        }
        b'r' => {
            b"\x05\x02\x03ann\x01\x00\x00\x00\x03\x00\x00\x00\x00\x00\x00\x00\x05\
\x01\x00\x00\x00\x00\x00\x00\x00\x05\x00\x00\x00\x03\x01\x00\x01"
        }
        // A boot 0.
        _ => b"\x01\x00\x00\x00\x00",
    }
}

/// The octets of a journal of node 1 with these records, and a closed gate.
fn journal_of(alloc: Global, letters: &[u8]) -> Result<Vec<u8>, AllocError> {
    let mut octets = Vec::from_slice(alloc, &HEADER)?;
    for letter in letters {
        let payload = payload(*letter);
        octets.push(0xA5)?;
        octets.extend_from_slice(&(payload.len() as u32).to_be_bytes())?;
        octets.extend_from_slice(payload)?;
    }
    octets.push(0)?;
    Ok(octets)
}

/// Plays the table at node 1, which starts over such a journal.
fn plays_over(alloc: Global, letters: &[u8], table: &[u8]) -> Result<Vec<u8>, NodeFault> {
    let mut disk = PlainDisk {
        octets: journal_of(alloc, letters)?,
    };
    let mut node = started(alloc, &mut disk, node_at(b"1", 0))?;
    plays(alloc, &mut disk, &mut node, table)
}

fn stands_over(rt: &impl Abort, alloc: Global, letters: &[u8], table: &[u8]) -> Result<(), Fail> {
    let Ok(wrong) = plays_over(alloc, letters, table) else {
        panic!(rt; "the node fell");
    };
    assert_eq!(rt; str::from_utf8(&wrong)?, "");
    Ok(())
}

#[test]
fn what_was_recorded_is_known(rt: HostRuntime) -> Result<(), Fail> {
    let alloc = rt.alloc();
    let all = b"\
? - 135 -- - - - - > 135 51 3 h o
p 2 --- -- 9 9 - - >
d - --- -- - 1 - - > F 2 141 61 3 1 1 1
r - --- -- - - - - > 5";
    stands_over(&rt, alloc, b"bBPOSR", all)?;
    let owed = b"\
? - 135 -- - - - - > 135 51 3 h o2
p 2 --- -- 9 9 - - > P 2 135 51 3 h - 1
r - --- -- - - - - > 5
p 2 --- -- 9 9 - - > P 2 135 51 3 h - 1";
    stands_over(&rt, alloc, b"BOS", owed)?;
    // A state is retired by a record after it, of that very state; and one that is recorded again is owed again.
    stands_over(&rt, alloc, b"BORS", owed)?;
    stands_over(&rt, alloc, b"BOSr", owed)?;
    stands_over(&rt, alloc, b"BOSRs", owed)?;
    let alone = b"\
? - 135 -- - - - - > 135 51 1 h -
p 2 --- -- 9 9 - - >";
    stands_over(&rt, alloc, b"Bs", alone)?;
    assert_eq!(rt; plays_over(alloc, b"bM", alone), Err(NodeFault::Worn));
    assert_eq!(rt; plays_over(alloc, b"B0", alone), Err(NodeFault::Disk));
    Ok(())
}
