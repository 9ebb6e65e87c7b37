// The octets that the disk of a node is to hold, spelt as the description of a journal has it.
use std::alloc::{AllocError, Global};

/// The octets of the first message of node 1: its trace lines and its text.
const MESSAGE: &[u8] =
    b"Return-Path: <bob@b.example>\r\nReceived: from c.example\r\n by node1 with SMTP id <1.1.1@node1>;\r\n Thu, 01 Jan 1970 00:00:00 +0000\r\nHi\r\n";

/// The id of that message, and the key of ann's copy of it.
const ID: &[u8] = b"\x01\x00\x00\x00\x01\x00\x00\x00\x00\x00\x00\x00\x01";

const KEY: &[u8] = b"\x02\x03ann\x01\x00\x00\x00\x01\x00\x00\x00\x00\x00\x00\x00\x01";

/// That the copy is here by the first stamp of node 1, but for its targets.
const HERE: &[u8] = b"\x01\x00\x00\x00\x00\x00\x00\x00\x01\x00\x00\x00\x01\x01\x00";

/// Puts a record with these parts behind the others.
fn put(octets: &mut Vec<u8>, kind: u8, parts: &[&[u8]], last: &[u8]) -> Result<(), AllocError> {
    let mut payload = Vec::new(*octets.allocator());
    payload.push(kind)?;
    for part in parts {
        payload.extend_from_slice(part)?;
    }
    payload.extend_from_slice(last)?;
    let Ok(length) = u32::try_from(payload.len()) else {
        return Err(AllocError);
    };
    octets.push(0xA5)?;
    octets.extend_from_slice(&length.to_be_bytes())?;
    octets.extend_from_slice(&payload)?;
    Ok(())
}

/// Puts the record that a letter tells: `B` and `b` are boots 1 and 2, `P` the promise of the first epoch, `E` and `F` those of
/// 2.1 and 2.2, `O` the message's octets, a digit that ann's copy is here with this set of targets, and `R` that all of nodes 1
/// to 3 have it, `r` that nodes 1 and 2 do.
fn put_record(octets: &mut Vec<u8>, letter: u8) -> Result<(), AllocError> {
    match letter {
        b'B' => put(octets, 1, &[], b"\x00\x00\x00\x01"),
        b'b' => put(octets, 1, &[], b"\x00\x00\x00\x02"),
        b'P' => put(octets, 2, &[], b"\x00\x00\x00\x00\x00\x00\x00\x01\x01"),
        b'E' => put(octets, 2, &[], b"\x00\x00\x00\x00\x00\x00\x00\x02\x01"),
        b'F' => put(octets, 2, &[], b"\x00\x00\x00\x00\x00\x00\x00\x02\x02"),
        b'O' => put(octets, 3, &[ID], MESSAGE),
        b'3' => put(octets, 4, &[KEY, HERE], b"\x03"),
        b'7' => put(octets, 4, &[KEY, HERE], b"\x07"),
        b'r' => put(octets, 5, &[KEY, HERE], b"\x03"),
        _ => put(octets, 5, &[KEY, HERE], b"\x07"),
    }
}

/// The journal of a node with these records, and a closed gate.
pub(super) fn journal(alloc: Global, number: u8, records: &[u8]) -> Result<Vec<u8>, AllocError> {
    let mut octets = Vec::from_slice(alloc, b"PORCUPN1\x00")?;
    octets.push(number)?;
    octets.extend_from_slice(b"\x00\x00\x00\x00\x00\x00")?;
    for letter in records {
        put_record(&mut octets, *letter)?;
    }
    octets.push(0)?;
    Ok(octets)
}
