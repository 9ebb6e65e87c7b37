// A settle behind each line of a tape: what is told then, and what the stores of the members hold.

use super::{drive_over, joined, lines_of, text_of, yard_of};
use node_disk::MemoryDisk;
use std::alloc::{AllocError, Global};
use std::process::Abort;
use std::test::Fail;

const PLAN_OF_FOUR: &[u8] = b"\
nodes 4
copies 2 1
buckets 4
user alice tanstaaf
user bob tanstaaf
user carol open sesame
postmaster alice
";

const USERS: [&[u8]; 3] = [b"alice", b"bob", b"carol"];

// What is asked behind each line.
const ASKED: &[u8] = b"settle\nmaps alice\nmaps bob\nmaps carol\nend\n";

// The lines that begin with two spaces are what is told behind the line before them, and behind those that follow until such
// lines come again. Letters are lost, nodes stop and start, and epochs come and go: one without a node that is up, one whose
// Installs are late, and one without a node that is lost.
const TAPE: &[u8] = b"\
go
  * settled
  * maps alice at 4:
  * maps bob at 1:
  * maps carol at 3:
open smtp 1
say 1 HELO c.example
say 1 MAIL FROM:<dave@b.example>
say 1 RCPT TO:<alice>
say 1 RCPT TO:<carol>
say 1 DATA
say 1 one
say 1 .
  * settled
  * maps alice at 4: 1 2
  * maps bob at 1:
  * maps carol at 3: 1 2
drop 1
open smtp 3
say 2 HELO c.example
say 2 MAIL FROM:<dave@b.example>
say 2 RCPT TO:<bob>
say 2 DATA
say 2 two
say 2 .
  * settled
  * maps alice at 4: 1 2
  * maps bob at 1: 3 4
  * maps carol at 3: 1 2
crash 3
  * not-all-up 3
  * maps alice at 4:
  * maps bob at 1:
  * maps carol none
post 2
start 3
regroup 3
  * settled
  * maps alice at 4: 1 2
  * maps bob at 1: 3 4
  * maps carol at 3: 1 2
widen 1 alice 1.1.1 4
  * settled
  * maps alice at 4: 1 2 4
  * maps bob at 1: 3 4
  * maps carol at 3: 1 2
crash 2
  * not-all-up 2
  * maps alice at 4:
  * maps bob at 1:
  * maps carol at 3:
regroup 1
  * settled
  * maps alice at 4: 1 4
  * maps bob at 1: 3 4
  * maps carol at 3: 1
start 2
group 2
flow
conclude 2
  * not-all-up 1
  * maps alice none
  * maps bob none
  * maps carol none
crash 2
  * not-all-up 2
  * maps alice at 4:
  * maps bob at 1:
  * maps carol at 3:
flow
start 2
regroup 4
  * settled
  * maps alice at 4: 1 2 4
  * maps bob at 1: 3 4
  * maps carol at 3: 1 2
settle
lose 1
  * not-all-up 1
  * maps alice at 4: 1 2 4
  * maps bob none
  * maps carol at 3: 1 2
regroup 3
  * settled
  * maps alice at 4: 2 4
  * maps bob at 2: 3 4
  * maps carol at 3: 2
open smtp 2
say 3 HELO c.example
say 3 MAIL FROM:<dave@b.example>
say 3 RCPT TO:<bob>
say 3 DATA
say 3 three
say 3 .
  * settled
  * maps alice at 4: 2 4
  * maps bob at 2: 2 3 4
  * maps carol at 3: 2
";

// The set of this one of the first four nodes, a bit for each node as in a state's targets; that of none for another digit.
fn set_of(digit: u8) -> u8 {
    match digit {
        b'1' => 1,
        b'2' => 2,
        b'3' => 4,
        b'4' => 8,
        _ => 0,
    }
}

// The nodes that a line names as words of one digit.
fn named_in(line: &[u8]) -> u8 {
    let mut set = 0u8;
    for word in line.split(|octet| *octet == b' ' || *octet == b'\n') {
        if let [digit] = word {
            set |= set_of(*digit);
        }
    }
    set
}

// The members of the last epoch that a transcript tells of, and all four nodes where it tells of none.
fn members_in(alloc: Global, transcript: &[u8]) -> Result<u8, AllocError> {
    let mut set = 15u8;
    for line in lines_of(alloc, transcript)? {
        if line.starts_with(b"* epoch ") {
            set = named_in(line);
        }
    }
    Ok(set)
}

// What was told of the last settle and of the maps behind it.
fn told_in(alloc: Global, transcript: &[u8]) -> Result<Vec<u8>, AllocError> {
    let mut told = Vec::new(alloc);
    for line in lines_of(alloc, transcript)? {
        if line.starts_with(b"* settled") || line.starts_with(b"* not-all-up") {
            told.clear();
            told.extend_from_slice(line)?;
        }
        if line.starts_with(b"* maps ") {
            told.extend_from_slice(line)?;
        }
    }
    Ok(told)
}

// The payload of the record that octets begin with, and the octets behind it.
fn first_record(octets: &[u8]) -> Option<(&[u8], &[u8])> {
    let behind = octets.strip_prefix(b"\xA5")?;
    if behind.len() < 4 {
        return None;
    }
    let (size, rest) = behind.split_at(4);
    let mut length = 0usize;
    for octet in size {
        length = (length & 0xFF_FFFF) * 256 + usize::from(*octet);
    }
    if rest.len() < length {
        return None;
    }
    Some(rest.split_at(length))
}

// The records of a journal, behind its header.
fn records_of(store: &[u8]) -> &[u8] {
    if store.len() < 16 {
        return store;
    }
    store.split_at(16).1
}

// What the record of a state begins with: its kind, and its key. Nothing of other records.
fn key_of(payload: &[u8]) -> Option<&[u8]> {
    let name = payload.strip_prefix(b"\x04\x02")?;
    let (length, _) = name.split_first()?;
    let size = 16 + usize::from(*length);
    if payload.len() < size {
        return None;
    }
    Some(payload.split_at(size).0)
}

// The last record of a journal that begins so; no octets where there is none.
fn last_of<'a>(store: &'a [u8], key: &[u8]) -> &'a [u8] {
    let mut rest = records_of(store);
    let mut last: &[u8] = b"";
    for _ in 0..store.len() {
        let Some((payload, behind)) = first_record(rest) else {
            return last;
        };
        if payload.starts_with(key) {
            last = payload;
        }
        rest = behind;
    }
    last
}

// Whether a journal has the record of a state of the user's.
fn shows(store: &[u8], user: &[u8]) -> bool {
    let mut rest = records_of(store);
    for _ in 0..store.len() {
        let Some((payload, behind)) = first_record(rest) else {
            return false;
        };
        if let Some(key) = key_of(payload) {
            if key.len() == 16 + user.len() && key.split_at(3).1.starts_with(user) {
                return true;
            }
        }
        rest = behind;
    }
    false
}

// The stores of a run, each with the set of its one node.
fn stores_of<'a>(
    alloc: Global,
    returned: &'a [(u16, u8, MemoryDisk)],
) -> Result<Vec<(u8, &'a [u8])>, AllocError> {
    let mut stores = Vec::new(alloc);
    for (_, node, disk) in returned {
        stores.push((set_of(b'0' | *node), disk.octets()))?;
    }
    Ok(stores)
}

// The members of whose stores one has the record of a state of the user's.
fn holders(stores: &[(u8, &[u8])], members: u8, user: &[u8]) -> u8 {
    let mut set = 0u8;
    for (node, store) in stores {
        if shows(store, user) {
            set |= *node & members;
        }
    }
    set
}

// Whether the stores of those members that are targets of this state have it as their last, too.
fn have_it(stores: &[(u8, &[u8])], members: u8, key: &[u8], state: &[u8]) -> bool {
    let Some(targets) = state.last() else {
        return false;
    };
    for (node, store) in stores {
        if *node & members & *targets != 0 && last_of(store, key) != state {
            return false;
        }
    }
    true
}

// Whether each last state of the store of a member is that of the targets that are members.
fn agrees(stores: &[(u8, &[u8])], members: u8, store: &[u8]) -> bool {
    let mut rest = records_of(store);
    for _ in 0..store.len() {
        let Some((payload, behind)) = first_record(rest) else {
            return true;
        };
        if let Some(key) = key_of(payload) {
            if !have_it(stores, members, key, last_of(store, key)) {
                return false;
            }
        }
        rest = behind;
    }
    true
}

// Whether the stores of all members agree.
fn agree(stores: &[(u8, &[u8])], members: u8) -> bool {
    for (node, store) in stores {
        if *node & members != 0 && !agrees(stores, members, store) {
            return false;
        }
    }
    true
}

// Drives the tape and what is asked behind it, and compares.
fn each_prefix(rt: &impl Abort, alloc: Global, tape: &[u8], wanted: &[u8]) -> Result<(), Fail> {
    let whole = joined(alloc, &[tape, ASKED])?;
    let mut yard = yard_of(alloc, 0)?;
    let (status, transcript) = drive_over(alloc, &whole, &mut yard);
    assert_eq!(rt; status, 0, "{}", text_of(tape));
    let told = told_in(alloc, &transcript)?;
    assert_eq!(rt; text_of(&told), text_of(wanted), "{}", text_of(tape));
    if !told.starts_with(b"* settled") {
        return Ok(());
    }
    let members = members_in(alloc, &transcript)?;
    let stores = stores_of(alloc, &yard.returned)?;
    for (line, user) in lines_of(alloc, &told)?.iter().skip(1).zip(USERS) {
        assert_eq!(rt;
            named_in(line),
            holders(&stores, members, user),
            "{}",
            text_of(tape)
        );
    }
    assert!(rt; agree(&stores, members), "{}", text_of(tape));
    Ok(())
}

#[test]
fn epochs_settle_behind_each_line(rt: HostRuntime) -> Result<(), Fail> {
    let alloc = rt.alloc();
    let mut tape = PLAN_OF_FOUR.to_vec(alloc)?;
    let mut wanted = Vec::new(alloc);
    let mut is_told = false;
    for line in lines_of(alloc, TAPE)? {
        match line.strip_prefix(b"  ") {
            Some(told) => {
                if !is_told {
                    wanted.clear();
                }
                is_told = true;
                wanted.extend_from_slice(told)?;
            }
            None => {
                if !wanted.is_empty() {
                    each_prefix(&rt, alloc, &tape, &wanted)?;
                }
                is_told = false;
                tape.extend_from_slice(line)?;
            }
        }
    }
    each_prefix(&rt, alloc, &tape, &wanted)
}
