// Each part of the outside failing in turn, and other words.

use super::store::Journal;
use super::{PLAN, Script, answered, drive, joined, yard_of};
use io_edge::faulty::{FaultySink, FaultySource, FaultyYard};
use io_edge::{Disk, MemoryYard, PlainDisk, SliceSource, VecSink};
use node_disk::{Image, MemoryDisk};
use std::alloc::{AllocError, Global};
use std::process::Abort;
use std::test::Fail;

const ASKED: &[u8] = b"\
open smtp 1
  1 220 node1 Porcupine ready
open smtp 1
  2 220 node1 Porcupine ready
open smtp 1
  3 220 node1 Porcupine ready
say 1 QUIT
  1 221 node1 closing
  * 1 closed
say 2 HELO c.example
  2 250 node1
say 2 MAIL FROM:<bob@b.example>
  2 250 sender ok
say 2 RCPT TO:<alice>
  2 250 recipient ok
say 2 DATA
  2 354 end with a line that is a single period
say 2 .
";

const FALLEN: &[u8] = b"  * fault 1
  2 421 node1 down
  * 2 closed
  3 421 node1 down
  * 3 closed
";

// How many calls of its disk a tape of these pieces leads to.
pub(super) fn calls_of(rt: &impl Abort, alloc: Global, pieces: &[&[u8]]) -> Result<u64, Fail> {
    let script = Script::new(alloc, pieces)?;
    let run = script.run(rt, 0)?;
    Ok(run.disk.calls().len() as u64)
}

// This disk call fails in a tape of these pieces. The disk starts again and is left at this image, which begins with the
// journal.
pub(super) fn fails(
    rt: &impl Abort,
    alloc: Global,
    pieces: &[&[u8]],
    failing: u64,
    image: Image,
    journal: &Journal,
) -> Result<(), Fail> {
    let mut script = Script::new(alloc, pieces)?;
    script.failing = failing;
    let mut run = script.run(rt, 3)?;
    run.disk.leave(image)?;
    assert_eq!(rt; run.disk.restart(), Ok(()));
    journal.is_prefix(rt, run.disk.octets());
    Ok(())
}

// Run lines that are refused at a node that is down, and what a stop of the machine then leaves of the disk.
const REFUSALS: [(&[u8], Image); 4] = [
    (b"open smtp 1\n  ! line 16 NodeDown\n", Image::Nothing),
    (b"open smtp 2\n  ! line 16 NoSuchNode\n", Image::Front(5)),
    (b"say 2 QUIT\n  ! line 16 NoSuchSession\n", Image::All),
    (
        b"say 3 QUIT\n  ! line 16 NoSuchSession\n",
        Image::Garbage(0xA5),
    ),
];

const RETRIEVED: &[u8] = b"  2 250 stored
open pop 1
  4 +OK node1 ready <1.4.0@node1>
say 4 USER alice
  4 +OK send PASS
say 4 PASS tanstaaf
  4 +OK maildrop open
say 4 LIST
  4 +OK listing
  4 1 129
  4 .
open pop 1
  5 +OK node1 ready <1.5.0@node1>
say 4 RETR 1
";

const READ_FAILED: &[u8] = b"  * fault 1
  2 421 node1 down
  * 2 closed
  3 421 node1 down
  * 3 closed
  4 -ERR [SYS/TEMP] node1 down
  * 4 closed
  5 -ERR [SYS/TEMP] node1 down
  * 5 closed
close 4
  ! line 22 NoSuchSession
";

// This disk call fails as the plan is opened.
fn is_refused(rt: &impl Abort, alloc: Global, failing: u64) -> Result<(), Fail> {
    let run = drive(alloc, PLAN, failing)?;
    assert_eq!(rt; run.transcript.as_slice(), b"! disk 0 1\n".as_slice());
    assert_eq!(rt; run.status, 6);
    Ok(())
}

#[test]
fn a_disk_fault_takes_the_node_down(rt: HostRuntime) -> Result<(), Fail> {
    let alloc = rt.alloc();
    let journal = Journal::new(alloc)?;
    let opened = calls_of(&rt, alloc, &[PLAN, b"end\n"])?;
    let stored = calls_of(&rt, alloc, &[PLAN, ASKED, b"  2 250 stored\nend\n"])?;
    assert!(rt; opened < stored);
    for failing in 1..=opened {
        is_refused(&rt, alloc, failing)?;
    }
    for failing in opened + 1..=stored {
        for (refusal, image) in REFUSALS {
            let pieces = [PLAN, ASKED, FALLEN, refusal];
            fails(&rt, alloc, &pieces, failing, image, &journal)?;
        }
    }
    // LIST reads nothing, and RETR is the first disk call after those of the message.
    let pieces = [PLAN, ASKED, RETRIEVED, READ_FAILED];
    let failing = stored.saturating_add(1);
    fails(&rt, alloc, &pieces, failing, Image::All, &journal)
}

// `feed 1` of an envelope and two messages at once.
const TWO_AT_ONCE: &[u8] =
    b"open smtp 1\nfeed 1 48454c4f20630d0a4d41494c2046524f4d3a3c3e0d0a5243505420544f3a3c616c6963653e0d0a\
444154410d0a2e0d0a4d41494c2046524f4d3a3c3e0d0a5243505420544f3a3c616c6963653e0d0a444154410d0a2e0d0a\nend\n";

// This write fails, and the store then holds so many messages.
fn write_fails(rt: &impl Abort, alloc: Global, write: u64, messages: u64) -> Result<(), Fail> {
    let tape = joined(alloc, &[PLAN, TWO_AT_ONCE])?;
    let mut journal = Journal::new(alloc)?;
    for _ in 0..messages {
        journal.message(b"", b"c", &[b"alice"], b"")?;
    }
    let mut yard = yard_of(alloc, 0)?;
    let mut sink = FaultySink::new(VecSink::new(alloc), write);
    let mut source = SliceSource::new(&tape);
    let answer = answered(alloc, &mut source, &mut sink, &mut yard);
    assert_eq!(rt; answer, if write <= 10 { 5 } else { 0 });
    match yard.returned.last() {
        Some((_, _, disk)) => journal.is_held(rt, disk.octets()),
        None => assert!(rt; false),
    }
    Ok(())
}

#[test]
fn what_a_unit_gives_is_written_before_the_next_is_heard(rt: HostRuntime) -> Result<(), Fail> {
    // Which write fails, and how many messages the store then holds.
    let cases: [(u64, u64); 5] = [(5, 0), (6, 1), (9, 1), (10, 2), (11, 2)];
    for (write, messages) in cases {
        write_fails(&rt, rt.alloc(), write, messages)?;
    }
    Ok(())
}

const PLAN_OF_TWO: &[u8] =
    b"nodes 2\ncopies 2 1\nbuckets 1\nuser alice tanstaaf\npostmaster alice\ngo\n";

const OPENED: &[u8] = b"1 220 node1 Porcupine ready\n";

const CLOSING: &[u8] = b"1 220 node1 Porcupine ready\n1 221 node1 closing\n";

const CLOSED: &[u8] = b"1 220 node1 Porcupine ready\n1 221 node1 closing\n* 1 closed\n! read\n";

/// Which read, which write and which store fails, the first being 1; none where it is 0.
#[derive(Clone, Copy)]
struct Failing {
    read: u64,
    write: u64,
    store: u64,
}

fn at(read: u64, write: u64, store: u64) -> Failing {
    Failing { read, write, store }
}

// Part of the outside fails: the status and the transcript.
fn outside_fails(
    rt: &impl Abort,
    alloc: Global,
    tape: &[u8],
    failing: Failing,
    status: u8,
    transcript: &[u8],
) -> Result<(), Fail> {
    let mut yard = FaultyYard::new(yard_of(alloc, 0)?, failing.store);
    let mut sink = FaultySink::new(VecSink::new(alloc), failing.write);
    let mut source = FaultySource::new(SliceSource::new(tape), failing.read);
    let answer = answered(alloc, &mut source, &mut sink, &mut yard);
    assert_eq!(rt; answer, status);
    assert_eq!(rt; sink.inner.held.as_slice(), transcript);
    Ok(())
}

#[test]
fn the_outside_fails(rt: HostRuntime) -> Result<(), Fail> {
    let alloc = rt.alloc();
    let tape = joined(alloc, &[PLAN_OF_TWO, b"open smtp 1\nsay 1 QUIT\n"])?;
    // Each octet of the tape is one read, and each line of the transcript is one write.
    let last = tape.len() as u64 + 1;
    let cases: [(Failing, u8, &[u8]); 7] = [
        (at(1, 0, 0), 4, b"! read\n"),
        (at(last, 0, 0), 4, CLOSED),
        (at(0, 1, 0), 5, b""),
        (at(0, 2, 0), 5, OPENED),
        (at(0, 3, 0), 5, CLOSING),
        (at(0, 0, 1), 6, b"! disk 0 1\n"),
        (at(0, 0, 2), 6, b"! disk 0 2\n"),
    ];
    for (failing, status, transcript) in cases {
        outside_fails(&rt, alloc, &tape, failing, status, transcript)?;
    }
    Ok(())
}

// Two disks, of which the one of this node holds something.
fn held_by(alloc: Global, node: u8) -> Result<Vec<PlainDisk>, AllocError> {
    let mut disks = Vec::new(alloc);
    for number in 1..=2 {
        let mut disk = PlainDisk::new(alloc);
        if number == node {
            disk.octets.extend_from_slice(b"mail")?;
        }
        disks.push(disk)?;
    }
    Ok(disks)
}

// The store of this node, which holds something, is given back as it was.
fn is_given_back(rt: &impl Abort, alloc: Global, node: u8, transcript: &[u8]) -> Result<(), Fail> {
    let tape = joined(alloc, &[PLAN_OF_TWO, b"open smtp 1\nend\n"])?;
    let mut yard = MemoryYard::new(alloc, held_by(alloc, node)?);
    let mut sink = VecSink::new(alloc);
    let mut source = SliceSource::new(&tape);
    let answer = answered(alloc, &mut source, &mut sink, &mut yard);
    assert_eq!(rt; answer, 6);
    assert_eq!(rt; sink.held.as_slice(), transcript);
    match yard.returned.last() {
        Some((_, last, disk)) => {
            assert_eq!(rt; *last, node);
            assert_eq!(rt; disk.octets.as_slice(), b"mail".as_slice());
        }
        None => assert!(rt; false),
    }
    Ok(())
}

#[test]
fn a_store_that_holds_something_is_given_back_as_it_was(rt: HostRuntime) -> Result<(), Fail> {
    is_given_back(&rt, rt.alloc(), 1, b"! disk 0 1\n")?;
    is_given_back(&rt, rt.alloc(), 2, b"! disk 0 2\n")
}
