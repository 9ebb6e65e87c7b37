// Three nodes, of which one disk fails: its node alone goes down, and what was answered stands on the other two.

use super::{drive_over, joined, lines_of};
use io_edge::{Disk, MemoryYard};
use node_disk::MemoryDisk;
use std::alloc::{AllocError, Global};
use std::process::Abort;
use std::test::Fail;

const PLAN_OF_THREE: &[u8] =
    b"nodes 3\ncopies 3 2\nbuckets 1\nuser alice tanstaaf\npostmaster alice\ngo\n";

// A message is sent at node 1, and one at node 2.
const LINES: &[u8] = b"\
open smtp 1
say 1 HELO c.example
say 1 MAIL FROM:<>
say 1 RCPT TO:<alice>
say 1 DATA
say 1 first text
say 1 .
flow
open smtp 2
say 2 HELO c.example
say 2 MAIL FROM:<>
say 2 RCPT TO:<alice>
say 2 DATA
say 2 second text
say 2 .
again 6
flow
push 1
push 2
push 3
flow
";

// The texts of the messages, in the order in which they are sent.
const TEXTS: [&[u8]; 2] = [b"first text\r\n", b"second text\r\n"];

/// What a run of the program left.
#[derive(Drop)]
struct Left {
    status: u8,
    transcript: Vec<u8>,
    /// The disks that were given back, each with its node.
    disks: Vec<(u16, u8, MemoryDisk)>,
}

// Runs the tape over three empty disks. Of that of this node this call fails, the first being 1; none does where it is 0.
fn driven(alloc: Global, tape: &[u8], node: u8, failing: u64) -> Result<Left, AllocError> {
    let mut disks = Vec::new(alloc);
    for number in 1..=3u8 {
        let mut disk = MemoryDisk::new(alloc);
        if number == node {
            disk.fail_at(failing)?;
        }
        disks.push(disk)?;
    }
    let mut yard = MemoryYard::new(alloc, disks);
    let (status, transcript) = drive_over(alloc, tape, &mut yard);
    Ok(Left {
        status,
        transcript,
        disks: yard.returned,
    })
}

// How many calls of this node's disk these lines lead to.
fn calls(rt: &impl Abort, alloc: Global, lines: &[u8], node: u8) -> Result<u64, AllocError> {
    let left = driven(alloc, &joined(alloc, &[lines, b"end\n"])?, node, 0)?;
    assert_eq!(rt; left.status, 0);
    let mut calls: u64 = 0;
    for (_, number, disk) in left.disks {
        if number == node {
            calls = disk.calls().len() as u64;
        }
    }
    Ok(calls)
}

// The end of a tape that is handled only where both other nodes are up.
fn others_are_up(alloc: Global, node: u8) -> Result<Vec<u8>, Fail> {
    let mut lines = joined(alloc, &[b"flow\n"])?;
    for other in 1..=3u8 {
        if other != node {
            lines.extend_from_slice(format!(in alloc; "open smtp {other}\n")?.as_bytes())?;
        }
    }
    lines.extend_from_slice(b"end\n")?;
    Ok(lines)
}

// How many lines begin and end so.
fn count(alloc: Global, text: &[u8], front: &[u8], back: &[u8]) -> Result<usize, AllocError> {
    let mut count: usize = 0;
    for line in lines_of(alloc, text)? {
        if line.starts_with(front) && line.ends_with(back) {
            count = count.saturating_add(1);
        }
    }
    Ok(count)
}

// After a start the disk holds so many of the texts, each once.
fn holds(rt: &impl Abort, alloc: Global, disk: &mut MemoryDisk, stored: usize) -> Result<(), Fail> {
    assert_eq!(rt; disk.restart(), Ok(()));
    for text in TEXTS.iter().take(stored) {
        assert_eq!(rt; count(alloc, disk.octets(), text, b"")?, 1);
    }
    Ok(())
}

// After a start each disk but that of this node holds so many of the texts, each once.
fn hold(
    rt: &impl Abort,
    alloc: Global,
    disks: &mut [(u16, u8, MemoryDisk)],
    node: u8,
    stored: usize,
) -> Result<(), Fail> {
    for (_, number, disk) in disks.iter_mut() {
        if *number != node {
            holds(rt, alloc, disk, stored)?;
        }
    }
    Ok(())
}

// This call of the node's disk fails in these lines.
fn fails_in(
    rt: &impl Abort,
    alloc: Global,
    lines: &[u8],
    node: u8,
    failing: u64,
) -> Result<(), Fail> {
    let tape = joined(alloc, &[lines, &others_are_up(alloc, node)?])?;
    let mut left = driven(alloc, &tape, node, failing)?;
    let fallen = format!(in alloc; "* fault {node}\n")?;
    assert_eq!(rt; count(alloc, &left.transcript, fallen.as_bytes(), b"")?, 1);
    assert_eq!(rt; count(alloc, &left.transcript, b"* fault ", b"")?, 1);
    assert_eq!(rt; left.status, 0);
    let stored = count(alloc, &left.transcript, b"", b" 250 stored\n")?;
    hold(rt, alloc, &mut left.disks, node, stored)
}

// Each call of this node's disk fails in turn; how many calls there are is answered.
fn each_fails(rt: &impl Abort, alloc: Global, node: u8) -> Result<u64, Fail> {
    let mut lines = joined(alloc, &[PLAN_OF_THREE])?;
    let opened = calls(rt, alloc, &lines, node)?;
    let mut done = opened;
    for line in lines_of(alloc, LINES)? {
        lines.extend_from_slice(line)?;
        let made = calls(rt, alloc, &lines, node)?;
        for failing in done.saturating_add(1)..=made {
            fails_in(rt, alloc, &lines, node, failing)?;
        }
        done = made;
    }
    Ok(done.saturating_sub(opened))
}

#[test]
fn a_disk_that_fails_takes_its_node_alone_down(rt: HostRuntime) -> Result<(), Fail> {
    let alloc = rt.alloc();
    for node in 1..=3u8 {
        let count = each_fails(&rt, alloc, node)?;
        assert!(rt; count > 0);
    }
    // Where none fails, three disks hold two messages.
    let tape = joined(alloc, &[PLAN_OF_THREE, LINES, b"end\n"])?;
    let mut left = driven(alloc, &tape, 1, 0)?;
    assert_eq!(rt; count(alloc, &left.transcript, b"", b" 250 stored\n")?, 2);
    hold(&rt, alloc, &mut left.disks, 0, 2)
}
