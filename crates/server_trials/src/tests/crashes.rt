// A node that stops and starts again: what was answered is there, and what was deleted is not.

use super::{PLAN, drive, drive_over, joined, lines_of, runs};
use io_edge::MemoryYard;
use node_disk::{Image, MemoryDisk};
use std::alloc::{AllocError, Global};
use std::process::Abort;
use std::test::Fail;

const SENT: &[u8] = b"\
open smtp 1
  1 220 node1 Porcupine ready
say 1 HELO c.example
  1 250 node1
say 1 MAIL FROM:<bob@b.example>
  1 250 sender ok
say 1 RCPT TO:<alice>
  1 250 recipient ok
say 1 DATA
  1 354 end with a line that is a single period
say 1 Subject: hi
say 1
say 1 hello
say 1 .
  1 250 stored
say 1 QUIT
  1 221 node1 closing
  * 1 closed
";

const STARTED: &[u8] = b"crash 1
  * node 1 down
start 1
  * node 1 up 2
regroup 1
  * epoch 2.1 members 1
";

const STARTED_IN_SESSION: &[u8] = b"crash 1
  * node 1 down
  1 421 node1 down
  * 1 closed
start 1
  * node 1 up 2
regroup 1
  * epoch 2.1 members 1
";

const LOGIN: &[u8] = b"open pop 1
  2 +OK node1 ready <2.2.0@node1>
say 2 USER alice
  2 +OK send PASS
say 2 PASS tanstaaf
  2 +OK maildrop open
say 2 STAT
";

// The node stops behind these lines; then it is listed what was answered.
fn stops_behind(rt: &impl Abort, alloc: Global, lines: &[u8]) -> Result<(), Fail> {
    let ended = lines.ends_with(b"* 1 closed\n");
    let started = if ended { STARTED } else { STARTED_IN_SESSION };
    let stored = ended || lines.ends_with(b"250 stored\n");
    let found: &[u8] = if stored {
        b"  2 +OK 1 151\nend\n"
    } else {
        b"  2 +OK 0 0\nend\n"
    };
    runs(rt, alloc, &[PLAN, lines, started, LOGIN, found], 0)
}

#[test]
fn a_node_stops_behind_each_line(rt: HostRuntime) -> Result<(), Fail> {
    let alloc = rt.alloc();
    let mut lines = Vec::new(alloc);
    for line in lines_of(alloc, SENT)? {
        if !line.starts_with(b"  ") && !lines.is_empty() {
            stops_behind(&rt, alloc, &lines)?;
        }
        lines.extend_from_slice(line)?;
    }
    stops_behind(&rt, alloc, &lines)
}

// Two messages are sent, and the first is deleted.
const DELETED: &[u8] = b"\
open smtp 1
open pop 1
say 1 HELO c.example
say 1 MAIL FROM:<>
say 1 RCPT TO:<alice>
say 1 DATA
say 1 .
say 1 MAIL FROM:<>
say 1 RCPT TO:<alice>
say 1 DATA
say 1 .
say 2 USER alice
say 2 PASS tanstaaf
say 2 DELE 1
say 2 QUIT
";

const STARTED_AGAIN: &[u8] = b"\
start 1
regroup 1
open pop 1
say 3 USER alice
say 3 PASS tanstaaf
say 3 STAT
end
";

// How many disk calls these lines lead to.
fn calls(alloc: Global, lines: &[u8]) -> Result<u64, AllocError> {
    let run = drive(alloc, &joined(alloc, &[lines, b"end\n"])?, 0)?;
    Ok(run.disk.calls().len() as u64)
}

// A disk of which this call fails, which then is left at this image.
fn failing_disk(alloc: Global, failing: u64, image: Image) -> Result<MemoryDisk, AllocError> {
    let mut disk = MemoryDisk::new(alloc);
    disk.fail_at(failing)?;
    disk.leave(image)?;
    Ok(disk)
}

// The node goes down as this disk call fails, and starts from this image: what is then answered to STAT.
fn listed(alloc: Global, lines: &[u8], failing: u64, image: Image) -> Result<Vec<u8>, AllocError> {
    let tape = joined(alloc, &[lines, STARTED_AGAIN])?;
    let mut disks = Vec::new(alloc);
    disks.push(failing_disk(alloc, failing, image)?)?;
    let (_, transcript) = drive_over(alloc, &tape, &mut MemoryYard::new(alloc, disks));
    let last = lines_of(alloc, &transcript)?.pop().unwrap_or(b"");
    Vec::from_slice(alloc, last)
}

// The answer tells so many messages.
fn tells(alloc: Global, answer: &[u8], count: u64) -> Result<bool, Fail> {
    let front = format!(in alloc; "3 +OK {count} ")?;
    Ok(answer.starts_with(front.as_bytes()))
}

// Whatever the stop leaves, so many messages are there, or one more.
fn stands(
    rt: &impl Abort,
    alloc: Global,
    lines: &[u8],
    failing: u64,
    least: u64,
) -> Result<(), Fail> {
    for image in [
        Image::Nothing,
        Image::Front(7),
        Image::All,
        Image::Garbage(0xA5),
    ] {
        let answer = listed(alloc, lines, failing, image)?;
        let more = tells(alloc, &answer, least.saturating_add(1))?;
        assert!(rt; more || tells(alloc, &answer, least)?);
    }
    Ok(())
}

#[test]
fn what_was_answered_stands_after_a_start(rt: HostRuntime) -> Result<(), Fail> {
    let alloc = rt.alloc();
    let mut lines = joined(alloc, &[PLAN])?;
    let mut done = calls(alloc, &lines)?;
    let mut stored: u64 = 0;
    for line in lines_of(alloc, DELETED)? {
        lines.extend_from_slice(line)?;
        let made = calls(alloc, &lines)?;
        // What the line asks for may be done or not: a message more, or at the deletion one less.
        let deletes = line == b"say 2 QUIT\n".as_slice();
        let least = stored.saturating_sub(u64::from(deletes));
        for failing in done.saturating_add(1)..=made {
            stands(&rt, alloc, &lines, failing, least)?;
        }
        done = made;
        if line == b"say 1 .\n".as_slice() {
            stored = stored.saturating_add(1);
        }
    }
    assert_eq!(rt; stored, 2);
    Ok(())
}
