// Run lines: which are taken, and which fault the others have.

use super::{PLAN, Script, drive, each_case, joined, lines_of, repeated, runs};
use std::alloc::{AllocError, Global};
use std::process::Abort;
use std::test::Fail;

const FAULTS: &[u8] = b"\
shut 1
  ! line 7 BadLine

  ! line 7 BadLine
nodes 1
  ! line 7 BadLine
go
  ! line 7 BadLine
open
  ! line 7 BadLine
open smtp
  ! line 7 BadLine
open smtp\x20
  ! line 7 BadLine
open smtp x
  ! line 7 BadLine
open smtp -1
  ! line 7 BadLine
open smtp 1 1
  ! line 7 BadLine
open smtp  1
  ! line 7 BadLine
open  smtp 1
  ! line 7 BadLine
open smtp 1\x20
  ! line 7 BadLine
open smtp 1\r\r
  ! line 7 BadLine
open SMTP 1
  ! line 7 BadLine
open smtp 000000000000000000001
  ! line 7 BadLine
open smtp 18446744073709551616
  ! line 7 BadLine
open smtp 18446744073709551615
  ! line 7 NoSuchNode
open smtp 0
  ! line 7 NoSuchNode
open smtp 2
  ! line 7 NoSuchNode
open pop
  ! line 7 BadLine
open pop\x20
  ! line 7 BadLine
open pop x
  ! line 7 BadLine
open POP 1
  ! line 7 BadLine
open imap 1
  ! line 7 BadLine
open pop 0
  ! line 7 NoSuchNode
open pop 2
  ! line 7 NoSuchNode
feed
  ! line 7 BadLine
feed 1
  ! line 7 BadLine
feed 1\x20
  ! line 7 BadLine
feed 1 4
  ! line 7 BadLine
feed 1 4G
  ! line 7 BadLine
feed 1 41 42
  ! line 7 BadLine
feed 1  41
  ! line 7 BadLine
feed 1 414
  ! line 7 BadLine
feed 1 41\x20
  ! line 7 BadLine
feed x 41
  ! line 7 BadLine
feed 18446744073709551616 41
  ! line 7 BadLine
feed 1 41
  ! line 7 NoSuchSession
feed 0 0d0A
  ! line 7 NoSuchSession
close
  ! line 7 BadLine
close x
  ! line 7 BadLine
close 1 1
  ! line 7 BadLine
close 0
  ! line 7 NoSuchSession
close 1
  ! line 7 NoSuchSession
open pop 1
  1 +OK node1 ready <1.1.0@node1>
close 2
  ! line 8 NoSuchSession
open pop 1
  1 +OK node1 ready <1.1.0@node1>
close 1
close 1
  ! line 9 NoSuchSession
open pop 1
  1 +OK node1 ready <1.1.0@node1>
close 1
feed 1 41
  ! line 9 NoSuchSession
open smtp 1
  1 220 node1 Porcupine ready
close 1
say 1 QUIT
  ! line 9 NoSuchSession
open pop 1
  1 +OK node1 ready <1.1.0@node1>
feed 1 515549540d0a
  1 +OK bye
  * 1 closed
feed 1 515549540d0a
  ! line 9 NoSuchSession
say
  ! line 7 BadLine
say\x20
  ! line 7 BadLine
say x
  ! line 7 BadLine
say 1x
  ! line 7 BadLine
say\t1
  ! line 7 BadLine
say  1 QUIT
  ! line 7 BadLine
say -1 QUIT
  ! line 7 BadLine
say 18446744073709551616 QUIT
  ! line 7 BadLine
say 18446744073709551615 QUIT
  ! line 7 NoSuchSession
say 0 a
  ! line 7 NoSuchSession
say 0
  ! line 7 NoSuchSession
say 1
  ! line 7 NoSuchSession
say 1 NOOP
  ! line 7 NoSuchSession
open smtp 1
  1 220 node1 Porcupine ready
say 2 a
  ! line 8 NoSuchSession
open smtp 1
  1 220 node1 Porcupine ready
say 1\tQUIT
  ! line 8 BadLine
open smtp 1
  1 220 node1 Porcupine ready
say 1 QUIT
  1 221 node1 closing
  * 1 closed
say 1 QUIT
  ! line 9 NoSuchSession
open smtp 1
  1 220 node1 Porcupine ready
say 0001 QUIT
  1 221 node1 closing
  * 1 closed
open smtp 1
  2 220 node1 Porcupine ready
say 1 QUIT
  ! line 10 NoSuchSession
end\x20
  ! line 7 BadLine
end now
  ! line 7 BadLine
End
  ! line 7 BadLine
 end
  ! line 7 BadLine
";

const SAYS: &[u8] = b"\
open smtp 1
  1 220 node1 Porcupine ready
say 1 ";

// Puts so many letters between these, which ends the tape.
fn ends(
    rt: &impl Abort,
    alloc: Global,
    front: &[u8],
    count: usize,
    back: &[u8],
) -> Result<(), Fail> {
    let letters = repeated(alloc, b'x', count)?;
    let lines = joined(alloc, &[front, &letters, back])?;
    runs(rt, alloc, &[&lines], 3)
}

// After `say 1 ` of a session that is open.
const AFTER_SAY: [(usize, &[u8]); 4] = [
    (65_529, b"\n  1 500 line too long\n  ! line 9 BadLine\n"),
    (65_528, b"\r\n  1 500 line too long\n  ! line 9 BadLine\n"),
    (65_530, b"\n  ! line 8 BadLine\n"),
    (65_529, b"\r\n  ! line 8 BadLine\n"),
];

#[test]
fn lines_have_a_greatest_length(rt: HostRuntime) -> Result<(), Fail> {
    let alloc = rt.alloc();
    ends(
        &rt,
        alloc,
        b"user alice ",
        65_524,
        b"\n  ! line 1 BadPlan\n",
    )?;
    ends(
        &rt,
        alloc,
        b"user alice ",
        65_525,
        b"\n  ! line 1 BadLine\n",
    )?;
    let said = joined(alloc, &[PLAN, SAYS])?;
    for (count, back) in AFTER_SAY {
        ends(&rt, alloc, &said, count, back)?;
    }
    Ok(())
}

#[test]
fn a_tape_ends_at_its_line_end(rt: HostRuntime) -> Result<(), Fail> {
    let alloc = rt.alloc();
    for rest in [b"".as_slice(), b"say 9 QUIT\n\n", b"end"] {
        runs(&rt, alloc, &[PLAN, b"end\n", rest], 0)?;
    }
    let long = repeated(alloc, b'x', 70_000)?;
    runs(&rt, alloc, &[PLAN, b"end\n", &long], 0)
}

// The worked tape of one message.
const FIRST: &[u8] = b"\
nodes 1
copies 1 1
buckets 1
user alice tanstaaf
postmaster alice
go
open smtp 1
  1 220 node1 Porcupine ready
say 1 HELO c.example
  1 250 node1
say 1 MAIL FROM:<bob@b.example>
  1 250 sender ok
say 1 RCPT TO:<alice>
  1 250 recipient ok
say 1 DATA
  1 354 end with a line that is a single period
say 1 Subject: hi
say 1
say 1 hello
say 1 .
  1 250 stored
say 1 QUIT
  1 221 node1 closing
  * 1 closed
end
";

// The tape is cut at each octet of the line after those of the script.
fn stops_within(
    rt: &impl Abort,
    script: &Script,
    line: &[u8],
    number: u64,
) -> Result<(), AllocError> {
    let alloc = script.alloc;
    let last = format!(in alloc; "! line {number} BadLine\n")?;
    let wanted = joined(alloc, &[&script.wanted, last.as_bytes()])?;
    for cut in 0..line.len() {
        let run = drive(alloc, &joined(alloc, &[&script.tape, &line[..cut]])?, 0)?;
        assert!(rt; run.transcript == wanted, "at octet {cut} of line {number}");
        assert_eq!(rt; run.status, 3);
    }
    Ok(())
}

#[test]
fn a_tape_is_cut_at_each_octet(rt: HostRuntime) -> Result<(), Fail> {
    let mut script = Script::new(rt.alloc(), &[])?;
    let mut number: u64 = 1;
    for line in lines_of(rt.alloc(), FIRST)? {
        if !line.starts_with(b"  ") {
            stops_within(&rt, &script, line, number)?;
            number = number.saturating_add(1);
        }
        script.add(line)?;
    }
    assert_eq!(rt; number, 18);
    script.run(&rt, 0)?;
    Ok(())
}

// Adds so many sessions.
fn open(script: &mut Script, count: u64) -> Result<(), Fail> {
    for session in 1..=count {
        script.tape.extend_from_slice(b"open smtp 1\n")?;
        let said = format!(in script.alloc; "{session} 220 node1 Porcupine ready\n")?;
        script.wanted.extend_from_slice(said.as_bytes())?;
    }
    Ok(())
}

// What comes of these lines where 256 sessions are open.
fn ends_among_many(rt: &impl Abort, alloc: Global, lines: &[u8]) -> Result<(), Fail> {
    let mut script = Script::new(alloc, &[PLAN])?;
    open(&mut script, 256)?;
    script.add(lines)?;
    script.run(rt, 3)?;
    Ok(())
}

// Which lines are refused once 256 sessions are open.
const AMONG_MANY: [&[u8]; 3] = [
    b"open smtp 1\n  ! line 263 TooManySessions\n",
    b"open smtp 2\n  ! line 263 NoSuchNode\n",
    b"say 7 QUIT\n  7 221 node1 closing\n  * 7 closed\nopen smtp 1\n  257 220 node1 Porcupine ready\nopen smtp 1\n  ! line 265 TooManySessions\n",
];

#[test]
fn run_lines_are_refused(rt: HostRuntime) -> Result<(), Fail> {
    each_case(&rt, rt.alloc(), PLAN, FAULTS)?;
    for lines in AMONG_MANY {
        ends_among_many(&rt, rt.alloc(), lines)?;
    }
    Ok(())
}
