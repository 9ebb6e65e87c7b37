// Mail that is sent and read back by POP3, in whatever pieces the octets of the sessions come.

use super::{PLAN, Script, joined, repeated};
use std::alloc::{AllocError, Global};
use std::process::Abort;
use std::test::Fail;

const DIGITS: &[u8; 16] = b"0123456789aBcDeF";

// Adds the run lines that feed these octets to the session, so many in each.
fn feed(script: &mut Script, session: &[u8], octets: &[u8], size: usize) -> Result<(), AllocError> {
    for piece in octets.chunks(size.max(1)) {
        script.tape.extend_from_slice(b"feed ")?;
        script.tape.extend_from_slice(session)?;
        script.tape.extend_from_slice(b" ")?;
        for octet in piece {
            script.tape.push(DIGITS[(octet / 16) as usize])?;
            script.tape.push(DIGITS[(octet % 16) as usize])?;
        }
        script.tape.extend_from_slice(b"\n")?;
    }
    Ok(())
}

const OPEN_SMTP: &[u8] = b"\
open smtp 1
  1 220 node1 Porcupine ready
";

const SENT: &[u8] = b"HELO c.example\r\nMAIL FROM:<bob@b.example>\r\nRCPT TO:<alice>\r\nDATA\r\n\
Subject: hi\r\n\r\nhello\r\n.\r\nQUIT\r\n";

const SENT_REPLIES: &[u8] = b"  1 250 node1
  1 250 sender ok
  1 250 recipient ok
  1 354 end with a line that is a single period
  1 250 stored
  1 221 node1 closing
  * 1 closed
";

const OPEN_POP: &[u8] = b"\
open pop 1
  2 +OK node1 ready <1.2.0@node1>
";

const READ: &[u8] = b"USER alice\r\nPASS tanstaaf\r\nSTAT\r\nLIST\r\nRETR 1\r\nQUIT\r\n";

const READ_REPLIES: &[u8] = b"  2 +OK send PASS
  2 +OK maildrop open
  2 +OK 1 151
  2 +OK listing
  2 1 151
  2 .
  2 +OK 151 octets
  2 Return-Path: <bob@b.example>
  2 Received: from c.example
  2  by node1 with SMTP id <1.1.1@node1>;
  2  Thu, 01 Jan 1970 00:00:00 +0000
  2 Subject: hi
  2 \n  2 hello
  2 .
  2 +OK bye
  * 2 closed
";

// Many commands in one piece. What comes after the end of a session is ignored.
const AT_ONCE: &[u8] =
    b"HELO c.example\r\nMAIL FROM:<>\r\nRCPT TO:<alice>\r\nDATA\r\nfirst\r\n.\r\n\
MAIL FROM:<>\r\nRCPT TO:<alice>\r\nDATA\r\nsecond\r\n.\r\nQUIT\r\nNOOP\r\n";

const AT_ONCE_REPLIES: &[u8] = b"  1 250 node1
  1 250 sender ok
  1 250 recipient ok
  1 354 end with a line that is a single period
  1 250 stored
  1 250 sender ok
  1 250 recipient ok
  1 354 end with a line that is a single period
  1 250 stored
  1 221 node1 closing
  * 1 closed
";

const READ_AT_ONCE: &[u8] = b"USER alice\r\nPASS tanstaaf\r\nSTAT\r\nUIDL\r\nQUIT\r\nSTAT\r\n";

const READ_AT_ONCE_REPLIES: &[u8] = b"  2 +OK send PASS
  2 +OK maildrop open
  2 +OK 2 247
  2 +OK unique ids
  2 1 1.1.1
  2 2 1.1.2
  2 .
  2 +OK bye
  * 2 closed
";

const ENVELOPE: &[u8] =
    b"HELO c.example\r\nMAIL FROM:<bob@b.example>\r\nRCPT TO:<alice>\r\nDATA\r\n";

const ENVELOPE_REPLIES: &[u8] = b"  1 250 node1
  1 250 sender ok
  1 250 recipient ok
  1 354 end with a line that is a single period
  1 250 stored
";

const LOGIN: &[u8] = b"USER alice\r\nPASS tanstaaf\r\nRETR 1\r\n";

const LOGIN_REPLIES: &[u8] = b"  2 +OK send PASS
  2 +OK maildrop open
";

const TRACE_LINES: &[u8] = b"  2 Return-Path: <bob@b.example>
  2 Received: from c.example
  2  by node1 with SMTP id <1.1.1@node1>;
  2  Thu, 01 Jan 1970 00:00:00 +0000
";

// Adds a session of each kind, with what they feed, in pieces of so many octets, and what that leads to.
fn hear(
    script: &mut Script,
    sent: [&[u8]; 2],
    read: [&[u8]; 2],
    size: usize,
) -> Result<(), AllocError> {
    script.add(OPEN_SMTP)?;
    feed(script, b"1", sent[0], size)?;
    script.add(sent[1])?;
    script.add(OPEN_POP)?;
    feed(script, b"2", read[0], size)?;
    script.add(read[1])?;
    script.add(b"end\n")
}

fn hears(
    rt: &impl Abort,
    alloc: Global,
    sent: [&[u8]; 2],
    read: [&[u8]; 2],
    size: usize,
) -> Result<(), Fail> {
    let mut script = Script::new(alloc, &[PLAN])?;
    hear(&mut script, sent, read, size)?;
    script.run(rt, 0)?;
    Ok(())
}

// What RETR shows of a text: how long the message is, and these lines.
fn shown_as(alloc: Global, length: &[u8], shown: &[u8]) -> Result<Vec<u8>, AllocError> {
    let front = joined(alloc, &[LOGIN_REPLIES, b"  2 +OK ", length, b" octets\n"])?;
    joined(alloc, &[&front, TRACE_LINES, shown, b"  2 .\n"])
}

// A text as its client sends it, through the line that is one period, how long the message is then, and the lines that
// RETR shows of it.
fn comes_back(
    rt: &impl Abort,
    alloc: Global,
    text: &[u8],
    length: &[u8],
    shown: &[u8],
    size: usize,
) -> Result<(), Fail> {
    let sent = joined(alloc, &[ENVELOPE, text])?;
    let replies = shown_as(alloc, length, shown)?;
    hears(
        rt,
        alloc,
        [&sent, ENVELOPE_REPLIES],
        [LOGIN, &replies],
        size,
    )
}

// Texts, how long their messages are, of which 129 octets are trace lines, and what is shown of them.
const TEXTS: [(&[u8], &[u8], &[u8]); 12] = [
    (b".\r\n", b"129", b""),
    (b"\r\n.\r\n", b"131", b"  2 \n"),
    // A period that leads a longer line is doubled on its way, in both directions.
    (
        b"..\r\n.a\r\nx\n.\ny\r\n.\r\n",
        b"142",
        b"  2 ..\n  2 a\n  2 x\\x0A.\\x0Ay\n",
    ),
    (
        b"..\r\n...\r\n....\r\n.\r\n",
        b"141",
        b"  2 ..\n  2 ...\n  2 ....\n",
    ),
    (b"..x\r\n. \r\n.\r\n", b"136", b"  2 ..x\n  2  \n"),
    // None of these ends a text.
    (b"a\n.\nb\r\n.\r\n", b"136", b"  2 a\\x0A.\\x0Ab\n"),
    (b"a\r.\rb\r\n.\r\n", b"136", b"  2 a\\x0D.\\x0Db\n"),
    (b"a\n.\r\nb\r\n.\r\n", b"137", b"  2 a\\x0A.\n  2 b\n"),
    (b"a\r\n.\nb\r\n.\r\n", b"136", b"  2 a\n  2 \\x0Ab\n"),
    (b"a\r\n.\rb\r\n.\r\n", b"136", b"  2 a\n  2 \\x0Db\n"),
    // Octets of every kind; a text goes on until the line that is one period.
    (
        b"\0\x01\x7F\x80\xFF\t\\\r\r\n.\r\n",
        b"139",
        b"  2 \\x00\\x01\\x7F\\x80\\xFF\\x09\\x5C\\x0D\n",
    ),
    (b"no end.\r\n.\r\n", b"138", b"  2 no end.\n"),
];

#[test]
fn pieces_of_any_size_are_heard_alike(rt: HostRuntime) -> Result<(), Fail> {
    let alloc = rt.alloc();
    for size in [1, 2, 7, 1_000] {
        hears(&rt, alloc, [SENT, SENT_REPLIES], [READ, READ_REPLIES], size)?;
        for (text, length, shown) in TEXTS {
            comes_back(&rt, alloc, text, length, shown, size)?;
        }
    }
    let sent = [AT_ONCE, AT_ONCE_REPLIES];
    hears(
        &rt,
        alloc,
        sent,
        [READ_AT_ONCE, READ_AT_ONCE_REPLIES],
        1_000,
    )
}

#[test]
fn a_line_of_100_000_octets_comes_back(rt: HostRuntime) -> Result<(), Fail> {
    let alloc = rt.alloc();
    let line = repeated(alloc, b'y', 100_000)?;
    let text = joined(alloc, &[&line, b"\r\n.\r\n"])?;
    let shown = joined(alloc, &[b"  2 ", &line, b"\n"])?;
    comes_back(&rt, alloc, &text, b"100131", &shown, 32_000)
}
