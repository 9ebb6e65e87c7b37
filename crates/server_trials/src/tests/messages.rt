// Messages that are stored, and what the store holds of them.

use super::store::Journal;
use super::{PLAN, Script, joined, leaves, repeated};
use std::alloc::{AllocError, Global};
use std::process::Abort;
use std::test::Fail;

const BEGIN: &[u8] = b"\
open smtp 1
  1 220 node1 Porcupine ready
say 1 HELO c.example
  1 250 node1
";

const ENVELOPE: &[u8] = b"\
say 1 MAIL FROM:<bob@b.example>
  1 250 sender ok
say 1 RCPT TO:<alice>
  1 250 recipient ok
say 1 DATA
  1 354 end with a line that is a single period
";

const STORED: &[u8] = b"\
say 1 .
  1 250 stored
";

// Lines that are no end of the text, and octets of every kind.
const LINES: &[u8] = b"\
say 1 ...
say 1 .a
say 1 .\x20
say 1 .\r\r
say 1  .
say 1 x\r.\ry
say 1 \r
say 1
say 1\x20
say 1 a\0b\x07\x7F\x80\xFF\t\x20
say 1 QUIT
";

const TEXT: &[u8] =
    b"..\r\na\r\n \r\n\r\r\n .\r\nx\r.\ry\r\n\r\n\r\n\r\na\0b\x07\x7F\x80\xFF\t \r\nQUIT\r\n";

const BOTH: &[u8] = b"\
nodes 1
copies 1 1
buckets 7
user alice x
user bob x
postmaster bob
go
open smtp 1
  1 220 node1 Porcupine ready
open smtp 1
  2 220 node1 Porcupine ready
say 2 HELO two.example
  2 250 node1
say 1 HELO one.example
  1 250 node1
say 1 MAIL FROM:<a@one>
  1 250 sender ok
say 2 MAIL FROM:<b@two>
  2 250 sender ok
say 2 RCPT TO:<bob>
  2 250 recipient ok
say 1 RCPT TO:<alice>
  1 250 recipient ok
say 2 RCPT TO:<alice>
  2 250 recipient ok
say 1 DATA
  1 354 end with a line that is a single period
say 2 DATA
  2 354 end with a line that is a single period
say 1 first of one
say 2 first of two
say 2 .
  2 250 stored
say 2 MAIL FROM:<>
  2 250 sender ok
say 1 HELO in.the.text
say 1 .
  1 250 stored
say 1 MAIL FROM:<@gate,@way:c@one>
  1 250 sender ok
say 2 RCPT TO:<POSTMASTER>
  2 250 recipient ok
say 1 RCPT TO:<ALICE>
  1 250 recipient ok
say 1 RCPT TO:<postmaster>
  1 250 recipient ok
say 1 RCPT TO:<bob>
  1 250 recipient ok
say 2 DATA
  2 354 end with a line that is a single period
say 1 DATA
  1 354 end with a line that is a single period
say 1 .
  1 250 stored
say 1 QUIT
  1 221 node1 closing
  * 1 closed
say 2 second of two
say 2 .
  2 250 stored
say 2 HELO three.example
  2 250 node1
say 2 MAIL FROM:<d@two>
  2 250 sender ok
say 2 RCPT TO:<@relay:Bob>
  2 250 recipient ok
say 2 DATA
  2 354 end with a line that is a single period
say 2 third of two
say 2 .
  2 250 stored
end
";

// Lines of the tape that say a text, and the text.
type Message<'a> = (&'a [u8], &'a [u8]);

// One session sends these messages.
fn sent(alloc: Global, messages: &[Message]) -> Result<Script, AllocError> {
    let mut script = Script::new(alloc, &[PLAN, BEGIN])?;
    for (lines, _) in messages {
        for part in [ENVELOPE, *lines, STORED] {
            script.add(part)?;
        }
    }
    script.add(b"end\n")?;
    Ok(script)
}

// What they leave.
fn left(alloc: Global, messages: &[Message]) -> Result<Journal, Fail> {
    let mut journal = Journal::new(alloc)?;
    for (_, text) in messages {
        journal.message(b"bob@b.example", b"c.example", &[b"alice"], text)?;
    }
    Ok(journal)
}

// One session sends these messages; the store then has so many octets.
fn stores(rt: &impl Abort, alloc: Global, messages: &[Message]) -> Result<usize, Fail> {
    let script = sent(alloc, messages)?;
    let journal = left(alloc, messages)?;
    let run = script.run(rt, 0)?;
    journal.is_held(rt, run.disk.octets());
    Ok(run.disk.octets().len())
}

// The longest line that a line of a tape can say.
fn stores_a_long_line(rt: &impl Abort, alloc: Global) -> Result<usize, Fail> {
    let line = repeated(alloc, b'y', 65_529)?;
    let said = joined(alloc, &[b"say 1 ", &line, b"\n"])?;
    let text = joined(alloc, &[&line, b"\r\n"])?;
    stores(rt, alloc, &[(&said, &text)])
}

const HELLO: [Message; 1] = [(
    b"say 1 Subject: hi\nsay 1\nsay 1 hello\n",
    b"Subject: hi\r\n\r\nhello\r\n",
)];

const THREE: [Message; 3] = [
    (b"say 1 ..\n", b".\r\n"),
    (LINES, TEXT),
    (b"say 1 ..\nsay 1 .\r.\n", b".\r\n\r.\r\n"),
];

#[test]
fn texts_are_stored_octet_for_octet(rt: HostRuntime) -> Result<(), Fail> {
    let alloc = rt.alloc();
    // A message has 129 octets besides its text, and besides one message the store has 145.
    assert_eq!(rt; stores(&rt, alloc, &[(b"", b"")])?, 274);
    assert_eq!(rt; stores(&rt, alloc, &HELLO)?, 296);
    stores(&rt, alloc, &THREE)?;
    stores_a_long_line(&rt, alloc)?;
    Ok(())
}

// The journal of both sessions.
fn of_both(alloc: Global) -> Result<Journal, Fail> {
    let mut journal = Journal::new(alloc)?;
    let one: &[u8] = b"one.example";
    let two: &[u8] = b"two.example";
    let both: [&[u8]; 2] = [b"bob", b"alice"];
    journal.message(b"b@two", two, &both, b"first of two\r\n")?;
    let text: &[u8] = b"first of one\r\nHELO in.the.text\r\n";
    journal.message(b"a@one", one, &[b"alice"], text)?;
    journal.message(b"c@one", one, &[b"alice", b"bob"], b"")?;
    journal.message(b"", two, &[b"bob"], b"second of two\r\n")?;
    journal.message(b"d@two", b"three.example", &[b"bob"], b"third of two\r\n")?;
    Ok(journal)
}

#[test]
fn two_sessions_take_turns(rt: HostRuntime) -> Result<(), Fail> {
    leaves(&rt, rt.alloc(), &[BOTH], 0, &of_both(rt.alloc())?)
}

// A text of 16,384 lines of 1,024 octets each with their CRLF, the first of which has this octet more.
fn large(alloc: Global, octet: u8) -> Result<Vec<u8>, AllocError> {
    let line = repeated(alloc, b'x', 1022)?;
    let mut lines = joined(alloc, &[b"say 1 ", &[octet], &line, b"\n"])?;
    for _ in 1..16_384u32 {
        lines.extend_from_slice(b"say 1 ")?;
        lines.extend_from_slice(&line)?;
        lines.push(b'\n')?;
    }
    Ok(lines)
}

// What such a text leaves where the octet is a period.
fn largest(alloc: Global) -> Result<Vec<u8>, AllocError> {
    let mut line = repeated(alloc, b'x', 1022)?;
    line.extend_from_slice(b"\r\n")?;
    let mut text = Vec::new(alloc);
    for _ in 0..16_384u32 {
        text.extend_from_slice(&line)?;
    }
    Ok(text)
}

const TOO_LARGE: &[u8] = b"\
say 1 .
  1 552 message too large
say 1 DATA
  1 503 bad order
";

// The journal of a largest text, and of none.
fn of_largest(alloc: Global) -> Result<Journal, Fail> {
    let text = largest(alloc)?;
    left(alloc, &[(b"", &text), (b"", b"")])
}

#[test]
fn texts_have_a_greatest_length(rt: HostRuntime) -> Result<(), Fail> {
    let alloc = rt.alloc();
    let most = large(alloc, b'.')?;
    let more = large(alloc, b'x')?;
    let journal = of_largest(alloc)?;
    leaves(
        &rt,
        alloc,
        &[
            PLAN, BEGIN, ENVELOPE, &most, STORED, ENVELOPE, &more, TOO_LARGE, ENVELOPE, STORED,
            b"end\n",
        ],
        0,
        &journal,
    )
}
