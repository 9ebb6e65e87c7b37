// Command lines in every order and spelling, and their replies.

use super::store::Journal;
use super::{PLAN, Script, leaves};
use std::alloc::{AllocError, Global};
use std::test::Fail;

const SPELLINGS: &[u8] = b"\
nodes 1
copies 1 1
buckets 1024
user alice tanstaaf
user Bob@B.Example x
user \"q\" x
user postmaster x
postmaster alice
go
open smtp 1
  1 220 node1 Porcupine ready
say 1
  1 500 unknown command
say 1\x20
  1 500 unknown command
say 1  HELO c.example
  1 500 unknown command
say 1 \tHELO c.example
  1 500 unknown command
say 1 HELO\tc.example
  1 500 unknown command
say 1 HELOc.example
  1 500 unknown command
say 1 HEL0 c.example
  1 500 unknown command
say 1 HEL c.example
  1 500 unknown command
say 1 MAILFROM:<bob>
  1 500 unknown command
say 1 MAIL\tFROM:<bob>
  1 500 unknown command
say 1 DATA\tx
  1 500 unknown command
say 1 DATA\r\r
  1 500 unknown command
say 1 \rQUIT
  1 500 unknown command
say 1 QUIT\0
  1 500 unknown command
say 1 \0
  1 500 unknown command
say 1 \xC8ELO c.example
  1 500 unknown command
say 1 \x7F\x80\xFF
  1 500 unknown command
say 1 .
  1 500 unknown command
say 1 HELO
  1 501 bad argument
say 1 HELO \t \t
  1 501 bad argument
say 1 HELO c example
  1 501 bad argument
say 1 HELO c\texample
  1 501 bad argument
say 1 HELO c\rexample
  1 501 bad argument
say 1 HELO c.example\r\r
  1 501 bad argument
say 1 HELO c\0example
  1 501 bad argument
say 1 HELO c\x7Fexample
  1 501 bad argument
say 1 HELO \xE9xample
  1 501 bad argument
say 1 MAIL
  1 501 bad argument
say 1 MAIL FROM:
  1 501 bad argument
say 1 MAIL FROM:bob
  1 501 bad argument
say 1 MAIL FROM <bob>
  1 501 bad argument
say 1 MAIL FROM :<bob>
  1 501 bad argument
say 1 MAIL TO:<bob>
  1 501 bad argument
say 1 MAIL FROM:\t<bob>
  1 501 bad argument
say 1 MAIL FROM:<bob
  1 501 bad argument
say 1 MAIL FROM:bob>
  1 501 bad argument
say 1 MAIL FROM:<<bob>
  1 501 bad argument
say 1 MAIL FROM:<bob>>
  1 501 bad argument
say 1 MAIL FROM:<bob>x
  1 501 bad argument
say 1 MAIL FROM:<bob>\tx
  1 501 bad argument
say 1 MAIL FROM:<bo\tb>
  1 501 bad argument
say 1 MAIL FROM:<bo\x7Fb>
  1 501 bad argument
say 1 MAIL FROM:<bo\xFFb>
  1 501 bad argument
say 1 MAIL FROM:<bo\0b>
  1 501 bad argument
say 1 MAIL FROM:<bo\rb>
  1 501 bad argument
say 1 MAIL FROM:<bob>\r\r
  1 501 bad argument
say 1 MAIL FROM:<@gate>
  1 501 bad argument
say 1 MAIL FROM:<@gate:>
  1 501 bad argument
say 1 RCPT
  1 501 bad argument
say 1 RCPT FROM:<alice>
  1 501 bad argument
say 1 RCPT TO:alice
  1 501 bad argument
say 1 RCPT TO:<>
  1 501 bad argument
say 1 RCPT TO:<@gate:>
  1 501 bad argument
say 1 DATA x
  1 501 bad argument
say 1 DATA  \tx
  1 501 bad argument
say 1 QUIT now
  1 501 bad argument
say 1 mail from:<bob>
  1 503 bad order
say 1 RCPT TO:<nobody>
  1 503 bad order
say 1 DATA
  1 503 bad order
say 1 hElO   first.example \t\x20
  1 250 node1
say 1 RCPT TO:<alice>
  1 503 bad order
say 1 dAtA
  1 503 bad order
say 1 mAIL    fROM:   <@gate,@way:Joe: @ home>\t
  1 250 sender ok
say 1 MAIL FROM:<>
  1 503 bad order
say 1 DATA
  1 503 bad order
say 1 RCPT TO:<nobody>
  1 550 no such mailbox
say 1 RCPT TO:<\"alice\">
  1 550 no such mailbox
say 1 RCPT TO:< alice>
  1 550 no such mailbox
say 1 RCPT TO:<alice >
  1 550 no such mailbox
say 1 RCPT TO:<@gate:@way:alice>
  1 550 no such mailbox
say 1 RCPT TO:<\"post master\"@b.example>
  1 550 no such mailbox
say 1 DATA
  1 503 bad order
say 1 rcpt   to:   <bOB@b.eXAMPLE>\x20
  1 250 recipient ok
say 1 HELO second.example
  1 250 node1
say 1 RCPT TO:<alice>
  1 503 bad order
say 1 DATA
  1 503 bad order
say 1 MAIL FROM:<@gate,@way:Joe: @ home>
  1 250 sender ok
say 1 RCPT TO:<PostMaster>
  1 250 recipient ok
say 1 RCPT TO:<@gate:\"Q\">
  1 250 recipient ok
say 1 RCPT TO:<ALICE>
  1 250 recipient ok
say 1 FOO
  1 500 unknown command
say 1 RCPT TO:<nobody>
  1 550 no such mailbox
say 1 data \t
  1 354 end with a line that is a single period
say 1 HELO third.example
say 1 .
  1 250 stored
say 1 RCPT TO:<alice>
  1 503 bad order
say 1 DATA
  1 503 bad order
say 1 MAIL FROM:<>
  1 250 sender ok
say 1 RCPT TO:<bob@b.example>
  1 250 recipient ok
say 1 Data
  1 354 end with a line that is a single period
say 1 .
  1 250 stored
say 1 qUIT\t
  1 221 node1 closing
  * 1 closed
end
";

// What stands before and after so many letters at most, and the replies to so many and to one more.
const LIMITS: [(&[u8], &[u8], usize, &[u8], &[u8]); 7] = [
    (b"", b"", 1022, UNKNOWN, LONG),
    (b"DATA ", b"", 1017, BAD, LONG),
    (b"HELO ", b"", 255, b"250 node1", BAD),
    (b"MAIL FROM:<", b">", 512, b"250 sender ok", BAD),
    (b"RCPT TO:<", b">", 512, NONE, BAD),
    (b"RCPT TO:<@gate:", b">", 512, NONE, BAD),
    (b"RCPT TO:<@", b":alice>", 1005, b"250 recipient ok", LONG),
];

// The greatest size that MAIL may name, and one more.
const SIZES: &[u8] = b"\
open smtp 1
  1 220 node1 Porcupine ready
say 1 HELO c.example
  1 250 node1
say 1 MAIL FROM:<> SIZE=16777216
  1 250 sender ok
say 1 RSET
  1 250 reset
say 1 MAIL FROM:<> SIZE=16777217
  1 552 message too large
";

// A source route is left out of what is stored, and a parameter of RCPT and EXPN change nothing.
const ROUTED: &[u8] = b"\
open smtp 1
  1 220 node1 Porcupine ready
say 1 HELO c.example
  1 250 node1
say 1 MAIL FROM:<@x.example:bob@b.example> BODY=8bitmime
  1 250 sender ok
say 1 RCPT TO:<POSTMASTER>
  1 250 recipient ok
say 1 RCPT TO:<alice> NOTIFY=NEVER
  1 555 parameter not known
say 1 EXPN
  1 502 not done here
say 1 DATA
  1 354 end with a line that is a single period
say 1 Subject: hi
say 1
say 1 hello
say 1 .
  1 250 stored
say 1 QUIT
  1 221 node1 closing
  * 1 closed
open pop 1
  2 +OK node1 ready <1.2.0@node1>
say 2 USER alice
  2 +OK send PASS
say 2 PASS tanstaaf
  2 +OK maildrop open
say 2 RETR 1
  2 +OK 151 octets
  2 Return-Path: <bob@b.example>
  2 Received: from c.example
  2  by node1 with SMTP id <1.1.1@node1>;
  2  Thu, 01 Jan 1970 00:00:00 +0000
  2 Subject: hi
  2 
  2 hello
  2 .
end
";

const UNKNOWN: &[u8] = b"500 unknown command";

const BAD: &[u8] = b"501 bad argument";

const NONE: &[u8] = b"550 no such mailbox";

const LONG: &[u8] = b"500 line too long";

// Adds a command of so many letters between these, and its reply.
fn say(
    script: &mut Script,
    front: &[u8],
    count: usize,
    back: &[u8],
    reply: &[u8],
) -> Result<(), AllocError> {
    script.tape.extend_from_slice(b"say 1 ")?;
    script.tape.extend_from_slice(front)?;
    for _ in 0..count {
        script.tape.push(b'a')?;
    }
    script.tape.extend_from_slice(back)?;
    script.tape.push(b'\n')?;
    script.wanted.extend_from_slice(b"1 ")?;
    script.wanted.extend_from_slice(reply)?;
    script.wanted.extend_from_slice(b"\n")
}

fn say_limits(script: &mut Script) -> Result<(), AllocError> {
    for (front, back, most, taken, refused) in LIMITS {
        say(script, front, most + 1, back, refused)?;
        say(script, front, most, back, taken)?;
    }
    script.add(b"end\n")
}

#[test]
fn command_lines_have_greatest_lengths(rt: HostRuntime) -> Result<(), Fail> {
    let opened: &[u8] = b"open smtp 1\n  1 220 node1 Porcupine ready\n";
    let mut script = Script::new(rt.alloc(), &[PLAN, opened])?;
    say_limits(&mut script)?;
    script.run(&rt, 0)?;
    Ok(())
}

fn say_sizes(script: &mut Script) -> Result<(), AllocError> {
    script.add(SIZES)?;
    say(script, b"NOOP ", 1017, b"", b"250 ok")?;
    say(script, b"NOOP ", 1018, b"", LONG)?;
    script.add(b"end\n")
}

#[test]
fn sizes_and_lines_are_taken_to_their_limit(rt: HostRuntime) -> Result<(), Fail> {
    let mut script = Script::new(rt.alloc(), &[PLAN])?;
    say_sizes(&mut script)?;
    script.run(&rt, 0)?;
    Ok(())
}

// The journal of the message with a source route.
fn routed(alloc: Global) -> Result<Journal, Fail> {
    let mut journal = Journal::new(alloc)?;
    let text: &[u8] = b"Subject: hi\r\n\r\nhello\r\n";
    journal.message(b"bob@b.example", b"c.example", &[b"alice"], text)?;
    Ok(journal)
}

#[test]
fn a_source_route_is_not_stored(rt: HostRuntime) -> Result<(), Fail> {
    leaves(&rt, rt.alloc(), &[PLAN, ROUTED], 0, &routed(rt.alloc())?)
}

// The journal of the messages of all spellings.
fn stored(alloc: Global) -> Result<Journal, Fail> {
    let mut journal = Journal::new(alloc)?;
    let helo: &[u8] = b"second.example";
    let users: [&[u8]; 2] = [b"alice", b"\"q\""];
    journal.message(b"Joe: @ home", helo, &users, b"HELO third.example\r\n")?;
    journal.message(b"", helo, &[b"bob@b.example"], b"")?;
    Ok(journal)
}

#[test]
fn each_command_is_answered(rt: HostRuntime) -> Result<(), Fail> {
    leaves(&rt, rt.alloc(), &[SPELLINGS], 0, &stored(rt.alloc())?)
}
