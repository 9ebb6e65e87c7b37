// Messages are deleted by a QUIT, and by nothing else.

use super::faults::{calls_of, fails};
use super::store::Journal;
use super::{PLAN, leaves};
use node_disk::Image;
use std::alloc::Global;
use std::test::Fail;

const TWO_USERS: &[u8] = b"\
nodes 1
copies 1 1
buckets 16
user alice tanstaaf
user bob sesame
postmaster alice
go
";

// The first message is for both users, and the next two are alice's.
const THREE_MESSAGES: &[u8] = b"\
open smtp 1
  1 220 node1 Porcupine ready
say 1 HELO c.example
  1 250 node1
say 1 MAIL FROM:<>
  1 250 sender ok
say 1 RCPT TO:<alice>
  1 250 recipient ok
say 1 RCPT TO:<bob>
  1 250 recipient ok
say 1 DATA
  1 354 end with a line that is a single period
say 1 one
say 1 .
  1 250 stored
say 1 MAIL FROM:<>
  1 250 sender ok
say 1 RCPT TO:<alice>
  1 250 recipient ok
say 1 DATA
  1 354 end with a line that is a single period
say 1 second
say 1 .
  1 250 stored
say 1 MAIL FROM:<>
  1 250 sender ok
say 1 RCPT TO:<alice>
  1 250 recipient ok
say 1 DATA
  1 354 end with a line that is a single period
say 1 three!!
say 1 .
  1 250 stored
";

const DELETING: &[u8] = b"\
open pop 1
  2 +OK node1 ready <1.2.0@node1>
say 2 DELE 1
  2 -ERR bad order
say 2 USER alice
  2 +OK send PASS
say 2 PASS tanstaaf
  2 +OK maildrop open
say 2 DELE
  2 -ERR bad argument
say 2 DELE 1 2
  2 -ERR bad argument
say 2 DELE one
  2 -ERR bad argument
say 2 DELE 0
  2 -ERR no such message
say 2 DELE 4
  2 -ERR no such message
say 2 dele 1
  2 +OK message 1 deleted
say 2 DELE 1
  2 -ERR no such message
say 2 STAT
  2 +OK 2 249
say 2 LIST
  2 +OK listing
  2 2 124
  2 3 125
  2 .
say 2 UIDL
  2 +OK unique ids
  2 2 1.1.2
  2 3 1.1.3
  2 .
say 2 LIST 1
  2 -ERR no such message
say 2 UIDL 1
  2 -ERR no such message
say 2 RETR 1
  2 -ERR no such message
say 2 LIST 3
  2 +OK 3 125
say 2 DELE 3
  2 +OK message 3 deleted
say 2 LIST
  2 +OK listing
  2 2 124
  2 .
regroup 1
  * epoch 2.1 members 1
open pop 1
  3 +OK node1 ready <1.3.0@node1>
say 3 USER alice
  3 +OK send PASS
say 3 PASS tanstaaf
  3 +OK maildrop open
say 3 STAT
  3 +OK 3 370
say 2 QUIT
  2 +OK bye
  * 2 closed
";

// Another session, which an epoch let in beside the first, lists what was there at its login, and is told that a message is gone. It
// may delete what is gone already.
const OTHERS: &[u8] = b"\
say 3 RETR 1
  3 -ERR message was deleted
say 3 DELE 1
  3 +OK message 1 deleted
say 3 RETR 2
  3 +OK 124 octets
  3 Return-Path: <>
  3 Received: from c.example
  3  by node1 with SMTP id <1.1.2@node1>;
  3  Thu, 01 Jan 1970 00:00:00 +0000
  3 second
  3 .
say 3 QUIT
  3 +OK bye
  * 3 closed
open pop 1
  4 +OK node1 ready <1.4.0@node1>
say 4 USER alice
  4 +OK send PASS
say 4 PASS tanstaaf
  4 +OK maildrop open
say 4 UIDL
  4 +OK unique ids
  4 1 1.1.2
  4 .
say 4 QUIT
  4 +OK bye
  * 4 closed
open pop 1
  5 +OK node1 ready <1.5.0@node1>
say 5 USER bob
  5 +OK send PASS
say 5 PASS sesame
  5 +OK maildrop open
say 5 UIDL
  5 +OK unique ids
  5 1 1.1.1
  5 .
say 5 RETR 1
  5 +OK 121 octets
  5 Return-Path: <>
  5 Received: from c.example
  5  by node1 with SMTP id <1.1.1@node1>;
  5  Thu, 01 Jan 1970 00:00:00 +0000
  5 one
  5 .
say 5 QUIT
  5 +OK bye
  * 5 closed
say 1 MAIL FROM:<>
  1 250 sender ok
say 1 RCPT TO:<bob>
  1 250 recipient ok
say 1 DATA
  1 354 end with a line that is a single period
say 1 .
  1 250 stored
end
";

// A session that marks, and then does not quit: its client closes it, or the tape ends.
const CLOSING: &[u8] = b"\
open pop 1
  2 +OK node1 ready <1.2.0@node1>
say 2 USER alice
  2 +OK send PASS
say 2 PASS tanstaaf
  2 +OK maildrop open
say 2 DELE 2
  2 +OK message 2 deleted
feed 2 515549540d
close 2
open pop 1
  3 +OK node1 ready <1.3.0@node1>
say 3 QUIT
  3 +OK bye
  * 3 closed
open pop 1
  4 +OK node1 ready <1.4.0@node1>
say 4 USER alice
  4 +OK send PASS
say 4 PASS tanstaaf
  4 +OK maildrop open
say 4 STAT
  4 +OK 3 370
say 4 DELE 1
  4 +OK message 1 deleted
end
";

const STORED: &[u8] = b"\
open smtp 1
  1 220 node1 Porcupine ready
say 1 HELO c.example
  1 250 node1
say 1 MAIL FROM:<>
  1 250 sender ok
say 1 RCPT TO:<alice>
  1 250 recipient ok
say 1 DATA
  1 354 end with a line that is a single period
say 1 .
  1 250 stored
";

const MARKED: &[u8] = b"\
open pop 1
  2 +OK node1 ready <1.2.0@node1>
say 2 USER alice
  2 +OK send PASS
say 2 PASS tanstaaf
  2 +OK maildrop open
say 2 DELE 1
  2 +OK message 1 deleted
say 2 QUIT
";

const FALLEN: &[u8] = b"  * fault 1
  1 421 node1 down
  * 1 closed
  2 -ERR [SYS/TEMP] node1 down
  * 2 closed
open pop 1
  ! line 18 NodeDown
";

// The journal of the three messages.
fn three_messages(alloc: Global) -> Result<Journal, Fail> {
    let mut journal = Journal::new(alloc)?;
    let both: [&[u8]; 2] = [b"alice", b"bob"];
    journal.message(b"", b"c.example", &both, b"one\r\n")?;
    journal.message(b"", b"c.example", &[b"alice"], b"second\r\n")?;
    journal.message(b"", b"c.example", &[b"alice"], b"three!!\r\n")?;
    Ok(journal)
}

// That of a QUIT after them, and of a message that comes then.
fn deleted(alloc: Global) -> Result<Journal, Fail> {
    let mut journal = three_messages(alloc)?;
    journal.promise(2)?;
    for number in [1, 3, 1] {
        journal.gone(b"alice", number)?;
    }
    journal.message(b"", b"c.example", &[b"bob"], b"")?;
    Ok(journal)
}

#[test]
fn a_quit_deletes_what_its_session_marked(rt: HostRuntime) -> Result<(), Fail> {
    let alloc = rt.alloc();
    let quits = [TWO_USERS, THREE_MESSAGES, DELETING, OTHERS];
    leaves(&rt, alloc, &quits, 0, &deleted(alloc)?)?;
    // A session that does not quit deletes nothing.
    let closes = [TWO_USERS, THREE_MESSAGES, CLOSING];
    leaves(&rt, alloc, &closes, 0, &three_messages(alloc)?)
}

const DONE: &[u8] = b"  2 +OK bye\n  * 2 closed\nend\n";

#[test]
fn a_disk_fault_in_a_deletion_takes_the_node_down(rt: HostRuntime) -> Result<(), Fail> {
    let alloc = rt.alloc();
    let mut journal = Journal::new(alloc)?;
    journal.message(b"", b"c.example", &[b"alice"], b"")?;
    let stored = calls_of(&rt, alloc, &[PLAN, STORED, b"end\n"])?;
    let deleted = calls_of(&rt, alloc, &[PLAN, STORED, MARKED, DONE])?;
    assert!(rt; stored < deleted);
    for failing in stored + 1..=deleted {
        for image in [
            Image::Nothing,
            Image::Front(5),
            Image::All,
            Image::Garbage(0),
        ] {
            let pieces = [PLAN, STORED, MARKED, FALLEN];
            fails(&rt, alloc, &pieces, failing, image, &journal)?;
        }
    }
    journal.gone(b"alice", 1)?;
    leaves(&rt, alloc, &[PLAN, STORED, MARKED, DONE], 0, &journal)
}
