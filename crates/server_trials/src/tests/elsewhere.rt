// Messages that are read and deleted at a node that has none of them.

use super::each_case;
use std::test::Fail;

// One message is at each of the nodes 1, 2 and 3, and it is read at node 4.
const AT_A_FOURTH: &[u8] = b"\
nodes 4
copies 1 1
buckets 1
user alice tanstaaf
postmaster alice
go
open smtp 3
  1 220 node3 Porcupine ready
say 1 HELO c.example
  1 250 node3
say 1 MAIL FROM:<>
  1 250 sender ok
say 1 RCPT TO:<alice>
  1 250 recipient ok
say 1 DATA
  1 354 end with a line that is a single period
say 1 three!!
say 1 .
  1 250 stored
open smtp 2
  2 220 node2 Porcupine ready
say 2 HELO c.example
  2 250 node2
say 2 MAIL FROM:<>
  2 250 sender ok
say 2 RCPT TO:<alice>
  2 250 recipient ok
say 2 DATA
  2 354 end with a line that is a single period
say 2 second
say 2 .
  2 250 stored
open smtp 1
  3 220 node1 Porcupine ready
say 3 HELO c.example
  3 250 node1
say 3 MAIL FROM:<>
  3 250 sender ok
say 3 RCPT TO:<alice>
  3 250 recipient ok
say 3 DATA
  3 354 end with a line that is a single period
say 3 one
say 3 .
  3 250 stored
settle
  * settled
maps alice
  * maps alice at 1: 1 2 3
open pop 4
  4 +OK node4 ready <1.4.0@node4>
say 4 USER alice
  4 +OK send PASS
say 4 PASS tanstaaf
flow
  * flowed
  4 +OK maildrop open
say 4 LIST
  4 +OK listing
  4 1 121
  4 2 124
  4 3 125
  4 .
say 4 UIDL
  4 +OK unique ids
  4 1 1.1.1
  4 2 2.1.1
  4 3 3.1.1
  4 .
say 4 RETR 2
flow
  * flowed
  4 +OK 124 octets
  4 Return-Path: <>
  4 Received: from c.example
  4  by node2 with SMTP id <2.1.1@node2>;
  4  Thu, 01 Jan 1970 00:00:00 +0000
  4 second
  4 .
say 4 DELE 1
  4 +OK message 1 deleted
say 4 DELE 3
  4 +OK message 3 deleted
say 4 QUIT
flow
  * flowed
  4 +OK bye
  * 4 closed
settle
  * settled
maps alice
  * maps alice at 1: 2
open pop 4
  5 +OK node4 ready <1.5.0@node4>
say 5 USER alice
  5 +OK send PASS
say 5 PASS tanstaaf
flow
  * flowed
  5 +OK maildrop open
say 5 UIDL
  5 +OK unique ids
  5 1 2.1.1
  5 .
end
";

// Nodes 1 and 3 have the message, and a session at node 2 has listed it.
const LISTED: &[u8] = b"\
nodes 3
copies 2 2
buckets 1
user alice tanstaaf
postmaster alice
go
open smtp 3
  1 220 node3 Porcupine ready
say 1 HELO c.example
  1 250 node3
say 1 MAIL FROM:<>
  1 250 sender ok
say 1 RCPT TO:<alice>
  1 250 recipient ok
say 1 DATA
  1 354 end with a line that is a single period
say 1 three!!
say 1 .
flow
  * flowed
  1 250 stored
say 1 QUIT
  1 221 node3 closing
  * 1 closed
settle
  * settled
open pop 2
  2 +OK node2 ready <1.2.0@node2>
say 2 USER alice
  2 +OK send PASS
say 2 PASS tanstaaf
flow
  * flowed
  2 +OK maildrop open
";

// The first holder is down, and then the last, too; the first starts again, and has no epoch; only the last is down, which is not
// asked.
const HOLDERS_STOP: &[u8] = b"\
say 2 RETR 1
crash 1
  * node 1 down
flow
  * flowed
  2 +OK 125 octets
  2 Return-Path: <>
  2 Received: from c.example
  2  by node3 with SMTP id <3.1.1@node3>;
  2  Thu, 01 Jan 1970 00:00:00 +0000
  2 three!!
  2 .
say 2 RETR 1
crash 3
  * node 3 down
flow
  * flowed
  2 -ERR [SYS/TEMP] try again later
start 1
  * node 1 up 2
say 2 RETR 1
flow
  * flowed
  2 -ERR [SYS/TEMP] try again later
end
crash 3
  * node 3 down
say 2 RETR 1
flow
  * flowed
  2 +OK 125 octets
  2 Return-Path: <>
  2 Received: from c.example
  2  by node3 with SMTP id <3.1.1@node3>;
  2  Thu, 01 Jan 1970 00:00:00 +0000
  2 three!!
  2 .
end
say 2 TOP 1 0
giveup 2
  2 -ERR [SYS/TEMP] try again later
flow
  * flowed
say 2 NOOP
  2 +OK
end
";

// A deletion goes to the nodes that have the message. It fails where one of them is down, and may be tried again.
const DELETED: &[u8] = b"\
say 2 DELE 1
  2 +OK message 1 deleted
say 2 QUIT
flow
  * flowed
  2 +OK bye
  * 2 closed
settle
  * settled
maps alice
  * maps alice at 1:
open pop 2
  3 +OK node2 ready <1.3.0@node2>
say 3 USER alice
  3 +OK send PASS
say 3 PASS tanstaaf
flow
  * flowed
  3 +OK maildrop open
say 3 STAT
  3 +OK 0 0
end
say 2 DELE 1
  2 +OK message 1 deleted
crash 1
  * node 1 down
crash 3
  * node 3 down
say 2 QUIT
flow
  * flowed
  2 -ERR [SYS/TEMP] some messages may remain
  * 2 closed
start 1
  * node 1 up 2
start 3
  * node 3 up 2
regroup 1
  * epoch 2.1 members 1 2 3
settle
  * settled
open pop 3
  3 +OK node3 ready <2.3.0@node3>
say 3 USER alice
  3 +OK send PASS
say 3 PASS tanstaaf
flow
  * flowed
  3 +OK maildrop open
say 3 STAT
  3 +OK 1 125
end
";

// An epoch lets the lock go. Another session deletes the message, and the first one is told.
const GONE: &[u8] = b"\
regroup 1
  * epoch 2.1 members 1 2 3
settle
  * settled
open pop 1
  3 +OK node1 ready <1.3.0@node1>
say 3 USER alice
  3 +OK send PASS
say 3 PASS tanstaaf
flow
  * flowed
  3 +OK maildrop open
say 3 DELE 1
  3 +OK message 1 deleted
say 3 QUIT
flow
  * flowed
  3 +OK bye
  * 3 closed
say 2 RETR 1
flow
  * flowed
  2 -ERR message was deleted
say 2 DELE 1
  2 +OK message 1 deleted
say 2 QUIT
flow
  * flowed
  2 +OK bye
  * 2 closed
end
";

#[test]
fn mail_is_read_at_a_fourth_node(rt: HostRuntime) -> Result<(), Fail> {
    each_case(&rt, rt.alloc(), b"", AT_A_FOURTH)
}

#[test]
fn holders_are_asked_in_turn(rt: HostRuntime) -> Result<(), Fail> {
    each_case(&rt, rt.alloc(), LISTED, HOLDERS_STOP)
}

#[test]
fn a_deletion_goes_to_the_holders(rt: HostRuntime) -> Result<(), Fail> {
    each_case(&rt, rt.alloc(), LISTED, DELETED)
}

#[test]
fn a_message_may_be_gone_by_then(rt: HostRuntime) -> Result<(), Fail> {
    each_case(&rt, rt.alloc(), LISTED, GONE)
}
