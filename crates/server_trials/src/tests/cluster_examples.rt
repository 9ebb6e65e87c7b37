// Those for several nodes, and for a node that stops, with what their files say that is written for them.
//
// Each table is one tape and, indented, its transcript: the script examples/compare.py takes both out of this file and says
// where one of them differs from the file of the example.

use super::each_case;
use std::test::Fail;

const RESTART: &[u8] = b"\
nodes 1
copies 1 1
buckets 1
user alice tanstaaf
postmaster alice
go
open smtp 1
  1 220 node1 Porcupine ready
say 1 HELO c.example
  1 250 node1
say 1 MAIL FROM:<bob@b.example>
  1 250 sender ok
say 1 RCPT TO:<alice>
  1 250 recipient ok
say 1 DATA
  1 354 end with a line that is a single period
say 1 Subject: hi
say 1
say 1 hello
say 1 .
  1 250 stored
say 1 MAIL FROM:<bob@b.example>
  1 250 sender ok
crash 1
  * node 1 down
  1 421 node1 down
  * 1 closed
start 1
  * node 1 up 2
regroup 1
  * epoch 2.1 members 1
open pop 1
  2 +OK node1 ready <2.2.0@node1>
say 2 USER alice
  2 +OK send PASS
say 2 PASS tanstaaf
  2 +OK maildrop open
say 2 LIST
  2 +OK listing
  2 1 151
  2 .
say 2 RETR 1
  2 +OK 151 octets
  2 Return-Path: <bob@b.example>
  2 Received: from c.example
  2  by node1 with SMTP id <1.1.1@node1>;
  2  Thu, 01 Jan 1970 00:00:00 +0000
  2 Subject: hi
  2\x20
  2 hello
  2 .
say 2 DELE 1
  2 +OK message 1 deleted
crash 1
  * node 1 down
  2 -ERR [SYS/TEMP] node1 down
  * 2 closed
start 1
  * node 1 up 3
regroup 1
  * epoch 3.1 members 1
open pop 1
  3 +OK node1 ready <3.3.0@node1>
say 3 USER alice
  3 +OK send PASS
say 3 PASS tanstaaf
  3 +OK maildrop open
say 3 UIDL
  3 +OK unique ids
  3 1 1.1.1
  3 .
say 3 DELE 1
  3 +OK message 1 deleted
say 3 QUIT
  3 +OK bye
  * 3 closed
crash 1
  * node 1 down
start 1
  * node 1 up 4
regroup 1
  * epoch 4.1 members 1
open smtp 1
  4 220 node1 Porcupine ready
say 4 HELO c.example
  4 250 node1
say 4 MAIL FROM:<bob@b.example>
  4 250 sender ok
say 4 RCPT TO:<alice>
  4 250 recipient ok
say 4 DATA
  4 354 end with a line that is a single period
say 4 again
say 4 .
  4 250 stored
say 4 QUIT
  4 221 node1 closing
  * 4 closed
open pop 1
  5 +OK node1 ready <4.5.0@node1>
say 5 USER alice
  5 +OK send PASS
say 5 PASS tanstaaf
  5 +OK maildrop open
say 5 UIDL
  5 +OK unique ids
  5 1 1.4.1
  5 .
say 5 QUIT
  5 +OK bye
  * 5 closed
end
";

const LOST_NODE: &[u8] = b"\
nodes 3
copies 3 2
buckets 16
user alice tanstaaf
postmaster alice
go
open smtp 1
  1 220 node1 Porcupine ready
say 1 HELO c.example
  1 250 node1
say 1 MAIL FROM:<bob@b.example>
  1 250 sender ok
say 1 RCPT TO:<alice>
  1 250 recipient ok
say 1 DATA
  1 354 end with a line that is a single period
say 1 Subject: hi
say 1
say 1 hello
say 1 .
drop 2
post 1
  * 1 heard
post 3
  * 3 heard
  1 250 stored
say 1 QUIT
  1 221 node1 closing
  * 1 closed
lose 2
  * node 2 lost
push 1
  * sent 2
post 4
  * 4 thrown down
post 5
  * 5 heard
flow
  * flowed
crash 1
  * node 1 down
start 1
  * node 1 up 2
regroup 1
  * epoch 2.1 members 1 3
open smtp 3
  2 220 node3 Porcupine ready
say 2 HELO d.example
  2 250 node3
say 2 MAIL FROM:<carol@d.example>
  2 250 sender ok
say 2 RCPT TO:<alice>
  2 250 recipient ok
say 2 DATA
  2 354 end with a line that is a single period
say 2 hello again
say 2 .
flow
  * flowed
  2 250 stored
say 2 QUIT
  2 221 node3 closing
  * 2 closed
end
";

const REGROUP: &[u8] = b"\
nodes 4
copies 2 2
buckets 16
user alice tanstaaf
postmaster alice
go
lose 3
  * node 3 lost
lose 4
  * node 4 lost
open smtp 2
  1 220 node2 Porcupine ready
say 1 HELO c.example
  1 250 node2
say 1 MAIL FROM:<bob@b.example>
  1 250 sender ok
say 1 RCPT TO:<alice>
  1 250 recipient ok
say 1 DATA
  1 354 end with a line that is a single period
say 1 one
say 1 .
flow
  * flowed
  1 451 not stored, try again
regroup 1
  * epoch 2.1 members 1 2
say 1 MAIL FROM:<bob@b.example>
  1 250 sender ok
say 1 RCPT TO:<alice>
  1 250 recipient ok
say 1 DATA
  1 354 end with a line that is a single period
say 1 two
say 1 .
flow
  * flowed
  1 250 stored
crash 2
  * node 2 down
  1 421 node2 down
  * 1 closed
start 2
  * node 2 up 2
open smtp 2
  2 220 node2 Porcupine ready
say 2 HELO c.example
  2 250 node2
say 2 MAIL FROM:<bob@b.example>
  2 250 sender ok
say 2 RCPT TO:<alice>
  2 250 recipient ok
say 2 DATA
  2 354 end with a line that is a single period
say 2 three
say 2 .
  2 451 not stored, try again
group 2
  * group 3.2
flow
  * flowed
conclude 2
  * epoch 3.2 members 1 2
flow
  * flowed
say 2 MAIL FROM:<bob@b.example>
  2 250 sender ok
say 2 RCPT TO:<alice>
  2 250 recipient ok
say 2 DATA
  2 354 end with a line that is a single period
say 2 three
say 2 .
flow
  * flowed
  2 250 stored
say 2 QUIT
  2 221 node2 closing
  * 2 closed
end
";

const SETTLE: &[u8] = b"\
nodes 3
copies 2 1
buckets 1
user alice tanstaaf
user carol open sesame
postmaster alice
go
open smtp 1
  1 220 node1 Porcupine ready
say 1 HELO c.example
  1 250 node1
say 1 MAIL FROM:<bob@b.example>
  1 250 sender ok
say 1 RCPT TO:<alice>
  1 250 recipient ok
say 1 DATA
  1 354 end with a line that is a single period
say 1 one
say 1 .
  1 250 stored
drop 1
maps alice
  * maps alice at 1: 1
push 1
  * sent 1
flow
  * flowed
maps alice
  * maps alice at 1: 1
report 2
  * sent 1
flow
  * flowed
maps alice
  * maps alice at 1: 1 2
maps carol
  * maps carol at 1:
lose 1
  * node 1 lost
  1 421 node1 down
  * 1 closed
settle
  * not-all-up 1
maps alice
  * maps alice none
regroup 2
  * epoch 2.2 members 2 3
maps alice
  * maps alice at 2: 2
settle
  * settled
maps alice
  * maps alice at 2: 2
open smtp 3
  2 220 node3 Porcupine ready
say 2 HELO c.example
  2 250 node3
say 2 MAIL FROM:<bob@b.example>
  2 250 sender ok
say 2 RCPT TO:<alice>
  2 250 recipient ok
say 2 RCPT TO:<carol>
  2 250 recipient ok
say 2 DATA
  2 354 end with a line that is a single period
say 2 two
say 2 .
  2 250 stored
settle
  * settled
maps alice
  * maps alice at 2: 2 3
maps carol
  * maps carol at 2: 2 3
end
";

const ANYWHERE: &[u8] = b"\
nodes 4
copies 1 1
buckets 1
user alice tanstaaf
postmaster alice
go
open smtp 1
  1 220 node1 Porcupine ready
say 1 HELO c.example
  1 250 node1
say 1 MAIL FROM:<bob@b.example>
  1 250 sender ok
say 1 RCPT TO:<alice>
  1 250 recipient ok
say 1 DATA
  1 354 end with a line that is a single period
say 1 one
say 1 .
  1 250 stored
say 1 QUIT
  1 221 node1 closing
  * 1 closed
open smtp 2
  2 220 node2 Porcupine ready
say 2 HELO c.example
  2 250 node2
say 2 MAIL FROM:<bob@b.example>
  2 250 sender ok
say 2 RCPT TO:<alice>
  2 250 recipient ok
say 2 DATA
  2 354 end with a line that is a single period
say 2 two
say 2 .
  2 250 stored
say 2 QUIT
  2 221 node2 closing
  * 2 closed
open smtp 3
  3 220 node3 Porcupine ready
say 3 HELO c.example
  3 250 node3
say 3 MAIL FROM:<bob@b.example>
  3 250 sender ok
say 3 RCPT TO:<alice>
  3 250 recipient ok
say 3 DATA
  3 354 end with a line that is a single period
say 3 three
say 3 .
  3 250 stored
say 3 QUIT
  3 221 node3 closing
  * 3 closed
settle
  * settled
maps alice
  * maps alice at 1: 1 2 3
open pop 4
  4 +OK node4 ready <1.4.0@node4>
say 4 USER alice
  4 +OK send PASS
say 4 PASS tanstaaf
flow
  * flowed
  4 +OK maildrop open
say 4 STAT
  4 +OK 3 404
say 4 UIDL
  4 +OK unique ids
  4 1 1.1.1
  4 2 2.1.1
  4 3 3.1.1
  4 .
say 4 RETR 2
flow
  * flowed
  4 +OK 134 octets
  4 Return-Path: <bob@b.example>
  4 Received: from c.example
  4  by node2 with SMTP id <2.1.1@node2>;
  4  Thu, 01 Jan 1970 00:00:00 +0000
  4 two
  4 .
open pop 2
  5 +OK node2 ready <1.5.0@node2>
say 5 USER alice
  5 +OK send PASS
say 5 PASS tanstaaf
flow
  * flowed
  5 -ERR [IN-USE] maildrop is open elsewhere
say 5 QUIT
  5 +OK bye
  * 5 closed
say 4 RETR 1
giveup 4
  4 -ERR [SYS/TEMP] try again later
say 4 DELE 3
  4 +OK message 3 deleted
say 4 QUIT
flow
  * flowed
  4 +OK bye
  * 4 closed
open pop 3
  6 +OK node3 ready <1.6.0@node3>
say 6 USER alice
  6 +OK send PASS
say 6 PASS tanstaaf
flow
  * flowed
  6 +OK maildrop open
say 6 LIST
  6 +OK listing
  6 1 134
  6 2 134
  6 .
say 6 QUIT
  6 +OK bye
  * 6 closed
end
";

#[test]
fn each_example_of_a_cluster_is_answered_so(rt: HostRuntime) -> Result<(), Fail> {
    for lines in [RESTART, LOST_NODE, REGROUP, SETTLE, ANYWHERE] {
        each_case(&rt, rt.alloc(), b"", lines)?;
    }
    Ok(())
}
