// Five nodes, of which one, two or three are lost, and a new session at one that is left: it lists exactly the messages that stand.

use super::each_behind;
use std::test::Fail;

// The messages 1.1.1, 1.1.2 and 4.1.1 are at the nodes 1, 2 and 3, at 2, 3 and 4, and at 4, 5 and 1. Node 1 manages alice, and knows of
// its own copies. The next letter is 15.
const AT_FIVE: &[u8] = b"\
nodes 5
copies 3 2
buckets 1
user alice tanstaaf
postmaster alice
go
open smtp 1
  1 220 node1 Porcupine ready
say 1 HELO c.example
  1 250 node1
say 1 MAIL FROM:<>
  1 250 sender ok
say 1 RCPT TO:<alice>
  1 250 recipient ok
say 1 DATA
  1 354 end with a line that is a single period
say 1 one
say 1 .
flow
  * flowed
  1 250 stored
say 1 MAIL FROM:<>
  1 250 sender ok
say 1 RCPT TO:<alice>
  1 250 recipient ok
say 1 DATA
  1 354 end with a line that is a single period
say 1 second
say 1 .
flow
  * flowed
  1 250 stored
say 1 QUIT
  1 221 node1 closing
  * 1 closed
open smtp 4
  2 220 node4 Porcupine ready
say 2 HELO c.example
  2 250 node4
say 2 MAIL FROM:<>
  2 250 sender ok
say 2 RCPT TO:<alice>
  2 250 recipient ok
say 2 DATA
  2 354 end with a line that is a single period
say 2 three!!
say 2 .
flow
  * flowed
  2 250 stored
say 2 QUIT
  2 221 node4 closing
  * 2 closed
";

// A message comes in a second epoch, and then three nodes are lost, all that have 1.1.1 among them.
const THREE_LOST: &[u8] = b"\
regroup 3
  * epoch 2.3 members 1 2 3 4 5
open smtp 5
  3 220 node5 Porcupine ready
say 3 HELO c.example
  3 250 node5
say 3 MAIL FROM:<>
  3 250 sender ok
say 3 RCPT TO:<alice>
  3 250 recipient ok
say 3 DATA
  3 354 end with a line that is a single period
say 3 fourth
say 3 .
flow
  * flowed
  3 250 stored
say 3 QUIT
  3 221 node5 closing
  * 3 closed
lose 1
  * node 1 lost
lose 2
  * node 2 lost
lose 3
  * node 3 lost
regroup 4
  * epoch 3.4 members 4 5
settle
  * settled
open pop 5
  4 +OK node5 ready <1.4.0@node5>
say 4 USER alice
  4 +OK send PASS
say 4 PASS tanstaaf
flow
  * flowed
  4 +OK maildrop open
say 4 UIDL
  4 +OK unique ids
  4 1 1.1.2
  4 2 4.1.1
  4 3 5.1.1
  4 .
say 4 LIST
  4 +OK listing
  4 1 124
  4 2 125
  4 3 124
  4 .
end
";

// A deletion of 1.1.1 waits, and the node of its session is lost with what it deleted itself.
const DELETION_WAITS: &[u8] = b"\
open pop 1
  3 +OK node1 ready <1.3.0@node1>
say 3 USER alice
  3 +OK send PASS
say 3 PASS tanstaaf
  3 +OK maildrop open
say 3 DELE 1
  3 +OK message 1 deleted
say 3 QUIT
lose 1
  * node 1 lost
  3 -ERR [SYS/TEMP] node1 down
  * 3 closed
";

// One node heard of it, and nobody did.
const HEARD_OR_NOT: &[u8] = b"\
post 15
  * 15 heard
regroup 2
  * epoch 2.2 members 2 3 4 5
settle
  * settled
open pop 3
  4 +OK node3 ready <1.4.0@node3>
say 4 USER alice
  4 +OK send PASS
say 4 PASS tanstaaf
flow
  * flowed
  4 +OK maildrop open
say 4 UIDL
  4 +OK unique ids
  4 1 1.1.2
  4 2 4.1.1
  4 .
end
regroup 2
  * epoch 2.2 members 2 3 4 5
settle
  * settled
open pop 3
  4 +OK node3 ready <1.4.0@node3>
say 4 USER alice
  4 +OK send PASS
say 4 PASS tanstaaf
flow
  * flowed
  4 +OK maildrop open
say 4 UIDL
  4 +OK unique ids
  4 1 1.1.1
  4 2 1.1.2
  4 3 4.1.1
  4 .
end
";

// Message 1.1.1 is deleted at the nodes 1 and 2, while node 3 is down.
const DELETED_AT_TWO: &[u8] = b"\
open pop 5
  3 +OK node5 ready <1.3.0@node5>
say 3 USER alice
  3 +OK send PASS
say 3 PASS tanstaaf
flow
  * flowed
  3 +OK maildrop open
say 3 DELE 1
  3 +OK message 1 deleted
crash 3
  * node 3 down
say 3 QUIT
flow
  * flowed
  3 +OK bye
  * 3 closed
";

// One of both is lost, and the other one tells node 3; both are lost, and what node 3 has stands.
const ONE_OR_BOTH_LOST: &[u8] = b"\
lose 2
  * node 2 lost
start 3
  * node 3 up 2
regroup 5
  * epoch 2.5 members 1 3 4 5
settle
  * settled
open pop 3
  4 +OK node3 ready <2.4.0@node3>
say 4 USER alice
  4 +OK send PASS
say 4 PASS tanstaaf
flow
  * flowed
  4 +OK maildrop open
say 4 UIDL
  4 +OK unique ids
  4 1 1.1.2
  4 2 4.1.1
  4 .
end
lose 1
  * node 1 lost
lose 2
  * node 2 lost
start 3
  * node 3 up 2
regroup 4
  * epoch 2.4 members 3 4 5
settle
  * settled
open pop 4
  4 +OK node4 ready <1.4.0@node4>
say 4 USER alice
  4 +OK send PASS
say 4 PASS tanstaaf
flow
  * flowed
  4 +OK maildrop open
say 4 UIDL
  4 +OK unique ids
  4 1 1.1.1
  4 2 1.1.2
  4 3 4.1.1
  4 .
end
";

#[test]
fn three_nodes_are_lost_behind_a_regroup(rt: HostRuntime) -> Result<(), Fail> {
    each_behind(&rt, rt.alloc(), &[AT_FIVE], THREE_LOST)
}

#[test]
fn a_deletion_waits_at_a_node_that_is_lost(rt: HostRuntime) -> Result<(), Fail> {
    each_behind(&rt, rt.alloc(), &[AT_FIVE, DELETION_WAITS], HEARD_OR_NOT)
}

#[test]
fn those_who_know_of_a_deletion_are_lost(rt: HostRuntime) -> Result<(), Fail> {
    each_behind(
        &rt,
        rt.alloc(),
        &[AT_FIVE, DELETED_AT_TWO],
        ONE_OR_BOTH_LOST,
    )
}
