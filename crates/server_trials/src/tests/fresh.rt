// A new session behind a settle, which lists exactly the messages that stand: of such a message a member has a copy, and no member says
// that it is gone. No session is open as the cluster settles.

use super::each_behind;
use std::test::Fail;

// A message comes to node 1.
const SENT: &[u8] = b"\
open smtp 1
  1 220 node1 Porcupine ready
say 1 HELO c.example
  1 250 node1
say 1 MAIL FROM:<bob@b.example>
  1 250 sender ok
say 1 RCPT TO:<alice>
  1 250 recipient ok
say 1 DATA
  1 354 end with a line that is a single period
say 1 Subject: hi
say 1
say 1 hello
say 1 .
";

const STORED: &[u8] = b"  1 250 stored
say 1 QUIT
  1 221 node1 closing
  * 1 closed
";

const THREE_COPIES: &[u8] =
    b"nodes 3\ncopies 3 2\nbuckets 1\nuser alice tanstaaf\npostmaster alice\ngo\n";

// Node 2 has it, too. The letter to node 3 is number 2.
const HEARD_AT_TWO: &[u8] = b"\
post 1
  * 1 heard
post 3
  * 3 heard
";

// Node 1 alone is left, which has the message; or node 3 alone, which never heard of it.
const ONE_IS_LEFT: &[u8] = b"\
crash 3
  * node 3 down
lose 2
  * node 2 lost
regroup 1
  * epoch 2.1 members 1
settle
  * settled
open pop 1
  2 +OK node1 ready <1.2.0@node1>
say 2 USER alice
  2 +OK send PASS
say 2 PASS tanstaaf
  2 +OK maildrop open
flow
  * flowed
say 2 UIDL
  2 +OK unique ids
  2 1 1.1.1
  2 .
end
drop 2
lose 1
  * node 1 lost
lose 2
  * node 2 lost
regroup 3
  * epoch 2.3 members 3
settle
  * settled
open pop 3
  2 +OK node3 ready <1.2.0@node3>
say 2 USER alice
  2 +OK send PASS
say 2 PASS tanstaaf
  2 +OK maildrop open
flow
  * flowed
say 2 UIDL
  2 +OK unique ids
  2 .
end
";

const TWO_COPIES: &[u8] =
    b"nodes 3\ncopies 2 2\nbuckets 1\nuser alice tanstaaf\npostmaster alice\ngo\n";

// The delivery is given up, and its message is there all the same. The client sends it once more.
const GIVEN_UP: &[u8] = b"\
giveup 1
  1 451 not stored, try again
say 1 MAIL FROM:<bob@b.example>
  1 250 sender ok
say 1 RCPT TO:<alice>
  1 250 recipient ok
say 1 DATA
  1 354 end with a line that is a single period
say 1 Subject: hi
say 1
say 1 hello
say 1 .
post 2
  * 2 heard
post 3
  * 3 heard
post 4
  * 4 heard
post 5
  * 5 heard
  1 250 stored
say 1 QUIT
  1 221 node1 closing
  * 1 closed
settle
  * settled
open pop 1
  2 +OK node1 ready <1.2.0@node1>
say 2 USER alice
  2 +OK send PASS
say 2 PASS tanstaaf
flow
  * flowed
  2 +OK maildrop open
say 2 UIDL
  2 +OK unique ids
  2 1 1.1.1
  2 2 1.1.2
  2 .
end
";

const TWO_NODES: &[u8] =
    b"nodes 2\ncopies 2 1\nbuckets 1\nuser alice tanstaaf\npostmaster alice\ngo\n";

// Letters are lost, repeated and late; and the message is deleted before the letter that brings it is heard again.
const REPEATED: &[u8] = b"\
drop 1
push 1
  * sent 1
again 2
  * 2 heard
again 2
  * 2 heard
post 2
  * 2 heard
report 2
  * sent 1
post 5
  * 5 heard
post 4
  * 4 heard
post 3
  * 3 heard
post 6
  * 6 heard
settle
  * settled
open pop 2
  2 +OK node2 ready <1.2.0@node2>
say 2 USER alice
  2 +OK send PASS
say 2 PASS tanstaaf
flow
  * flowed
  2 +OK maildrop open
say 2 UIDL
  2 +OK unique ids
  2 1 1.1.1
  2 .
end
again 1
  * 1 heard
open pop 1
  2 +OK node1 ready <1.2.0@node1>
say 2 USER alice
  2 +OK send PASS
say 2 PASS tanstaaf
  2 +OK maildrop open
say 2 DELE 1
  2 +OK message 1 deleted
say 2 QUIT
  2 +OK bye
  * 2 closed
post 3
  * 3 heard
post 1
  * 1 heard
settle
  * settled
open pop 1
  3 +OK node1 ready <1.3.0@node1>
say 3 USER alice
  3 +OK send PASS
say 3 PASS tanstaaf
  3 +OK maildrop open
flow
  * flowed
say 3 UIDL
  3 +OK unique ids
  3 .
end
";

const THREE_NODES: &[u8] =
    b"nodes 3\ncopies 2 1\nbuckets 1\nuser alice tanstaaf\npostmaster alice\ngo\n";

// Node 2 has it, too. Its manager, node 1, stops before it is asked, and node 2 manages in the next epoch.
const WITHOUT_ITS_MANAGER: &[u8] = b"\
post 1
  * 1 heard
open pop 2
  2 +OK node2 ready <1.2.0@node2>
say 2 USER alice
  2 +OK send PASS
say 2 PASS tanstaaf
crash 1
  * node 1 down
post 3
  * 3 thrown down
  2 -ERR [SYS/TEMP] try again later
say 2 QUIT
  2 +OK bye
  * 2 closed
regroup 2
  * epoch 2.2 members 2 3
settle
  * settled
";

// The message is listed at a node that has none, or its user's map is asked for.
const LISTED_OR_NAMED: &[u8] = b"\
open pop 3
  3 +OK node3 ready <1.3.0@node3>
say 3 USER alice
  3 +OK send PASS
say 3 PASS tanstaaf
flow
  * flowed
  3 +OK maildrop open
say 3 UIDL
  3 +OK unique ids
  3 1 1.1.1
  3 .
end
maps alice
  * maps alice at 2: 2
end
";

#[test]
fn few_nodes_are_left(rt: HostRuntime) -> Result<(), Fail> {
    let alloc = rt.alloc();
    let at_two = [THREE_COPIES, SENT, HEARD_AT_TWO, STORED];
    each_behind(&rt, alloc, &at_two, ONE_IS_LEFT)?;
    let without = [THREE_NODES, SENT, STORED, WITHOUT_ITS_MANAGER];
    each_behind(&rt, alloc, &without, LISTED_OR_NAMED)
}

#[test]
fn letters_are_late(rt: HostRuntime) -> Result<(), Fail> {
    let alloc = rt.alloc();
    each_behind(&rt, alloc, &[TWO_COPIES, SENT], GIVEN_UP)?;
    each_behind(&rt, alloc, &[TWO_NODES, SENT, STORED], REPEATED)
}
