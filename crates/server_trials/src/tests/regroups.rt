// Epochs: groups that are opened and concluded by hand, and nodes that form an epoch of those that are up.

use super::each_case;
use std::test::Fail;

// Whole tapes. A group is opened, joined and concluded letter by letter, and a node that started again since is no member; a
// letter of an epoch that is over is thrown; a node that has no epoch takes no mail; a node that is up is let in, and one
// that is not is left out.
const FORMED: &[u8] = b"\
nodes 2
copies 1 1
buckets 1
user alice tanstaaf
postmaster alice
go
group 1
  * group 2.1
post 1
  * 1 heard
post 2
  * 2 heard
conclude 1
  * epoch 2.1 members 1 2
crash 2
  * node 2 down
start 2
  * node 2 up 2
post 3
  * 3 thrown not-member
end
nodes 2
copies 2 1
buckets 1
user alice tanstaaf
postmaster alice
go
open smtp 1
  1 220 node1 Porcupine ready
say 1 HELO c.example
  1 250 node1
say 1 MAIL FROM:<bob@b.example>
  1 250 sender ok
say 1 RCPT TO:<alice>
  1 250 recipient ok
say 1 DATA
  1 354 end with a line that is a single period
say 1 Subject: hi
say 1
say 1 hello
say 1 .
  1 250 stored
regroup 1
  * epoch 2.1 members 1 2
post 1
  * 1 thrown stale
end
nodes 1
copies 1 1
buckets 1
user alice tanstaaf
postmaster alice
go
crash 1
  * node 1 down
start 1
  * node 1 up 2
open smtp 1
  1 220 node1 Porcupine ready
say 1 HELO c.example
  1 250 node1
say 1 MAIL FROM:<bob@b.example>
  1 250 sender ok
say 1 RCPT TO:<alice>
  1 250 recipient ok
say 1 DATA
  1 354 end with a line that is a single period
say 1 .
  1 451 not stored, try again
group 1
  * group 2.1
conclude 1
  * epoch 2.1 members 1
say 1 MAIL FROM:<bob@b.example>
  1 250 sender ok
say 1 RCPT TO:<alice>
  1 250 recipient ok
say 1 DATA
  1 354 end with a line that is a single period
say 1 .
  1 250 stored
end
nodes 3
copies 3 2
buckets 16
user alice tanstaaf
postmaster alice
go
regroup 2
  * epoch 2.2 members 1 2 3
regroup 1
  * epoch 3.1 members 1 2 3
crash 3
  * node 3 down
regroup 1
  * epoch 4.1 members 1 2
start 3
  * node 3 up 2
group 3
  * group 4.3
drop 17
drop 18
conclude 3
  * epoch 4.3 members 3
regroup 2
  * epoch 5.2 members 1 2 3
end
";

const PLAN_OF_TWO: &[u8] = b"\
nodes 2
copies 1 1
buckets 1
user alice tanstaaf
postmaster alice
go
";

// What there is no node or no group for.
const REFUSED: &[u8] = b"\
group
  ! line 7 BadLine
group 1 2
  ! line 7 BadLine
group 0
  ! line 7 NoSuchNode
group 3
  ! line 7 NoSuchNode
conclude 0
  ! line 7 NoSuchNode
conclude 3
  ! line 7 NoSuchNode
regroup 0
  ! line 7 NoSuchNode
regroup 3
  ! line 7 NoSuchNode
crash 2
  * node 2 down
group 2
  ! line 8 NodeDown
crash 2
  * node 2 down
conclude 2
  ! line 8 NodeDown
crash 2
  * node 2 down
regroup 2
  ! line 8 NodeDown
lose 2
  * node 2 lost
group 2
  ! line 8 NodeLost
lose 2
  * node 2 lost
regroup 2
  ! line 8 NodeLost
conclude 1
  ! line 7 NotAGroup
group 1
  * group 2.1
conclude 2
  ! line 8 NotAGroup
group 1
  * group 2.1
conclude 1
  * epoch 2.1 members 1
conclude 1
  ! line 9 NotAGroup
regroup 1
  * epoch 2.1 members 1 2
conclude 1
  ! line 8 NotAGroup
group 1
  * group 2.1
crash 1
  * node 1 down
start 1
  * node 1 up 2
conclude 1
  ! line 10 NotAGroup
";

// A node that has no epoch lets nobody in.
const LOGIN: &[u8] = b"\
nodes 1
copies 1 1
buckets 1
user alice tanstaaf
postmaster alice
go
crash 1
  * node 1 down
start 1
  * node 1 up 2
open pop 1
  1 +OK node1 ready <2.1.0@node1>
say 1 USER alice
  1 +OK send PASS
say 1 PASS tanstaaf
  1 -ERR [SYS/TEMP] try again later
regroup 1
  * epoch 2.1 members 1
say 1 USER alice
  1 +OK send PASS
say 1 PASS tanstaaf
  1 +OK maildrop open
say 1 STAT
  1 +OK 0 0
end
";

#[test]
fn epochs_are_formed_by_lines(rt: HostRuntime) -> Result<(), Fail> {
    each_case(&rt, rt.alloc(), b"", FORMED)?;
    each_case(&rt, rt.alloc(), PLAN_OF_TWO, REFUSED)
}

#[test]
fn nobody_logs_in_at_a_node_without_an_epoch(rt: HostRuntime) -> Result<(), Fail> {
    each_case(&rt, rt.alloc(), b"", LOGIN)
}
