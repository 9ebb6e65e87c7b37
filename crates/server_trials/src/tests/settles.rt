// Reports, settling, and whom managers name.

use super::each_case;
use std::test::Fail;

// Whole tapes. All letters are posted, and a settle has little left to do; letters are lost, repeated and late, and the settle
// does it; members are away.
const SETTLED: &[u8] = b"\
nodes 2
copies 2 1
buckets 1
user alice tanstaaf
postmaster alice
go
open smtp 1
  1 220 node1 Porcupine ready
say 1 HELO c.example
  1 250 node1
say 1 MAIL FROM:<bob@b.example>
  1 250 sender ok
say 1 RCPT TO:<alice>
  1 250 recipient ok
say 1 DATA
  1 354 end with a line that is a single period
say 1 Subject: hi
say 1
say 1 hello
say 1 .
  1 250 stored
say 1 QUIT
  1 221 node1 closing
  * 1 closed
flow
  * flowed
settle
  * settled
regroup 1
  * epoch 2.1 members 1 2
maps alice
  * maps alice at 1: 1 2
end
nodes 2
copies 2 1
buckets 1
user alice tanstaaf
postmaster alice
go
open smtp 1
  1 220 node1 Porcupine ready
say 1 HELO c.example
  1 250 node1
say 1 MAIL FROM:<bob@b.example>
  1 250 sender ok
say 1 RCPT TO:<alice>
  1 250 recipient ok
say 1 DATA
  1 354 end with a line that is a single period
say 1 Subject: hi
say 1
say 1 hello
say 1 .
  1 250 stored
say 1 QUIT
  1 221 node1 closing
  * 1 closed
drop 1
push 1
  * sent 1
again 2
  * 2 heard
again 2
  * 2 heard
post 2
  * 2 heard
report 2
  * sent 1
post 5
  * 5 heard
post 4
  * 4 heard
post 3
  * 3 heard
post 6
  * 6 heard
maps alice
  * maps alice at 1: 1 2
settle
  * settled
maps alice
  * maps alice at 1: 1 2
end
nodes 2
copies 1 1
buckets 1
user alice tanstaaf
postmaster alice
go
crash 2
  * node 2 down
report 2
  * sent 0
settle
  * not-all-up 2
start 2
  * node 2 up 2
settle
  * not-all-up 2
regroup 1
  * epoch 2.1 members 1 2
settle
  * settled
maps ALICE
  * maps alice at 1:
crash 1
  * node 1 down
maps alice
  * maps alice none
crash 2
  * node 2 down
settle
  * not-all-up 1
maps alice
  * maps alice none
end
";

const PLAN_OF_TWO: &[u8] =
    b"nodes 2\ncopies 1 1\nbuckets 1\nuser alice tanstaaf\npostmaster alice\ngo\n";

// Each refusal, of tapes that have the plan before them.
const REFUSED: &[u8] = b"\
report 0
  ! line 7 NoSuchNode
report 3
  ! line 7 NoSuchNode
report
  ! line 7 BadLine
report 1 2
  ! line 7 BadLine
settle now
  ! line 7 BadLine
settle 
  ! line 7 BadLine
maps bob
  ! line 7 BadLine
maps
  ! line 7 BadLine
maps alice bob
  ! line 7 BadLine
maps <alice>
  ! line 7 BadLine
";

#[test]
fn epochs_settle(rt: HostRuntime) -> Result<(), Fail> {
    each_case(&rt, rt.alloc(), b"", SETTLED)?;
    each_case(&rt, rt.alloc(), PLAN_OF_TWO, REFUSED)
}
