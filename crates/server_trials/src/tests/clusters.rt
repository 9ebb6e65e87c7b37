// Clusters of several nodes: letters that are heard, dropped, thrown and repeated, and nodes that stop, start and are lost.

use super::each_case;
use std::test::Fail;

// Whole tapes. A cluster of one node starts again; three copies are confirmed, and two of three; a call is given up; letters are
// posted again, in any order; a copy is dropped, or thrown; and a session waits as its node stops, or as its client closes it.
const HANDLED: &[u8] = b"\
nodes 1
copies 1 1
buckets 1
user alice tanstaaf
postmaster alice
go
open smtp 1
  1 220 node1 Porcupine ready
say 1 HELO c.example
  1 250 node1
say 1 MAIL FROM:<bob@b.example>
  1 250 sender ok
say 1 RCPT TO:<alice>
  1 250 recipient ok
say 1 DATA
  1 354 end with a line that is a single period
say 1 Subject: hi
say 1
say 1 hello
say 1 .
  1 250 stored
say 1 QUIT
  1 221 node1 closing
  * 1 closed
crash 1
  * node 1 down
start 1
  * node 1 up 2
regroup 1
  * epoch 2.1 members 1
open pop 1
  2 +OK node1 ready <2.2.0@node1>
say 2 USER alice
  2 +OK send PASS
say 2 PASS tanstaaf
  2 +OK maildrop open
say 2 STAT
  2 +OK 1 151
end
nodes 3
copies 3 3
buckets 1
user alice tanstaaf
postmaster alice
go
open smtp 1
  1 220 node1 Porcupine ready
say 1 HELO c.example
  1 250 node1
say 1 MAIL FROM:<bob@b.example>
  1 250 sender ok
say 1 RCPT TO:<alice>
  1 250 recipient ok
say 1 DATA
  1 354 end with a line that is a single period
say 1 Subject: hi
say 1
say 1 hello
say 1 .
again 1
  * 1 heard
again 1
  * 1 heard
post 3
  * 3 heard
post 4
  * 4 heard
post 2
  * 2 heard
post 5
  * 5 heard
  1 250 stored
end
nodes 3
copies 3 2
buckets 1
user alice tanstaaf
postmaster alice
go
open smtp 1
  1 220 node1 Porcupine ready
say 1 HELO c.example
  1 250 node1
say 1 MAIL FROM:<bob@b.example>
  1 250 sender ok
say 1 RCPT TO:<alice>
  1 250 recipient ok
say 1 DATA
  1 354 end with a line that is a single period
say 1 Subject: hi
say 1
say 1 hello
say 1 .
post 1
  * 1 heard
post 3
  * 3 heard
  1 250 stored
end
nodes 3
copies 2 2
buckets 1
user alice tanstaaf
postmaster alice
go
open smtp 1
  1 220 node1 Porcupine ready
say 1 HELO c.example
  1 250 node1
say 1 MAIL FROM:<bob@b.example>
  1 250 sender ok
say 1 RCPT TO:<alice>
  1 250 recipient ok
say 1 DATA
  1 354 end with a line that is a single period
say 1 Subject: hi
say 1
say 1 hello
say 1 .
giveup 1
  1 451 not stored, try again
say 1 MAIL FROM:<bob@b.example>
  1 250 sender ok
say 1 RCPT TO:<alice>
  1 250 recipient ok
say 1 DATA
  1 354 end with a line that is a single period
say 1 Subject: hi
say 1
say 1 hello
say 1 .
post 2
  * 2 heard
post 3
  * 3 heard
post 4
  * 4 heard
post 5
  * 5 heard
  1 250 stored
say 1 QUIT
  1 221 node1 closing
  * 1 closed
end
nodes 2
copies 2 1
buckets 1
user alice tanstaaf
postmaster alice
go
open smtp 1
  1 220 node1 Porcupine ready
say 1 HELO c.example
  1 250 node1
say 1 MAIL FROM:<bob@b.example>
  1 250 sender ok
say 1 RCPT TO:<alice>
  1 250 recipient ok
say 1 DATA
  1 354 end with a line that is a single period
say 1 Subject: hi
say 1
say 1 hello
say 1 .
  1 250 stored
say 1 QUIT
  1 221 node1 closing
  * 1 closed
drop 1
push 1
  * sent 1
again 2
  * 2 heard
again 2
  * 2 heard
post 2
  * 2 heard
post 5
  * 5 heard
post 4
  * 4 heard
post 3
  * 3 heard
end
nodes 2
copies 2 1
buckets 1
user alice tanstaaf
postmaster alice
go
open smtp 1
  1 220 node1 Porcupine ready
say 1 HELO c.example
  1 250 node1
say 1 MAIL FROM:<bob@b.example>
  1 250 sender ok
say 1 RCPT TO:<alice>
  1 250 recipient ok
say 1 DATA
  1 354 end with a line that is a single period
say 1 Subject: hi
say 1
say 1 hello
say 1 .
  1 250 stored
again 1
  * 1 heard
post 1
  * 1 heard
end
nodes 3
copies 3 3
buckets 1
user alice tanstaaf
postmaster alice
go
open smtp 1
  1 220 node1 Porcupine ready
say 1 HELO c.example
  1 250 node1
say 1 MAIL FROM:<bob@b.example>
  1 250 sender ok
say 1 RCPT TO:<alice>
  1 250 recipient ok
say 1 DATA
  1 354 end with a line that is a single period
say 1 .
drop 2
  1 451 not stored, try again
post 1
  * 1 heard
end
nodes 3
copies 3 2
buckets 1
user alice tanstaaf
postmaster alice
go
open smtp 1
  1 220 node1 Porcupine ready
say 1 HELO c.example
  1 250 node1
say 1 MAIL FROM:<bob@b.example>
  1 250 sender ok
say 1 RCPT TO:<alice>
  1 250 recipient ok
say 1 DATA
  1 354 end with a line that is a single period
say 1 .
drop 1
post 2
  * 2 heard
post 3
  * 3 heard
  1 250 stored
end
nodes 3
copies 3 3
buckets 1
user alice tanstaaf
postmaster alice
go
open smtp 1
  1 220 node1 Porcupine ready
say 1 HELO c.example
  1 250 node1
say 1 MAIL FROM:<bob@b.example>
  1 250 sender ok
say 1 RCPT TO:<alice>
  1 250 recipient ok
say 1 DATA
  1 354 end with a line that is a single period
say 1 .
crash 1
  * node 1 down
  1 421 node1 down
  * 1 closed
flow
  * flowed
end
nodes 3
copies 3 3
buckets 1
user alice tanstaaf
postmaster alice
go
open smtp 1
  1 220 node1 Porcupine ready
say 1 HELO c.example
  1 250 node1
say 1 MAIL FROM:<bob@b.example>
  1 250 sender ok
say 1 RCPT TO:<alice>
  1 250 recipient ok
say 1 DATA
  1 354 end with a line that is a single period
say 1 .
crash 3
  * node 3 down
post 2
  * 2 thrown down
  1 451 not stored, try again
say 1 QUIT
  1 221 node1 closing
  * 1 closed
end
nodes 3
copies 3 3
buckets 1
user alice tanstaaf
postmaster alice
go
open smtp 1
  1 220 node1 Porcupine ready
say 1 HELO c.example
  1 250 node1
say 1 MAIL FROM:<bob@b.example>
  1 250 sender ok
say 1 RCPT TO:<alice>
  1 250 recipient ok
say 1 DATA
  1 354 end with a line that is a single period
say 1 .
close 1
flow
  * flowed
end
";

const PLAN_OF_THREE: &[u8] = b"\
nodes 3
copies 3 2
buckets 1
user alice tanstaaf
postmaster alice
go
";

// What there is no letter, no node or no session for.
const REFUSED: &[u8] = b"\
open pop 1
  1 +OK node1 ready <1.1.0@node1>
crash 2
  * node 2 down
open pop 2
  ! line 9 NodeDown
open pop 0
  ! line 7 NoSuchNode
open pop 4
  ! line 7 NoSuchNode
open smtp 0
  ! line 7 NoSuchNode
open smtp 4
  ! line 7 NoSuchNode
crash 2
  * node 2 down
open smtp 2
  ! line 8 NodeDown
lose 2
  * node 2 lost
open smtp 2
  ! line 8 NodeLost
crash
  ! line 7 BadLine
crash 1 1
  ! line 7 BadLine
crash 0
  ! line 7 NoSuchNode
crash 4
  ! line 7 NoSuchNode
crash 2
  * node 2 down
crash 2
  ! line 8 NodeDown
lose 2
  * node 2 lost
crash 2
  ! line 8 NodeLost
start 1
  ! line 7 NodeUp
start 4
  ! line 7 NoSuchNode
crash 2
  * node 2 down
start 2
  * node 2 up 2
start 2
  ! line 9 NodeUp
lose 2
  * node 2 lost
start 2
  ! line 8 NodeLost
lose 4
  ! line 7 NoSuchNode
lose 2
  * node 2 lost
lose 2
  ! line 8 NodeLost
crash 2
  * node 2 down
lose 2
  * node 2 lost
start 2
  ! line 9 NodeLost
post
  ! line 7 BadLine
post 0
  ! line 7 NoSuchLetter
post 1
  ! line 7 NoSuchLetter
again 1
  ! line 7 NoSuchLetter
drop 1
  ! line 7 NoSuchLetter
flow 1
  ! line 7 BadLine
flow
  * flowed
post 1
  ! line 8 NoSuchLetter
giveup 1
  ! line 7 NoSuchSession
open smtp 1
  1 220 node1 Porcupine ready
giveup 1
  ! line 8 BadLine
open smtp 1
  1 220 node1 Porcupine ready
close 1
giveup 1
  ! line 9 NoSuchSession
push 4
  ! line 7 NoSuchNode
push 1
  * sent 0
push 0
  ! line 8 NoSuchNode
crash 2
  * node 2 down
push 2
  * sent 0
push x
  ! line 9 BadLine
widen 1 bob 1.1.1 2
  ! line 7 BadLine
widen 4 alice 1.1.1 2
  ! line 7 NoSuchNode
widen 1 alice 1.1.1 4
  ! line 7 NoSuchNode
widen 1 alice 1.1.1 2
  * not widened
crash 1
  * node 1 down
widen 1 alice 1.1.1 2
  ! line 9 NodeDown
open smtp 2
  1 220 node2 Porcupine ready
open smtp 3
  2 220 node3 Porcupine ready
crash 2
  * node 2 down
  1 421 node2 down
  * 1 closed
say 2 HELO c
  2 250 node3
say 1 HELO c
  ! line 11 NoSuchSession
open smtp 2
  1 220 node2 Porcupine ready
lose 2
  * node 2 lost
  1 421 node2 down
  * 1 closed
close 1
  ! line 9 NoSuchSession
";

#[test]
fn letters_and_nodes_are_moved_by_the_tape_alone(rt: HostRuntime) -> Result<(), Fail> {
    each_case(&rt, rt.alloc(), b"", HANDLED)?;
    each_case(&rt, rt.alloc(), PLAN_OF_THREE, REFUSED)
}
