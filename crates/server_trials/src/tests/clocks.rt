// The clock that a tape sets, and the counts of the book.

use super::{PLAN, each_case};
use std::test::Fail;

const CLOCK: &[u8] = b"\
sum
  * sum acked 0 struck 0 dropped 0 lost 0
open pop 1
  1 +OK node1 ready <1.1.0@node1>
tick 18446744073709551615
open pop 1
  2 +OK node1 ready <1.2.18446744073709551615@node1>
tick 1000000000
open pop 1
  3 +OK node1 ready <1.3.1000000000@node1>
open smtp 1
  4 220 node1 Porcupine ready
say 4 HELO c.example
  4 250 node1
say 4 MAIL FROM:<>
  4 250 sender ok
say 4 RCPT TO:<alice>
  4 250 recipient ok
say 4 DATA
  4 354 end with a line that is a single period
say 4 first
tick 86400
say 4 .
  4 250 stored
say 4 MAIL FROM:<>
  4 250 sender ok
say 4 RCPT TO:<alice>
  4 250 recipient ok
say 4 DATA
  4 354 end with a line that is a single period
say 4 last
tick 253402300799
say 4 .
  4 250 stored
say 4 MAIL FROM:<>
  4 250 sender ok
say 4 RCPT TO:<alice>
  4 250 recipient ok
say 4 DATA
  4 354 end with a line that is a single period
say 4 too late
tick 253402300800
say 4 .
  4 451 not stored, try again
say 4 MAIL FROM:<>
  4 250 sender ok
say 4 RCPT TO:<alice>
  4 250 recipient ok
say 4 DATA
  4 354 end with a line that is a single period
say 4 never
tick 18446744073709551615
say 4 .
  4 451 not stored, try again
say 4 MAIL FROM:<>
  4 250 sender ok
say 4 RCPT TO:<alice>
  4 250 recipient ok
say 4 DATA
  4 354 end with a line that is a single period
say 4 back
tick 951782399
say 4 .
  4 250 stored
sum
  * sum acked 3 struck 0 dropped 0 lost 0
say 3 USER alice
  3 +OK send PASS
say 3 PASS tanstaaf
  3 +OK maildrop open
say 3 STAT
  3 +OK 3 367
say 3 RETR 1
  3 +OK 123 octets
  3 Return-Path: <>
  3 Received: from c.example
  3  by node1 with SMTP id <1.1.1@node1>;
  3  Fri, 02 Jan 1970 00:00:00 +0000
  3 first
  3 .
say 3 RETR 2
  3 +OK 122 octets
  3 Return-Path: <>
  3 Received: from c.example
  3  by node1 with SMTP id <1.1.2@node1>;
  3  Fri, 31 Dec 9999 23:59:59 +0000
  3 last
  3 .
say 3 RETR 3
  3 +OK 122 octets
  3 Return-Path: <>
  3 Received: from c.example
  3  by node1 with SMTP id <1.1.5@node1>;
  3  Mon, 28 Feb 2000 23:59:59 +0000
  3 back
  3 .
say 3 DELE 2
  3 +OK message 2 deleted
sum
  * sum acked 3 struck 0 dropped 0 lost 0
say 3 QUIT
  3 +OK bye
  * 3 closed
sum
  * sum acked 3 struck 1 dropped 1 lost 0
crash 1
  * node 1 down
  1 -ERR [SYS/TEMP] node1 down
  * 1 closed
  2 -ERR [SYS/TEMP] node1 down
  * 2 closed
  4 421 node1 down
  * 4 closed
start 1
  * node 1 up 2
open pop 1
  5 +OK node1 ready <2.5.951782399@node1>
lose 1
  * node 1 lost
  5 -ERR [SYS/TEMP] node1 down
  * 5 closed
sum
  * sum acked 3 struck 1 dropped 1 lost 1
end
";

// Of three nodes two are enough: a message counts once it is answered, and a node that is lost counts once.
const COUNTS: &[u8] = b"\
nodes 3
copies 3 2
buckets 1
user alice tanstaaf
postmaster alice
go
open smtp 2
  1 220 node2 Porcupine ready
say 1 HELO c
  1 250 node2
say 1 MAIL FROM:<>
  1 250 sender ok
say 1 RCPT TO:<alice>
  1 250 recipient ok
say 1 DATA
  1 354 end with a line that is a single period
tick 7
say 1 x
say 1 .
sum
  * sum acked 0 struck 0 dropped 0 lost 0
tick 9
flow
  * flowed
  1 250 stored
sum
  * sum acked 1 struck 0 dropped 0 lost 0
lose 3
  * node 3 lost
sum
  * sum acked 1 struck 0 dropped 0 lost 1
lose 1
  * node 1 lost
sum
  * sum acked 1 struck 0 dropped 0 lost 2
end
";

#[test]
fn a_message_has_the_date_of_its_beginning(rt: HostRuntime) -> Result<(), Fail> {
    each_case(&rt, rt.alloc(), PLAN, CLOCK)
}

#[test]
fn the_book_is_counted_at_the_line(rt: HostRuntime) -> Result<(), Fail> {
    each_case(&rt, rt.alloc(), b"", COUNTS)
}
