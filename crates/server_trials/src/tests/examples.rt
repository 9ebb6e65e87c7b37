// The tapes of the folder examples/ for one node, with what its files say that is written for them.
//
// Each table is one tape and, indented, its transcript: the script examples/compare.py takes both out of this file and says
// where one of them differs from the file of the example.

use super::each_case;
use std::test::Fail;

const FIRST: &[u8] = b"\
nodes 1
copies 1 1
buckets 1
user alice tanstaaf
postmaster alice
go
open smtp 1
  1 220 node1 Porcupine ready
say 1 HELO c.example
  1 250 node1
say 1 MAIL FROM:<bob@b.example>
  1 250 sender ok
say 1 RCPT TO:<alice>
  1 250 recipient ok
say 1 DATA
  1 354 end with a line that is a single period
say 1 Subject: hi
say 1
say 1 hello
say 1 .
  1 250 stored
say 1 QUIT
  1 221 node1 closing
  * 1 closed
end
";

const READING: &[u8] = b"\
nodes 1
copies 1 1
buckets 1
user alice tanstaaf
user bob open sesame
postmaster alice
go
open smtp 1
  1 220 node1 Porcupine ready
say 1 HELO c.example
  1 250 node1
say 1 MAIL FROM:<bob@b.example>
  1 250 sender ok
say 1 RCPT TO:<alice>
  1 250 recipient ok
say 1 RCPT TO:<postmaster>
  1 250 recipient ok
say 1 DATA
  1 354 end with a line that is a single period
say 1 Subject: hi
say 1
say 1 ..a line that begins with a period
say 1 .
  1 250 stored
feed 1 4d41494c2046524f4d3a3c3e0d0a52435054
  1 250 sender ok
feed 1 20544f3a3c626f623e0d0a444154410d0a78
  1 250 recipient ok
  1 354 end with a line that is a single period
feed 1 0a2e0a790d0a2e0d0a515549540d0a
  1 250 stored
  1 221 node1 closing
  * 1 closed
open pop 1
  2 +OK node1 ready <1.2.0@node1>
say 2 USER Alice
  2 +OK send PASS
say 2 PASS tanstaaf
  2 +OK maildrop open
say 2 STAT
  2 +OK 1 179
say 2 UIDL
  2 +OK unique ids
  2 1 1.1.1
  2 .
say 2 RETR 1
  2 +OK 179 octets
  2 Return-Path: <bob@b.example>
  2 Received: from c.example
  2  by node1 with SMTP id <1.1.1@node1>;
  2  Thu, 01 Jan 1970 00:00:00 +0000
  2 Subject: hi
  2\x20
  2 ..a line that begins with a period
  2 .
say 2 QUIT
  2 +OK bye
  * 2 closed
open pop 1
  3 +OK node1 ready <1.3.0@node1>
say 3 USER bob
  3 +OK send PASS
say 3 PASS open  sesame
  3 -ERR name or secret is wrong
say 3 USER bob
  3 +OK send PASS
say 3 PASS open sesame
  3 +OK maildrop open
say 3 LIST
  3 +OK listing
  3 1 123
  3 .
say 3 RETR 1
  3 +OK 123 octets
  3 Return-Path: <>
  3 Received: from c.example
  3  by node1 with SMTP id <1.1.2@node1>;
  3  Thu, 01 Jan 1970 00:00:00 +0000
  3 x\\x0A.\\x0Ay
  3 .
close 3
end
";

const EXTENDED: &[u8] = b"\
nodes 1
copies 1 1
buckets 1
user alice tanstaaf
postmaster alice
go
open smtp 1
  1 220 node1 Porcupine ready
say 1 EHLO c.example
  1 250-node1
  1 250-SIZE 16777216
  1 250-8BITMIME
  1 250 PIPELINING
say 1 MAIL FROM:<bob@b.example> SIZE=33 BODY=8BITMIME
  1 250 sender ok
say 1 RCPT TO:<alice>
  1 250 recipient ok
say 1 DATA
  1 354 end with a line that is a single period
say 1 Subject: notes
say 1
say 1 first
say 1 second
say 1 .
  1 250 stored
say 1 NOOP
  1 250 ok
say 1 QUIT
  1 221 node1 closing
  * 1 closed
open pop 1
  2 +OK node1 ready <1.2.0@node1>
say 2 CAPA
  2 +OK capabilities
  2 TOP
  2 USER
  2 UIDL
  2 PIPELINING
  2 RESP-CODES
  2 .
say 2 APOP alice c74ecdd9484c34e50e708ce3f1a6114f
  2 -ERR name or secret is wrong
say 2 APOP alice 53469115d388082c0489dbf8319aa86f
  2 +OK maildrop open
say 2 TOP 1 1
  2 +OK top
  2 Return-Path: <bob@b.example>
  2 Received: from c.example
  2  by node1 with ESMTP id <1.1.1@node1>;
  2  Thu, 01 Jan 1970 00:00:00 +0000
  2 Subject: notes
  2 
  2 first
  2 .
say 2 DELE 1
  2 +OK message 1 deleted
say 2 RSET
  2 +OK unmarked
say 2 STAT
  2 +OK 1 163
say 2 QUIT
  2 +OK bye
  * 2 closed
end
";

const DAY: &[u8] = b"\
nodes 1
copies 1 1
buckets 16
user alice tanstaaf
user bob open sesame
postmaster alice
go
open smtp 1
  1 220 node1 Porcupine ready
say 1 HELO mail.example
  1 250 node1
say 1 MAIL FROM:<carol@mail.example>
  1 250 sender ok
say 1 RCPT TO:<alice>
  1 250 recipient ok
say 1 RCPT TO:<bob>
  1 250 recipient ok
say 1 DATA
  1 354 end with a line that is a single period
say 1 Subject: lunch
say 1
say 1 At noon?
say 1 .
  1 250 stored
say 1 MAIL FROM:<list@mail.example>
  1 250 sender ok
say 1 RCPT TO:<alice>
  1 250 recipient ok
say 1 DATA
  1 354 end with a line that is a single period
say 1 Subject: this week
say 1
say 1 Nothing new.
say 1 .
  1 250 stored
open pop 1
  2 +OK node1 ready <1.2.0@node1>
say 2 USER alice
  2 +OK send PASS
say 2 PASS tanstaaf
  2 +OK maildrop open
say 2 LIST
  2 +OK listing
  2 1 165
  2 2 172
  2 .
say 2 RETR 1
  2 +OK 165 octets
  2 Return-Path: <carol@mail.example>
  2 Received: from mail.example
  2  by node1 with SMTP id <1.1.1@node1>;
  2  Thu, 01 Jan 1970 00:00:00 +0000
  2 Subject: lunch
  2\x20
  2 At noon?
  2 .
say 2 DELE 1
  2 +OK message 1 deleted
close 2
open pop 1
  3 +OK node1 ready <1.3.0@node1>
say 3 USER alice
  3 +OK send PASS
say 3 PASS tanstaaf
  3 +OK maildrop open
say 3 UIDL
  3 +OK unique ids
  3 1 1.1.1
  3 2 1.1.2
  3 .
say 3 DELE 1
  3 +OK message 1 deleted
say 3 LIST
  3 +OK listing
  3 2 172
  3 .
say 3 RETR 1
  3 -ERR no such message
say 1 MAIL FROM:<bob@mail.example>
  1 250 sender ok
say 1 RCPT TO:<alice>
  1 250 recipient ok
say 1 DATA
  1 354 end with a line that is a single period
say 1 Yes.
say 1 .
  1 250 stored
say 3 STAT
  3 +OK 1 172
open pop 1
  4 +OK node1 ready <1.4.0@node1>
say 4 USER alice
  4 +OK send PASS
say 4 PASS tanstaaf
  4 -ERR [IN-USE] maildrop is open elsewhere
say 3 QUIT
  3 +OK bye
  * 3 closed
say 4 USER alice
  4 +OK send PASS
say 4 PASS tanstaaf
  4 +OK maildrop open
say 4 RETR 2
  4 +OK 141 octets
  4 Return-Path: <bob@mail.example>
  4 Received: from mail.example
  4  by node1 with SMTP id <1.1.3@node1>;
  4  Thu, 01 Jan 1970 00:00:00 +0000
  4 Yes.
  4 .
say 4 QUIT
  4 +OK bye
  * 4 closed
open pop 1
  5 +OK node1 ready <1.5.0@node1>
say 5 USER alice
  5 +OK send PASS
say 5 PASS tanstaaf
  5 +OK maildrop open
say 5 UIDL
  5 +OK unique ids
  5 1 1.1.2
  5 2 1.1.3
  5 .
say 5 QUIT
  5 +OK bye
  * 5 closed
open pop 1
  6 +OK node1 ready <1.6.0@node1>
say 6 USER bob
  6 +OK send PASS
say 6 PASS open sesame
  6 +OK maildrop open
say 6 RETR 1
  6 +OK 165 octets
  6 Return-Path: <carol@mail.example>
  6 Received: from mail.example
  6  by node1 with SMTP id <1.1.1@node1>;
  6  Thu, 01 Jan 1970 00:00:00 +0000
  6 Subject: lunch
  6\x20
  6 At noon?
  6 .
say 6 QUIT
  6 +OK bye
  * 6 closed
say 1 QUIT
  1 221 node1 closing
  * 1 closed
end
";

#[test]
fn each_example_is_answered_as_its_file_says(rt: HostRuntime) -> Result<(), Fail> {
    for lines in [FIRST, READING, EXTENDED, DAY] {
        each_case(&rt, rt.alloc(), b"", lines)?;
    }
    Ok(())
}
