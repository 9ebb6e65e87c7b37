// What a client says and what it hears, each row of a table of replies: a line that is not indented is said, and the lines below
// it, without their indent, are the reply. The greeting comes before all of them.

pub(super) const SMTP_GREETING: &[u8] = b"220 node1 Porcupine ready\r\n";

pub(super) const SMTP: &[u8] = b"\
NOOP anything
  250 ok
HELLO c
  500 unknown command
HELP
  502 not done here
EHLO
  501 bad argument
MAIL FROM:<a>
  503 bad order
EHLO c
  250-node1
  250-SIZE 16777216
  250-8BITMIME
  250 PIPELINING
RCPT TO:<alice>
  503 bad order
DATA
  503 bad order
MAIL FROM:<a> SIZE=16777217
  552 message too large
MAIL FROM:<a> SIZES=1
  555 parameter not known
MAIL FROM:<a> SIZE=10
  250 sender ok
MAIL FROM:<a>
  503 bad order
DATA
  503 bad order
RCPT TO:<bob>
  550 no such mailbox
RCPT TO:<alice>
  250 recipient ok
RCPT TO:<ALICE>
  250 recipient ok
RCPT TO:<postmaster>
  250 recipient ok
VRFY alice
  252 not verified
DATA
  354 end with a line that is a single period
..x
QUIT
.
  250 stored
DATA
  503 bad order
RSET
  250 reset
QUIT
  221 node1 closing
NOOP
";

pub(super) const POP_GREETING: &[u8] = b"+OK node1 ready <3.12.1000000000@node1>\r\n";

pub(super) const POP: &[u8] = b"\
RETRIEVE
  -ERR unknown command
CAPA
  +OK capabilities
  TOP
  USER
  UIDL
  PIPELINING
  RESP-CODES
  .
STAT
  -ERR bad order
USER
  -ERR bad argument
USER bob
  +OK send PASS
PASS sesame
  -ERR name or secret is wrong
USER alice
  +OK send PASS
NOOP
  -ERR bad order
PASS sesame
  -ERR bad order
USER alice
  +OK send PASS
PASS sesame
  +OK maildrop open
USER alice
  -ERR bad order
PASS sesame
  -ERR bad order
APOP alice 1c9053e391e7f9bbf5501b773c9dbbfc
  -ERR bad order
CAPA
  +OK capabilities
  TOP
  USER
  UIDL
  PIPELINING
  RESP-CODES
  .
STAT
  +OK 2 34
LIST
  +OK listing
  1 17
  2 17
  .
LIST 3
  -ERR no such message
LIST x
  -ERR bad argument
LIST 1
  +OK 1 17
UIDL
  +OK unique ids
  1 1.1.1
  2 1.1.2
  .
UIDL 2
  +OK 2 1.1.2
TOP 1 0
  +OK top
  Subject: x
  
  .
RETR 1
  +OK 17 octets
  Subject: x
  
  ..
  .
DELE 2
  +OK message 2 deleted
DELE 2
  -ERR no such message
RETR 2
  -ERR no such message
TOP 2 1
  -ERR no such message
UIDL 2
  -ERR no such message
LIST 2
  -ERR no such message
STAT
  +OK 1 17
RSET
  +OK unmarked
STAT
  +OK 2 34
NOOP
  +OK
QUIT
  +OK bye
STAT
";

// The first login fails, and then the first fetch; the second finds that its message was deleted.
pub(super) const POP_FAILING: &[u8] = b"\
USER alice
  +OK send PASS
PASS sesame
  -ERR [SYS/TEMP] try again later
USER alice
  +OK send PASS
PASS sesame
  +OK maildrop open
RETR 1
  -ERR [SYS/TEMP] try again later
TOP 1 1
  -ERR message was deleted
QUIT
  +OK bye
";
