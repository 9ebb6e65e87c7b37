// Tables: what a client says, with what it hears below it, and what it sent.

// What comes before each text.
pub(super) const BEGIN: &[u8] = b"\
HELO c
  250 node1
MAIL FROM:<bob>
  250 sender ok
RCPT TO:<alice>
  250 recipient ok
DATA
  354 end with a line that is a single period
";

// Commands in and out of order, and two messages of one session.
pub(super) const COMMANDS: &[u8] = b"\
MAIL FROM:<bob>
  503 bad order
HELO c.example
  250 node1
RCPT TO:<alice>
  503 bad order
DATA
  503 bad order
MAIL FROM:<sender@example.org>
  250 sender ok
MAIL FROM:<bob>
  503 bad order
DATA
  503 bad order
RCPT TO:<nobody>
  550 no such mailbox
DATA
  503 bad order
RCPT TO:<ALICE>
  250 recipient ok
RCPT TO:<alice>
  250 recipient ok
RCPT TO:<PostMaster>
  250 recipient ok
DATA
  354 end with a line that is a single period
first
..
.a

QUIT
.
  from sender@example.org
  helo c.example
  to alice
  | first
  | .
  | a
  | 
  | QUIT
  250 stored
RCPT TO:<bob>
  503 bad order
MAIL FROM:<>
  250 sender ok
RCPT TO:<bob>
  250 recipient ok
RCPT TO:<PostMaster>
  250 recipient ok
DATA
  354 end with a line that is a single period
.
  from 
  helo c.example
  to bob
  to alice
  250 stored
";

// Commands that are refused, and QUIT.
pub(super) const REFUSED: &[u8] = b"\
MAIL FROM:<bob>
  503 bad order
HELO c.example
  250 node1
MAIL FROM:<bob>
  250 sender ok
RCPT TO:<alice>
  250 recipient ok
HELO d.example
  250 node1
RCPT TO:<alice>
  503 bad order
XYZZY
  500 unknown command

  500 unknown command
MAIL FROM:bob
  501 bad argument
QUIT now
  501 bad argument
QUIT
  221 node1 closing
  closed
";

// Lone CRs and LFs end no line, and what comes after QUIT is not heard.
pub(super) const PIECES: &[u8] = b"\
MAIL FROM:<bob>
  503 bad order
HELO c.example
  250 node1
MAIL FROM:<bob>
  250 sender ok
RCPT TO:<alice>
  250 recipient ok
DATA
  354 end with a line that is a single period
..
QUIT
.a
...
.
  from bob
  helo c.example
  to alice
  | .
  | QUIT
  | a
  | ..
  250 stored
HELO\rd
  500 unknown command
RSET\r
  500 unknown command
MAIL FROM:<>
  250 sender ok
RCPT TO:<bob>
  250 recipient ok
DATA
  354 end with a line that is a single period
.
  from 
  helo c.example
  to bob
  250 stored
QUIT
  221 node1 closing
  closed
NO
";

// What is refused, RSET and a second MAIL tell nothing.
pub(super) const NOTHING_TOLD: &[u8] = b"\
XYZZY
  500 unknown command
DATA now
  501 bad argument
VRFY
  501 bad argument
EXPN
  502 not done here
HELP MAIL
  502 not done here
NOOP
  250 ok
RSET
  250 reset
VRFY alice
  252 not verified
MAIL FROM:<bob>
  503 bad order
HELO c
  250 node1
MAIL FROM:<other>
  250 sender ok
RCPT TO:<bob>
  250 recipient ok
EHLO c.example
  250-node1
  250-SIZE 16777216
  250-8BITMIME
  250 PIPELINING
RCPT TO:<alice>
  503 bad order
MAIL FROM:<bob> SIZE=16777217
  552 message too large
MAIL FROM:<bob> SIZE=18446744073709551617
  552 message too large
MAIL FROM:<bob> SIZE=1 SIZE=1
  501 bad argument
MAIL FROM:<bob> AUTH=<>
  555 parameter not known
RCPT TO:<alice>
  503 bad order
MAIL FROM:<@x.example:bob@b.example> SIZE=16777216 BODY=8bitmime
  250 sender ok
MAIL FROM:<other> SIZE=1
  503 bad order
MAIL FROM:<other> SIZE=16777217
  503 bad order
RCPT TO:<nobody>
  550 no such mailbox
RCPT TO:<bob> NOTIFY=NEVER
  555 parameter not known
DATA
  503 bad order
RCPT TO:<POSTMASTER>
  250 recipient ok
NOOP any thing
  250 ok
EXPN list
  502 not done here
VRFY nobody
  252 not verified
DATA
  354 end with a line that is a single period
RSET
.
  from bob@b.example
  ehlo c.example
  to alice
  | RSET
  250 stored
MAIL FROM:<one>
  250 sender ok
RCPT TO:<alice>
  250 recipient ok
RSET
  250 reset
RCPT TO:<bob>
  503 bad order
DATA
  503 bad order
MAIL FROM:<two>
  250 sender ok
RCPT TO:<bob>
  250 recipient ok
DATA
  354 end with a line that is a single period
.
  from two
  ehlo c.example
  to bob
  250 stored
HELO d
  250 node1
MAIL FROM:<>
  250 sender ok
RCPT TO:<bob>
  250 recipient ok
DATA
  354 end with a line that is a single period
.
  from 
  helo d
  to bob
  250 stored
QUIT
  221 node1 closing
  closed
";

// What a client may send at once.
pub(super) const PIPELINED: &[u8] = b"\
EHLO c
  250-node1
  250-SIZE 16777216
  250-8BITMIME
  250 PIPELINING
MAIL FROM:<a> SIZE=3
  250 sender ok
RCPT TO:<bob>
  250 recipient ok
DATA
  354 end with a line that is a single period
.a
.
  from a
  ehlo c
  to bob
  | a
  250 stored
NOOP
  250 ok
QUIT
  221 node1 closing
  closed
";

// An answer that nobody waits for is not replied to.
pub(super) const UNASKED: &[u8] = b"\
!stored
HELO c
  250 node1
";

/// What befalls clients that were asked for a text.
pub(super) const IN_TEXT: [&[u8]; 6] = [
    // A session whose node answers late hears no unit before it is answered.
    b"\
!is late
text
.
  from bob
  helo c
  to alice
  | text
HELO d
!stored
  250 stored
  250 node1
",
    b"\
!is late
text
.
  from bob
  helo c
  to alice
  | text
HELO d
!could not
  451 not stored, try again
  250 node1
",
    b"\
!is late
text
.
  from bob
  helo c
  to alice
  | text
HELO d
!no answer
  451 not stored, try again
  250 node1
",
    // A node that goes down ends its sessions: at the beginning of a text, in a line of it, and as they wait.
    b"\
!down
  421 node1 down
  closed
",
    b"\
HELO c
MAIL FROM:<bob>
!part RCPT
!down
  421 node1 down
  closed
",
    b"\
!is late
text
.
  from bob
  helo c
  to alice
  | text
!down
  421 node1 down
  closed
",
];

// Texts and what is filed of them; none where no line is a period.
pub(super) const TEXTS: [(&[u8], Option<&[u8]>); 11] = [
    (b".\r\n", Some(b"")),
    (b"..\r\n.\r\n", Some(b".\r\n")),
    (b"...\r\n.\r\n", Some(b"..\r\n")),
    (
        b"a\rb\nc\0\x7f\xff\r\n.\r\n",
        Some(b"a\rb\nc\0\x7f\xff\r\n"),
    ),
    (b"a\n.\nb\r\n.\r\n", Some(b"a\n.\nb\r\n")),
    (b"a\r.\rb\r\n.\r\n", Some(b"a\r.\rb\r\n")),
    (b"a\n.\r\nb\r\n.\r\n", Some(b"a\n.\r\nb\r\n")),
    (b".\n.\r\r\n.\r\n", Some(b"\n.\r\r\n")),
    (b"a\n.\n", None),
    (b"a\r.\r", None),
    (b"a\n.\r\n", None),
];
