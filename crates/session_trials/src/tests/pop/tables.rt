// Tables: what a client says, with what it hears below it.

// What comes before each client is let in, and in what order.
pub(super) const LOGINS: &[u8] = b"\
STAT
  -ERR bad order
LIST
  -ERR bad order
LIST 1
  -ERR bad order
UIDL
  -ERR bad order
RETR 1
  -ERR bad order
DELE 1
  -ERR bad order
PASS sesame
  -ERR bad order
USER nobody
  +OK send PASS
PASS sesame
  -ERR name or secret is wrong
PASS sesame
  -ERR bad order
USER alice
  +OK send PASS
STAT
  -ERR bad order
PASS sesame
  -ERR bad order
USER alice
  +OK send PASS
XYZZY
  -ERR unknown command
PASS sesame
  -ERR bad order
USER alice
  +OK send PASS
USER @
  -ERR bad argument
PASS sesame
  -ERR bad order
USER alice
  +OK send PASS
PASS
  -ERR bad argument
PASS sesame
  -ERR bad order
USER alice
  +OK send PASS
PASS sesame\x20
  asks for alice
  -ERR name or secret is wrong
PASS sesame
  -ERR bad order
USER alice
  +OK send PASS
PASS \x00\xFF
  asks for alice
  -ERR name or secret is wrong
USER nobody
  +OK send PASS
USER BOB
  +OK send PASS
PASS sesame
  asks for bob
  +OK maildrop open
";

// APOP: it takes two words, comes at any time before the login and not after it, and its digest is of the session's own banner.
pub(super) const DIGESTS: &[u8] = b"\
APOP
  -ERR bad argument
APOP alice
  -ERR bad argument
APOP alice 1c9053e391e7f9bbf5501b773c9dbbf
  -ERR bad argument
APOP alice 1c9053e391e7f9bbf5501b773c9dbbfc 1
  -ERR bad argument
APOP al<ice 1c9053e391e7f9bbf5501b773c9dbbfc
  -ERR bad argument
APOP nobody 1c9053e391e7f9bbf5501b773c9dbbfc
  -ERR name or secret is wrong
APOP alice 4e9be835328395b469b9663708f5dc43
  asks for alice
  -ERR name or secret is wrong
APOP alice c8dae1c50e092f3d877192fc555b1dcf
  asks for alice
  -ERR name or secret is wrong
USER alice
  +OK send PASS
APOP alice 00000000000000000000000000000000
  asks for alice
  -ERR name or secret is wrong
PASS sesame
  -ERR bad order
apop  ALICE   1c9053e391e7f9bbf5501b773c9dbbFC \t
  asks for alice
  +OK maildrop open
APOP alice 1c9053e391e7f9bbf5501b773c9dbbfc
  -ERR bad order
APOP alice
  -ERR bad argument
STAT
  +OK 2 179
QUIT
  +OK bye
  closed
";

// A maildrop of one message of 151 octets.
pub(super) const ONE_MESSAGE: &[u8] = b"\
USER alice
  +OK send PASS
PASS sesame
  asks for alice
  +OK maildrop open
STAT
  +OK 1 151
LIST
  +OK listing
  1 151
  .
LIST 1
  +OK 1 151
UIDL
  +OK unique ids
  1 1.1.1
  .
uidl 1
  +OK 1 1.1.1
RETR 1
  asks for 1.1.1
  +OK 28 octets
  Subject: x
  
  ..
  ...
  x.\ry
  z
  .
LIST 0
  -ERR no such message
LIST 2
  -ERR no such message
UIDL 4294967295
  -ERR no such message
RETR 0
  -ERR no such message
RETR 4294967296
  -ERR bad argument
STAT 1
  -ERR bad argument
USER bob
  -ERR bad order
PASS sesame
  -ERR bad order
XYZZY
  -ERR unknown command
DELE 0
  -ERR no such message
DELE 2
  -ERR no such message
DELE
  -ERR bad argument
STAT
  +OK 1 151
QUIT
  +OK bye
  closed
";

// CAPA, NOOP, RSET and TOP in every order, and with more and fewer arguments.
pub(super) const OPTIONAL: &[u8] = b"\
CAPA
  +OK capabilities
  TOP
  USER
  UIDL
  PIPELINING
  RESP-CODES
  .
CAPA all
  -ERR bad argument
TOP 1 0
  -ERR bad order
NOOP
  -ERR bad order
RSET
  -ERR bad order
USER alice
  +OK send PASS
CAPA
  +OK capabilities
  TOP
  USER
  UIDL
  PIPELINING
  RESP-CODES
  .
PASS sesame
  -ERR bad order
USER alice
  +OK send PASS
PASS sesame
  asks for alice
  +OK maildrop open
CAPA
  +OK capabilities
  TOP
  USER
  UIDL
  PIPELINING
  RESP-CODES
  .
NOOP
  +OK
NOOP now
  -ERR bad argument
TOP 1 0
  asks for 1.1.1
  +OK top
  Subject: x
  
  .
top 1 1
  asks for 1.1.1
  +OK top
  Subject: x
  
  ..
  .
TOP 1 3
  asks for 1.1.1
  +OK top
  Subject: x
  
  ..
  ...
  x.\ry
  .
TOP 1 4
  asks for 1.1.1
  +OK top
  Subject: x
  
  ..
  ...
  x.\ry
  z
  .
TOP 1 4294967295
  asks for 1.1.1
  +OK top
  Subject: x
  
  ..
  ...
  x.\ry
  z
  .
TOP 2 9
  asks for 1.1.2
  -ERR message was deleted
TOP 0 0
  -ERR no such message
TOP 5 0
  -ERR no such message
TOP 1
  -ERR bad argument
TOP 1 2 3
  -ERR bad argument
TOP 1 4294967296
  -ERR bad argument
DELE 1
  +OK message 1 deleted
DELE 3
  +OK message 3 deleted
TOP 1 0
  -ERR no such message
STAT
  +OK 2 452
RSET now
  -ERR bad argument
STAT
  +OK 2 452
RSET
  +OK unmarked
STAT
  +OK 4 754
UIDL 3
  +OK 3 1.1.3
DELE 4
  +OK message 4 deleted
QUIT
  deletes 1.1.4
  +OK bye
  closed
";

// What a client may send at once.
pub(super) const PIPELINED: &[u8] = b"\
USER alice
  +OK send PASS
PASS sesame
  asks for alice
  +OK maildrop open
STAT
  +OK 2 179
UIDL
  +OK unique ids
  1 1.1.1
  2 1.1.2
  .
RETR 1
  asks for 1.1.1
  +OK 28 octets
  Subject: x
  
  ..
  ...
  x.\ry
  z
  .
TOP 1 1
  asks for 1.1.1
  +OK top
  Subject: x
  
  ..
  .
RETR 2
  asks for 1.1.2
  -ERR message was deleted
DELE 1
  +OK message 1 deleted
QUIT
  deletes 1.1.1
  +OK bye
  closed
";

// A maildrop of none.
pub(super) const NO_MESSAGE: &[u8] = b"\
USER bob
  +OK send PASS
PASS sesame
  asks for bob
  +OK maildrop open
STAT
  +OK 0 0
LIST
  +OK listing
  .
UIDL
  +OK unique ids
  .
LIST 1
  -ERR no such message
RETR 1
  -ERR no such message
DELE 1
  -ERR no such message
QUIT
  +OK bye
  closed
";

// Messages of other nodes and boots, and the greatest length.
pub(super) const THREE_MESSAGES: &[u8] = b"\
USER alice
  +OK send PASS
PASS sesame
  asks for alice
  +OK maildrop open
STAT
  +OK 3 18446744073709552068
LIST
  +OK listing
  1 302
  2 151
  3 18446744073709551615
  .
LIST 2
  +OK 2 151
UIDL
  +OK unique ids
  1 2.1.7
  2 16.4294967295.18446744073709551615
  3 1.3.12
  .
UIDL 3
  +OK 3 1.3.12
RETR 3
  asks for 1.3.12
  -ERR message was deleted
";

// Marked messages keep their numbers, are passed over, and are deleted by QUIT.
pub(super) const MARKS: &[u8] = b"\
USER alice
  +OK send PASS
PASS sesame
  asks for alice
  +OK maildrop open
DELE 2
  +OK message 2 deleted
DELE 2
  -ERR no such message
DELE 5
  -ERR no such message
STAT
  +OK 3 603
LIST
  +OK listing
  1 101
  3 201
  4 301
  .
LIST 2
  -ERR no such message
LIST 3
  +OK 3 201
UIDL
  +OK unique ids
  1 1.1.1
  3 1.1.3
  4 1.1.4
  .
UIDL 2
  -ERR no such message
UIDL 4
  +OK 4 1.1.4
RETR 2
  -ERR no such message
RETR 3
  asks for 1.1.3
  -ERR message was deleted
DELE 4
  +OK message 4 deleted
dele 1
  +OK message 1 deleted
STAT
  +OK 1 201
LIST
  +OK listing
  3 201
  .
QUIT now
  -ERR bad argument
QUIT
  deletes 1.1.1
  deletes 1.1.2
  deletes 1.1.4
  +OK bye
  closed
";

// A QUIT of a client that was not let in.
pub(super) const NOT_LET_IN: &[u8] = b"\
QUIT
  +OK bye
  closed
!leaves
  leaves nothing
";

// A login that failed.
pub(super) const FAILED_LOGIN: &[u8] = b"\
!fails
USER alice
  +OK send PASS
PASS sesame
  asks for alice
  -ERR [SYS/TEMP] try again later
STAT
  -ERR bad order
!leaves
  leaves nothing
";

// A login that was given up.
pub(super) const LOGIN_GIVEN_UP: &[u8] = b"\
!gives up
USER alice
  +OK send PASS
PASS sesame
  asks for alice
  -ERR [SYS/TEMP] try again later
STAT
  -ERR bad order
!leaves
  leaves nothing
";

/// What clients say that were let in to a maildrop of two messages, of 28 and of 151 octets.
pub(super) const LET_IN: [&[u8]; 11] = [
    // Calls that fail.
    b"\
!fails
RETR 1
  asks for 1.1.1
  -ERR [SYS/TEMP] try again later
DELE 2
  +OK message 2 deleted
QUIT
  deletes 1.1.2
  -ERR [SYS/TEMP] some messages may remain
  closed
STAT
",
    // Calls that are given up.
    b"\
!gives up
RETR 1
  asks for 1.1.1
  -ERR [SYS/TEMP] try again later
DELE 2
  +OK message 2 deleted
QUIT
  deletes 1.1.2
  -ERR [SYS/TEMP] some messages may remain
  closed
STAT
",
    // No line is heard before the answer came, and then those that waited are.
    b"\
!is late
RETR 1
  asks for 1.1.1
STAT
DELE 1
QUIT
!was deleted
  -ERR message was deleted
  +OK 2 179
  +OK message 1 deleted
  deletes 1.1.1
!could not
  -ERR [SYS/TEMP] some messages may remain
  closed
",
    // The node goes down: as the client says nothing, within a line, as it waits for a message, and for a deletion.
    b"\
!down
  -ERR [SYS/TEMP] node1 down
  closed
STAT
",
    b"\
DELE 1
  +OK message 1 deleted
!part QUI
!down
  -ERR [SYS/TEMP] node1 down
  closed
!part T
STAT
",
    b"\
!is late
RETR 1
  asks for 1.1.1
!down
  -ERR [SYS/TEMP] node1 down
  closed
!was deleted
",
    b"\
!is late
DELE 1
  +OK message 1 deleted
QUIT
  deletes 1.1.1
!down
  -ERR [SYS/TEMP] node1 down
  closed
!could not
",
    // Each leaves as whom it was let in, however it ended.
    b"\
!leaves
  leaves alice
",
    b"\
QUIT
  +OK bye
  closed
!leaves
  leaves alice
",
    b"\
DELE 1
  +OK message 1 deleted
QUIT
  deletes 1.1.1
  +OK bye
  closed
!leaves
  leaves alice
",
    b"\
DELE 1
  +OK message 1 deleted
!leaves
  leaves alice
",
];
