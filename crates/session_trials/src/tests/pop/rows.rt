// Each row of the table of replies once, worked by hand. Each text is a session of its own, over two messages of 28 and of 151
// octets, of which the second was deleted since.
//
// Two rows are not in these texts. The first comes before each session, and the other needs a great input:
//
// | When | Reply | Test in `pop.rt` |
// |---|---|---|
// | session opened | `+OK node1 ready <3.12.1000000000@node1>` | all of them |
// | command line above 1,024 octets | `-ERR line too long` | `each_row_is_answered` |

// What a client says, with what it hears below it.
pub(super) const ROWS: [&[u8]; 11] = [
    b"\
# UnknownVerb
XYZZY
  -ERR unknown command
# BadArgument
USER
  -ERR bad argument
# BadNumber
RETR x
  -ERR bad argument
# CAPA in AUTHORIZATION
CAPA
  +OK capabilities
  TOP
  USER
  UIDL
  PIPELINING
  RESP-CODES
  .
# any other command but QUIT in AUTHORIZATION
STAT
  -ERR bad order
# PASS whose line does not come directly after the line of a good USER
PASS sesame
  -ERR bad order
# USER, and PASS of a name that is no user's
USER nobody
  +OK send PASS
PASS sesame
  -ERR name or secret is wrong
# APOP of a name that is no user's
APOP nobody 1c9053e391e7f9bbf5501b773c9dbbfc
  -ERR name or secret is wrong
# PASS answered Wrong
USER alice
  +OK send PASS
PASS other
  asks for alice
  -ERR name or secret is wrong
# APOP answered Wrong
APOP alice 00000000000000000000000000000000
  asks for alice
  -ERR name or secret is wrong
# QUIT in AUTHORIZATION
QUIT
  +OK bye
  closed
",
    b"\
# PASS and APOP answered InUse
!used elsewhere
USER alice
  +OK send PASS
PASS sesame
  asks for alice
  -ERR [IN-USE] maildrop is open elsewhere
APOP alice 1c9053e391e7f9bbf5501b773c9dbbfc
  asks for alice
  -ERR [IN-USE] maildrop is open elsewhere
STAT
  -ERR bad order
!leaves
  leaves nothing
",
    b"\
# PASS and APOP answered NoProfile
!has no profile
USER alice
  +OK send PASS
PASS sesame
  asks for alice
  -ERR [SYS/TEMP] try again later
APOP alice 1c9053e391e7f9bbf5501b773c9dbbfc
  asks for alice
  -ERR [SYS/TEMP] try again later
STAT
  -ERR bad order
!leaves
  leaves nothing
",
    b"\
# PASS and APOP answered Failed
!fails
USER alice
  +OK send PASS
PASS sesame
  asks for alice
  -ERR [SYS/TEMP] try again later
APOP alice 1c9053e391e7f9bbf5501b773c9dbbfc
  asks for alice
  -ERR [SYS/TEMP] try again later
",
    b"\
# PASS and APOP given up
!gives up
USER alice
  +OK send PASS
PASS sesame
  asks for alice
  -ERR [SYS/TEMP] try again later
APOP alice 1c9053e391e7f9bbf5501b773c9dbbfc
  asks for alice
  -ERR [SYS/TEMP] try again later
",
    b"\
# PASS answered Listed
USER alice
  +OK send PASS
PASS sesame
  asks for alice
  +OK maildrop open
# CAPA in TRANSACTION
CAPA
  +OK capabilities
  TOP
  USER
  UIDL
  PIPELINING
  RESP-CODES
  .
# USER, PASS and APOP in TRANSACTION
USER alice
  -ERR bad order
PASS sesame
  -ERR bad order
APOP alice 1c9053e391e7f9bbf5501b773c9dbbfc
  -ERR bad order
# STAT
STAT
  +OK 2 179
# LIST, RETR, TOP, UIDL and DELE of the number 0, or of one above the listing
LIST 0
  -ERR no such message
RETR 3
  -ERR no such message
TOP 0 1
  -ERR no such message
UIDL 3
  -ERR no such message
DELE 0
  -ERR no such message
# LIST
LIST
  +OK listing
  1 28
  2 151
  .
# LIST n
LIST 2
  +OK 2 151
# UIDL
UIDL
  +OK unique ids
  1 1.1.1
  2 1.1.2
  .
# UIDL n
UIDL 2
  +OK 2 1.1.2
# RETR n answered with octets
RETR 1
  asks for 1.1.1
  +OK 28 octets
  Subject: x
  
  ..
  ...
  x.\ry
  z
  .
# TOP n m answered with octets
TOP 1 1
  asks for 1.1.1
  +OK top
  Subject: x
  
  ..
  .
# RETR and TOP answered GoneAlready
RETR 2
  asks for 1.1.2
  -ERR message was deleted
TOP 2 1
  asks for 1.1.2
  -ERR message was deleted
# DELE n
DELE 1
  +OK message 1 deleted
# LIST, RETR, TOP, UIDL and DELE of a number that is marked
LIST 1
  -ERR no such message
RETR 1
  -ERR no such message
TOP 1 1
  -ERR no such message
UIDL 1
  -ERR no such message
DELE 1
  -ERR no such message
# NOOP
NOOP
  +OK
# RSET
RSET
  +OK unmarked
# QUIT with nothing marked
QUIT
  +OK bye
  closed
",
    b"\
# APOP answered Listed
APOP alice 1c9053e391e7f9bbf5501b773c9dbbfc
  asks for alice
  +OK maildrop open
DELE 1
  +OK message 1 deleted
# QUIT with marks answered Dropped
QUIT
  deletes 1.1.1
  +OK bye
  closed
",
    b"\
USER alice
  +OK send PASS
PASS sesame
  asks for alice
  +OK maildrop open
# RETR and TOP answered Failed
!fails
RETR 1
  asks for 1.1.1
  -ERR [SYS/TEMP] try again later
TOP 1 1
  asks for 1.1.1
  -ERR [SYS/TEMP] try again later
DELE 1
  +OK message 1 deleted
# QUIT with marks answered Failed
QUIT
  deletes 1.1.1
  -ERR [SYS/TEMP] some messages may remain
  closed
",
    b"\
USER alice
  +OK send PASS
PASS sesame
  asks for alice
  +OK maildrop open
# RETR and TOP given up
!gives up
RETR 1
  asks for 1.1.1
  -ERR [SYS/TEMP] try again later
TOP 1 1
  asks for 1.1.1
  -ERR [SYS/TEMP] try again later
DELE 1
  +OK message 1 deleted
# QUIT with marks given up
QUIT
  deletes 1.1.1
  -ERR [SYS/TEMP] some messages may remain
  closed
",
    b"\
# the node went down, in AUTHORIZATION
!down
  -ERR [SYS/TEMP] node1 down
  closed
",
    b"\
USER alice
  +OK send PASS
PASS sesame
  asks for alice
  +OK maildrop open
# the node went down, in TRANSACTION
!down
  -ERR [SYS/TEMP] node1 down
  closed
",
];
