// Each row of the table of replies once, worked by hand. Each text is a session of its own.
//
// Four rows are not in these texts. The first comes before each session, and the others need a great input:
//
// | When | Reply | Test in `smtp.rt` |
// |---|---|---|
// | session opened | `220 node1 Porcupine ready` | all of them |
// | command line above 1,024 octets | `500 line too long` | `each_row_is_answered` |
// | RCPT where 100 recipients stand | `452 too many recipients` | `each_row_is_answered` |
// | the text ended and has more than 16,777,216 octets | `552 message too large` | `texts_have_a_greatest_length` |

// What a client says, with what it hears below it.
pub(super) const ROWS: [&[u8]; 2] = [
    b"\
# UnknownVerb
XYZZY
  500 unknown command
# BadArgument
DATA now
  501 bad argument
# NotDone
EXPN
  502 not done here
# BadParameter
MAIL FROM:<bob> AUTH=<>
  555 parameter not known
# MAIL before HELO or EHLO
MAIL FROM:<bob>
  503 bad order
# HELO
HELO c
  250 node1
# EHLO
EHLO c
  250-node1
  250-SIZE 16777216
  250-8BITMIME
  250 PIPELINING
# MAIL with a size above 16,777,216
MAIL FROM:<bob> SIZE=16777217
  552 message too large
# RCPT outside a transaction
RCPT TO:<alice>
  503 bad order
# DATA without a transaction
DATA
  503 bad order
# MAIL otherwise
MAIL FROM:<bob> SIZE=16777216
  250 sender ok
# MAIL in a transaction
MAIL FROM:<bob>
  503 bad order
# RCPT whose path means no mailbox
RCPT TO:<nobody>
  550 no such mailbox
# DATA without a recipient
DATA
  503 bad order
# RCPT otherwise
RCPT TO:<alice>
  250 recipient ok
# RCPT of a mailbox that stands in the transaction
RCPT TO:<POSTMASTER>
  250 recipient ok
# DATA otherwise
DATA
  354 end with a line that is a single period
# the message is stored
.
  from bob
  ehlo c
  to alice
  250 stored
# RSET
RSET
  250 reset
# NOOP
NOOP
  250 ok
# VRFY
VRFY alice
  252 not verified
# the delivery failed
!fails
MAIL FROM:<bob>
  250 sender ok
RCPT TO:<alice>
  250 recipient ok
DATA
  354 end with a line that is a single period
.
  from bob
  ehlo c
  to alice
  451 not stored, try again
# the delivery was given up
!gives up
MAIL FROM:<bob>
  250 sender ok
RCPT TO:<alice>
  250 recipient ok
DATA
  354 end with a line that is a single period
.
  from bob
  ehlo c
  to alice
  451 not stored, try again
# QUIT
QUIT
  221 node1 closing
  closed
",
    b"\
# the node went down
!down
  421 node1 down
  closed
",
];

// A transaction with no recipient yet.
pub(super) const TRANSACTION: &[u8] = b"\
HELO c
  250 node1
MAIL FROM:<bob>
  250 sender ok
";

// One mailbox more than the hundred that stand.
pub(super) const HUNDRED_STAND: &[u8] = b"\
RCPT TO:<u101>
  452 too many recipients
";
