//! smtp_wire: reads the command lines of SMTP, and reads and writes its replies.
//!
//! SUMMARY
//!
//! `read_command(line)` reads one line, given without its CRLF, and says which command it is or
//! which rule it breaks first. What it reads borrows the line: nothing is copied or allocated.
//!
//! `reply_into(out, reply)` appends the octets of a reply. A `ReplyReader` is fed octets in any pieces,
//! and `next` gives the replies that they are.
//!
//! DESCRIPTION
//!
//! A line is a verb, the octets up to the first space, and what follows it. Spaces and tabs at the
//! end of the line mean nothing. The verbs and the words `FROM:` and `TO:` mean the same in any
//! case (RFC 5321, sections 2.4 and 4.1.1):
//!
//! - `HELO name` and `EHLO name`: one word of 1 to 255 visible ASCII octets.
//! - `MAIL FROM:<path>`: spaces may stand before the path. It may be empty. After it `SIZE=` with 1 to
//!   20 digits (RFC 1870) and `BODY=7BIT` or `BODY=8BITMIME` (RFC 6152) may stand, once each.
//! - `RCPT TO:<path>`: the same, but the path is not empty, and no parameter is known.
//! - `DATA`, `RSET` and `QUIT`, alone; `NOOP` with anything after it; `VRFY` with something.
//!
//! A path is printable ASCII without `<` and `>`. A source route before it (`@a,@b:`, RFC 5321,
//! section 4.1.2 and appendix C) is left out, and what is left has at most 512 octets.
//!
//! A reply has a code from 200 to 599 and a text for each of its lines, at least one, each of at most
//! 1,018 octets of printable ASCII (RFC 5321, section 4.2). On each line stand the code, a hyphen, or on
//! the last a space, the text, and CRLF (section 4.2.1). A last line of the code alone is read as one
//! with no text.
//!
//! DIAGNOSTICS
//!
//! `BadReply` where the next whole line is none of the reply: it has another form, or another code than
//! the lines before it. It stays, so that the same is answered again.
//!
//! `UnknownVerb` where the verb is none of these, EXPN or HELP. `NotDone` for EXPN and HELP.
//! `BadArgument` where what follows the verb is not as above, a parameter that is known among it.
//! `BadParameter` where a parameter is none that is known. Of several parameters with faults the first
//! decides.
//!
//! STANDS ON
//!
//! `mail_model`, whose `command_of` says what each line means, `line_words`, which cuts lines into
//! words, and `dot_text`, which cuts octets into lines. The contract of `read_command` is that
//! definition, both ways; those of replies are in `specs/Replies.antt`.
//!
//! WHAT IT DOES NOT DO
//!
//! No path is read further than above: no quoted local part, no domain, no address literal. Whether a
//! command comes in its place, how long a command line may be, whose mailbox a path is, and whether a size is
//! too large, is for the session.
#![tactic(auto)]

mod command;
mod laws;
mod octets;
mod parameter;
mod path;
mod reply;
mod reply_reader;
mod reply_state;

pub use command::{Command, SmtpFault, read_command};
pub use laws::{
    answers_are_one, answers_last, begun_replies_are_none, blanks_at_end_mean_nothing,
    case_of_verb_means_nothing, names_are_read, recipients_are_read, replies_are_one,
    replies_are_read_back, routes_are_left_out, senders_are_read,
};
pub use reply::{Reply, ReplyLine, is_reply_text, reply_into};
pub use reply_reader::ReplyFault;
pub use reply_state::ReplyReader;
