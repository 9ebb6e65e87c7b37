//! pop_wire: reads the command lines of POP3, and reads and writes its replies.
//!
//! SUMMARY
//!
//! `read_command(line)` reads one line, given without its CRLF, and says which command it is or
//! which rule it breaks first. What it reads borrows the line: nothing is copied or allocated.
//! `apop_digest(banner, secret)` is the digest that APOP gives.
//!
//! `reply_into(out, reply)` appends the octets of a reply. A `ReplyReader` is fed octets in any pieces, is told by
//! `expect` whether the next reply has several lines, and `next` gives the replies that they are.
//!
//! DESCRIPTION
//!
//! A line is a verb, the octets up to the first space, and what follows it. The verbs mean the same
//! in any case (RFC 1939, section 3). Arguments have one or more spaces before each; a tab parts no
//! words. Spaces and tabs at the end of the line mean nothing, but in PASS:
//!
//! - `USER name`: one name, of 1 to 64 octets from 0x21 to 0x7E, none of them `<` or `>`, the first
//!   not `@`. It stays as it was sent.
//! - `PASS secret`: whatever stands after the first space, of any octets but not empty. Each space
//!   and tab in it counts, at its beginning and its end too.
//! - `APOP name digest`: a name as in USER, and 32 hexadecimal digits of either case.
//! - `LIST n` and `UIDL n`, or `LIST` and `UIDL` alone.
//! - `RETR n` and `DELE n`.
//! - `TOP n m`: a number, and how many lines of the message come after its header.
//! - `STAT`, `NOOP`, `RSET`, `QUIT` and `CAPA`, alone.
//!
//! A number `n` has 1 to 10 digits, leading zeros among them, and is below 2^32.
//!
//! A reply's first line is `+OK` or `-ERR`, and then nothing, or one space and a text of at most 1,017 octets of
//! printable ASCII. A good reply may have further lines, each such a text with one period more before it where it
//! begins with one; the line that is one period ends it (RFC 1939, section 3). Which replies have them depends on the
//! command, so a reader has to be told. A message after RETR and TOP may hold any octets: `Undotter` of `dot_text`
//! reads it.
//!
//! DIAGNOSTICS
//!
//! `UnknownVerb` where the verb is none of these, and so for an empty line. `BadArgument` where
//! there are too few or too many words, the name or the digest is none, or the secret is empty. `BadNumber` where as
//! many words follow as should, and one in the place of a number is none.
//!
//! `BadReply` where the next whole line is none of the reply: it has another form, or leads with one period and is
//! longer. It stays, so that the same is answered again.
//!
//! STANDS ON
//!
//! `mail_model`, whose `pop_command_of` says what each line means, `mail_base`, which knows names and
//! digests, `line_words`, which cuts lines into words and reads numbers, `dot_text`, which cuts octets into lines, and
//! `hex`. The contract of `read_command` is that definition, both ways; those of replies are in `specs/Replies.antt`.
//!
//! WHAT IT DOES NOT DO
//!
//! It compares no digest. Whether a command comes in its place,
//! how long a line may be, whether the name is a mailbox and the secret is its own, and whether a
//! message has that number, 0 among them, is for the session.
#![tactic(auto)]

mod command;
mod digest;
mod laws;
mod number;
mod reply;
mod reply_line;
mod reply_reader;
mod reply_state;

pub use command::{PopCommand, PopFault, read_command};
pub use digest::apop_digest;
pub use laws::{
    answers_are_one, answers_last, begun_replies_are_none, blanks_at_end_mean_nothing,
    case_of_verb_means_nothing, larger_numbers_are_bad, more_spaces_mean_nothing, names_are_read,
    numbers_are_read, other_verbs_are_unknown, replies_are_one, replies_are_read_back,
    secrets_are_read, two_arguments_are_too_many,
};
pub use reply::{PopReply, reply_into};
pub use reply_line::{ReplyLine, is_reply_text};
pub use reply_reader::ReplyFault;
pub use reply_state::ReplyReader;
