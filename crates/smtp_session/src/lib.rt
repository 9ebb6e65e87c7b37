//! smtp_session: one SMTP session, over octets that come in pieces and the answers of its node.
//!
//! SUMMARY
//!
//! `SmtpSession::new(alloc, node)` is a session that has its greeting to say. `feed(piece)` takes up what the
//! client sends, however it is cut. `next(alloc, plan, out)` makes the session's next move: it says something,
//! which is appended to `out`; it asks the call Deliver, with a message that is whole; or it does nothing, since
//! it waits for an answer, is idle, or has ended. `answer(answer)` takes what became of the message, and
//! `node_down(alloc, out)` ends the session as its node goes down.
//!
//! DESCRIPTION
//!
//! A unit is what one reply answers: a command line, or the lines of a text through the line that is one period.
//! A line is what stands before CRLF; a lone CR or LF is an octet of it (RFC 5321, section 2.3.8). The commands
//! are those of `smtp_wire`, and come in this order (RFC 5321, section 4.1.4):
//!
//! - `HELO` and `EHLO` at any time. They end the transaction, where there is one, and the name stays in force
//!   until the next. After `EHLO` the trace lines of a message say ESMTP.
//! - `MAIL` once there was one of them, and outside a transaction. It begins one.
//! - `RCPT` in a transaction. Its path means the mailbox that the plan says. A mailbox that was accepted already
//!   is accepted again and stands in the envelope once; 100 different ones are accepted.
//! - `DATA` in a transaction with a recipient. The lines of the text follow.
//! - `RSET` at any time. It ends the transaction, where there is one.
//! - `NOOP` and `VRFY` at any time. They change nothing.
//! - `QUIT` at any time. It ends the session.
//!
//! In a text the period that leads a line is left out (RFC 5321, section 4.5.2), each line is kept with its CRLF,
//! and a line that is one period ends it. The message is then a `Deliver`, whose octets are moved and not
//! copied. Every end of a text ends the transaction: `MAIL` may come next, and the name of `HELO` stays.
//!
//! The caller feeds a piece, and makes moves until there is none:
//!
//!     session.feed(piece)?;
//!     loop {
//!         match session.next(alloc, plan, &mut out)? {
//!             Move::Said => write(&mut out)?,
//!             Move::Begin(call) => begin(call)?,
//!             Move::Wait | Move::Idle | Move::End => break,
//!         }
//!     }
//!
//! After a Deliver the session hears no unit before `answer`; it may be fed. The reply is written by the next
//! `next`: 250 where the message is stored, and 451 where the call failed, or was given up (`None`). Octets that
//! come after a unit wait for the next call.
//!
//! DIAGNOSTICS
//!
//! `BadOrder` where a command comes out of its order, `NoSuchMailbox` and `TooManyRecipients` at `RCPT`,
//! `UnknownCommand`, `BadArgument`, `NotDone` and `BadParameter` where a line is no command, `LineTooLong` for a
//! command line of more than 1,024 octets with its CRLF, once it is whole, and `TooLarge` at the end of a text of
//! more than 16,777,216 octets, and at a `MAIL` that names such a size. A command that is refused changes nothing. The lines of a text have no limit of their own.
//!
//! Out of memory is an `AllocError`. Nothing is then changed, and the call may be made again.
//!
//! STANDS ON
//!
//! `dot_text` for lines and texts out of pieces, `smtp_wire` for commands, `mail_base` for names, the plan and
//! messages, `call_tickets` for calls and answers, and `session_model`, whose moves of a session are the
//! contract: `Follows` ties a value to a session of the definitions, and each call makes one of its moves or none.
//!
//! COSTS
//!
//! Nothing is looked at again for each piece: the octets of a text are read as they come, and a line that is not
//! whole is looked at from where its last piece ended. Of a command line that is too long no more than a CR is
//! held, and of a text that passes its limit nothing. While it is idle a session holds less than 1,024 octets of
//! a command line, and no more than 16,777,216 of a text, beside its envelope.
//!
//! WHAT IT DOES NOT DO
//!
//! It stores nothing and sends nothing. It does not bound what is fed while it waits. It has no time limit.
#![tactic(auto)]

mod envelope;
mod reply;
mod session;
mod text;
mod told;

use envelope::{Envelope, Greeting};
pub use reply::Reply;
pub use session::SmtpSession;
use text::Text;
use told::Told;
