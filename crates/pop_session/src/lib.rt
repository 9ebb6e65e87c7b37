//! pop_session: one POP3 session, over the octets of its client as they come and the answers of its node.
//!
//! SUMMARY
//!
//! `PopSession::new(alloc, node, boot, number, seconds)` is a session that has its greeting to say. `feed(piece)`
//! takes up octets of its client, in pieces of any size. `next(alloc, plan, out)` makes the session's next move:
//! it says something, which is appended to `out`; it asks a call of its node; or it does nothing, since it waits
//! for an answer, is idle, or has ended. `answer(answer)` takes the answer to its call, `node_down(alloc, out)`
//! ends it as its node goes down, and `leave()` gives the call that ends its login.
//!
//! DESCRIPTION
//!
//! A line is what stands before CRLF; a lone CR or LF is an octet of it. It does not matter how the octets were
//! cut into pieces. A caller feeds a piece, and makes moves until there is none:
//!
//!     session.feed(piece)?;
//!     loop {
//!         match session.next(alloc, plan, &mut out)? {
//!             Move::Said => write(&mut out)?,
//!             Move::Begin(call) => begin(call)?,
//!             Move::Wait | Move::Idle | Move::End => break,
//!         }
//!     }
//!
//! The commands are those of `pop_wire`, and come in this order (RFC 1939, sections 4 to 7):
//!
//! - Before the login, `USER` with any name, and `PASS` in the line directly after it. Any other line between
//!   them, also one that is no command, makes `PASS` come out of its order. Names mean the same in either case.
//!   `PASS` asks the call Login, if the name is a user's. So does `APOP`, at any time before the login, with the
//!   digest that it gives and the banner of the session's greeting, from `<` to `>`.
//! - `CAPA` at any time (RFC 2449).
//! - After the login `STAT`, `LIST`, `UIDL`, `RETR`, `TOP`, `DELE`, `RSET` and `NOOP`, over the listing that the
//!   node answered. The messages
//!   keep their numbers, from 1 in the order of the listing, to the end of the session. `RETR` and `TOP` ask the
//!   call Fetch of the nodes that hold the message; `TOP` shows its header and so many lines more, and looks at
//!   no more of it. `DELE` marks a message, which from then on is passed over and can't be named, until `RSET`
//!   takes all marks away.
//! - `QUIT` at any time. It ends the session, once the marked messages are deleted: it asks the call Strike for
//!   exactly these, each as it was listed. A session that ends in another way deletes nothing (RFC 1939,
//!   section 6).
//!
//! Where a call was asked, the session hears no line before `answer`; it may be fed. The reply is written by the
//! next `next`. An answer that fails, or `None` for a call that was given up, has a reply too, and after a
//! deletion the session ends in each case.
//!
//! A session that was let in leaves: its caller begins the call of `leave()` once the session has ended or its
//! client closed it, after its last octets were written, and not where its node went down.
//!
//! DIAGNOSTICS
//!
//! Replies that begin with `-ERR`, in the order in which they are tried: a line of more than 1,024 octets with
//! its CRLF is too long; the verb is unknown; the argument is bad; the command comes out of its order; the name
//! or the secret is wrong; or there is no message of that number, as where it is marked. What is refused changes
//! nothing, but that `PASS` may then not come next. `-ERR [IN-USE]` (RFC 2449) says that another login has the
//! maildrop, and `-ERR [SYS/TEMP]` (RFC 3206) that a call failed, that the manager has no profile of the user,
//! that some messages may remain, or that the node goes down.
//!
//! Out of memory is an `AllocError`. Nothing is then changed, and the call may be made again.
//!
//! STANDS ON
//!
//! `dot_text` for lines out of octets and for a message as it is sent, `pop_wire` for commands, `mail_base` for
//! names, listings and the plan, `call_tickets` for calls and answers, and `session_model`, whose moves of a
//! session are the contract: `Follows` ties a value to a session of the definitions, and each call makes one of
//! its moves or none. Six laws say what the tables of replies mean: `asks_behind_user`, `asks_by_apop`, `listed_once`,
//! `numbered_alike`, `numbers_stay` and `marked_is_none`.
//!
//! COSTS
//!
//! Hearing is in proportion to the octets that were fed: a line that has no CRLF yet is not looked at again for
//! each piece, and of one that is too long no more than a CR is held. While it is idle a session holds less than
//! 1,024 octets of its client. A login goes over its listing once, `STAT` twice and `QUIT` once, and `LIST` and
//! `UIDL` without a number make a line for each message of it. A number leads to its message at once. The octets
//! of a message are moved into the session, and written once.
//!
//! WHAT IT DOES NOT DO
//!
//! It compares no secrets and no digests, reads no messages and deletes none: its node does. It does not look whether a listing
//! names a message twice. It does not bound what is fed while it waits.
#![tactic(auto)]

mod banner;
mod due;
mod laws;
mod listing;
mod reply;
mod session;
mod stage;
mod text;
mod top;

pub use laws::{
    asks_behind_user, asks_by_apop, listed_once, marked_is_none, numbered_alike, numbers_stay,
};
pub use session::PopSession;
