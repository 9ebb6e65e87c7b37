//! mail_plain: plain slow programs beside the definitions that compute.
//!
//! SUMMARY
//!
//! For each of these definitions of `mail_model` there is a function that reads as the definition's
//! table does, and whose contract is that it gives the definition's value: the octets that a tape sends
//! to a session, the messages that a node's records list, the marks of a POP3 session, and what a
//! session got by a transcript. Tests hold the functions against rows that were worked by hand, and so
//! the definitions too.
//!
//! DESCRIPTION
//!
//! - `sent(session, lines)`: all octets that the run lines of a tape send to the session (`sent`).
//! - `messages(user, records)`: the messages of the user's mailbox (`listing_of`). A copy is listed
//!   where a record says that it is here, no record says that it is gone, and some record holds its
//!   octets.
//! - `slots(items)`, `slots_after(slots, line)`: the places of a listing that was just told, and the same
//!   once a line was heard, which may be a DELE (`listed_slots`, `deleted_in`). `unmarked` and
//!   `marked_ids` give the messages that are not marked, and the ids of those that are.
//! - `lines_to(session, entries)`, `answers_to(session, entries)`: all lines that a session got, and the
//!   last lines of its replies (`lines_to`, `got`).
//!
//! All of them copy what they give into new vectors.
//!
//! DIAGNOSTICS
//!
//! Every call fails only where memory runs out.
//!
//! STANDS ON
//!
//! `mail_model`, whose definitions the contracts are. Run lines are read by `tape_lines` and lines of
//! POP3 by `pop_wire`, whose contracts are definitions too: a table over these readers tests those
//! definitions, and a second reader would show no more.
//!
//! WHAT IT DOES NOT DO
//!
//! The service runs none of it. What the definitions say by a relation has no function here: which
//! units the octets of a session are, which lines are the reply to a command, and which marks a session
//! made by its exchanges. Records are those of boots, promises, octets, copies, profiles, and of copies
//! that are retired; a profile that is retired cannot be written down.
#![tactic(auto)]

mod fed;
mod item;
mod listing;
mod marks;
mod record;
mod transcript;

pub use fed::sent;
pub use item::Item;
pub use listing::messages;
pub use marks::{Slot, marked_ids, slots, slots_after, unmarked};
pub use record::Record;
pub use transcript::{Entry, answers_to, lines_to};
