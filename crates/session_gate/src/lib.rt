//! session_gate: a connection is served over any desk.
//!
//! SUMMARY
//!
//! `serve_smtp` and `serve_pop` serve one connection: octets come from a source, replies go to a sink, and calls go to a desk, in
//! the name of a pass. Both are one loop over a `Speaker`; SMTP adds its greeting, and POP3 its greeting and its Leave.
//!
//! DESCRIPTION
//!
//! - `calls`: a call is begun, asked for until it has its answer, and given up where a number is used up. A letter is posted
//!   between two askings.
//! - `intent`: what a session is about to do: it says something, it asks a call, or it rests.
//! - `turn`: what was said is written, and then the call is begun. Where the sink fails, the desk is asked for nothing.
//! - `talk`: the moves of a session until it rests. What it says is written before it begins a call, once a call was answered,
//!   and before more is read.
//! - `converse`: octets are read and fed to the session, until the source or the session ends, or as many were taken as a
//!   connection may send.
//! - `serve`: the two calls.
//!
//! What a connection came to is said in `specs/Connections`. There are octets that were taken from the source, in order, and a
//! session of the definitions that was fed these. Its greeting, its replies and its last line are what was written, with what is
//! missing after it. For each of its exchanges, in order, the pass knows what came of it (`specs/Deals`): a message that was
//! answered as stored has its own acknowledged copies, with the id, the length and the digest of exactly what was told, and no
//! other exchange has any; a deletion has its ids struck; and the count of its answer rose. Each reply was written before a later
//! call was answered (`specs/InTime`). A connection that ended by itself misses nothing.
//!
//! What the pass knows of copies and ids is said where it tells them to the end. A pass that ceases to tell within a call says
//! nothing more of the book; its counts, and all that is said of octets, stay.
//!
//! DIAGNOSTICS
//!
//! `ReadFault` and `WriteFault` come only where the count of the source or of the sink rose. A node that is not up at the
//! beginning is told nothing, and the connection is `Ended` with the pass's count of nodes that were down risen. A session whose
//! node goes down says so and ends. Out of memory may come anywhere.
//!
//! STANDS ON
//!
//! `session_speaker` for the sessions, `call_tickets` for what a desk is, `io_edge` for sources, sinks and gates.
//!
//! WHAT IT DOES NOT DO
//!
//! It knows no sockets and no threads, and sets no time limit: a source that waits, waits. It does not look at what a desk is
//! made of. When a gate is told of a turn is not said by a clause, nor which boot and seconds a greeting shows but that the desk
//! told some.
#![tactic(auto)]

mod calls;
mod converse;
mod intent;
mod laws;
mod serve;
mod stop;
mod talk;
mod turn;

pub use laws::late_replies_are_refused;
pub use serve::{serve_pop, serve_smtp};
pub use stop::Served;
