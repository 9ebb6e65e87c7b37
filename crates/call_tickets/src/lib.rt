//! call_tickets: what a session asks of its node, and what it is answered.
//!
//! SUMMARY
//!
//! A `Call` is what a session asks: that a message be stored, that a user be let in, that a message be read,
//! that copies of messages be deleted, or that a login end. An `Answer` is what became of it. `Ask` says
//! whether there is an answer yet, and `Move` what a session does next: it said something, it asks a call, it
//! waits for an answer, it has heard all that came, or it has ended. A `Desk` is what sessions use of a cluster,
//! whatever carries it.
//!
//! DESCRIPTION
//!
//! Sessions and nodes meet in these types and nowhere else. A session neither knows how a call is carried out
//! nor how long that takes; a node knows no session. Of each call the definitions see what a client can tell
//! (`specs/Seen`), and `specs/Moves` says of every kind of session what its next move does: it hears one unit,
//! or replies to the answer of its call, exactly as the definitions of one session say.
//!
//! Whoever calls a desk holds a pass of it. A pass knows which entries of the book its own calls added, where that
//! is told, and has a `Tally` of what came of them; `specs/Passes`, `specs/Begins` and `specs/Asks` say by both what each
//! call of a desk did. So a session can be served over any desk, and what was acknowledged in its name is known, as long as its
//! pass tells. A pass may cease to tell within a call (`specs/Tells`): where a later call tells, each earlier one told.
//!
//! The message of a `Deliver` and the octets of a `Part` are moved from hand to hand, and never copied.
//!
//! STANDS ON
//!
//! `mail_base` for names, ids, messages and listings, `session_model` for what a session is, and `io_edge` for
//! what it is that a count rose.
//!
//! WHAT IT DOES NOT DO
//!
//! It keeps no tickets and carries out no call.
#![tactic(auto)]

mod answer;
mod call;
mod desk;
mod step;
mod tally;

pub use answer::{Answer, Ask, Mishaps};
pub use call::Call;
pub use desk::{Desk, DeskFault, DeskTicket, Life, Posted};
pub use step::Move;
pub use tally::Tally;
