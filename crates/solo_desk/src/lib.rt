//! solo_desk: sessions are served over a whole world, by one thread.
//!
//! SUMMARY
//!
//! `SoloDesk` is a `Desk` of `call_tickets` whose pass holds a `World`. `SoloPass::new` takes the world, and `into_world` gives
//! it back. Each call of the desk is one step of the world: `begin_call`, `leave_login`, `ask_call`, `give_up_call` and
//! `post_first` make it, and can be used by whoever carries a desk over a world in another way. `count_refusal` and its kin
//! count what came of a call.
//!
//! DESCRIPTION
//!
//! - Own entries of the pass are all that the book has behind those that stood when the pass was made. Nobody else has the
//!   world, so they are those of its calls.
//! - `begin` hands out a ticket with what stands under it: the kind of the call, and what a delivery filed. A call in whose
//!   beginning its node goes down has begun, with a ticket that stands no more: the book already has what a deletion is to
//!   delete, and a refusal must leave nothing behind. Where memory runs out for what a delivery filed, the call is given up.
//! - `ask` and `give_up` first compare what stands under the ticket with what its beginning found, since whoever asks may hold
//!   any ticket. One that differs stands no more.
//! - `post_one` posts the letter of the lowest number in flight, and makes no other step. A push among several nodes reads a
//!   disk, and of a disk that tells nothing the contract of that step says nothing of the machine.
//!
//! A desk can be over a world that stands for a sound one of the whole machine, in which each ticket of messages asks for one
//! thing (`CanServe` in `specs/Serving`). That is so of a world that was opened, and each step keeps it that is known
//! (`specs/Laws`). The calls over a world ask less, that it can make steps: then they say which step they made, that the book only
//! grows, and that a call and an answer are of their kind. What was added to the book they say where the world was sound, and then
//! they leave it sound.
//!
//! `specs/Steps` says of each call which step it made, and `specs/Entries` what that adds to the book.
//!
//! DIAGNOSTICS
//!
//! `Down` is said of a node that is not up, and of a ticket that stands no more; `Worn` where a number is used up; both are
//! counted. Want of memory is said as it is.
//!
//! COSTS
//!
//! A call costs what its step costs, and an ask or a give-up compares one filing more. `is_up`, `tally` and `world` take no
//! memory.
//!
//! STANDS ON
//!
//! `cluster_world` for the world, `desk_model` for what steps add to the book, `call_tickets` for what a desk is.
//!
//! WHAT IT DOES NOT DO
//!
//! It starts no node that is down, pushes nothing that is owed, and sets no clock: whoever drives the world does that between
//! two connections, by `into_world`. No second pass can be had.
#![tactic(auto)]

mod ask;
mod begin;
mod desk;
mod give_up;
mod kinds;
mod laws;
mod leave;
mod pass;
mod post;
mod refusal;
mod standing;
mod tally;

pub use ask::ask_call;
pub use begin::begin_call;
pub use desk::SoloDesk;
pub use give_up::give_up_call;
pub use laws::{opened_serve, steps_serve};
pub use leave::leave_login;
pub use pass::SoloPass;
pub use post::post_first;
pub use tally::{
    count_answer, count_asked, count_if_refused, count_leave, count_refusal, no_counts,
};
