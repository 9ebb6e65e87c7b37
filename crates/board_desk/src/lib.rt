//! board_desk: sessions are served over a board, by any number of threads.
//!
//! SUMMARY
//!
//! `BoardDesk` is a `Desk` of `call_tickets` over a `Board` of `shard_board`. Threads share it, or make one each; each thread has
//! a `BoardPass` of its own. `BoardDesk::new` takes the handle by which threads wait, the board, and a pass as a pattern.
//!
//! DESCRIPTION
//!
//! - Each call of the desk is one turn of the board. `is_up` and `post_one` are those of the board; the others are the deeds
//!   `Beginning`, `Leaving`, `Asking` and `GivingUp`, which do with the world what a desk of one thread does. They can also be
//!   handed to `Board::act`, whose clause then says of the turn which step it made.
//! - Own entries of a pass are those that its own turns added, and no others, whatever the passes of other threads do between
//!   them. They are told as long as the pass tells (`told_entries` in `specs/Desks.antt`): over disks that tell what they hold
//!   always, and over others until it has seen a start, or a push among several nodes. Counts and answers are said in any case.
//! - A refusal is counted in the pass, after the turn.
//! - `post_one` sets the clock of the world, and does what fate decides of the letter of the lowest number in flight.
//! - A pass belongs to the desk where it is a pass of the board, and has the quota and the entries of joined passes of the
//!   pattern. Each call leaves both as they are, and what the pass made stays known. So whoever lends a pass to a session can join it, or close the board by it, afterwards.
//!
//! DIAGNOSTICS
//!
//! `Down` is said of a node that is not up, and of a ticket that stands no more; `Worn` where a number is used up; both are
//! counted. Want of memory is said as it is, also where there is none for the page of a turn.
//!
//! COSTS
//!
//! A call costs what its step costs, and a turn. A desk is three references; to make one takes no memory.
//!
//! STANDS ON
//!
//! `shard_board` for the board, `solo_desk` for what each call does to a world, `desk_model` for what steps add to the book.
//!
//! WHAT IT DOES NOT DO
//!
//! It starts no node, stops none, and pushes nothing that is owed: that is `Board::console`, over any disk. Who comes first and how long a call
//! waits are not said.
#![tactic(auto)]

mod counts;
mod deeds;
mod desk;

pub use deeds::{Asking, Beginning, GivingUp, Leaving};
pub use desk::BoardDesk;
