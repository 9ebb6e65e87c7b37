//! board_trials: calls, clients and letters at a board.
//!
//! SUMMARY
//!
//! Tests of `shard_board` and `board_desk` by their public calls, over worlds of one node and of three. `Lots` is a fate that is
//! written down. `open_plain` opens a world of one node over a disk that never fails.
//!
//! DESCRIPTION
//!
//! | File | What is tried |
//! |---|---|
//! | `tests/orders.rt` | a table of calls in the name of two passes: calls of sessions, letters, what an operator orders, entries of the book; reports and settles; and a cluster of four nodes, of which two are lost |
//! | `tests/letters.rt` | a table of fates: letters that are dropped, and letters that are handed over twice; and what a message comes to |
//! | `tests/joins.rt` | a pass that has made no call takes another in, and reads the entry that this one made; a call is given up; what both counted |
//! | `tests/work.rt` | four threads, each with a pass and 334 rounds of a message, a deletion and an order; then the book, the store and what the passes counted are held against what was told in the name of each |
//! | `tests/clients.rt` | a client who sends and one who reads; and clients at a cluster whose letters are lost or come twice |
//! | `tests/files.rt` | a table of calls over files: letters are lost, a node stops and starts again, and what is owed is sent again |
//! | `tests/held.rt` | two clients side by side: the one that comes first to send is held until the other was answered; a reader is held until the mail is stored |
//!
//! STANDS ON
//!
//! `shard_board`, `board_desk` and `session_gate`, by their public calls alone; `cluster_trials` for clusters over disks in memory;
//! `board_threads`, since passes go to threads.
//!
//! WHAT IT DOES NOT DO
//!
//! It is a crate of its own since a crate is proved once more with its tests. `board_bench` takes its worlds and messages from
//! here, and nothing else stands on it. No number is used up, and memory does not run out.
#![tactic(auto)]

mod fresh;
mod lots;
#[cfg(test)]
mod tests;

pub use fresh::{message, name, open_plain, plan};
pub use lots::Lots;
