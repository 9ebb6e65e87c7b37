//! porcupine_server: all that the program does, as a call.
//!
//! SUMMARY
//!
//! `run(alloc, arguments, source, sink)` reads the words that the system hands over and does what they name.
//! `drive` reads a tape from the source and writes the transcript to the sink: what a cluster of 1 to 16 nodes,
//! each with a fresh store, says to the sessions of the tape. It answers the status that the program ends with.
//! All that it does is the call `porcupine`, over a yard that makes the stores.
//!
//! DESCRIPTION
//!
//! `storm NUMBER SIZE` writes a tape that is drawn from a number, and `check FILE` says whether a plan file keeps its
//! rules. Other words are refused, and so is a store that is not empty. `one_tape_is_good`, `posted_tape_is_good`,
//! `empty_store_is_refused` and `first_line_is_handled` are laws of tapes: they have no body, and say that the clauses
//! of `porcupine` speak of something and are false of a wrong run.
//!
//! STANDS ON
//!
//! `command_words` for the words, `drive_tape` for the tape, `word_works` for `storm` and `check`, `yard_stores` for
//! the stores and `io_edge` for the outside. The program `porcupine` makes a source and a sink of what the system
//! gives, and `server_trials` has the tests.
//!
//! WHAT IT DOES NOT DO
//!
//! It keeps nothing when it ends: the stores of `run` are in memory.
#![tactic(auto)]

mod ending;
mod laws;
mod program;
mod server;
mod words;

pub use laws::{
    empty_store_is_refused, first_line_is_handled, one_tape_is_good, posted_tape_is_good,
};
pub use program::run;
pub use server::{drive_word, porcupine};
