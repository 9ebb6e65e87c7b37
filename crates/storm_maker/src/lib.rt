//! storm_maker: tapes that are drawn from a number.
//!
//! SUMMARY
//!
//! `storm_into(sink, number, rounds)` writes a whole tape: the plan of a cluster of five nodes and eight users, so many rounds
//! in which messages are sent and read, nodes stop and start, and letters flow, and an end at which all is settled.
//!
//! DESCRIPTION
//!
//! The tape is a function of the number and of how many rounds there are: the same at each run and on each machine. All that is
//! left to chance is drawn from one generator, the PCG generator XSH RR 64/32 of the number and of stream 54. What each round
//! draws, and which lines it then has, is the table of docs/FORMATS.md.
//!
//! DIAGNOSTICS
//!
//! `WriteFault` comes only where the sink counted a fault, and `NoMemory` where memory ran out. A prefix of the tape was then
//! written, and never all of it.
//!
//! LIMITS
//!
//! Any number, and fewer than 2^32 rounds. It keeps one round in memory, and never the tape.
//!
//! STANDS ON
//!
//! `rand_pcg` for the generator, and `io_edge` for sinks.
//!
//! WHAT IT DOES NOT DO
//!
//! It drives no tape, and knows nothing of what a line of a tape does.
#![tactic(auto)]

mod storm;
mod texts;
mod written;

pub use written::{StormFault, storm_into};
