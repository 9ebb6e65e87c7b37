//! gate_trials: connections over a desk that plays what it is told to.
//!
//! SUMMARY
//!
//! Tests of `session_gate` by its public calls: a client's octets go in, and what is written, how the connection ended, and what
//! its pass counted are held against tables.
//!
//! DESCRIPTION
//!
//! The desk of the tests plays each call as a letter of a script says: it answers at once or later, fails, finds a number used up,
//! or finds its node down. It meets the contract of a desk, and files each message as it was told; it tells no entries.
//!
//! STANDS ON
//!
//! `session_gate`, by its public calls alone, and `io_edge` for sources and sinks in memory.
//!
//! WHAT IT DOES NOT DO
//!
//! It is a crate of its own since a crate is proved once more with its tests. Nothing stands on it. No connection is too long
//! here.
#![tactic(auto)]

#[cfg(test)]
mod tests;
