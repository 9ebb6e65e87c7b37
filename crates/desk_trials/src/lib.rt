//! desk_trials: calls and connections over a desk that holds a whole world.
//!
//! SUMMARY
//!
//! Tests of `solo_desk` by its public calls, over worlds of one node and of three: what each call of the desk answers, and what is
//! written to clients whose connections `session_gate` serves over it.
//!
//! DESCRIPTION
//!
//! | File | What it holds against tables |
//! |---|---|
//! | `tests/calls.rt` | no table: what each call of a desk answers, told in two letters |
//! | `tests/rows.rt` | calls one after another, and what the pass then counted: answers and refusals of each call, tickets that stand no more, nodes that go down, and letters that are posted |
//! | `tests/talks.rt` | connections one after another: mail that is sent and read back, a delivery that waits for letters, and nodes that go down before and in a connection |
//!
//! STANDS ON
//!
//! `solo_desk` and `session_gate`, by their public calls alone; `cluster_trials` for empty disks in memory, of which one may fail
//! at a chosen call.
//!
//! WHAT IT DOES NOT DO
//!
//! It is a crate of its own since a crate is proved once more with its tests. Nothing stands on it. No number is used up, and
//! memory does not run out.
#![tactic(auto)]

#[cfg(test)]
mod tests;
