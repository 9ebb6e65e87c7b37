//! node_trials: tables of what one node does.
//!
//! SUMMARY
//!
//! Tests of `node_core` by its public calls: one node is driven by hand, and what it answers, what it sends and what its disk then
//! says is held against tables. `src/tests.rt` says how a table is read. Its store and its tickets are tried by themselves, too.
//!
//! DESCRIPTION
//!
//! | Table | What is tried |
//! |---|---|
//! | `tests/calls.rt` | deliveries, deletions and pushes |
//! | `tests/letters.rt` | letters that carry copies, and those that carry states |
//! | `tests/reads.rt` | a mailbox as its node lists it, the parts of a message, and the tickets of calls that read |
//! | `tests/starts.rt` | a first boot, a start over a disk, and disks that are none of the node's |
//! | `tests/promises.rt` | epochs that are promised, and whom a node knows |
//! | `tests/falls.rt` | each call of the disk failing in turn |
//! | `tests/store.rt` | what a store records and tells, of `node_store` |
//! | `tests/opening.rt` | stores over journals that are there |
//! | `tests/tickets.rt` | what tickets hear, and what an ask then answers, of `node_tickets` |
//!
//! STANDS ON
//!
//! `node_core`, `node_store` and `node_tickets`, by their public calls alone, and `node_disk` for disks in memory.
//!
//! WHAT IT DOES NOT DO
//!
//! It is a crate of its own since a crate is proved once more with its tests. Nothing stands on it.
#![tactic(auto)]

#[cfg(test)]
mod tests;
