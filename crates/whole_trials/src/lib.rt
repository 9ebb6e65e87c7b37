//! whole_trials: tables of whole nodes that form epochs, and let users read their mail.
//!
//! SUMMARY
//!
//! Tests of `whole_node` by its public calls: three nodes, each over a disk in memory, and the letters between them, posted in any
//! order. `src/tests.rt` says how a table is read.
//!
//! DESCRIPTION
//!
//! | File | What it holds against tables |
//! |---|---|
//! | `tests/rounds.rt` | groups that are opened, joined and concluded; two coordinators at once; letters that are thrown, each for its reason |
//! | `tests/stops.rt` | nodes that stop between two steps of a round, and disks that fail as a promise is written |
//! | `tests/rows.rt` | mail that is filed and the rows that follow it, up to the manager that names who has it |
//! | `tests/readers.rt` | logins and fetches: a node as manager, as holder and as the proxy of a session; letters that are lost, heard twice and of another epoch; nodes that stop; locks |
//! | `tests/orders.rt` | no table: all orders of the letters of two groups, with a node that stops in the midst, too. Each epoch has one membership |
//!
//! STANDS ON
//!
//! `whole_node`, and the crates whose values it gives; `node_disk` for disks in memory.
//!
//! WHAT IT DOES NOT DO
//!
//! It is a crate of its own since a crate is proved once more with its tests. Nothing stands on it.
#![tactic(auto)]

#[cfg(test)]
mod tests;
