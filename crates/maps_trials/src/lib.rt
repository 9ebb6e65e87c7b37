//! maps_trials: tables of membership and mail maps over three nodes.
//!
//! SUMMARY
//!
//! Tests of `node_maps` by its public calls: three nodes, their promises on disks, and the letters between
//! them, posted in any order.
//!
//! DESCRIPTION
//!
//! | File | What it holds against tables |
//! |---|---|
//! | `tests/cluster.rt` | no table: the nodes, their disks and their letters, and the acts that a table names |
//! | `tests/rounds.rt` | two coordinators at once, nodes that stop between two steps of a round, and all orders of the letters of two groups |
//! | `tests/rows.rt` | a row that is noted, reported and acknowledged, at its manager and at another node |
//!
//! STANDS ON
//!
//! `node_maps`, and the crates whose values it gives.
//!
//! WHAT IT DOES NOT DO
//!
//! It is a crate of its own since a crate is proved once more with its tests. Nothing stands on it.
#![tactic(auto)]

#[cfg(test)]
mod tests;
