//! reads_trials: tables of logins and fetches over three nodes.
//!
//! SUMMARY
//!
//! Tests of `node_reads` by its public calls: the tickets of three nodes, and the letters that they hand to each
//! other, heard in any order, once, twice or not at all.
//!
//! DESCRIPTION
//!
//! | File | What it holds against tables |
//! |---|---|
//! | `tests/messages.rt` | no table: the user, what each node holds of the user, and what is listed of that |
//! | `tests/answers.rt` | no table: how an ask was answered |
//! | `tests/cluster.rt` | no table: the nodes, their letters, and the acts that a table names |
//! | `tests/logins.rt` | a login over three nodes with each of its letters lost, repeated and out of order; its manager down at each moment; words and lists that answer nothing |
//! | `tests/judging.rt` | no table: what a manager says of a secret and of digests |
//! | `tests/fetches.rt` | a fetch whose first holder is down, and whose last is; parts that come twice or late |
//!
//! STANDS ON
//!
//! `node_reads`, and the crates whose values it gives.
//!
//! WHAT IT DOES NOT DO
//!
//! It is a crate of its own since a crate is proved once more with its tests. Nothing stands on it.
#![tactic(auto)]

#[cfg(test)]
mod tests;
