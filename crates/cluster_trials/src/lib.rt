//! cluster_trials: tables of letters, orders and failing disks over a cluster of several nodes.
//!
//! SUMMARY
//!
//! `open_fresh` opens the cluster of a plan over empty disks in memory. `fresh_disks` makes such disks, of which one may fail at
//! a chosen call. The tests of this crate are tables over such clusters.
//!
//! DESCRIPTION
//!
//! The clusters of the tests have three nodes, and one has four, with the one user ann; two nodes have to confirm a message.
//!
//! | Table | What is tried |
//! |---|---|
//! | `tests/steps.rt` | each step where it does its work, and each refusal that can be reached; a node that is lost, a copy that is widened, a letter that is heard twice, and 65,536 letters in flight |
//! | `tests/groups.rt` | two groups whose letters interleave, in each order of their asking, joining and installing; nodes that stop in a round; regroups, also of two nodes of four |
//! | `tests/installs.rt` | what the book has of installed epochs: regroups, an Install that is heard twice, and Installs that are thrown |
//! | `tests/settles.rt` | reports that are lost, repeated and of another epoch; settling with members that are down or not let in, with an epoch on its way, and with each call of a disk failing; and that after messages at four nodes maps name just the nodes whose stores show one |
//! | `tests/logins.rt` | logins whose letters are lost, repeated and late, a manager that stops in one, fetches whose holders are down, deletions at a node that has no mail, and locks |
//! | `tests/orders.rt` | the first six letters of a message in each order, with each drop, for two copies and for three |
//! | `tests/faults.rt` | each call of each disk failing in turn, from the opening of the cluster to the end of a delivery |
//! | `tests/telling.rt` | several steps in one call, posting all letters, and what a cluster tells of its calls, letters and members |
//!
//! After each order and each fault the disks are read back, octet for octet, against a journal that `tests/journals.rt` spells
//! from the description of its format. A failed disk takes down its own node alone, and what was answered stands on the others.
//!
//! What a step is to answer is a row of six octets: a letter for the step, then its node, letter or ticket, its second node or
//! the number of the ticket, and two letters for the answer.
//!
//! COSTS
//!
//! The three copies have 10,872 orders, and the two copies 2,104; two groups have some thousands. Each is driven in a cluster of
//! its own.
//!
//! STANDS ON
//!
//! `cluster_world`, by its public calls alone, and `node_disk` for disks in memory.
//!
//! WHAT IT DOES NOT DO
//!
//! No step is refused as `Worn`: that would take more letters than can be sent. Memory does not run out in these tables.
#![tactic(auto)]

mod fresh;
#[cfg(test)]
mod tests;

pub use fresh::{fresh_disks, open_fresh};
