//! gone_model: each deletion is meant for all nodes of the plan.
//!
//! SUMMARY
//!
//! One part more of what holds of messages: each deletion on a disk and in a Push has all nodes of
//! the plan as targets, whatever moves are made. So whoever joins a cluster later learns of it, and
//! in a settled epoch what one member says to be gone, all do.
//!
//! DESCRIPTION
//!
//! `Gone` has the part, what an act owes to keep it, and the laws: each rule for messages keeps it
//! (`rules_keep_gone`), and so does an act that adds no state (`others_keep_gone`) and what a fault
//! cuts (`cuts_keep_gone`). So it stays whatever such moves are made (`moves_keep_gone`), and what a
//! disk says of a key has it too (`said_for_all`). Before a cluster opens over empty disks it holds
//! (`empty_has_gone`).
//!
//! The laws are functions that do nothing, and their contracts hold of the definitions alone.
//!
//! STANDS ON
//!
//! `cluster_model`: its rules for messages, its moves and its invariant.
//!
//! WHAT IT DOES NOT DO
//!
//! It has no code, and no line of the program uses it. The part is no part of the invariant of
//! `cluster_model`, so whoever wants it of a chain of steps has to show that the moves of each step
//! keep it. A plan has at most 64 nodes here, as a set of nodes has 64 places.
#![tactic(auto)]

mod laws;

pub use laws::{
    cuts_keep_gone, empty_has_gone, moves_keep_gone, others_keep_gone, rules_keep_gone,
    said_for_all,
};
