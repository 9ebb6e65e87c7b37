//! here_model: each copy that is here has its octets.
//!
//! SUMMARY
//!
//! One part more of what holds of messages: wherever a disk says that a copy is here, the octets of
//! the message stand on that disk, before the record that says so; and a Push of a copy that is here
//! carries them. So it is of every image that a stop may leave, and whoever says that a copy is here
//! can list it and tell its octets.
//!
//! DESCRIPTION
//!
//! `Here` has the part, what an act owes to keep it, and the laws: each rule for messages keeps it
//! (`rules_keep_octets`), and so does an act that leaves a prefix of the records and adds no state
//! (`others_keep_octets`) and what a fault cuts (`cuts_keep_octets`). So it stays whatever such moves
//! are made (`moves_keep_octets`), and what is said to be here can be read (`here_is_read`). Before a
//! cluster opens over empty disks it holds (`empty_has_octets`).
//!
//! The laws are functions that do nothing, and their contracts hold of the definitions alone.
//!
//! STANDS ON
//!
//! `cluster_model`: its rules for messages, its moves and its invariant.
//!
//! WHAT IT DOES NOT DO
//!
//! It has no code, and no line of the program uses it. The part is no part of the invariant of
//! `cluster_model`, so whoever wants it of a chain of steps has to show that the moves of each step
//! keep it. Of a copy that is gone it asks nothing: its octets may stand or not.
#![tactic(auto)]

mod laws;

pub use laws::{
    cuts_keep_octets, empty_has_octets, here_is_read, moves_keep_octets, others_keep_octets,
    rules_keep_octets,
};
