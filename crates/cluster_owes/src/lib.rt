//! cluster_owes: what a cluster of nodes owes of the calls that it began and answered.
//!
//! SUMMARY
//!
//! `joint_world` says what holds of a cluster whatever steps it makes, and `session_model` says
//! what a cluster owes so that the promises to clients are kept. Here the one follows from the other.
//! What stands on messages follows from what `cluster_model` sees of the steps, and what a login
//! listed or a fetch was told from what is known of calls that read.
//!
//! DESCRIPTION
//!
//! - `Seen`: a node's calls and answers as sessions make and get them.
//! - `Outcomes`: the steps that a cluster makes from its opening on. Each is marked with the session
//!   that led to it, where one did: whose call began, whose was answered, and whose was given up.
//! - `Held`: what the stores hold in the end. Of a record that was pending as a disk failed nobody
//!   knows whether it stands, so each store may hold it or not.
//! - `Laws`: what is proved.
//!
//! The laws are functions that do nothing, and their contracts hold of the definitions alone:
//! `cluster_owes`, `answers_fit`, `none_waits`.
//!
//! STANDS ON
//!
//! `joint_world`, `whole_world` and `cluster_model` with their laws; `session_model` for calls, answers
//! and what is owed.
//!
//! WHAT IT DOES NOT DO
//!
//! It knows no code and no disk. Who makes the steps shows that they are those of the machine, and
//! that the stores hold the journals of the records that are named here.
#![tactic(auto)]

mod laws;

pub use laws::{answers_fit, cluster_owes, none_waits};
