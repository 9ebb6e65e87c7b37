//! update_log: which other nodes have not yet acknowledged a state that a node holds.
//!
//! SUMMARY
//!
//! An `UpdateLog` has an entry for each state that is owed to other nodes.
//!
//! DESCRIPTION
//!
//! A node notes each state that it records. The entry says which of the state's targets remain: those other than the
//! node itself that have not acknowledged it. A node that acknowledges a state is taken out of an entry of that very
//! state, and of no other. An entry is taken out as its state is retired.
//!
//! A contract sees the log as a finite map from keys to entries.
//!
//! STANDS ON
//!
//! `mail_base` for keys and states, and `object_model` for the definition of the log.
//!
//! WHAT IT DOES NOT DO
//!
//! It knows nothing of disks, letters or the join of states.
#![tactic(auto)]

mod log;
mod logged;

pub use log::UpdateLog;
pub use logged::{Acked, Logged};
