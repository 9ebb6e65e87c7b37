//! replica_push: what a node does with its objects and its update log as a letter of them is heard.
//!
//! SUMMARY
//!
//! `hear_push`, `hear_ack`, `hear_retired` and `widen` change an `ObjectTable` and an `UpdateLog` together.
//!
//! DESCRIPTION
//!
//! A state that is pushed is joined to what stands, and the join is noted for its targets where it differs. An
//! acknowledgement takes its sender out of an entry of that very state, and takes the entry out with the last one. A state
//! that is retired loses its entry. `widen` gives a copy that is here one target more. What is to be recorded is answered.
//!
//! REFUSES
//!
//! Nothing but for memory. Each call changes the table and the log together, or neither of them: where memory runs out,
//! both are as before.
//!
//! STANDS ON
//!
//! `object_table` and `update_log`, whose values it changes; the rules are those of `cluster_model`.
//!
//! WHAT IT DOES NOT DO
//!
//! It knows nothing of disks, and sends nothing.
#![tactic(auto)]

mod acks;
mod laws;
mod pushes;
mod wider;

pub use acks::{hear_ack, hear_retired};
pub use laws::{
    acks_follow_rules, pushes_follow_rules, retiring_follows_rules, widening_follows_rules,
};
pub use pushes::hear_push;
pub use wider::widen;
