//! object_table: what a node holds of each object, and how states of one object are joined.
//!
//! SUMMARY
//!
//! `join` makes one state of two. An `ObjectTable` holds for each object the join of all states that were taken.
//!
//! DESCRIPTION
//!
//! An object is a user's profile, or a user's copy of one message. In a join Gone is above Here, then the greater stamp
//! counts, then the greater secret; the targets are those of both. So it does not matter in which order states come, nor
//! how often.
//!
//! `state`, `profile`, `users` and `ids` say what stands. `ids` lists the messages of one user that are here, and looks at the
//! objects of that user alone.
//!
//! A contract sees the table as a finite map from keys to states.
//!
//! STANDS ON
//!
//! `mail_base` for keys, states and names, and `object_model` for what the join of states is.
//!
//! WHAT IT DOES NOT DO
//!
//! It knows nothing of disks or letters.
#![tactic(auto)]

mod joins;
mod laws;
mod mailbox;
mod states;
mod table;
mod user_keys;

pub use joins::{is_news, join};
pub use laws::{any_order, tables_hold_merges};
pub use table::{ObjectTable, Taken};
