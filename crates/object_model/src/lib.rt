//! object_model: objects, their states and the letters that carry them, in definitions.
//!
//! SUMMARY
//!
//! What the libraries of a node and the machine of a cluster both speak of: sets of nodes, keys,
//! states and their joins, what records say of a key, the update log, letters and mishaps.
//!
//! DESCRIPTION
//!
//! The definitions, by module:
//!
//! - `Lists`: what is in a list.
//! - `Sets`: sets of nodes as masks. Bit n - 1 is node n, and nodes are numbered from 1 to 64.
//! - `Keys`: the order of keys, ids and epochs.
//! - `States`: the order of the states of one object, and their joins.
//! - `Merge`: the join of a set of states, in words that know no order.
//! - `Said`: what the records of a disk say of a key.
//! - `UpdateLog`: which targets have not acknowledged a state, and the steps of the log.
//! - `Letters`: the letters between nodes, and what each carries.
//! - `Locks`: which login holds each user's maildrop, and how locks are taken and let go.
//! - `Mishaps`: what may befall a call, and how often it did.
//! - `Views`: that a copy is here or gone, as the join of its states.
//! - `Laws`: what holds of all these.
//!
//! The laws are functions that do nothing, and their contracts hold of the definitions alone. A join
//! is commutative, associative and idempotent, and the same states in any order and number have one
//! join (`joins_commute`, `joins_associate`, `joins_repeat`, `join_is_merge`, `one_join`). A copy that
//! is gone stays gone (`gone_stays`). What a disk says of a key is the join of the states that its
//! records have of it (`says_join`); that a copy is here, or gone, is a view of it (`here_is_said`,
//! `gone_is_said`). A target leaves an entry of the log only for that entry's very
//! state, and no step of the log touches another key (`clears_that_state_alone`, `owes_targets`,
//! `leaves_other_keys`).
//!
//! STANDS ON
//!
//! `mail_model`, for ids, stamps, keys, states and records.
//!
//! WHAT IT DOES NOT DO
//!
//! It has no code, and knows nothing of a node or a cluster.
#![tactic(auto)]

mod laws;
mod views;

pub use laws::{
    clears_that_state_alone, gone_stays, join_is_merge, joins_associate, joins_commute,
    joins_repeat, leaves_other_keys, one_join, owes_targets, says_join,
};
pub use views::{gone_is_said, here_is_said};
