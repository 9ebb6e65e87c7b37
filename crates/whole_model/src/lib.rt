//! whole_model: messages, membership and mail maps in one cluster.
//!
//! SUMMARY
//!
//! `cluster_model` proves what holds of messages, and `maps_model` what holds of membership and mail
//! maps. Here both are one cluster: the same disks, the same letters, and nodes that have both kinds
//! of soft state. Whatever the cluster does is a move of the one and moves of the other, so both
//! invariants hold of it, and nothing is proved twice.
//!
//! DESCRIPTION
//!
//! - `Whole`: the cluster, and what each of the two sees of it. What maps see of a disk is its last
//!   boot, its last promise, and of which users it says that a copy is here.
//! - `Moves`: a move of the whole cluster, and both invariants.
//! - `Rules`: how a record that a node appends for a message changes its row of the user.
//! - `Laws`: what is proved.
//!
//! The laws are functions that do nothing, and their contracts hold of the definitions alone:
//! `moves_keep_sound`, `messages_lead_maps`, `falls_lead_maps`,
//! `hears_of_messages`, `membership_is_act`, `membership_leads_maps`, `promises_are_seen`.
//!
//! STANDS ON
//!
//! `cluster_model` and `maps_model`, and their laws.
//!
//! WHAT IT DOES NOT DO
//!
//! It has no steps of a world yet, and no code.
#![tactic(auto)]

mod laws;

pub use laws::{
    falls_lead_maps, hears_of_messages, membership_is_act, membership_leads_maps,
    messages_lead_maps, moves_keep_sound, promises_are_seen,
};
