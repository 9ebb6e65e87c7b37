//! desk_model: what the calls of a desk add to the book of a cluster.
//!
//! SUMMARY
//!
//! A desk makes of each call of a session one step of a cluster. Here it is said of each such step, as the machine of
//! `cluster_model` makes it, which entries of the book it adds, and what stands under the ticket of a call that has begun.
//! Whatever carries a desk over a cluster reads its own entries off these laws.
//!
//! DESCRIPTION
//!
//! - `Tickets`: what tickets ask for. Each asks for one thing, the copies of one message or deletions, and every step keeps that.
//! - `Added`: what is acknowledged and struck by a step.
//! - `Entries` and `Tallies`: what each call of a desk adds to the book, and what is counted of it. What a pass then knows
//!   follows from both, whatever the desk (`proofs/Knowing`).
//! - `Laws`: what is proved.
//!
//! The laws are functions that do nothing, and their contracts hold of the definitions alone: `opening_asks_one_thing`,
//! `steps_ask_one_thing`, `idle_steps_are_quiet`, `begun_calls_strike`, `deliveries_file`, `answers_acknowledge`.
//!
//! STANDS ON
//!
//! `cluster_model` for the machine, `cluster_owes` for which tickets a step leaves, and `call_tickets` for what a desk is.
//!
//! WHAT IT DOES NOT DO
//!
//! It knows no node, no world of code and no disk. Nothing is said of deletions that are confirmed: a pass is told no such entry.
#![tactic(auto)]

mod laws;

pub use laws::{
    answers_acknowledge, begun_calls_strike, deliveries_file, idle_steps_are_quiet,
    opening_asks_one_thing, steps_ask_one_thing,
};
