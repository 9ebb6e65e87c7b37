//! node_tickets: the standing tickets of one node.
//!
//! SUMMARY
//!
//! A call that is begun at a node gets a ticket. The ticket says what is asked of nodes, which of them have confirmed it,
//! which are waited for and which have failed, and how often what befell the call. It stands until it is answered or given
//! up.
//!
//! DESCRIPTION
//!
//! `Tickets` changes its tickets in place: a confirmation that is heard and a mishap that is noted take no memory. A contract
//! sees the finite map from numbers to tickets of the machine of `cluster_model`, and each call does to it what the machine's
//! rule does: `open_delivery`, `open_deletion` and `open_failed` insert the ticket with which a call begins, `told` and `mishap`
//! put the ticket that was told in its place, `ask` gives what the machine's ask gives, and takes a ticket out that is
//! done. The answers themselves are those of `call_tickets`.
//!
//! A delivery asks its targets for copies of one message, and a deletion asks for each of its items the nodes that are to
//! delete it. A call that fails at once asks nothing.
//!
//! STANDS ON
//!
//! `call_tickets` for answers, `mail_base` for ids, names and sets of nodes, `cluster_model` and `object_model` for what a
//! ticket is.
//!
//! WHAT IT DOES NOT DO
//!
//! It sends no letters and knows no disk. The tickets of logins and fetches are those of `node_reads`; one that fails at
//! once has its ticket here.
#![tactic(auto)]

mod mishap;
mod progress;
mod tickets;
mod want;

pub use mishap::MishapKind;
pub use tickets::Tickets;
pub use want::{Asked, Want};
