//! mailbox_fragment: which messages of each user are here, at one node.
//!
//! SUMMARY
//!
//! A mailbox lies in fragments: each node holds some of a user's messages. `Fragments` is the one of a
//! node: for each user the ids of the messages of which the node's store says Here.
//!
//! DESCRIPTION
//!
//! `Fragments::set` says of one message of one user whether it is here. It answers true exactly where
//! the user became full or empty, since that is what the manager of the user is told.
//! `Fragments::list` gives the ids of a user in the order of node, boot and number, and
//! `Fragments::is_empty` says whether there are none. None of them looks at other users.
//! `Fragments::users` gives the users of whom a message is here.
//!
//! A contract asks of each user and each id whether it is here (`is_here`).
//!
//! STANDS ON
//!
//! `mail_base` for names and ids.
//!
//! WHAT IT DOES NOT DO
//!
//! It knows nothing of states, disks or the octets of messages. Whether a message is here says who calls
//! `set`.
#![tactic(auto)]

mod fragments;

pub use fragments::Fragments;
