//! node_maps: one node's part in membership and mail maps.
//!
//! SUMMARY
//!
//! `NodeMaps` is what a node keeps of epochs, of its own rows, of the rows that it has heard, and of the
//! messages that are here. It hears the letters of membership and maps, and says what the node answers.
//!
//! DESCRIPTION
//!
//! A node starts without an epoch (`NodeMaps::new`), and the messages that its disk tells are found one by
//! one (`find`). It opens a group (`start_group`), hears the letters Group, Join, Install, Report and
//! ReportAck (`hear`), concludes its group (`conclude`), reports its rows that are due (`report`), and notes
//! each message that comes to be here or is here no more (`note`). It tells whether a row is due to a node
//! (`owes_rows`), who manages a user (`manager`), and whom it names as having mail of one (`named`).
//!
//! Contracts see the node of the machine in `maps_model` (`node_of`), and each call is that machine's rule:
//! the node that is left, the letters in the machine's order, and why a letter is thrown. The disk is any
//! that holds messages of the same users (`IsDisk`).
//!
//! **A promise comes first on the disk.** `promise_due` says which promise a letter makes due, and
//! `next_epoch` which one a group of the node's own does. The caller appends and syncs it, and only then
//! calls `hear` or `start_group`, whose letters speak of it.
//!
//! REFUSES
//!
//! `hear` says why a letter is thrown: `Old`, `NotPromised`, `NotMember`, `Late` and `Stale`. A Group that is
//! old is thrown, and answered all the same.
//!
//! Where memory runs out in `hear` of an Install, in `conclude` or in `note`, nothing is said of what is
//! left, and the node has to go down. Elsewhere the node is as before.
//!
//! STANDS ON
//!
//! `membership` for epochs, `map_rebuild` for versions and for which rows are due, `mail_map` for rows,
//! `mailbox_fragment` for the messages that are here, `user_map` for who manages a user, `maps_model` for
//! the rules, and `joint_model` for what calls that read see of maps.
//!
//! WHAT IT DOES NOT DO
//!
//! It writes no disk and sends nothing. It knows no profiles.
#![tactic(auto)]

mod answer;
mod concluding;
mod entering;
mod hearing;
pub mod laws;
mod letters;
mod maps;
mod naming;
mod noting;
mod opening;
mod reporting;

pub use answer::{Answer, Refusal};
pub use concluding::Concluded;
pub use hearing::tells_own_row;
pub use maps::NodeMaps;
