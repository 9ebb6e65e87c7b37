//! mail_map: what a manager was told of its users' messages and profiles.
//!
//! SUMMARY
//!
//! The manager of a user knows which nodes hold messages of the user, and the user's profile, since every
//! node tells it a row. `MailMap` holds these rows: one for each user, node and boot of that node.
//!
//! DESCRIPTION
//!
//! `MailMap::tell` takes a row, unless it is older than the one that stands of its user, node and boot. Of
//! two rows of one version the one that was told later stands. `MailMap::named` gives the members with a
//! row that says full: the nodes that a listing asks. `MailMap::profile` gives the greatest profile among
//! the user's rows. Both look at the rows of this user alone.
//!
//! `MailMap::install` keeps the rows of users whom the manager has in its old and its new map, told by
//! members of the new epoch in the same boot that come from the manager's own old epoch. It drops all other
//! rows, since a node that came from elsewhere reports anew.
//!
//! Contracts see a row for each node, boot and user, as the machine of `maps_model` does. The laws say that
//! the row that stands is the one of greatest version, the later told among equals, that the members
//! named are those whom that machine names, and that an install keeps just the rows that it keeps.
//!
//! STANDS ON
//!
//! `mail_base` for rows, members and maps of users, `user_map` for who manages a user, `maps_model` for what
//! is kept.
//!
//! WHAT IT DOES NOT DO
//!
//! It knows nothing of letters or epochs but those that it is handed. A row of a user whom the node does
//! not manage is taken too: who may tell what is decided before.
#![tactic(auto)]

mod installs;
mod laws;
mod map;
mod profiles;
mod rows;
mod teller;

pub use laws::{
    installs_as_the_machine, keeps_as_the_machine, names_as_the_machine, the_latest_row_stands,
};
pub use map::MailMap;
