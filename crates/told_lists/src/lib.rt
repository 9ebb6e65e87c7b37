//! told_lists: the lists of messages that nodes told of a user, and the listing that they make together.
//!
//! SUMMARY
//!
//! A login asks several nodes for the messages of its user. Each tells a list, and a message stands in as many of
//! them as nodes hold it. `join_told` makes one listing of them, in which each message stands once.
//!
//! DESCRIPTION
//!
//! A message of the listing has the latest stamp that any node told of it, with the size that was told with that
//! stamp; the targets that any node told; and as holders all nodes that told it. The listing rises by stamp, and by
//! id where stamps are equal: the order in which a session numbers messages. `IsMergeOfTold` of `login_model` says
//! so, and is the contract.
//!
//! What all lists say is put into one list, which is sorted by id. One pass over it joins neighbours of one id, and
//! what that leaves is sorted by stamp, since two nodes may tell one message with two stamps. So it takes n log n
//! steps for n messages that were told, and no list is walked for each message. Of a message it keeps the id, the
//! stamp, the size, the holders and the targets.
//!
//! The lists that are joined may be in any order, and one list may have an id twice: nothing is asked of them.
//!
//! STANDS ON
//!
//! `login_model` for what a listing of a login is, `mail_base` for the messages of lists.
//!
//! WHAT IT DOES NOT DO
//!
//! It does not know who was asked, and so not whether a list is missing.
#![tactic(auto)]

mod join;
mod runs;
mod told_list;

pub use join::join_told;
pub use told_list::ToldList;
