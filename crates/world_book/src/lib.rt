//! world_book: the book of a cluster, a list that only grows.
//!
//! SUMMARY
//!
//! `Book::reserve` makes room for entries, and `Book::add` and `Book::add_all` put entries into it.
//!
//! DESCRIPTION
//!
//! It says which copies of messages were acknowledged, which are to be deleted and whose deletion was confirmed, which
//! node installed which epoch, and which nodes went down, came up and were lost. Room is made beforehand, so that what has
//! happened can be entered without memory.
//!
//! STANDS ON
//!
//! `mail_base`, for names, ids, nodes and octets.
//!
//! WHAT IT DOES NOT DO
//!
//! It is in memory, and no part of a disk. It takes no entry away.
#![tactic(auto)]

mod book;
mod entry;
#[cfg(test)]
mod tests;

pub use book::Book;
pub use entry::Entry;
