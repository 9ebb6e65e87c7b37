//! drop_lock: which call holds each user's maildrop.
//!
//! SUMMARY
//!
//! The manager of a user lets one session at a time read the user's maildrop (RFC 1939, section 4).
//! It keeps the ticket of the login that holds it.
//!
//! DESCRIPTION
//!
//! A contract sees the finite map of `object_model` from the names of users to the numbers of tickets.
//! So a user's lock is held by at most one ticket. `Locks::take` refuses exactly where another ticket holds the lock, and
//! names that ticket. `Locks::release` lets go only what that ticket holds. `Locks::clear` lets go
//! everything, as an install of a new epoch does.
//!
//! STANDS ON
//!
//! `mail_base` for names and tickets, `object_model` for what becomes of the map.
//!
//! WHAT IT DOES NOT DO
//!
//! It does not know whether a ticket still stands: a lock whose release was lost stays until it is
//! cleared.
#![tactic(auto)]

mod locks;

pub use locks::{LockFault, Locks};
