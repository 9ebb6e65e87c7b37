//! user_map: which member of an epoch manages each bucket of users.
//!
//! SUMMARY
//!
//! `assign` makes the map of an epoch from what the members claim. A bucket that was managed keeps its
//! manager where it can, so that few rows move; the others go to the members that have the fewest.
//!
//! DESCRIPTION
//!
//! A claim counts where its node is a member and its bucket is one of the buckets. Of the claims of one
//! bucket the one of the greatest `since` is granted, of equal ones that of the lowest node, and the
//! bucket keeps that `since`. Then each bucket that nobody claims, in rising order, goes to the member
//! with the fewest buckets so far, the lowest number among equals, with the new epoch as its `since`.
//!
//! Its contract is the relation `IsAssigned` of `maps_model`, which at most one map meets. So all nodes
//! that assign the same claims, members and buckets have the same map. `specs/Plain.antt` has a plain
//! program of it, and `some_map` says that there always is a map.
//!
//! `manager` tells who manages a user's bucket by a map, and `manages` whether a node does.
//!
//! The time grows with the buckets and the claims, and each step looks at each member once.
//!
//! STANDS ON
//!
//! `mail_base` for claims, members and maps, which it passes on; `maps_model` for what an assignment is.
//!
//! WHAT IT DOES NOT DO
//!
//! It moves no bucket only to spread the load, and knows nothing of how members came to be.
#![tactic(auto)]

mod assignment;
mod cells;
pub mod laws;
mod loads;
mod managers;

pub use assignment::assign;
pub use mail_base::{Claim, MapRow, Member, UserMap};
pub use managers::{manager, manages};
