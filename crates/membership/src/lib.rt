//! membership: how nodes form an epoch in three rounds, as one node sees it.
//!
//! SUMMARY
//!
//! A `Group` is what a node keeps of epochs: what it has promised and heard, the group that it has open,
//! and the epoch that it has installed.
//!
//! DESCRIPTION
//!
//! In the first round a node opens a group of a new epoch (`start_group`) and asks all others. In the
//! second each node that has promised no greater epoch promises this one (`hear_group`) and joins with
//! its boot, the epoch that it comes from and the buckets that it manages (`claims`); the first node
//! adds the joins (`hear_join`). In the third the first node makes members of those who joined
//! (`conclude`), and each of them installs the epoch (`hear_install`).
//!
//! Each call's contract is a relation by cases on its answer (`specs/Rounds.antt`), and the laws say
//! that each case is the rule of the machine in `maps_model`. From there it follows that all memberships
//! of one epoch are equal.
//!
//! REFUSES
//!
//! - `hear_group`: `OldEpoch` where the epoch is below the promise.
//! - `hear_join`, `conclude`: `NotAGroup` where no group of that epoch is open, or none at all.
//! - `hear_install`: the first that applies of `OldEpoch`, where the epoch is below the promise or not
//!   above the installed one; `NotPromised`, where it is above the promise; `NotMember`, where the node
//!   is not named in its boot.
//!
//! A refusal leaves the group as it was; so does `NoMemory`.
//!
//! STANDS ON
//!
//! `user_map` for the map of an epoch, `mail_base` for members and claims, `maps_model` for the rules.
//!
//! WHAT IT DOES NOT DO
//!
//! It sends no letters and writes no disk: a promise has to be on the disk before its node speaks of it.
//! It knows nothing of rows and marks.
#![tactic(auto)]

mod epochs;
mod fault;
mod group;
mod install;
pub mod laws;
mod opened;

pub use fault::GroupFault;
pub use group::Group;
pub use install::Install;
