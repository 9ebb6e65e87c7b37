//! settled_worlds: what a world of the program owes of its end, once it has settled.
//!
//! SUMMARY
//!
//! A world is told to settle, and settles. While nobody but readers does anything, a session that is then
//! opened at a member and lets its user in is answered with exactly the messages that stand by the records
//! of the members' disks. A mail map that is then asked for names exactly the members that hold a fragment
//! of the mailbox, and members agree. So it is of every world that came of an opening by steps.
//!
//! DESCRIPTION
//!
//! - `Settled`: what the outcomes of a run owe, which members they show, and the law that a world which was
//!   driven gives it (`world_owes_settled`).
//!
//! STANDS ON
//!
//! `settled_logins` for what a login lists, `shown_members` for whose epoch it is, `cluster_world` for the
//! steps that outcomes tell of.
//!
//! WHAT IT DOES NOT DO
//!
//! It has no code. Of tapes and sessions it says nothing: `fresh_sessions` does.
#![tactic(auto)]

mod laws;

pub use laws::world_owes_settled;
