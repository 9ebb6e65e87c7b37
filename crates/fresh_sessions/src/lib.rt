//! fresh_sessions: what a new session lists once a cluster has settled.
//!
//! SUMMARY
//!
//! A cluster is told to settle, and settles while no session is open. A session that is then opened at a
//! member, and lets its user in, lists exactly the messages that stand: each once, in rising order of
//! stamps. A mail map that is then asked for names exactly the members that hold a fragment of the
//! mailbox, and members agree on what they hold. Both are said over the lines of a tape, the acts of its
//! run, its sessions and the records of the nodes. And it is said what a cluster owes for it.
//!
//! DESCRIPTION
//!
//! - `Acts`: what a cluster owes of the end of a run; and which members its acts show, those of the last
//!   regroup, or all nodes.
//! - `Tapes`: tapes that are freshly ended, and tapes that end in a mail map; `FreshListsAll` and
//!   `SettledAgrees` are what is promised of them.
//! - `Kept`: both promises together, and the law that they are kept where a cluster gives what it owes
//!   (`owed_settled_is_kept`).
//!
//! STANDS ON
//!
//! `standing_model` for what stands, `session_model` for runs and their sessions.
//!
//! WHAT IT DOES NOT DO
//!
//! It has no code. That a cluster gives what it owes is shown where a world makes its steps.
#![tactic(auto)]

mod laws;

pub use laws::owed_settled_is_kept;
