//! settled_logins: behind a settled epoch a login lists exactly what stands on the members' disks.
//!
//! SUMMARY
//!
//! A cluster has settled, and no letter is in flight. Then nobody but readers does anything, and a user
//! logs in at a member. The listing that the login is answered with has exactly the messages that stand
//! on the members' disks, each once, in rising order of stamps. And in a settled epoch the manager of a
//! user names exactly the members that hold a fragment of the mailbox, and members that are targets of a
//! state say the same.
//!
//! DESCRIPTION
//!
//! - `Reading`: steps of readers, and when such a login was answered among them.
//! - `Settled`: what stands while readers alone do something, step by step: the epoch stays settled and no
//!   disk changes (`reader_steps_stand`), a login that begins at a member is fresh
//!   (`logins_begin_settled`) and stays so (`began_stays_settled`), and it is answered with exactly what
//!   stands (`began_lists_standing`).
//! - `Laws`: the same of a run of steps (`settled_login_is_shown`); what maps name
//!   (`settled_names_fragments`); and that the parts which the login needs hold of every world that comes
//!   of an opening (`joint_steps_keep_parts`, `joint_worlds_have_parts`).
//!
//! They are functions that do nothing, and their contracts hold of the definitions alone.
//!
//! STANDS ON
//!
//! `joint_world` for the steps, `joint_model` and `login_model` for what a fresh login lists, `kept_parts`
//! for deletions, `standing_model` for what stands.
//!
//! WHAT IT DOES NOT DO
//!
//! It has no code. It does not say that a cluster settles, or that a login is answered. It says nothing of
//! a login while others deliver, delete or regroup, or while a disk fails.
#![tactic(auto)]

mod laws;

pub use laws::{
    began_lists_standing, began_stays_settled, joint_steps_keep_parts, joint_worlds_have_parts,
    logins_begin_settled, reader_steps_stand, settled_login_is_shown, settled_names_fragments,
};
