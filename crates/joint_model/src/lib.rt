//! joint_model: a cluster with all that its nodes do.
//!
//! SUMMARY
//!
//! Messages, membership and mail maps as a whole, and calls that read beside them, over the same disks
//! and letters: the node that has all three kinds of soft state. Each move is one of both halves, so
//! all invariants hold and none is proved again. In a settled epoch a login lists exactly what stands.
//!
//! DESCRIPTION
//!
//! - `Joint`: nodes with all that they keep, and what each half sees of them.
//! - `Moves`: what a node may do, and the moves of such a cluster.
//! - `Laws`: all invariants stay (`moves_keep_sound`), and the rules of either half are moves of both
//!   (`reading_is_act`, `reading_may_act`, `others_may_act`).
//! - `Fresh`: settled epochs, and what holds in them. Maps name who has mail (`settled_names`), members
//!   agree (`settled_agree`), and a fresh login lists exactly the messages that stand
//!   (`fresh_lists_standing`, `settled_login_lists`).
//!
//! The laws are functions that do nothing, and their contracts hold of the definitions alone.
//!
//! STANDS ON
//!
//! `whole_model` for messages, membership and maps, `login_model` for calls that read, and
//! `gone_model`: that each deletion has every node as target is a premise of what is said of listings.
//!
//! WHAT IT DOES NOT DO
//!
//! It has no code, and no line of the program uses it. Its moves have no numbers of letters and no
//! seconds: these are of a world, as in `whole_world`, and that the steps of a world are such moves is
//! not said yet for calls that read.
#![tactic(auto)]

mod laws;

pub use laws::{
    fresh_lists_standing, gone_is_seen, members_are_of_plan, moves_keep_sound, others_may_act,
    reading_is_act, reading_may_act, settled_agree, settled_login_lists, settled_names,
    settled_stays,
};
