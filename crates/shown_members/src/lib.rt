//! shown_members: the members of the epoch that a cluster settles in are those that a transcript shows.
//!
//! SUMMARY
//!
//! A transcript shows which epoch a regroup formed, and with which members; and a cluster that opens in
//! its first epoch has all nodes of the plan as members. What follows is that an epoch that is settled
//! later is that one, as long as no further epoch was formed: whichever node is up and has an epoch
//! installed has installed that one, whatever letters, disks and nodes go through meanwhile.
//!
//! DESCRIPTION
//!
//! `Shown` has the definitions. `ShowsStill` says of a world that each node that is up has installed
//! one membership, or none, and that no Install in flight brings a node to another. The laws are
//! functions that do nothing, and their contracts hold of the definitions alone: `steps_show` and
//! `all_steps_show`, that steps keep it as long as none concludes a group; `first_shows` and
//! `regroup_shows`, how it begins; and `settled_is_shown`, what follows of it. `steps_number` is for the
//! premise of `regroup_shows` on numbers of letters: each step keeps it.
//!
//! STANDS ON
//!
//! `whole_world` for the steps, the first epoch, and what a regroup comes to; `maps_model` for the rules
//! of Install letters and for what its invariant says of them; `cluster_model` for the numbers of letters.
//!
//! WHAT IT DOES NOT DO
//!
//! It has no code, and no line of the program uses it. It does not say that an epoch is ever installed
//! or settled. It says nothing of members once a group was concluded in another way than by a regroup:
//! then Installs of several epochs may be in flight, and nodes may be in several.
#![tactic(auto)]

mod laws;

pub use laws::{
    all_steps_show, first_shows, regroup_shows, settled_is_shown, steps_number, steps_show,
};
