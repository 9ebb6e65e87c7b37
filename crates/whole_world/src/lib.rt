//! whole_world: the world of a whole cluster, its steps, and what they keep.
//!
//! SUMMARY
//!
//! A world is all nodes with their disks, the letters in flight with their numbers, the seconds and
//! the book. Here its nodes have both kinds of soft state, for messages and for membership and mail
//! maps, and the steps are those of both: calls, posts, pushes, starts and stops, and beside them the
//! opening and the conclusion of a group, and reports. Whatever steps are made, what `cluster_model`
//! and `maps_model` prove stays true. A node that regroups forms an epoch of just the nodes that are
//! up; a cluster that settles comes to an epoch in which each mail map names exactly the members that
//! have mail of the user.
//!
//! DESCRIPTION
//!
//! The definitions, by module:
//!
//! - `World`: the world, and what each of the two machines sees of it. A step for messages is a step of
//!   `cluster_model` on what messages see, and maps follow along, by the records that were appended.
//! - `Thrown`: why a node throws a letter, in the order in which the causes are tried.
//! - `Steps`, `Makes`: what can be done, why it is refused, and what each step makes of a world, by what
//!   it says.
//! - `Reporting`: what a Report comes to, which is one thing alone.
//! - `Seen`: which step of `cluster_model` messages see each step as.
//! - `Laws`: what stays, whatever steps are made and whatever comes of them.
//! - `Epochs`: how an epoch begins at a node, how a cluster is opened, what a post is refused for.
//! - `Settled`: live members and settled epochs; one map for each epoch; maps name fragments; members
//!   agree.
//! - `First`: a cluster that opens in its first epoch, with all nodes of the plan as members. It is settled.
//! - `Regroup`: the rounds of letters by which a node forms an epoch, and what they come to.
//! - `Sweeps`: the pushes and reports by which an epoch settles, and that they come to an end.
//! - `Worked`: one node starts over an empty disk and regroups.
//!
//! The laws are functions that do nothing, and their contracts hold of the definitions alone. Three
//! lead to the others: `steps_keep`, `regroup_forms` and `settle_settles`. And `mail_sees` says that
//! each step is one of `cluster_model`, as messages see it, and `messages_see_steps` that a chain is.
//!
//! A node has no epoch when it starts: what it enters is formed by a regroup. A cluster opens in a first epoch, which is formed
//! without a letter: `first_stands`.
//!
//! STANDS ON
//!
//! `whole_model`, `cluster_model` and `maps_model`, and their laws.
//!
//! WHAT IT DOES NOT DO
//!
//! It has no code, and no line of the program uses it. It does not say that letters come, that a node
//! finds a map for its group, or how soon a cluster has settled; only that each sweep that finds
//! something due uses up numbers of letters. Of calls that read it says what
//! messages see of them: their rules are in `login_model`, and the world with these is that of
//! `joint_world`. The book has no entry of an epoch that was installed.
#![tactic(auto)]

mod laws;

pub use laws::{
    ack_clears, begins_anew, epochs_begin, first_due_are_found, first_due_are_one,
    first_is_charted, first_is_settled, first_stands, flows_bring_no_epoch, flows_stay, holds_here,
    mail_sees, maps_name_fragments, members_agree, messages_see_steps, one_map_per_epoch,
    one_node_regroups, opening_is_charted, opening_stands, post_is_worn, promises_stand,
    push_is_acked, quiet_is_settled, regroup_forms, reports_are_one, reports_go, settle_settles,
    stale_changes_nothing, steps_chart, steps_keep, sweep_is_worn, sweeps_send, sweeps_stay,
};
