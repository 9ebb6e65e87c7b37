//! login_model: logins and fetches over several nodes, as a machine with an invariant.
//!
//! SUMMARY
//!
//! What a node does for calls that read: a login asks the user's manager and then exactly the nodes
//! that this names, and a fetch asks one holder after another. Such a call changes tickets and sends
//! letters, and writes nothing. And what its ticket knows: each thing that it was told was true of the
//! node that told it at a moment since the call began, whatever letters were dropped, repeated or late,
//! and whatever nodes stopped.
//!
//! DESCRIPTION
//!
//! The definitions, by module:
//!
//! - `Readings`: how far a login and a fetch have come, and their tickets.
//! - `Cluster`: what calls that read see of a cluster, with its story: the slots of all moments so far.
//! - `Rules`: what one node does, as functions of plain values.
//! - `Progress`: what an ask of a ticket answers, and how many letters mishaps may still send for a call.
//! - `Facts`, `Moves`, `Parts`: what may be told of a node, what a node may do, and the invariant.
//! - `Beside`: a step in which these calls do nothing.
//! - `Putting`: how letters are put in flight, where a mishap sends letters.
//! - `Listing`: what a login lists, and when it lists exactly what stands.
//! - `Laws`, `NodeLaws`: what holds whatever moves are made, and that each rule is a move.
//!
//! The laws are functions that do nothing, and their contracts hold of the definitions alone. Of the
//! invariant: `opening_is_sound`, `moves_keep_sound`, `beside_keeps_sound`. Of what is known: `logins_know`, `fetches_know`,
//! `lists_are_all`, `failures_count`. Of who is waited for: `awaited_fly`, `pending_waits`,
//! `mishap_ends_wait`, `chances_fall`. Of a listing: `fresh_lists_standing`, `still_is_fresh`. The others
//! say that a rule or a step is made of moves.
//!
//! STANDS ON
//!
//! `cluster_model` for listings and the letters that answer, `object_model` and `mail_model` for the
//! words.
//!
//! WHAT IT DOES NOT DO
//!
//! It has no code, and no line of the program uses it: mail is read at one node, by the rules of
//! `cluster_model`. Its nodes keep no locks of maildrops, and a manager judges by the plan's secrets and
//! not by profiles. Of maps it knows only whom a node names of a user, and who manages the user. It does
//! not say that a call ends.
#![tactic(auto)]

mod laws;

pub use laws::{
    awaited_fly, beside_keeps_sound, chances_fall, failures_count, fetches_know,
    fresh_lists_standing, heard_may_move, late_may_move, lists_are_all, logins_know, lost_may_move,
    mishap_ends_wait, moves_keep_sound, nodes_befall, nodes_do_other, nodes_end, nodes_fall,
    nodes_fetch, nodes_give_up, nodes_hear, nodes_leave, nodes_log_in, nodes_start,
    opening_is_sound, pending_waits, puts_may_move, rules_go_out, still_is_fresh,
};
