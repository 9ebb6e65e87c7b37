//! cluster_model: a cluster of nodes as a machine, and what holds in it whatever happens.
//!
//! SUMMARY
//!
//! What a node does with a call and with a letter is a function from its soft state and the records
//! of its disk to its soft state, the records that it appends and the letters that it sends. A
//! cluster is nodes, disks, letters in flight and a book, and it changes by three kinds of move.
//! What is acknowledged stands, whatever letters are lost, repeated or reordered, and whatever nodes
//! stop: that is proved here, once, and apart from code.
//!
//! DESCRIPTION
//!
//! The definitions, by module:
//!
//! - `Reads`: what a call that reads comes to: the listing of a mailbox, or a part of a message.
//! - `Cluster`: nodes with their soft state, their lives and disks, letters in flight, the book.
//! - `Store`: how a node takes a state: joined, recorded and noted.
//! - `Rules`: what a node does with the letters File, Filed, Strike, StrikeTold, Push, PushAck and
//!   Retired, with a mishap, and as it begins a delivery or a deletion, pushes or widens.
//! - `Targets`: which nodes a delivery and a deletion ask.
//! - `Thrown`: which letters are thrown and why, and the stamps that a node learns of a letter.
//! - `Starts`: what a node finds on its disk as it starts.
//! - `Forms`: what messages see where a node does something for membership or maps.
//! - `Progress`: what an ask of a ticket answers, and the entries of the book that go with it.
//! - `Room`: the limits of letters in flight, and what a push sends.
//! - `Claims`: who claims what of which node's disk.
//! - `Moves`: the three kinds of move, and what a node's act has to keep.
//! - `Parts`: the invariant, in parts over only the fields that each reads.
//! - `Deeds`: what a node does as an act of the machine.
//! - `World`, `Steps`, `Makes`: a world with numbered letters and seconds; its steps, what they
//!   answer, and what is refused in which order; what each step makes of the world.
//! - `Laws`, `NodeLaws`, `RuleLaws`, `TicketLaws`, `ReadLaws`, `WorldLaws`, `Rows`: what is proved of
//!   these.
//!
//! The laws are functions that do nothing, and their contracts hold of the definitions alone.
//!
//! Of a cluster: `moves_keep_sound`, `acknowledged_stand`, `acknowledged_kept`, `dropped_are_gone`.
//! Of a world: `steps_keep_sound`, `steps_bring`, `opening_is_sound`. Of the rules of a node, that
//! each is an act that keeps the invariant: `nodes_hear`, `nodes_learn`, `nodes_deliver`,
//! `nodes_strike`, `nodes_push`, `nodes_widen`, `nodes_end`, `nodes_refuse`, `nodes_read`, `nodes_note`,
//! `nodes_fault`, `nodes_fall`, `nodes_start`, `nodes_stop_start`. And that a state that is taken is
//! joined and changes nothing else: `takes_join`, `takes_only`; and that a start owes what is not
//! retired: `starts_owe`.
//!
//! Of the rules as a reader states them: `confirms_after_records`, `confirms_after_gone`,
//! `disk_says_merge`, `takes_nothing_twice`, `counts_once`, `targets_stay`, `stored_at_f`,
//! `leaves_log_at_last`, `answers_sender`, `sends_in_order`, `ids_are_new`, `fetched_as_filed`.
//!
//! Of a ticket from its beginning to its answer: `targets_are_enough`, `tickets_begin_fair`,
//! `tickets_stay_fair`, `failed_has_cause`, `all_heard_is_done`.
//!
//! Of listings: `listed_once`, `listed_named`, `one_listing`.
//!
//! `Plain` is a plain program of the rules: what each step makes of a world, where no disk fails.
//! `Rows` has worked cases of it, letter by letter, with values that were worked by hand: `two_of_three`,
//! `heard_twice_counts_once`, `targets_move_on`, `pushed_three_times`, `late_here_changes_nothing`,
//! `gone_before_it_came`.
//!
//! STANDS ON
//!
//! `object_model` for sets, states, joins, the update log and letters; `mail_model` for records, the
//! book and messages; `sha2` for the digest of a message.
//!
//! WHAT IT DOES NOT DO
//!
//! It has no code of a node. Logins, fetches and leaves have no rule here: of their steps messages see
//! that a node draws a number of a ticket, learns stamps and goes down as its disk fails, and that
//! letters of such calls are sent, and are taken out with no note at a ticket of theirs. So it is with
//! membership and mail maps: of a step that forms an epoch, and of a letter of theirs, messages see
//! what may change at most, and `whole_world` says the rest.
#![tactic(auto)]

mod laws;

pub use laws::{
    acknowledged_kept, acknowledged_stand, all_heard_is_done, answers_sender, confirms_after_gone,
    confirms_after_records, counts_once, disk_says_merge, dropped_are_gone, failed_has_cause,
    fetched_as_filed, gone_before_it_came, heard_twice_counts_once, ids_are_new,
    late_here_changes_nothing, leaves_log_at_last, listed_named, listed_once, moves_keep_sound,
    nodes_deliver, nodes_end, nodes_fall, nodes_fault, nodes_hear, nodes_learn, nodes_note,
    nodes_push, nodes_read, nodes_refuse, nodes_start, nodes_stop_start, nodes_strike, nodes_widen,
    opening_is_sound, pushed_three_times, sends_in_order, starts_owe, steps_bring,
    steps_keep_sound, stored_at_f, takes_join, takes_nothing_twice, takes_only, targets_are_enough,
    targets_move_on, targets_stay, tickets_begin_fair, tickets_stay_fair, two_of_three,
};
