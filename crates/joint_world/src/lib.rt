//! joint_world: the world of the whole machine with calls that read.
//!
//! SUMMARY
//!
//! A world whose nodes have all that they keep: for messages, for membership and maps, the tickets of
//! calls that read, and the locks of maildrops. Its steps are those of `whole_world`: in most of them
//! tickets and locks stay, and the others are those of calls that read, each by its rule. The whole
//! machine sees each step as the very same step. Whatever steps are made, what is proved of messages, of
//! maps and of calls that read stays true.
//!
//! DESCRIPTION
//!
//! The definitions, by module:
//!
//! - `World`: the world, and what each machine sees of it.
//! - `Rules`: what one node with locks does for calls that read. Each is a rule of `login_model`, with what
//!   it does to the locks beside it.
//! - `Putting`: how letters of these calls are put in flight, from a queue, since a mishap sends letters.
//! - `Steps`: whose a ticket is, and why a step is refused.
//! - `Asking`: what an ask of a call that reads says.
//! - `Staying`: what becomes of tickets and locks in a step of the whole machine.
//! - `Makes`: what each step makes of a world, by what it says.
//! - `Laws`: what stays, whatever steps are made.
//! - `Seen`: what the whole machine sees of each step.
//! - `First`: a cluster that opens.
//! - `Told`: what calls that read were told is on disks still.
//! - `Subjects`: a ticket reads what its call began with, and an answer shows what disks have of that.
//! - `Ending`: that letters are put in flight comes to an end, since a rule sends letters of one ticket.
//!
//! The laws are functions that do nothing, and their contracts hold of the definitions alone: `steps_keep`,
//! `first_stands`, `stands_is_sound`, `whole_sees`, `whole_sees_all`, `pending_has_letter`,
//! `listed_is_kept`, `part_is_kept`, `subject_begins`, `subject_stays`, `subject_is_shown`, `puts_end`,
//! `rules_send_for_one`, `puts_keep_whole`.
//!
//! STANDS ON
//!
//! `joint_model` for the nodes, `login_model` for calls that read, `whole_world` for all other steps.
//!
//! WHAT IT DOES NOT DO
//!
//! It has no code. It does not say that letters come, or that a call ends. A manager judges by the plan's
//! secrets and not by profiles.
#![tactic(auto)]

mod laws;

pub use laws::{
    first_stands, listed_is_kept, part_is_kept, pending_has_letter, puts_end, puts_keep_whole,
    rules_send_for_one, stands_is_sound, steps_keep, subject_begins, subject_is_shown,
    subject_stays, whole_sees, whole_sees_all,
};
