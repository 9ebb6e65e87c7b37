//! accepted_tapes: which tapes the machine of `joint_world` accepts, line by line.
//!
//! SUMMARY
//!
//! A tape is handled through its line `end` where no line of it is refused. Whether a letter is in
//! flight, whether there is room for letters, and whether a ticket stands, no tape says by itself: it
//! follows from what the cluster made of the lines before. Here that is said by the machine alone, so
//! that a reader of a tape can find it by hand, or by a plain program (`Plain` of `cluster_model`).
//!
//! DESCRIPTION
//!
//! - `Orders`: the steps of the machine that a run line asks for.
//! - `Follows`: what the machine makes of the acts of a tape, one after another.
//! - `Accepted`: run lines that are accepted, whatever the machine makes of those before.

//!
//! STANDS ON
//!
//! `joint_world` for the machine, `session_model` for the acts of a run, and `cluster_owes` for calls
//! and answers as both name them; `worked_sessions` for the session of the worked tape.
//!
//! WHAT IT DOES NOT DO
//!
//! It has definitions and a law alone, and no code of the program. That a good tape is handled is said
//! and proved in `porcupine_server`.
#![tactic(auto)]

pub mod laws;
