//! config_trials: tables of plan files, storms, the words of a command line, and what comes of them.
//!
//! SUMMARY
//!
//! Tests of `cluster_config`, `storm_maker`, `command_words` and `word_works` by their public calls: plan files that break each rule, and each pair of
//! neighbouring rules together; plan files of the greatest size; the SHA-256 of whole tapes of storms; and words that are nearly
//! of a form.
//!
//! DESCRIPTION
//!
//! | File | What it holds against tables |
//! |---|---|
//! | `tests/plan_files.rt` | the rule that a plan file breaks first, and the plan of one that keeps all |
//! | `tests/words.rt` | words of each form, and words that are nearly of one |
//! | `tests/storms.rt` | tapes of storms, against digests of a program that shares no code with this one |
//! | `tests/work.rt` | what `check` and `storm` write, and their status |
//!
//! STANDS ON
//!
//! These crates, by their public calls alone.
//!
//! WHAT IT DOES NOT DO
//!
//! It is a crate of its own since a crate is proved once more with its tests. Nothing stands on it.
#![tactic(auto)]

#[cfg(test)]
mod tests;
