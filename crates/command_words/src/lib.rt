//! command_words: the words of a command line, and what they ask for.
//!
//! SUMMARY
//!
//! `read_words(words)` gives the task that the words after the program's name ask for, or none where they are of no form.
//!
//! DESCRIPTION
//!
//! | Words | Task |
//! |---|---|
//! | `drive` | `Task::Drive` |
//! | `storm NUMBER SIZE` | `Task::Storm` |
//! | `check FILE` | `Task::Check` |
//! | `serve FILE` | `Task::Serve` |
//!
//! NUMBER has 1 to 20 decimal digits and is below 2^64. SIZE has 1 to 6 and is 1 to 100,000. FILE has at least one octet. A word
//! that begins with `-` is refused wherever it stands, and so is any other word, one too few and one too many.
//!
//! DIAGNOSTICS
//!
//! Words of no form are no error: the answer is then none. The only error is want of memory.
//!
//! STANDS ON
//!
//! `clap`, which says which word is which; `line_words` for numbers.
//!
//! WHAT IT DOES NOT DO
//!
//! It takes no word from the system, and prints nothing: `USAGE` is for whoever tells a user of the forms.
#![tactic(auto)]

mod given;
mod task;
mod usage;

pub use task::{Task, read_words};
pub use usage::USAGE;
