//! word_works: the work of the words `check` and `storm`.
//!
//! SUMMARY
//!
//! `check_plan(sink, yard, file)` reads the plan file of this name and writes whether it keeps the rules of a plan file.
//! `write_storm(sink, number, size)` writes the tape of a storm. Each answers the exit status.
//!
//! DESCRIPTION
//!
//! | Word | What came of it | Status | What is written |
//! |---|---|---|---|
//! | `check FILE` | the file keeps all rules | 0 | `ok` |
//! | | it breaks rule K, and none before it | 2 | `! plan K` |
//! | | the yard failed to read it, as where there is none | 4 | `! read` |
//! | `storm NUMBER SIZE` | the tape was written whole | 0 | the tape |
//! | both | the sink failed | 5 | a part of that, never the whole |
//! | | memory ran out | 7 | nothing, or of a tape a part |
//!
//! LIMITS
//!
//! Those of plan files and of storms; the file is held in memory as a whole before its size is looked at.
//!
//! STANDS ON
//!
//! `cluster_config` for the rules, `storm_maker` for the tape, and `io_edge` for sinks and yards.
//!
//! WHAT IT DOES NOT DO
//!
//! It reads no words, and takes no store of the yard. Only the number of a rule is told, and no place in the file.
#![tactic(auto)]

mod check;
mod found;
mod storm;

pub use check::check_plan;
pub use found::Found;
pub use storm::write_storm;
