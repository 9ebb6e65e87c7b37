//! line_source: sources that give lines without being asked octet by octet.
//!
//! SUMMARY
//!
//! A `LineSource` is a source of `io_edge` that can tell where its next LF stands. `take_part` takes as much of a line as is at
//! hand, through its LF and no further, and appends it to a vector.
//!
//! DESCRIPTION
//!
//! - A `ReadSource` over a buffered reader of std looks through what the reader holds.
//! - A `SliceSource` looks through the octets that are left.
//! - A `FaultySource` is asked for one octet at a time, so that the read of each octet can be the one that fails.
//!
//! DIAGNOSTICS
//!
//! `PartFault::Failed` comes only where the count of the source rose. At a fault, of whichever kind, no octet was taken.
//!
//! COSTS
//!
//! Some instructions an octet for the search and the copy, and one call of the reader for each of its buffers.
//!
//! STANDS ON
//!
//! `io_edge` for sources, `memchr` for the search.
//!
//! WHAT IT DOES NOT DO
//!
//! It sets no limit to a line: whoever takes parts says how many octets a part may have.
#![tactic(auto)]

mod readers;
mod source;

pub use source::{LinePart, LineSource, PartFault};
