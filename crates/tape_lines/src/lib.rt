//! tape_lines: the lines of a tape.
//!
//! SUMMARY
//!
//! Reads the plan lines of a tape up to `go`, and the run lines up to `end`, as values. Each call answers exactly what the
//! definitions of `mail_model` say of the line.
//!
//! DESCRIPTION
//!
//! A line is given without its LF; a CR at its end is left out. Words stand after one space each. Numbers have 1 to 20
//! decimal digits and are below 2^64. Octets are pairs of hexadecimal digits of either case, one pair at least. An id is its
//! node, boot and number in decimal, joined by periods, each above 0 and in the range of its type.
//!
//! REFUSES
//!
//! A line of more than 65,535 octets, and each line of no form.
//!
//! STANDS ON
//!
//! `line_words` for words and numbers, `mail_base` for names, ids, secrets and the plan, and `hex` for the octets of `feed`.
//!
//! WHAT IT DOES NOT DO
//!
//! It reads no source and writes no transcript.
#![tactic(auto)]

mod cluster_order;
mod copy_count;
mod draft;
mod id_word;
mod order;
mod plan_line;
mod protocol;
mod words;

pub use cluster_order::ClusterOrder;
pub use copy_count::CopyCount;
pub use draft::Draft;
pub use order::{Order, read_order};
pub use plan_line::{PlanLine, read_plan_line};
pub use protocol::Protocol;
pub use words::{strip, tape_line, without_cr};
