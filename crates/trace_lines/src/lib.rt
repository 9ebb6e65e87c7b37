//! trace_lines: the lines that the service puts before the text of a message.
//!
//! SUMMARY
//!
//! `trace_into` puts the trace lines of a message after the octets that are there: its return path, and the folded line
//! that says who took it from whom, under which id and when (RFC 5321, section 4.4).
//!
//! DESCRIPTION
//!
//! A `Trace` has what the lines say: the sender's path, the argument of HELO or EHLO, which of both it was, the message's
//! id, and the seconds since 1970. A contract sees that the lines are those of the definitions, with the date of these seconds.
//! They never have more than 60,000 octets, where sender and argument are within their limits.
//!
//! DIAGNOSTICS
//!
//! `YearTooLarge` comes exactly from the second 253,402,300,800 on, where a year has five digits, and before memory is asked
//! for. A refusal leaves the octets as they were.
//!
//! STANDS ON
//!
//! `httpdate` for the date, `mail_base` for ids, and the definitions of `mail_model`.
//!
//! WHAT IT DOES NOT DO
//!
//! It looks at no octet of sender, argument or text.
#![tactic(auto)]

mod trace;

pub use trace::{Trace, TraceFault, trace_into};
