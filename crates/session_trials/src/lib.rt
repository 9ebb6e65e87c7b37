//! session_trials: tables of what a session says.
//!
//! SUMMARY
//!
//! Tests of `smtp_session` and `pop_session` by their public calls: a client speaks, a node answers the calls of its session, and
//! what the session says is held against tables.
//!
//! DESCRIPTION
//!
//! A table has the lines that the client says and, indented, what they lead to. A line that begins with `!` says what befalls the
//! client. `tests/smtp` is of sessions that take mail, `tests/pop` of those that show it; `rows.rt` of each has every row of its
//! table of replies once.
//!
//! STANDS ON
//!
//! `smtp_session` and `pop_session`, by their public calls alone.
//!
//! WHAT IT DOES NOT DO
//!
//! It is a crate of its own since a crate is proved once more with its tests. Nothing stands on it.
#![tactic(auto)]

#[cfg(test)]
mod tests;
