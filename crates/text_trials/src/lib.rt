//! text_trials: tables of words, lines and texts.
//!
//! SUMMARY
//!
//! Tests of the lowest crates by their public calls: octets that come in pieces, lines and replies of SMTP and of POP3, lines of a tape, names and
//! ids, and the plain functions that spell what a disk holds.
//!
//! DESCRIPTION
//!
//! | File | What it holds against tables |
//! |---|---|
//! | `tests/plain.rt` | the plain functions of `mail_model`, against values that were counted by hand |
//! | `tests/beside.rt` | the plain programs of `mail_plain`, against rows that were worked by hand |
//! | `tests/words.rt` | names, ids, stamps, sets of nodes and plans of `mail_base` |
//! | `tests/edge.rt` | each source, sink, disk and yard of `io_edge`, and those of which one call fails |
//! | `tests/dots.rt` | lines and texts of `dot_text`, cut at every place |
//! | `tests/parts.rt` | the words of a line, of `line_words` |
//! | `tests/smtp.rt`, `tests/smtp_replies.rt` | lines and replies of SMTP, of `smtp_wire` |
//! | `tests/pop.rt`, `tests/pop_replies.rt` | lines and replies of POP3, of `pop_wire` |
//! | `tests/tape.rt` | lines of a tape, of `tape_lines` |
//!
//! STANDS ON
//!
//! These crates, by their public calls alone.
//!
//! WHAT IT DOES NOT DO
//!
//! It is a crate of its own since a crate is proved once more with its tests. Nothing stands on it.
#![tactic(auto)]

#[cfg(test)]
mod tests;
