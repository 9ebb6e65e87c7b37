//! worked_sessions: runs that were worked by hand, which keep the promises, and runs that do not.
//!
//! SUMMARY
//!
//! A promise whose premises nothing can meet promises nothing. Here one tape of one message meets them
//! all, and so does a tape of three nodes, whose letters are heard twice and out of their order. One
//! session meets the premises of a deletion. On one more tape a node stops while a session of it waits,
//! starts again, and is lost as the sink fails.
//!
//! DESCRIPTION
//!
//! A promise that nothing breaks promises nothing either. For each promise there is a wrong run here of
//! which it is false, whoever chooses the sessions, the messages, their ids and the nodes that the
//! promise speaks of: `wrong_stores`, `wrong_readers`, `wrong_replies`, `wrong_books`.
//!
//! STANDS ON
//!
//! `session_model`, for sessions, runs and promises, and `mail_model`.
//!
//! WHAT IT DOES NOT DO
//!
//! It has no code, but laws alone, and says nothing of tapes that are not worked here.
#![tactic(auto)]

pub mod laws;
