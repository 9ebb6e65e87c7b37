//! session_speaker: one trait for both kinds of session.
//!
//! SUMMARY
//!
//! Whoever serves a session, from a connection or from a tape, does the same for SMTP and for POP3: feeds it octets, lets it make
//! its moves, hands it the answers of its calls, and tells it that its node went down. `Speaker` has these calls, and
//! `SmtpSession` and `PopSession` are each one.
//!
//! DESCRIPTION
//!
//! A `Speaker` has said its greeting, which each kind of session says in its own way. Its calls say of every session of the
//! definitions that the value follows what the move makes of it (`Moves` in `call_tickets`). `Speaker::reply` hands on the answer
//! and has the reply said at once, so that a session has never anything due between two calls.
//!
//! `left` counts down with each move after which another may follow at once, so that a loop over moves ends.
//!
//! STANDS ON
//!
//! `smtp_session` and `pop_session`, by their public calls, and `call_tickets` for moves.
//!
//! WHAT IT DOES NOT DO
//!
//! It opens no session, and begins no call. The Leave of a POP3 session is not among its calls.
#![tactic(auto)]

mod speaker;

pub use speaker::Speaker;
