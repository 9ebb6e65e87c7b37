//! session_model: one session of the mail service, the run of a tape, and what is promised to
//! clients.
//!
//! SUMMARY
//!
//! A session is spoken of by the octets that it was fed and the answers that its node gave it. It
//! knows no disk. A cluster is spoken of by what it was asked and what it answered. It knows no
//! session.
//!
//! DESCRIPTION
//!
//! The definitions, by subject:
//!
//! - One session: `Calls` (what it asks, and what is replied to each answer), `Talk` (its units, and
//!   what each leads to), `MailTalk` (the same of one that takes mail, by itself), `Moves` (what can
//!   befall it), `Mailing`, `Reading` and `Showing` (what its client was told), `Readings` (that this
//!   has one reading).
//! - The run of a tape: `Acts` (what is done, and what each act writes), `Events` and `Lives` (run
//!   lines that move the cluster itself, and how its nodes then are), `Turns` (which act comes
//!   next), `Run` (which lines are refused, which are handled, and where the work stopped), `Logs`
//!   (what was asked and answered), `Runs` and `Losses` (what tape and transcript tell of a run).
//! - What is promised: `Sessions` (the sessions as tape and transcript show them), `SessionParts` (the
//!   same, by protocol), `Copies`, `Facts`, `Promises`, `Books` and `Kept`.
//! - What a cluster owes for that: `Owes`; `SoundMails` has what it may take for granted of a message.
//!
//! A cluster has 1 to 16 nodes. They go down, come up in another boot, and are lost for good; as a
//! node goes down all its sessions end, those that wait too (`standing_are_up`). Tape and transcript
//! tell which nodes are lost (`lost_is_shown`). No promise makes an exception of these: the store of
//! a lost node is given back as it was when it was lost.
//!
//! The laws are functions that do nothing, and their contracts hold of the definitions alone. The
//! one that joins all is `owed_is_kept`: however a tape is driven, and wherever the work stops, the
//! promises are kept where the cluster gives what it owes of the calls.
//!
//! STANDS ON
//!
//! `mail_model`, for tapes, transcripts, records and the book.
//!
//! WHAT IT DOES NOT DO
//!
//! It has no code. It does not say which letters nodes send, nor what a node does with a call: of
//! these it asks only what a cluster owes. What a listing shows is its user's own (`ShownAreOwn`);
//! that it shows all that is there is not promised. Of the seconds of a message it says that they are
//! 0 or those of a `tick` line, and not of which.
#![tactic(auto)]

pub mod laws;
