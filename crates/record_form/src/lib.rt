//! record_form: the records of a journal as octets.
//!
//! SUMMARY
//!
//! `read_record` reads a payload as an entry, and `record_into` writes an entry as a payload.
//!
//! DESCRIPTION
//!
//! A payload is the octets of one record of a journal. Each record has one spelling, and no two
//! records have the same: `read_record` answers an entry exactly where the payload is that entry's
//! spelling, and nothing exactly where it spells no record. So what was written is read again, and
//! what is read can be written again, octet for octet. docs/FORMATS.md has the grammar.
//!
//! The octets of a message follow the head of their record to the end of the payload. An entry says how
//! many they are; it neither holds nor copies them. `octets_head` is the head alone, without memory.
//!
//! DIAGNOSTICS
//!
//! Both calls fail only where memory runs out. `record_into` has then appended nothing.
//!
//! STANDS ON
//!
//! `mail_base`, for names, ids, stamps and states, and the grammar of records in `mail_model`. It
//! carries the law `one_spelling` of that crate over to code.
//!
//! WHAT IT DOES NOT DO
//!
//! It bounds no length: the journal does. It knows no disk and no gate, and does not say what a record
//! means beside others.
#![tactic(auto)]

mod entry;
mod fields;
mod kinds;
mod reading;
mod writing;

pub use entry::DiskEntry;
pub use reading::read_record;
pub use writing::{octets_head, record_into};
