//! disk_journal: the journal of a node, on any disk.
//!
//! SUMMARY
//!
//! `create` makes a journal on an empty disk, `open` finds the records of one that is there, `append` adds a record, and
//! `read` gives a part of one.
//!
//! DESCRIPTION
//!
//! A journal begins with a header of 16 octets. Each record has a gate octet, the length of its payload in four octets,
//! and the payload. The gate 0xA5 is open, every other is closed, and the first closed gate ends the journal. A record is
//! written after the closed gate, with the next gate, and synced, before its own gate is opened, and that is synced too.
//! So at each moment a stop of the machine leaves the records that were there, or these and the new one, whatever the
//! disk made of the writes that it had not yet synced; and once `append` is Ok, each stop leaves the new one too.
//!
//! COSTS
//!
//! An append costs four disk calls and a buffer of the record's size; an opening two reads for each record, and 16 octets
//! of memory for its place; a reading as many reads as the disk needs to give the octets.
//!
//! REFUSES
//!
//! A payload of more than 16,842,752 octets, and a disk whose header is not that of this form and node, or which ends
//! before its first closed gate. An opening writes nothing: a closed gate may hold any octet but 0xA5, and what follows it
//! is garbage, which the next append writes over. After an append that a disk fault ended, the disk is to be started again
//! (`Disk::restart`) and the journal opened again: whether the record counts is then seen.
//!
//! STANDS ON
//!
//! The disk of `io_edge`, the numbers of nodes of `mail_base`, and the form of the journal in `mail_model`.
//!
//! WHAT IT DOES NOT DO
//!
//! It does not say what the octets of a record mean, and never gives room back.
#![tactic(auto)]

mod fault;
mod journal;
mod place;
mod reading;
mod sizes;
mod writing;

pub use fault::JournalFault;
pub use journal::Journal;
pub use place::Place;
