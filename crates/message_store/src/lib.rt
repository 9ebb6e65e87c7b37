//! message_store: the octets of messages by their ids.
//!
//! SUMMARY
//!
//! `MessageStore::file` appends a message to the journal, and `fetch` reads a part of it back.
//!
//! DESCRIPTION
//!
//! The store keeps, for each id, the place of its first Octets record in the journal, and no octets. A
//! node that starts tells it by `found` of each such record in order. To find a message costs the same
//! in a store of a hundred messages and of a hundred thousand.
//!
//! An id that is noted stays as it is: filing it again writes nothing, and a second record of it is not
//! looked at. `length` says how many octets a message has, and asks nothing of the disk.
//!
//! `fetch` sees first that the record at the place begins as one of this message's octets. What lies there
//! otherwise is never given: the answer is `NotAJournal`.
//!
//! DIAGNOSTICS
//!
//! `NotHere` comes exactly where the id is not noted, `TooLarge` exactly where the record would have more
//! than 16,842,752 octets, and `DiskFault` only where the disk's count of faults rose in the call. Out of
//! memory leaves all as it was.
//!
//! COSTS
//!
//! A filing costs the four disk calls of an append and one copy of the octets; a fetch two reads, of the
//! head and of what is asked for.
//!
//! STANDS ON
//!
//! `disk_journal` for the journal, `record_form` for the head of a record, `io_edge` for the disk.
//!
//! WHAT IT DOES NOT DO
//!
//! It knows no users and no states: which copies of a message are here is another's to say. It gives no
//! room back.
#![tactic(auto)]

mod fault;
mod store;

pub use fault::StoreFault;
pub use store::MessageStore;
