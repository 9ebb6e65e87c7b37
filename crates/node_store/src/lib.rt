//! node_store: what one node keeps for good.
//!
//! SUMMARY
//!
//! A `NodeStore` is a node's journal, the octets of its messages, the states of its objects and its update log, as one
//! value. `create` begins one on an empty disk, `open` reads one that is there, and each call that changes it also records
//! what it changed.
//!
//! DESCRIPTION
//!
//! Each changing call does to the store what the rules of the cluster have a node do to its log and its disk:
//!
//! | Call | What is done |
//! |---|---|
//! | `boot` | the boot is recorded |
//! | `promise` | the promise of an epoch is recorded |
//! | `store_octets` | the octets are recorded, where some user's copy is not gone and none are stored yet |
//! | `take` | a state is joined to what stands; where the join is news it is recorded, and noted for its other targets |
//! | `take_here`, `take_gone` | so is a copy that is here for each user, or a deletion for each mark, in order |
//! | `acknowledged` | a node is taken out of an entry; with the last one the entry goes, and the state is recorded as retired |
//! | `retired` | the entry of that very state goes, and the state is recorded as retired |
//! | `widen` | a copy that is here gets one target more |
//!
//! A state for which no other node is a target is recorded as retired at once, and has no entry.
//!
//! What the store keeps is said of any list of records: `KeepsRecords records store`. The disk need not tell them. Where the store
//! kept some records before a call, it keeps these and the added ones after it, and its log and its records are those that
//! the rules make.
//!
//! `open` reads a journal that is there, record by record. The store that it gives keeps exactly these records, and its log is
//! the one that a start over them finds: each state is owed to all its other targets again, unless it is recorded as retired
//! after it. `Recovered` has what else a start needs: the last boot, the last promise, the greatest count of a stamp, and for
//! each boot the greatest number that a record names for a message of this node. Of a disk that tells nothing it is known that the store
//! keeps some records.
//!
//! `state`, `users`, `ids`, `entry`, `due`, `owes` and `length` tell what the records say, and ask nothing of the disk. `fetch` reads
//! octets of a message into a slice; `octets` and `octets_part` give them as a vector.
//!
//! DIAGNOSTICS
//!
//! `Disk` comes only where the disk's count of faults rose in the call. `NoMemory` may come after something was recorded.
//! After either the node has to go down, and nothing is said of the store. Of the records that the call was to add the first
//! stand on the disk, and one more may: that is said of what reads give, and of each image that a stop of the machine may
//! leave, at each moment of the call.
//!
//! Where a disk tells its octets, `open` gives a store only where they are a journal of the node with payloads that all spell
//! records, and answers `NotAJournal` only where they are none: the header is another's, the octets end before the first closed
//! gate, or a payload is outside the grammar. A record whose gate is closed is not there. Neither `open` nor the calls that
//! read octets write anything, whatever they answer.
//!
//! COSTS
//!
//! Each record costs the four disk calls of an append, and its octets are copied once. A state costs time logarithmic in the
//! number of objects and of entries. Octets of a message are recorded once, for any number of users.
//!
//! `open` reads each payload once: one of at most 256 octets whole, and of a longer one, which only a message can have, the
//! first 14. It takes a few octets of memory for each record, and none for the octets of messages.
//!
//! STANDS ON
//!
//! `disk_journal`, `record_form`, `message_store`, `object_table`, `update_log` and `replica_push`; the rules are those of
//! `cluster_model`.
//!
//! WHAT IT DOES NOT DO
//!
//! It knows no letters, tickets or members, and draws no numbers. It gives no room back, and mends no journal.
#![tactic(auto)]

mod acks;
mod append;
mod copies;
mod entry;
mod fault;
mod laws;
mod mailbox;
mod news;
mod octets;
mod payload;
mod reads;
mod recovered;
mod reopen;
mod reread;
mod store;
mod wider;

pub use fault::{KeepFault, ReadFault};
pub use laws::{boots_change_nothing, promises_change_nothing};
pub use recovered::Recovered;
pub use store::NodeStore;
