//! part_trials: tables of the parts of a node.
//!
//! SUMMARY
//!
//! Tests of the libraries that a node is made of, by their public calls: its disk and journal, what a replica keeps, and what a
//! crash forgets.
//!
//! DESCRIPTION
//!
//! | File | What it holds against tables |
//! |---|---|
//! | `tests/disks.rt` | what a disk in memory leaves by its images, and a disk over a real file, of `node_disk` |
//! | `tests/yards.rt` | stores that are taken and given back, of `yard_stores` |
//! | `tests/journals.rt` | a journal over disks that fail and tear, of `disk_journal` |
//! | `tests/records.rt` | payloads that were worked by hand, of `record_form` |
//! | `tests/messages.rt` | messages that are filed and fetched, of `message_store` |
//! | `tests/objects.rt` | joins, and the same states in all orders, of `object_table` |
//! | `tests/log.rt` | what is due, and who has acknowledged what, of `update_log` |
//! | `tests/pushes.rt` | pushes, acknowledgements and retirements, of `replica_push` |
//! | `tests/mailboxes.rt` | a mailbox as its messages come and go, of `mailbox_fragment` |
//! | `tests/assignments.rt` | maps of an epoch, of `user_map` |
//! | `tests/rounds.rt` | the three rounds of an epoch, of `membership` |
//! | `tests/rows.rt` | rows that are told, and what installs keep of them, of `mail_map` |
//! | `tests/marks.rt` | versions and marks over two installs, of `map_rebuild` |
//! | `tests/locks.rt` | who may take a lock, of `drop_lock` |
//!
//! STANDS ON
//!
//! These crates, by their public calls alone.
//!
//! WHAT IT DOES NOT DO
//!
//! It is a crate of its own since a crate is proved once more with its tests. Nothing stands on it.
#![tactic(auto)]

#[cfg(test)]
mod tests;
