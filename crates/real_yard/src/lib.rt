//! real_yard: the yard of the running program.
//!
//! SUMMARY
//!
//! A `RealYard` hands out stores of a `Backing` and doors of the system, and reads the files of the system. `InMemory` is a backing of
//! fresh disks in memory, `InFolder` one of files.
//!
//! DESCRIPTION
//!
//! The yard keeps a memory of each store and each door that it handed out or got back, for clauses alone. Which backing it has is a
//! type parameter: so clauses know that what is in memory does not fail and was empty.
//!
//! Each door is at a port of 127.0.0.1. A store of a folder is the file `S-N.journal` for shard S and node N; it is made where it
//! is not there, and the folder is not.
//!
//! What it says on standard error, a line each, N for the node's number:
//!
//! | Line | Comes where |
//! |---|---|
//! | `porcupine: node N has its store in FILE` | the file was opened, and is empty |
//! | `porcupine: node N: FILE is not empty` | the file was opened, and is not |
//! | `porcupine: node N has no store: FILE: WHY` | the file could not be opened |
//! | `porcupine: node N has its door for SMTP at 127.0.0.1:PORT` | the door was opened; so for POP3 |
//! | `porcupine: node N has no door for SMTP: 127.0.0.1:PORT: WHY` | the door could not be opened; so for POP3 |
//! | `porcupine: FILE could not be read: WHY` | a file of that name could not be read |
//!
//! DIAGNOSTICS
//!
//! `YardRefusal::Failed` comes only where the yard's count of such faults rose: at a store where the file could not be opened, at a
//! door where the port could not, at a file where it could not be read. A backing in memory never fails. That a line could not be
//! written to standard error is no fault.
//!
//! STANDS ON
//!
//! `io_edge` for yards, `tcp_door` for doors, `node_disk` for disks over files.
//!
//! WHAT IT DOES NOT DO
//!
//! It is part of the trusted edge: what a file of the system holds and which port a door is at is told by no clause.
#![tactic(auto)]

mod backing;
mod yard;

pub use backing::{Backing, InFolder, InMemory};
pub use yard::RealYard;
