//! io_edge: what lies outside the program, as traits.
//!
//! A `Source` gives octets, a `Sink` takes them, a `Disk` holds those of one node, a `Door` gives the
//! connections that come in, and a `Yard` hands out the disks and the doors of the nodes, takes them
//! back, and reads files. What each holds is told to clauses or not, so that one contract serves memory,
//! whose octets are known, and a file, whose octets are not. Each has a count of its faults, which never
//! falls: a call answers that the outside failed only where the count rose, so whoever sees that answer
//! knows whose fault it was. A disk is settled once a sync of it succeeded, up to the next write. A door
//! has beside its count of faults the number of its calls that found nobody, which is no count of faults.
//! `write_all` writes a whole piece to a sink. A `Gate` is told of each turn of a session, and may hold
//! it. A `Fate` says what becomes of letters, and a `Clock` tells the time.
//!
//! The crate stands on the standard library alone.
//!
//! In memory there are `SliceSource`, `VecSink`, `PlainDisk`, `QuietDoor` and `MemoryYard`; over std's
//! readers and writers `ReadSource` and `WriteSink`, and over its clock `SystemClock`. `OpenGate` holds
//! nobody, `CarryAll` carries each letter, and `SetClock` stands. The module `faulty` wraps a source, a
//! sink, a door or a yard so that one chosen call fails, and cuts a sink's writes short, for the tests of
//! the crates above. A disk that fails and tears is `MemoryDisk` of `node_disk`, and a door of the system
//! is `TcpDoor` of `tcp_door`.
//!
//! Refused: a write to a disk that begins past its end, or goes further past the end than the room
//! that was reserved. Out of memory is no fault of the outside where a call has an answer for it
//! (`reserve` of a disk, `store`, `door` and `file` of a yard); a `VecSink` has none and counts it as a
//! fault.
//!
//! Not done here: nothing is tried again, and nothing is buffered. After a failed write the written
//! range may hold any octets. What a real file or socket holds is not told.
#![tactic(auto)]

mod disk;
mod door;
mod fate;
pub mod faulty;
mod gate;
mod memory;
mod memory_yard;
mod named_file;
mod plain_disk;
mod quiet_door;
mod std_io;
mod streams;
mod system_clock;
mod yard;

pub use disk::Disk;
pub use door::{Accepted, Door};
pub use fate::{CarryAll, Clock, Fate, Luck, SetClock};
pub use gate::{Gate, OpenGate};
pub use memory::{SliceSource, VecSink};
pub use memory_yard::{MemoryYard, NoDoor};
pub use named_file::NamedFile;
pub use plain_disk::{PlainDisk, overwrite};
pub use quiet_door::QuietDoor;
pub use std_io::{ReadSource, WriteSink};
pub use streams::{Sink, Source, write_all};
pub use system_clock::SystemClock;
pub use yard::{Protocol, Yard, YardRefusal};

/// The outside failed.
#[derive(Clone, Copy, Debug, PartialEq, Eq)]
pub struct Failed;
