//! node_disk: the disks of nodes, in memory and over a file.
//!
//! `MemoryDisk` is a disk for tests: it fails at the calls that it is told to, and a restart leaves the image that was
//! chosen for it. It tells all: what it holds, and what a stop of the machine may leave at each moment since it was made.
//!
//! `FileDisk` is a disk over a file. It tells nothing of what it holds. It keeps room ahead of its end in large steps.
#![tactic(auto)]

mod file;
mod held;
mod image;
mod memory;

pub use file::FileDisk;
pub use held::Range;
pub use image::Image;
pub use memory::{Asked, Call, MemoryDisk};
