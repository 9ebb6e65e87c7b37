//! Where the stores of a yard are.
ghost use Rattle.std.specs.Prelude.{◌≡◌, ◌≤◌, ℕ, false, IfOk, IsErrOf};
ghost use Rattle.io_edge.specs.Causes.{Rose};
ghost use Rattle.real_yard.specs.Fresh.{tells_some};

use io_edge::{Disk, PlainDisk, YardRefusal};
use node_disk::FileDisk;
use std::alloc::Global;
use std::fs::File;
use std::io;
use std::io::ErrorKind;
use std::rt::Files;

/// Where the stores of a yard are: in memory, or in a folder of the system. Its count of faults never falls.
pub trait Backing: Drop {
    /// A store of this backing.
    type Store: Disk + Drop + Send;

    /// How often it has failed.
    ghost faults: { Self → ℕ };

    /// Takes the store of one node. A store that tells what it holds is empty.
    fn take(&mut self, shard: u16, node: u8, folder: &str) -> Result<Self::Store, YardRefusal>
        ensures fresh { IfOk result (λ store. tells_some (Self.Store.seen store) ≡ false) }
        ensures later { faults self.old ≤ faults self.new }
        ensures failed { IsErrOf result YardRefusal.Failed → Rose (faults self.old) (faults self.new) };
}

/// A backing whose stores are fresh disks in memory, whatever the folder. It never fails.
#[derive(Drop)]
pub struct InMemory {
    alloc: Global,
}

impl InMemory {
    /// A backing whose disks take their memory from here.
    pub fn new(alloc: Global) -> InMemory {
        InMemory { alloc }
    }
}

impl Backing for InMemory {
    type Store = PlainDisk;

    ghost faults = { λ _. 0 };

    fn take(&mut self, _shard: u16, _node: u8, _folder: &str) -> Result<PlainDisk, YardRefusal> {
        Ok(PlainDisk::new(self.alloc))
    }
}

/// A backing whose stores are files: that of node N of shard S is `S-N.journal` in the folder. A file that is not there is made; the
/// folder is not. It says on standard error where each store is, or why there is none. What a file holds is not told.
#[derive(Drop)]
pub struct InFolder<'a, R> {
    system: &'a R,
    alloc: Global,
    /// How often a file could not be opened.
    faults: u64,
}

impl<'a, R: Files<File = File> + AllocGlobal + Eprint> InFolder<'a, R> {
    /// A backing whose files are those of this system.
    pub fn new(system: &'a R) -> InFolder<'a, R> {
        InFolder {
            system,
            alloc: system.alloc(),
            faults: 0,
        }
    }

    // Says where the store of this node is. That it could not be said changes nothing.
    fn tell(&self, node: u8, path: &str, disk: &mut FileDisk) {
        let _ = match disk.len() {
            Ok(0) => eprintln!(self.system; "porcupine: node {node} has its store in {path}"),
            _ => eprintln!(self.system; "porcupine: node {node}: {path} is not empty"),
        };
    }

    // What comes of a file that was not opened, and why it was not.
    fn refuse(&mut self, node: u8, path: &str, fault: io::Error) -> YardRefusal
        ensures later { self.old.faults ≤ self.new.faults }
        ensures failed { result ≡ YardRefusal.Failed → Rose self.old.faults self.new.faults }
    {
        let _ = eprintln!(self.system; "porcupine: node {node} has no store: {path}: {fault}");
        match fault.kind() {
            ErrorKind::OutOfMemory => YardRefusal::NoMemory,
            _ => {
                self.faults = self.faults.saturating_add(1);
                YardRefusal::Failed
            }
        }
    }
}

impl<'a, R: Files<File = File> + AllocGlobal + Eprint> Backing for InFolder<'a, R> {
    type Store = FileDisk;

    ghost faults = { λ backing. backing.faults };

    fn take(&mut self, shard: u16, node: u8, folder: &str) -> Result<FileDisk, YardRefusal> {
        let Ok(path) = format!(in self.alloc; "{folder}/{shard}-{node}.journal") else {
            return Err(YardRefusal::NoMemory);
        };
        match FileDisk::open(self.system, path.as_str()) {
            Ok(mut disk) => {
                self.tell(node, path.as_str(), &mut disk);
                Ok(disk)
            }
            Err(fault) => Err(self.refuse(node, path.as_str(), fault)),
        }
    }
}
