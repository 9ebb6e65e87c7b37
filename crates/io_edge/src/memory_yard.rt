// A yard over stores, doors and files in memory.
ghost use Rattle.std.specs.Prelude.{◌≡◌, [], Some, false, map};
ghost use Rattle.io_edge.specs.Yards.{remembered, unless};
ghost use Rattle.io_edge.specs.Files.{octets_in};

use crate::named_file::{NamedFile, octets_of};
use crate::{
    CarryAll, Disk, Door, OpenGate, Protocol, QuietDoor, SetClock, SliceSource, VecSink, Yard,
    YardRefusal,
};
use std::alloc::Global;
use std::collections::VecDeque;
use std::snapshot::Snapshot;

/// The doors of a yard that has none.
pub type NoDoor = QuietDoor<SliceSource<'static>, VecSink>;

/// A yard that hands out given stores and given doors, in order, and fails where none is left. It keeps those that it gets back
/// as long as there is memory for them. It reads given files, and fails where none has the name. Its fates carry each letter,
/// its clocks stand, and its gates hold nobody.
#[derive(Drop)]
pub struct MemoryYard<D, G = NoDoor> {
    /// The stores that are left to hand out, the next one first.
    pub left: VecDeque<D>,
    /// For which shard and node a store was handed out, with a memory of it for clauses alone.
    pub handed: Vec<(u16, u8, Snapshot<D>)>,
    /// The stores that were given back, with their shard and node.
    pub returned: Vec<(u16, u8, D)>,
    /// Whether a store that was given back found no memory, and was dropped.
    pub lost: bool,
    /// The files. Of two that have one name it reads the first.
    pub files: Vec<NamedFile>,
    /// How often no store was left.
    pub faults: u64,
    /// How often no file had the name.
    pub unread: u64,
    /// The doors that are left to hand out, the next one first.
    pub doors: VecDeque<G>,
    /// For which node and protocol a door was handed out, with a memory of it for clauses alone.
    pub opened: Vec<(u8, Protocol, Snapshot<G>)>,
    /// The doors that were given back, with their node and protocol.
    pub closed: Vec<(u8, Protocol, G)>,
    /// Whether a door that was given back found no memory, and was dropped.
    pub lost_door: bool,
    /// How often no door was left.
    pub unopened: u64,
    /// The seconds since 1970 that its clocks show.
    pub seconds: u64,
}

impl<D: Disk + Drop + Send> MemoryYard<D, NoDoor> {
    /// A yard that hands out these stores, the first one first, and has no doors and no files. Its clocks show 0.
    pub fn new(alloc: Global, stores: Vec<D>) -> MemoryYard<D, NoDoor>
        ensures left { result.left.items ≡ stores.items }
        ensures handed { result.handed.items ≡ [] }
        ensures returned { result.returned.items ≡ [] }
        ensures lost { result.lost ≡ false }
        ensures files { result.files.items ≡ [] }
        ensures faults { result.faults ≡ 0 }
        ensures unread { result.unread ≡ 0 }
        ensures doors { result.doors.items ≡ [] }
        ensures opened { result.opened.items ≡ [] }
        ensures closed { result.closed.items ≡ [] }
        ensures lost_door { result.lost_door ≡ false }
        ensures unopened { result.unopened ≡ 0 }
        ensures seconds { result.seconds ≡ 0 }
    {
        MemoryYard::with_doors(alloc, stores, Vec::new(alloc))
    }
}

impl<D: Disk + Drop + Send, G: Door + Drop + Send> MemoryYard<D, G> {
    /// A yard that hands out these stores and these doors, the first one first, and has no files. Its clocks show 0.
    pub fn with_doors(alloc: Global, stores: Vec<D>, doors: Vec<G>) -> MemoryYard<D, G>
        ensures left { result.left.items ≡ stores.items }
        ensures handed { result.handed.items ≡ [] }
        ensures returned { result.returned.items ≡ [] }
        ensures lost { result.lost ≡ false }
        ensures files { result.files.items ≡ [] }
        ensures faults { result.faults ≡ 0 }
        ensures unread { result.unread ≡ 0 }
        ensures doors { result.doors.items ≡ doors.items }
        ensures opened { result.opened.items ≡ [] }
        ensures closed { result.closed.items ≡ [] }
        ensures lost_door { result.lost_door ≡ false }
        ensures unopened { result.unopened ≡ 0 }
        ensures seconds { result.seconds ≡ 0 }
    {
        MemoryYard {
            left: VecDeque::from(stores),
            handed: Vec::new(alloc),
            returned: Vec::new(alloc),
            lost: false,
            files: Vec::new(alloc),
            faults: 0,
            unread: 0,
            doors: VecDeque::from(doors),
            opened: Vec::new(alloc),
            closed: Vec::new(alloc),
            lost_door: false,
            unopened: 0,
            seconds: 0,
        }
    }
}

impl<D: Disk + Drop + Send, G: Door + Drop + Send> Yard for MemoryYard<D, G> {
    type Store = D;

    type Door = G;

    type Fate = CarryAll;

    type Clock = SetClock;

    type Gate = OpenGate;

    ghost handed = { λ y. Some (map remembered y.handed.items) };

    ghost returned = { λ y. unless y.lost y.returned.items };

    ghost opened = { λ y. Some (map remembered y.opened.items) };

    ghost closed = { λ y. unless y.lost_door y.closed.items };

    ghost files = { λ y. octets_in y.files.items };

    ghost faults = { λ y. y.faults };

    ghost unread = { λ y. y.unread };

    ghost unopened = { λ y. y.unopened };

    fn store(&mut self, shard: u16, node: u8, _folder: &str) -> Result<D, YardRefusal> {
        let Ok(()) = self.handed.reserve(1) else {
            return Err(YardRefusal::NoMemory);
        };
        let Some(store) = self.left.pop_front() else {
            self.faults = self.faults.saturating_add(1);
            return Err(YardRefusal::Failed);
        };
        let memory = Snapshot::of(&store);
        self.handed.push((shard, node, memory)).unwrap();
        Ok(store)
    }

    fn give_back(&mut self, shard: u16, node: u8, store: D) {
        match self.returned.push((shard, node, store)) {
            Ok(()) => {}
            Err(_) => self.lost = true,
        }
    }

    fn file(&mut self, name: &str) -> Result<Vec<u8>, YardRefusal> {
        let Some(octets) = octets_of(&self.files, name) else {
            self.unread = self.unread.saturating_add(1);
            return Err(YardRefusal::Failed);
        };
        match octets.clone() {
            Ok(octets) => Ok(octets),
            Err(_) => Err(YardRefusal::NoMemory),
        }
    }

    fn door(&mut self, node: u8, protocol: Protocol, _port: u16) -> Result<G, YardRefusal> {
        let Ok(()) = self.opened.reserve(1) else {
            return Err(YardRefusal::NoMemory);
        };
        let Some(door) = self.doors.pop_front() else {
            self.unopened = self.unopened.saturating_add(1);
            return Err(YardRefusal::Failed);
        };
        let memory = Snapshot::of(&door);
        self.opened.push((node, protocol, memory)).unwrap();
        Ok(door)
    }

    fn shut(&mut self, node: u8, protocol: Protocol, door: G) {
        match self.closed.push((node, protocol, door)) {
            Ok(()) => {}
            Err(_) => self.lost_door = true,
        }
    }

    fn fate(&mut self) -> CarryAll {
        CarryAll
    }

    fn clock(&mut self) -> SetClock {
        SetClock {
            seconds: self.seconds,
        }
    }

    fn gate(&mut self) -> OpenGate {
        OpenGate
    }
}
