//! A disk in memory that fails where it is told to, and tells of each moment what a stop may leave.
ghost use Rattle.std.specs.Prelude.{◌≡◌, ◌-◌, ◌≤◌, ◌++◌, ◌∷◌, [], Some, vec_len, vec_capacity, OnOk};
ghost use Rattle.io_edge.specs.Causes.{Rose};

use crate::held::{Held, Range};
use crate::image::Image;
use io_edge::{Disk, Failed};
use std::alloc::{AllocError, Global};
use std::collections::VecDeque;
use std::snapshot::Snapshot;

/// Which call of a disk was made.
#[derive(Clone, Copy, Debug, PartialEq, Eq)]
pub enum Asked {
    /// How many octets it holds.
    Len,
    /// To read from this offset on.
    Read(u64),
    /// To write this range.
    Write(Range),
    /// To sync.
    Sync,
    /// To start again.
    Restart,
}

/// A call that was made, with a memory of what the disk held before it, for clauses alone.
#[derive(Drop)]
pub struct Call {
    /// Which call it was.
    pub asked: Asked,
    pub(crate) before: Snapshot<Held>,
}

/// A disk in memory. It keeps a record of its calls, which begin at 1; `reserve` is none of them. Those that it is told to
/// fail do so: such a write may have reached the disk or not, and such a sync has synced nothing. Each restart leaves the
/// next image that was chosen, and what was synced where none is chosen any more.
#[derive(Drop)]
pub struct MemoryDisk {
    alloc: Global,
    pub(crate) held: Held,
    pub(crate) calls: Vec<Call>,
    // the numbers of the calls that fail
    failing: Vec<u64>,
    // which image each restart leaves, the next one first
    images: VecDeque<Image>,
    pub(crate) faults: u64,
}

impl MemoryDisk {
    ghost use Rattle.io_edge.specs.Causes.{HasCause};
    ghost use Rattle.io_edge.specs.Moments.{Keeps};
    ghost use Rattle.node_disk.specs.Memory.{memory_clock, IsNoted, failing_of, images_of};

    /// An empty disk, of which no call fails.
    pub fn new(alloc: Global) -> MemoryDisk
        ensures octets { result.held.octets.items ≡ [] }
        ensures calls { result.calls.items ≡ [] }
        ensures faults { result.faults ≡ 0 }
    {
        MemoryDisk {
            alloc,
            held: Held::new(alloc),
            calls: Vec::new(alloc),
            failing: Vec::new(alloc),
            images: VecDeque::new(alloc),
            faults: 0,
        }
    }

    /// The call of this number is to fail.
    pub fn fail_at(&mut self, call: u64) -> Result<(), AllocError>
        ensures noted { OnOk result (failing_of self.new ≡ failing_of self.old ++ call ∷ []) }
        ensures held { self.new.held ≡ self.old.held }
        ensures calls { self.new.calls ≡ self.old.calls }
        ensures faults { self.new.faults ≡ self.old.faults }
    {
        let Ok(()) = self.failing.push(call) else {
            return Err(AllocError);
        };
        Ok(())
    }

    /// The next restart for which no image is chosen is to leave this one.
    pub fn leave(&mut self, image: Image) -> Result<(), AllocError>
        ensures noted { OnOk result (images_of self.new ≡ images_of self.old ++ image ∷ []) }
        ensures held { self.new.held ≡ self.old.held }
        ensures calls { self.new.calls ≡ self.old.calls }
        ensures faults { self.new.faults ≡ self.old.faults }
    {
        let Ok(()) = self.images.push_back(image) else {
            return Err(AllocError);
        };
        Ok(())
    }

    /// What reads give.
    pub fn octets(&self) -> &[u8]
        ensures { result.now ≡ self.now.held.octets.items }
    {
        &self.held.octets
    }

    /// The calls that were made, in order.
    pub fn calls(&self) -> &[Call]
        ensures { result.now ≡ self.now.calls.items }
    {
        &self.calls
    }

    // Counts a fault.
    fn fault(&mut self) -> Failed
        ensures held { self.new.held ≡ self.old.held }
        ensures calls { self.new.calls ≡ self.old.calls }
        ensures later { self.old.faults ≤ self.new.faults }
        ensures rose { Rose self.old.faults self.new.faults }
    {
        self.faults = self.faults.saturating_add(1);
        Failed
    }

    // Notes a call, and says whether it is to fail.
    fn begin(&mut self, asked: Asked) -> Result<bool, Failed>
        ensures held { self.new.held ≡ self.old.held }
        ensures noted { OnOk result (IsNoted self.old self.new) }
        ensures images { Keeps memory_clock self.old self.new }
        ensures cause { HasCause self.old.faults self.new.faults result }
        ensures quiet { OnOk result (self.new.faults ≡ self.old.faults) }
    {
        let before = Snapshot::of(&self.held);
        let Ok(()) = self.calls.push(Call { asked, before }) else {
            return Err(self.fault());
        };
        let number = self.calls.len() as u64;
        Ok(self.failing.contains(&number))
    }

    // Notes a call, which fails where it is to fail.
    fn call(&mut self, asked: Asked) -> Result<(), Failed>
        ensures held { self.new.held ≡ self.old.held }
        ensures noted { OnOk result (IsNoted self.old self.new) }
        ensures images { Keeps memory_clock self.old self.new }
        ensures cause { HasCause self.old.faults self.new.faults result }
        ensures quiet { OnOk result (self.new.faults ≡ self.old.faults) }
    {
        if self.begin(asked)? {
            return Err(self.fault());
        }
        Ok(())
    }
}

impl Disk for MemoryDisk {
    ghost use Rattle.std.proofs.Common.{inl, refl};
    ghost use Rattle.node_disk.specs.Memory.{memory_clock, IsSynced};
    ghost use Rattle.node_disk.specs.Settled.{only_synced, only_last};

    ghost seen = { λ d. Some d.held.octets.items };

    ghost room = { λ d. vec_capacity d.held.octets - vec_len d.held.octets };

    ghost faults = { λ d. d.faults };

    ghost settled = { λ d. IsSynced d.held };

    ghost clock = { memory_clock };

    ghost seen_is_image = { λ d. inl refl };

    ghost settled_is_only = { λ d synced. only_synced d.held synced };

    ghost image_since = { λ d t c _ is. inl is };

    ghost only_now = { λ d. only_last d.held d.calls.items };

    fn len(&mut self) -> Result<u64, Failed> {
        self.call(Asked::Len)?;
        Ok(self.held.octets.len() as u64)
    }

    fn read(&mut self, at: u64, into: &mut [u8]) -> Result<usize, Failed> {
        self.call(Asked::Read(at))?;
        if at >= self.held.octets.len() as u64 {
            return Ok(0);
        }
        let rest = &self.held.octets[at as usize..];
        let count = into.len().min(rest.len());
        into[..count].copy_from_slice(&rest[..count]);
        Ok(count)
    }

    fn reserve(&mut self, extra: u64) -> Result<(), AllocError> {
        self.held.octets.reserve(extra as usize)
    }

    fn write_at(&mut self, at: u64, octets: &[u8]) -> Result<(), Failed> {
        let length = octets.len() as u64;
        let fails = self.begin(Asked::Write(Range { at, length }))?;
        let Ok(()) = self.held.write(at, octets) else {
            return Err(self.fault());
        };
        if fails {
            return Err(self.fault());
        }
        Ok(())
    }

    fn sync(&mut self) -> Result<(), Failed> {
        self.call(Asked::Sync)?;
        let Ok(()) = self.held.sync(self.alloc) else {
            return Err(self.fault());
        };
        Ok(())
    }

    fn restart(&mut self) -> Result<(), Failed> {
        self.call(Asked::Restart)?;
        let image = self.images.pop_front().unwrap_or(Image::Nothing);
        let Ok(()) = self.held.restart(self.alloc, image) else {
            return Err(self.fault());
        };
        Ok(())
    }
}
