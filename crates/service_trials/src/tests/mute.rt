// A disk in memory that tells nothing of what it holds.
ghost use Rattle.std.specs.Prelude.{◌≡◌, ◌≤◌, ◌^◌, [], None};
ghost use Rattle.io_edge.specs.Causes.{Rose};

use io_edge::{Disk, Failed, overwrite};
use std::alloc::{AllocError, Global};

/// A disk in memory that tells nothing of what it holds, as a file does.
#[derive(Drop)]
pub(super) struct MuteDisk {
    octets: Vec<u8>,
    faults: u64,
}

impl MuteDisk {
    /// An empty disk.
    pub(super) fn new(alloc: Global) -> MuteDisk {
        MuteDisk {
            octets: Vec::new(alloc),
            faults: 0,
        }
    }

    // Counts a fault.
    fn fault(&mut self) -> Failed
        ensures later { self.old.faults ≤ self.new.faults }
        ensures rose { Rose self.old.faults self.new.faults }
    {
        self.faults = self.faults.saturating_add(1);
        Failed
    }

    // Writes the octets where they do not begin past the end, and there is memory. Answers whether they were written.
    fn put(&mut self, at: u64, octets: &[u8]) -> bool
        ensures faults { self.new.faults ≡ self.old.faults }
    {
        if at > self.octets.len() as u64 {
            return false;
        }
        if self.octets.reserve(octets.len()).is_err() {
            return false;
        }
        overwrite(&mut self.octets, at as usize, octets);
        true
    }
}

impl Disk for MuteDisk {
    ghost use Rattle.service_trials.specs.Mute.{untold_clock};

    ghost seen = { λ _. None };

    ghost room = { λ _. 2 ^ 64 };

    ghost faults = { λ d. d.faults };

    ghost settled = { λ _. Unit {0} };

    ghost clock = { untold_clock };

    ghost seen_is_image = { λ _. tt };

    ghost settled_is_only = { λ _ _. tt };

    ghost image_since = { λ _ _ _ _ _. tt };

    ghost only_now = { λ _ _ _. tt };

    fn len(&mut self) -> Result<u64, Failed> {
        Ok(self.octets.len() as u64)
    }

    fn read(&mut self, at: u64, into: &mut [u8]) -> Result<usize, Failed> {
        if at >= self.octets.len() as u64 {
            return Ok(0);
        }
        let rest = &self.octets[at as usize..];
        let count = into.len().min(rest.len());
        into[..count].copy_from_slice(&rest[..count]);
        Ok(count)
    }

    fn reserve(&mut self, _extra: u64) -> Result<(), AllocError> {
        Ok(())
    }

    fn write_at(&mut self, at: u64, octets: &[u8]) -> Result<(), Failed> {
        if self.put(at, octets) {
            return Ok(());
        }
        Err(self.fault())
    }

    fn sync(&mut self) -> Result<(), Failed> {
        Ok(())
    }

    fn restart(&mut self) -> Result<(), Failed> {
        Ok(())
    }
}
