// A disk in memory that never fails.
ghost use Rattle.std.specs.Prelude.{◌≡◌, [], Some, ◌+◌, ◌-◌, ◌≤◌, length, vec_len, vec_capacity};
ghost use Rattle.io_edge.specs.Octets.{Holds};

use crate::{Disk, Failed};
use std::alloc::{AllocError, Global};

/// A disk in memory that never fails and tells what it holds. Each write is done at once.
#[derive(Drop)]
pub struct PlainDisk {
    /// What it holds.
    pub octets: Vec<u8>,
}

impl PlainDisk {
    /// An empty disk.
    pub fn new(alloc: Global) -> PlainDisk
        ensures { result.octets.items ≡ [] }
    {
        PlainDisk {
            octets: Vec::new(alloc),
        }
    }
}

/// Writes the octets over what is there from the offset on, and past the end into the room that the vector has.
pub fn overwrite(held: &mut Vec<u8>, at: usize, octets: &[u8])
    requires begins { at ≤ vec_len held.old }
    requires fits { at + length octets.now ≤ vec_capacity held.old }
    ensures written { Holds held.old.items at octets.now held.new.items }
{
    let over = octets.len().min(held.len() - at);
    held[at..at + over].copy_from_slice(&octets[..over]);
    held.extend_from_slice(&octets[over..]).unwrap();
}

impl Disk for PlainDisk {
    ghost use Rattle.std.specs.Prelude.{refl};
    ghost use Rattle.io_edge.specs.Plain.{plain_clock};

    ghost seen = { λ d. Some d.octets.items };

    ghost room = { λ d. vec_capacity d.octets - vec_len d.octets };

    ghost faults = { λ _. 0 };

    ghost settled = { λ _. Unit {0} };

    ghost clock = { plain_clock };

    ghost seen_is_image = { λ d. refl };

    ghost settled_is_only = { λ d _ c is. is };

    ghost image_since = { λ d t c _ is. is };

    ghost only_now = { λ d c is. is };

    fn len(&mut self) -> Result<u64, Failed> {
        Ok(self.octets.len() as u64)
    }

    fn read(&mut self, at: u64, into: &mut [u8]) -> Result<usize, Failed> {
        if at >= self.octets.len() as u64 {
            return Ok(0);
        }
        let rest = &self.octets[at as usize..];
        let count = into.len().min(rest.len());
        into[..count].copy_from_slice(&rest[..count]);
        Ok(count)
    }

    fn reserve(&mut self, extra: u64) -> Result<(), AllocError> {
        self.octets.reserve(extra as usize)
    }

    fn write_at(&mut self, at: u64, octets: &[u8]) -> Result<(), Failed> {
        overwrite(&mut self.octets, at as usize, octets);
        Ok(())
    }

    fn sync(&mut self) -> Result<(), Failed> {
        Ok(())
    }

    fn restart(&mut self) -> Result<(), Failed> {
        Ok(())
    }
}
