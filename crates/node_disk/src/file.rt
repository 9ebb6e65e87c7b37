//! A disk over a file of std. What a real file holds is told by no clause: this is part of the trusted edge.
ghost use Rattle.std.specs.Prelude.{◌≡◌, ◌≤◌, ◌^◌, true, None};
ghost use Rattle.io_edge.specs.Causes.{Rose};

use io_edge::{Disk, Failed};
use std::alloc::AllocError;
use std::fs::{File, OpenOptions};
use std::io;
use std::os::unix::fs::FileExt;
use std::path::Path;
use std::rt::Files;

/// By how many octets the file grows at a time.
const STEP: u64 = 8 << 20;

/// So many zeros are written at a time.
static ZEROS: [u8; 65_536] = [0; 65_536];

/// A disk over a file. Zeros are written ahead of what the disk holds, in large steps, so that most syncs write no
/// metadata: a file that is only made longer has no blocks there, and each sync in it would have to write that it got one.
/// The room ahead reads as zeros, which are closed gates, and counts as held once the file is opened again.
///
/// After a write or a sync that failed nothing more can be relied on, since the system may have dropped what it could not
/// write. So such a disk is not started again: open the file again once the machine has been started again.
#[derive(Drop)]
pub struct FileDisk {
    file: File,
    // how many octets the disk holds
    end: u64,
    // how many octets the file has
    reserved: u64,
    // nothing was written since the last sync that succeeded
    clean: bool,
    // a write or a sync has failed
    broken: bool,
    faults: u64,
}

impl FileDisk {
    /// Opens the file of this path, and makes it where there is none.
    pub fn open<R: Files<File = File>>(files: &R, path: &str) -> io::Result<FileDisk> {
        let file = OpenOptions::new()
            .read(true)
            .write(true)
            .create(true)
            .open(files, path)?;
        let end = file.metadata()?.len();
        if end == 0 {
            // So that a file that was just made stands in its folder.
            let folder = Path::new(path)
                .parent()
                .map_or("", |folder| folder.as_str());
            let folder = if folder.is_empty() { "." } else { folder };
            File::open(files, folder)?.sync_all()?;
        }
        Ok(FileDisk {
            file,
            end,
            reserved: end,
            clean: false,
            broken: false,
            faults: 0,
        })
    }

    // Counts a fault.
    fn fault(&mut self) -> Failed
        ensures later { self.old.faults ≤ self.new.faults }
        ensures rose { Rose self.old.faults self.new.faults }
        ensures clean { self.new.clean ≡ self.old.clean }
    {
        self.faults = self.faults.saturating_add(1);
        Failed
    }

    // Writes zeros from the file's end up to this place.
    fn write_zeros(&self, end: u64) -> io::Result<()> {
        for at in (self.reserved..end).step_by(ZEROS.len()) {
            let count = (end - at).min(ZEROS.len() as u64);
            self.file.write_all_at(&ZEROS[..count as usize], at)?;
        }
        Ok(())
    }

    // Writes the octets, in a file that is made longer where they reach past its end.
    fn write_all(&mut self, at: u64, end: u64, octets: &[u8]) -> io::Result<()>
        ensures faults { self.new.faults ≡ self.old.faults }
    {
        if end > self.reserved {
            let reserved = end.div_ceil(STEP).saturating_mul(STEP);
            self.write_zeros(reserved)?;
            self.reserved = reserved;
        }
        self.file.write_all_at(octets, at)
    }
}

impl Disk for FileDisk {
    ghost use Rattle.node_disk.specs.File.{file_clock};

    ghost seen = { λ _. None };

    ghost room = { λ _. 2 ^ 64 };

    ghost faults = { λ d. d.faults };

    ghost settled = { λ d. d.clean ≡ true };

    ghost clock = { file_clock };

    ghost seen_is_image = { λ _. tt };

    ghost settled_is_only = { λ _ _. tt };

    ghost image_since = { λ _ _ _ _ _. tt };

    ghost only_now = { λ _ _ _. tt };

    fn len(&mut self) -> Result<u64, Failed> {
        Ok(self.end)
    }

    fn read(&mut self, at: u64, into: &mut [u8]) -> Result<usize, Failed> {
        let count = self.end.saturating_sub(at).min(into.len() as u64) as usize;
        match self.file.read_exact_at(&mut into[..count], at) {
            Ok(()) => Ok(count),
            Err(_) => Err(self.fault()),
        }
    }

    fn reserve(&mut self, _extra: u64) -> Result<(), AllocError> {
        Ok(())
    }

    fn write_at(&mut self, at: u64, octets: &[u8]) -> Result<(), Failed> {
        self.clean = false;
        let Some(end) = at.checked_add(octets.len() as u64) else {
            return Err(self.fault());
        };
        match self.write_all(at, end, octets) {
            Ok(()) => {
                self.end = self.end.max(end);
                Ok(())
            }
            Err(_) => {
                self.broken = true;
                Err(self.fault())
            }
        }
    }

    fn sync(&mut self) -> Result<(), Failed> {
        match self.file.sync_data() {
            Ok(()) => {
                self.clean = true;
                Ok(())
            }
            Err(_) => {
                self.broken = true;
                Err(self.fault())
            }
        }
    }

    fn restart(&mut self) -> Result<(), Failed> {
        if self.broken {
            return Err(self.fault());
        }
        self.sync()
    }
}
