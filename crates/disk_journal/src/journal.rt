//! The journal of a node: records after gates, of which only an open one counts.
ghost use Rattle.std.specs.Prelude.{◌≡◌, ◌+◌, ◌≤◌, ◌<◌, ◌++◌, ◌∷◌, [], ℕ, List, length, IfOk, IfSome, OnOk, IsErrOf};
ghost use Rattle.io_edge.specs.Moments.{Tears, Keeps};
ghost use Rattle.io_edge.specs.Octets.{IsToldAlike};
ghost use Rattle.disk_journal.specs.Images.{Adds, AddsAll};
ghost use Rattle.disk_journal.specs.Journal.{end_of, HasGate, TellsJournal, Appended, Created, Refuses};
ghost use Rattle.disk_journal.specs.Reading.{HasRead, JournalOpened, LieInRow};

use crate::fault::JournalFault;
use crate::place::Place;
use crate::reading::{fill, read_header, record_at};
use crate::writing::{behind_the_gate, opening, write_behind_gate, write_sure};
use io_edge::Disk;
use mail_base::NodeNo;
use std::alloc::Global;

/// How many octets a record's payload may have.
const LARGEST: usize = 16_842_752;

/// The place of the closed gate that ends the journal.
#[derive(Debug, Drop)]
pub struct Journal {
    end: u64,
}

impl Journal {
    /// The place of the closed gate that ends it.
    pub fn gate(&self) -> u64
        ensures { result ≡ end_of self.now }
    {
        self.end
    }

    /// A new journal of the node: its header and a closed gate, on an empty disk, where they stand whatever happens.
    /// It costs two disk calls: a write and a sync.
    pub fn create<D: Disk>(
        alloc: Global,
        disk: &mut D,
        node: NodeNo,
    ) -> Result<Journal, JournalFault>
        requires empty { IfSome (D.seen disk.old) (λ held. held ≡ []) }
        ensures created { Created result (D.seen disk.old) (D.seen disk.new) node (D.faults disk.old) (D.faults disk.new) }
        ensures settled { OnOk result (D.settled disk.new) }
        ensures images { Tears D.clock disk.old disk.new 0 17 }
        ensures told { IsToldAlike (D.seen disk.old) (D.seen disk.new) }
        ensures later { D.faults disk.old ≤ D.faults disk.new }
    {
        let octets = opening(alloc, node)?;
        disk.reserve(17)?;
        write_sure(disk, 0, &octets)?;
        Ok(Journal { end: 16 })
    }

    /// Opens the journal of the node that the disk holds, and gives the places of its records, in order. It writes
    /// nothing. It reads the five octets before each payload, and no payload.
    ///
    /// # Errors
    ///
    /// `NotAJournal` where the header is not that of this form and node, or the disk ends before the first closed gate.
    pub fn open<D: Disk>(
        alloc: Global,
        disk: &mut D,
        node: NodeNo,
    ) -> Result<(Journal, Vec<Place>), JournalFault>
        ensures opened { JournalOpened result node (D.seen disk.old) (D.faults disk.old) (D.faults disk.new) }
        ensures placed { IfOk result (λ opened. LieInRow 16 opened.1.items (end_of opened.0)) }
        ensures seen { D.seen disk.new ≡ D.seen disk.old }
        ensures images { Keeps D.clock disk.old disk.new }
        ensures settled { D.settled disk.old → D.settled disk.new }
    {
        let total = disk.len()?;
        read_header(disk, total, node)?;
        let mut places = Vec::new(alloc);
        let mut end = 16;
        while let Some(place) = record_at(disk, total, end)? {
            let Ok(()) = places.push(place) else {
                return Err(JournalFault::NoMemory);
            };
            end = place.at + place.length;
        }
        Ok((Journal { end }, places))
    }

    /// Appends a record whose payload is `head` and then `body`. It costs four disk calls: the record
    /// and its sync, the gate and its sync. At `Ok` the record stands whatever happens, and the payload's octets lie at
    /// the place. At each moment a stop leaves the records that were there, or these and the new one.
    ///
    /// # Errors
    ///
    /// `TooLarge` and `NoMemory` leave all as it was. After a `DiskFault` the disk is to be started again, and the
    /// journal opened again.
    pub fn append<D: Disk>(
        &mut self,
        alloc: Global,
        disk: &mut D,
        head: &[u8],
        body: &[u8],
    ) -> Result<Place, JournalFault>
        requires gate { HasGate (D.seen disk.old) (end_of self.old) }
        ensures appended { (node : ℕ) (payloads : List (List ℕ)) → TellsJournal (D.seen disk.old) node payloads (end_of self.old)
            → Appended result (D.seen disk.new) node payloads (head.now ++ body.now) (end_of self.new) }
        ensures images { IfSome (D.seen disk.old) (λ _. Adds D.clock disk.old disk.new (end_of self.old) ((head.now ++ body.now) ∷ [])) }
        ensures all { OnOk result (IfSome (D.seen disk.old) (λ _. AddsAll D.clock disk.old disk.new (end_of self.old) (end_of self.new) ((head.now ++ body.now) ∷ []))) }
        ensures settled { OnOk result (D.settled disk.new) }
        ensures refuses { Refuses result (length head.now + length body.now) (D.seen disk.old) (D.seen disk.new)
            (end_of self.old) (end_of self.new) (D.faults disk.old) (D.faults disk.new) }
        ensures still { IsErrOf result JournalFault.NoMemory → D.settled disk.old → D.settled disk.new }
        ensures placed { IfOk result (λ place. (place.at ≡ end_of self.old + 5) × (place.length ≡ length head.now + length body.now)) }
        ensures told { IsToldAlike (D.seen disk.old) (D.seen disk.new) }
    {
        if head.len() + body.len() > LARGEST {
            return Err(JournalFault::TooLarge);
        }
        let octets = behind_the_gate(alloc, head, body)?;
        let size = octets.len() as u64;
        let Some(_) = self.end.checked_add(size + 1) else {
            return Err(JournalFault::NoMemory);
        };
        disk.reserve(size)?;
        write_behind_gate(disk, self.end, &octets)?;
        let place = Place {
            at: self.end + 5,
            length: size - 5,
        };
        self.end += size;
        Ok(place)
    }

    /// Reads the octets of a record from that offset on, as many as fit, and says how many they are.
    ///
    /// # Errors
    ///
    /// `NotAJournal` where the disk ends before the record does.
    pub fn read<D: Disk>(
        &self,
        disk: &mut D,
        place: Place,
        from: u64,
        into: &mut [u8],
    ) -> Result<usize, JournalFault>
        ensures read { HasRead result place from into.new (D.seen disk.old) (D.faults disk.old) (D.faults disk.new) }
        ensures length { length into.new ≡ length into.old }
        ensures seen { D.seen disk.new ≡ D.seen disk.old }
        ensures images { Keeps D.clock disk.old disk.new }
        ensures settled { D.settled disk.old → D.settled disk.new }
    {
        let count = place.length.saturating_sub(from).min(into.len() as u64) as usize;
        if count > 0 {
            fill(disk, place.at + from, &mut into[..count])?;
        }
        Ok(count)
    }
}
