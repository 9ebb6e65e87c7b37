//! What a store tells.
ghost use Rattle.std.specs.Prelude.{◌≡◌, ◌-◌, min, List, length, map, option_map, IfOk, IsSome};
ghost use Rattle.std.specs.Option.{option_copied};
ghost use Rattle.std.specs.FinMap as fin;
ghost use Rattle.io_edge.specs.Moments.{Keeps as KeepsImages};
ghost use Rattle.mail_model.specs.Record.{Record};
ghost use Rattle.mail_model.specs.Listing.{octets_in};
ghost use Rattle.object_model.specs.Said.{said};
ghost use Rattle.object_model.specs.UpdateLog.{due, owes};
ghost use Rattle.mail_base.specs.Seen.{key_seen};
ghost use Rattle.message_store.specs.Places.{place_of};
ghost use Rattle.message_store.specs.Fetches.{HasFetched};
ghost use Rattle.node_store.specs.Keeps.{KeepsRecords};
ghost use Rattle.node_store.specs.Reads.{part_in, FetchesAll, ReadsWanted};

use crate::fault::ReadFault;
use crate::store::NodeStore;
use io_edge::Disk;
use mail_base::{Key, MsgId, NodeNo, ObjState};
use message_store::StoreFault;
use std::alloc::{AllocError, Global};
use update_log::Logged;

// So many octets.
fn zeros(alloc: Global, size: usize) -> Result<Vec<u8>, AllocError>
    ensures { IfOk result (λ octets. length octets.items ≡ size) }
{
    let mut octets = Vec::new(alloc);
    octets.resize(size, 0)?;
    Ok(octets)
}

// How many of so many octets come from that offset on, and at most so many.
fn part_length(length: u64, from: u64, most: usize) -> usize
    ensures { result ≡ min most (length - from) }
{
    length.saturating_sub(from).min(most as u64) as usize
}

impl NodeStore {
    /// The node whose store it is.
    pub fn own(&self) -> NodeNo
        ensures { result ≡ self.now.own }
    {
        self.own
    }

    /// What the records say of the object. It takes no memory, and asks nothing of the disk.
    pub fn state(&self, key: &Key) -> Option<&ObjState>
        ensures value { option_copied result ≡ fin.get self.now.objects (key_seen key.now) }
        ensures says { (records : List Record) → KeepsRecords records self.now → option_copied result ≡ said (key_seen key.now) records }
    {
        self.objects.state(key)
    }

    /// The log's entry of the object. It takes no memory.
    pub fn entry(&self, key: &Key) -> Option<&Logged>
        ensures { option_copied result ≡ fin.get self.now.log (key_seen key.now) }
    {
        self.log.entry(key)
    }

    /// The first keys, in order and as many as are wanted, of the entries in which the node remains.
    ///
    /// # Errors
    ///
    /// Only out of memory.
    pub fn due(&self, alloc: Global, to: NodeNo, most: usize) -> Result<Vec<Key>, AllocError>
        ensures { IfOk result (λ keys. map key_seen keys.items ≡ due self.now.log to most) }
    {
        self.log.due(alloc, to, most)
    }

    /// Whether the node remains in some entry. It takes no memory.
    pub fn owes(&self, to: NodeNo) -> bool
        ensures { result ≡ owes self.now.log to }
    {
        self.log.owes(to)
    }

    /// How many octets are stored of the message; nothing exactly where none are. It takes no memory, and asks nothing of
    /// the disk.
    pub fn length(&self, id: MsgId) -> Option<u64>
        ensures { (records : List Record) → KeepsRecords records self.now → result ≡ option_map length (octets_in id records) }
    {
        self.messages.length(id)
    }

    /// Reads the stored octets of the message from that offset on, as many as fit, and says how many they are.
    ///
    /// # Errors
    ///
    /// `NotHere` exactly where none are stored. `NotAJournal` where what lies on the disk is not the message's record.
    pub fn fetch<D: Disk>(
        &self,
        disk: &mut D,
        id: MsgId,
        from: u64,
        into: &mut [u8],
    ) -> Result<usize, StoreFault>
        ensures fetched { HasFetched result (place_of self.now.messages id) id from into.new (D.seen disk.old) (D.faults disk.old) (D.faults disk.new) }
        ensures length { length into.new ≡ length into.old }
        ensures seen { D.seen disk.new ≡ D.seen disk.old }
        ensures images { KeepsImages D.clock disk.old disk.new }
        ensures settled { D.settled disk.old → D.settled disk.new }
    {
        self.messages.fetch(&self.journal, disk, id, from, into)
    }

    // Reads the stored octets of the message from that offset on, to fill all of this.
    fn fetch_all<D: Disk>(
        &self,
        disk: &mut D,
        id: MsgId,
        from: u64,
        into: &mut [u8],
    ) -> Result<(), ReadFault>
        requires stored { IsSome (place_of self.now.messages id) }
        ensures fetched { FetchesAll result (place_of self.now.messages id) id from into.new (D.seen disk.old) (D.faults disk.old) (D.faults disk.new) }
        ensures length { length into.new ≡ length into.old }
        ensures seen { D.seen disk.new ≡ D.seen disk.old }
        ensures images { KeepsImages D.clock disk.old disk.new }
        ensures settled { D.settled disk.old → D.settled disk.new }
    {
        match self.fetch(disk, id, from, into) {
            Ok(_) => Ok(()),
            Err(StoreFault::DiskFault) => Err(ReadFault::Disk),
            Err(StoreFault::NotAJournal) => Err(ReadFault::NotAJournal),
            // The octets are stored, and a fetch takes no memory and has no payload.
            Err(StoreFault::NotHere) => unreachable!(),
            Err(StoreFault::TooLarge) => unreachable!(),
            Err(StoreFault::NoMemory) => unreachable!(),
        }
    }

    /// Reads a part of the stored octets of the message: from that offset on, and so many at most. Nothing exactly where
    /// none are stored. It takes memory for what it gives.
    ///
    /// # Errors
    ///
    /// `NotAJournal` where what lies on the disk is not the message's record.
    pub fn octets_part<D: Disk>(
        &self,
        alloc: Global,
        disk: &mut D,
        id: MsgId,
        from: u64,
        most: usize,
    ) -> Result<Option<Vec<u8>>, ReadFault>
        ensures read { ReadsWanted result self.now (part_in id from most) (D.seen disk.old) (D.faults disk.old) (D.faults disk.new) }
        ensures seen { D.seen disk.new ≡ D.seen disk.old }
        ensures images { KeepsImages D.clock disk.old disk.new }
        ensures settled { D.settled disk.old → D.settled disk.new }
    {
        let Some(length) = self.messages.length(id) else {
            return Ok(None);
        };
        let mut octets = zeros(alloc, part_length(length, from, most))?;
        self.fetch_all(disk, id, from, &mut octets)?;
        Ok(Some(octets))
    }

    /// Reads the stored octets of the message, all of them. Nothing exactly where none are stored. It takes memory for what
    /// it gives.
    ///
    /// # Errors
    ///
    /// `NotAJournal` where what lies on the disk is not the message's record.
    pub fn octets<D: Disk>(
        &self,
        alloc: Global,
        disk: &mut D,
        id: MsgId,
    ) -> Result<Option<Vec<u8>>, ReadFault>
        ensures read { ReadsWanted result self.now (octets_in id) (D.seen disk.old) (D.faults disk.old) (D.faults disk.new) }
        ensures seen { D.seen disk.new ≡ D.seen disk.old }
        ensures images { KeepsImages D.clock disk.old disk.new }
        ensures settled { D.settled disk.old → D.settled disk.new }
    {
        self.octets_part(alloc, disk, id, 0, usize::MAX)
    }
}
