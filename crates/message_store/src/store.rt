//! The octets of messages by their ids.
ghost use Rattle.std.specs.Prelude.{◌≡◌, ◌+◌, ◌-◌, ◌≤◌, ℕ, List, length, Some, None, IsSome, IsOk, OnOk, OnErr, option_map, if◌then◌else◌};
ghost use Rattle.std.specs.Ordering.{eq_by_cmp};
ghost use Rattle.io_edge.specs.Moments.{Keeps};
ghost use Rattle.mail_model.specs.Identity.{Id};
ghost use Rattle.mail_model.specs.Record.{payload_of};
ghost use Rattle.mail_model.specs.Record.Record.{Octets};
ghost use Rattle.mail_base.specs.Orders.{id_cmp};
ghost use Rattle.disk_journal.specs.Journal.{end_of, HasGate, TellsJournal};
ghost use Rattle.message_store.specs.Places.{place_of, count_at, HasSamePlaces};
ghost use Rattle.message_store.specs.Files.{Notes, IsKnown, Appends, RefusesToFile};
ghost use Rattle.message_store.specs.Fetches.{HasFetched, HasHead};

use crate::fault::StoreFault;
use disk_journal::{Journal, Place};
use io_edge::Disk;
use mail_base::MsgId;
use record_form::octets_head;
use std::alloc::{AllocError, Global};
use std::collections::BTreeMap;

/// Where the octets of each message lie in the journal of a node.
///
/// Each id has the place of its first Octets record. To find it costs the same in a mailbox of a hundred
/// messages and of a hundred thousand.
#[derive(Drop)]
pub struct MessageStore {
    places: BTreeMap<MsgId, Place>,
}

// Sees that the record at the place begins as one of this message's octets.
fn read_head<D: Disk>(
    journal: &Journal,
    disk: &mut D,
    place: Place,
    id: MsgId,
) -> Result<(), StoreFault>
    requires { 14 ≤ place.length }
    ensures head { HasHead result place id (D.seen disk.old) (D.faults disk.old) (D.faults disk.new) }
    ensures seen { D.seen disk.new ≡ D.seen disk.old }
    ensures images { Keeps D.clock disk.old disk.new }
    ensures settled { D.settled disk.old → D.settled disk.new }
{
    let mut head = [0; 14];
    journal.read(disk, place, 0, &mut head)?;
    if head != octets_head(id) {
        return Err(StoreFault::NotAJournal);
    }
    Ok(())
}

// Reads octets of the message whose record lies at the place.
fn read_message<D: Disk>(
    journal: &Journal,
    disk: &mut D,
    place: Place,
    id: MsgId,
    from: u64,
    into: &mut [u8],
) -> Result<usize, StoreFault>
    requires { 14 ≤ place.length }
    ensures fetched { HasFetched result (Some place) id from into.new (D.seen disk.old) (D.faults disk.old) (D.faults disk.new) }
    ensures length { length into.new ≡ length into.old }
    ensures seen { D.seen disk.new ≡ D.seen disk.old }
    ensures images { Keeps D.clock disk.old disk.new }
    ensures settled { D.settled disk.old → D.settled disk.new }
{
    read_head(journal, disk, place, id)?;
    Ok(journal.read(disk, place.behind(14), from, into)?)
}

impl MessageStore {
    /// A store of no messages. It takes no memory.
    pub fn new(alloc: Global) -> MessageStore
        ensures { (id : Id) → place_of result id ≡ None }
    {
        MessageStore {
            places: BTreeMap::new(alloc),
        }
    }

    // The place of the message's record.
    fn place(&self, id: MsgId) -> Option<Place>
        ensures { result ≡ place_of self.now id }
    {
        self.places.get(&id).copied()
    }

    // Puts the record of this id there.
    fn put(&mut self, id: MsgId, place: Place) -> Result<(), AllocError>
        ensures put { OnOk result ((other : Id) → place_of self.new other ≡ (if eq_by_cmp id_cmp id other then Some place else place_of self.old other)) }
        ensures kept { OnErr result (HasSamePlaces self.old self.new) }
        ensures sure { IsSome (place_of self.old id) → IsOk result }
    {
        self.places.insert(id, place)?;
        Ok(())
    }

    /// Notes where a record of the message's octets stands, as a start does for each of them in order. An
    /// id that is noted stays as it is: its first record counts. The place is that of the whole payload.
    ///
    /// # Errors
    ///
    /// Out of memory alone; nothing is noted then.
    pub fn found(&mut self, id: MsgId, place: Place) -> Result<(), AllocError>
        requires { 14 ≤ place.length }
        ensures noted { OnOk result (Notes self.old self.new id place) }
        ensures kept { OnErr result (HasSamePlaces self.old self.new) }
    {
        match self.place(id) {
            Some(_) => Ok(()),
            None => self.put(id, place),
        }
    }

    /// How many octets the message has; nothing exactly where its id is not noted. It takes no memory and
    /// asks nothing of the disk.
    pub fn length(&self, id: MsgId) -> Option<u64>
        ensures { result ≡ option_map count_at (place_of self.now id) }
    {
        self.place(id).map(|place| place.length.saturating_sub(14))
    }

    /// Reads the octets of the message from that offset on, as many as fit, and says how many they are.
    ///
    /// # Errors
    ///
    /// `NotHere` exactly where the id is not noted. `NotAJournal` where what lies at the place is no record of
    /// the message's octets; nothing of it is given.
    pub fn fetch<D: Disk>(
        &self,
        journal: &Journal,
        disk: &mut D,
        id: MsgId,
        from: u64,
        into: &mut [u8],
    ) -> Result<usize, StoreFault>
        ensures fetched { HasFetched result (place_of self.now id) id from into.new (D.seen disk.old) (D.faults disk.old) (D.faults disk.new) }
        ensures length { length into.new ≡ length into.old }
        ensures seen { D.seen disk.new ≡ D.seen disk.old }
        ensures images { Keeps D.clock disk.old disk.new }
        ensures settled { D.settled disk.old → D.settled disk.new }
    {
        let Some(place) = self.place(id) else {
            return Err(StoreFault::NotHere);
        };
        if place.length < 14 {
            return Err(StoreFault::NotAJournal);
        }
        read_message(journal, disk, place, id, from, into)
    }

    // Appends the record of an id that has a place already, and puts the place of the record there.
    fn append<D: Disk>(
        &mut self,
        alloc: Global,
        journal: &mut Journal,
        disk: &mut D,
        id: MsgId,
        octets: &[u8],
    ) -> Result<(), StoreFault>
        requires gate { HasGate (D.seen disk.old) (end_of journal.old) }
        requires here { IsSome (place_of self.old id) }
        ensures put { OnOk result ((place : Place) × (place.at ≡ end_of journal.old + 5) × (place.length ≡ 14 + length octets.now)
            × ((other : Id) → place_of self.new other ≡ (if eq_by_cmp id_cmp id other then Some place else place_of self.old other))) }
        ensures kept { OnErr result (HasSamePlaces self.old self.new) }
        ensures appended { (node : ℕ) (payloads : List (List ℕ)) → TellsJournal (D.seen disk.old) node payloads (end_of journal.old)
            → Appends result (D.seen disk.new) node payloads (payload_of (Octets id octets.now)) (end_of journal.new) }
        ensures refuses { RefusesToFile result (14 + length octets.now) (D.seen disk.old) (D.seen disk.new) (end_of journal.old) (end_of journal.new) (D.faults disk.old) (D.faults disk.new) }
        ensures settled { OnOk result (D.settled disk.new) }
    {
        let place = journal.append(alloc, disk, &octets_head(id), octets)?;
        let Ok(()) = self.put(id, place) else {
            unreachable!()
        };
        Ok(())
    }

    // Takes the place of this id away.
    fn remove(&mut self, id: MsgId)
        ensures { (other : Id) → place_of self.new other ≡ (if eq_by_cmp id_cmp id other then None else place_of self.old other) }
    {
        self.places.remove(&id);
    }

    // Appends the record of an id that has no place yet, and notes where it stands. Room for the place is made first.
    fn file_new<D: Disk>(
        &mut self,
        alloc: Global,
        journal: &mut Journal,
        disk: &mut D,
        id: MsgId,
        octets: &[u8],
    ) -> Result<(), StoreFault>
        requires gate { HasGate (D.seen disk.old) (end_of journal.old) }
        requires new { place_of self.old id ≡ None }
        ensures noted { OnOk result ((place : Place) × (place.at ≡ end_of journal.old + 5) × (place.length ≡ 14 + length octets.now) × Notes self.old self.new id place) }
        ensures kept { OnErr result (HasSamePlaces self.old self.new) }
        ensures appended { (node : ℕ) (payloads : List (List ℕ)) → TellsJournal (D.seen disk.old) node payloads (end_of journal.old)
            → Appends result (D.seen disk.new) node payloads (payload_of (Octets id octets.now)) (end_of journal.new) }
        ensures refuses { RefusesToFile result (14 + length octets.now) (D.seen disk.old) (D.seen disk.new) (end_of journal.old) (end_of journal.new) (D.faults disk.old) (D.faults disk.new) }
        ensures settled { OnOk result (D.settled disk.new) }
    {
        self.put(id, Place { at: 0, length: 14 })?;
        match self.append(alloc, journal, disk, id, octets) {
            Ok(()) => Ok(()),
            Err(fault) => {
                self.remove(id);
                Err(fault)
            }
        }
    }

    /// Appends the octets of the message as a record of the journal, and notes where it stands. An id that is
    /// noted stays as it is, and nothing is written: its first record counts.
    ///
    /// It costs four disk calls, as an append does. The octets are copied once, into the buffer of the record.
    ///
    /// # Errors
    ///
    /// `NoMemory` and `TooLarge` leave all as it was. After a `DiskFault` the disk is to be started again and
    /// the journal opened again: the record stands whole, or is not there.
    pub fn file<D: Disk>(
        &mut self,
        alloc: Global,
        journal: &mut Journal,
        disk: &mut D,
        id: MsgId,
        octets: &[u8],
    ) -> Result<(), StoreFault>
        requires gate { HasGate (D.seen disk.old) (end_of journal.old) }
        ensures known { IsSome (place_of self.old id) → IsKnown result self.old self.new (D.seen disk.old) (D.seen disk.new) (end_of journal.old) (end_of journal.new) (D.faults disk.old) (D.faults disk.new) }
        ensures noted { place_of self.old id ≡ None → OnOk result ((place : Place) × (place.at ≡ end_of journal.old + 5) × (place.length ≡ 14 + length octets.now) × Notes self.old self.new id place) }
        ensures kept { OnErr result (HasSamePlaces self.old self.new) }
        ensures appended { place_of self.old id ≡ None → (node : ℕ) (payloads : List (List ℕ)) → TellsJournal (D.seen disk.old) node payloads (end_of journal.old)
            → Appends result (D.seen disk.new) node payloads (payload_of (Octets id octets.now)) (end_of journal.new) }
        ensures refuses { place_of self.old id ≡ None → RefusesToFile result (14 + length octets.now) (D.seen disk.old) (D.seen disk.new) (end_of journal.old) (end_of journal.new) (D.faults disk.old) (D.faults disk.new) }
        ensures settled { place_of self.old id ≡ None → OnOk result (D.settled disk.new) }
    {
        if self.place(id).is_some() {
            return Ok(());
        }
        self.file_new(alloc, journal, disk, id, octets)
    }
}
