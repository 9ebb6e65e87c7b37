//! Entries that are read at their places in a journal.
ghost use Rattle.std.specs.Prelude.{◌≡◌, ◌≤◌, ◌<◌, length};
ghost use Rattle.io_edge.specs.Moments.{Keeps as KeepsImages};
ghost use Rattle.mail_model.specs.Record.{Record};
ghost use Rattle.record_form.specs.Entries.{IsEntryOf};
ghost use Rattle.node_store.specs.Rereads.{ReadsFront, FoundEntry, id_filed};

use crate::fault::ReadFault;
use disk_journal::{Journal, JournalFault, Place};
use io_edge::Disk;
use mail_base::MsgId;
use record_form::{DiskEntry, read_record};
use std::alloc::Global;

// Reads the first octets of the payload at the place, as many as fit, and says how many they are.
fn read_front<D: Disk>(
    journal: &Journal,
    disk: &mut D,
    place: Place,
    into: &mut [u8],
) -> Result<usize, ReadFault>
    ensures front { ReadsFront result place into.new (D.seen disk.old) (D.faults disk.old) (D.faults disk.new) }
    ensures length { length into.new ≡ length into.old }
    ensures seen { D.seen disk.new ≡ D.seen disk.old }
    ensures images { KeepsImages D.clock disk.old disk.new }
    ensures settled { D.settled disk.old → D.settled disk.new }
{
    match journal.read(disk, place, 0, into) {
        Ok(count) => Ok(count),
        Err(JournalFault::DiskFault) => Err(ReadFault::Disk),
        Err(JournalFault::NotAJournal) => Err(ReadFault::NotAJournal),
        // A read takes no memory, and has no payload.
        Err(JournalFault::TooLarge) => unreachable!(),
        Err(JournalFault::NoMemory) => unreachable!(),
    }
}

// The id whose octets the record has.
fn id_filed(entry: &DiskEntry) -> Option<MsgId>
    ensures { (one : Record) → IsEntryOf entry.now one → result ≡ id_filed one }
{
    match entry {
        DiskEntry::Octets { id, .. } => Some(*id),
        DiskEntry::Boot { .. } => None,
        DiskEntry::Promise { .. } => None,
        DiskEntry::State { .. } => None,
        DiskEntry::Retired { .. } => None,
    }
}

// The entry of a payload that is read whole.
fn short_entry<D: Disk>(
    alloc: Global,
    journal: &Journal,
    disk: &mut D,
    place: Place,
) -> Result<DiskEntry, ReadFault>
    requires short { place.length ≤ 256 }
    ensures found { FoundEntry result (D.seen disk.old) place (D.faults disk.old) (D.faults disk.new) }
    ensures seen { D.seen disk.new ≡ D.seen disk.old }
    ensures images { KeepsImages D.clock disk.old disk.new }
    ensures settled { D.settled disk.old → D.settled disk.new }
{
    let mut payload = [0; 256];
    let count = read_front(journal, disk, place, &mut payload)?;
    let Some(entry) = read_record(alloc, &payload[..count])? else {
        return Err(ReadFault::NotAJournal);
    };
    Ok(entry)
}

// The entry of a payload that only a message's octets can have: its head alone is read.
fn long_entry<D: Disk>(
    alloc: Global,
    journal: &Journal,
    disk: &mut D,
    place: Place,
) -> Result<DiskEntry, ReadFault>
    requires long { 256 < place.length }
    ensures found { FoundEntry result (D.seen disk.old) place (D.faults disk.old) (D.faults disk.new) }
    ensures seen { D.seen disk.new ≡ D.seen disk.old }
    ensures images { KeepsImages D.clock disk.old disk.new }
    ensures settled { D.settled disk.old → D.settled disk.new }
{
    let mut head = [0; 14];
    read_front(journal, disk, place, &mut head)?;
    let Some(entry) = read_record(alloc, &head)? else {
        return Err(ReadFault::NotAJournal);
    };
    let Some(id) = id_filed(&entry) else {
        return Err(ReadFault::NotAJournal);
    };
    Ok(DiskEntry::Octets {
        id,
        length: place.length - 14,
    })
}

/// The entry whose payload lies at the place. It reads at most 256 octets, and of a longer payload the first 14.
pub(crate) fn entry_at<D: Disk>(
    alloc: Global,
    journal: &Journal,
    disk: &mut D,
    place: Place,
) -> Result<DiskEntry, ReadFault>
    ensures found { FoundEntry result (D.seen disk.old) place (D.faults disk.old) (D.faults disk.new) }
    ensures seen { D.seen disk.new ≡ D.seen disk.old }
    ensures images { KeepsImages D.clock disk.old disk.new }
    ensures settled { D.settled disk.old → D.settled disk.new }
{
    if place.length > 256 {
        long_entry(alloc, journal, disk, place)
    } else {
        short_entry(alloc, journal, disk, place)
    }
}
