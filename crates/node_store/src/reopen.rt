//! A store over a journal that is there.
ghost use Rattle.std.specs.Prelude.{◌≡◌, IfOk};
ghost use Rattle.io_edge.specs.Moments.{Keeps as KeepsImages};
ghost use Rattle.disk_journal.specs.Journal.{end_of};
ghost use Rattle.disk_journal.specs.Reading.{LieInRow};
ghost use Rattle.node_store.specs.Reopens.{JournalFound, StoreReopened};

use crate::fault::ReadFault;
use crate::recovered::Recovered;
use crate::store::NodeStore;
use disk_journal::{Journal, JournalFault, Place};
use io_edge::Disk;
use mail_base::NodeNo;
use message_store::MessageStore;
use object_table::ObjectTable;
use std::alloc::Global;
use update_log::UpdateLog;

// The journal of the node that is there, and the places of its records.
fn journal_there<D: Disk>(
    alloc: Global,
    disk: &mut D,
    own: NodeNo,
) -> Result<(Journal, Vec<Place>), ReadFault>
    ensures found { JournalFound result own (D.seen disk.old) (D.faults disk.old) (D.faults disk.new) }
    ensures placed { IfOk result (λ opened. LieInRow 16 opened.1.items (end_of opened.0)) }
    ensures seen { D.seen disk.new ≡ D.seen disk.old }
    ensures images { KeepsImages D.clock disk.old disk.new }
    ensures settled { D.settled disk.old → D.settled disk.new }
{
    match Journal::open(alloc, disk, own) {
        Ok(opened) => Ok(opened),
        Err(JournalFault::DiskFault) => Err(ReadFault::Disk),
        Err(JournalFault::NotAJournal) => Err(ReadFault::NotAJournal),
        Err(JournalFault::NoMemory) => Err(ReadFault::NoMemory),
        // An opening has no payload.
        Err(JournalFault::TooLarge) => unreachable!(),
    }
}

impl NodeStore {
    /// The store over the journal of the node that the disk holds, and which boots, counts and numbers its records name. It
    /// writes nothing.
    ///
    /// # Errors
    ///
    /// `NotAJournal` where the header is not that of the node, the disk ends before the first closed gate, or a payload
    /// spells no record.
    pub fn open<D: Disk>(
        alloc: Global,
        disk: &mut D,
        own: NodeNo,
    ) -> Result<(NodeStore, Recovered), ReadFault>
        ensures opened { StoreReopened result own (D.seen disk.old) (D.faults disk.old) (D.faults disk.new) }
        ensures seen { D.seen disk.new ≡ D.seen disk.old }
        ensures images { KeepsImages D.clock disk.old disk.new }
        ensures settled { D.settled disk.old → D.settled disk.new }
    {
        let (journal, places) = journal_there(alloc, disk, own)?;
        let mut store = NodeStore {
            own,
            journal,
            messages: MessageStore::new(alloc),
            objects: ObjectTable::new(alloc),
            log: UpdateLog::new(alloc),
        };
        let mut found = Recovered::new(alloc);
        store.reread(alloc, disk, &places, &mut found)?;
        Ok((store, found))
    }
}
