//! The store of one node.
ghost use Rattle.std.specs.Prelude.{◌≡◌, ◌<◌, ◌≤◌, [], IfSome, OnOk};
ghost use Rattle.io_edge.specs.Octets.{IsToldAlike};
ghost use Rattle.io_edge.specs.Moments.{Tears};
ghost use Rattle.mail_model.specs.Grammar.{IsNodeNumber, IsObject};
ghost use Rattle.cluster_model.specs.Store.{take_one};
ghost use Rattle.mail_base.specs.Seen.{key_seen};
ghost use Rattle.node_store.specs.Disks.{view_of};
ghost use Rattle.node_store.specs.Keeps.{CanGoOn};
ghost use Rattle.node_store.specs.Writes.{WroteChange};
ghost use Rattle.node_store.specs.Changes.{StoreCreated, HasJournal, with_boot, with_promise};

use crate::fault::KeepFault;
use crate::news::{record_boot, record_news, record_promise, take_news};
use disk_journal::{Journal, JournalFault};
use io_edge::Disk;
use mail_base::{EpochId, Key, NodeNo, ObjState};
use message_store::MessageStore;
use object_table::ObjectTable;
use std::alloc::Global;
use update_log::UpdateLog;

/// What a node keeps for good: its journal, and what the journal's records say.
#[derive(Drop)]
pub struct NodeStore {
    pub(crate) own: NodeNo,
    pub(crate) journal: Journal,
    pub(crate) messages: MessageStore,
    pub(crate) objects: ObjectTable,
    pub(crate) log: UpdateLog,
}

// A new journal of the node.
fn new_journal<D: Disk>(alloc: Global, disk: &mut D, own: NodeNo) -> Result<Journal, KeepFault>
    requires empty { IfSome (D.seen disk.old) (λ held. held ≡ []) }
    ensures created { HasJournal result own (D.seen disk.old) (D.seen disk.new) (D.faults disk.old) (D.faults disk.new) }
    ensures settled { OnOk result (D.settled disk.new) }
    ensures images { Tears D.clock disk.old disk.new 0 17 }
    ensures told { IsToldAlike (D.seen disk.old) (D.seen disk.new) }
    ensures later { D.faults disk.old ≤ D.faults disk.new }
{
    match Journal::create(alloc, disk, own) {
        Ok(journal) => Ok(journal),
        Err(JournalFault::DiskFault) => Err(KeepFault::Disk),
        Err(JournalFault::NoMemory) => Err(KeepFault::NoMemory),
        // A creation has no payload, and reads no header.
        Err(JournalFault::TooLarge) => unreachable!(),
        Err(JournalFault::NotAJournal) => unreachable!(),
    }
}

impl NodeStore {
    /// A store without records, on an empty disk. It costs two disk calls.
    pub fn create<D: Disk>(alloc: Global, disk: &mut D, own: NodeNo) -> Result<NodeStore, KeepFault>
        requires empty { IfSome (D.seen disk.old) (λ held. held ≡ []) }
        ensures created { StoreCreated result own (D.seen disk.old) (D.seen disk.new) (D.faults disk.old) (D.faults disk.new) }
        ensures settled { OnOk result (D.settled disk.new) }
        ensures images { Tears D.clock disk.old disk.new 0 17 }
        ensures told { IsToldAlike (D.seen disk.old) (D.seen disk.new) }
        ensures later { D.faults disk.old ≤ D.faults disk.new }
    {
        let journal = new_journal(alloc, disk, own)?;
        Ok(NodeStore {
            own,
            journal,
            messages: MessageStore::new(alloc),
            objects: ObjectTable::new(alloc),
            log: UpdateLog::new(alloc),
        })
    }

    /// Records that this boot began. A node does it before all else.
    pub fn boot<D: Disk>(&mut self, alloc: Global, disk: &mut D, boot: u32) -> Result<(), KeepFault>
        requires sound { CanGoOn (D.seen disk.old) self.old }
        requires drawn { 0 < boot }
        ensures wrote { WroteChange (view_of D.seen D.faults D.clock) (with_boot boot) result self.old disk.old self.new disk.new }
        ensures settled { OnOk result (D.settled disk.new) }
    {
        record_boot(alloc, &mut self.journal, disk, boot)?;
        Ok(())
    }

    /// Records that the node promised the epoch. A node does it before it speaks of its promise.
    pub fn promise<D: Disk>(
        &mut self,
        alloc: Global,
        disk: &mut D,
        epoch: EpochId,
    ) -> Result<(), KeepFault>
        requires sound { CanGoOn (D.seen disk.old) self.old }
        requires node { IsNodeNumber epoch.node }
        ensures wrote { WroteChange (view_of D.seen D.faults D.clock) (with_promise epoch) result self.old disk.old self.new disk.new }
        ensures settled { OnOk result (D.settled disk.new) }
    {
        record_promise(alloc, &mut self.journal, disk, epoch)?;
        Ok(())
    }

    /// Takes a state of an object, as a node does that hears a Push: where its join is news, it is recorded, and noted for
    /// the other targets.
    pub fn take<D: Disk>(
        &mut self,
        alloc: Global,
        disk: &mut D,
        key: &Key,
        state: &ObjState,
    ) -> Result<(), KeepFault>
        requires sound { CanGoOn (D.seen disk.old) self.old }
        requires object { IsObject (key_seen key.now) state.now }
        ensures wrote { WroteChange (view_of D.seen D.faults D.clock) (take_one self.old.own (record { key = key_seen key.now; state = state.now })) result self.old disk.old self.new disk.new }
        ensures settled { OnOk result (D.settled disk.old → D.settled disk.new) }
    {
        let news = take_news(&mut self.objects, &mut self.log, key, state, self.own)?;
        record_news(alloc, &mut self.journal, disk, key, &news, self.own)?;
        Ok(())
    }
}
