//! Acknowledgements and retirements.
ghost use Rattle.std.specs.Prelude.{◌≡◌, IfOk, OnOk};
ghost use Rattle.std.specs.FinMap as fin;
ghost use Rattle.mail_model.specs.Grammar.{IsObject};
ghost use Rattle.object_model.specs.UpdateLog.{is_of};
ghost use Rattle.mail_base.specs.Seen.{key_seen};
ghost use Rattle.update_log.specs.Answers.{answer_at};
ghost use Rattle.disk_journal.specs.Journal.{HasGate, end_of};
ghost use Rattle.node_store.specs.Disks.{view_of};
ghost use Rattle.node_store.specs.Appends.{Written};
ghost use Rattle.node_store.specs.Keeps.{CanGoOn};
ghost use Rattle.node_store.specs.Changes.{acked_by, is_emptied, retired_in, retired_where};
ghost use Rattle.node_store.specs.Writes.{WroteChange};

use crate::fault::KeepFault;
use crate::news::record_retired;
use crate::store::NodeStore;
use disk_journal::Journal;
use io_edge::Disk;
use mail_base::{Key, NodeNo, ObjState};
use replica_push::{hear_ack, hear_retired};
use std::alloc::Global;
use update_log::Acked;

fn is_emptied(acked: Acked) -> bool
    ensures { result ≡ is_emptied acked }
{
    match acked {
        Acked::Emptied => true,
        Acked::Cleared => false,
        Acked::Other => false,
    }
}

// Records that the state is retired, where it is.
fn record_where<D: Disk>(
    alloc: Global,
    journal: &mut Journal,
    disk: &mut D,
    key: &Key,
    state: &ObjState,
    is_retired: bool,
) -> Result<(), KeepFault>
    requires object { IsObject (key_seen key.now) state.now }
    requires gate { HasGate (D.seen disk.old) (end_of journal.old) }
    ensures written { Written (view_of D.seen D.faults D.clock) result disk.old disk.new (end_of journal.old) (end_of journal.new) (retired_where (key_seen key.now) state.now is_retired) }
    ensures settled { OnOk result (D.settled disk.old → D.settled disk.new) }
{
    if is_retired {
        record_retired(alloc, journal, disk, key, state)?;
    }
    Ok(())
}

impl NodeStore {
    /// A node has acknowledged the state: it is taken out of an entry of that very state. Where it was the last one, at
    /// `Emptied`, the entry goes and the state is recorded as retired.
    pub fn acknowledged<D: Disk>(
        &mut self,
        alloc: Global,
        disk: &mut D,
        key: &Key,
        state: &ObjState,
        by: NodeNo,
    ) -> Result<Acked, KeepFault>
        requires sound { CanGoOn (D.seen disk.old) self.old }
        requires object { IsObject (key_seen key.now) state.now }
        ensures answer { IfOk result (λ acked. acked ≡ answer_at state.now by (fin.get self.old.log (key_seen key.now))) }
        ensures wrote { WroteChange (view_of D.seen D.faults D.clock) (acked_by (key_seen key.now) state.now by) result self.old disk.old self.new disk.new }
        ensures settled { OnOk result (D.settled disk.old → D.settled disk.new) }
    {
        let acked = hear_ack(&mut self.log, key, state, by);
        record_where(
            alloc,
            &mut self.journal,
            disk,
            key,
            state,
            is_emptied(acked),
        )?;
        Ok(acked)
    }

    /// All targets of the state have it: the entry of that very state goes, and the state is recorded as retired. False
    /// exactly where no such entry stands; nothing is recorded then.
    pub fn retired<D: Disk>(
        &mut self,
        alloc: Global,
        disk: &mut D,
        key: &Key,
        state: &ObjState,
    ) -> Result<bool, KeepFault>
        requires sound { CanGoOn (D.seen disk.old) self.old }
        requires object { IsObject (key_seen key.now) state.now }
        ensures answer { IfOk result (λ stood. stood ≡ is_of state.now (fin.get self.old.log (key_seen key.now))) }
        ensures wrote { WroteChange (view_of D.seen D.faults D.clock) (retired_in (key_seen key.now) state.now) result self.old disk.old self.new disk.new }
        ensures settled { OnOk result (D.settled disk.old → D.settled disk.new) }
    {
        let stood = hear_retired(&mut self.log, key, state);
        record_where(alloc, &mut self.journal, disk, key, state, stood)?;
        Ok(stood)
    }
}
