//! Records that are read again, as a node starts.
ghost use Rattle.std.specs.Prelude.{◌≡◌, ◌∷◌, [], List, OnOk};
ghost use Rattle.std.specs.FinMap as fin;
ghost use Rattle.io_edge.specs.Moments.{Keeps as KeepsImages};
ghost use Rattle.mail_model.specs.Grammar.{IsOfKind};
ghost use Rattle.mail_model.specs.Record.{Record};
ghost use Rattle.object_model.specs.States.{join_with};
ghost use Rattle.cluster_model.specs.Starts.{owed_state};
ghost use Rattle.mail_base.specs.Seen.{key_seen};
ghost use Rattle.disk_journal.specs.declared.place.Place.{Place as PlaceSeen};
ghost use Rattle.record_form.specs.Entries.{IsEntryOf};
ghost use Rattle.object_table.specs.Tables.{taken};
ghost use Rattle.node_store.specs.Rereads.{FitsPlace, Retakes, HasReread, Rereads};

use crate::entry::entry_at;
use crate::fault::ReadFault;
use crate::news::is_alone;
use crate::recovered::Recovered;
use crate::store::NodeStore;
use disk_journal::Place;
use io_edge::Disk;
use mail_base::{Key, NodeNo, ObjState};
use object_table::ObjectTable;
use record_form::DiskEntry;
use std::alloc::{AllocError, Global};
use update_log::UpdateLog;

// The state is owed to all its other targets, and to nobody where there are none.
fn owe(log: &mut UpdateLog, key: &Key, state: &ObjState, own: NodeNo) -> Result<(), AllocError>
    ensures { OnOk result (log.new ≡ owed_state own (key_seen key.now) state.now log.old) }
{
    if is_alone(state, own) {
        log.forget(key);
        return Ok(());
    }
    log.note(key, state, own)
}

// The state is joined to what stands, and the join is owed.
fn owe_join(
    objects: &mut ObjectTable,
    log: &mut UpdateLog,
    key: &Key,
    state: &ObjState,
    own: NodeNo,
) -> Result<(), AllocError>
    requires kind { IsOfKind (key_seen key.now) state.now.value }
    ensures table { OnOk result (objects.new ≡ taken (key_seen key.now) state.now objects.old) }
    ensures log { OnOk result (log.new ≡ owed_state own (key_seen key.now) (join_with (fin.get objects.old (key_seen key.now)) state.now) log.old) }
{
    objects.take(key, state)?;
    match objects.state(key) {
        Some(joined) => owe(log, key, joined, own),
        None => unreachable!(),
    }
}

impl NodeStore {
    // Takes what one more record says, whose payload lies at the place.
    fn retake(&mut self, place: Place, entry: &DiskEntry) -> Result<(), AllocError>
        requires lies { FitsPlace place entry.now }
        ensures { OnOk result ((one : Record) → IsEntryOf entry.now one → Retakes place one self.old self.new) }
    {
        match entry {
            DiskEntry::Boot { .. } => Ok(()),
            DiskEntry::Promise { .. } => Ok(()),
            DiskEntry::Octets { id, .. } => self.messages.found(*id, place),
            DiskEntry::State { key, state } => {
                owe_join(&mut self.objects, &mut self.log, key, state, self.own)
            }
            DiskEntry::Retired { key, state } => {
                self.log.retire(key, state);
                Ok(())
            }
        }
    }

    // Reads the record whose payload lies at the place.
    fn reread_one<D: Disk>(
        &mut self,
        alloc: Global,
        disk: &mut D,
        place: Place,
        found: &mut Recovered,
    ) -> Result<(), ReadFault>
        ensures read { (left : List PlaceSeen) → HasReread (D.seen disk.old) self.old found.old (place ∷ left)
            → Rereads result (D.seen disk.old) self.old.own self.new found.new left (D.faults disk.old) (D.faults disk.new) }
        ensures seen { D.seen disk.new ≡ D.seen disk.old }
        ensures images { KeepsImages D.clock disk.old disk.new }
        ensures settled { D.settled disk.old → D.settled disk.new }
    {
        let entry = entry_at(alloc, &self.journal, disk, place)?;
        found.heed(self.own, &entry)?;
        self.retake(place, &entry)?;
        Ok(())
    }

    /// Reads the records whose payloads lie at these places, one after another.
    pub(crate) fn reread<D: Disk>(
        &mut self,
        alloc: Global,
        disk: &mut D,
        places: &[Place],
        found: &mut Recovered,
    ) -> Result<(), ReadFault>
        requires begun { HasReread (D.seen disk.old) self.old found.old places.now }
        ensures read { Rereads result (D.seen disk.old) self.old.own self.new found.new [] (D.faults disk.old) (D.faults disk.new) }
        ensures seen { D.seen disk.new ≡ D.seen disk.old }
        ensures images { KeepsImages D.clock disk.old disk.new }
        ensures settled { D.settled disk.old → D.settled disk.new }
    {
        for place in places {
            self.reread_one(alloc, disk, *place, found)?;
        }
        Ok(())
    }
}
