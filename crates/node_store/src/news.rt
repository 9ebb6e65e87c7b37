//! States that are taken, and recorded.
ghost use Rattle.std.specs.Prelude.{◌≡◌, ◌<◌, ◌∷◌, [], nat_eq, Some, IfOk, IfSome, OnOk};
ghost use Rattle.std.specs.FinMap as fin;
ghost use Rattle.mail_model.specs.Grammar.{IsNodeNumber, IsObject};
ghost use Rattle.mail_model.specs.Record.Record.{Boot, Promise, Stated, Retired};
ghost use Rattle.object_model.specs.Sets.{without_node};
ghost use Rattle.mail_base.specs.Seen.{key_seen};
ghost use Rattle.disk_journal.specs.Journal.{HasGate, end_of};
ghost use Rattle.object_table.specs.Tables.{taken};
ghost use Rattle.replica_push.specs.Pushes.{news_of, note_news};
ghost use Rattle.replica_push.specs.Rules.{records_of, settled};
ghost use Rattle.node_store.specs.Disks.{view_of};
ghost use Rattle.node_store.specs.Appends.{Written};
ghost use Rattle.node_store.specs.Keeps.{HoldsObjects};

use crate::append::append_record;
use crate::fault::KeepFault;
use crate::payload::{boot_payload, promise_payload, retired_payload, state_payload};
use disk_journal::Journal;
use io_edge::Disk;
use mail_base::{EpochId, Key, NodeNo, NodeSet, ObjState};
use object_table::ObjectTable;
use replica_push::hear_push;
use std::alloc::{AllocError, Global};
use update_log::UpdateLog;

/// Whether no other node is a target.
pub(crate) fn is_alone(state: &ObjState, own: NodeNo) -> bool
    ensures { result ≡ nat_eq (without_node state.now.targets own) 0 }
{
    state.targets.without(own) == NodeSet::empty()
}

// News that no other node is a target of leaves no entry.
fn settle(log: &mut UpdateLog, key: &Key, news: &Option<ObjState>, own: NodeNo)
    ensures { log.new ≡ settled own (key_seen key.now) news.now log.old }
{
    match news {
        None => {}
        Some(next) => {
            if is_alone(next, own) {
                log.retire(key, next);
            }
        }
    }
}

/// Takes the state: the table has its join, and the log notes it for the other targets. It answers what is to be recorded.
pub(crate) fn take_news(
    table: &mut ObjectTable,
    log: &mut UpdateLog,
    key: &Key,
    state: &ObjState,
    own: NodeNo,
) -> Result<Option<ObjState>, AllocError>
    requires object { IsObject (key_seen key.now) state.now }
    requires objects { HoldsObjects table.old }
    ensures answer { IfOk result (λ news. news ≡ news_of (fin.get table.old (key_seen key.now)) state.now) }
    ensures table { OnOk result (table.new ≡ taken (key_seen key.now) state.now table.old) }
    ensures log { OnOk result (log.new ≡ settled own (key_seen key.now) (news_of (fin.get table.old (key_seen key.now)) state.now)
        (note_news own (key_seen key.now) (news_of (fin.get table.old (key_seen key.now)) state.now) log.old)) }
{
    let news = hear_push(table, log, key, state, own)?;
    settle(log, key, &news, own);
    Ok(news)
}

/// Records that a boot began.
pub(crate) fn record_boot<D: Disk>(
    alloc: Global,
    journal: &mut Journal,
    disk: &mut D,
    boot: u32,
) -> Result<(), KeepFault>
    requires drawn { 0 < boot }
    requires gate { HasGate (D.seen disk.old) (end_of journal.old) }
    ensures written { Written (view_of D.seen D.faults D.clock) result disk.old disk.new (end_of journal.old) (end_of journal.new) (Boot boot ∷ []) }
    ensures settled { OnOk result (D.settled disk.new) }
{
    let payload = boot_payload(alloc, boot)?;
    append_record(alloc, journal, disk, &payload, &[])?;
    Ok(())
}

/// Records that the node promised the epoch.
pub(crate) fn record_promise<D: Disk>(
    alloc: Global,
    journal: &mut Journal,
    disk: &mut D,
    epoch: EpochId,
) -> Result<(), KeepFault>
    requires node { IsNodeNumber epoch.node }
    requires gate { HasGate (D.seen disk.old) (end_of journal.old) }
    ensures written { Written (view_of D.seen D.faults D.clock) result disk.old disk.new (end_of journal.old) (end_of journal.new) (Promise epoch ∷ []) }
    ensures settled { OnOk result (D.settled disk.new) }
{
    let payload = promise_payload(alloc, epoch)?;
    append_record(alloc, journal, disk, &payload, &[])?;
    Ok(())
}

// Records the state.
fn record_stated<D: Disk>(
    alloc: Global,
    journal: &mut Journal,
    disk: &mut D,
    key: &Key,
    state: &ObjState,
) -> Result<(), KeepFault>
    requires object { IsObject (key_seen key.now) state.now }
    requires gate { HasGate (D.seen disk.old) (end_of journal.old) }
    ensures written { Written (view_of D.seen D.faults D.clock) result disk.old disk.new (end_of journal.old) (end_of journal.new) (Stated (key_seen key.now) state.now ∷ []) }
    ensures settled { OnOk result (D.settled disk.new) }
{
    let payload = state_payload(alloc, key, state)?;
    append_record(alloc, journal, disk, &payload, &[])?;
    Ok(())
}

/// Records that all other targets of the state have it.
pub(crate) fn record_retired<D: Disk>(
    alloc: Global,
    journal: &mut Journal,
    disk: &mut D,
    key: &Key,
    state: &ObjState,
) -> Result<(), KeepFault>
    requires object { IsObject (key_seen key.now) state.now }
    requires gate { HasGate (D.seen disk.old) (end_of journal.old) }
    ensures written { Written (view_of D.seen D.faults D.clock) result disk.old disk.new (end_of journal.old) (end_of journal.new) (Retired (key_seen key.now) state.now ∷ []) }
    ensures settled { OnOk result (D.settled disk.new) }
{
    let payload = retired_payload(alloc, key, state)?;
    append_record(alloc, journal, disk, &payload, &[])?;
    Ok(())
}

// Records the state, and that it is retired where no other node is a target.
fn record_state<D: Disk>(
    alloc: Global,
    journal: &mut Journal,
    disk: &mut D,
    key: &Key,
    state: &ObjState,
    own: NodeNo,
) -> Result<(), KeepFault>
    requires object { IsObject (key_seen key.now) state.now }
    requires gate { HasGate (D.seen disk.old) (end_of journal.old) }
    ensures written { Written (view_of D.seen D.faults D.clock) result disk.old disk.new (end_of journal.old) (end_of journal.new) (records_of own (key_seen key.now) (Some state.now)) }
    ensures settled { OnOk result (D.settled disk.new) }
{
    record_stated(alloc, journal, disk, key, state)?;
    if is_alone(state, own) {
        record_retired(alloc, journal, disk, key, state)?;
    }
    Ok(())
}

/// Records the news, where there is any.
pub(crate) fn record_news<D: Disk>(
    alloc: Global,
    journal: &mut Journal,
    disk: &mut D,
    key: &Key,
    news: &Option<ObjState>,
    own: NodeNo,
) -> Result<(), KeepFault>
    requires object { IfSome news.now (λ next. IsObject (key_seen key.now) next) }
    requires gate { HasGate (D.seen disk.old) (end_of journal.old) }
    ensures written { Written (view_of D.seen D.faults D.clock) result disk.old disk.new (end_of journal.old) (end_of journal.new) (records_of own (key_seen key.now) news.now) }
    ensures settled { OnOk result (D.settled disk.old → D.settled disk.new) }
{
    match news {
        None => Ok(()),
        Some(next) => {
            record_state(alloc, journal, disk, key, next, own)?;
            Ok(())
        }
    }
}
