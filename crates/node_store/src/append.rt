//! Records that are appended to the journal.
ghost use Rattle.std.specs.Prelude.{◌≡◌, ◌+◌, ◌≤◌, ◌++◌, ◌∷◌, [], length, IfOk, OnOk};
ghost use Rattle.mail_model.specs.Record.{Record, payload_of};
ghost use Rattle.disk_journal.specs.Journal.{HasGate, end_of, largest};
ghost use Rattle.node_store.specs.Disks.{view_of};
ghost use Rattle.node_store.specs.Appends.{Written};

use crate::fault::KeepFault;
use disk_journal::{Journal, JournalFault, Place};
use io_edge::Disk;
use std::alloc::Global;

/// Appends one record.
pub(crate) fn append_record<D: Disk>(
    alloc: Global,
    journal: &mut Journal,
    disk: &mut D,
    head: &[u8],
    body: &[u8],
) -> Result<Place, KeepFault>
    requires gate { HasGate (D.seen disk.old) (end_of journal.old) }
    requires short { length head.now + length body.now ≤ largest }
    ensures written { (entry : Record) → head.now ++ body.now ≡ payload_of entry
        → Written (view_of D.seen D.faults D.clock) result disk.old disk.new (end_of journal.old) (end_of journal.new) (entry ∷ []) }
    ensures settled { OnOk result (D.settled disk.new) }
    ensures placed { IfOk result (λ place. (place.at ≡ end_of journal.old + 5) × (place.length ≡ length head.now + length body.now)) }
{
    match journal.append(alloc, disk, head, body) {
        Ok(place) => return Ok(place),
        Err(JournalFault::DiskFault) => return Err(KeepFault::Disk),
        Err(JournalFault::NoMemory) => return Err(KeepFault::NoMemory),
        // The payload is short enough, and an append reads no header.
        Err(JournalFault::TooLarge) => unreachable!(),
        Err(JournalFault::NotAJournal) => unreachable!(),
    }
}
