//! How a journal is read: its header, and record by record up to the first closed gate.
ghost use Rattle.std.specs.Prelude.{◌≡◌, ◌+◌, ◌≤◌, ◌<◌, length, take, drop, IfOk, IfSome, OnOk, ◌^◌};
ghost use Rattle.io_edge.specs.Moments.{Keeps};
ghost use Rattle.disk_journal.specs.Reading.{Fills, HasHeader, FoundAt};

use crate::fault::JournalFault;
use crate::place::Place;
use crate::sizes::size_of;
use crate::writing::{OPEN_GATE, header};
use io_edge::Disk;
use mail_base::NodeNo;

/// Reads octets until all of the slice is filled. `NotAJournal` where the disk ends before.
pub(crate) fn fill<D: Disk>(disk: &mut D, at: u64, into: &mut [u8]) -> Result<(), JournalFault>
    requires fits { at + length into.old < 2 ^ 64 }
    ensures filled { OnOk result (IfSome (D.seen disk.old) (λ held. into.new ≡ take (length into.old) (drop at held))) }
    ensures length { length into.new ≡ length into.old }
    ensures cause { Fills result (D.seen disk.old) (at + length into.old) (D.faults disk.old) (D.faults disk.new) }
    ensures seen { D.seen disk.new ≡ D.seen disk.old }
    ensures images { Keeps D.clock disk.old disk.new }
    ensures settled { D.settled disk.old → D.settled disk.new }
{
    let mut filled = 0;
    while filled < into.len() {
        let count = disk.read(at + filled as u64, &mut into[filled..])?;
        if count == 0 {
            return Err(JournalFault::NotAJournal);
        }
        filled += count;
    }
    Ok(())
}

/// Sees that the disk, which holds so many octets, begins with the header of the node's journal.
pub(crate) fn read_header<D: Disk>(
    disk: &mut D,
    total: u64,
    node: NodeNo,
) -> Result<(), JournalFault>
    requires { IfSome (D.seen disk.old) (λ held. total ≡ length held) }
    ensures long { OnOk result (16 ≤ total) }
    ensures header { HasHeader result node (D.seen disk.old) (D.faults disk.old) (D.faults disk.new) }
    ensures seen { D.seen disk.new ≡ D.seen disk.old }
    ensures images { Keeps D.clock disk.old disk.new }
    ensures settled { D.settled disk.old → D.settled disk.new }
{
    if total < 16 {
        return Err(JournalFault::NotAJournal);
    }
    let mut found = [0; 16];
    fill(disk, 0, &mut found)?;
    if found != header(node) {
        return Err(JournalFault::NotAJournal);
    }
    Ok(())
}

/// Reads what stands at the place of a gate, on a disk that holds so many octets: a closed gate, or the place of a
/// record's payload.
pub(crate) fn record_at<D: Disk>(
    disk: &mut D,
    total: u64,
    at: u64,
) -> Result<Option<Place>, JournalFault>
    requires { IfSome (D.seen disk.old) (λ held. total ≡ length held) }
    ensures found { FoundAt result (D.seen disk.old) at (D.faults disk.old) (D.faults disk.new) }
    ensures begins { IfOk result (λ found. IfSome found (λ place. place.at ≡ at + 5)) }
    ensures within { IfOk result (λ found. IfSome found (λ place. place.at + place.length ≤ total)) }
    ensures seen { D.seen disk.new ≡ D.seen disk.old }
    ensures images { Keeps D.clock disk.old disk.new }
    ensures settled { D.settled disk.old → D.settled disk.new }
{
    if at >= total {
        return Err(JournalFault::NotAJournal);
    }
    let mut gate = [0; 1];
    fill(disk, at, &mut gate)?;
    if gate[0] != OPEN_GATE {
        return Ok(None);
    }
    if total - at < 5 {
        return Err(JournalFault::NotAJournal);
    }
    let mut size = [0; 4];
    fill(disk, at + 1, &mut size)?;
    let size = u64::from(size_of(size));
    if total - at - 5 < size {
        return Err(JournalFault::NotAJournal);
    }
    Ok(Some(Place {
        at: at + 5,
        length: size,
    }))
}
