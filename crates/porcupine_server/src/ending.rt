// How the program ends: its status, and the last line that it writes.
ghost use Rattle.std.specs.Prelude.{◌≡◌, ◌⊎◌, ◌≤◌, ◌∷◌, ◌++◌, [], IfOk, codes};
ghost use Rattle.std.specs.Fmt.{decimal};
ghost use Rattle.io_edge.specs.Causes.{Rose};
ghost use Rattle.mail_model.specs.Transcript as transcript;
ghost use Rattle.mail_model.specs.Site.{fault_name};
ghost use Rattle.drive_tape.specs.Faults.{tape_fault_seen};
ghost use Rattle.drive_tape.specs.Entries.{transcript_entries};
ghost use Rattle.porcupine_server.specs.Endings.{ending_of, ending_untaken, ending_unopened, status_of, last_entries, Finishes};
ghost use Rattle.porcupine_server.specs.declared.ending.Ending.TheVariants as endings;

use cluster_world::OpenFault;
use drive_tape::{Drove, Entry, Row, TapeFault, WriteStop, write_entries};
use io_edge::Sink;
use mail_base::Octets;
use std::alloc::{AllocError, Global};
use yard_stores::TakeFault;

/// Why the work of a tape ended.
#[derive(Clone, Copy, Debug, PartialEq, Eq)]
pub enum Ending {
    /// The line `end` was read.
    Done,
    /// This line of the tape has this fault.
    Line { number: u64, fault: TapeFault },
    /// The source failed.
    Read,
    /// The sink failed.
    Write,
    /// The store of this node failed as it was taken or opened, or is not empty.
    Store { node: u8 },
    /// Memory ran out.
    NoMemory,
}

impl Ending {
    /// How the program ends where the work on the tape ended so.
    pub fn of(drove: Drove) -> Ending
        ensures { result ≡ ending_of drove }
    {
        match drove {
            Drove::Ended => Ending::Done,
            Drove::ReadFault => Ending::Read,
            Drove::WriteFault(_) => Ending::Write,
            Drove::BadTape(number, fault) => Ending::Line { number, fault },
            Drove::NoMemory(_) => Ending::NoMemory,
        }
    }

    /// How it ends where not all stores are there.
    pub fn untaken(fault: TakeFault) -> Ending
        ensures { result ≡ ending_untaken fault }
    {
        match fault {
            TakeFault::Store(node) => Ending::Store { node },
            TakeFault::NoMemory => Ending::NoMemory,
        }
    }

    /// How it ends where the cluster is not opened.
    pub fn unopened(fault: &OpenFault) -> Ending
        ensures { result ≡ ending_unopened fault.now }
    {
        match fault {
            OpenFault::DiskFault(node) => Ending::Store {
                node: node.number(),
            },
            OpenFault::NoMemory => Ending::NoMemory,
        }
    }

    /// The exit status.
    pub fn status(self) -> u8
        ensures { result ≡ status_of self }
    {
        match self {
            Ending::Done => 0,
            Ending::Line { .. } => 3,
            Ending::Read => 4,
            Ending::Write => 5,
            Ending::Store { .. } => 6,
            Ending::NoMemory => 7,
        }
    }

    // The last line that is written, where there is one.
    fn last_line(self, alloc: Global) -> Result<Row<Entry>, AllocError>
        ensures { IfOk result (λ entries. transcript_entries entries ≡ last_entries self) }
    {
        match self {
            Ending::Done => Ok(Row::new(alloc)),
            Ending::Line { number, fault } => line_refused(alloc, number, fault),
            Ending::Read => refused(alloc, b"read"),
            Ending::Write => Ok(Row::new(alloc)),
            Ending::Store { node } => store_refused(alloc, node),
            Ending::NoMemory => Ok(Row::new(alloc)),
        }
    }
}

// One line that says why the program ended.
fn refused(alloc: Global, why: &[u8]) -> Result<Row<Entry>, AllocError>
    ensures { IfOk result (λ entries. transcript_entries entries ≡ transcript.Entry.Refused why.now ∷ []) }
{
    let text = Octets::from_vec(Vec::from_slice(alloc, why)?);
    let mut entries = Row::new(alloc);
    entries.push(Entry::Refused { text })?;
    Ok(entries)
}

// The line that names a line of the tape and its fault.
fn line_refused(alloc: Global, number: u64, fault: TapeFault) -> Result<Row<Entry>, AllocError>
    ensures { IfOk result (λ entries. transcript_entries entries ≡ transcript.Entry.Refused (codes "line " ++ decimal number ++ 32 ∷ fault_name (tape_fault_seen fault)) ∷ []) }
{
    let mut text = Vec::from_slice(alloc, b"line ")?;
    text.extend_from_slice(number.to_string(alloc)?.as_bytes())?;
    text.push(b' ')?;
    text.extend_from_slice(fault.name())?;
    refused(alloc, &text)
}

// The line that names the node of a store.
fn store_refused(alloc: Global, node: u8) -> Result<Row<Entry>, AllocError>
    ensures { IfOk result (λ entries. transcript_entries entries ≡ transcript.Entry.Refused (codes "disk 0 " ++ decimal node) ∷ []) }
{
    let mut text = Vec::from_slice(alloc, b"disk 0 ")?;
    text.extend_from_slice(node.to_string(alloc)?.as_bytes())?;
    refused(alloc, &text)
}

/// Writes the last line, and answers the status.
pub fn finish<K: Sink>(alloc: Global, sink: &mut K, ending: Ending) -> u8
    ensures finished { Finishes (K.contents sink.old) (K.contents sink.new) ending result }
    ensures later { K.faults sink.old ≤ K.faults sink.new }
    ensures failed { result ≡ 5 → (ending ≡ endings.Write) ⊎ Rose (K.faults sink.old) (K.faults sink.new) }
{
    let Ok(entries) = ending.last_line(alloc) else {
        return Ending::NoMemory.status();
    };
    match write_entries(alloc, sink, entries.as_slice()) {
        Ok(()) => ending.status(),
        Err(WriteStop::WriteFault) => Ending::Write.status(),
        Err(WriteStop::NoMemory) => Ending::NoMemory.status(),
    }
}
