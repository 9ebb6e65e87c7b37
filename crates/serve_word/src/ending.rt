// How serving ends: the status, and the last line that is written.
ghost use Rattle.std.specs.Prelude.{◌≡◌, ◌⊎◌, ◌≤◌, IfOk, string_bytes};
ghost use Rattle.io_edge.specs.Causes.{Rose};
ghost use Rattle.serve_word.specs.Endings.{ending_at, ending_with, ending_of, ending_unread, ending_untaken, ending_unopened, status_of, line_of, Finishes};
ghost use Rattle.serve_word.specs.declared.ending.ServeEnd.TheVariants as ends;

use crate::plan_parts::PlanFault;
use cluster_world::OpenFault;
use io_edge::{Sink, write_all};
use mail_service::{ConsoleEnd, DoorEnd, ServiceEnd};
use std::alloc::{AllocError, Global};
use yard_stores::TakeFault;

/// Why serving ended.
#[derive(Clone, Copy, Debug, PartialEq, Eq)]
pub enum ServeEnd {
    /// The console said `stop`.
    Done,
    /// The plan file breaks the rule of this number, and none before it.
    Broken { rule: u8 },
    /// The console ended in this line.
    Early { line: u64 },
    /// The plan file could not be read.
    Unread,
    /// The console's source failed.
    ReadFault,
    /// The console's sink failed.
    WriteFault,
    /// The store of this node failed as it was taken or opened, or is not empty.
    Store { node: u8 },
    /// Memory ran out.
    NoMemory,
    /// A door could not be opened, or failed.
    Doors,
}

// How it ends where the console ended so, and all doors were quiet.
fn ending_at(console: ConsoleEnd) -> ServeEnd
    ensures { result ≡ ending_at console }
{
    match console {
        ConsoleEnd::Stopped => ServeEnd::Done,
        ConsoleEnd::Early { line } => ServeEnd::Early { line },
        ConsoleEnd::ReadFault => ServeEnd::ReadFault,
        ConsoleEnd::WriteFault => ServeEnd::WriteFault,
        ConsoleEnd::NoMemory => ServeEnd::NoMemory,
    }
}

// How it ends where the doors and the console ended so.
fn ending_with(console: ConsoleEnd, doors: DoorEnd) -> ServeEnd
    ensures { result ≡ ending_with console doors }
{
    match doors {
        DoorEnd::Quiet => ending_at(console),
        DoorEnd::Failed => ServeEnd::Doors,
        DoorEnd::NoMemory => ServeEnd::NoMemory,
    }
}

impl ServeEnd {
    /// How it ends where the service ended so.
    pub(crate) fn of(end: ServiceEnd) -> ServeEnd
        ensures { result ≡ ending_of end }
    {
        match end {
            ServiceEnd::Served { console, doors } => ending_with(console, doors),
            ServiceEnd::Unopened => ServeEnd::Doors,
            ServiceEnd::NoMemory => ServeEnd::NoMemory,
        }
    }

    /// How it ends where no plan was read.
    pub(crate) fn unread(fault: PlanFault) -> ServeEnd
        ensures { result ≡ ending_unread fault }
    {
        match fault {
            PlanFault::Broken { rule } => ServeEnd::Broken { rule },
            PlanFault::Unread => ServeEnd::Unread,
            PlanFault::NoMemory => ServeEnd::NoMemory,
        }
    }

    /// How it ends where not all stores are there.
    pub(crate) fn untaken(fault: TakeFault) -> ServeEnd
        ensures { result ≡ ending_untaken fault }
    {
        match fault {
            TakeFault::Store(node) => ServeEnd::Store { node },
            TakeFault::NoMemory => ServeEnd::NoMemory,
        }
    }

    /// How it ends where the cluster is not opened.
    pub(crate) fn unopened(fault: &OpenFault) -> ServeEnd
        ensures { result ≡ ending_unopened fault.now }
    {
        match fault {
            OpenFault::DiskFault(node) => ServeEnd::Store {
                node: node.number(),
            },
            OpenFault::NoMemory => ServeEnd::NoMemory,
        }
    }

    /// The exit status.
    pub fn status(self) -> u8
        ensures { result ≡ status_of self }
    {
        match self {
            ServeEnd::Done => 0,
            ServeEnd::Broken { .. } => 2,
            ServeEnd::Early { .. } => 3,
            ServeEnd::Unread | ServeEnd::ReadFault => 4,
            ServeEnd::WriteFault => 5,
            ServeEnd::Store { .. } => 6,
            ServeEnd::NoMemory => 7,
            ServeEnd::Doors => 8,
        }
    }

    // The last line with its LF; nothing where there is none.
    fn last_line(self, alloc: Global) -> Result<String, AllocError>
        ensures { IfOk result (λ line. string_bytes line ≡ line_of self) }
    {
        match self {
            ServeEnd::Done | ServeEnd::WriteFault | ServeEnd::NoMemory => Ok(String::new(alloc)),
            ServeEnd::Broken { rule } => format!(in alloc; "! plan {rule}\n"),
            ServeEnd::Early { line } => format!(in alloc; "! line {line} BadLine\n"),
            ServeEnd::Unread | ServeEnd::ReadFault => String::from_str(alloc, "! read\n"),
            ServeEnd::Store { node } => format!(in alloc; "! disk 0 {node}\n"),
            ServeEnd::Doors => String::from_str(alloc, "! doors\n"),
        }
    }
}

/// Writes the last line, and answers the status.
pub(crate) fn finish<K: Sink>(alloc: Global, sink: &mut K, ending: ServeEnd) -> u8
    ensures finished { Finishes (K.contents sink.old) (K.contents sink.new) ending result }
    ensures later { K.faults sink.old ≤ K.faults sink.new }
    ensures failed { result ≡ 5 → (ending ≡ ends.WriteFault) ⊎ Rose (K.faults sink.old) (K.faults sink.new) }
{
    let Ok(line) = ending.last_line(alloc) else {
        return 7;
    };
    match write_all(sink, line.as_bytes()) {
        Ok(()) => ending.status(),
        Err(_) => 5,
    }
}
