//! What is said where a node did not do its work, and what the book has of it.
ghost use Rattle.std.specs.Prelude.{◌≡◌, ◌+◌, ◌≤◌, ◌<◌, ◌++◌, MatchBool};
ghost use Rattle.world_book.specs.Books.{entries_of, spare_of};
ghost use Rattle.cluster_world.specs.Installs.{installs_booked};
ghost use Rattle.cluster_world.specs.Posts.{IsEntered};
ghost use Rattle.cluster_world.specs.Unfinished.{said_of_fault, takes_down, entries_of_fault};

use crate::fault::StepFault;
use crate::step::Said;
use mail_base::NodeNo;
use node_core::NodeFault;
use world_book::{Book, Entry};

/// What is said where a node did not do its work.
pub(crate) fn said_of(node: NodeNo, fault: NodeFault) -> Result<Said, StepFault>
    ensures { result ≡ said_of_fault node fault }
{
    match fault {
        NodeFault::Disk => Ok(Said::Faulted(node)),
        NodeFault::Worn => Err(StepFault::Worn),
        NodeFault::NoMemory { down: true } => Err(StepFault::NoMemory { down: Some(node) }),
        NodeFault::NoMemory { down: false } => Err(StepFault::NoMemory { down: None }),
    }
}

/// Whether a node goes down by it.
pub(crate) fn takes_down(fault: NodeFault) -> bool
    ensures { result ≡ takes_down fault }
{
    match fault {
        NodeFault::Disk => true,
        NodeFault::Worn => false,
        NodeFault::NoMemory { down } => down,
    }
}

/// The book has that the node went down. It takes no memory.
pub(crate) fn enter_fall(book: &mut Book, node: NodeNo)
    requires room { 0 < spare_of book.old }
    ensures { IsEntered node book.old book.new }
{
    book.add(Entry::Down { node });
}

/// The book has it where the node went down.
pub(crate) fn note_fall(book: &mut Book, node: NodeNo, fault: NodeFault)
    requires room { 0 < spare_of book.old }
    ensures { MatchBool (takes_down fault) (IsEntered node book.old book.new) (book.new ≡ book.old) }
{
    if takes_down(fault) {
        enter_fall(book, node);
    }
}

/// What is said where a node did not do its work. The book has it, where the node went down.
pub(crate) fn tell_fault(book: &mut Book, node: NodeNo, fault: NodeFault) -> Result<Said, StepFault>
    requires room { 0 < spare_of book.old }
    ensures said { result ≡ said_of_fault node fault }
    ensures entries { entries_of book.new ≡ entries_of book.old ++ entries_of_fault node fault }
    ensures installs { installs_booked book.new ≡ installs_booked book.old }
    ensures spare { spare_of book.old ≤ spare_of book.new + 1 }
{
    note_fall(book, node, fault);
    said_of(node, fault)
}
