// The stores of a plan's nodes: taken from the yard in order of node, and given back so.
ghost use Rattle.std.specs.Prelude.{◌≡◌, ◌<◌, ◌≤◌, ◌+◌, List, [], true, false, length, vec_len, vec_capacity, MatchBool};
ghost use Rattle.yard_stores.specs.Taken.{with_all, numbered_stores, TellsAll, TakesSo, TakesOne, Looked, DiskFailed};

use io_edge::{Disk, Yard, YardRefusal};

/// Why not all stores are there.
#[derive(Clone, Copy, Debug, PartialEq, Eq)]
pub enum TakeFault {
    /// The yard failed at the store of this node, or that store failed or is not empty.
    Store(u8),
    /// Memory ran out.
    NoMemory,
}

// Whether the disk is empty. It may fail, and is then not said to be.
fn is_empty<D: Disk>(disk: &mut D) -> bool
    ensures same { D.seen disk.new ≡ D.seen disk.old }
    ensures looked { MatchBool result (Looked D.seen D.faults disk.old disk.new) (DiskFailed D.seen D.faults disk.old disk.new) }
{
    match disk.len() {
        Ok(0) => true,
        Ok(_) => false,
        Err(_) => false,
    }
}

// Takes the store of this node, and looks whether it is empty. It is put with the others where it was handed out.
fn take_one<Y: Yard>(
    yard: &mut Y,
    folder: &str,
    node: u8,
    disks: &mut Vec<Y::Store>,
) -> Result<(), TakeFault>
    requires room { vec_len disks.old < vec_capacity disks.old }
    ensures taken { TakesOne Y.Store.seen Y.Store.faults node (Y.faults yard.old) (Y.faults yard.new) (Y.handed yard.old) (Y.handed yard.new) disks.old.items disks.new.items result }
    ensures returned { Y.returned yard.new ≡ Y.returned yard.old }
    ensures capacity { vec_capacity disks.new ≡ vec_capacity disks.old }
    ensures opened { Y.opened yard.new ≡ Y.opened yard.old }
    ensures closed { Y.closed yard.new ≡ Y.closed yard.old }
    ensures unread { Y.unread yard.new ≡ Y.unread yard.old }
    ensures unopened { Y.unopened yard.new ≡ Y.unopened yard.old }
    ensures later { Y.faults yard.old ≤ Y.faults yard.new }
{
    let mut disk = match yard.store(0, node, folder) {
        Ok(disk) => disk,
        Err(YardRefusal::Failed) => return Err(TakeFault::Store(node)),
        Err(YardRefusal::NoMemory) => return Err(TakeFault::NoMemory),
    };
    let empty = is_empty(&mut disk);
    disks.push_reserved(disk);
    if empty {
        Ok(())
    } else {
        Err(TakeFault::Store(node))
    }
}

/// Takes the store of each node in the folder, in order, and looks whether it is empty. On a refusal those that were taken are
/// there.
pub fn take_stores<Y: Yard>(
    yard: &mut Y,
    folder: &str,
    nodes: u8,
    disks: &mut Vec<Y::Store>,
) -> Result<(), TakeFault>
    requires none { disks.old.items ≡ [] }
    requires few { nodes ≤ 16 }
    requires room { nodes ≤ vec_capacity disks.old }
    ensures taken { (taken : List Y.Store) × (Y.handed yard.new ≡ with_all (Y.handed yard.old) (numbered_stores 1 taken))
        × TakesSo Y.Store.seen Y.Store.faults nodes (Y.faults yard.old) (Y.faults yard.new) taken disks.new.items result }
    ensures returned { Y.returned yard.new ≡ Y.returned yard.old }
    ensures few { length disks.new.items ≤ nodes }
    ensures opened { Y.opened yard.new ≡ Y.opened yard.old }
    ensures closed { Y.closed yard.new ≡ Y.closed yard.old }
    ensures unread { Y.unread yard.new ≡ Y.unread yard.old }
    ensures unopened { Y.unopened yard.new ≡ Y.unopened yard.old }
    ensures later { Y.faults yard.old ≤ Y.faults yard.new }
{
    let mut node: u8 = 1;
    while node <= nodes {
        take_one(yard, folder, node, disks)?;
        node += 1;
    }
    Ok(())
}

/// Gives all of them back, in order of node.
pub fn give_back_all<Y: Yard>(yard: &mut Y, disks: Vec<Y::Store>)
    requires few { length disks.items ≤ 16 }
    ensures returned { TellsAll (Y.returned yard.old) (Y.returned yard.new) (numbered_stores 1 disks.items) }
    ensures handed { Y.handed yard.new ≡ Y.handed yard.old }
    ensures faults { Y.faults yard.new ≡ Y.faults yard.old }
    ensures opened { Y.opened yard.new ≡ Y.opened yard.old }
    ensures closed { Y.closed yard.new ≡ Y.closed yard.old }
    ensures unread { Y.unread yard.new ≡ Y.unread yard.old }
    ensures unopened { Y.unopened yard.new ≡ Y.unopened yard.old }
{
    let mut node: u8 = 1;
    for disk in disks {
        yard.give_back(0, node, disk);
        node += 1;
    }
}
