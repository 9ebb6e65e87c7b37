// Stores that are taken and given back, over a yard in memory.
ghost use Rattle.std.specs.Prelude.{◌≤◌};

use io_edge::{MemoryYard, PlainDisk};
use std::alloc::{AllocError, Global};
use std::process::Abort;
use std::test::Fail;
use yard_stores::{TakeFault, give_back_all, take_stores};

// So many disks, of which that of this node holds something; none does where it is 0.
fn disks(alloc: Global, count: u8, held: u8) -> Result<Vec<PlainDisk>, AllocError> {
    let mut disks = Vec::new(alloc);
    for node in 1..=count {
        let mut disk = PlainDisk::new(alloc);
        if node == held {
            disk.octets.extend_from_slice(b"mail")?;
        }
        disks.push(disk)?;
    }
    Ok(disks)
}

// Takes the stores of so many nodes from a yard of these disks, and gives back what was taken: what came of it, and how many
// were given back.
fn takes(
    rt: &impl Abort,
    yard: &mut MemoryYard<PlainDisk>,
    alloc: Global,
    nodes: u8,
    wanted: Result<(), TakeFault>,
    back: usize,
) -> Result<(), Fail>
    requires few { nodes ≤ 16 }
{
    let mut stores = Vec::with_capacity(alloc, 16)?;
    assert_eq!(rt; take_stores(yard, "", nodes, &mut stores), wanted);
    give_back_all(yard, stores);
    assert_eq!(rt; yard.returned.len(), back);
    let mut number: u8 = 0;
    for (shard, node, _) in &yard.returned {
        number = number.saturating_add(1);
        assert_eq!(rt; *shard, 0);
        assert_eq!(rt; *node, number);
    }
    Ok(())
}

// A yard of so many disks, of which one holds something.
fn yard(alloc: Global, count: u8, held: u8) -> Result<MemoryYard<PlainDisk>, AllocError> {
    Ok(MemoryYard::new(alloc, disks(alloc, count, held)?))
}

#[test]
fn each_store_is_taken_and_given_back(rt: HostRuntime) -> Result<(), Fail> {
    let alloc = rt.alloc();
    let done = Ok(());
    takes(&rt, &mut yard(alloc, 16, 0)?, alloc, 16, done, 16)?;
    takes(&rt, &mut yard(alloc, 3, 0)?, alloc, 1, done, 1)?;
    takes(&rt, &mut yard(alloc, 3, 0)?, alloc, 0, done, 0)?;
    // The yard has no store for node 3, and none for node 1; those of nodes 1 and 2 hold something.
    let third = Err(TakeFault::Store(3));
    takes(&rt, &mut yard(alloc, 2, 0)?, alloc, 3, third, 2)?;
    let second = Err(TakeFault::Store(2));
    takes(&rt, &mut yard(alloc, 3, 2)?, alloc, 3, second, 2)?;
    let first = Err(TakeFault::Store(1));
    takes(&rt, &mut yard(alloc, 0, 0)?, alloc, 1, first, 0)?;
    takes(&rt, &mut yard(alloc, 3, 1)?, alloc, 3, first, 1)
}
