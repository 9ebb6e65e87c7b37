//! Empty disks in memory, and a cluster over them.
ghost use Rattle.std.specs.Prelude.{◌≡◌, [], length, IfOk};
ghost use Rattle.cluster_world.specs.Opens.{CanBeOpened, AreEmpty, IsAtBeginning};
ghost use Rattle.cluster_trials.specs.Disks.{octets_told, in_memory};

use cluster_world::{OpenFault, World};
use mail_base::Plan;
use node_disk::MemoryDisk;
use std::alloc::{AllocError, Global};

/// An empty disk, of which this call fails.
fn fresh_disk(alloc: Global, call: u64) -> Result<MemoryDisk, AllocError>
    ensures { IfOk result (λ disk. disk.held.octets.items ≡ []) }
{
    let mut disk = MemoryDisk::new(alloc);
    disk.fail_at(call)?;
    Ok(disk)
}

/// Empty disks for so many nodes, in order of node. Of the disk of the node `weak` the call of this number fails, where the
/// first call is 1; of the others none does.
///
/// # Errors
///
/// Memory ran out.
pub fn fresh_disks(
    alloc: Global,
    nodes: u8,
    weak: u8,
    call: u64,
) -> Result<Vec<MemoryDisk>, AllocError>
    ensures many { IfOk result (λ disks. length disks.items ≡ nodes) }
    ensures empty { IfOk result (λ disks. AreEmpty octets_told disks.items) }
{
    if nodes == 0 {
        return Ok(Vec::new(alloc));
    }
    let mut disks = fresh_disks(alloc, nodes - 1, weak, call)?;
    let failing = if nodes == weak { call } else { 0 };
    disks.push(fresh_disk(alloc, failing)?)?;
    Ok(disks)
}

/// A cluster of the plan over such disks.
///
/// # Errors
///
/// The disk of the node `weak` failed, or memory ran out.
pub fn open_fresh(
    alloc: Global,
    plan: Plan,
    weak: u8,
    call: u64,
) -> Result<World<MemoryDisk>, OpenFault>
    requires { CanBeOpened plan }
    ensures { IfOk result (λ world. IsAtBeginning in_memory plan world) }
{
    let disks = fresh_disks(alloc, plan.nodes, weak, call)?;
    match World::open(alloc, plan, disks) {
        Ok(world) => Ok(world),
        Err((fault, _disks)) => Err(fault),
    }
}
