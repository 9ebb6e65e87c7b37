// Worlds in memory, and what their books say.
ghost use Rattle.std.specs.Prelude.{◌≡◌, ◌≤◌, [], length, IfOk, IfSome};
ghost use Rattle.node_store.specs.Disks.{view_of};
ghost use Rattle.cluster_world.specs.Opens.{AreEmpty};
ghost use Rattle.cluster_trials.specs.Disks.{in_memory};
ghost use Rattle.shard_board.specs.Worlds.{IsSoundWorld};

use super::mute::MuteDisk;
use super::plans::plan;
use cluster_trials::open_fresh;
use cluster_world::{BookSum, OpenFault, World};
use io_edge::Disk;
use mail_base::NodeNo;
use node_disk::MemoryDisk;
use shard_board::opened_is_sound;
use std::alloc::{AllocError, Global};
use world_book::Entry;

/// A new world of that plan, over disks in memory. Of the disk of the node `weak` this call fails; of the others none does.
pub(super) fn opened(
    alloc: Global,
    nodes: u8,
    copies: u8,
    confirm: u8,
    weak: u8,
    call: u64,
) -> Result<World<MemoryDisk>, OpenFault>
    requires some { 1 ≤ confirm }
    requires copied { confirm ≤ copies }
    requires spread { copies ≤ nodes }
    requires few { nodes ≤ 16 }
    ensures { IfOk result (λ world. IsSoundWorld in_memory world) }
{
    opened_is_sound::<MemoryDisk>();
    match open_fresh(alloc, plan(alloc, nodes, copies, confirm)?, weak, call) {
        Ok(world) => Ok(world),
        Err(fault) => Err(fault),
    }
}

/// Disks that tell nothing, of so many nodes.
pub(super) fn mute_disks(alloc: Global, nodes: u8) -> Result<Vec<MuteDisk>, AllocError>
    ensures { IfOk result (λ disks. length disks.items ≡ nodes) }
{
    if nodes == 0 {
        return Ok(Vec::new(alloc));
    }
    let mut disks = mute_disks(alloc, nodes - 1)?;
    disks.push(MuteDisk::new(alloc))?;
    Ok(disks)
}

/// A new world over these disks, each of which is to confirm each message; nothing, where memory ran out.
pub(super) fn opened_over<D: Disk + Drop>(
    alloc: Global,
    nodes: u8,
    disks: Vec<D>,
) -> Option<World<D>>
    requires some { 1 ≤ nodes }
    requires few { nodes ≤ 16 }
    requires one_each { length disks.items ≡ nodes }
    requires empty { AreEmpty D.seen disks.items }
    ensures { IfSome result (λ world. IsSoundWorld (view_of D.seen D.faults D.clock) world) }
{
    let plan = plan(alloc, nodes, nodes, nodes).ok()?;
    opened_is_sound::<D>();
    match World::open(alloc, plan, disks) {
        Ok(world) => Some(world),
        Err(_) => None,
    }
}

/// The counts of a book: copies that were acknowledged, those to be deleted, those that are, and nodes that were lost.
pub(super) fn counts(sum: &BookSum) -> [u64; 4] {
    [sum.acked, sum.struck, sum.dropped, sum.lost]
}

/// How many confirmed the entry, where it is of the first message of this node, to this user; 0 where it is another.
pub(super) fn confirmers(entry: Option<&Entry>, to: &[u8], node: u8) -> u32 {
    match entry {
        Some(
            Entry::Acked {
                user,
                id,
                confirmers,
                ..
            },
        ) => {
            if user.octets() == to && id.node().number() == node && id.seq() == 1 {
                return confirmers.mask().count_ones();
            }
            0
        }
        _ => 0,
    }
}

/// Whether the node is up.
pub(super) fn is_up(world: &World<MemoryDisk>, node: u8) -> bool {
    match NodeNo::new(node) {
        Some(node) => world.is_up(node),
        None => false,
    }
}

/// How many calls the disk of node 1 had.
pub(super) fn calls(world: World<MemoryDisk>) -> u64 {
    match world.close().first() {
        Some(disk) => disk.calls().len() as u64,
        None => 0,
    }
}
