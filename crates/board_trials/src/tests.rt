//! Boards over worlds in memory, for one thread and for several.
ghost use Rattle.std.specs.Prelude.{◌≡◌, ◌≤◌, ◌<◌, IfOk, IfSome};
ghost use Rattle.node_store.specs.Disks.{view_of};
ghost use Rattle.cluster_trials.specs.Disks.{in_memory};
ghost use Rattle.shard_board.specs.Worlds.{IsSoundWorld};
ghost use Rattle.shard_board.specs.Boards.{quota_of, passes_of, IsPassOf};

mod clients;
mod files;
mod held;
mod joins;
mod letters;
mod orders;
mod work;

use crate::fresh::plan;
use crate::lots::Lots;
use cluster_trials::open_fresh;
use cluster_world::{OpenFault, World};
use io_edge::{Disk, SetClock};
use mail_base::NodeNo;
use node_disk::MemoryDisk;
use shard_board::{Board, BoardPass, opened_is_sound};
use std::alloc::Global;

/// A board over disks in memory.
type Cluster = Board<MemoryDisk, Lots, SetClock>;

/// A pass of it.
type Pass = BoardPass<MemoryDisk, Lots, SetClock>;

/// A fate that hands each letter over once.
const CARRY: [u8; 8] = *b"........";

/// The node of this number, and node 1 where there is none.
fn node(number: u8) -> NodeNo {
    match NodeNo::new(number) {
        Some(node) => node,
        None => NodeNo::new(1).unwrap(),
    }
}

// A new world of that plan, over disks in memory.
fn opened(alloc: Global, nodes: u8, confirm: u8) -> Result<World<MemoryDisk>, OpenFault>
    requires some { 1 ≤ confirm }
    requires fits { confirm ≤ nodes }
    requires few { nodes ≤ 16 }
    ensures { IfOk result (λ world. IsSoundWorld in_memory world) }
{
    opened_is_sound::<MemoryDisk>();
    match open_fresh(alloc, plan(alloc, nodes, confirm)?, 0, 0) {
        Ok(world) => Ok(world),
        Err(fault) => Err(fault),
    }
}

// A board over the world, with this fate and a clock that stands at 12, and its one pass.
fn made<D: Disk + Drop>(
    alloc: Global,
    world: World<D>,
    lots: [u8; 8],
    passes: u32,
) -> Option<(Board<D, Lots, SetClock>, BoardPass<D, Lots, SetClock>)>
    requires sound { IsSoundWorld (view_of D.seen D.faults D.clock) world }
    requires passes { 0 < passes }
    ensures belongs { IfSome result (λ made. IsPassOf (view_of D.seen D.faults D.clock) made.0 made.1) }
    ensures quota { IfSome result (λ made. (quota_of made.1 ≡ passes) × (passes_of made.0 ≡ passes)) }
{
    match Board::new(
        alloc,
        world,
        Lots::new(lots),
        SetClock { seconds: 12 },
        passes,
    ) {
        Ok(made) => Some(made),
        Err(_) => None,
    }
}

// What a digit counts.
fn count(digit: u8) -> u8 {
    match digit {
        b'0'..=b'9' => digit - b'0',
        _ => 0,
    }
}

// The digit of a count, and `+` of one that has none.
fn digit(count: u64) -> u8 {
    if count < 10 {
        return b'0' + count as u8;
    }
    b'+'
}
