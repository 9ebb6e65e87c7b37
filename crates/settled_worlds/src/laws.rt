//! What follows for whoever drives a world that settles.
ghost use Rattle.node_store.specs.Disks.{view_of};
ghost use Rattle.settled_worlds.specs.Settled.{WorldOwesSettled};

use io_edge::Disk;

/// A world that was driven gives what it owes of its end.
pub fn world_owes_settled<D: Disk>()
    ensures { WorldOwesSettled (view_of D.seen D.faults D.clock) }
{}
