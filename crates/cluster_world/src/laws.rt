//! What follows for whoever drives a world, however its steps are ordered.
ghost use Rattle.node_store.specs.Disks.{view_of};
ghost use Rattle.cluster_world.specs.Chains.{MakesMore, StepsAreCounted, PlanStays, LaterAfter};
ghost use Rattle.cluster_world.specs.Owing.{WorldOwes, NonePending};
ghost use Rattle.cluster_world.specs.Lasting.{PendingHasLetter, ConfirmedInEveryImage};
ghost use Rattle.cluster_world.specs.Wholes.{WorldIsWhole, OneMapPerEpoch};
ghost use Rattle.cluster_world.specs.Settling.{RestIsSettled};
ghost use Rattle.cluster_world.specs.Rests.{RestsRight, SettledMapsAreRight, OpeningIsAtRest};

use io_edge::Disk;

/// Steps and one more are steps.
pub fn makes_more<D: Disk>()
    ensures { MakesMore (view_of D.seen D.faults D.clock) }
{}

/// Each step was counted, and nothing else was.
pub fn steps_are_counted<D: Disk>()
    ensures { StepsAreCounted (view_of D.seen D.faults D.clock) }
{}

/// The plan stays, the disks stay as many, and tell what they hold as before.
pub fn plan_stays<D: Disk>()
    ensures { PlanStays (view_of D.seen D.faults D.clock) }
{}

/// The count of faults of no disk falls.
pub fn later_after<D: Disk>()
    ensures { LaterAfter (view_of D.seen D.faults D.clock) }
{}

/// A world has what a cluster owes of the calls that it was asked and of those that it answered.
pub fn world_owes<D: Disk>()
    ensures { WorldOwes (view_of D.seen D.faults D.clock) }
{}

/// In a plan of one node no call waits.
pub fn none_pending<D: Disk>()
    ensures { NonePending (view_of D.seen D.faults D.clock) }
{}

/// A ticket that is pending has a letter of its own in flight.
pub fn pending_has_letter<D: Disk>()
    ensures { PendingHasLetter (view_of D.seen D.faults D.clock) }
{}

/// Whatever a stop of the machine leaves at any moment of a step has what was confirmed.
pub fn confirmed_in_every_image<D: Disk>()
    ensures { ConfirmedInEveryImage (view_of D.seen D.faults D.clock) }
{}

/// A world that was driven stands for a sound one of the whole machine.
pub fn world_is_whole<D: Disk>()
    ensures { WorldIsWhole (view_of D.seen D.faults D.clock) }
{}

/// All memberships of one epoch are equal.
pub fn one_map_per_epoch<D: Disk>()
    ensures { OneMapPerEpoch (view_of D.seen D.faults D.clock) }
{}

/// A world is at rest exactly where its latest epoch is settled and no letter is in flight, whatever its disks tell.
pub fn rest_is_settled<D: Disk>()
    ensures { RestIsSettled D }
{}

/// A world that stands for a sound one of the whole machine and is at rest has right maps.
pub fn rests_right<D: Disk>()
    ensures { RestsRight (view_of D.seen D.faults D.clock) }
{}

/// So has one that was driven and is at rest.
pub fn settled_maps_are_right<D: Disk>()
    ensures { SettledMapsAreRight (view_of D.seen D.faults D.clock) }
{}

/// Where a cluster opens, it is at rest.
pub fn opening_is_at_rest<D: Disk>()
    ensures { OpeningIsAtRest (view_of D.seen D.faults D.clock) }
{}
