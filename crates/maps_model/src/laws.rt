// The laws of the machine: functions that do nothing, whose contracts hold of the definitions alone.
ghost use Rattle.maps_model.specs.Laws.{MovesKeepSound, OneMembership, NamedAreFragments};
ghost use Rattle.maps_model.specs.RowLaws.{InOneEpoch, ManagerBehind, ManagerAhead, ManagerDrops};
ghost use Rattle.maps_model.specs.RoundLaws.{RoundClears, NodesJoin, JoinsAdd, MembersEnter};
ghost use Rattle.maps_model.specs.NodeLaws.{NodesHear, NodesGroup, NodesConclude, NodesChange, NodesReport, NodesFault, NodesFall, NodesStart, NodesCanEnter, OneMap, OpeningIsSound};

/// Whatever moves are made, a sound cluster stays sound.
pub fn moves_keep_sound()
    ensures { MovesKeepSound }
{}

/// All memberships of one epoch are equal.
pub fn one_membership()
    ensures { OneMembership }
{}

/// In a settled epoch the manager of a user names exactly the members that hold a message of it.
pub fn named_are_fragments()
    ensures { NamedAreFragments }
{}

/// What a node does with a letter is an act of the machine.
pub fn nodes_hear()
    ensures { NodesHear }
{}

/// So is how it opens a group,
pub fn nodes_group()
    ensures { NodesGroup }
{}

/// and concludes it,
pub fn nodes_conclude()
    ensures { NodesConclude }
{}

/// how it comes to hold a message of a user or none,
pub fn nodes_change()
    ensures { NodesChange }
{}

/// and reports.
pub fn nodes_report()
    ensures { NodesReport }
{}

/// Whatever it does, a fault of its disk may cut it.
pub fn nodes_fault()
    ensures { NodesFault }
{}

/// A node goes down or is lost,
pub fn nodes_fall()
    ensures { NodesFall }
{}

/// and starts again.
pub fn nodes_start()
    ensures { NodesStart }
{}

/// A cluster that opens is sound.
pub fn opening_is_sound()
    ensures { OpeningIsSound }
{}

/// Where a node and the manager of a user are in one epoch, the manager's row and the letters that tell it agree with what the node says.
pub fn in_one_epoch()
    ensures { InOneEpoch }
{}

/// Where the manager is still in the epoch from which both come, and will keep the row, that row agrees.
pub fn manager_behind()
    ensures { ManagerBehind }
{}

/// Where the manager has gone ahead and has kept it, it agrees too.
pub fn manager_ahead()
    ensures { ManagerAhead }
{}

/// Where the manager will drop it, the node marks each user of whom it holds a message.
pub fn manager_drops()
    ensures { ManagerDrops }
{}

/// Whoever is named in its boot can enter an epoch.
pub fn nodes_can_enter()
    ensures { NodesCanEnter }
{}

/// One map is assigned to the same claims, members and buckets.
pub fn one_map()
    ensures { OneMap }
{}

/// A round of a Report and its acknowledgement clears the mark.
pub fn round_clears()
    ensures { RoundClears }
{}

/// A node that has promised no such epoch yet joins a group,
pub fn nodes_join()
    ensures { NodesJoin }
{}

/// its Join is added to a group that is open,
pub fn joins_add()
    ensures { JoinsAdd }
{}

/// and whoever has promised just that epoch and is named enters it.
pub fn members_enter()
    ensures { MembersEnter }
{}
