// What a group can be concluded to: functions that do nothing, whose contracts hold of the definitions alone.
ghost use Rattle.node_maps.specs.Laws.{OneConclusion, GroupsConclude};

/// Whatever a group is concluded to, it is the same: members, map, rows, which of them are due, and letters.
pub fn one_conclusion()
    ensures { OneConclusion }
{}

/// A node in order whose group is open can conclude it.
pub fn groups_conclude()
    ensures { GroupsConclude }
{}
