// What holds of every assignment: functions that do nothing, whose contracts hold of the definitions alone.
ghost use Rattle.user_map.specs.Laws.{SomeMap};

/// A map is assigned to any claims, where there is a member.
pub fn some_map()
    ensures { SomeMap }
{}
