// What the calls are to the machine: functions that do nothing, whose contracts hold of the definitions alone.
ghost use Rattle.membership.specs.Laws.{StartsAsRuled, GroupAsRuled, JoinAsRuled, LateAsRuled, ConcludeAsRuled, InstallAsRuled, RefusalAsRuled};

/// A group that starts is the rule's.
pub fn starts_as_ruled()
    ensures { StartsAsRuled }
{}

/// So is a Group that is heard or old,
pub fn group_as_ruled()
    ensures { GroupAsRuled }
{}

/// a Join that is heard,
pub fn join_as_ruled()
    ensures { JoinAsRuled }
{}

/// a Join that is late,
pub fn late_as_ruled()
    ensures { LateAsRuled }
{}

/// a group that is concluded,
pub fn conclude_as_ruled()
    ensures { ConcludeAsRuled }
{}

/// an Install that is heard,
pub fn install_as_ruled()
    ensures { InstallAsRuled }
{}

/// and one that is refused.
pub fn refusal_as_ruled()
    ensures { RefusalAsRuled }
{}
