// Laws over the definitions.
ghost use Rattle.object_model.specs.Laws.{JoinsCommute, JoinsAssociate, JoinsRepeat, JoinIsMerge, OneJoin, GoneStays, SaysJoin, ClearsThatStateAlone, OwesTargets, LeavesOtherKeys};

/// Two states have one join in either order.
pub fn joins_commute()
    ensures { JoinsCommute }
{}

/// Three states have one join, however they are put together.
pub fn joins_associate()
    ensures { JoinsAssociate }
{}

/// A state that is joined to itself stays as it is.
pub fn joins_repeat()
    ensures { JoinsRepeat }
{}

/// The join of states is the greatest value and stamp among them, with the targets of all.
pub fn join_is_merge()
    ensures { JoinIsMerge }
{}

/// The same states in any order, and each any number of times, have one join.
pub fn one_join()
    ensures { OneJoin }
{}

/// A copy that is gone stays gone, whatever state of it comes.
pub fn gone_stays()
    ensures { GoneStays }
{}

/// What a disk says of a key is the join of the states that its records have of it.
pub fn says_join()
    ensures { SaysJoin }
{}

/// Whoever acknowledges another state than that of the entry changes nothing.
pub fn clears_that_state_alone()
    ensures { ClearsThatStateAlone }
{}

/// What is noted is owed to exactly the targets other than the own node.
pub fn owes_targets()
    ensures { OwesTargets }
{}

/// No step of the log changes an entry of another key.
pub fn leaves_other_keys()
    ensures { LeavesOtherKeys }
{}
