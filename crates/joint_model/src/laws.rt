// The laws of such a cluster: functions that do nothing, whose contracts hold of the definitions alone.
ghost use Rattle.joint_model.specs.Laws.{MovesKeepSound, ReadingIsAct, ReadingMayAct, OthersMayAct};
ghost use Rattle.joint_model.specs.Fresh.{FreshListsStanding, SettledStays, SettledLoginLists, MembersAreOfPlan, GoneIsSeen, SettledNames, SettledAgree};

/// Whatever moves are made, all invariants stay.
pub fn moves_keep_sound()
    ensures { MovesKeepSound }
{}

/// What a node does for calls that read is an act for messages.
pub fn reading_is_act()
    ensures { ReadingIsAct }
{}

/// What a node does for calls that read may be done in the cluster.
pub fn reading_may_act()
    ensures { ReadingMayAct }
{}

/// What a node does otherwise may be done in the cluster, where the tickets of calls that read stay; locks may be let go.
pub fn others_may_act()
    ensures { OthersMayAct }
{}

/// A login that is fresh in a settled epoch lists exactly what stands.
pub fn fresh_lists_standing()
    ensures { FreshListsStanding }
{}

/// A settled epoch stays settled after moves that change at most tickets of calls that read.
pub fn settled_stays()
    ensures { SettledStays }
{}

/// A login that began in a settled epoch lists exactly what stands, where since then moves changed at most tickets of calls that read.
pub fn settled_login_lists()
    ensures { SettledLoginLists }
{}

/// The members of a settled epoch are nodes of the cluster.
pub fn members_are_of_plan()
    ensures { MembersAreOfPlan }
{}

/// Where the part of `gone_model` holds as messages see it, what each disk says to be gone is for all nodes.
pub fn gone_is_seen()
    ensures { GoneIsSeen }
{}

/// In a settled epoch the manager of a user names exactly the members that hold a copy.
pub fn settled_names()
    ensures { SettledNames }
{}

/// In a settled epoch a member that is a target of a state says that state too.
pub fn settled_agree()
    ensures { SettledAgree }
{}
