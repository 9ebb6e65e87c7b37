// The laws of what is shown of members: functions that do nothing, whose contracts hold of the definitions alone.
ghost use Rattle.shown_members.specs.Shown.{StepsShow, AllStepsShow, FirstShows, RegroupShows, SettledIsShown, StepsNumber};

/// A step that forms no epoch keeps it that the nodes have installed this membership, or none.
pub fn steps_show()
    ensures { StepsShow }
{}

/// So does any number of steps of which none forms an epoch, whatever comes of them.
pub fn all_steps_show()
    ensures { AllStepsShow }
{}

/// A cluster that opens in its first epoch has that epoch.
pub fn first_shows()
    ensures { FirstShows }
{}

/// Once a node has regrouped the cluster has the epoch that was told, with the members that were told.
pub fn regroup_shows()
    ensures { RegroupShows }
{}

/// An epoch that is settled is the one that the cluster has.
pub fn settled_is_shown()
    ensures { SettledIsShown }
{}

/// No step leaves a letter in flight with a number above the last.
pub fn steps_number()
    ensures { StepsNumber }
{}
