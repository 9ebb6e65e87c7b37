// What the calls are to the machine: functions that do nothing, whose contracts hold of the definitions alone.
ghost use Rattle.map_rebuild.specs.Laws.{ChangesAsMachine, TellsAsMachine, AcknowledgesAsMachine, ReportsAsMachine, InstallsAsMachine, InstallsCountAtMost, MarkedAreListed, DueAreGiven};

/// `mark_user` is the machine's change of a row whose user another node manages.
pub fn changes_as_the_machine()
    ensures { ChangesAsMachine }
{}

/// With `told` after it, it is the change of a row whose user the node manages itself.
pub fn tells_as_the_machine()
    ensures { TellsAsMachine }
{}

/// `report_acknowledged` is what the machine does with an acknowledgement.
pub fn acknowledges_as_the_machine()
    ensures { AcknowledgesAsMachine }
{}

/// Those whom `due` gives the machine may report.
pub fn reports_as_the_machine()
    ensures { ReportsAsMachine }
{}

/// Where `mark_bucket` is called for all whom an install names, and then `told` for those whom the node manages itself, the
/// marks that are left are the machine's.
pub fn installs_as_the_machine()
    ensures { InstallsAsMachine }
{}

/// An install counts at most as many marks as users are named to it.
pub fn installs_count_at_most()
    ensures { InstallsCountAtMost }
{}

/// The marked users are just those who are marked.
pub fn marked_are_listed()
    ensures { MarkedAreListed }
{}

/// Where a row is due to a manager, `due` gives some users, unless none are wanted.
pub fn due_are_given()
    ensures { DueAreGiven }
{}
