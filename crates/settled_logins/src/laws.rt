// The laws of logins behind a settled epoch: functions that do nothing, whose contracts hold of the definitions alone.
ghost use Rattle.settled_logins.specs.Settled.{ReaderStepsStand, LoginsBeginSettled, BeganStaysSettled, BeganListsStanding};
ghost use Rattle.settled_logins.specs.Laws.{SettledLoginIsShown, SettledNamesFragments, JointStepsKeepParts, JointWorldsHaveParts};

/// Steps of readers leave a settled epoch settled, and each disk as it is.
pub fn reader_steps_stand()
    ensures { ReaderStepsStand }
{}

/// A login that begins in a settled epoch is fresh.
pub fn logins_begin_settled()
    ensures { LoginsBeginSettled }
{}

/// Steps of readers leave it fresh.
pub fn began_stays_settled()
    ensures { BeganStaysSettled }
{}

/// Such a login is answered with exactly what stands on the members' disks.
pub fn began_lists_standing()
    ensures { BeganListsStanding }
{}

/// A login behind a settled epoch lists exactly what stands on the members' disks.
pub fn settled_login_is_shown()
    ensures { SettledLoginIsShown }
{}

/// In a settled epoch maps name exactly the fragments, and members agree.
pub fn settled_names_fragments()
    ensures { SettledNamesFragments }
{}

/// Whatever steps are made, the parts on deletions and on octets stay.
pub fn joint_steps_keep_parts()
    ensures { JointStepsKeepParts }
{}

/// The parts on deletions and on octets hold of every world that comes of a cluster that opens.
pub fn joint_worlds_have_parts()
    ensures { JointWorldsHaveParts }
{}
