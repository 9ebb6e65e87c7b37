// The laws of such worlds: functions that do nothing, whose contracts hold of the definitions alone.
ghost use Rattle.joint_world.specs.Seen.{WholeSees, WholeSeesAll};
ghost use Rattle.joint_world.specs.First.{FirstStands};
ghost use Rattle.joint_world.specs.Told.{ListedIsKept, PartIsKept};
ghost use Rattle.joint_world.specs.Subjects.{SubjectBegins, SubjectStays, SubjectIsShown};
ghost use Rattle.joint_world.specs.Ending.{PutsEnd, RulesSendForOne, PutsKeepWhole};
ghost use Rattle.joint_world.specs.Laws.{StepsKeep, StandsIsSound, PendingHasLetter};

/// Whatever steps are made and whatever comes of them, all that stands goes on standing, with a story of slots that grows.
pub fn steps_keep()
    ensures { StepsKeep }
{}

/// All stands in a cluster that opens in its first epoch.
pub fn first_stands()
    ensures { FirstStands }
{}

/// What stands is sound as a cluster of all three machines.
pub fn stands_is_sound()
    ensures { StandsIsSound }
{}

/// The whole machine sees each step as the very same step of its own.
pub fn whole_sees()
    ensures { WholeSees }
{}

/// It sees a chain of steps as the same chain.
pub fn whole_sees_all()
    ensures { WholeSeesAll }
{}

/// A call that reads of which no letter flies is done.
pub fn pending_has_letter()
    ensures { PendingHasLetter }
{}

/// Each message that a login was told is on the disk of the node that told it.
pub fn listed_is_kept()
    ensures { ListedIsKept }
{}

/// A part that a fetch was told is of octets that the disk of the node that told it has.
pub fn part_is_kept()
    ensures { PartIsKept }
{}

/// Once a call that reads has begun, its ticket reads the call's subject.
pub fn subject_begins()
    ensures { SubjectBegins }
{}

/// A ticket reads that subject as long as it stands.
pub fn subject_stays()
    ensures { SubjectStays }
{}

/// What an ask says that such a call found is of that subject, and on disks.
pub fn subject_is_shown()
    ensures { SubjectIsShown }
{}

/// Letters of a call are all put in flight, or lost, within so many looks.
pub fn puts_end()
    ensures { PutsEnd }
{}

/// What each rule sends is of one ticket, or of none.
pub fn rules_send_for_one()
    ensures { RulesSendForOne }
{}

/// As letters are put in flight, no node changes but for its tickets of calls that read, and locks.
pub fn puts_keep_whole()
    ensures { PutsKeepWhole }
{}
