// The laws of a whole world.
ghost use Rattle.whole_world.specs.Laws.{StepsKeep};
ghost use Rattle.whole_world.specs.Seen.{MailSees, MessagesSeeSteps};
ghost use Rattle.whole_world.specs.Worked.{OneNodeRegroups};
ghost use Rattle.whole_world.specs.Epochs.{EpochsBegin, BeginsAnew, PostIsWorn, StaleChangesNothing};
ghost use Rattle.whole_world.specs.First.{FirstStands, FirstIsCharted, FirstIsSettled};
ghost use Rattle.whole_world.specs.Reporting.{FirstDueAreFound, FirstDueAreOne, ReportsGo, ReportsAreOne};
ghost use Rattle.whole_world.specs.Sweeps.{QuietIsSettled, PushIsAcked, AckClears, StepsChart, OpeningIsCharted, SweepsStay, SweepsSend, SweepIsWorn, FlowsStay, FlowsBringNoEpoch, SettleSettles};
ghost use Rattle.whole_world.specs.Regroup.{RegroupForms};
ghost use Rattle.whole_world.specs.Settled.{OpeningStands, OneMapPerEpoch, PromisesStand, MapsNameFragments, HoldsHere, MembersAgree};

/// Whatever steps are made, both invariants stay.
pub fn steps_keep()
    ensures { StepsKeep }
{}

/// Messages see each step as the very same step of theirs, or as a Form.
pub fn mail_sees()
    ensures { MailSees }
{}

/// Whatever steps are made, messages see that steps of theirs are made.
pub fn messages_see_steps()
    ensures { MessagesSeeSteps }
{}

/// Both invariants hold before a cluster opens over empty disks.
pub fn opening_stands()
    ensures { OpeningStands }
{}

/// Both invariants hold where a cluster opens in its first epoch.
pub fn first_stands()
    ensures { FirstStands }
{}

/// The first epoch is settled where a cluster opens in it.
pub fn first_is_settled()
    ensures { FirstIsSettled }
{}

/// In it, too, no row is due at a node that manages the user itself, and each epoch has a manager for each bucket.
pub fn first_is_charted()
    ensures { FirstIsCharted }
{}

/// Whoever goes through the marked users in order of names finds the first that are due to a manager.
pub fn first_due_are_found()
    ensures { FirstDueAreFound }
{}

/// The first users that are due to a manager are one list.
pub fn first_due_are_one()
    ensures { FirstDueAreOne }
{}

/// A Report sends something, finds nothing due, or is refused.
pub fn reports_go()
    ensures { ReportsGo }
{}

/// What a Report comes to is one thing alone.
pub fn reports_are_one()
    ensures { ReportsAreOne }
{}

/// All memberships of one epoch are equal.
pub fn one_map_per_epoch()
    ensures { OneMapPerEpoch }
{}

/// What a node has installed is at most its promise, which is on its disk.
pub fn promises_stand()
    ensures { PromisesStand }
{}

/// In a settled epoch a manager names exactly the members that have a copy of the user here.
pub fn maps_name_fragments()
    ensures { MapsNameFragments }
{}

/// That a disk holds something of a user means that it says Here of some copy.
pub fn holds_here()
    ensures { HoldsHere }
{}

/// In a settled epoch members that are targets of a state say it alike.
pub fn members_agree()
    ensures { MembersAgree }
{}

/// A node that regroups forms an epoch of just the nodes that are up.
pub fn regroup_forms()
    ensures { RegroupForms }
{}

/// Where nothing is due between members, the epoch is settled.
pub fn quiet_is_settled()
    ensures { QuietIsSettled }
{}

/// A push is acknowledged whatever its receiver holds.
pub fn push_is_acked()
    ensures { PushIsAcked }
{}

/// The acknowledgement of a push takes the receiver out of the entry.
pub fn ack_clears()
    ensures { AckClears }
{}

/// Every step keeps it that no row is due at a node that manages the user itself, and that each epoch has a manager for each bucket.
pub fn steps_chart()
    ensures { StepsChart }
{}

/// Before a cluster opens, no row is due at a node that manages the user itself, and each epoch has a manager for each bucket.
pub fn opening_is_charted()
    ensures { OpeningIsCharted }
{}

/// Sweeps leave no letter in flight, and each node's boot and epoch stay; so who was live is live.
pub fn sweeps_stay()
    ensures { SweepsStay }
{}

/// A sweep sends letters, or the epoch was settled.
pub fn sweeps_send()
    ensures { SweepsSend }
{}

/// A node has no epoch until it hears an Install that names its boot, or concludes a group of its own.
pub fn epochs_begin()
    ensures { EpochsBegin }
{}

/// Once a cluster is opened its numbers and its book begin anew.
pub fn begins_anew()
    ensures { BeginsAnew }
{}

/// A post of a letter that is in flight is refused as worn, or not at all.
pub fn post_is_worn()
    ensures { PostIsWorn }
{}

/// In an empty flight a push that fits and a report are refused as worn, or not at all.
pub fn sweep_is_worn()
    ensures { SweepIsWorn }
{}

/// A letter of another epoch changes nothing at its receiver, but for what is done where the letter's ticket stands.
pub fn stale_changes_nothing()
    ensures { StaleChangesNothing }
{}

/// Once all letters are posted, who was live in an epoch is live, where no Install was of a later one.
pub fn flows_stay()
    ensures { FlowsStay }
{}

/// What is known of epochs once all letters are posted was known before.
pub fn flows_bring_no_epoch()
    ensures { FlowsBringNoEpoch }
{}

/// A settling leaves the epoch settled, with no letter in flight.
pub fn settle_settles()
    ensures { SettleSettles }
{}

/// A worked case: one node starts over an empty disk, and regroups.
pub fn one_node_regroups()
    ensures { OneNodeRegroups }
{}
