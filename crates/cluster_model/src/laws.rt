// The laws of the machine: functions that do nothing, whose contracts hold of the definitions alone.
ghost use Rattle.cluster_model.specs.Laws.{MovesKeepSound, AcknowledgedStand, AcknowledgedKept, DroppedAreGone};
ghost use Rattle.cluster_model.specs.RuleLaws.{ConfirmsAfterRecords, ConfirmsAfterGone, DiskSaysMerge, TakesNothingTwice, CountsOnce, TargetsStay, StoredAtF, LeavesLogAtLast, AnswersSender, SendsInOrder, IdsAreNew, FetchedAsFiled};
ghost use Rattle.cluster_model.specs.Rows.{TwoOfThree, HeardTwiceCountsOnce, TargetsMoveOn, PushedThreeTimes, LateHereChangesNothing, GoneBeforeItCame, StartedHasNoEpoch};
ghost use Rattle.cluster_model.specs.TicketLaws.{TargetsAreEnough, TicketsBeginFair, TicketsStayFair, FailedHasCause, AllHeardIsDone};
ghost use Rattle.cluster_model.specs.ReadLaws.{ListedOnce, ListedNamed, OneListing};
ghost use Rattle.cluster_model.specs.WorldLaws.{StepsKeepSound, StepsBring, OpeningIsSound};
ghost use Rattle.cluster_model.specs.StepLaws.{PendingHasLetter, StepsKeepInMidst};
ghost use Rattle.cluster_model.specs.StepMerges.{StepsSayMerge};
ghost use Rattle.cluster_model.specs.NodeLaws.{NodesHear, NodesDeliver, NodesStrike, NodesPush, NodesWiden, NodesEnd, NodesRefuse, NodesRead, NodesNote, NodesFault, NodesFall, NodesStart, NodesStopStart, StartsOwe, NodesLearn, TakesJoin, TakesOnly};

/// Whatever moves are made, a sound cluster stays sound.
pub fn moves_keep_sound()
    ensures { MovesKeepSound }
{}

/// Each copy that was acknowledged and never struck is here with its octets on each confirmer that is not lost.
pub fn acknowledged_stand()
    ensures { AcknowledgedStand }
{}

/// Each copy whose deletion was confirmed is gone on each confirmer that is not lost.
pub fn dropped_are_gone()
    ensures { DroppedAreGone }
{}

/// What a node does with a letter is an act of the machine.
pub fn nodes_hear()
    ensures { NodesHear }
{}

/// So is how it begins a Deliver,
pub fn nodes_deliver()
    ensures { NodesDeliver }
{}

/// and a Strike,
pub fn nodes_strike()
    ensures { NodesStrike }
{}

/// how it pushes,
pub fn nodes_push()
    ensures { NodesPush }
{}

/// widens,
pub fn nodes_widen()
    ensures { NodesWiden }
{}

/// ends a ticket,
pub fn nodes_end()
    ensures { NodesEnd }
{}

/// refuses a call at once,
pub fn nodes_refuse()
    ensures { NodesRefuse }
{}

/// does something for a call that reads,
pub fn nodes_read()
    ensures { NodesRead }
{}

/// and notes a mishap.
pub fn nodes_note()
    ensures { NodesNote }
{}

/// Whatever it does, a fault of its disk may cut it.
pub fn nodes_fault()
    ensures { NodesFault }
{}

/// A node goes down or is lost,
pub fn nodes_fall()
    ensures { NodesFall }
{}

/// and starts again.
pub fn nodes_start()
    ensures { NodesStart }
{}

/// A start that its disk cuts is one, too.
pub fn nodes_stop_start()
    ensures { NodesStopStart }
{}

/// What a start finds for the log owes each state that the disk says to all other targets, unless it is retired.
pub fn starts_owe()
    ensures { StartsOwe }
{}

/// A node that hears a letter learns its stamps, and nothing else changes by that.
pub fn nodes_learn()
    ensures { NodesLearn }
{}

/// A state that is taken is joined to what the disk says, and changes nothing else.
pub fn takes_join()
    ensures { TakesJoin }
{}

/// Each copy that was acknowledged is here with its octets, or gone, on each confirmer that is not lost.
pub fn acknowledged_kept()
    ensures { AcknowledgedKept }
{}

/// What is taken changes nothing that the disk says of other keys.
pub fn takes_only()
    ensures { TakesOnly }
{}

/// Whatever steps are made, a sound world stays sound.
pub fn steps_keep_sound()
    ensures { StepsKeepSound }
{}

/// A cluster that opens over empty disks is sound.
pub fn opening_is_sound()
    ensures { OpeningIsSound }
{}

/// Whatever octets a sound world holds after a step it held before, or the step is the Deliver of that message.
pub fn steps_bring()
    ensures { StepsBring }
{}

/// A confirmation comes after the records: a node that has answered a File has each copy with its octets, or says
/// that it is gone.
pub fn confirms_after_records()
    ensures { ConfirmsAfterRecords }
{}

/// A node that has answered a Strike says that each copy is gone.
pub fn confirms_after_gone()
    ensures { ConfirmsAfterGone }
{}

/// The disk says of each key the join of what it said and of all states that were taken.
pub fn disk_says_merge()
    ensures { DiskSaysMerge }
{}

/// States that are taken again change nothing.
pub fn takes_nothing_twice()
    ensures { TakesNothingTwice }
{}

/// A confirmation counts once, however often it is heard.
pub fn counts_once()
    ensures { CountsOnce }
{}

/// Each target is confirmed, waiting or failed, and stays one of these.
pub fn targets_stay()
    ensures { TargetsStay }
{}

/// A delivery is stored exactly where F nodes have confirmed it, and has failed exactly where no F nodes are left.
pub fn stored_at_f()
    ensures { StoredAtF }
{}

/// An acknowledgement takes an entry out of the log only if it is of that very state and of the last node that remains.
pub fn leaves_log_at_last()
    ensures { LeavesLogAtLast }
{}

/// What a node sends as it hears a letter goes back to its sender under the same ticket, or has no ticket.
pub fn answers_sender()
    ensures { AnswersSender }
{}

/// The letters of a call stand in order of receiver, each receiver once, and none goes to its sender.
pub fn sends_in_order()
    ensures { SendsInOrder }
{}

/// No disk, no letter and no entry of the book has the id that a node draws next.
pub fn ids_are_new()
    ensures { IdsAreNew }
{}

/// All octets of one id, on disks and in letters, are the same.
pub fn fetched_as_filed()
    ensures { FetchedAsFiled }
{}

/// A ticket that is pending has a letter of its own in flight.
pub fn pending_has_letter()
    ensures { PendingHasLetter }
{}

/// Once a step was made, the disk of one node says the merge of what it said and of what the step made it take, and every disk
/// says of all else what it said.
pub fn steps_say_merge()
    ensures { StepsSayMerge }
{}

/// What was confirmed stands on the disks of the confirmers, also in the midst of each step.
pub fn steps_keep_in_midst()
    ensures { StepsKeepInMidst }
{}

/// A worked case: three nodes, three copies, two confirmations: the second confirmation stores the message.
pub fn two_of_three()
    ensures { TwoOfThree }
{}

/// A worked case: a confirmation that is heard twice counts once.
pub fn heard_twice_counts_once()
    ensures { HeardTwiceCountsOnce }
{}

/// A worked case: the next message has the next targets, and letters have their numbers in order of receiver.
pub fn targets_move_on()
    ensures { TargetsMoveOn }
{}

/// A worked case: a push that is heard three times empties the entry once.
pub fn pushed_three_times()
    ensures { PushedThreeTimes }
{}

/// A worked case: a Here that comes late brings no deleted copy back.
pub fn late_here_changes_nothing()
    ensures { LateHereChangesNothing }
{}

/// A worked case: a message of which a node hears first that it is deleted leaves no octets there.
pub fn gone_before_it_came()
    ensures { GoneBeforeItCame }
{}

/// A worked case: a node that started has no epoch: it throws a letter as stale, and a call there fails at once.
pub fn started_has_no_epoch()
    ensures { StartedHasNoEpoch }
{}

/// Where the epoch has F members, a delivery asks F nodes at least, and so does each item of a deletion.
pub fn targets_are_enough()
    ensures { TargetsAreEnough }
{}

/// A ticket begins with F nodes to ask, or with a mishap.
pub fn tickets_begin_fair()
    ensures { TicketsBeginFair }
{}

/// A ticket keeps the nodes that it asks, and none fails without a mishap.
pub fn tickets_stay_fair()
    ensures { TicketsStayFair }
{}

/// A call fails only where it had a mishap.
pub fn failed_has_cause()
    ensures { FailedHasCause }
{}

/// A call of which all answers were heard, with no mishap, is done and has not failed.
pub fn all_heard_is_done()
    ensures { AllHeardIsDone }
{}

/// A listing has each id once.
pub fn listed_once()
    ensures { ListedOnce }
{}

/// Where a journal can spell the records of the disk, it can spell the ids of a listing.
pub fn listed_named()
    ensures { ListedNamed }
{}

/// A user has one listing at most.
pub fn one_listing()
    ensures { OneListing }
{}
