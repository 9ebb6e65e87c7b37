// The laws of the machine: functions that do nothing, whose contracts hold of the definitions alone.
ghost use Rattle.login_model.specs.Laws.{MovesKeepSound, LoginsKnow, FetchesKnow, AwaitedFly};
ghost use Rattle.login_model.specs.Beside.{BesideKeepsSound};
ghost use Rattle.login_model.specs.Listing.{FreshListsStanding, StillIsFresh};
ghost use Rattle.login_model.specs.Putting.{PutsMayMove};
ghost use Rattle.login_model.specs.Progress.{PendingWaits, MishapEndsWait, ListsAreAll, FailuresCount, ChancesFall};
ghost use Rattle.login_model.specs.NodeLaws.{NodesHear, NodesLogIn, NodesFetch, NodesBefall, NodesEnd, NodesGiveUp, NodesLeave, NodesDoOther, NodesFall, NodesStart, OpeningIsSound, RulesGoOut, LostMayMove, LateMayMove, HeardMayMove};

/// Whatever moves are made, a sound cluster stays sound.
pub fn moves_keep_sound()
    ensures { MovesKeepSound }
{}

/// A step in which calls that read do nothing keeps a sound cluster sound, whatever its nodes do in it.
pub fn beside_keeps_sound()
    ensures { BesideKeepsSound }
{}

/// What a login was told was true at a moment since it began.
pub fn logins_know()
    ensures { LoginsKnow }
{}

/// The part that a fetch was told was true at a moment since the fetch began.
pub fn fetches_know()
    ensures { FetchesKnow }
{}

/// Whoever is waited for has a letter of the ticket in flight.
pub fn awaited_fly()
    ensures { AwaitedFly }
{}

/// A login that is fresh in a settled epoch lists exactly what stands.
pub fn fresh_lists_standing()
    ensures { FreshListsStanding }
{}

/// What a node does with a letter of a call that reads is an act.
pub fn nodes_hear()
    ensures { NodesHear }
{}

/// What a node does as a login begins is an act.
pub fn nodes_log_in()
    ensures { NodesLogIn }
{}

/// What a node does as a fetch begins is an act.
pub fn nodes_fetch()
    ensures { NodesFetch }
{}

/// That a node notes a mishap is an act.
pub fn nodes_befall()
    ensures { NodesBefall }
{}

/// That a node takes out a ticket that is answered is an act.
pub fn nodes_end()
    ensures { NodesEnd }
{}

/// That a node gives up a ticket is an act.
pub fn nodes_give_up()
    ensures { NodesGiveUp }
{}

/// That a node gives the lock of a login back, at the end of the session, is an act.
pub fn nodes_leave()
    ensures { NodesLeave }
{}

/// All that a node does for messages, membership and maps is an act, as it leaves the tickets of calls that read alone.
pub fn nodes_do_other()
    ensures { NodesDoOther }
{}

/// That a node goes down or is lost is an act.
pub fn nodes_fall()
    ensures { NodesFall }
{}

/// That a node starts, in a later boot and without tickets, is an act.
pub fn nodes_start()
    ensures { NodesStart }
{}

/// A cluster that opens is sound.
pub fn opening_is_sound()
    ensures { OpeningIsSound }
{}

/// All letters that a node sends for calls that read go to other nodes.
pub fn rules_go_out()
    ensures { RulesGoOut }
{}

/// After moves that change at most tickets, each ticket that began since is fresh.
pub fn still_is_fresh()
    ensures { StillIsFresh }
{}

/// Where a mishap befalls a letter, the node of its ticket may note that, and the letter is then taken out.
pub fn lost_may_move()
    ensures { LostMayMove }
{}

/// A letter whose ticket stands no more may be taken out, with nothing noted.
pub fn late_may_move()
    ensures { LateMayMove }
{}

/// Where a letter is heard, the node may act, and the letter is then taken out.
pub fn heard_may_move()
    ensures { HeardMayMove }
{}

/// A ticket that is pending waits for somebody.
pub fn pending_waits()
    ensures { PendingWaits }
{}

/// Whoever a mishap befell is waited for no more, so no holder is asked twice in a row.
pub fn mishap_ends_wait()
    ensures { MishapEndsWait }
{}

/// A login that is done with a listing has the lists of all nodes that were named.
pub fn lists_are_all()
    ensures { ListsAreAll }
{}

/// That letters are put in flight, some of them with mishaps, is made of moves.
pub fn puts_may_move()
    ensures { PutsMayMove }
{}

/// A call that failed counts a mishap at least.
pub fn failures_count()
    ensures { FailuresCount }
{}

/// Each letter that a mishap sends for a call takes a chance of the call away, so that mishaps send no more letters than it had
/// chances.
pub fn chances_fall()
    ensures { ChancesFall }
{}
