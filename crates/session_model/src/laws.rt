// Laws over the definitions.
ghost use Rattle.session_model.specs.Calls.{EachAnswerHasReply};
ghost use Rattle.session_model.specs.Moves.{Begins, IsFed, HearsNext, IsAnswered, FallsDown, IsClosed, OneTalk};
ghost use Rattle.session_model.specs.Spoken.{SpeaksOn};
ghost use Rattle.session_model.specs.Mailing.{StoredAsTold, AsksAsTold};
ghost use Rattle.session_model.specs.Reading.{StrikesAtQuit, QuitStrikes};
ghost use Rattle.session_model.specs.Showing.{ShownAsListed};
ghost use Rattle.session_model.specs.Runs.{ActsAreShown, DrivenIsShown, DrivenWritesLines, DrivenAnswersUnits, StandingAreUp};
ghost use Rattle.session_model.specs.Losses.{LostIsShown};
ghost use Rattle.session_model.specs.Owes.{OwedDeletionsAreTrue, OwedListingsAreTrue, OwedListingsAreOwn, OwedPartsAreTrue};
ghost use Rattle.session_model.specs.Kept.{OwedIsKept};
ghost use Rattle.session_model.specs.Readings.{OneReadingOfSession, OneTelling, QuitWasSent};
ghost use Rattle.session_model.specs.Promises.{GoneAtMostMarked, TrueAnswersDelete, TrueAnswersShow, TrueListingsShow, OwnListingsShow};

/// A session that was opened has said nothing but its greeting.
pub fn begins()
    ensures { Begins }
{}

/// Octets that come change no exchange.
pub fn is_fed()
    ensures { IsFed }
{}

/// The next unit is heard.
pub fn hears_next()
    ensures { HearsNext }
{}

/// The node answers a call, or it is given up.
pub fn is_answered()
    ensures { IsAnswered }
{}

/// The node goes down.
pub fn falls_down()
    ensures { FallsDown }
{}

/// The client closes the session.
pub fn is_closed()
    ensures { IsClosed }
{}

/// Whatever a session does, its talk stays a talk, and what it says as it does so comes after the lines that it has said.
pub fn speaks_on()
    ensures { SpeaksOn }
{}

/// What a session was fed and was answered fixes what it said.
pub fn one_talk()
    ensures { OneTalk }
{}

/// The messages that were stored are those that the client was told to be.
pub fn stored_as_told()
    ensures { StoredAsTold }
{}

/// A deletion is asked for only at QUIT, for exactly what the session marked.
pub fn strikes_at_quit()
    ensures { StrikesAtQuit }
{}

/// And each QUIT after a mark asks for one.
pub fn quit_strikes()
    ensures { QuitStrikes }
{}

/// What a session shows of its messages is what its login and its fetches were answered with.
pub fn shown_as_listed()
    ensures { ShownAsListed }
{}

/// Where each Dropped is true, only a QUIT deletes, and one that was answered `+OK bye` has deleted.
pub fn true_answers_delete()
    ensures { TrueAnswersDelete }
{}

/// No more copies are gone than sessions marked.
pub fn gone_at_most_marked()
    ensures { GoneAtMostMarked }
{}

/// Where listings and parts are true, readers were shown what is filed.
pub fn true_answers_show()
    ensures { TrueAnswersShow }
{}

/// Where listings are true, no reader was shown an id for two numbers.
pub fn true_listings_show()
    ensures { TrueListingsShow }
{}

/// Where listings are of the user's own messages, no reader was shown another's.
pub fn own_listings_show()
    ensures { OwnListingsShow }
{}

/// However the work on a tape is left off, its transcript shows the sessions that its acts
/// made, with what these asked and were answered.
pub fn acts_are_shown()
    ensures { ActsAreShown }
{}

/// What a cluster owes of deletions is true in the sessions that asked for them.
pub fn owed_deletions_are_true()
    ensures { OwedDeletionsAreTrue }
{}

/// Each listing that it owes has each id once.
pub fn owed_listings_are_true()
    ensures { OwedListingsAreTrue }
{}

/// And each message of a listing is one of the user who was let in.
pub fn owed_listings_are_own()
    ensures { OwedListingsAreOwn }
{}

/// What it owes of listings and parts is true in the sessions that were shown them.
pub fn owed_parts_are_true()
    ensures { OwedPartsAreTrue }
{}

/// A message that a session asks to be stored is that of a transaction.
pub fn asks_as_told()
    ensures { AsksAsTold }
{}

/// However a tape is driven, its transcript shows its sessions.
pub fn driven_is_shown()
    ensures { DrivenIsShown }
{}

/// What a client sent and got has one reading.
pub fn one_reading()
    ensures { OneReadingOfSession }
{}

/// Two sessions that are shown alike were told the same messages.
pub fn one_telling()
    ensures { OneTelling }
{}

/// A QUIT that a session shows is one that its client sent.
pub fn quit_was_sent()
    ensures { QuitWasSent }
{}

/// However a tape is driven, the promises to clients are kept where the cluster gives what it owes
/// of the calls.
pub fn owed_is_kept()
    ensures { OwedIsKept }
{}

/// Each answer of a call's kind has a reply, whatever octets it carries.
pub fn each_answer_has_reply()
    ensures { EachAnswerHasReply }
{}

/// However a tape is driven, each entry of its transcript is one line.
pub fn driven_writes_lines()
    ensures { DrivenWritesLines }
{}

/// Between two lines each unit that a session has reached has its reply.
pub fn driven_answers_units()
    ensures { DrivenAnswersUnits }
{}

/// However a tape is driven, tape and transcript tell which nodes are lost for good.
pub fn lost_is_shown()
    ensures { LostIsShown }
{}

/// Between two lines each session that has not ended is at a node that is up.
pub fn standing_are_up()
    ensures { StandingAreUp }
{}
