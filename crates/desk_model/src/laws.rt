// The laws: functions that do nothing, whose contracts hold of the definitions alone.
ghost use Rattle.desk_model.specs.Laws.{OpeningAsksOneThing, StepsAskOneThing, IdleStepsAreQuiet, BegunCallsStrike, DeliveriesFile, AnswersAcknowledge};

/// As a cluster opens, each ticket asks for one thing.
pub fn opening_asks_one_thing()
    ensures { OpeningAsksOneThing }
{}

/// Whatever step is made, each ticket asks for one thing: the copies of one message, or deletions.
pub fn steps_ask_one_thing()
    ensures { StepsAskOneThing }
{}

/// Steps in which no call begins but a Leave, and no ticket is answered, acknowledge nothing and strike nothing.
pub fn idle_steps_are_quiet()
    ensures { IdleStepsAreQuiet }
{}

/// A call that begins strikes what it is to delete, also where its node goes down in it.
pub fn begun_calls_strike()
    ensures { BegunCallsStrike }
{}

/// A delivery files the message as it was told, or nothing.
pub fn deliveries_file()
    ensures { DeliveriesFile }
{}

/// An answer acknowledges the copies of the message that was filed, if it is stored, and nothing else. That of a call that reads
/// acknowledges nothing.
pub fn answers_acknowledge()
    ensures { AnswersAcknowledge }
{}
