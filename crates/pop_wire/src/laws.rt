// Laws over the definitions of a command line and of a reply, each a function that does nothing.
ghost use Rattle.pop_wire.specs.Laws.{NamesAreRead, SecretsAreRead, NumbersAreRead, LargerNumbersAreBad, TwoArgumentsAreTooMany, BlanksAtEndMeanNothing, MoreSpacesMeanNothing, CaseOfVerbMeansNothing, OtherVerbsAreUnknown};
ghost use Rattle.pop_wire.specs.ReplyLaws.{RepliesAreReadBack, RepliesAreOne, AnswersAreOne, AnswersLast, BegunRepliesAreNone};

/// `USER` and a name is that command, for every name; its letters stay as they are.
pub fn names_are_read()
    ensures { NamesAreRead }
{}

/// `PASS`, a space and any octets give these octets, with every space and tab among them and at their
/// end.
pub fn secrets_are_read()
    ensures { SecretsAreRead }
{}

/// `RETR`, `LIST`, `UIDL` and `DELE` take every number below 2^32, written in decimal.
pub fn numbers_are_read()
    ensures { NumbersAreRead }
{}

/// Numbers from 2^32 on, as far as 64 bits go, are a bad number to each of the four.
pub fn larger_numbers_are_bad()
    ensures { LargerNumbersAreBad }
{}

/// After `RETR`, `LIST`, `UIDL` and `DELE` two words are a bad argument, whatever they are.
pub fn two_arguments_are_too_many()
    ensures { TwoArgumentsAreTooMany }
{}

/// Spaces and tabs at the end of a line mean nothing, unless its verb is PASS.
pub fn blanks_at_end_mean_nothing()
    ensures { BlanksAtEndMeanNothing }
{}

/// One space more after a verb means nothing, unless it is PASS.
pub fn more_spaces_mean_nothing()
    ensures { MoreSpacesMeanNothing }
{}

/// Lines that differ only in the case of the verb are read alike.
pub fn case_of_verb_means_nothing()
    ensures { CaseOfVerbMeansNothing }
{}

/// A verb that is none of those that are read, in any case, is unknown whatever follows it.
pub fn other_verbs_are_unknown()
    ensures { OtherVerbsAreUnknown }
{}

/// What `reply_into` writes of a reply, with anything behind it, begins with that reply, where its reader was told
/// rightly whether a good one has several lines.
pub fn replies_are_read_back()
    ensures { RepliesAreReadBack }
{}

/// Octets begin with one reply at most, and what stands behind it is determined.
pub fn replies_are_one()
    ensures { RepliesAreOne }
{}

/// Octets begin with a whole reply, or have none yet, or a line that is none of one comes first: no two of these
/// at once.
pub fn answers_are_one()
    ensures { AnswersAreOne }
{}

/// What comes behind a whole reply, or behind a line that is none of one, changes nothing.
pub fn answers_last()
    ensures { AnswersLast }
{}

/// The octets of a reply that was cut short begin with no reply, and no line of theirs is none of one.
pub fn begun_replies_are_none()
    ensures { BegunRepliesAreNone }
{}
