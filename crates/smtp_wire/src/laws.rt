// Laws over the definitions of a command line and of a reply, each a function that does nothing.
ghost use Rattle.smtp_wire.specs.Laws.{NamesAreRead, SendersAreRead, RecipientsAreRead, RoutesAreLeftOut, BlanksAtEndMeanNothing, CaseOfVerbMeansNothing};
ghost use Rattle.smtp_wire.specs.ReplyLaws.{RepliesAreReadBack, RepliesAreOne, AnswersAreOne, AnswersLast, BegunRepliesAreNone};

/// `HELO` and a name is that command, for every name of 1 to 255 visible octets, and so is `EHLO`.
pub fn names_are_read()
    ensures { NamesAreRead }
{}

/// `MAIL FROM:<path>` is that command, for every path of at most 512 octets with no source route.
pub fn senders_are_read()
    ensures { SendersAreRead }
{}

/// `RCPT TO:<path>` is that command, for every such path that is not empty.
pub fn recipients_are_read()
    ensures { RecipientsAreRead }
{}

/// `MAIL FROM:<@route:path>` means the path alone.
pub fn routes_are_left_out()
    ensures { RoutesAreLeftOut }
{}

/// Spaces and tabs at the end of a line mean nothing.
pub fn blanks_at_end_mean_nothing()
    ensures { BlanksAtEndMeanNothing }
{}

/// Lines that differ only in the case of the verb are read alike.
pub fn case_of_verb_means_nothing()
    ensures { CaseOfVerbMeansNothing }
{}

/// What `reply_into` writes of a reply, with anything behind it, begins with that reply.
pub fn replies_are_read_back()
    ensures { RepliesAreReadBack }
{}

/// Octets begin with one reply at most, and what stands behind it is determined.
pub fn replies_are_one()
    ensures { RepliesAreOne }
{}

/// Octets begin with a whole reply, or have none yet, or a line that is none of one comes first: no two of these
/// at once.
pub fn answers_are_one()
    ensures { AnswersAreOne }
{}

/// What comes behind a whole reply, or behind a line that is none of one, changes nothing.
pub fn answers_last()
    ensures { AnswersLast }
{}

/// The octets of a reply that was cut short begin with no reply, and no line of theirs is none of one.
pub fn begun_replies_are_none()
    ensures { BegunRepliesAreNone }
{}
