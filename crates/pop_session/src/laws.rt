// Laws over the definition of a session, each a function that does nothing.
ghost use Rattle.pop_session.specs.Laws.{NumberedAlike, ListsUnmarkedOnce, NumbersStay, MarkedIsNone, AsksBehindUser, AsksByApop};

/// LIST and UIDL show of each message that is not marked what they show of it alone, under its number.
pub fn numbered_alike()
    ensures { NumberedAlike }
{}

/// LIST and UIDL show each message of the listing that is not marked once, and no others.
pub fn listed_once()
    ensures { ListsUnmarkedOnce }
{}

/// DELE shifts no numbers: what is shown of each other message is as before (RFC 1939, section 5).
pub fn numbers_stay()
    ensures { NumbersStay }
{}

/// The number that DELE marked has no message any more.
pub fn marked_is_none()
    ensures { MarkedIsNone }
{}

/// The node is asked for a login by a digest only by an APOP with the user's name, and before any login.
pub fn asks_by_apop()
    ensures { AsksByApop }
{}

/// The node is asked for a login by a secret only by a PASS whose line follows that of a good USER.
pub fn asks_behind_user()
    ensures { AsksBehindUser }
{}
