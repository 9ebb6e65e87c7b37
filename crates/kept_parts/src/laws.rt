// The laws of both parts: functions that do nothing, whose contracts hold of the definitions alone.
ghost use Rattle.kept_parts.specs.Kept.{MailStepsKeepParts, MailWorldsHaveParts, StepsKeepParts, WorldsHaveParts, HereIsStored};

/// Whatever steps are made of a world of messages, the parts on deletions and on octets stay.
pub fn mail_steps_keep_parts()
    ensures { MailStepsKeepParts }
{}

/// The parts on deletions and on octets hold of every world of messages that comes of an opening.
pub fn mail_worlds_have_parts()
    ensures { MailWorldsHaveParts }
{}

/// Whatever steps are made of a world of the whole, the parts on deletions and on octets stay.
pub fn steps_keep_parts()
    ensures { StepsKeepParts }
{}

/// The parts on deletions and on octets hold of every world of the whole that comes of an opening.
pub fn worlds_have_parts()
    ensures { WorldsHaveParts }
{}

/// In every world of the whole that comes of an opening, the octets of each copy that a disk says to be here can be read there.
pub fn here_is_stored()
    ensures { HereIsStored }
{}
