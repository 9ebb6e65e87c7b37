// The laws of copies that are here: functions that do nothing, whose contracts hold of the definitions alone.
ghost use Rattle.here_model.specs.Here.{MovesKeepOctets, HereIsRead, RulesKeepOctets, OthersKeepOctets, CutsKeepOctets, EmptyHasOctets};

/// Whatever moves are made that keep it, each copy that is here has its octets.
pub fn moves_keep_octets()
    ensures { MovesKeepOctets }
{}

/// Where each copy that is here has its octets, the octets of what a disk says to be here can be read.
pub fn here_is_read()
    ensures { HereIsRead }
{}

/// The rules for messages keep it that each copy that is here has its octets.
pub fn rules_keep_octets()
    ensures { RulesKeepOctets }
{}

/// All acts that leave a prefix of the records and add no state keep it that each copy that is here has its octets.
pub fn others_keep_octets()
    ensures { OthersKeepOctets }
{}

/// Where an act keeps it that each copy that is here has its octets, so does what a fault cuts of the act.
pub fn cuts_keep_octets()
    ensures { CutsKeepOctets }
{}

/// Before any state stands on a disk, each copy that is here has its octets.
pub fn empty_has_octets()
    ensures { EmptyHasOctets }
{}
