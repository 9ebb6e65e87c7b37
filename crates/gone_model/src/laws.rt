// The laws of deletions: functions that do nothing, whose contracts hold of the definitions alone.
ghost use Rattle.gone_model.specs.Gone.{MovesKeepGone, SaidForAll, RulesKeepGone, OthersKeepGone, CutsKeepGone, EmptyHasGone};

/// Whatever moves are made that keep it, each deletion on a disk and in a Push has all nodes as targets.
pub fn moves_keep_gone()
    ensures { MovesKeepGone }
{}

/// Where each deletion in some records has all nodes as targets, so has what the records say of a key.
pub fn said_for_all()
    ensures { SaidForAll }
{}

/// The rules for messages keep it that each deletion has all nodes as targets.
pub fn rules_keep_gone()
    ensures { RulesKeepGone }
{}

/// All acts that add no state and send no Push keep it that each deletion has all nodes as targets.
pub fn others_keep_gone()
    ensures { OthersKeepGone }
{}

/// Where an act keeps it that each deletion has all nodes as targets, so does what a fault cuts of the act.
pub fn cuts_keep_gone()
    ensures { CutsKeepGone }
{}

/// Before any state stands on a disk, each deletion has all nodes as targets.
pub fn empty_has_gone()
    ensures { EmptyHasGone }
{}
