//! The laws: functions that do nothing, whose contracts hold of the definitions alone.
ghost use Rattle.worked_sessions.specs.ThreeNodes.{three_nodes, posted_lines};
ghost use Rattle.accepted_tapes.specs.Accepted.{AreAccepted};

/// A tape of three nodes is accepted on which letters are posted twice and out of their order, until the
/// message that they carry is stored.
pub fn letters_are_accepted()
    ensures { AreAccepted three_nodes posted_lines }
{}
