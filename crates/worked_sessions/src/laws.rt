//! Laws about runs that were worked by hand.
ghost use Rattle.worked_sessions.specs.OneMessage.{OneMessageKept};
ghost use Rattle.worked_sessions.specs.OneDeletion.{OneDeletionAsked};
ghost use Rattle.worked_sessions.specs.ThreeNodes.{ThreeNodesKept};
ghost use Rattle.worked_sessions.specs.CrashedNode.{CrashedNodeDriven};
ghost use Rattle.worked_sessions.specs.WrongStores.{WrongStores};
ghost use Rattle.worked_sessions.specs.WrongReaders.{WrongReaders};
ghost use Rattle.worked_sessions.specs.WrongReplies.{WrongReplies};
ghost use Rattle.worked_sessions.specs.WrongBooks.{WrongBooks};

/// All premises of the promises can be met: the tape of one message meets them.
pub fn one_message_kept()
    ensures { OneMessageKept }
{}

/// The premises of a deletion can be met: a session with one mark meets them.
pub fn one_deletion_asked()
    ensures { OneDeletionAsked }
{}

/// All premises can be met in a cluster of three nodes: a tape on which letters are heard twice and out of
/// their order meets them.
pub fn three_nodes_kept()
    ensures { ThreeNodesKept }
{}

/// A node can stop while a session of it waits, start again, and be lost as the sink fails.
pub fn crashed_node_driven()
    ensures { CrashedNodeDriven }
{}

/// A store that lacks a message, has another text, has one id for two messages, or lacks it on a node
/// that was lost before, does not keep the promise on stored messages.
pub fn wrong_stores()
    ensures { WrongStores }
{}

/// A copy that is gone without a QUIT, a text that is not the one that is filed, shown by RETR or by TOP,
/// one message listed twice, and one that is nobody's do not keep the promises to readers.
pub fn wrong_readers()
    ensures { WrongReaders }
{}

/// A reply whose last line is not in the transcript, and `+OK bye` of a copy that is still here, do not
/// keep the promises on replies and on deletions.
pub fn wrong_replies()
    ensures { WrongReplies }
{}

/// A book that lacks an entry, has one too many, or tells of a deletion that was not, does not keep the
/// promises on books; nor do two texts under one id.
pub fn wrong_books()
    ensures { WrongBooks }
{}
