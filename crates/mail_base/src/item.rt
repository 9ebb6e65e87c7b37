// One message of a listing.
use crate::{MsgId, NodeSet, Stamp};

/// One message of a maildrop, as a node lists it.
#[derive(Clone, Copy, Debug)]
pub struct Item {
    /// Its id.
    pub id: MsgId,
    /// The stamp of the state that says that the user's copy is here.
    pub stamp: Stamp,
    /// The nodes that are to hold the copy.
    pub targets: NodeSet,
    /// The nodes that said that they hold it.
    pub holders: NodeSet,
    /// How many octets it has as it is stored, with its trace lines.
    pub length: u64,
}
