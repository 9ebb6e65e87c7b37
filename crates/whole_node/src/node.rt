//! A node with all that it has in memory.
ghost use Rattle.std.specs.Prelude.{◌≡◌};

use drop_lock::Locks;
use node_core::Node;
use node_maps::NodeMaps;
use node_reads::NodeReads;

/// One node: what it has for messages, what it has for membership and mail maps, its tickets of calls that read, and the locks of
/// the maildrops that it manages. A stop forgets all but for what its disk tells.
#[derive(Drop)]
pub struct WholeNode {
    pub(crate) mail: Node,
    pub(crate) maps: NodeMaps,
    pub(crate) reads: NodeReads,
    pub(crate) locks: Locks,
}

impl WholeNode {
    /// What it has for messages.
    pub fn mail(&self) -> &Node
        ensures { result.now ≡ self.now.mail }
    {
        &self.mail
    }

    /// What it has for membership and mail maps.
    pub fn maps(&self) -> &NodeMaps
        ensures { result.now ≡ self.now.maps }
    {
        &self.maps
    }

    /// Its tickets of calls that read.
    pub fn reads(&self) -> &NodeReads
        ensures { result.now ≡ self.now.reads }
    {
        &self.reads
    }

    /// The locks of the maildrops that it manages.
    pub fn locks(&self) -> &Locks
        ensures { result.now ≡ self.now.locks }
    {
        &self.locks
    }
}
