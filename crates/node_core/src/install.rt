//! The epoch that a node has installed.
ghost use Rattle.node_core.specs.Installing.{HasInstalled};

use crate::node::Node;
use membership::Install;

impl Node {
    /// The node has installed this epoch with its members and its map from now on, or none. Messages go to these members,
    /// letters of another epoch are thrown, and without an epoch every call fails that needs members. It takes no memory.
    pub fn install(&mut self, install: Option<Install>)
        ensures { HasInstalled install self.old self.new }
    {
        self.shape.installed = install;
    }
}
