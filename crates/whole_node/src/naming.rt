//! Whom a node names as having mail of a user.
ghost use Rattle.std.specs.Prelude.{◌≡◌, ℕ, nat_eq};
ghost use Rattle.std.specs.List.{list_any};
ghost use Rattle.object_model.specs.Sets.{has};
ghost use Rattle.node_maps.specs.Nodes.{node_of};
ghost use Rattle.node_maps.specs.Naming.{nodes_as_set, named_by};

use crate::node::WholeNode;
use mail_base::{Name, NodeSet};

impl WholeNode {
    /// The members whom the node names as having mail of the user, by the rows that it has and the epoch that it has installed;
    /// nobody where it has none. It takes no memory.
    pub fn named(&self, user: &Name) -> NodeSet
        ensures mask { result ≡ nodes_as_set (named_by (node_of self.now.maps) user.now) }
        ensures has { (n : ℕ) → has result n ≡ list_any (nat_eq n) (named_by (node_of self.now.maps) user.now) }
    {
        self.maps.named(user)
    }
}
