// Who manages a user, and whom a node names as having mail of one.
ghost use Rattle.std.specs.Prelude.{◌≡◌, ℕ, nat_eq};
ghost use Rattle.std.specs.List.{list_any};
ghost use Rattle.object_model.specs.Sets.{has};
ghost use Rattle.maps_model.specs.Cluster.{is_full};
ghost use Rattle.maps_model.specs.Laws.{named};
ghost use Rattle.joint_model.specs.Joint.{user_named_in, user_manager_in};
ghost use Rattle.node_maps.specs.Nodes.{node_of};
ghost use Rattle.node_maps.specs.Naming.{nodes_as_set, named_by};

use crate::maps::NodeMaps;
use mail_base::{Member, Name, NodeNo, NodeSet};
use user_map::manager;

impl NodeMaps {
    // Whether the member has a row of the user that says full.
    fn names(&self, user: &Name, member: Member) -> bool
        ensures { result ≡ is_full ((node_of self.now).rows member.node member.boot user.now) }
    {
        self.rows.named(user, &[member]).has(member.node)
    }

    // Those of the members that have one.
    fn named_among(&self, user: &Name, members: &[Member]) -> NodeSet
        ensures mask { result ≡ nodes_as_set (named (node_of self.now) user.now members.now) }
        ensures has { (n : ℕ) → has result n ≡ list_any (nat_eq n) (named (node_of self.now) user.now members.now) }
    {
        let Some((first, others)) = members.split_first() else {
            return NodeSet::empty();
        };
        let set = self.named_among(user, others);
        if self.names(user, *first) {
            set.with(first.node)
        } else {
            set
        }
    }

    /// The members whom the node names as having mail of the user: those of whom it has a row that says full, of the boot in
    /// which its own epoch names them. Nobody where no epoch is installed. It takes no memory, and one look-up for each member.
    pub fn named(&self, user: &Name) -> NodeSet
        ensures seen { result ≡ user_named_in (node_of self.now) user.now (node_of self.now).installed }
        ensures mask { result ≡ nodes_as_set (named_by (node_of self.now) user.now) }
        ensures has { (n : ℕ) → has result n ≡ list_any (nat_eq n) (named_by (node_of self.now) user.now) }
    {
        match self.group.installed() {
            Some(install) => self.named_among(user, install.members.as_slice()),
            None => NodeSet::empty(),
        }
    }
    /// Who manages the user in the epoch that the node has installed; nobody where it has none. It takes no memory.
    pub fn manager(&self, user: &Name) -> Option<NodeNo>
        ensures { result ≡ user_manager_in user.now (node_of self.now).installed }
    {
        match self.group.installed() {
            Some(install) => manager(&install.map, user),
            None => None,
        }
    }
}
