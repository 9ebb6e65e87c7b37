//! What a node tells.
ghost use Rattle.std.specs.Prelude.{◌≡◌, ◌↔◌, not, List, IsTrue, IfOk};
ghost use Rattle.std.specs.List.{list_any};
ghost use Rattle.std.specs.Option.{option_copied};
ghost use Rattle.mail_model.specs.Record.{Record};
ghost use Rattle.object_model.specs.Said.{said};
ghost use Rattle.mail_base.specs.Seen.{key_seen};
ghost use Rattle.cluster_model.specs.Cluster.{epoch_of};
ghost use Rattle.node_store.specs.Mailboxes.{AreIdsHere, AreUsersSaid};
ghost use Rattle.node_core.specs.Nodes.{node_seen, NodeKeeps};
ghost use Rattle.node_core.specs.Owing.{is_owed, owes_another, OwesAnother};

use crate::installed::epoch_in;
use crate::node::Node;
use mail_base::{EpochId, Ids, Key, Member, Name, Names, NodeNo, ObjState};
use node_store::NodeStore;
use std::alloc::{AllocError, Global};

// Whether another of these members than the node itself remains in an entry of the log.
fn owes_any(store: &NodeStore, members: &[Member]) -> bool
    ensures { result ≡ list_any (is_owed store.now.own store.now.log) members.now }
{
    members.iter().any(|member| member.node != store.own() && store.owes(member.node))
}

impl Node {
    /// The node's number.
    pub fn own(&self) -> NodeNo
        ensures { result ≡ self.now.store.own }
    {
        self.store.own()
    }

    /// Its boot.
    pub fn boot(&self) -> u32
        ensures { result ≡ (node_seen self.now).boot }
    {
        self.numbers.boot
    }

    /// The epoch that it has installed; that of no epoch where it has none.
    pub fn epoch(&self) -> EpochId
        ensures { result ≡ epoch_of (node_seen self.now) }
    {
        epoch_in(&self.shape.installed)
    }

    /// What the node keeps: its journal, the octets of messages, the states of objects and to whom they are owed.
    pub fn store(&self) -> &NodeStore
        ensures { result.now ≡ self.now.store }
    {
        &self.store
    }

    /// What the disk says of the object. It takes no memory, and asks nothing of the disk.
    pub fn state(&self, key: &Key) -> Option<&ObjState>
        ensures { (records : List Record) → NodeKeeps records self.now → option_copied result ≡ said (key_seen key.now) records }
    {
        self.store.state(key)
    }

    /// The ids of the user's messages that are here by what the disk says, each once, by node, boot and number. It asks nothing
    /// of the disk, and takes time in the number of the user's objects, and logarithmic in that of all.
    ///
    /// # Errors
    ///
    /// Only out of memory.
    pub fn ids(&self, alloc: Global, user: &Name) -> Result<Ids, AllocError>
        ensures { IfOk result (λ ids. (records : List Record) → NodeKeeps records self.now → AreIdsHere user.now records ids) }
    {
        self.store.ids(alloc, user)
    }

    /// The users of whom the disk says something, each once, in the order of their names. It asks nothing of the disk, and takes
    /// time in their number alone.
    ///
    /// # Errors
    ///
    /// Only out of memory.
    pub fn users(&self, alloc: Global) -> Result<Names, AllocError>
        ensures { IfOk result (λ names. (records : List Record) → NodeKeeps records self.now → AreUsersSaid records names) }
    {
        self.store.users(alloc)
    }

    // Whether anything is owed to another member.
    fn owes_another(&self) -> bool
        ensures { result ≡ owes_another self.now.store.own (node_seen self.now) }
    {
        match &self.shape.installed {
            Some(install) => owes_any(&self.store, install.members.as_slice()),
            None => false,
        }
    }

    /// Whether nothing is owed to another member of the epoch that it has installed: none remains in an entry of its log. The
    /// node itself never counts. It takes no memory, and at most a pass over the log for each member.
    pub fn is_settled(&self) -> bool
        ensures test { result ≡ not (owes_another self.now.store.own (node_seen self.now)) }
        ensures settled { IsTrue result ↔ (OwesAnother self.now.store.own (node_seen self.now) → ⊥) }
    {
        !self.owes_another()
    }
}
