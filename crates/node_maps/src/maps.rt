// What a node keeps for membership and mail maps.
ghost use Rattle.std.specs.Prelude.{◌≡◌, ◌+◌, true, false, List, ℕ, OnOk};
ghost use Rattle.maps_model.specs.Cluster.{Disk};
ghost use Rattle.maps_model.specs.Rules.{started};
ghost use Rattle.mailbox_fragment.specs.Here.{SetsMessage};
ghost use Rattle.node_maps.specs.Nodes.{node_of, own_of, holds_in};

use mail_base::{EpochId, MsgId, Name, NodeNo};
use mail_map::MailMap;
use mailbox_fragment::Fragments;
use map_rebuild::Reports;
use membership::Group;
use std::alloc::{AllocError, Global};

/// What a node keeps for membership and mail maps. A stop forgets all of it but the promise and the messages, which its disk
/// tells. Contracts see the machine's node (`node_of`).
#[derive(Drop)]
pub struct NodeMaps {
    pub(crate) group: Group,
    pub(crate) reports: Reports,
    pub(crate) rows: MailMap,
    pub(crate) fragments: Fragments,
}

impl NodeMaps {
    /// What a node has as it starts in this boot with the promise that its disk tells: no epoch, versions 0, nothing due, and
    /// no rows. No message is here yet: `find` takes those that the disk tells. It takes no memory.
    #[tactic(auto, using(crate::proofs::Nodes::starts))]
    pub fn new(alloc: Global, own: NodeNo, boot: u32, promise: EpochId) -> NodeMaps
        ensures own { own_of result ≡ own }
        ensures node { (image : Disk) → image.boot + 1 ≡ boot → image.promise ≡ promise → node_of result ≡ started image }
        ensures holds { (user : List ℕ) → holds_in result user ≡ false }
    {
        NodeMaps {
            group: Group::new(own, boot, promise),
            reports: Reports::new(alloc),
            rows: MailMap::new(alloc),
            fragments: Fragments::new(alloc),
        }
    }

    /// Finds a message here as the node starts. It makes no row due: an install does.
    ///
    /// # Errors
    ///
    /// Only out of memory.
    pub fn find(&mut self, user: &Name, id: MsgId) -> Result<(), AllocError>
        ensures here { OnOk result (SetsMessage self.old.fragments self.new.fragments user.now id true) }
        ensures node { node_of self.new ≡ node_of self.old }
        ensures own { own_of self.new ≡ own_of self.old }
    {
        self.fragments.set(user, id, true)?;
        Ok(())
    }

    /// Its promise, its open group and the epoch that it has installed.
    pub fn group(&self) -> &Group
        ensures { result.now ≡ self.now.group }
    {
        &self.group
    }

    /// The versions of its rows, and those that are due.
    pub fn reports(&self) -> &Reports
        ensures { result.now ≡ self.now.reports }
    {
        &self.reports
    }

    /// The rows that it has heard as a manager.
    pub fn rows(&self) -> &MailMap
        ensures { result.now ≡ self.now.rows }
    {
        &self.rows
    }

    /// The messages that are here.
    pub fn fragments(&self) -> &Fragments
        ensures { result.now ≡ self.now.fragments }
    {
        &self.fragments
    }
}
