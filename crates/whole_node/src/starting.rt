//! A node that has started, with the maps that its disk says.
ghost use Rattle.std.specs.Prelude.{◌≡◌, ◌+◌, ◌&&◌, ◌||◌, ℕ, List, None, IfOk, OnOk};
ghost use Rattle.std.specs.Ordering.{nat_cmp, eq_by_cmp};
ghost use Rattle.std.specs.Cmp.Lexicographic.{slice_cmp};
ghost use Rattle.mail_model.specs.Identity.{Id};
ghost use Rattle.mail_model.specs.Identity.Key.{Message};
ghost use Rattle.mail_model.specs.Record.{Record};
ghost use Rattle.object_model.specs.Said.{said};
ghost use Rattle.cluster_model.specs.Reads.{is_here_held};
ghost use Rattle.maps_model.specs.Cluster.{Disk as PlainDisk};
ghost use Rattle.maps_model.specs.Rules.{started};
ghost use Rattle.mailbox_fragment.specs.Here.{is_here_in, has_id};
ghost use Rattle.map_rebuild.specs.Users.{has_user};
ghost use Rattle.node_core.specs.Nodes.{node_seen, NodeKeeps, IsWhole};
ghost use Rattle.node_maps.specs.Nodes.{node_of, own_of};
ghost use Rattle.whole_node.specs.Nodes.{AreMapsOf, AreReadsOf, HasMaps, HasNoReads, KeepsNamed};

use crate::node::WholeNode;
use drop_lock::Locks;
use mail_base::{EpochId, MsgId, Name};
use node_core::Node;
use node_maps::NodeMaps;
use node_reads::NodeReads;
use std::alloc::{AllocError, Global};

// Finds these messages of the user.
fn find_ids(maps: &mut NodeMaps, user: &Name, ids: &[MsgId]) -> Result<(), AllocError>
    ensures here { OnOk result ((other : List ℕ) (id : Id) → is_here_in maps.new.fragments other id ≡ (is_here_in maps.old.fragments other id || (eq_by_cmp (slice_cmp nat_cmp) user.now other && has_id ids.now id))) }
    ensures node { node_of maps.new ≡ node_of maps.old }
    ensures own { own_of maps.new ≡ own_of maps.old }
{
    for id in ids {
        maps.find(user, *id)?;
    }
    Ok(())
}

// Finds the user's messages of which the disk says that they are here.
fn find_user(alloc: Global, maps: &mut NodeMaps, mail: &Node, user: &Name) -> Result<(), AllocError>
    ensures here { OnOk result ((records : List Record) → NodeKeeps records mail.now → (other : List ℕ) (id : Id)
        → is_here_in maps.new.fragments other id ≡ (is_here_in maps.old.fragments other id || (eq_by_cmp (slice_cmp nat_cmp) user.now other && is_here_held (said (Message other id) records)))) }
    ensures node { node_of maps.new ≡ node_of maps.old }
    ensures own { own_of maps.new ≡ own_of maps.old }
{
    let ids = mail.ids(alloc, user)?;
    find_ids(maps, user, ids.as_slice())?;
    Ok(())
}

// Finds those of all these users.
fn find_users(
    alloc: Global,
    maps: &mut NodeMaps,
    mail: &Node,
    users: &[Name],
) -> Result<(), AllocError>
    ensures here { OnOk result ((records : List Record) → NodeKeeps records mail.now → (other : List ℕ) (id : Id)
        → is_here_in maps.new.fragments other id ≡ (is_here_in maps.old.fragments other id || (has_user users.now other && is_here_held (said (Message other id) records)))) }
    ensures node { node_of maps.new ≡ node_of maps.old }
    ensures own { own_of maps.new ≡ own_of maps.old }
{
    for user in users {
        find_user(alloc, maps, mail, user)?;
    }
    Ok(())
}

// The maps of a node that has started.
fn maps_over(
    alloc: Global,
    mail: &Node,
    promise: EpochId,
    users: &[Name],
) -> Result<NodeMaps, AllocError>
    requires whole { IsWhole mail.now }
    requires without { (node_seen mail.now).installed ≡ None }
    requires named { KeepsNamed users.now mail.now }
    ensures has_maps { IfOk result (λ maps. AreMapsOf mail.now maps) }
    ensures starts { IfOk result (λ maps. (image : PlainDisk) → image.boot + 1 ≡ (node_seen mail.now).boot → image.promise ≡ promise → node_of maps ≡ started image) }
{
    let mut maps = NodeMaps::new(alloc, mail.own(), mail.boot(), promise);
    find_users(alloc, &mut maps, mail, users)?;
    Ok(maps)
}

// The node with these halves, without tickets of calls that read, and without locks.
fn with_nothing(alloc: Global, mail: Node, maps: NodeMaps) -> WholeNode
    ensures mail { result.mail ≡ mail }
    ensures maps { result.maps ≡ maps }
    ensures reads { AreReadsOf mail result.reads }
    ensures blank { HasNoReads result }
{
    let reads = NodeReads::new(alloc, mail.own(), mail.boot());
    WholeNode {
        mail,
        maps,
        reads,
        locks: Locks::new(alloc),
    }
}

impl WholeNode {
    /// A node that has just started, with the maps that its disk says: no epoch, the promise of the disk, versions 0, nothing
    /// due, and each message that is here. It has no tickets and no locks. The promise is that of the last Promise record, and the users are those of whom the
    /// disk says that a message is here; others among them do no harm.
    ///
    /// It costs a look at each object of these users.
    ///
    /// # Errors
    ///
    /// Only out of memory. The node's boot is on its disk, so it has to go down.
    pub fn over(
        alloc: Global,
        mail: Node,
        promise: EpochId,
        users: &[Name],
    ) -> Result<WholeNode, AllocError>
        requires whole { IsWhole mail }
        requires without { (node_seen mail).installed ≡ None }
        requires named { KeepsNamed users.now mail }
        ensures mail { IfOk result (λ node. node.mail ≡ mail) }
        ensures has_maps { IfOk result (λ node. HasMaps node) }
        ensures reads { IfOk result (λ node. AreReadsOf node.mail node.reads) }
        ensures blank { IfOk result (λ node. HasNoReads node) }
        ensures starts { IfOk result (λ node. (image : PlainDisk) → image.boot + 1 ≡ (node_seen mail).boot → image.promise ≡ promise → node_of node.maps ≡ started image) }
    {
        match maps_over(alloc, &mail, promise, users) {
            Ok(maps) => Ok(with_nothing(alloc, mail, maps)),
            Err(AllocError) => Err(AllocError),
        }
    }
}
