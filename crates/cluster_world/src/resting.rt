//! How the latest epoch of a world is: who is live in it, and what is due.
ghost use Rattle.std.specs.Prelude.{◌≡◌, Some};
ghost use Rattle.std.specs.Option.{option_copied};
ghost use Rattle.object_model.specs.Keys.{is_same_epoch};
ghost use Rattle.cluster_model.specs.Cluster.{set_of_members, members_in};
ghost use Rattle.maps_model.specs.Cluster.{member_of};
ghost use Rattle.whole_world.specs.Thrown.{is_before};
ghost use Rattle.node_maps.specs.Nodes.{is_within};
ghost use Rattle.whole_node.specs.declared.node.WholeNode.{WholeNode as AWholeNode};
ghost use Rattle.cluster_world.specs.Lives.{of_node, CanWorkOn};
ghost use Rattle.cluster_world.specs.Settling.{installed_at, later_of, latest_since, latest_in, is_live_at, is_live_in, lower_of, absent_since, absent_in, is_settled_at, all_settled, is_live_member, named_at, is_unsettled};
ghost use Rattle.cluster_world.specs.declared.life.Life.TheVariants as lives;

use crate::life::Life;
use crate::nodes::Nodes;
use io_edge::Disk;
use mail_base::{EpochId, Member, Name, NodeNo, NodeSet};
use membership::Install;

/// Whether the first epoch is before the other: by count, and then by node.
fn is_before(one: EpochId, other: EpochId) -> bool
    ensures { result ≡ is_before one other }
{
    one.count < other.count || (one.count == other.count && one.node < other.node)
}

/// Whether both are one epoch.
fn is_same(one: EpochId, other: EpochId) -> bool
    ensures { result ≡ is_same_epoch one other }
{
    one.count == other.count && one.node == other.node
}

/// The membership that a node has installed, where it is up.
fn installed(life: &Life) -> Option<&Install>
    ensures { option_copied result ≡ installed_at life.now }
{
    match life {
        Life::Up(node) => node.maps().group().installed(),
        Life::Down | Life::Lost => None,
    }
}

/// The later of both, and the first where both are of one epoch.
fn later<'a>(one: Option<&'a Install>, other: Option<&'a Install>) -> Option<&'a Install>
    ensures { option_copied result ≡ later_of (option_copied one.entry) (option_copied other.entry) }
{
    match one {
        None => other,
        Some(first) => match other {
            None => Some(first),
            Some(second) => {
                if is_before(first.epoch, second.epoch) {
                    Some(second)
                } else {
                    Some(first)
                }
            }
        },
    }
}

/// The latest of these nodes, and of what was found before.
fn latest_since<'a>(found: Option<&'a Install>, lives: &'a [Life]) -> Option<&'a Install>
    ensures { option_copied result ≡ latest_since (option_copied found.entry) lives.now }
{
    match lives.split_first() {
        Some((first, others)) => latest_since(later(found, installed(first)), others),
        None => found,
    }
}

/// The latest epoch: the greatest that a node which is up has installed.
pub(crate) fn latest(lives: &[Life]) -> Option<&Install>
    ensures { option_copied result ≡ latest_in lives.now }
{
    latest_since(None, lives)
}

/// The nodes of these members.
fn set_of(members: &[Member]) -> NodeSet
    ensures { result ≡ set_of_members members.now }
{
    match members.split_first() {
        Some((first, others)) => set_of(others).with(first.node),
        None => NodeSet::empty(),
    }
}

/// The members of the latest epoch.
pub(crate) fn latest_members(lives: &[Life]) -> NodeSet
    ensures { result ≡ members_in (latest_in lives.now) }
{
    match latest(lives) {
        Some(install) => set_of(install.members.as_slice()),
        None => NodeSet::empty(),
    }
}

/// Whether this epoch is installed.
fn is_within(installed: Option<&Install>, epoch: EpochId) -> bool
    ensures { result ≡ is_within (option_copied installed.entry) epoch }
{
    match installed {
        Some(install) => is_same(install.epoch, epoch),
        None => false,
    }
}

/// Whether a node is up in this boot and has installed this epoch.
fn is_live_at(life: &Life, epoch: EpochId, boot: u32) -> bool
    ensures { result ≡ is_live_at epoch boot (Some life.now) }
{
    match life {
        Life::Up(node) => {
            let group = node.maps().group();
            group.boot() == boot && is_within(group.installed(), epoch)
        }
        Life::Down | Life::Lost => false,
    }
}

/// The lower of both.
fn lower(found: Option<NodeNo>, node: NodeNo) -> Option<NodeNo>
    ensures { result ≡ lower_of found node }
{
    match found {
        None => Some(node),
        Some(low) => {
            if node.number() < low.number() {
                Some(node)
            } else {
                Some(low)
            }
        }
    }
}

/// Whether nothing that the node has is due; false where it is not up.
fn is_settled(life: &Life, node: NodeNo) -> bool
    requires own { (up : AWholeNode) → life.now ≡ lives.Up up → up.mail.store.own ≡ node }
    ensures { result ≡ is_settled_at node (Some life.now) }
{
    match life {
        Life::Up(up) => up.is_settled(),
        Life::Down | Life::Lost => false,
    }
}

/// Whether the node is up and something that it has is due.
pub(crate) fn is_unsettled(life: &Life, node: NodeNo) -> bool
    requires own { (up : AWholeNode) → life.now ≡ lives.Up up → up.mail.store.own ≡ node }
    ensures { result ≡ is_unsettled node life.now }
{
    match life {
        Life::Up(up) => !up.is_settled(),
        Life::Down | Life::Lost => false,
    }
}

/// Whom a node that is up names for the user.
fn named_at(life: &Life, user: &Name) -> NodeSet
    ensures { result ≡ named_at (Some life.now) user.now }
{
    match life {
        Life::Up(node) => node.named(user),
        Life::Down | Life::Lost => NodeSet::empty(),
    }
}

/// The member of this number.
fn member_of(members: &[Member], node: NodeNo) -> Option<Member>
    ensures { result ≡ member_of members.now node }
{
    match members.split_first() {
        Some((first, others)) => {
            if first.node == node {
                Some(*first)
            } else {
                member_of(others, node)
            }
        }
        None => None,
    }
}

impl<D> Nodes<D> {
    /// Whether a member is live in this epoch.
    fn is_live(&self, epoch: EpochId, member: &Member) -> bool
        ensures { result ≡ is_live_in self.now.lives.items epoch member.now }
    {
        match self.life(member.node) {
            Some(life) => is_live_at(life, epoch, member.boot),
            None => false,
        }
    }

    /// The lowest of these members that is not live, and of what was found before.
    fn absent_since(
        &self,
        epoch: EpochId,
        found: Option<NodeNo>,
        members: &[Member],
    ) -> Option<NodeNo>
        ensures { result ≡ absent_since self.now.lives.items epoch found members.now }
    {
        match members.split_first() {
            Some((first, others)) => {
                if self.is_live(epoch, first) {
                    self.absent_since(epoch, found, others)
                } else {
                    self.absent_since(epoch, lower(found, first.node), others)
                }
            }
            None => found,
        }
    }

    /// The lowest member of an epoch that is not live, if there is one.
    pub(crate) fn absent(&self, install: &Install) -> Option<NodeNo>
        ensures { result ≡ absent_in self.now.lives.items install.now }
    {
        self.absent_since(install.epoch, None, install.members.as_slice())
    }

    /// Whether the node is live as a member of an epoch.
    pub(crate) fn is_live_in(&self, install: &Install, node: NodeNo) -> bool
        ensures { result ≡ is_live_member self.now.lives.items install.now.epoch (member_of install.now.members node) }
    {
        match member_of(install.members.as_slice(), node) {
            Some(member) => self.is_live(install.epoch, &member),
            None => false,
        }
    }

    /// Whom the node names for the user, where it is up.
    pub(crate) fn named(&self, node: NodeNo, user: &Name) -> NodeSet
        ensures { result ≡ named_at (of_node self.now.lives.items node) user.now }
    {
        match self.life(node) {
            Some(life) => named_at(life, user),
            None => NodeSet::empty(),
        }
    }
}

impl<D: Disk> Nodes<D> {
    /// Whether the node is up, and nothing that it has is due.
    fn has_settled(&self, node: NodeNo) -> bool
        requires ready { CanWorkOn D.seen self.now.plan self.now.lives.items self.now.disks.items }
        ensures { result ≡ is_settled_at node (of_node self.now.lives.items node) }
    {
        match self.life(node) {
            Some(life) => is_settled(life, node),
            None => false,
        }
    }

    /// Whether each of these members is up and settled.
    pub(crate) fn have_settled(&self, members: &[Member]) -> bool
        requires ready { CanWorkOn D.seen self.now.plan self.now.lives.items self.now.disks.items }
        ensures { result ≡ all_settled self.now.lives.items members.now }
    {
        match members.split_first() {
            Some((first, others)) => self.has_settled(first.node) && self.have_settled(others),
            None => true,
        }
    }
}
