//! What is read from the membership that a node has installed.
ghost use Rattle.std.specs.Prelude.{◌≡◌, ◌&&◌, not};
ghost use Rattle.object_model.specs.Keys.{is_same_epoch};
ghost use Rattle.cluster_model.specs.Cluster.{epoch_in, members_in, set_of_members};
ghost use Rattle.cluster_model.specs.Thrown.{has_epoch, is_stale};

use crate::throwing::{has_epoch, is_same_epoch};
use mail_base::{EpochId, Letter, Member, NodeSet};
use membership::Install;

// The nodes of these members.
fn set_of_members(members: &[Member]) -> NodeSet
    ensures { result ≡ set_of_members members.now }
{
    match members.split_first() {
        Some((first, others)) => set_of_members(others).with(first.node),
        None => NodeSet::empty(),
    }
}

// Whether the letter carries another epoch than this.
fn is_of_another(letter: &Letter, epoch: &EpochId) -> bool
    ensures { result ≡ (has_epoch letter.now.body && not (is_same_epoch letter.now.epoch epoch.now)) }
{
    has_epoch(&letter.body) && !is_same_epoch(&letter.epoch, epoch)
}

/// Its epoch; that of no epoch where nothing is installed.
pub(crate) fn epoch_in(installed: &Option<Install>) -> EpochId
    ensures { result ≡ epoch_in installed.now }
{
    match installed {
        Some(install) => install.epoch,
        None => EpochId::none(),
    }
}

/// Its members; none where nothing is installed.
pub(crate) fn members_in(installed: &Option<Install>) -> NodeSet
    ensures { result ≡ members_in installed.now }
{
    match installed {
        Some(install) => set_of_members(install.members.as_slice()),
        None => NodeSet::empty(),
    }
}

/// Whether the letter carries another epoch.
pub(crate) fn is_stale(letter: &Letter, installed: &Option<Install>) -> bool
    ensures { result ≡ is_stale letter.now installed.now }
{
    match installed {
        Some(install) => is_of_another(letter, &install.epoch),
        None => has_epoch(&letter.body),
    }
}
