// A group that a node opens, and the promises that are to be on its disk first.
ghost use Rattle.std.specs.Prelude.{◌≡◌, ◌≤◌, ◌<◌, ◌-◌, ◌^◌, if◌then◌else◌, Some, None};
ghost use Rattle.maps_model.specs.Rules.{next_epoch};
ghost use Rattle.user_map.specs.Plain.{is_before};
ghost use Rattle.mail_base.specs.Bodies.{body_seen};
ghost use Rattle.node_maps.specs.Nodes.{node_of, own_of};
ghost use Rattle.node_maps.specs.Hearing.{promise_due};
ghost use Rattle.node_maps.specs.Rounds.{StartsAs};

use crate::letters::{ask_others, no_letters};
use crate::maps::NodeMaps;
use mail_base::{Body, EpochId, Letter, Sequence};
use membership::GroupFault;
use std::alloc::{AllocError, Global};

/// Whether the one epoch comes before the other.
pub(crate) fn is_before(a: EpochId, b: EpochId) -> bool
    ensures { result ≡ is_before a b }
{
    a.count < b.count || (a.count == b.count && a.node < b.node)
}

// The epoch, where it is above the promise.
fn above(promise: EpochId, epoch: EpochId) -> Option<EpochId>
    ensures { result ≡ (if is_before promise epoch then Some epoch else None) }
{
    if is_before(promise, epoch) {
        Some(epoch)
    } else {
        None
    }
}

impl NodeMaps {
    /// The promise that a letter of this body makes due: it has to be on the disk, and synced, before `hear`. It takes no
    /// memory.
    pub fn promise_due(&self, body: &Body) -> Option<EpochId>
        ensures { result ≡ promise_due (node_of self.now) (body_seen body.now) }
    {
        match body {
            Body::Group { epoch } => above(self.group.promise(), *epoch),
            Body::File { .. }
            | Body::Filed { .. }
            | Body::LoginAsk { .. }
            | Body::LoginTold { .. }
            | Body::ListAsk { .. }
            | Body::ListTold { .. }
            | Body::FetchAsk { .. }
            | Body::FetchTold { .. }
            | Body::Strike { .. }
            | Body::StrikeTold { .. }
            | Body::Unlock { .. }
            | Body::Push { .. }
            | Body::PushAck { .. }
            | Body::Retired { .. }
            | Body::Join { .. }
            | Body::Install { .. }
            | Body::Report { .. }
            | Body::ReportAck { .. } => None,
        }
    }

    /// The epoch of the next group of the node's own: its promise has to be on the disk, and synced, before `start_group`. It
    /// takes no memory.
    pub fn next_epoch(&self) -> EpochId
        requires { self.now.group.heard < 2 ^ 64 - 1 }
        ensures { result ≡ next_epoch (own_of self.now) (node_of self.now) }
    {
        EpochId::new(self.group.heard() + 1, self.group.own().number())
    }

    /// Opens a group, which closes one that is open: the epoch is promised, the node joins, and all other nodes of the plan are
    /// asked, the one of the greatest number first.
    ///
    /// # Errors
    ///
    /// Only out of memory; the node is then as before.
    pub fn start_group(&mut self, alloc: Global, nodes: u8) -> Result<Sequence<Letter>, AllocError>
        requires room { self.old.group.heard < 2 ^ 64 - 1 }
        requires few { nodes ≤ 16 }
        ensures { StartsAs nodes result self.old self.new }
    {
        let mut letters = no_letters(alloc);
        ask_others(&mut letters, self.group.own(), nodes, self.next_epoch())?;
        match self.group.start_group(alloc) {
            Ok(_) => Ok(letters),
            Err(GroupFault::NoMemory) => Err(AllocError),
            Err(GroupFault::OldEpoch) => unreachable!(),
            Err(GroupFault::NotMember) => unreachable!(),
            Err(GroupFault::NotPromised) => unreachable!(),
            Err(GroupFault::NotAGroup) => unreachable!(),
        }
    }
}
