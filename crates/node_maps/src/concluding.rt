// A group that a node concludes.
ghost use Rattle.std.specs.Prelude.{◌<◌};
ghost use Rattle.node_maps.specs.Rounds.{ConcludesAs};

use crate::entering::copy_installed;
use crate::letters::installs;
use crate::maps::NodeMaps;
use mail_base::{EpochId, Letter, Sequence};
use membership::{GroupFault, Install};
use std::alloc::{AllocError, Global};

/// A group that was concluded.
#[derive(Drop)]
pub struct Concluded {
    /// The epoch that has begun.
    pub epoch: EpochId,
    /// An Install for each other member, in the order of members.
    pub letters: Sequence<Letter>,
}

impl NodeMaps {
    /// Concludes the open group: those who joined are the members, each bucket gets its manager, and the node enters the epoch.
    /// Nothing exactly where no group is open, and nothing changes.
    ///
    /// # Errors
    ///
    /// Only out of memory. Nothing is then said of the node, which has to go down.
    pub fn conclude(&mut self, alloc: Global, buckets: u32) -> Result<Option<Concluded>, AllocError>
        requires { 0 < buckets }
        ensures { ConcludesAs buckets result self.old self.new }
    {
        let before = copy_installed(&self.group)?;
        let install = match self.group.conclude(alloc, buckets) {
            Ok(install) => install,
            Err(GroupFault::NotAGroup) => return Ok(None),
            Err(GroupFault::NoMemory) => return Err(AllocError),
            Err(GroupFault::OldEpoch) => unreachable!(),
            Err(GroupFault::NotMember) => unreachable!(),
            Err(GroupFault::NotPromised) => unreachable!(),
        };
        let letters = installs(alloc, self.group.own(), &install)?;
        self.enter(alloc, &before, &install)?;
        Ok(Some(Concluded {
            epoch: install.epoch,
            letters,
        }))
    }
}
