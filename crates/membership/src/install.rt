// An epoch with its members and its map.
ghost use Rattle.std.specs.Prelude.{◌≡◌, IfOk};

use mail_base::{EpochId, Member, Sequence, UserMap};
use std::alloc::AllocError;
use std::marker::Model;

/// A membership: an epoch with its members, and the manager of each bucket.
#[derive(Drop)]
pub struct Install {
    /// The epoch.
    pub epoch: EpochId,
    /// Its members.
    pub members: Sequence<Member>,
    /// Who manages each bucket.
    pub map: UserMap,
}

impl Model for Install {
    ghost use Rattle.object_model.specs.Letters.{Membership};

    ghost Value = { Membership };

    ghost view = { λ i. record { epoch = i.epoch; members = i.members; map = i.map } };
}

impl Install {
    /// The membership of these parts. It takes no memory.
    pub fn new(epoch: EpochId, members: Sequence<Member>, map: UserMap) -> Install
        ensures { result ≡ record { epoch = epoch; members = members; map = map } }
    {
        Install {
            epoch,
            members,
            map,
        }
    }

    /// The same once more.
    ///
    /// # Errors
    ///
    /// Only out of memory.
    pub fn copy(&self) -> Result<Install, AllocError>
        ensures { IfOk result (λ install. install ≡ self.now) }
    {
        Ok(Install {
            epoch: self.epoch,
            members: self.members.copy()?,
            map: self.map.copy()?,
        })
    }
}
