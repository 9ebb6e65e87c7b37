// What a node says of a user.
ghost use Rattle.std.specs.Prelude.{◌≡◌, IfOk};

use crate::{Name, NodeNo, Secret, Stamp};
use std::alloc::AllocError;
use std::marker::Model;

/// What a node tells the manager of a user: whether it holds a message of the user, and its profile of the user.
#[derive(Drop)]
pub struct Row {
    /// The user.
    pub user: Name,
    /// The node that says so.
    pub node: NodeNo,
    /// The boot of that node.
    pub boot: u32,
    /// The version, which rises by one with each change in that boot.
    pub version: u64,
    /// Whether the node holds a message of the user.
    pub full: bool,
    /// The stamp and the secret of the node's profile of the user, where it has one.
    pub profile: Option<(Stamp, Secret)>,
}

impl Model for Row {
    ghost use Rattle.object_model.specs.Letters.{Row as Seen};

    ghost Value = { Seen };

    ghost view = { λ r. record {
      user = r.user;
      node = r.node;
      boot = r.boot;
      version = r.version;
      full = r.full;
      profile = r.profile;
    } };
}

fn copy_profile(profile: &Option<(Stamp, Secret)>) -> Result<Option<(Stamp, Secret)>, AllocError>
    ensures { IfOk result (λ copy. copy ≡ profile.now) }
{
    match profile {
        Some((stamp, secret)) => Ok(Some((*stamp, secret.copy()?))),
        None => Ok(None),
    }
}

impl Row {
    /// The same row once more.
    ///
    /// # Errors
    ///
    /// Out of memory alone.
    pub fn copy(&self) -> Result<Row, AllocError>
        ensures { IfOk result (λ row. row ≡ self.now) }
    {
        Ok(Row {
            user: self.user.copy()?,
            node: self.node,
            boot: self.boot,
            version: self.version,
            full: self.full,
            profile: copy_profile(&self.profile)?,
        })
    }
}
