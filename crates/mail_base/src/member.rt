// The members of an epoch, and what they claim.
ghost use Rattle.std.specs.Prelude.{◌≡◌};

use crate::{EpochId, NodeNo};
use std::marker::Model;

/// A member of an epoch.
#[derive(Clone, Copy, Debug)]
pub struct Member {
    /// The node.
    pub node: NodeNo,
    /// The boot in which it joined.
    pub boot: u32,
    /// The epoch that it had installed when it joined; that of no epoch where it had none.
    pub was: EpochId,
}

impl Model for Member {
    ghost use Rattle.object_model.specs.Letters.{Member as Seen};

    ghost Value = { Seen };

    ghost view = { λ m. record { node = m.node; boot = m.boot; was = m.was } };

    ghost inverse = { λ m. record { node = m.node; boot = m.boot; was = m.was } };
}

/// A node says that it manages a bucket of users.
#[derive(Clone, Copy, Debug)]
pub struct Claim {
    /// The node.
    pub node: NodeNo,
    /// The bucket, from 0.
    pub bucket: u32,
    /// The epoch since which the node manages it.
    pub since: EpochId,
}

impl Model for Claim {
    ghost use Rattle.object_model.specs.Letters.{Claim as Seen};

    ghost Value = { Seen };

    ghost view = { λ c. record { node = c.node; bucket = c.bucket; since = c.since } };

    ghost inverse = { λ c. record { node = c.node; bucket = c.bucket; since = c.since } };
}

impl Member {
    /// The member of these parts.
    pub fn new(node: NodeNo, boot: u32, was: EpochId) -> Member
        ensures { result ≡ record { node = node; boot = boot; was = was } }
    {
        Member { node, boot, was }
    }
}

impl Claim {
    /// The claim of these parts.
    pub fn new(node: NodeNo, bucket: u32, since: EpochId) -> Claim
        ensures { result ≡ record { node = node; bucket = bucket; since = since } }
    {
        Claim {
            node,
            bucket,
            since,
        }
    }
}
