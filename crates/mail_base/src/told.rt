// What one node asks of another, or tells it, of messages.
ghost use Rattle.std.specs.Prelude.{◌≡◌, IfOk};

use crate::{MsgId, NodeSet, Octets, Stamp, Ticket};
use std::alloc::AllocError;
use std::marker::Model;

/// One deletion of a Strike.
#[derive(Clone, Copy, Debug)]
pub struct StrikeMark {
    /// The message.
    pub id: MsgId,
    /// The stamp of the state that says that it is gone.
    pub stamp: Stamp,
}

impl Model for StrikeMark {
    ghost use Rattle.object_model.specs.Letters.{DeletionMark};

    ghost Value = { DeletionMark };

    ghost view = { λ m. record { id = m.id; stamp = m.stamp } };

    ghost inverse = { λ m. record { id = m.id; stamp = m.stamp } };
}

impl StrikeMark {
    /// The deletion of these parts.
    pub fn new(id: MsgId, stamp: Stamp) -> StrikeMark
        ensures { result ≡ record { id = id; stamp = stamp } }
    {
        StrikeMark { id, stamp }
    }
}

/// One message that a node lists.
#[derive(Clone, Copy, Debug)]
pub struct ToldItem {
    /// The message.
    pub id: MsgId,
    /// The stamp of the state that says that it is here.
    pub stamp: Stamp,
    /// The nodes that are to hold it.
    pub targets: NodeSet,
    /// How many octets it has as it is stored, with its trace lines.
    pub length: u64,
}

impl Model for ToldItem {
    ghost use Rattle.object_model.specs.Letters.{ToldItem as Seen};

    ghost Value = { Seen };

    ghost view = { λ i. record { id = i.id; stamp = i.stamp; targets = i.targets; size = i.length } };

    ghost inverse = { λ i. record { id = i.id; stamp = i.stamp; targets = i.targets; length = i.size } };
}

impl ToldItem {
    /// The message of these parts.
    pub fn new(id: MsgId, stamp: Stamp, targets: NodeSet, length: u64) -> ToldItem
        ensures { result ≡ record { id = id; stamp = stamp; targets = targets; size = length } }
    {
        ToldItem {
            id,
            stamp,
            targets,
            length,
        }
    }
}

/// What a manager answers to a login.
#[derive(Clone, Copy, Debug)]
pub enum LoginWord {
    /// The proof is right: these nodes hold messages of the user.
    Named(NodeSet),
    /// The proof is not right by the profile of this stamp.
    Wrong(Stamp),
    /// Another login has the maildrop.
    InUse(Ticket),
    /// The manager has no profile of the user.
    NoProfile,
}

impl LoginWord {
    /// The same word once more.
    pub fn copy(&self) -> LoginWord
        ensures { result ≡ self.now }
    {
        match self {
            LoginWord::Named(nodes) => LoginWord::Named(*nodes),
            LoginWord::Wrong(stamp) => LoginWord::Wrong(*stamp),
            LoginWord::InUse(by) => LoginWord::InUse(*by),
            LoginWord::NoProfile => LoginWord::NoProfile,
        }
    }
}

/// What a node answers to a fetch.
#[derive(Debug, Drop)]
pub enum ToldPart {
    /// Octets of the message.
    Octets {
        /// These octets, as many as there are and were asked for.
        octets: Octets,
        /// How many octets the message has.
        whole: u64,
    },
    /// The user has no such message there.
    Gone {
        /// The stamp of the state that says that it is gone; 0 in each part where the node knows nothing of it.
        stamp: Stamp,
    },
}

impl ToldPart {
    /// The same part once more.
    ///
    /// # Errors
    ///
    /// Out of memory alone.
    pub fn copy(&self) -> Result<ToldPart, AllocError>
        ensures { IfOk result (λ part. part ≡ self.now) }
    {
        Ok(match self {
            ToldPart::Octets { octets, whole } => ToldPart::Octets {
                octets: octets.copy()?,
                whole: *whole,
            },
            ToldPart::Gone { stamp } => ToldPart::Gone { stamp: *stamp },
        })
    }
}
