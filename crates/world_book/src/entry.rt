//! One entry of the book.
use mail_base::{EpochId, MsgId, Name, NodeNo, NodeSet};

/// One entry of the book.
#[derive(Debug, Drop)]
pub enum Entry {
    /// One user's copy of a message was acknowledged.
    Acked {
        /// Whose mailbox it is in.
        user: Name,
        /// The message's id.
        id: MsgId,
        /// The seconds since 1970 at which the message came.
        seconds: u64,
        /// How many octets it has, with its trace lines.
        length: u64,
        /// The SHA-256 of these octets.
        digest: [u8; 32],
        /// The nodes on whose disks the copy was confirmed.
        confirmers: NodeSet,
    },
    /// One user's copy of a message is to be deleted.
    Struck {
        /// Whose mailbox it is in.
        user: Name,
        /// The message's id.
        id: MsgId,
    },
    /// The deletion of one user's copy of a message was confirmed.
    Dropped {
        /// Whose mailbox it was in.
        user: Name,
        /// The message's id.
        id: MsgId,
        /// The nodes on whose disks the deletion was confirmed.
        confirmers: NodeSet,
    },
    /// A node installed an epoch.
    Installed {
        /// Which node.
        node: NodeNo,
        /// In which boot.
        boot: u32,
        /// Which epoch.
        epoch: EpochId,
    },
    /// A node went down.
    Down {
        /// Which node.
        node: NodeNo,
    },
    /// A node came up.
    Up {
        /// Which node.
        node: NodeNo,
        /// Its boot.
        boot: u32,
    },
    /// A node lost its disk for good.
    Lost {
        /// Which node.
        node: NodeNo,
    },
}
