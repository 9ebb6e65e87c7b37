// The records of a node's disk.
use mail_model::plain::{Fate, Id, Stamp};

/// One thing that a node wrote.
#[derive(Clone, Copy, Debug)]
pub enum Record<'a> {
    /// A boot of the node began.
    Boot {
        boot: u32,
    },
    /// An epoch was promised: its count, and the node that formed it.
    Promise {
        count: u64,
        node: u8,
    },
    /// The octets of a message.
    Octets {
        id: Id,
        octets: &'a [u8],
    },
    /// The state of a user's copy of a message.
    Copy {
        user: &'a [u8],
        id: Id,
        fate: Fate,
        stamp: Stamp,
        targets: u16,
    },
    /// The secret of a user.
    Profile {
        user: &'a [u8],
        secret: &'a [u8],
        stamp: Stamp,
        targets: u16,
    },
    /// All other targets of this state of a copy have it.
    Retired {
        user: &'a [u8],
        id: Id,
        fate: Fate,
        stamp: Stamp,
        targets: u16,
    },
}
