// An entry of a journal.

use mail_base::{EpochId, Key, MsgId, ObjState};

/// What one record of a journal says.
#[derive(Drop)]
pub enum DiskEntry {
    /// A boot of the node began.
    Boot { boot: u32 },
    /// The node promised an epoch.
    Promise { epoch: EpochId },
    /// The octets of a message follow, as many as `length` says.
    Octets { id: MsgId, length: u64 },
    /// The state of an object.
    State { key: Key, state: ObjState },
    /// All other targets of this state of the object have it.
    Retired { key: Key, state: ObjState },
}
