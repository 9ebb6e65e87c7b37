//! Why a change was not recorded, or nothing was read.

use std::alloc::AllocError;

/// Why a change was not recorded.
#[derive(Clone, Copy, Debug, PartialEq, Eq)]
pub enum KeepFault {
    /// The disk failed in this call.
    Disk,
    /// Out of memory.
    NoMemory,
}

impl From<AllocError> for KeepFault {
    ghost use Rattle.std.specs.Prelude.{◌≡◌};
    ghost use Rattle.node_store.specs.declared.fault.KeepFault.TheVariants as fault;

    ghost from_gives = { λ _ e. e ≡ fault.NoMemory };

    fn from(_: AllocError) -> KeepFault {
        KeepFault::NoMemory
    }
}

/// Why a journal, or octets of it, were not read.
#[derive(Clone, Copy, Debug, PartialEq, Eq)]
pub enum ReadFault {
    /// The disk failed in this call.
    Disk,
    /// What the disk gave is no journal of the node, or one with a payload that spells no record.
    NotAJournal,
    /// Out of memory.
    NoMemory,
}

impl From<AllocError> for ReadFault {
    ghost use Rattle.std.specs.Prelude.{◌≡◌};
    ghost use Rattle.node_store.specs.declared.fault.ReadFault.TheVariants as fault;

    ghost from_gives = { λ _ e. e ≡ fault.NoMemory };

    fn from(_: AllocError) -> ReadFault {
        ReadFault::NoMemory
    }
}
