// Why a group refuses.
use std::alloc::AllocError;

/// Why a group refuses what it hears.
#[derive(Clone, Copy, Debug, PartialEq, Eq)]
pub enum GroupFault {
    /// The epoch is below the promise, or not above the one that is installed.
    OldEpoch,
    /// The membership does not name the node in its boot.
    NotMember,
    /// The epoch is above the promise.
    NotPromised,
    /// No group of that epoch is open.
    NotAGroup,
    /// Out of memory.
    NoMemory,
}

impl From<AllocError> for GroupFault {
    ghost use Rattle.std.specs.Prelude.{◌≡◌};
    ghost use Rattle.membership.specs.declared.fault.GroupFault.TheVariants.{NoMemory};

    ghost from_gives = { λ _ e. e ≡ NoMemory };

    fn from(_: AllocError) -> GroupFault {
        GroupFault::NoMemory
    }
}
