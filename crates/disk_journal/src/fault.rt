//! Why a call on a journal did not do its work.
use io_edge::Failed;
use std::alloc::AllocError;

/// Why a call on a journal did not do its work.
#[derive(Clone, Copy, Debug, PartialEq, Eq)]
pub enum JournalFault {
    /// The disk failed in this call.
    DiskFault,
    /// The disk holds no journal of this form and node, or ends before its first closed gate; at a read, before the
    /// record does.
    NotAJournal,
    /// The payload has more than 16,842,752 octets.
    TooLarge,
    /// Out of memory; nothing was written.
    NoMemory,
}

impl From<Failed> for JournalFault {
    ghost use Rattle.std.specs.Prelude.{◌≡◌};
    ghost use Rattle.disk_journal.specs.declared.fault.JournalFault.TheVariants as fault;

    ghost from_gives = { λ _ e. e ≡ fault.DiskFault };

    fn from(_: Failed) -> JournalFault {
        JournalFault::DiskFault
    }
}

impl From<AllocError> for JournalFault {
    ghost use Rattle.std.specs.Prelude.{◌≡◌};
    ghost use Rattle.disk_journal.specs.declared.fault.JournalFault.TheVariants as fault;

    ghost from_gives = { λ _ e. e ≡ fault.NoMemory };

    fn from(_: AllocError) -> JournalFault {
        JournalFault::NoMemory
    }
}
