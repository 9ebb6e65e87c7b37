//! Why a call on a message store did not do its work.

use disk_journal::JournalFault;
use std::alloc::AllocError;

/// Why a call on a message store did not do its work.
#[derive(Clone, Copy, Debug, PartialEq, Eq)]
pub enum StoreFault {
    /// The disk failed in this call.
    DiskFault,
    /// No record of the id is noted.
    NotHere,
    /// What lies at the place is no record of the message's octets.
    NotAJournal,
    /// The record would have more than 16,842,752 octets.
    TooLarge,
    /// Out of memory; nothing was written.
    NoMemory,
}

impl From<JournalFault> for StoreFault {
    ghost use Rattle.std.specs.Prelude.{◌≡◌};
    ghost use Rattle.message_store.specs.Faults.{of_journal};

    ghost from_gives = { λ f e. e ≡ of_journal f };

    fn from(fault: JournalFault) -> StoreFault {
        match fault {
            JournalFault::DiskFault => StoreFault::DiskFault,
            JournalFault::NotAJournal => StoreFault::NotAJournal,
            JournalFault::TooLarge => StoreFault::TooLarge,
            JournalFault::NoMemory => StoreFault::NoMemory,
        }
    }
}

impl From<AllocError> for StoreFault {
    ghost use Rattle.std.specs.Prelude.{◌≡◌};
    ghost use Rattle.message_store.specs.declared.fault.StoreFault.TheVariants as fault;

    ghost from_gives = { λ _ e. e ≡ fault.NoMemory };

    fn from(_: AllocError) -> StoreFault {
        StoreFault::NoMemory
    }
}
