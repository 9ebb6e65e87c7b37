// What the beginning of a call leaves to be asked for.
ghost use Rattle.std.specs.Prelude.{◌≡◌, IfOk};

use crate::{MsgId, Names};
use std::alloc::AllocError;

/// The kind of a call that has a ticket.
#[derive(Clone, Copy, Debug, PartialEq, Eq)]
pub enum CallKind {
    /// Stores a message.
    Deliver,
    /// Opens a maildrop and lists it.
    Login,
    /// Reads a part of a message.
    Fetch,
    /// Deletes messages.
    Strike,
}

/// What a delivery filed.
#[derive(Debug, Drop)]
pub struct Filing {
    /// The message.
    pub id: MsgId,
    /// Its users, each once.
    pub users: Names,
    /// The seconds since 1970 at which it came.
    pub seconds: u64,
    /// How many octets it has, with its trace lines.
    pub length: u64,
    /// The SHA-256 of these octets.
    pub digest: [u8; 32],
}

/// What stands under a ticket: the kind of its call, and what it filed, where it is a delivery that filed something.
#[derive(Debug, Drop)]
pub struct Begun {
    /// The kind of the call.
    pub kind: CallKind,
    /// What the delivery filed.
    pub filing: Option<Filing>,
}

fn copy_filing(filing: &Option<Filing>) -> Result<Option<Filing>, AllocError>
    ensures { IfOk result (λ copy. copy ≡ filing.now) }
{
    match filing {
        Some(filing) => Ok(Some(filing.copy()?)),
        None => Ok(None),
    }
}

impl Filing {
    /// The same filing once more.
    ///
    /// # Errors
    ///
    /// Out of memory alone.
    pub fn copy(&self) -> Result<Filing, AllocError>
        ensures { IfOk result (λ filing. filing ≡ self.now) }
    {
        Ok(Filing {
            id: self.id,
            users: self.users.copy()?,
            seconds: self.seconds,
            length: self.length,
            digest: self.digest,
        })
    }
}

impl Begun {
    /// The same once more.
    ///
    /// # Errors
    ///
    /// Out of memory alone.
    pub fn copy(&self) -> Result<Begun, AllocError>
        ensures { IfOk result (λ begun. begun ≡ self.now) }
    {
        Ok(Begun {
            kind: self.kind,
            filing: copy_filing(&self.filing)?,
        })
    }
}
