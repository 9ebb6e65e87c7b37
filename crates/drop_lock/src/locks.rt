// The locks of maildrops.
ghost use Rattle.std.specs.Prelude.{◌≡◌, OnOk, OnErr};
ghost use Rattle.std.specs.FinMap as map;
ghost use Rattle.object_model.specs.Locks.{released, no_locks};
ghost use Rattle.drop_lock.specs.Locks.{TakesLock};

use mail_base::{Name, Ticket};
use std::alloc::{AllocError, Global};
use std::collections::BTreeMap;
use std::marker::Model;

/// Why a lock was not taken.
#[derive(Clone, Copy, Debug)]
pub enum LockFault {
    /// This ticket holds the lock.
    InUse(Ticket),
    /// Out of memory.
    NoMemory,
}

impl From<AllocError> for LockFault {
    ghost use Rattle.std.specs.Prelude.{◌≡◌};
    ghost use Rattle.drop_lock.specs.declared.locks.LockFault.TheVariants.{NoMemory};

    ghost from_gives = { λ _ e. e ≡ NoMemory };

    fn from(_: AllocError) -> LockFault {
        LockFault::NoMemory
    }
}

/// The ticket that holds each user's maildrop. A contract sees a finite map by name.
#[derive(Drop)]
pub struct Locks {
    held: BTreeMap<Name, Ticket>,
}

impl Model for Locks {
    ghost use Rattle.std.specs.FinMap as map;
    ghost use Rattle.object_model.specs.Locks.{Held};
    ghost use Rattle.drop_lock.specs.Held.{held_code};

    ghost Value = { Held };

    ghost coded = { held_code };

    ghost view = { λ l. map.from_entries l.held.entries };
}

impl Locks {
    /// No locks. It takes no memory.
    pub fn new(alloc: Global) -> Locks
        ensures { result ≡ no_locks }
    {
        Locks {
            held: BTreeMap::new(alloc),
        }
    }

    /// The ticket that holds the user's lock; nothing where it is free. It takes no memory.
    pub fn holder(&self, user: &Name) -> Option<Ticket>
        ensures { result ≡ map.get self.now user.now }
    {
        self.held.get(user).copied()
    }

    // Gives the lock to the ticket, whoever holds it.
    fn hold(&mut self, user: &Name, ticket: Ticket) -> Result<(), AllocError>
        ensures ok { OnOk result (self.new ≡ map.insert self.old user.now ticket) }
        ensures err { OnErr result (self.new ≡ self.old) }
    {
        self.held.insert(user.copy()?, ticket)?;
        Ok(())
    }

    /// Takes the user's lock for the ticket, which may hold it already.
    ///
    /// # Errors
    ///
    /// `InUse` exactly where another ticket holds the lock, with that ticket; or `NoMemory`, where the lock is free.
    /// The locks are then as before.
    pub fn take(&mut self, user: &Name, ticket: Ticket) -> Result<(), LockFault>
        ensures { TakesLock result user.now ticket self.old self.new }
    {
        match self.holder(user) {
            Some(by) => {
                if by != ticket {
                    return Err(LockFault::InUse(by));
                }
                Ok(())
            }
            None => {
                self.hold(user, ticket)?;
                Ok(())
            }
        }
    }

    /// Lets the user's lock go where this ticket holds it, and changes nothing else. It takes no memory.
    pub fn release(&mut self, user: &Name, ticket: Ticket)
        ensures { self.new ≡ released user.now ticket self.old }
    {
        if let Some(by) = self.holder(user) {
            if by == ticket {
                self.held.remove(user);
            }
        }
    }

    /// Lets all locks go. It takes no memory.
    pub fn clear(&mut self)
        ensures { self.new ≡ no_locks }
    {
        self.held.clear();
    }
}
