// The users' secrets by name.
ghost use Rattle.std.specs.Prelude.{◌≡◌, nat_eq, is_some, OnOk, OnErr};
ghost use Rattle.std.specs.Option.{option_copied};
ghost use Rattle.std.specs.FinMap as map;

use crate::{Name, Secret};
use std::alloc::{AllocError, Global};
use std::collections::BTreeMap;
use std::marker::Model;

/// The users' secrets by name. A contract sees a finite map.
#[derive(Drop)]
pub struct Users {
    secrets: BTreeMap<Name, Secret>,
}

impl Model for Users {
    ghost use Rattle.std.specs.FinMap as map;
    ghost use Rattle.mail_model.specs.Plan.{Users as Seen};
    ghost use Rattle.mail_base.specs.Codes.{users_code};

    ghost Value = { Seen };

    ghost coded = { users_code };

    ghost view = { λ u. map.from_entries u.secrets.entries };
}

impl Users {
    /// No users. It takes no memory.
    pub fn new(alloc: Global) -> Users
        ensures { result ≡ map.empty }
    {
        Users {
            secrets: BTreeMap::new(alloc),
        }
    }

    /// Gives the user this secret, in place of an earlier one.
    ///
    /// # Errors
    ///
    /// Out of memory alone; the users are then as before.
    pub fn insert(&mut self, name: Name, secret: Secret) -> Result<(), AllocError>
        ensures ok { OnOk result (self.new ≡ map.insert self.old name secret) }
        ensures err { OnErr result (self.new ≡ self.old) }
    {
        self.secrets.insert(name, secret)?;
        Ok(())
    }

    /// Whether there is a user of this name.
    pub fn has(&self, name: &Name) -> bool
        ensures { result ≡ is_some (map.get self.now name.now) }
    {
        self.secret(name).is_some()
    }

    /// The secret of the user of this name; nothing where there is no such user.
    pub fn secret(&self, name: &Name) -> Option<&Secret>
        ensures { option_copied result ≡ map.get self.now name.now }
    {
        self.secrets.get(name)
    }

    /// How many users there are.
    pub fn len(&self) -> usize
        ensures { result ≡ map.len self.now }
    {
        self.secrets.len()
    }

    /// Whether there are none.
    pub fn is_empty(&self) -> bool
        ensures { result ≡ nat_eq (map.len self.now) 0 }
    {
        self.len() == 0
    }
}
