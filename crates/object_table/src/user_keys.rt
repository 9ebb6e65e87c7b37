//! The users of whom a table holds something, each with the key of the profile.
ghost use Rattle.std.specs.Prelude.{◌≡◌, List, ℕ, None, IfOk};
ghost use Rattle.std.specs.Option.{option_copied};
ghost use Rattle.object_table.specs.Users.{key_in, Added, TookOut, AreNamesOf};

use mail_base::{Key, Name, Names};
use std::alloc::{AllocError, Global};
use std::collections::BTreeMap;

/// For each user the key of the profile, so that it can be looked up by name without memory.
#[derive(Drop)]
pub(crate) struct UserKeys {
    keys: BTreeMap<Name, Key>,
}

impl UserKeys {
    /// No users. It takes no memory.
    pub(crate) fn new(alloc: Global) -> UserKeys
        ensures { (user : List ℕ) → key_in user result ≡ None }
    {
        UserKeys {
            keys: BTreeMap::new(alloc),
        }
    }

    /// The key of the user's profile; nothing where the user is not among these.
    pub(crate) fn key(&self, user: &Name) -> Option<&Key>
        ensures { option_copied result ≡ key_in user.now self.now }
    {
        self.keys.get(user)
    }

    /// Puts the user among these; true exactly where the user is new.
    pub(crate) fn add(&mut self, user: &Name) -> Result<bool, AllocError>
        ensures { Added user.now result self.old self.new }
    {
        if self.keys.contains_key(user) {
            return Ok(false);
        }
        let name = user.copy()?;
        self.keys.insert(name, Key::Profile(user.copy()?))?;
        Ok(true)
    }

    /// Takes the user out. It takes no memory.
    pub(crate) fn remove(&mut self, user: &Name)
        ensures { TookOut user.now self.old self.new }
    {
        self.keys.remove(user);
    }

    /// The users' names, each once, in order.
    pub(crate) fn names(&self, alloc: Global) -> Result<Names, AllocError>
        ensures { IfOk result (λ names. AreNamesOf names self.now) }
    {
        let mut names = Names::new(alloc);
        for user in self.keys.keys() {
            names.push(user.copy()?)?;
        }
        Ok(names)
    }
}
