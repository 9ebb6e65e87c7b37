//! Which users a store knows, and which messages of a user it has.
ghost use Rattle.std.specs.Prelude.{List, IfOk};
ghost use Rattle.mail_model.specs.Record.{Record};
ghost use Rattle.node_store.specs.Keeps.{KeepsRecords};
ghost use Rattle.node_store.specs.Mailboxes.{AreIdsHere, AreUsersSaid};

use crate::store::NodeStore;
use mail_base::{Ids, Name, Names};
use std::alloc::{AllocError, Global};

impl NodeStore {
    /// The ids of the user's messages that are here by what the records say, each once, by node, boot and number. It asks
    /// nothing of the disk, and takes time in the number of the user's objects, and logarithmic in that of all.
    ///
    /// # Errors
    ///
    /// Only out of memory.
    pub fn ids(&self, alloc: Global, user: &Name) -> Result<Ids, AllocError>
        ensures { IfOk result (λ ids. (records : List Record) → KeepsRecords records self.now → AreIdsHere user.now records ids) }
    {
        self.objects.ids(alloc, user)
    }

    /// The users of whom the records say something, each once, in the order of their names. It asks nothing of the disk, and
    /// takes time in their number alone.
    ///
    /// # Errors
    ///
    /// Only out of memory.
    pub fn users(&self, alloc: Global) -> Result<Names, AllocError>
        ensures { IfOk result (λ names. (records : List Record) → KeepsRecords records self.now → AreUsersSaid records names) }
    {
        self.objects.users(alloc)
    }
}
