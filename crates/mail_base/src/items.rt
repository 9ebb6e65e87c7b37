// The messages of a listing.
ghost use Rattle.std.specs.Prelude.{◌≡◌, ◌↔◌, [], ◌∷◌, ◌++◌, length, IsTrue, OnOk, OnErr};

use crate::Item;
use std::alloc::{AllocError, Global};
use std::marker::Model;

/// The messages of a maildrop, in the order in which they were pushed. A contract sees the list.
#[derive(Debug, Drop)]
pub struct Items {
    held: Vec<Item>,
}

impl Model for Items {
    ghost use Rattle.std.specs.Prelude.{List};
    ghost use Rattle.mail_base.specs.declared.item.Item.{Item};

    ghost Value = { List Item };

    ghost view = { λ i. i.held.items };
}

impl Items {
    /// No messages. It takes no memory.
    pub fn new(alloc: Global) -> Items
        ensures { result ≡ [] }
    {
        Items {
            held: Vec::new(alloc),
        }
    }

    /// Puts the message after the others.
    ///
    /// # Errors
    ///
    /// Out of memory alone; the list is then as before.
    pub fn push(&mut self, item: Item) -> Result<(), AllocError>
        ensures ok { OnOk result (self.new ≡ self.old ++ item ∷ []) }
        ensures err { OnErr result (self.new ≡ self.old) }
    {
        self.held.push(item)?;
        Ok(())
    }

    /// These messages as a slice.
    pub fn as_slice(&self) -> &[Item]
        ensures { result.now ≡ self.now }
    {
        &self.held
    }

    /// How many messages these are.
    pub fn len(&self) -> usize
        ensures { result ≡ length self.now }
    {
        self.held.len()
    }

    /// Whether there are none.
    pub fn is_empty(&self) -> bool
        ensures { IsTrue result ↔ (self.now ≡ []) }
    {
        self.held.is_empty()
    }
}
