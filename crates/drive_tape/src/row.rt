// A list that contracts see as a list.
ghost use Rattle.std.specs.Prelude.{◌≡◌, ◌∷◌, ◌++◌, [], OnOk, OnErr};

use std::alloc::{AllocError, Global};
use std::marker::Model;

/// Items in the order in which they were pushed, and no limit to their number but memory. A contract sees the list.
#[derive(Debug, Drop)]
pub struct Row<T> {
    items: Vec<T>,
}

impl<T> Model for Row<T> {
    ghost use Rattle.std.specs.Prelude.{List};

    ghost Value = { List T };

    ghost view = { λ r. r.items.items };
}

impl<T> Row<T> {
    /// No items. It takes no memory.
    pub fn new(alloc: Global) -> Row<T>
        ensures { result ≡ [] }
    {
        Row {
            items: Vec::new(alloc),
        }
    }

    /// The items, the first that was pushed coming first.
    pub fn as_slice(&self) -> &[T]
        ensures { result.now ≡ self.now }
    {
        &self.items
    }
}

impl<T: Drop> Row<T> {
    /// Puts the item after the others.
    ///
    /// # Errors
    ///
    /// Out of memory alone; the row is then as before.
    pub fn push(&mut self, item: T) -> Result<(), AllocError>
        ensures ok { OnOk result (self.new ≡ self.old ++ item ∷ []) }
        ensures err { OnErr result (self.new ≡ self.old) }
    {
        self.items.push(item)?;
        Ok(())
    }
}
