//! A list of entries that only grows.
ghost use Rattle.std.specs.Prelude.{◌≡◌, ◌+◌, ◌≤◌, ◌<◌, ◌++◌, ◌∷◌, [], OnOk, OnErr, length};
ghost use Rattle.world_book.specs.Books.{entries_of, spare_of};

use crate::entry::Entry;
use std::alloc::{AllocError, Global};

/// A list of entries that only grows, with room that was made beforehand.
#[derive(Debug, Drop)]
pub struct Book {
    entries: Vec<Entry>,
}

impl Book {
    /// A book without entries and without room. It takes no memory.
    pub fn new(alloc: Global) -> Book
        ensures { entries_of result ≡ [] }
    {
        Book {
            entries: Vec::new(alloc),
        }
    }

    /// The entries, in the order in which they were added. It takes no memory.
    pub fn entries(&self) -> &[Entry]
        ensures { result.now ≡ entries_of self.now }
    {
        &self.entries
    }

    /// Makes room for at least so many entries more; the entries stay.
    ///
    /// # Errors
    ///
    /// Out of memory alone; entries and room are then as before.
    pub fn reserve(&mut self, extra: usize) -> Result<(), AllocError>
        ensures entries { entries_of self.new ≡ entries_of self.old }
        ensures spare { OnOk result (extra ≤ spare_of self.new) }
        ensures err { OnErr result (spare_of self.new ≡ spare_of self.old) }
    {
        self.entries.reserve(extra)
    }

    /// Puts the entry after the others, into room that was made before. It takes no memory.
    pub fn add(&mut self, entry: Entry)
        requires { 0 < spare_of self.old }
        ensures entries { entries_of self.new ≡ entries_of self.old ++ entry ∷ [] }
        ensures spare { spare_of self.new + 1 ≡ spare_of self.old }
    {
        self.entries.push_reserved(entry);
    }

    /// Puts the entries after the others, in their order, into room that was made before. It takes no memory.
    pub fn add_all(&mut self, entries: Vec<Entry>)
        requires { length entries.items ≤ spare_of self.old }
        ensures entries { entries_of self.new ≡ entries_of self.old ++ entries.items }
        ensures spare { spare_of self.new + length entries.items ≡ spare_of self.old }
    {
        for entry in entries {
            self.add(entry);
        }
    }
}
