// A list of names.
ghost use Rattle.std.specs.Prelude.{◌≡◌, ◌↔◌, [], ◌∷◌, ◌++◌, length, IsTrue, IfOk, OnOk, OnErr};
ghost use Rattle.mail_model.specs.Session.{stands_in};

use crate::Name;
use std::alloc::{AllocError, Global};
use std::marker::Model;

/// Names in the order in which they were pushed. A contract sees the list of their octets.
#[derive(Debug, Drop)]
pub struct Names {
    held: Vec<Name>,
}

impl Model for Names {
    ghost use Rattle.std.specs.Prelude.{List, ℕ};

    ghost Value = { List (List ℕ) };

    ghost view = { λ n. n.held.items };
}

impl Names {
    /// No names. It takes no memory.
    pub fn new(alloc: Global) -> Names
        ensures { result ≡ [] }
    {
        Names {
            held: Vec::new(alloc),
        }
    }

    /// The names of the vector. It takes no memory.
    pub fn from_vec(held: Vec<Name>) -> Names
        ensures { result ≡ held.items }
    {
        Names { held }
    }

    /// The same names once more.
    ///
    /// # Errors
    ///
    /// Out of memory alone.
    pub fn copy(&self) -> Result<Names, AllocError>
        ensures { IfOk result (λ names. names ≡ self.now) }
    {
        let mut held = Vec::new(*self.held.allocator());
        for name in &self.held {
            held.push(name.copy()?)?;
        }
        Ok(Names { held })
    }

    /// Puts the name after the others.
    ///
    /// # Errors
    ///
    /// Out of memory alone; the list is then as before.
    pub fn push(&mut self, name: Name) -> Result<(), AllocError>
        ensures ok { OnOk result (self.new ≡ self.old ++ name ∷ []) }
        ensures err { OnErr result (self.new ≡ self.old) }
    {
        self.held.push(name)?;
        Ok(())
    }

    /// How many names these are.
    pub fn len(&self) -> usize
        ensures { result ≡ length self.now }
    {
        self.held.len()
    }

    /// Whether there are none.
    pub fn is_empty(&self) -> bool
        ensures { IsTrue result ↔ (self.now ≡ []) }
    {
        self.held.is_empty()
    }

    /// Whether the name is one of these, by its octets.
    pub fn contains(&self, name: &Name) -> bool
        ensures { result ≡ stands_in self.now name.now }
    {
        self.held.iter().any(|other| *other == *name)
    }

    /// The vector of these names. It takes no memory.
    pub fn into_vec(self) -> Vec<Name>
        ensures { result.items ≡ self }
    {
        self.held
    }

    /// These names as a slice.
    pub fn as_slice(&self) -> &[Name]
        ensures { result.now ≡ self.now }
    {
        &self.held
    }
}
