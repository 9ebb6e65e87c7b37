// A list of any kind of value.
ghost use Rattle.std.specs.Prelude.{◌≡◌, ◌↔◌, ◌∷◌, ◌++◌, [], length, IsTrue, IfOk, OnOk, OnErr};

use crate::Copied;
use std::alloc::{AllocError, Global};
use std::marker::Model;

/// Values in the order in which they were pushed, and no limit to their number but memory. A contract sees the list.
#[derive(Debug, Drop)]
pub struct Sequence<T> {
    held: Vec<T>,
}

impl<T> Model for Sequence<T> {
    ghost use Rattle.std.specs.Prelude.{List};

    ghost Value = { List T };

    ghost view = { λ s. s.held.items };
}

impl<T> Sequence<T> {
    /// No values. It takes no memory.
    pub fn new(alloc: Global) -> Sequence<T>
        ensures { result ≡ [] }
    {
        Sequence {
            held: Vec::new(alloc),
        }
    }

    /// The values of the vector. It takes no memory.
    pub fn from_vec(held: Vec<T>) -> Sequence<T>
        ensures { result ≡ held.items }
    {
        Sequence { held }
    }

    /// The vector of these values. It takes no memory.
    pub fn into_vec(self) -> Vec<T>
        ensures { result.items ≡ self }
    {
        self.held
    }

    /// These values as a slice.
    pub fn as_slice(&self) -> &[T]
        ensures { result.now ≡ self.now }
    {
        &self.held
    }

    /// How many values these are.
    pub fn len(&self) -> usize
        ensures { result ≡ length self.now }
    {
        self.held.len()
    }

    /// Whether there are none.
    pub fn is_empty(&self) -> bool
        ensures { IsTrue result ↔ (self.now ≡ []) }
    {
        self.held.is_empty()
    }
}

impl<T: Drop> Sequence<T> {
    /// Puts the value after the others.
    ///
    /// # Errors
    ///
    /// Out of memory alone; the list is then as before.
    pub fn push(&mut self, value: T) -> Result<(), AllocError>
        ensures ok { OnOk result (self.new ≡ self.old ++ value ∷ []) }
        ensures err { OnErr result (self.new ≡ self.old) }
    {
        self.held.push(value)?;
        Ok(())
    }
}

impl<T: Copied + Drop> Sequence<T> {
    /// The same values once more.
    ///
    /// # Errors
    ///
    /// Out of memory alone.
    pub fn copy(&self) -> Result<Sequence<T>, AllocError>
        ensures { IfOk result (λ values. values ≡ self.now) }
    {
        let mut held = Vec::new(*self.held.allocator());
        for value in &self.held {
            held.push(value.copy()?)?;
        }
        Ok(Sequence { held })
    }
}
