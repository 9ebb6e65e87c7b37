// Octets of any kind, whole.
ghost use Rattle.std.specs.Prelude.{◌≡◌, ◌↔◌, [], length, IsTrue, IfOk};

use std::alloc::{AllocError, Global};
use std::marker::Model;

/// Octets of any kind and number. A contract sees the list.
#[derive(Debug, Drop)]
pub struct Octets {
    held: Vec<u8>,
}

impl Model for Octets {
    ghost use Rattle.std.specs.Prelude.{List, ℕ};

    ghost Value = { List ℕ };

    ghost view = { λ o. o.held.items };
}

impl Octets {
    /// No octets. It takes no memory.
    pub fn new(alloc: Global) -> Octets
        ensures { result ≡ [] }
    {
        Octets {
            held: Vec::new(alloc),
        }
    }

    /// The octets of the vector. It takes no memory.
    pub fn from_vec(held: Vec<u8>) -> Octets
        ensures { result ≡ held.items }
    {
        Octets { held }
    }

    /// The vector of these octets.
    pub fn into_vec(self) -> Vec<u8>
        ensures { result.items ≡ self }
    {
        self.held
    }

    /// These octets as a slice.
    pub fn as_slice(&self) -> &[u8]
        ensures { result.now ≡ self.now }
    {
        &self.held
    }

    /// The same octets once more.
    ///
    /// # Errors
    ///
    /// Out of memory alone.
    pub fn copy(&self) -> Result<Octets, AllocError>
        ensures { IfOk result (λ octets. octets ≡ self.now) }
    {
        Ok(Octets {
            held: self.held.clone()?,
        })
    }

    /// How many octets these are.
    pub fn len(&self) -> usize
        ensures { result ≡ length self.now }
    {
        self.held.len()
    }

    /// Whether there are none.
    pub fn is_empty(&self) -> bool
        ensures { IsTrue result ↔ (self.now ≡ []) }
    {
        self.held.is_empty()
    }
}
