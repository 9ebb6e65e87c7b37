// The secret of a user.
ghost use Rattle.std.specs.Prelude.{◌≡◌, IsTrue, nat_eq, Some, None, IfOk, if◌then◌else◌};
ghost use Rattle.std.specs.Ordering.{nat_cmp};
ghost use Rattle.std.specs.Cmp.Lexicographic.{pointwise, slice_cmp};
ghost use Rattle.std.specs.List.{list_all};
ghost use Rattle.mail_model.specs.Names.{is_printable, is_secret};

use std::alloc::{AllocError, Global};
use std::cmp::Ordering;
use std::marker::Model;

/// The secret of a user: 1 to 64 printable octets. A contract sees its octets.
#[derive(Drop)]
pub struct Secret {
    octets: Vec<u8>,
}

impl Model for Secret {
    ghost use Rattle.std.specs.Prelude.{List, ℕ, IsTrue};
    ghost use Rattle.mail_model.specs.Names.{is_secret};

    ghost Value = { List ℕ };

    ghost view = { λ s. s.octets.items };

    ghost invariant = { λ s. IsTrue (is_secret s.octets.items) };
}

fn is_printable_octet(x: u8) -> bool
    ensures { result ≡ is_printable x }
{
    0x20 <= x && x <= 0x7E
}

fn all_printable(octets: &[u8]) -> bool
    ensures { result ≡ list_all is_printable octets.now }
{
    octets.iter().all(|x| is_printable_octet(*x))
}

fn is_spelt(octets: &[u8]) -> bool
    ensures { result ≡ is_secret octets.now }
{
    !octets.is_empty() && octets.len() <= 64 && all_printable(octets)
}

impl Secret {
    /// The secret of these octets; nothing exactly where they are no secret: none, more than 64, or one outside 0x20 to 0x7E.
    pub fn read(alloc: Global, octets: &[u8]) -> Result<Option<Secret>, AllocError>
        ensures { IfOk result (λ secret. secret ≡ (if is_secret octets.now then Some octets.now else None)) }
    {
        if !is_spelt(octets) {
            return Ok(None);
        }
        Ok(Some(Secret {
            octets: octets.to_vec(alloc)?,
        }))
    }

    /// Its octets as they were given.
    pub fn octets(&self) -> &[u8]
        ensures octets { result.now ≡ self.now }
        ensures secret { IsTrue (is_secret result.now) }
    {
        &self.octets
    }

    /// The same secret once more.
    ///
    /// # Errors
    ///
    /// Out of memory alone.
    pub fn copy(&self) -> Result<Secret, AllocError>
        ensures { IfOk result (λ secret. secret ≡ self.now) }
    {
        Ok(Secret {
            octets: self.octets.clone()?,
        })
    }

    /// Whether both are the same octets. It takes no memory.
    pub fn is_same(&self, other: &Secret) -> bool
        ensures { result ≡ pointwise nat_eq self.now other.now }
    {
        self.octets() == other.octets()
    }

    /// Which of both comes first by their octets. It takes no memory.
    pub fn compare(&self, other: &Secret) -> Ordering
        ensures { result ≡ slice_cmp nat_cmp self.now other.now }
    {
        self.octets().cmp(other.octets())
    }
}
