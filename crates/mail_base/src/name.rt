// The name of a mailbox.
ghost use Rattle.std.specs.Prelude.{◌≡◌, List, ℕ, Some, None, nat_eq, IfOk, IsTrue, refl, if◌then◌else◌};
ghost use Rattle.std.specs.Ordering.{nat_cmp};
ghost use Rattle.std.specs.List.{list_any};
ghost use Rattle.std.specs.Char.{to_ascii_lowercase};
ghost use Rattle.std.specs.Cmp.Lexicographic.{pointwise, slice_cmp, nat_list_eq_equiv, nat_list_cmp_total, texts_ties, texts_po};
ghost use Rattle.std.specs.Cmp.{partial_equiv_from_equiv};
ghost use Rattle.mail_model.specs.Names.{is_no_name_octet, begins_with, is_name, lower, IsLowerName};
ghost use Rattle.mail_base.specs.Answers.{AnswersByRules};
ghost use Rattle.mail_base.specs.NameFaults.{name_fault};

use std::alloc::{AllocError, Global};
use std::cmp::Ordering;
use std::marker::Model;

/// Why octets are no name, in the order in which the rules are tried.
#[derive(Clone, Copy, Debug, PartialEq, Eq)]
pub enum NameFault {
    /// No octets at all.
    Empty,
    /// More than 64 octets.
    TooLong,
    /// `@` stands first, or an octet is outside 0x21 to 0x7E, or is `<` or `>`.
    BadOctet,
    /// No memory was left for the name.
    NoMemory,
}

impl From<AllocError> for NameFault {
    ghost use Rattle.std.specs.Prelude.{◌≡◌};
    ghost use Rattle.mail_base.specs.declared.name.NameFault.TheVariants.{NoMemory};

    ghost from_gives = { λ _ e. e ≡ NoMemory };

    fn from(_: AllocError) -> NameFault {
        NameFault::NoMemory
    }
}

/// The name of a mailbox, in lower case. A contract sees its octets.
#[derive(Debug, Drop)]
pub struct Name {
    octets: Vec<u8>,
}

impl Model for Name {
    ghost use Rattle.std.specs.Prelude.{List, ℕ};
    ghost use Rattle.mail_model.specs.Names.{IsLowerName};

    ghost Value = { List ℕ };

    ghost view = { λ n. n.octets.items };

    ghost invariant = { λ n. IsLowerName n.octets.items };
}

fn is_bad_octet(x: u8) -> bool
    ensures { result ≡ is_no_name_octet x }
{
    x < 0x21 || 0x7E < x || x == b'<' || x == b'>'
}

fn has_bad_octet(octets: &[u8]) -> bool
    ensures { result ≡ list_any is_no_name_octet octets.now }
{
    octets.iter().any(|x| is_bad_octet(*x))
}

fn to_lower(alloc: Global, octets: &[u8]) -> Result<Vec<u8>, AllocError>
    ensures { IfOk result (λ text. text.items ≡ lower octets.now) }
{
    octets.iter().map(|x| x.to_ascii_lowercase()).collect(alloc)
}

fn begins_with_at(octets: &[u8]) -> bool
    ensures { result ≡ begins_with 64 octets.now }
{
    !octets.is_empty() && octets[0] == b'@'
}

/// Whether the octets are a name, in any case: 1 to 64 of them from 0x21 to 0x7E, none `<` or `>`, the
/// first not `@`. It takes no memory.
pub fn spells_name(octets: &[u8]) -> bool
    ensures { result ≡ is_name octets.now }
{
    !octets.is_empty() && octets.len() <= 64 && !(begins_with_at(octets) || has_bad_octet(octets))
}

impl Name {
    // The name that octets without a fault spell.
    fn lowered(alloc: Global, octets: &[u8]) -> Result<Name, AllocError>
        requires { IsTrue (is_name octets.now) }
        ensures { IfOk result (λ name. name ≡ lower octets.now) }
    {
        Ok(Name {
            octets: to_lower(alloc, octets)?,
        })
    }

    /// The name that the octets spell, in lower case; nothing exactly where they are no name.
    pub fn spelt(alloc: Global, octets: &[u8]) -> Result<Option<Name>, AllocError>
        ensures { IfOk result (λ name. name ≡ (if is_name octets.now then Some (lower octets.now) else None)) }
    {
        if !spells_name(octets) {
            return Ok(None);
        }
        Ok(Some(Name::lowered(alloc, octets)?))
    }

    /// The name that the octets spell, in lower case.
    ///
    /// # Errors
    ///
    /// The first rule that is broken, in the order of `NameFault`; out of memory may come in place of the name.
    pub fn read(alloc: Global, octets: &[u8]) -> Result<Name, NameFault>
        ensures { AnswersByRules NameFault.NoMemory result (name_fault octets.now) (λ name. name ≡ lower octets.now) }
    {
        if octets.is_empty() {
            return Err(NameFault::Empty);
        }
        if octets.len() > 64 {
            return Err(NameFault::TooLong);
        }
        if !spells_name(octets) {
            return Err(NameFault::BadOctet);
        }
        Ok(Name::lowered(alloc, octets)?)
    }

    /// Its octets, in lower case.
    pub fn octets(&self) -> &[u8]
        ensures octets { result.now ≡ self.now }
        ensures name { IsLowerName result.now }
    {
        &self.octets
    }

    /// The same name once more.
    ///
    /// # Errors
    ///
    /// Out of memory alone.
    pub fn copy(&self) -> Result<Name, AllocError>
        ensures { IfOk result (λ name. name ≡ self.now) }
    {
        Ok(Name {
            octets: self.octets.clone()?,
        })
    }
}

impl PartialEq for Name {
    ghost eq = { pointwise nat_eq };

    ghost laws = { partial_equiv_from_equiv nat_list_eq_equiv };

    fn eq(&self, other: &Name) -> bool {
        self.octets() == other.octets()
    }
}

impl Eq for Name {
    ghost laws = { nat_list_eq_equiv };
}

impl PartialOrd for Name {
    ghost partial_cmp = { λ x y. Some (slice_cmp nat_cmp x y) };

    ghost laws = { texts_po };

    fn partial_cmp(&self, other: &Name) -> Option<Ordering> {
        Some(self.cmp(other))
    }
}

impl Ord for Name {
    ghost cmp = { slice_cmp nat_cmp };

    ghost total = { nat_list_cmp_total };

    ghost matches_partial_cmp = { λ x y. refl };

    ghost matches_eq = { texts_ties };

    fn cmp(&self, other: &Name) -> Ordering {
        self.octets().cmp(other.octets())
    }
}
