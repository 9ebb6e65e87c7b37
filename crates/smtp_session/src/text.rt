// The text of a message as its octets come.
ghost use Rattle.std.specs.Prelude.{◌≡◌, ◌++◌, ◌||◌, [], List, ℕ, Bool, true, false, nat_lt, length, take, IfOk, OnErr};
ghost use Rattle.dot_text.specs.Places.{Undots, Feeds, IsWithin};
ghost use Rattle.smtp_session.specs.Texts.{Grows, SettlesText};

use dot_text::{Cut, Undotter};
use mail_base::Octets;
use std::alloc::{AllocError, Global};
use std::marker::Model;

// how many octets a text may have once the periods are taken off
const LIMIT: usize = 16_777_216;

/// A text so far: its octets without the periods that lead its lines. Of one that has passed the limit of
/// 16,777,216 octets nothing is kept, once it was `settle`d. A contract sees the octets, and whether they were
/// let go.
#[derive(Debug, Drop)]
pub struct Text {
    octets: Vec<u8>,
    gone: bool,
}

impl Model for Text {
    ghost use Rattle.std.specs.Prelude.{List, ℕ, Bool};

    ghost Value = { List ℕ × Bool };

    ghost view = { λ t. (t.octets.items, t.gone) };
}

impl Text {
    /// No text. It takes no memory.
    pub fn new(alloc: Global) -> Text
        ensures { result ≡ ([], false) }
    {
        Text {
            octets: Vec::new(alloc),
            gone: false,
        }
    }

    /// Whether the text has passed the limit of 16,777,216 octets.
    pub fn is_large(&self) -> bool
        ensures { result ≡ (self.now.1 || nat_lt 16777216 (length self.now.0)) }
    {
        self.gone || self.octets.len() > LIMIT
    }

    /// How many octets are kept.
    pub fn kept(&self) -> usize
        ensures { result ≡ length self.now.0 }
    {
        self.octets.len()
    }

    /// The octets that were kept. It takes no memory.
    pub fn into_octets(self) -> Octets
        ensures { result ≡ self.0 }
    {
        Octets::from_vec(self.octets)
    }

    /// Keeps the first octets, so many of them.
    pub fn truncate(&mut self, count: usize)
        ensures { self.new ≡ (take count self.old.0, self.old.1) }
    {
        self.octets.truncate(count);
    }

    /// Takes up what the undotter gives of the next octets, up to the end of the text (RFC 5321, section
    /// 4.5.2), and says where that is.
    ///
    /// # Errors
    ///
    /// Out of memory alone; the text and the undotter are then as before.
    pub fn read(
        &mut self,
        alloc: Global,
        undotter: &mut Undotter,
        piece: &[u8],
    ) -> Result<Cut, AllocError>
        ensures ok { IfOk result (λ cut. (more : List ℕ) × Grows self.old more self.new × ((fed given : List ℕ) → Undots undotter.old fed given → Feeds cut undotter.new fed piece.now (given ++ more))) }
        ensures used { IfOk result (λ cut. IsWithin cut piece.now) }
        ensures err { OnErr result ((self.new ≡ self.old) × (undotter.new ≡ undotter.old)) }
    {
        if self.gone {
            let mut passed = Vec::new(alloc);
            return undotter.feed(piece, &mut passed);
        }
        undotter.feed(piece, &mut self.octets)
    }

    /// Lets the octets of a text go that has passed the limit. It takes no memory.
    pub fn settle(&mut self, alloc: Global)
        ensures { SettlesText self.old self.new }
    {
        if self.octets.len() > LIMIT {
            self.octets = Vec::new(alloc);
            self.gone = true;
        }
    }
}
