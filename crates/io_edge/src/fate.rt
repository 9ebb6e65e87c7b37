// What becomes of letters, and what time it is.
ghost use Rattle.std.specs.Prelude.{◌≡◌, ◌≤◌, ℕ};
ghost use Rattle.io_edge.specs.Causes.{Rose};
ghost use Rattle.io_edge.specs.declared.fate.Luck.{Luck as ALuck};
ghost use Rattle.io_edge.specs.declared.fate.Luck.TheVariants.{Drop as Dropped};

/// What becomes of a letter.
#[derive(Clone, Copy, Debug, PartialEq, Eq)]
pub enum Luck {
    /// It is handed to its receiver.
    Carry,
    /// It is lost.
    Drop,
    /// It is handed over, and stays in flight.
    Twice,
}

/// Says what becomes of letters. Its count is of those that it drops, and never falls.
pub trait Fate {
    /// What it decided of a letter.
    ghost decides: { Self → ℕ → ALuck → Self → Type 0 };

    /// How many letters it has dropped.
    ghost drops: { Self → ℕ };

    /// What becomes of the letter of this number.
    fn decide(&mut self, letter: u64) -> Luck
        ensures decides { decides self.old letter result self.new }
        ensures later { drops self.old ≤ drops self.new }
        ensures dropped { result ≡ Dropped → Rose (drops self.old) (drops self.new) };
}

/// Tells the time.
pub trait Clock {
    /// The seconds since 1970. They may be any, and may fall.
    fn seconds(&mut self) -> u64;
}

/// A fate that carries each letter once.
#[derive(Clone, Copy, Debug, PartialEq, Eq)]
pub struct CarryAll;

impl Fate for CarryAll {
    ghost use Rattle.io_edge.specs.declared.fate.Luck.TheVariants.{Carry};

    ghost decides = { λ old letter luck new. luck ≡ Carry };

    ghost drops = { λ fate. 0 };

    fn decide(&mut self, letter: u64) -> Luck {
        let _ = letter;
        Luck::Carry
    }
}

/// A clock that stands.
#[derive(Clone, Copy, Debug, PartialEq, Eq)]
pub struct SetClock {
    /// The seconds since 1970 that it shows.
    pub seconds: u64,
}

impl Clock for SetClock {
    fn seconds(&mut self) -> u64 {
        self.seconds
    }
}
