// On how many nodes each object is kept, and how many have to confirm it.
ghost use Rattle.std.specs.Prelude.{◌≡◌, ◌≤◌, Some, None, if◌then◌else◌};
ghost use Rattle.mail_model.specs.Tape.{between};

use std::marker::Model;

/// How many copies are made, and how many of them confirm: at least one, and at most all.
///
/// A contract sees the pair.
#[derive(Clone, Copy, Debug)]
pub struct CopyCount {
    made: u64,
    confirm: u64,
}

impl Model for CopyCount {
    ghost use Rattle.std.specs.Prelude.{ℕ, ◌≤◌};

    ghost Value = { ℕ × ℕ };

    ghost view = { λ c. (c.made, c.confirm) };

    ghost inverse = { λ p. record { made = p.0; confirm = p.1 } };

    ghost invariant = { λ c. (1 ≤ c.confirm) × (c.confirm ≤ c.made) };
}

impl CopyCount {
    /// These counts; nothing where fewer than one confirms, or more than there are copies.
    pub fn new(copies: u64, confirm: u64) -> Option<CopyCount>
        ensures { result ≡ (if between 1 confirm copies then Some (copies, confirm) else None) }
    {
        if confirm < 1 || copies < confirm {
            return None;
        }
        Some(CopyCount {
            made: copies,
            confirm,
        })
    }

    /// How many copies are made.
    pub fn copies(self) -> u64
        ensures { result ≡ self.0 }
    {
        self.made
    }

    /// How many of them confirm.
    pub fn confirm(self) -> u64
        ensures confirm { result ≡ self.1 }
        ensures low { 1 ≤ result }
        ensures high { result ≤ self.0 }
    {
        self.confirm
    }
}
