//! Where octets lie in a journal.
ghost use Rattle.std.specs.Prelude.{◌≡◌, ◌+◌, ◌-◌, ◌<◌, ◌≤◌, ◌^◌, min};

/// Where some octets of a journal lie.
#[derive(Clone, Copy, Debug)]
pub struct Place {
    /// How many octets of the disk lie before them.
    pub at: u64,
    /// How many they are.
    pub length: u64,
    ghost fits: { at + length < 2 ^ 64 },
}

impl Place {
    /// The place of the octets after so many of these.
    pub fn behind(self, skipped: u64) -> Place
        requires { skipped ≤ self.length }
        ensures at { result.at ≡ self.at + skipped }
        ensures length { result.length ≡ self.length - skipped }
    {
        Place {
            at: self.at + skipped,
            length: self.length - skipped,
        }
    }

    /// The place of the first of these octets, so many at most.
    pub fn first(self, most: u64) -> Place
        ensures at { result.at ≡ self.at }
        ensures length { result.length ≡ min most self.length }
    {
        Place {
            at: self.at,
            length: most.min(self.length),
        }
    }

    /// The place of a part of these octets: after so many of them, and so many at most.
    pub fn part(self, from: u64, most: u64) -> Place
        ensures at { result.at ≡ self.at + min from self.length }
        ensures length { result.length ≡ min most (self.length - from) }
    {
        self.behind(from.min(self.length)).first(most)
    }
}
