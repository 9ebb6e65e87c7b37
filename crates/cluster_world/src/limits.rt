//! The limits of letters.

/// How many letters may be in flight.
pub(crate) const MOST_LETTERS: usize = 65_536;
/// How many octets they may have together.
pub(crate) const MOST_OCTETS: u64 = 536_870_912;
/// From this number on no letter is sent: each step may send some.
pub(crate) const LETTERS_END: u64 = 18_446_744_069_414_584_320;
