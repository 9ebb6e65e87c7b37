//! A fate that is written down.
use io_edge::{Fate, Luck};

/// What becomes of the first eight letters that are looked at, one octet for each: `d` drops it, and `t` hands it over and keeps
/// it in flight. Any other is handed over, and so is each letter after these.
#[derive(Clone, Copy, Debug, PartialEq, Eq)]
pub struct Lots {
    lots: [u8; 8],
    looks: usize,
    drops: u64,
}

impl Lots {
    /// A fate of these eight octets.
    pub fn new(lots: [u8; 8]) -> Lots {
        Lots {
            lots,
            looks: 0,
            drops: 0,
        }
    }
}

impl Fate for Lots {
    ghost decides = { λ old letter luck new. Unit {0} };

    ghost drops = { λ fate. fate.drops };

    fn decide(&mut self, letter: u64) -> Luck {
        let _ = letter;
        let lot = self.lots.get(self.looks).copied();
        self.looks = self.looks.saturating_add(1);
        match lot {
            Some(b'd') => {
                self.drops = self.drops.saturating_add(1);
                Luck::Drop
            }
            Some(b't') => Luck::Twice,
            _ => Luck::Carry,
        }
    }
}
