// Which call fails.
ghost use Rattle.std.specs.Prelude.{◌≡◌, ◌-◌, ◌≤◌, ◌↔◌, IsTrue};
ghost use Rattle.io_edge.specs.Faulty.{IsCounted};

/// Counts the calls of an object and makes one of them fail.
#[derive(Clone, Copy, Debug, PartialEq, Eq)]
pub struct Countdown {
    /// How many calls are left up to the one that fails, itself included. 0: none fails any more.
    pub left: u64,
    /// How many calls were made to fail.
    pub faults: u64,
}

impl Countdown {
    /// The call of this number fails, the first one being 1. At 0 none fails.
    pub fn new(call: u64) -> Countdown
        ensures left { result.left ≡ call }
        ensures faults { result.faults ≡ 0 }
    {
        Countdown {
            left: call,
            faults: 0,
        }
    }

    /// Counts a call, and says whether it is the one that fails.
    pub fn strikes(&mut self) -> bool
        ensures strikes { IsTrue result ↔ (self.old.left ≡ 1) }
        ensures left { self.new.left ≡ self.old.left - 1 }
        ensures later { self.old.faults ≤ self.new.faults }
        ensures faults { IsCounted self.old.faults self.new.faults result }
    {
        let strikes = self.left == 1;
        self.left = self.left.saturating_sub(1);
        if strikes {
            self.faults = self.faults.saturating_add(1);
        }
        strikes
    }
}
