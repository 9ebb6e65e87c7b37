// The clock of the system.
use crate::Clock;
use std::time;

/// A clock that shows the time of the system. Where the system tells none, it shows what it showed last, and 0 at first.
#[derive(Drop)]
pub struct SystemClock<'a, R> {
    /// What tells the time.
    system: &'a R,
    /// What it showed last.
    shown: u64,
}

impl<'a, R: time::Clock> SystemClock<'a, R> {
    /// A clock that asks this system.
    pub fn new(system: &'a R) -> SystemClock<'a, R> {
        SystemClock { system, shown: 0 }
    }
}

impl<'a, R: time::Clock> Clock for SystemClock<'a, R> {
    fn seconds(&mut self) -> u64 {
        if let Ok(time) = self.system.since_1970() {
            self.shown = time.as_secs();
        }
        self.shown
    }
}
