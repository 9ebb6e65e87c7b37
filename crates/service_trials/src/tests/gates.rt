// A gate that holds the session that comes first until another was answered.

use super::signals::Signals;
use io_edge::Gate;

/// Whom a gate holds.
#[derive(Clone, Copy, Debug, PartialEq, Eq)]
pub(super) enum Holds {
    /// Nobody.
    Nobody,
    /// The session that comes first, until another was answered.
    First,
}

/// A gate of a trial.
#[derive(Drop)]
pub(super) struct TrialGate<'a> {
    holds: Holds,
    signals: &'a Signals,
}

impl<'a> TrialGate<'a> {
    pub(super) fn new(holds: Holds, signals: &'a Signals) -> TrialGate<'a> {
        TrialGate { holds, signals }
    }
}

impl<'a> Gate for TrialGate<'a> {
    fn before(&self, session: u64, turn: u64) {
        let _ = turn;
        match self.holds {
            Holds::Nobody => {}
            Holds::First => self.signals.hold_first(session),
        }
    }

    fn after(&self, session: u64, turn: u64) {
        let _ = turn;
        self.signals.answer(session);
    }
}
