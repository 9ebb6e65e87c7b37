// What may hold a session between its turns.

/// What is told of each turn of a session: a turn is the work for one call that has an answer. It may wait, so that a test
/// says whose turn comes when.
pub trait Gate {
    /// The session is about to begin the call of this turn. Its turns are numbered from 1.
    fn before(&self, session: u64, turn: u64);

    /// What the answer gave was written.
    fn after(&self, session: u64, turn: u64);
}

/// A gate that holds nobody.
#[derive(Clone, Copy, Debug, PartialEq, Eq)]
pub struct OpenGate;

impl Gate for OpenGate {
    fn before(&self, session: u64, turn: u64) {
        let _ = (session, turn);
    }

    fn after(&self, session: u64, turn: u64) {
        let _ = (session, turn);
    }
}
