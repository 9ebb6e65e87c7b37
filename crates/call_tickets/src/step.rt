//! What a session does next.
use crate::Call;

/// What a session did as it was asked for its next move.
#[derive(Debug, Drop)]
pub enum Move {
    /// It said something: the lines of one reply, or its greeting.
    Said,
    /// It heard a unit that asks this of its node. It hears the next one once that was answered.
    Begin(Call),
    /// Nothing: it waits for the answer to its call.
    Wait,
    /// Nothing: what it was fed has no unit that is whole.
    Idle,
    /// Nothing: it has ended.
    End,
}
