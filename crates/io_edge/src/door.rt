// A door gives the connections that come in.
ghost use Rattle.std.specs.Prelude.{List, ℕ, Option};
ghost use Rattle.io_edge.specs.Causes.{HasCause};
ghost use Rattle.io_edge.specs.Doors.{Gives, CountsQuiet};

use crate::{Failed, Sink, Source};

/// What a door answers.
pub enum Accepted<I, O> {
    /// A connection: what comes in by it, and what goes out by it.
    Conn(I, O),
    /// Nobody was there.
    Quiet,
}

/// Where connections come in. Its count of faults never falls, and neither does its number of quiet calls, which is no count
/// of faults.
pub trait Door {
    /// What comes in by a connection.
    type In: Source + Drop + Send;

    /// What goes out by a connection.
    type Out: Sink + Drop + Send;

    /// The connections that are left, the next one first, where told.
    ghost left: { Self → Option (List (Self.In × Self.Out)) };

    /// How many calls answered that nobody was there.
    ghost quiets: { Self → ℕ };

    /// How often it has failed.
    ghost faults: { Self → ℕ };

    /// Gives the next connection, or says that nobody is there. It may rest before it says so. A door that tells which
    /// connections are left says so exactly where none is. A failed call takes none, and a later call may go on.
    fn accept(&mut self) -> Result<Accepted<Self::In, Self::Out>, Failed>
        ensures gives { Gives (left self.old) (left self.new) result }
        ensures quiets { CountsQuiet (quiets self.old) (quiets self.new) result }
        ensures cause { HasCause (faults self.old) (faults self.new) result };
}
