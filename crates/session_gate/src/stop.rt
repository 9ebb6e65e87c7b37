//! Why a session is left off, and how a connection ended.
ghost use Rattle.std.specs.Prelude.{◌≡◌};
ghost use Rattle.session_gate.specs.Connections.{ServedAs, LeftOffAs};

use io_edge::Failed;
use std::alloc::AllocError;

/// How a connection ended.
#[derive(Clone, Copy, Debug, PartialEq, Eq)]
pub enum Served {
    /// The source was read to its end, or the session ended, or its node was not up.
    Ended,
    /// The source failed.
    ReadFault,
    /// The sink failed.
    WriteFault,
    /// As many octets were taken as a connection may send: 1,099,511,627,776.
    TooLong,
    /// Memory ran out.
    NoMemory,
}

/// Why a session is left off in the midst of what it does.
#[derive(Clone, Copy, Debug, PartialEq, Eq)]
pub(crate) enum Stop {
    WriteFault,
    NoMemory,
}

/// How a connection ended, and whether the session's node went down.
#[derive(Clone, Copy, Debug, PartialEq, Eq)]
pub(crate) enum Close {
    /// The node went down, and that was said.
    Fell,
    /// The node went down, and the sink failed as that was said.
    FellUnwritten,
    Ended,
    ReadFault,
    WriteFault,
    TooLong,
    NoMemory,
}

impl Close {
    pub fn served(self) -> Served
        ensures { ServedAs self result }
    {
        match self {
            Close::Fell => Served::Ended,
            Close::FellUnwritten => Served::WriteFault,
            Close::Ended => Served::Ended,
            Close::ReadFault => Served::ReadFault,
            Close::WriteFault => Served::WriteFault,
            Close::TooLong => Served::TooLong,
            Close::NoMemory => Served::NoMemory,
        }
    }
}

pub(crate) fn left_off(stop: Stop) -> Close
    ensures { LeftOffAs stop result }
{
    match stop {
        Stop::WriteFault => Close::WriteFault,
        Stop::NoMemory => Close::NoMemory,
    }
}

impl From<Failed> for Stop {
    ghost use Rattle.std.specs.Prelude.{◌≡◌};
    ghost use Rattle.session_gate.specs.declared.stop.Stop.TheVariants.{WriteFault};

    ghost from_gives = { λ _ e. e ≡ WriteFault };

    fn from(_: Failed) -> Stop {
        Stop::WriteFault
    }
}

impl From<AllocError> for Stop {
    ghost use Rattle.std.specs.Prelude.{◌≡◌};
    ghost use Rattle.session_gate.specs.declared.stop.Stop.TheVariants.{NoMemory};

    ghost from_gives = { λ _ e. e ≡ NoMemory };

    fn from(_: AllocError) -> Stop {
        Stop::NoMemory
    }
}
