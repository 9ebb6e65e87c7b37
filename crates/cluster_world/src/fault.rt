//! Why a step was refused, and why a world was not opened.
use mail_base::NodeNo;
use std::alloc::AllocError;

/// Why a step was refused: the first of these that applies. All but `NoMemory` leave the world as it was.
#[derive(Clone, Copy, Debug, PartialEq, Eq)]
pub enum StepFault {
    /// The plan has no such node. The node in an id is not meant.
    NoSuchNode,
    /// The node that is to act, or to stop, start or be lost, is lost for good.
    NodeLost,
    /// The node that is to act is down.
    NodeDown,
    /// The node that is to start is up.
    NodeUp,
    /// The letter is not in flight.
    NoSuchLetter,
    /// The ticket does not stand.
    NoSuchTicket,
    /// The node has no group open.
    NotAGroup,
    /// A number that the step needs is used up.
    Worn,
    /// Not even the first letter that is due finds room; of a group, not all of them do.
    NoRoom,
    /// Out of memory. The world is as it was; or this node is down, with some of the step's records on its disk.
    NoMemory {
        /// The node that is down, if one is.
        down: Option<NodeNo>,
    },
}

impl From<AllocError> for StepFault {
    ghost use Rattle.std.specs.Prelude.{◌≡◌, None};
    ghost use Rattle.cluster_world.specs.declared.fault.StepFault.TheVariants as fault;

    ghost from_gives = { λ _ e. e ≡ fault.NoMemory None };

    fn from(_: AllocError) -> StepFault {
        StepFault::NoMemory { down: None }
    }
}

/// Why a world was not opened.
#[derive(Clone, Copy, Debug, PartialEq, Eq)]
pub enum OpenFault {
    /// The disk of this node failed.
    DiskFault(NodeNo),
    /// Out of memory.
    NoMemory,
}

impl From<AllocError> for OpenFault {
    ghost use Rattle.std.specs.Prelude.{◌≡◌};
    ghost use Rattle.cluster_world.specs.declared.fault.OpenFault.TheVariants as fault;

    ghost from_gives = { λ _ e. e ≡ fault.NoMemory };

    fn from(_: AllocError) -> OpenFault {
        OpenFault::NoMemory
    }
}
