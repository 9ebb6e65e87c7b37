//! Why a node did not do a call.

use node_store::KeepFault;
use std::alloc::AllocError;

/// Why a node did not do a call.
#[derive(Clone, Copy, Debug, PartialEq, Eq)]
pub enum NodeFault {
    /// The disk failed: its count of faults rose, or, at a start or over a disk that does not tell what it holds, its octets are
    /// not of the form. The node has to go down.
    Disk,
    /// A boot, or a number of a message, a stamp or a ticket, is at its greatest. Nothing was changed.
    Worn,
    /// Out of memory.
    NoMemory {
        /// Whether the work had begun, so that some of its records may stand: the node then has to go down. Otherwise
        /// nothing was changed.
        down: bool,
    },
}

impl From<KeepFault> for NodeFault {
    ghost use Rattle.std.specs.Prelude.{◌≡◌};
    ghost use Rattle.node_core.specs.Works.{fault_of};

    ghost from_gives = { λ f e. e ≡ fault_of f };

    fn from(fault: KeepFault) -> NodeFault {
        match fault {
            KeepFault::Disk => NodeFault::Disk,
            KeepFault::NoMemory => NodeFault::NoMemory { down: true },
        }
    }
}

impl From<AllocError> for NodeFault {
    ghost use Rattle.std.specs.Prelude.{◌≡◌, false};
    ghost use Rattle.node_core.specs.declared.fault.NodeFault.TheVariants as fault;

    ghost from_gives = { λ _ e. e ≡ fault.NoMemory false };

    // It comes before anything is changed: what is begun answers a `KeepFault`.
    fn from(_: AllocError) -> NodeFault {
        NodeFault::NoMemory { down: false }
    }
}
