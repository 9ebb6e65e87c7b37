// What a step that was refused makes of the work on a tape.
ghost use Rattle.std.specs.Prelude.{◌≡◌, IsErrOf};
ghost use Rattle.drive_tape.specs.Denials.{stop_by, IsDoneOr};

use crate::{Stop, TapeFault};
use cluster_world::{Said, StepFault};

/// Why the work stops where a step was refused so: the tape has this fault, or memory ran out.
pub(crate) fn stop_by(fault: StepFault) -> Stop
    ensures is { result ≡ stop_by fault }
    ensures never { result ≡ Stop.WriteFault → ⊥ }
{
    match fault {
        StepFault::NoSuchNode => Stop::Bad(TapeFault::NoSuchNode),
        StepFault::NodeLost => Stop::Bad(TapeFault::NodeLost),
        StepFault::NodeDown => Stop::Bad(TapeFault::NodeDown),
        StepFault::NodeUp => Stop::Bad(TapeFault::NodeUp),
        StepFault::NoSuchLetter => Stop::Bad(TapeFault::NoSuchLetter),
        StepFault::NoSuchTicket => Stop::Bad(TapeFault::NoSuchTicket),
        StepFault::NotAGroup => Stop::Bad(TapeFault::NotAGroup),
        StepFault::Worn => Stop::Bad(TapeFault::Worn),
        StepFault::NoRoom => Stop::Bad(TapeFault::NoRoom),
        StepFault::NoMemory { .. } => Stop::NoMemory,
    }
}

/// That a step was done of which nothing else is said; or why it was refused.
pub(crate) fn done(said: &Result<Said, StepFault>) -> Result<(), Stop>
    ensures done { IsDoneOr said.now result }
    ensures why { IsErrOf result Stop.WriteFault → ⊥ }
{
    match said {
        Ok(_) => Ok(()),
        Err(fault) => Err(stop_by(*fault)),
    }
}
