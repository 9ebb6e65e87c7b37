// What a desk says of a step that was refused.
ghost use Rattle.std.specs.Prelude.{◌≡◌};
ghost use Rattle.solo_desk.specs.Steps.{refusal_of};

use call_tickets::DeskFault;
use cluster_world::StepFault;

/// A node that is not up, or what stands no more, is `Down`; a number that is used up is `Worn`.
pub(crate) fn refusal_of(fault: StepFault) -> DeskFault
    ensures { result ≡ refusal_of fault }
{
    match fault {
        StepFault::NoSuchNode => DeskFault::Down,
        StepFault::NodeLost => DeskFault::Down,
        StepFault::NodeDown => DeskFault::Down,
        StepFault::NodeUp => DeskFault::Down,
        StepFault::NoSuchLetter => DeskFault::Down,
        StepFault::NoSuchTicket => DeskFault::Down,
        StepFault::NotAGroup => DeskFault::Down,
        StepFault::Worn => DeskFault::Worn,
        StepFault::NoRoom => DeskFault::Worn,
        StepFault::NoMemory { .. } => DeskFault::NoMemory,
    }
}
