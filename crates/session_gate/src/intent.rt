//! What a session is about to do.
ghost use Rattle.std.specs.Prelude.{◌≡◌, ◌<◌, ◌++◌, ℕ, List, IfOk};
ghost use Rattle.session_model.specs.Sessions.{Session};
ghost use Rattle.call_tickets.specs.Moves.Due.{Nothing};
ghost use Rattle.session_gate.specs.Connections.{IsSettled};
ghost use Rattle.session_gate.specs.Intents.{IsIntent, IsGoing};

use call_tickets::{Call, Move};
use mail_base::Plan;
use session_speaker::Speaker;
use std::alloc::{AllocError, Global};

/// What a session is about to do that waits for no answer.
#[derive(Debug, Drop)]
pub(crate) enum Intent {
    /// It says something.
    Says,
    /// It asks this of its node.
    Asks(Call),
    /// Nothing: it hears no unit in what it was fed, or has ended.
    Rests,
}

// The session's next move. What it says is appended.
#[tactic(auto, using(crate::proofs::Moves::waits_none))]
pub(crate) fn next_intent<T: Speaker>(
    talker: &mut T,
    alloc: Global,
    plan: &Plan,
    out: &mut Vec<u8>,
) -> Result<Intent, AllocError>
    ensures intends { IfOk result (λ intent. (octets : List ℕ) × (out.new.items ≡ out.old.items ++ octets)
        × ((plain : Session) → T.follows talker.old plain Nothing → IsSettled plain.standing → IsIntent (T.follows talker.new) plan.now plain intent octets)) }
    ensures less { IfOk result (λ intent. IsGoing intent → T.left talker.new < T.left talker.old) }
{
    match talker.next(alloc, plan, out)? {
        Move::Said => Ok(Intent::Says),
        Move::Begin(call) => Ok(Intent::Asks(call)),
        Move::Wait => Ok(Intent::Rests),
        Move::Idle => Ok(Intent::Rests),
        Move::End => Ok(Intent::Rests),
    }
}
