// A call in progress, as the session that waits for its answer keeps it.
ghost use Rattle.std.specs.Prelude.{◌≡◌, Some};
ghost use Rattle.session_model.specs.Calls as calls;
ghost use Rattle.call_tickets.specs.Seen.{call_seen};
ghost use Rattle.drive_tape.specs.Kinds.{fits_kind, IsKindOf, IsNoLeave};

use call_tickets::{Answer, Call};
use mail_base::{CallKind, Ticket};

/// A call in progress.
#[derive(Debug, Drop)]
pub(crate) struct OpenCall {
    /// By which it is asked for.
    pub ticket: Ticket,
    /// Which answers are its own.
    pub kind: CallKind,
}

/// The kind of the call. A leave, which has no answer, has none.
pub(crate) fn kind_of(call: &Call) -> CallKind
    requires asks { IsNoLeave call.now }
    ensures { (asked : calls.Call) → call_seen call.now ≡ Some asked → IsKindOf result asked }
{
    match call {
        Call::Deliver(_) => CallKind::Deliver,
        Call::Login { .. } => CallKind::Login,
        Call::Fetch { .. } => CallKind::Fetch,
        Call::Strike { .. } => CallKind::Strike,
        Call::Leave { .. } => unreachable!(),
    }
}

/// Whether the answer is one to calls of this kind. Each may fail.
pub(crate) fn fits(kind: CallKind, answer: &Answer) -> bool
    ensures { result ≡ fits_kind kind answer.now }
{
    match answer {
        Answer::Failed(_) => true,
        Answer::Stored { .. } => kind == CallKind::Deliver,
        Answer::Listed { .. } => kind == CallKind::Login,
        Answer::Wrong { .. } => kind == CallKind::Login,
        Answer::InUse { .. } => kind == CallKind::Login,
        Answer::NoProfile { .. } => kind == CallKind::Login,
        Answer::Part { .. } => kind == CallKind::Fetch,
        Answer::GoneAlready => kind == CallKind::Fetch,
        Answer::Dropped { .. } => kind == CallKind::Strike,
    }
}
