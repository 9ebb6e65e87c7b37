// Kinds of calls.
ghost use Rattle.std.specs.Prelude.{◌≡◌, IsTrue, [], ◌⊎◌, true};
ghost use Rattle.mail_model.specs.Lines.{ends_in_crlf};
ghost use Rattle.node_core.specs.Beginning.{IsTextEnded, call_seen as machine_call};
ghost use Rattle.solo_desk.specs.Standing.{fits_kind};
ghost use Rattle.solo_desk.specs.Kinds.{IsOfKind};

use call_tickets::{Answer, Call};
use mail_base::CallKind;

/// The kind of the call. A Leave, which has no answer, has none.
pub(crate) fn kind_of(call: &Call) -> Option<CallKind>
    ensures { IsOfKind call.now result }
{
    match call {
        Call::Deliver(_) => Some(CallKind::Deliver),
        Call::Login { .. } => Some(CallKind::Login),
        Call::Fetch { .. } => Some(CallKind::Fetch),
        Call::Strike { .. } => Some(CallKind::Strike),
        Call::Leave { .. } => None,
    }
}

/// Whether the answer is one to a call of this kind. Each may fail.
pub(crate) fn fits(kind: CallKind, answer: &Answer) -> bool
    ensures { result ≡ fits_kind kind answer.now }
{
    match answer {
        Answer::Failed(_) => true,
        Answer::Stored { .. } => kind == CallKind::Deliver,
        Answer::Listed { .. } => kind == CallKind::Login,
        Answer::Wrong { .. } => kind == CallKind::Login,
        Answer::InUse { .. } => kind == CallKind::Login,
        Answer::NoProfile { .. } => kind == CallKind::Login,
        Answer::Part { .. } => kind == CallKind::Fetch,
        Answer::GoneAlready => kind == CallKind::Fetch,
        Answer::Dropped { .. } => kind == CallKind::Strike,
    }
}

// Whether a text is empty or ends in CRLF.
fn is_ended(text: &[u8]) -> bool
    ensures { IsTrue result → (text.now ≡ []) ⊎ (ends_in_crlf text.now ≡ true) }
{
    let length = text.len();
    if length == 0 {
        return true;
    }
    if length < 2 {
        return false;
    }
    if text[length - 2] != 13 {
        return false;
    }
    if text[length - 1] != 10 {
        return false;
    }
    true
}

/// Whether the text of a message that the call hands in is empty or ends in CRLF, as each does that a session took.
pub(crate) fn text_is_ended(call: &Call) -> bool
    ensures { IsTrue result → IsTextEnded (machine_call call.now) }
{
    match call {
        Call::Deliver(deliver) => is_ended(deliver.text.as_slice()),
        Call::Login { .. } | Call::Fetch { .. } | Call::Strike { .. } | Call::Leave { .. } => true,
    }
}
