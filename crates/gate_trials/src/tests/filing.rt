// A message as it is filed.
ghost use Rattle.std.specs.Prelude.{◌≡◌, length, Some, IfOk};
ghost use Rattle.sha2.specs.Sha256.{sha256};
ghost use Rattle.mail_model.specs.Mail.{IsStored};
ghost use Rattle.mail_base.specs.Delivers.{mail_in};
ghost use Rattle.session_model.specs.Calls as calls;
ghost use Rattle.call_tickets.specs.Seen.{call_seen};
ghost use Rattle.call_tickets.specs.Begins.{IsFilingOf, IsBegunFor};

use call_tickets::Call;
use mail_base::{Begun, CallKind, Deliver, Filing, MsgId, NodeNo, Octets};
use sha2::{Digest, Sha256};
use std::alloc::{AllocError, Global};
use trace_lines::{Trace, trace_into};

// The seconds of each message, a Sunday in September 2001.
const SECONDS: u64 = 1_000_000_000;

// The octets of the message as it is stored.
fn stored_octets(alloc: Global, deliver: &Deliver, id: MsgId) -> Result<Octets, AllocError>
    ensures { IfOk result (λ octets. IsStored (mail_in deliver.now) id 1000000000 octets) }
{
    let trace = Trace {
        sender: deliver.sender.as_slice(),
        helo: deliver.helo.as_slice(),
        extended: deliver.extended,
        id,
        seconds: SECONDS,
    };
    let mut octets = Vec::new(alloc);
    let Ok(()) = trace_into(alloc, &mut octets, &trace) else {
        return Err(AllocError);
    };
    octets.extend_from_slice(deliver.text.as_slice())?;
    Ok(Octets::from_vec(octets))
}

fn digest_of(octets: &[u8]) -> [u8; 32]
    ensures { result ≡ sha256 octets.now }
{
    let mut hasher = Sha256::new();
    hasher.update(octets);
    hasher.finalize()
}

fn file(alloc: Global, node: NodeNo, deliver: &Deliver) -> Result<Filing, AllocError>
    ensures { IfOk result (λ filing. IsFilingOf (mail_in deliver.now) filing) }
{
    let id = MsgId::new(node, 1, 1).ok_or(AllocError)?;
    let octets = stored_octets(alloc, deliver, id)?;
    let digest = digest_of(octets.as_slice());
    Ok(Filing {
        id,
        users: deliver.users.copy()?,
        seconds: SECONDS,
        length: octets.len() as u64,
        digest,
    })
}

fn begun(kind: CallKind) -> Begun
    ensures { result.kind ≡ kind }
{
    Begun { kind, filing: None }
}

// What the beginning of a call leaves.
pub(super) fn begun_of(alloc: Global, node: NodeNo, call: &Call) -> Result<Begun, AllocError>
    ensures { IfOk result (λ begun. (asked : calls.Call) → call_seen call.now ≡ Some asked → IsBegunFor asked begun) }
{
    match call {
        Call::Deliver(deliver) => Ok(Begun {
            kind: CallKind::Deliver,
            filing: Some(file(alloc, node, deliver)?),
        }),
        Call::Login { .. } => Ok(begun(CallKind::Login)),
        Call::Fetch { .. } => Ok(begun(CallKind::Fetch)),
        Call::Strike { .. } => Ok(begun(CallKind::Strike)),
        Call::Leave { .. } => Ok(begun(CallKind::Login)),
    }
}
