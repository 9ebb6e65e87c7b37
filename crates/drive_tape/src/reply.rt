// Replies of sessions as lines of the transcript.
ghost use Rattle.std.specs.Prelude.{◌≡◌, ◌≤◌, ◌++◌, ◌∷◌, [], List, ℕ, flat_map, All, MatchOption, IfSome, ◌+◌, ◌<◌, ◌^◌, IfOk, IsErrOf, if◌then◌else◌};
ghost use Rattle.io_edge.specs.Causes.{Rose};
ghost use Rattle.mail_model.specs.Lines.{HasNoCrlf, sent_line};
ghost use Rattle.mail_model.specs.Site.{closed_event};
ghost use Rattle.mail_model.specs.Transcript.{said_lines};
ghost use Rattle.drive_tape.specs.Entries.{transcript_entry, WritesEntries};
ghost use Rattle.session_model.specs.Events.{fault_event};
ghost use Rattle.drive_tape.specs.Replies.{IsFirstCrlf};

use crate::entry::{Entry, said_line};
use crate::{WriteStop, write_entries};
use io_edge::{Sink, write_all};
use mail_base::Octets;
use std::alloc::{AllocError, Global};

// Where the first CRLF begins.
fn crlf_at(octets: &[u8]) -> Option<usize>
    ensures found { MatchOption result (HasNoCrlf octets.now) (IsFirstCrlf octets.now) }
    ensures within { IfSome result (λ at. at + 2 < 2 ^ 64) }
{
    for at in 1..octets.len() {
        if octets[at - 1] == b'\r' && octets[at] == b'\n' {
            return Some(at - 1);
        }
    }
    None
}

// Writes the lines of a reply of this session, each of which ends in CRLF.
fn write_lines<K: Sink>(
    alloc: Global,
    sink: &mut K,
    session: u64,
    reply: &[u8],
) -> Result<(), WriteStop>
    ensures written { (lines : List (List ℕ)) → All HasNoCrlf lines → reply.now ≡ flat_map sent_line lines
        → WritesEntries (K.contents sink.old) (K.contents sink.new) result (said_lines session lines) }
    ensures later { K.faults sink.old ≤ K.faults sink.new }
    ensures failed { IsErrOf result WriteStop.WriteFault → Rose (K.faults sink.old) (K.faults sink.new) }
{
    let mut rest = reply;
    while let Some(at) = crlf_at(rest) {
        let line = said_line(alloc, session, &rest[..at])?;
        write_all(sink, &line)?;
        rest = &rest[at + 2..];
    }
    Ok(())
}

// The session has ended.
fn closed(alloc: Global, session: u64) -> Result<Entry, AllocError>
    ensures { IfOk result (λ entry. transcript_entry entry ≡ closed_event session) }
{
    let number = session.to_string(alloc)?;
    let mut text = Vec::from_slice(alloc, number.as_bytes())?;
    text.extend_from_slice(b" closed")?;
    Ok(Entry::Event {
        text: Octets::from_vec(text),
    })
}

/// Writes the lines of a reply of this session, each of which ends in CRLF, and where the session has
/// ended, that it is closed.
pub(crate) fn write_reply<K: Sink>(
    alloc: Global,
    sink: &mut K,
    session: u64,
    reply: &[u8],
    has_ended: bool,
) -> Result<(), WriteStop>
    ensures written { (lines : List (List ℕ)) → All HasNoCrlf lines → reply.now ≡ flat_map sent_line lines
        → WritesEntries (K.contents sink.old) (K.contents sink.new) result (said_lines session lines ++ (if has_ended then closed_event session ∷ [] else [])) }
    ensures later { K.faults sink.old ≤ K.faults sink.new }
    ensures failed { IsErrOf result WriteStop.WriteFault → Rose (K.faults sink.old) (K.faults sink.new) }
{
    write_lines(alloc, sink, session, reply)?;
    if has_ended {
        let entries = [closed(alloc, session)?];
        write_entries(alloc, sink, &entries)?;
    }
    Ok(())
}

// The disk of the node failed.
fn fault(alloc: Global, node: u8) -> Result<Entry, AllocError>
    ensures { IfOk result (λ entry. transcript_entry entry ≡ fault_event node) }
{
    let number = node.to_string(alloc)?;
    let mut text = Vec::from_slice(alloc, b"fault ")?;
    text.extend_from_slice(number.as_bytes())?;
    Ok(Entry::Event {
        text: Octets::from_vec(text),
    })
}

/// Writes that the disk of the node failed.
#[tactic(auto, using(crate::proofs::Replies::writes_none))]
pub(crate) fn write_fault<K: Sink>(alloc: Global, sink: &mut K, node: u8) -> Result<(), WriteStop>
    ensures written { WritesEntries (K.contents sink.old) (K.contents sink.new) result (fault_event node ∷ []) }
    ensures later { K.faults sink.old ≤ K.faults sink.new }
    ensures failed { IsErrOf result WriteStop.WriteFault → Rose (K.faults sink.old) (K.faults sink.new) }
{
    let entries = [fault(alloc, node)?];
    write_entries(alloc, sink, &entries)
}
