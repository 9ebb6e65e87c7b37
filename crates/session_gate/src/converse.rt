//! A connection: octets are taken and fed to its session, until either ends.
ghost use Rattle.std.specs.Prelude.{◌≡◌, ◌≤◌, ◌<◌, [], IfOk, length};
ghost use Rattle.std.specs.Io.KnownBytes.{ReadConsumes};
ghost use Rattle.io_edge.specs.Causes.{Rose, HasCause};
ghost use Rattle.call_tickets.specs.Passes.{known_to};
ghost use Rattle.session_gate.specs.Connections.{Connection, HasCome, ClosesSo, Talks};
ghost use Rattle.session_gate.specs.Closes.{IsSinkFault, IsSourceFault};

use crate::stop::Close;
use crate::talk::hear;
use crate::turn::Visit;
use call_tickets::Desk;
use io_edge::{Failed, Gate, Sink, Source};
use mail_base::Plan;
use session_speaker::Speaker;
use std::sync::Wait;

// The most octets that a connection may send.
const MOST: u64 = 1_099_511_627_776;

// How many octets are read at once.
const PIECE: usize = 4096;

// Reads into the piece, and not more than there is room for.
fn read_some<S: Source>(source: &mut S, room: u64, piece: &mut [u8]) -> Result<usize, Failed>
    requires room { 0 < room }
    requires piece { 0 < length piece.old }
    ensures piece { length piece.new ≡ length piece.old }
    ensures octets { ReadConsumes (S.left source.old) (S.left source.new) result piece.new }
    ensures few { IfOk result (λ count. (count ≤ room) × (count ≤ length piece.old)) }
    ensures cause { HasCause (S.faults source.old) (S.faults source.new) result }
{
    let most = usize::try_from(room).unwrap_or(usize::MAX).min(piece.len());
    source.read(&mut piece[..most])
}

/// Serves a session that has said its greeting, which is to be written.
pub(crate) fn converse<T: Speaker, E: Desk, G: Gate, S: Source, K: Sink, R: Wait>(
    rt: &R,
    gate: &G,
    desk: &E,
    pass: &mut E::Pass,
    plan: &Plan,
    visit: &mut Visit,
    talker: &mut T,
    out: &mut Vec<u8>,
    source: &mut S,
    sink: &mut K,
) -> Close
    requires belongs { E.belongs desk.now pass.old }
    ensures belongs { E.belongs desk.now pass.new }
    ensures serves { (line : Connection) → line.plan ≡ plan.now
        → HasCome line (Talks (T.follows talker.old)) [] [] out.old.items (known_to (E.own pass.old) (E.counts pass.old))
        → ClosesSo result line (T.follows talker.new) (S.left source.old) (S.left source.new) (K.contents sink.old) (K.contents sink.new) (known_to (E.own pass.new) (E.counts pass.new)) }
    ensures source_later { S.faults source.old ≤ S.faults source.new }
    ensures sink_later { K.faults sink.old ≤ K.faults sink.new }
    ensures source_failed { IsSourceFault result → Rose (S.faults source.old) (S.faults source.new) }
    ensures sink_failed { IsSinkFault result → Rose (K.faults sink.old) (K.faults sink.new) }
{
    let mut room = MOST;
    let mut piece = [0u8; PIECE];
    if let Some(close) = hear(rt, gate, desk, pass, plan, visit, talker, out, sink) {
        return close;
    }
    while room > 0 {
        if talker.has_ended() {
            return Close::Ended;
        }
        let Ok(count) = read_some(source, room, &mut piece) else {
            return Close::ReadFault;
        };
        if count == 0 {
            return Close::Ended;
        }
        room -= count as u64;
        let Ok(()) = talker.feed(&piece[..count]) else {
            return Close::NoMemory;
        };
        if let Some(close) = hear(rt, gate, desk, pass, plan, visit, talker, out, sink) {
            return close;
        }
    }
    Close::TooLong
}
