//! One connection of each protocol.
ghost use Rattle.std.specs.Prelude.{◌≡◌, ◌≤◌, ◌⊎◌};
ghost use Rattle.io_edge.specs.Causes.{Rose};
ghost use Rattle.session_model.specs.Sessions.{Session, exchanges_of};
ghost use Rattle.call_tickets.specs.Passes.{known_to};
ghost use Rattle.pop_session.specs.Follows as reader;
ghost use Rattle.session_gate.specs.Connections.{IsUp, ClosedWith, ServedAs, LeavesOnce, LeavesOrSays, ServesSmtp, ServesPop};

use crate::converse::converse;
use crate::stop::{Close, Served};
use crate::turn::Visit;
use call_tickets::{Call, Desk, DeskFault, Life};
use io_edge::{Gate, Sink, Source};
use mail_base::{NodeNo, Plan};
use pop_session::PopSession;
use smtp_session::SmtpSession;
use std::alloc::Global;
use std::sync::Wait;

/// Serves one connection of SMTP (RFC 5321) at the node: octets are taken from the source, and what a session says to them is
/// written to the sink. Its calls are begun at the desk in the name of the pass. What a session says is written before it begins
/// a call, and before more is read. `number` is the session's, as the gate is told it. May wait.
///
/// The answer says how the connection ended. `ReadFault` and `WriteFault` come only where the count of the source or the sink
/// rose, and `TooLong` exactly where 1,099,511,627,776 octets were taken.
pub fn serve_smtp<G: Gate, E: Desk, S: Source, K: Sink, R: Wait>(
    rt: &R,
    alloc: Global,
    gate: &G,
    desk: &E,
    pass: &mut E::Pass,
    plan: &Plan,
    node: NodeNo,
    number: u64,
    source: &mut S,
    sink: &mut K,
) -> Served
    requires belongs { E.belongs desk.now pass.old }
    ensures belongs { E.belongs desk.now pass.new }
    ensures serves { ServesSmtp plan.now node result (S.left source.old) (S.left source.new) (K.contents sink.old) (K.contents sink.new)
        (known_to (E.own pass.old) (E.counts pass.old)) (known_to (E.own pass.new) (E.counts pass.new)) }
    ensures source_later { S.faults source.old ≤ S.faults source.new }
    ensures sink_later { K.faults sink.old ≤ K.faults sink.new }
    ensures read_fault { result ≡ Served.ReadFault → Rose (S.faults source.old) (S.faults source.new) }
    ensures write_fault { result ≡ Served.WriteFault → Rose (K.faults sink.old) (K.faults sink.new) }
{
    if desk.is_up(pass, node).is_none() {
        return Served::Ended;
    }
    let mut out = Vec::new(alloc);
    let mut session = SmtpSession::new(alloc, node);
    let Ok(_greeted) = session.next(alloc, plan, &mut out) else {
        return Served::NoMemory;
    };
    let mut visit = Visit::new(alloc, node, number);
    let close = converse(
        rt,
        gate,
        desk,
        pass,
        plan,
        &mut visit,
        &mut session,
        &mut out,
        source,
        sink,
    );
    close.served()
}

/// Serves one connection of POP3 (RFC 1939) at the node, in the same way. The greeting shows `number`, and the boot and the
/// seconds that the desk told of the node. After its last octets were written, a session that was let in leaves its node, once,
/// but where the node went down. May wait.
pub fn serve_pop<G: Gate, E: Desk, S: Source, K: Sink, R: Wait>(
    rt: &R,
    alloc: Global,
    gate: &G,
    desk: &E,
    pass: &mut E::Pass,
    plan: &Plan,
    node: NodeNo,
    number: u64,
    source: &mut S,
    sink: &mut K,
) -> Served
    requires belongs { E.belongs desk.now pass.old }
    ensures belongs { E.belongs desk.now pass.new }
    ensures serves { ServesPop plan.now node number result (S.left source.old) (S.left source.new) (K.contents sink.old) (K.contents sink.new)
        (known_to (E.own pass.old) (E.counts pass.old)) (known_to (E.own pass.new) (E.counts pass.new)) }
    ensures source_later { S.faults source.old ≤ S.faults source.new }
    ensures sink_later { K.faults sink.old ≤ K.faults sink.new }
    ensures read_fault { result ≡ Served.ReadFault → Rose (S.faults source.old) (S.faults source.new) }
    ensures write_fault { result ≡ Served.WriteFault → Rose (K.faults sink.old) (K.faults sink.new) }
{
    let Some(Life { boot, seconds }) = desk.is_up(pass, node) else {
        return Served::Ended;
    };
    let mut out = Vec::new(alloc);
    let mut session = PopSession::new(alloc, node, boot, number, seconds);
    let Ok(_greeted) = session.next(alloc, plan, &mut out) else {
        return Served::NoMemory;
    };
    let mut visit = Visit::new(alloc, node, number);
    let close = converse(
        rt,
        gate,
        desk,
        pass,
        plan,
        &mut visit,
        &mut session,
        &mut out,
        source,
        sink,
    );
    end_pop(alloc, desk, pass, node, session, close)
}

// How a connection of POP3 is over. A session that was let in leaves its node, but where the node went down.
#[tactic(auto, using(crate::proofs::Leaving::fallen_leaves, crate::proofs::Leaving::spent_leaves))]
fn end_pop<E: Desk>(
    alloc: Global,
    desk: &E,
    pass: &mut E::Pass,
    node: NodeNo,
    session: PopSession,
    close: Close,
) -> Served
    requires belongs { E.belongs desk.now pass.old }
    ensures belongs { E.belongs desk.now pass.new }
    ensures left { (plain : Session) → ClosedWith close (reader.Follows session) plain
        → LeavesOnce (exchanges_of plain) plain.standing result (known_to (E.own pass.old) (E.counts pass.old)) (known_to (E.own pass.new) (E.counts pass.new)) }
    ensures served { ServedAs close result ⊎ (result ≡ Served.NoMemory) }
{
    match close {
        Close::Fell => Served::Ended,
        Close::FellUnwritten => Served::WriteFault,
        Close::NoMemory => Served::NoMemory,
        Close::Ended => leave(alloc, desk, pass, node, session, Served::Ended),
        Close::ReadFault => leave(alloc, desk, pass, node, session, Served::ReadFault),
        Close::WriteFault => leave(alloc, desk, pass, node, session, Served::WriteFault),
        Close::TooLong => leave(alloc, desk, pass, node, session, Served::TooLong),
    }
}

// A session whose node is up leaves it, if it was let in.
fn leave<E: Desk>(
    alloc: Global,
    desk: &E,
    pass: &mut E::Pass,
    node: NodeNo,
    session: PopSession,
    served: Served,
) -> Served
    requires belongs { E.belongs desk.now pass.old }
    ensures belongs { E.belongs desk.now pass.new }
    ensures left { (plain : Session) → IsUp (reader.Follows session) plain
        → LeavesOnce (exchanges_of plain) plain.standing result (known_to (E.own pass.old) (E.counts pass.old)) (known_to (E.own pass.new) (E.counts pass.new)) }
    ensures served { (result ≡ served) ⊎ (result ≡ Served.NoMemory) }
{
    let Some(call) = session.leave() else {
        return served;
    };
    begin_leave(alloc, desk, pass, node, call, served)
}

// Begins the Leave of a login, once. Where memory runs out, that is how the connection was served.
#[tactic(auto, using(crate::proofs::Leaving::refused_leave))]
fn begin_leave<E: Desk>(
    alloc: Global,
    desk: &E,
    pass: &mut E::Pass,
    node: NodeNo,
    call: Call,
    served: Served,
) -> Served
    requires belongs { E.belongs desk.now pass.old }
    ensures belongs { E.belongs desk.now pass.new }
    ensures left { LeavesOrSays result (known_to (E.own pass.old) (E.counts pass.old)) (known_to (E.own pass.new) (E.counts pass.new)) }
    ensures served { (result ≡ served) ⊎ (result ≡ Served.NoMemory) }
{
    match desk.leave(alloc, pass, node, call) {
        Ok(()) => served,
        Err(DeskFault::Down) => served,
        Err(DeskFault::Worn) => served,
        Err(DeskFault::NoMemory) => Served::NoMemory,
    }
}
