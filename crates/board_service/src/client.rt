//! A connection, at a board.
ghost use Rattle.std.specs.Prelude.{◌≡◌, ◌&&◌, nat_le, false, IfSome, IfNone};
ghost use Rattle.node_store.specs.Disks.{view_of};
ghost use Rattle.call_tickets.specs.Passes.{known_to};
ghost use Rattle.shard_board.specs.Boards.{IsPassOf};
ghost use Rattle.board_service.specs.Passes.{StaysPass};
ghost use Rattle.board_service.specs.Visits.{ServedBy};
ghost use Rattle.board_service.specs.Serving.{Serves};

use board_desk::BoardDesk;
use call_tickets::Desk;
use io_edge::{Clock, Disk, Fate, Gate, Protocol, Sink, Source};
use mail_base::{NodeNo, Plan};
use mail_service::Line;
use session_gate::{Served, serve_pop, serve_smtp};
use shard_board::{Board, BoardPass};
use std::alloc::Global;
use std::sync::Wait;

// The connection is served over the desk, as its protocol is spoken.
fn speak<G: Gate, E: Desk, S: Source, K: Sink, R: Wait>(
    rt: &R,
    alloc: Global,
    gate: &G,
    desk: &E,
    pass: &mut E::Pass,
    plan: &Plan,
    protocol: Protocol,
    node: NodeNo,
    number: u64,
    source: &mut S,
    sink: &mut K,
) -> Served
    requires belongs { E.belongs desk.now pass.old }
    ensures belongs { E.belongs desk.now pass.new }
    ensures serves { ServedBy protocol plan.now node number result (S.left source.old) (S.left source.new) (K.contents sink.old) (K.contents sink.new)
        (known_to (E.own pass.old) (E.counts pass.old)) (known_to (E.own pass.new) (E.counts pass.new)) }
{
    match protocol {
        Protocol::Smtp => serve_smtp(
            rt, alloc, gate, desk, pass, plan, node, number, source, sink,
        ),
        Protocol::Pop => serve_pop(
            rt, alloc, gate, desk, pass, plan, node, number, source, sink,
        ),
    }
}

// The node of this number. No plan has others.
fn node_of(number: u8) -> Option<NodeNo>
    ensures is { IfSome result (λ node. node ≡ number) }
    ensures nowhere { IfNone result ((nat_le 1 number && nat_le number 16) ≡ false) }
{
    NodeNo::new(number)
}

/// Serves the connection to its end, at its node. Where no plan has the node, nothing is read or written.
pub(crate) fn serve_client<R: Wait, D: Disk, F: Fate, C: Clock, G: Gate, S: Source, K: Sink>(
    rt: &R,
    alloc: Global,
    gate: &G,
    board: &Board<D, F, C>,
    plan: &Plan,
    pass: &mut BoardPass<D, F, C>,
    line: &Line,
    source: &mut S,
    sink: &mut K,
)
    requires pass { IsPassOf (view_of D.seen D.faults D.clock) board.now pass.old }
    ensures stays { StaysPass (view_of D.seen D.faults D.clock) board.now pass.old pass.new }
    ensures serves { Serves D.seen plan.now pass.old line.now (S.left source.old) (S.left source.new) (K.contents sink.old) (K.contents sink.new) pass.new }
{
    let Some(node) = node_of(line.node) else {
        return;
    };
    let desk = BoardDesk::new(rt, board, pass);
    let _served = speak(
        rt,
        alloc,
        gate,
        &desk,
        pass,
        plan,
        line.protocol,
        node,
        line.number,
        source,
        sink,
    );
}
