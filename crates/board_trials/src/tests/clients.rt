// Clients that are served over a board.
ghost use Rattle.std.specs.Prelude.{◌≡◌};
ghost use Rattle.cluster_trials.specs.Disks.{in_memory};
ghost use Rattle.shard_board.specs.Boards.{quota_of, IsPassOf};

use super::{CARRY, Cluster, Pass, made, node, opened};
use crate::fresh::plan;
use board_desk::BoardDesk;
use io_edge::{Gate, OpenGate, SliceSource, VecSink};
use mail_base::Plan;
use session_gate::{Served, serve_pop, serve_smtp};
use shard_board::Board;
use std::alloc::Global;
use std::sync::Wait;
use std::test::Fail;

pub(super) const MAIL_TO_ANN: &[u8] =
    b"HELO c\r\nMAIL FROM:<a>\r\nRCPT TO:<ann>\r\nDATA\r\nx\r\n.\r\nQUIT\r\n";

pub(super) const STORED: &[u8] =
    b"220 node1 Porcupine ready\r\n250 node1\r\n250 sender ok\r\n250 recipient ok\r\n354 end with a line that is a single period\r\n250 stored\r\n221 node1 closing\r\n";

const NOT_STORED: &[u8] =
    b"220 node1 Porcupine ready\r\n250 node1\r\n250 sender ok\r\n250 recipient ok\r\n354 end with a line that is a single period\r\n451 not stored, try again\r\n221 node1 closing\r\n";

pub(super) const READ: &[u8] = b"USER ann\r\nPASS sesame\r\nRETR 1\r\nDELE 1\r\nQUIT\r\n";

pub(super) const READ_ALL: &[u8] =
    b"+OK node1 ready <1.13.0@node1>\r\n+OK send PASS\r\n+OK maildrop open\r\n+OK 112 octets\r\nReturn-Path: <a>\r\nReceived: from c\r\n by node1 with SMTP id <1.1.1@node1>;\r\n Thu, 01 Jan 1970 00:00:00 +0000\r\nx\r\n.\r\n+OK message 1 deleted\r\n+OK bye\r\n";

// A client sends mail to node 1, and hears what is handed back; nothing where its connection did not end by itself.
pub(super) fn sends<R: Wait, G: Gate>(
    rt: &R,
    alloc: Global,
    gate: &G,
    board: &Cluster,
    pass: &mut Pass,
    plan: &Plan,
    number: u64,
    says: &[u8],
) -> Vec<u8>
    requires pass { IsPassOf in_memory board.now pass.old }
    ensures pass { IsPassOf in_memory board.now pass.new }
    ensures quota { quota_of pass.new ≡ quota_of pass.old }
{
    let desk = BoardDesk::new(rt, board, pass);
    let mut source = SliceSource::new(says);
    let mut sink = VecSink::new(alloc);
    let served = serve_smtp(
        rt,
        alloc,
        gate,
        &desk,
        pass,
        plan,
        node(1),
        number,
        &mut source,
        &mut sink,
    );
    if served != Served::Ended {
        sink.held.clear();
    }
    sink.held
}

// A client reads mail at node 1.
pub(super) fn reads<R: Wait, G: Gate>(
    rt: &R,
    alloc: Global,
    gate: &G,
    board: &Cluster,
    pass: &mut Pass,
    plan: &Plan,
    number: u64,
    says: &[u8],
) -> Vec<u8>
    requires pass { IsPassOf in_memory board.now pass.old }
    ensures pass { IsPassOf in_memory board.now pass.new }
    ensures quota { quota_of pass.new ≡ quota_of pass.old }
{
    let desk = BoardDesk::new(rt, board, pass);
    let mut source = SliceSource::new(says);
    let mut sink = VecSink::new(alloc);
    let served = serve_pop(
        rt,
        alloc,
        gate,
        &desk,
        pass,
        plan,
        node(1),
        number,
        &mut source,
        &mut sink,
    );
    if served != Served::Ended {
        sink.held.clear();
    }
    sink.held
}

#[test]
fn mail_is_read_back(rt: HostRuntime) -> Result<(), Fail> {
    let alloc = rt.alloc();
    let plan = plan(alloc, 1, 1)?;
    let Ok(world) = opened(alloc, 1, 1) else {
        panic!(rt; "no world");
    };
    let Some((board, mut pass)) = made(alloc, world, CARRY, 1) else {
        panic!(rt; "no memory");
    };
    let sent = sends(
        &rt,
        alloc,
        &OpenGate,
        &board,
        &mut pass,
        &plan,
        12,
        MAIL_TO_ANN,
    );
    let read = reads(&rt, alloc, &OpenGate, &board, &mut pass, &plan, 13, READ);
    let tally = Board::tally(&pass);
    let sum = board.close(pass).sum();
    assert!(rt; sent.as_slice() == STORED && read.as_slice() == READ_ALL);
    assert_eq!(rt;
        [
            tally.stored,
            tally.listed,
            tally.part,
            tally.dropped,
            tally.leaves
        ],
        [1; 5]
    );
    assert_eq!(rt; (sum.acked, sum.struck, sum.dropped), (1, 1, 1));
    Ok(())
}

// Whether a client at a cluster of three nodes hears that.
fn hears<R: Wait>(rt: &R, alloc: Global, lots: [u8; 8], wanted: &[u8]) -> bool {
    let Ok(plan) = plan(alloc, 3, 2) else {
        return false;
    };
    let Ok(world) = opened(alloc, 3, 2) else {
        return false;
    };
    let Some((board, mut pass)) = made(alloc, world, lots, 1) else {
        return false;
    };
    let heard = sends(
        rt,
        alloc,
        &OpenGate,
        &board,
        &mut pass,
        &plan,
        12,
        MAIL_TO_ANN,
    );
    let _ = board.close(pass);
    heard.as_slice() == wanted
}

#[test]
fn fate_decides_of_mail(rt: HostRuntime) -> Result<(), Fail> {
    let alloc = rt.alloc();
    assert!(rt; hears(&rt, alloc, CARRY, STORED));
    assert!(rt; hears(&rt, alloc, *b"tt.t....", STORED));
    assert!(rt; hears(&rt, alloc, *b"d.......", STORED));
    assert!(rt; hears(&rt, alloc, *b"dd......", NOT_STORED));
    assert!(rt; hears(&rt, alloc, *b"..dd....", NOT_STORED));
    Ok(())
}
