// A service is run over a script.
ghost use Rattle.node_store.specs.Disks.{view_of};
ghost use Rattle.std.specs.Prelude.{◌≤◌};
ghost use Rattle.shard_board.specs.Worlds.{IsSoundWorld};

use super::doors::Search;
use super::gates::Holds;
use super::plans::{plan, ports};
use super::script::{LineEnd, parties};
use super::signals::Signals;
use super::worlds::opened;
use super::yards::TrialYard;
use board_service::serve_board;
use cluster_world::World;
use io_edge::Disk;
use io_edge::faulty::{FaultySink, FaultySource, FaultyYard};
use mail_base::Plan;
use mail_service::{ConsoleEnd, DoorEnd, ServiceEnd};
use node_disk::MemoryDisk;
use std::alloc::{AllocError, Global};
use std::process::Abort;
use std::sync::Wait;
use std::test::Fail;
use std::thread::Threads;
use std::time::Clock;

/// How many threads serve connections: as many as come in a trial, so that nobody waits for a silent client.
const WORKERS: u16 = 6;

/// What is outside of a service, and which call of it fails, the first being 1; none where it is 0.
#[derive(Clone, Copy)]
pub(super) struct Outside {
    /// The script.
    pub(super) text: &'static [u8],
    /// Whom the gate holds.
    pub(super) holds: Holds,
    /// Which door cannot be opened.
    pub(super) open: u64,
    /// Which call of each door fails.
    pub(super) accept: u64,
    /// Which read of the console fails.
    pub(super) read: u64,
    /// Which write of the console fails.
    pub(super) write: u64,
}

/// An outside in which nobody is held and nothing fails.
pub(super) const SOUND: Outside = Outside {
    text: b"",
    holds: Holds::Nobody,
    open: 0,
    accept: 0,
    read: 0,
    write: 0,
};

/// What is answered where the console said `stop` and no door failed.
pub(super) const STOPPED: ServiceEnd = ServiceEnd::Served {
    console: ConsoleEnd::Stopped,
    doors: DoorEnd::Quiet,
};

/// Serves over that outside. Whoever calls this sees none of the clauses of `serve_board`, which are long, and of which no test
/// needs one.
pub(super) fn serves<R: Threads + Wait + Clock + Sync, D: Disk + Drop + Send>(
    rt: &R,
    alloc: Global,
    outside: Outside,
    plan: &Plan,
    signals: &Signals,
    world: World<D>,
) -> Result<(ServiceEnd, World<D>), AllocError>
    requires sound { IsSoundWorld (view_of D.seen D.faults D.clock) world }
{
    let ports = ports(alloc, plan.nodes)?;
    let mut console = Search::new(outside.text, signals, b'C', 0);
    let _ = console.find();
    let mut source = FaultySource::new(console.says(LineEnd::Lf), outside.read);
    let mut sink = FaultySink::new(console.hears(LineEnd::Lf), outside.write);
    let yard = TrialYard::new(outside.text, signals, outside.holds, outside.accept);
    let mut yard = FaultyYard::at_door(yard, outside.open);
    Ok(serve_board(
        rt,
        alloc,
        WORKERS,
        plan,
        &ports,
        world,
        &mut yard,
        &mut source,
        &mut sink,
    ))
}

/// Nobody heard what it was not to, and nobody waited in vain.
pub(super) fn agrees(rt: &impl Abort, signals: &Signals) {
    assert_eq!(rt; signals.wrong(), 0);
    assert!(rt; !signals.is_late());
}

/// Beside that each party has heard all, and the doors were given back.
pub(super) fn agrees_wholly(rt: &impl Abort, signals: &Signals, text: &[u8]) {
    agrees(rt, signals);
    assert!(rt; signals.has_all(parties(text)));
}

/// Serves over that outside, and a new world in memory of which this disk call fails.
pub(super) fn serves_weak<R: Abort + Threads + Wait + Clock + Sync>(
    rt: &R,
    alloc: Global,
    outside: Outside,
    nodes: u8,
    weak: u8,
    call: u64,
    signals: &Signals,
) -> Result<(ServiceEnd, World<MemoryDisk>), Fail>
    requires some { 1 ≤ nodes }
    requires few { nodes ≤ 16 }
{
    let plan = plan(alloc, nodes, nodes, nodes)?;
    let Ok(world) = opened(alloc, nodes, nodes, nodes, weak, call) else {
        panic!(rt; "no world");
    };
    Ok(serves(rt, alloc, outside, &plan, signals, world)?)
}

/// Serves a cluster of so many nodes over that outside. It is to end so, and each party to hear all.
pub(super) fn goes<R: Abort + Threads + Wait + Clock + Sync>(
    rt: &R,
    alloc: Global,
    outside: Outside,
    nodes: u8,
    end: ServiceEnd,
) -> Result<World<MemoryDisk>, Fail>
    requires some { 1 ≤ nodes }
    requires few { nodes ≤ 16 }
{
    let signals = Signals::new();
    let (came, world) = serves_weak(rt, alloc, outside, nodes, 0, 0, &signals)?;
    agrees_wholly(rt, &signals, outside.text);
    assert_eq!(rt; came, end);
    Ok(world)
}
