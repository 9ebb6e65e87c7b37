//! A cluster is served behind the doors of a yard, from beginning to end.
ghost use Rattle.std.specs.Prelude.{◌≡◌, ◌≤◌, ◌<◌, ◌+◌, None, IfSome, IfOk, IfErr};
ghost use Rattle.io_edge.specs.Causes.{Rose};
ghost use Rattle.node_store.specs.Disks.{view_of};
ghost use Rattle.shard_board.specs.Boards.{quota_of, passes_of, first_world, IsNewBoard};
ghost use Rattle.shard_board.specs.Worlds.{IsSoundWorld};
ghost use Rattle.mail_service.specs.Consoles.{IsReadFault, IsWriteFault, HasListened};
ghost use Rattle.mail_service.specs.Services.{AreServed, HasRun, console_end};
ghost use Rattle.mail_service.specs.declared.console.ConsoleEnd.TheVariants as ends;
ghost use Rattle.mail_service.specs.declared.service.ServiceEnd.TheVariants as service_ends;
ghost use Rattle.board_service.specs.Passes.{IsServicePass};
ghost use Rattle.board_service.specs.Served.{ServesOver, LeavesWorld, CountsServed};
ghost use Rattle.board_service.specs.Counting.{IsSettledAs};

use crate::backend::BoardBackend;
use crate::pass::ServicePass;
use cluster_world::World;
use crossbeam_channel::{Receiver, Sender};
use io_edge::{Clock, Disk, Door, Fate, Gate, Sink, Source, Yard};
use mail_base::Plan;
use mail_service::{
    Conn, ConsoleEnd, DoorEnd, Entrance, Port, ServiceEnd, open_service, serve_open, shut_all,
};
use shard_board::Board;
use std::alloc::Global;
use std::sync::Wait;
use std::sync::atomic::AtomicU64;
use std::thread::Threads;
use std::time::Clock as Time;

// What the doors of a yard hand on.
type ConnOf<G> = Conn<<G as Door>::In, <G as Door>::Out>;

// Serves over the board, in the name of a pass, which comes back.
fn serve_by<
    R: Threads + Wait + Time + Sync,
    D: Disk + Drop + Send,
    F: Fate + Drop + Send,
    C: Clock + Drop + Send,
    G: Gate + Sync,
    Y: Yard,
    S: Source,
    K: Sink,
>(
    rt: &R,
    alloc: Global,
    workers: u16,
    plan: &Plan,
    gate: &G,
    pushes: &AtomicU64,
    board: &Board<D, F, C>,
    pass: ServicePass<D, F, C>,
    entrances: Vec<Entrance<Y::Door>>,
    conns: Sender<ConnOf<Y::Door>, Global>,
    waiting: &Receiver<ConnOf<Y::Door>, Global>,
    yard: &mut Y,
    source: &mut S,
    sink: &mut K,
) -> (DoorEnd, ConsoleEnd, ServicePass<D, F, C>, u128)
    requires belongs { IsServicePass (view_of D.seen D.faults D.clock) board.now plan.now pass }
    requires enough { workers + 4 ≤ quota_of pass.board }
    ensures belongs { IsServicePass (view_of D.seen D.faults D.clock) board.now plan.now result.2 }
    ensures quota { quota_of (result.2).board ≡ quota_of pass.board }
    ensures served { AreServed Y.Door.left Y.Door.quiets Y.Door.faults result.0 result.3 entrances.items (Y.closed yard.old) (Y.closed yard.new) }
    ensures opened { Y.opened yard.new ≡ Y.opened yard.old }
    ensures handed { Y.handed yard.new ≡ Y.handed yard.old }
    ensures returned { Y.returned yard.new ≡ Y.returned yard.old }
    ensures faults { Y.faults yard.new ≡ Y.faults yard.old }
    ensures unread { Y.unread yard.new ≡ Y.unread yard.old }
    ensures unopened { Y.unopened yard.new ≡ Y.unopened yard.old }
    ensures read_later { S.faults source.old ≤ S.faults source.new }
    ensures write_later { K.faults sink.old ≤ K.faults sink.new }
    ensures read_fault { result.1 ≡ ends.ReadFault → Rose (S.faults source.old) (S.faults source.new) }
    ensures write_fault { result.1 ≡ ends.WriteFault → Rose (K.faults sink.old) (K.faults sink.new) }
    ensures listened { HasListened (S.left source.old) (S.left source.new) result.1 }
{
    let backend = BoardBackend {
        rt,
        board,
        gate,
        plan,
        pushes,
    };
    serve_open(
        rt, alloc, &backend, pass, workers, entrances, conns, waiting, yard, source, sink,
    )
}

// How the doors are said to have ended, where so many connections were handed on, and so many served. Each that was handed on is
// served; where one was not, there was no memory to hand it on.
fn settled(doors: DoorEnd, taken: u128, served: u64) -> DoorEnd
    ensures { IsSettledAs doors taken served result }
{
    match doors {
        DoorEnd::Quiet => {
            if taken == u128::from(served) && served < u64::MAX {
                DoorEnd::Quiet
            } else {
                DoorEnd::NoMemory
            }
        }
        DoorEnd::Failed => DoorEnd::Failed,
        DoorEnd::NoMemory => DoorEnd::NoMemory,
    }
}

// Serves over the board, whose one pass this is, and closes it.
fn serve_over<
    R: Threads + Wait + Time + Sync,
    D: Disk + Drop + Send,
    F: Fate + Drop + Send,
    C: Clock + Drop + Send,
    G: Gate + Sync,
    Y: Yard,
    S: Source,
    K: Sink,
>(
    rt: &R,
    alloc: Global,
    workers: u16,
    plan: &Plan,
    gate: &G,
    board: Board<D, F, C>,
    pass: ServicePass<D, F, C>,
    entrances: Vec<Entrance<Y::Door>>,
    conns: Sender<ConnOf<Y::Door>, Global>,
    waiting: &Receiver<ConnOf<Y::Door>, Global>,
    yard: &mut Y,
    source: &mut S,
    sink: &mut K,
) -> (DoorEnd, ConsoleEnd, World<D>)
    requires belongs { IsServicePass (view_of D.seen D.faults D.clock) board plan.now pass }
    requires whole { quota_of pass.board ≡ passes_of board }
    requires enough { workers + 4 ≤ quota_of pass.board }
    ensures served { ServesOver Y.Door.left Y.Door.quiets Y.Door.faults (view_of D.seen D.faults D.clock) plan.now result.0 entrances.items (Y.closed yard.old) (Y.closed yard.new)
        (first_world board) result.2 }
    ensures opened { Y.opened yard.new ≡ Y.opened yard.old }
    ensures handed { Y.handed yard.new ≡ Y.handed yard.old }
    ensures returned { Y.returned yard.new ≡ Y.returned yard.old }
    ensures faults { Y.faults yard.new ≡ Y.faults yard.old }
    ensures unread { Y.unread yard.new ≡ Y.unread yard.old }
    ensures unopened { Y.unopened yard.new ≡ Y.unopened yard.old }
    ensures read_later { S.faults source.old ≤ S.faults source.new }
    ensures write_later { K.faults sink.old ≤ K.faults sink.new }
    ensures read_fault { result.1 ≡ ends.ReadFault → Rose (S.faults source.old) (S.faults source.new) }
    ensures write_fault { result.1 ≡ ends.WriteFault → Rose (K.faults sink.old) (K.faults sink.new) }
    ensures listened { HasListened (S.left source.old) (S.left source.new) result.1 }
{
    let pushes = AtomicU64::new(0);
    let (doors, console, pass, taken) = serve_by(
        rt, alloc, workers, plan, gate, &pushes, &board, pass, entrances, conns, waiting, yard,
        source, sink,
    );
    let ServicePass {
        board: last,
        served,
    } = pass;
    let world = board.close(last);
    (settled(doors, taken, served), console, world)
}

// A board over the world, with the fate and the clock of the yard, its one pass, and the yard's gate; or the world, where there
// is no memory for the board.
fn make_board<Y: Yard>(
    alloc: Global,
    world: World<Y::Store>,
    passes: u32,
    yard: &mut Y,
) -> Result<
    (
        Board<Y::Store, Y::Fate, Y::Clock>,
        ServicePass<Y::Store, Y::Fate, Y::Clock>,
        Y::Gate,
    ),
    World<Y::Store>,
>
    requires sound { IsSoundWorld (view_of Y.Store.seen Y.Store.faults Y.Store.clock) world }
    requires passes { 0 < passes }
    ensures made { IfOk result (λ made. IsNewBoard (view_of Y.Store.seen Y.Store.faults Y.Store.clock) world passes made.0 (made.1).board) }
    ensures served { IfOk result (λ made. (made.1).served ≡ 0) }
    ensures back { IfErr result (λ back. back ≡ world) }
    ensures same { yard.new ≡ yard.old }
{
    let fate = yard.fate();
    let clock = yard.clock();
    let gate = yard.gate();
    match Board::new(alloc, world, fate, clock, passes) {
        Ok((board, first)) => {
            let pass = ServicePass {
                board: first,
                served: 0,
            };
            Ok((board, pass, gate))
        }
        Err((world, _fate, _clock)) => Err(world),
    }
}

/// Serves the cluster of the world: opens a door of the yard at each port, in order, and has connections, letters and the console
/// served side by side, from beginning to end, as `run_service` of `mail_service` does. So many threads serve connections. The
/// fate of letters, the clock and the gate are made by the yard. May wait.
///
/// Sessions look names up in `plan`, which is to be the plan of the world, once more.
///
/// Each connection that was handed on was served: where a number of them is missing, the doors are said to have ended for want of
/// memory.
///
/// The world comes back in any case. It is as it was where nobody was served: where a door could not be opened, and where there
/// was no memory for the doors or the board. Else it can make steps still, and it is sound as long as each page of what was done to
/// it is known: over disks that tell what they hold, each is. Its book has, beside what it had, what was added in the name of each
/// thread, each entry once. Over disks that tell what they hold that is what connections came to know, and each message that one of
/// them was told is stored is there.
pub fn serve_board<R: Threads + Wait + Time + Sync, Y: Yard, S: Source, K: Sink>(
    rt: &R,
    alloc: Global,
    workers: u16,
    plan: &Plan,
    ports: &[Port],
    world: World<Y::Store>,
    yard: &mut Y,
    source: &mut S,
    sink: &mut K,
) -> (ServiceEnd, World<Y::Store>)
    requires sound { IsSoundWorld (view_of Y.Store.seen Y.Store.faults Y.Store.clock) world }
    ensures world { LeavesWorld (view_of Y.Store.seen Y.Store.faults Y.Store.clock) plan.now (console_end result.0) world result.1 }
    ensures ran { HasRun Y.Door.left Y.Door.quiets Y.Door.faults ports.now result.0 (Y.opened yard.old) (Y.opened yard.new) (Y.closed yard.old) (Y.closed yard.new) }
    ensures counted { CountsServed Y.Door.left (view_of Y.Store.seen Y.Store.faults Y.Store.clock) plan.now result.0 world result.1 (Y.opened yard.old) (Y.opened yard.new) }
    ensures unserved { console_end result.0 ≡ None → (source.new ≡ source.old) × (sink.new ≡ sink.old) }
    ensures handed { Y.handed yard.new ≡ Y.handed yard.old }
    ensures returned { Y.returned yard.new ≡ Y.returned yard.old }
    ensures faults { Y.faults yard.new ≡ Y.faults yard.old }
    ensures unread { Y.unread yard.new ≡ Y.unread yard.old }
    ensures unopened_later { Y.unopened yard.old ≤ Y.unopened yard.new }
    ensures read_later { S.faults source.old ≤ S.faults source.new }
    ensures write_later { K.faults sink.old ≤ K.faults sink.new }
    ensures unopened { result.0 ≡ service_ends.Unopened → Rose (Y.unopened yard.old) (Y.unopened yard.new) }
    ensures read_fault { IsReadFault (console_end result.0) → Rose (S.faults source.old) (S.faults source.new) }
    ensures write_fault { IsWriteFault (console_end result.0) → Rose (K.faults sink.old) (K.faults sink.new) }
    ensures listened { IfSome (console_end result.0) (λ end. HasListened (S.left source.old) (S.left source.new) end) }
{
    let (entrances, conns, waiting) = match open_service(alloc, ports, yard) {
        Ok(made) => made,
        Err(end) => return (end, world),
    };
    match make_board(alloc, world, u32::from(workers) + 4, yard) {
        Ok((board, pass, gate)) => {
            let (doors, console, world) = serve_over(
                rt, alloc, workers, plan, &gate, board, pass, entrances, conns, &waiting, yard,
                source, sink,
            );
            (ServiceEnd::Served { console, doors }, world)
        }
        Err(world) => {
            shut_all(yard, entrances);
            (ServiceEnd::NoMemory, world)
        }
    }
}
