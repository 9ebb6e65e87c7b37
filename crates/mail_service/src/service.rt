//! A whole service: the doors of a yard, those who serve, the courier and the console, side by side, from beginning to end.
ghost use Rattle.std.specs.Prelude.{◌≡◌, ◌≤◌, ◌<◌, ◌+◌, None, IsSome, IfSome, IfOk, IfErr, IsErrOf};
ghost use Rattle.std.specs.Thread.{IsSync};
ghost use Rattle.io_edge.specs.Causes.{Rose};
ghost use Rattle.mail_service.specs.Consoles.{IsReadFault, IsWriteFault, HasListened};
ghost use Rattle.mail_service.specs.Entrances.{AllMet, IsLater, AllEndSo};
ghost use Rattle.mail_service.specs.Services.{AreServed, HasOpened, HasRun, console_end, unopened};
ghost use Rattle.mail_service.specs.declared.console.ConsoleEnd.TheVariants as ends;
ghost use Rattle.mail_service.specs.declared.service.ServiceEnd.TheVariants as service_ends;

use crate::backend::Backend;
use crate::console::{ConsoleEnd, listen};
use crate::doors::{Conn, DoorEnd, Entrance, Watch, attend_all, taken_in};
use crate::workers::serve_all;
use crate::yards::{Port, open_doors, shut_all};
use crossbeam_channel::{Receiver, Sender, unbounded};
use io_edge::{Door, Sink, Source, Yard, YardRefusal};
use std::alloc::Global;
use std::mem;
use std::sync::Wait;
use std::sync::atomic::{AtomicBool, AtomicU64, Ordering};
use std::thread::{Threads, join_mut};
use std::time::Clock;

/// How a service ended.
#[derive(Clone, Copy, Debug, PartialEq, Eq)]
pub enum ServiceEnd {
    /// It has served until its console ended.
    Served {
        /// How the console ended.
        console: ConsoleEnd,
        /// How the doors ended.
        doors: DoorEnd,
    },
    /// A door could not be opened, and nobody was served.
    Unopened,
    /// There was no memory for the doors, and nobody was served.
    NoMemory,
}

// What the doors of a yard hand on.
type ConnOf<G> = Conn<<G as Door>::In, <G as Door>::Out>;

// What a yard refused is what the service came to.
fn unopened(refusal: YardRefusal) -> ServiceEnd
    ensures { result ≡ unopened refusal }
{
    match refusal {
        YardRefusal::Failed => ServiceEnd::Unopened,
        YardRefusal::NoMemory => ServiceEnd::NoMemory,
    }
}

// Listens to the console, and has the doors end afterwards.
fn preside<R: Wait, B: Backend, S: Source, K: Sink>(
    rt: &R,
    alloc: Global,
    backend: &B,
    pass: &mut B::Pass,
    watch: &Watch<'_>,
    source: &mut S,
    sink: &mut K,
) -> ConsoleEnd
    requires belongs { B.belongs backend.now pass.old }
    ensures belongs { B.belongs backend.now pass.new }
    ensures quota { B.quota pass.new ≡ B.quota pass.old }
    ensures read_later { S.faults source.old ≤ S.faults source.new }
    ensures write_later { K.faults sink.old ≤ K.faults sink.new }
    ensures read_fault { result ≡ ends.ReadFault → Rose (S.faults source.old) (S.faults source.new) }
    ensures write_fault { result ≡ ends.WriteFault → Rose (K.faults sink.old) (K.faults sink.new) }
    ensures listened { HasListened (S.left source.old) (S.left source.new) result }
{
    let end = listen(rt, alloc, backend, pass, source, sink);
    watch.stop.store(true, Ordering::SeqCst);
    end
}

// The doors take connections and the console is listened to, side by side, until all have ended.
fn admit<R: Threads + Wait + Sync, B: Backend, G: Door + Send, S: Source, K: Sink>(
    rt: &R,
    alloc: Global,
    backend: &B,
    pass: &mut B::Pass,
    watch: &Watch<'_>,
    entrances: &mut [Entrance<G>],
    conns: &Sender<Conn<G::In, G::Out>, Global>,
    source: &mut S,
    sink: &mut K,
) -> (DoorEnd, ConsoleEnd)
    requires belongs { B.belongs backend.now pass.old }
    ensures belongs { B.belongs backend.now pass.new }
    ensures quota { B.quota pass.new ≡ B.quota pass.old }
    ensures later { AllMet (IsLater G.quiets G.faults) entrances.old entrances.new }
    ensures end { AllEndSo G.left G.quiets G.faults result.0 entrances.old entrances.new }
    ensures read_later { S.faults source.old ≤ S.faults source.new }
    ensures write_later { K.faults sink.old ≤ K.faults sink.new }
    ensures read_fault { result.1 ≡ ends.ReadFault → Rose (S.faults source.old) (S.faults source.new) }
    ensures write_fault { result.1 ≡ ends.WriteFault → Rose (K.faults sink.old) (K.faults sink.new) }
    ensures listened { HasListened (S.left source.old) (S.left source.new) result.1 }
{
    // Where no thread can be made the second is called first: doors end only once the console has ended.
    join_mut(
        rt,
        &mut || -> DoorEnd
            requires { IsSync R.row }
            ensures later { AllMet (IsLater G.quiets G.faults) entrances.entry.now entrances.exit.now }
            ensures end { AllEndSo G.left G.quiets G.faults result entrances.entry.now entrances.exit.now }
        { attend_all(rt, watch, entrances, conns) },
        &mut || -> ConsoleEnd
            requires belongs { B.belongs backend.now pass.now }
            ensures belongs { B.belongs backend.entry.now pass.exit.now }
            ensures quota { B.quota pass.exit.now ≡ B.quota pass.entry.now }
            ensures read_later { S.faults source.entry.now ≤ S.faults source.exit.now }
            ensures write_later { K.faults sink.entry.now ≤ K.faults sink.exit.now }
            ensures read_fault { result ≡ ends.ReadFault → Rose (S.faults source.entry.now) (S.faults source.exit.now) }
            ensures write_fault { result ≡ ends.WriteFault → Rose (K.faults sink.entry.now) (K.faults sink.exit.now) }
            ensures listened { HasListened (S.left source.entry.now) (S.left source.exit.now) result }
        { preside(rt, alloc, backend, pass, watch, source, sink) },
    )
}

// Doors take connections and the console is listened to, from beginning to end.
fn attend_service<R: Threads + Wait + Sync, B: Backend, G: Door + Send, S: Source, K: Sink>(
    rt: &R,
    alloc: Global,
    backend: &B,
    pass: &mut B::Pass,
    entrances: &mut Vec<Entrance<G>>,
    conns: &Sender<ConnOf<G>, Global>,
    source: &mut S,
    sink: &mut K,
) -> (DoorEnd, ConsoleEnd)
    requires belongs { B.belongs backend.now pass.old }
    ensures belongs { B.belongs backend.now pass.new }
    ensures quota { B.quota pass.new ≡ B.quota pass.old }
    ensures later { AllMet (IsLater G.quiets G.faults) entrances.old.items entrances.new.items }
    ensures end { AllEndSo G.left G.quiets G.faults result.0 entrances.old.items entrances.new.items }
    ensures read_later { S.faults source.old ≤ S.faults source.new }
    ensures write_later { K.faults sink.old ≤ K.faults sink.new }
    ensures read_fault { result.1 ≡ ends.ReadFault → Rose (S.faults source.old) (S.faults source.new) }
    ensures write_fault { result.1 ≡ ends.WriteFault → Rose (K.faults sink.old) (K.faults sink.new) }
    ensures listened { HasListened (S.left source.old) (S.left source.new) result.1 }
{
    let stop = AtomicBool::new(false);
    let numbers = AtomicU64::new(1);
    let watch = Watch {
        stop: &stop,
        numbers: &numbers,
    };
    admit(
        rt, alloc, backend, pass, &watch, entrances, conns, source, sink,
    )
}

// The same. Then nobody can hand a connection on any more, and the doors are given back. It is counted how many were handed on.
fn keep<R: Threads + Wait + Sync, B: Backend, Y: Yard, S: Source, K: Sink>(
    rt: &R,
    alloc: Global,
    backend: &B,
    pass: &mut B::Pass,
    entrances: &mut Vec<Entrance<Y::Door>>,
    conns: &mut Option<Sender<ConnOf<Y::Door>, Global>>,
    yard: &mut Y,
    source: &mut S,
    sink: &mut K,
) -> (DoorEnd, ConsoleEnd, u128)
    requires belongs { B.belongs backend.now pass.old }
    requires there { IsSome conns.old }
    ensures belongs { B.belongs backend.now pass.new }
    ensures quota { B.quota pass.new ≡ B.quota pass.old }
    ensures served { AreServed Y.Door.left Y.Door.quiets Y.Door.faults result.0 result.2 entrances.old.items (Y.closed yard.old) (Y.closed yard.new) }
    ensures opened { Y.opened yard.new ≡ Y.opened yard.old }
    ensures handed { Y.handed yard.new ≡ Y.handed yard.old }
    ensures returned { Y.returned yard.new ≡ Y.returned yard.old }
    ensures faults { Y.faults yard.new ≡ Y.faults yard.old }
    ensures unread { Y.unread yard.new ≡ Y.unread yard.old }
    ensures unopened { Y.unopened yard.new ≡ Y.unopened yard.old }
    ensures read_later { S.faults source.old ≤ S.faults source.new }
    ensures write_later { K.faults sink.old ≤ K.faults sink.new }
    ensures read_fault { result.1 ≡ ends.ReadFault → Rose (S.faults source.old) (S.faults source.new) }
    ensures write_fault { result.1 ≡ ends.WriteFault → Rose (K.faults sink.old) (K.faults sink.new) }
    ensures listened { HasListened (S.left source.old) (S.left source.new) result.1 }
{
    let Some(sender) = conns.take() else {
        unreachable!()
    };
    let (doors, console) = attend_service(
        rt, alloc, backend, pass, entrances, &sender, source, sink,
    );
    drop(sender);
    let taken = taken_in(entrances);
    shut_all(yard, mem::replace(entrances, Vec::new(alloc)));
    (doors, console, taken)
}

// Serves connections, in the name of passes that are split off and joined again.
fn serve_lent<
    R: Threads + Wait + Clock + Sync,
    B: Backend + Sync,
    I: Source + Drop + Send,
    O: Sink + Drop + Send,
>(
    rt: &R,
    alloc: Global,
    backend: &B,
    pass: &mut B::Pass,
    workers: u16,
    waiting: &Receiver<Conn<I, O>, Global>,
)
    requires belongs { B.belongs backend.now pass.old }
    requires enough { workers + 3 ≤ B.quota pass.old }
    ensures belongs { B.belongs backend.now pass.new }
    ensures quota { B.quota pass.new ≡ B.quota pass.old }
{
    let count = u32::from(workers);
    let theirs = backend.split(pass, count + 2);
    let theirs = serve_all(rt, alloc, backend, theirs, count, waiting);
    backend.join(pass, theirs);
}

// Serves connections, and keeps the doors and the console, side by side.
fn serve_beside<
    R: Threads + Wait + Clock + Sync,
    B: Backend<Pass = P> + Sync,
    P: Drop + Send,
    I: Source + Drop + Send,
    O: Sink + Drop + Send,
    G: Door<In = I, Out = O> + Drop + Send,
    Y: Yard<Door = G>,
    S: Source,
    K: Sink,
>(
    rt: &R,
    alloc: &Global,
    backend: &B,
    pass: &mut P,
    workers: u16,
    waiting: &Receiver<Conn<I, O>, Global>,
    ours: &mut P,
    entrances: &mut Vec<Entrance<G>>,
    conns: &mut Option<Sender<Conn<I, O>, Global>>,
    yard: &mut Y,
    source: &mut S,
    sink: &mut K,
) -> ((), (DoorEnd, ConsoleEnd, u128))
    requires belongs { B.belongs backend.now pass.old × B.belongs backend.now ours.old }
    requires enough { workers + 3 ≤ B.quota pass.old }
    requires there { IsSome conns.old }
    ensures belongs { B.belongs backend.now pass.new × B.belongs backend.now ours.new }
    ensures quota { (B.quota pass.new ≡ B.quota pass.old) × (B.quota ours.new ≡ B.quota ours.old) }
    ensures served { AreServed G.left G.quiets G.faults result.1.0 result.1.2 entrances.old.items (Y.closed yard.old) (Y.closed yard.new) }
    ensures opened { Y.opened yard.new ≡ Y.opened yard.old }
    ensures handed { Y.handed yard.new ≡ Y.handed yard.old }
    ensures returned { Y.returned yard.new ≡ Y.returned yard.old }
    ensures faults { Y.faults yard.new ≡ Y.faults yard.old }
    ensures unread { Y.unread yard.new ≡ Y.unread yard.old }
    ensures unopened { Y.unopened yard.new ≡ Y.unopened yard.old }
    ensures read_later { S.faults source.old ≤ S.faults source.new }
    ensures write_later { K.faults sink.old ≤ K.faults sink.new }
    ensures read_fault { result.1.1 ≡ ends.ReadFault → Rose (S.faults source.old) (S.faults source.new) }
    ensures write_fault { result.1.1 ≡ ends.WriteFault → Rose (K.faults sink.old) (K.faults sink.new) }
    ensures listened { HasListened (S.left source.old) (S.left source.new) result.1.1 }
{
    // Where no thread can be made the second is called first: there is an end of serving only once the doors have ended.
    join_mut(
        rt,
        &mut || -> ()
            requires sync { IsSync R.row × IsSync B.row }
            requires belongs { B.belongs backend.now pass.now }
            requires enough { workers + 3 ≤ B.quota pass.now }
            ensures belongs { B.belongs backend.entry.now pass.exit.now }
            ensures quota { B.quota pass.exit.now ≡ B.quota pass.entry.now }
        { serve_lent(rt, *alloc, backend, pass, workers, waiting) },
        &mut || -> (DoorEnd, ConsoleEnd, u128)
            requires sync { IsSync R.row }
            requires belongs { B.belongs backend.now ours.now }
            requires there { IsSome conns.now }
            ensures belongs { B.belongs backend.entry.now ours.exit.now }
            ensures quota { B.quota ours.exit.now ≡ B.quota ours.entry.now }
            ensures served { AreServed G.left G.quiets G.faults result.0 result.2 entrances.entry.now.items (Y.closed yard.entry.now) (Y.closed yard.exit.now) }
            ensures opened { Y.opened yard.exit.now ≡ Y.opened yard.entry.now }
            ensures handed { Y.handed yard.exit.now ≡ Y.handed yard.entry.now }
            ensures returned { Y.returned yard.exit.now ≡ Y.returned yard.entry.now }
            ensures faults { Y.faults yard.exit.now ≡ Y.faults yard.entry.now }
            ensures unread { Y.unread yard.exit.now ≡ Y.unread yard.entry.now }
            ensures unopened { Y.unopened yard.exit.now ≡ Y.unopened yard.entry.now }
            ensures read_later { S.faults source.entry.now ≤ S.faults source.exit.now }
            ensures write_later { K.faults sink.entry.now ≤ K.faults sink.exit.now }
            ensures read_fault { result.1 ≡ ends.ReadFault → Rose (S.faults source.entry.now) (S.faults source.exit.now) }
            ensures write_fault { result.1 ≡ ends.WriteFault → Rose (K.faults sink.entry.now) (K.faults sink.exit.now) }
            ensures listened { HasListened (S.left source.entry.now) (S.left source.exit.now) result.1 }
        {
            keep(
                rt, *alloc, backend, ours, entrances, conns, yard, source, sink,
            )
        },
    )
}

/// Opens a door of the yard at each port, in order, and makes the channel by which connections go to those who serve. Where that
/// cannot be, the doors that were opened are given back, and the end is said: `Unopened`, or `NoMemory`.
pub fn open_service<Y: Yard>(
    alloc: Global,
    ports: &[Port],
    yard: &mut Y,
) -> Result<
    (
        Vec<Entrance<Y::Door>>,
        Sender<ConnOf<Y::Door>, Global>,
        Receiver<ConnOf<Y::Door>, Global>,
    ),
    ServiceEnd,
>
    ensures doors { IfOk result (λ made. HasOpened ports.now (made.0).items (Y.opened yard.old) (Y.opened yard.new) (Y.closed yard.old) (Y.closed yard.new)) }
    ensures refused { IfErr result (λ end. HasRun Y.Door.left Y.Door.quiets Y.Door.faults ports.now end (Y.opened yard.old) (Y.opened yard.new) (Y.closed yard.old) (Y.closed yard.new)) }
    ensures unserved { IfErr result (λ end. console_end end ≡ None) }
    ensures handed { Y.handed yard.new ≡ Y.handed yard.old }
    ensures returned { Y.returned yard.new ≡ Y.returned yard.old }
    ensures faults { Y.faults yard.new ≡ Y.faults yard.old }
    ensures unread { Y.unread yard.new ≡ Y.unread yard.old }
    ensures unopened_later { Y.unopened yard.old ≤ Y.unopened yard.new }
    ensures unopened { IsErrOf result service_ends.Unopened → Rose (Y.unopened yard.old) (Y.unopened yard.new) }
{
    let Ok((conns, waiting)) = unbounded(alloc) else {
        return Err(ServiceEnd::NoMemory);
    };
    let Ok(mut entrances) = Vec::with_capacity(alloc, ports.len()) else {
        return Err(ServiceEnd::NoMemory);
    };
    match open_doors(yard, ports, &mut entrances) {
        Ok(()) => Ok((entrances, conns, waiting)),
        Err(refusal) => {
            shut_all(yard, entrances);
            Err(unopened(refusal))
        }
    }
}

/// Serves at doors that are open, from there on as `run_service` does: until the console has ended and each connection that came
/// in was served. The doors are given back. It is said how many connections they handed on. May wait.
///
/// The pass has a quota of four more than the number of threads that serve, at least, and comes back with its whole quota.
pub fn serve_open<R: Threads + Wait + Clock + Sync, B: Backend + Sync, Y: Yard, S: Source, K: Sink>(
    rt: &R,
    alloc: Global,
    backend: &B,
    mut pass: B::Pass,
    workers: u16,
    mut entrances: Vec<Entrance<Y::Door>>,
    conns: Sender<ConnOf<Y::Door>, Global>,
    waiting: &Receiver<ConnOf<Y::Door>, Global>,
    yard: &mut Y,
    source: &mut S,
    sink: &mut K,
) -> (DoorEnd, ConsoleEnd, B::Pass, u128)
    requires belongs { B.belongs backend.now pass }
    requires enough { workers + 4 ≤ B.quota pass }
    ensures belongs { B.belongs backend.now result.2 }
    ensures quota { B.quota result.2 ≡ B.quota pass }
    ensures served { AreServed Y.Door.left Y.Door.quiets Y.Door.faults result.0 result.3 entrances.items (Y.closed yard.old) (Y.closed yard.new) }
    ensures opened { Y.opened yard.new ≡ Y.opened yard.old }
    ensures handed { Y.handed yard.new ≡ Y.handed yard.old }
    ensures returned { Y.returned yard.new ≡ Y.returned yard.old }
    ensures faults { Y.faults yard.new ≡ Y.faults yard.old }
    ensures unread { Y.unread yard.new ≡ Y.unread yard.old }
    ensures unopened { Y.unopened yard.new ≡ Y.unopened yard.old }
    ensures read_later { S.faults source.old ≤ S.faults source.new }
    ensures write_later { K.faults sink.old ≤ K.faults sink.new }
    ensures read_fault { result.1 ≡ ends.ReadFault → Rose (S.faults source.old) (S.faults source.new) }
    ensures write_fault { result.1 ≡ ends.WriteFault → Rose (K.faults sink.old) (K.faults sink.new) }
    ensures listened { HasListened (S.left source.old) (S.left source.new) result.1 }
{
    let mut ours = backend.split(&mut pass, 1);
    let mut lent = Some(conns);
    let ((), (doors, console, taken)) = serve_beside(
        rt,
        &alloc,
        backend,
        &mut pass,
        workers,
        waiting,
        &mut ours,
        &mut entrances,
        &mut lent,
        yard,
        source,
        sink,
    );
    backend.join(&mut pass, ours);
    (doors, console, pass, taken)
}

/// Runs a whole service over a backend: opens a door of the yard at each port, in order, calls them, serves their connections by
/// so many threads, has letters carried, and listens to the console, all side by side. Where no thread can be made, one does its
/// work after another. May wait.
///
/// It ends in order, once the console has ended: each door that has found nobody takes no more connections; the doors are given
/// back to the yard, which ends the reading of connections that are still open; each connection that came in is served to its
/// end; and letters are carried until there is nothing to carry. The doors are given back in any case.
///
/// Where nobody was served, the pass, the source and the sink are as they were.
///
/// The pass has a quota of four more than the number of threads that serve, at least, and comes back with its whole quota.
pub fn run_service<
    R: Threads + Wait + Clock + Sync,
    B: Backend + Sync,
    Y: Yard,
    S: Source,
    K: Sink,
>(
    rt: &R,
    alloc: Global,
    backend: &B,
    pass: B::Pass,
    workers: u16,
    ports: &[Port],
    yard: &mut Y,
    source: &mut S,
    sink: &mut K,
) -> (ServiceEnd, B::Pass)
    requires belongs { B.belongs backend.now pass }
    requires enough { workers + 4 ≤ B.quota pass }
    ensures belongs { B.belongs backend.now result.1 }
    ensures quota { B.quota result.1 ≡ B.quota pass }
    ensures ran { HasRun Y.Door.left Y.Door.quiets Y.Door.faults ports.now result.0 (Y.opened yard.old) (Y.opened yard.new) (Y.closed yard.old) (Y.closed yard.new) }
    ensures unserved { console_end result.0 ≡ None → (result.1 ≡ pass) × (source.new ≡ source.old) × (sink.new ≡ sink.old) }
    ensures handed { Y.handed yard.new ≡ Y.handed yard.old }
    ensures returned { Y.returned yard.new ≡ Y.returned yard.old }
    ensures faults { Y.faults yard.new ≡ Y.faults yard.old }
    ensures unread { Y.unread yard.new ≡ Y.unread yard.old }
    ensures unopened_later { Y.unopened yard.old ≤ Y.unopened yard.new }
    ensures read_later { S.faults source.old ≤ S.faults source.new }
    ensures write_later { K.faults sink.old ≤ K.faults sink.new }
    ensures unopened { result.0 ≡ service_ends.Unopened → Rose (Y.unopened yard.old) (Y.unopened yard.new) }
    ensures read_fault { IsReadFault (console_end result.0) → Rose (S.faults source.old) (S.faults source.new) }
    ensures write_fault { IsWriteFault (console_end result.0) → Rose (K.faults sink.old) (K.faults sink.new) }
    ensures listened { IfSome (console_end result.0) (λ end. HasListened (S.left source.old) (S.left source.new) end) }
{
    match open_service(alloc, ports, yard) {
        Ok((entrances, conns, waiting)) => {
            let (doors, console, pass, _taken) = serve_open(
                rt, alloc, backend, pass, workers, entrances, conns, &waiting, yard, source, sink,
            );
            (ServiceEnd::Served { console, doors }, pass)
        }
        Err(end) => (end, pass),
    }
}
