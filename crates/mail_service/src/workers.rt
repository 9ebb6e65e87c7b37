//! Those who serve connections, and who carries letters meanwhile.
ghost use Rattle.std.specs.Prelude.{◌≡◌, ◌≤◌, ◌+◌};
ghost use Rattle.std.specs.Thread.{IsSync};

use crate::backend::Backend;
use crate::doors::Conn;
use crossbeam_channel::Receiver;
use io_edge::{Sink, Source};
use std::alloc::Global;
use std::sync::Wait;
use std::sync::atomic::{AtomicBool, Ordering};
use std::thread::{self, Threads, join};
use std::time::{Clock, Duration};

/// How long the courier rests where there is nothing to carry, in milliseconds.
const REST: u64 = 10;

// Serves one connection to its end.
fn serve_one<B: Backend, I: Source + Drop, O: Sink + Drop>(
    alloc: Global,
    backend: &B,
    pass: &mut B::Pass,
    conn: Conn<I, O>,
)
    requires belongs { B.belongs backend.now pass.old }
    ensures belongs { B.belongs backend.now pass.new }
    ensures quota { B.quota pass.new ≡ B.quota pass.old }
{
    let Conn {
        line,
        mut source,
        mut sink,
    } = conn;
    backend.serve(alloc, pass, line, &mut source, &mut sink);
}

// Serves connections, one after another, until no door can hand one on.
fn work<R: Wait, B: Backend, I: Source + Drop, O: Sink + Drop>(
    rt: &R,
    alloc: Global,
    backend: &B,
    mut pass: B::Pass,
    conns: &Receiver<Conn<I, O>, Global>,
) -> B::Pass
    requires belongs { B.belongs backend.now pass }
    ensures belongs { B.belongs backend.now result }
    ensures quota { B.quota result ≡ B.quota pass }
{
    for _ in rt.forever() {
        match conns.recv(rt) {
            Ok(conn) => serve_one(alloc, backend, &mut pass, conn),
            Err(_) => break,
        }
    }
    pass
}

/// Serves connections by so many threads until no door can hand one on. The pass has at least that quota, and comes back with it.
pub fn work_all<
    R: Threads + Wait + Sync,
    B: Backend + Sync,
    I: Source + Drop + Send,
    O: Sink + Drop + Send,
>(
    rt: &R,
    alloc: Global,
    backend: &B,
    mut pass: B::Pass,
    count: u32,
    conns: &Receiver<Conn<I, O>, Global>,
) -> B::Pass
    requires belongs { B.belongs backend.now pass }
    requires enough { count ≤ B.quota pass }
    ensures belongs { B.belongs backend.now result }
    ensures quota { B.quota result ≡ B.quota pass }
{
    if count < 2 {
        return work(rt, alloc, backend, pass, conns);
    }
    let half = count / 2;
    let rest = count - half;
    let other = backend.split(&mut pass, half);
    let (mut pass, other) = join(
        rt,
        || -> B::Pass
            requires sync { IsSync R.row × IsSync B.row }
            requires belongs { B.belongs backend.now pass }
            requires enough { rest ≤ B.quota pass }
            ensures belongs { B.belongs backend.entry.now result }
            ensures quota { B.quota result ≡ B.quota pass }
        { work_all(rt, alloc, backend, pass, rest, conns) },
        || -> B::Pass
            requires sync { IsSync R.row × IsSync B.row }
            requires belongs { B.belongs backend.now other }
            requires enough { half ≤ B.quota other }
            ensures belongs { B.belongs backend.entry.now result }
            ensures quota { B.quota result ≡ B.quota other }
        { work_all(rt, alloc, backend, other, half, conns) },
    );
    backend.join(&mut pass, other);
    pass
}

// Carries letters until all connections were served and there is nothing to carry.
fn carry_all<R: Wait + Clock, B: Backend>(
    rt: &R,
    alloc: Global,
    backend: &B,
    mut pass: B::Pass,
    served: &AtomicBool,
) -> B::Pass
    requires belongs { B.belongs backend.now pass }
    ensures belongs { B.belongs backend.now result }
    ensures quota { B.quota result ≡ B.quota pass }
{
    for _ in rt.forever() {
        if backend.carry(alloc, &mut pass) {
            continue;
        }
        if served.load(Ordering::SeqCst) {
            break;
        }
        thread::sleep(rt, Duration::from_millis(REST));
    }
    pass
}

// Serves connections by so many threads until no door can hand one on, and then says so.
fn work_out<
    R: Threads + Wait + Sync,
    B: Backend + Sync,
    I: Source + Drop + Send,
    O: Sink + Drop + Send,
>(
    rt: &R,
    alloc: Global,
    backend: &B,
    pass: B::Pass,
    count: u32,
    conns: &Receiver<Conn<I, O>, Global>,
    served: &AtomicBool,
) -> B::Pass
    requires belongs { B.belongs backend.now pass }
    requires enough { count ≤ B.quota pass }
    ensures belongs { B.belongs backend.now result }
    ensures quota { B.quota result ≡ B.quota pass }
{
    let pass = work_all(rt, alloc, backend, pass, count, conns);
    served.store(true, Ordering::SeqCst);
    pass
}

/// Serves connections by so many threads until no door can hand one on. Meanwhile one more carries letters, and goes on until there
/// is none left. The pass has a quota of one more than the number of threads that serve, at least, and comes back with it.
pub fn serve_all<
    R: Threads + Wait + Clock + Sync,
    B: Backend + Sync,
    I: Source + Drop + Send,
    O: Sink + Drop + Send,
>(
    rt: &R,
    alloc: Global,
    backend: &B,
    mut pass: B::Pass,
    count: u32,
    conns: &Receiver<Conn<I, O>, Global>,
) -> B::Pass
    requires belongs { B.belongs backend.now pass }
    requires enough { count + 2 ≤ B.quota pass }
    ensures belongs { B.belongs backend.now result }
    ensures quota { B.quota result ≡ B.quota pass }
{
    let served = AtomicBool::new(false);
    let ended = &served;
    let courier = backend.split(&mut pass, 1);
    // Where no thread can be made the second is called first: there is an end of carrying only once all were served.
    let (courier, mut pass) = join(
        rt,
        || -> B::Pass
            requires belongs { B.belongs backend.now courier }
            ensures belongs { B.belongs backend.entry.now result }
            ensures quota { B.quota result ≡ B.quota courier }
        { carry_all(rt, alloc, backend, courier, ended) },
        || -> B::Pass
            requires sync { IsSync R.row × IsSync B.row }
            requires belongs { B.belongs backend.now pass }
            requires enough { count ≤ B.quota pass }
            ensures belongs { B.belongs backend.entry.now result }
            ensures quota { B.quota result ≡ B.quota pass }
        { work_out(rt, alloc, backend, pass, count, conns, ended) },
    );
    backend.join(&mut pass, courier);
    pass
}
