// Two clients side by side, of which one is held until the other was answered.
ghost use Rattle.std.specs.Prelude.{◌≡◌, ◌+◌};
ghost use Rattle.cluster_trials.specs.Disks.{in_memory};
ghost use Rattle.shard_board.specs.Boards.{quota_of, IsPassOf};

use super::clients::{MAIL_TO_ANN, READ, READ_ALL, STORED, reads, sends};
use super::{CARRY, Cluster, Pass, made, opened};
use crate::fresh::plan;
use io_edge::Gate;
use mail_base::Plan;
use std::alloc::Global;
use std::sync::Wait;
use std::sync::atomic::{AtomicBool, AtomicU64, Ordering};
use std::test::Fail;
use std::thread::{self, Threads, join};
use world_book::Entry;

const MAIL_TO_BOB: &[u8] =
    b"HELO c\r\nMAIL FROM:<a>\r\nRCPT TO:<bob>\r\nDATA\r\nx\r\n.\r\nQUIT\r\n";

// The numbers of the two clients.
const ONE: u64 = 12;

const OTHER: u64 = 13;

// How often a client that is held looks.
const LOOKS: u32 = 1_000_000;

// A gate that holds one client before its calls until what the other was answered is written. It gives way after each look, and
// lets the client go after so many, which it notes.
#[derive(Drop)]
struct OneWaits {
    // the number of the client that is held; 0 until one has come, where it is whoever comes first
    held: AtomicU64,
    written: AtomicBool,
    late: AtomicBool,
}

impl OneWaits {
    fn new(held: u64) -> OneWaits {
        OneWaits {
            held: AtomicU64::new(held),
            written: AtomicBool::new(false),
            late: AtomicBool::new(false),
        }
    }

    fn held(&self) -> u64 {
        self.held.load(Ordering::SeqCst)
    }

    // Holds the client.
    fn hold(&self) {
        for _ in 0..LOOKS {
            if self.written.load(Ordering::SeqCst) {
                return;
            }
            thread::yield_now();
        }
        self.late.store(true, Ordering::SeqCst);
    }

    // Whether the other was answered, and nobody was let go before.
    fn kept_order(&self) -> bool {
        self.written.load(Ordering::SeqCst) && !self.late.load(Ordering::SeqCst)
    }
}

impl Gate for OneWaits {
    fn before(&self, session: u64, turn: u64) {
        let _ = turn;
        let _ = self
            .held
            .compare_exchange(0, session, Ordering::SeqCst, Ordering::SeqCst);
        if self.held() == session {
            self.hold();
        }
    }

    fn after(&self, session: u64, turn: u64) {
        let _ = turn;
        if self.held() != session {
            self.written.store(true, Ordering::SeqCst);
        }
    }
}

// A client who sends, in the name of a pass that is handed back with what it heard.
fn sends_by<R: Wait>(
    rt: &R,
    alloc: Global,
    gate: &OneWaits,
    board: &Cluster,
    mut pass: Pass,
    plan: &Plan,
    number: u64,
    says: &[u8],
) -> (Pass, Vec<u8>)
    requires pass { IsPassOf in_memory board.now pass }
    ensures pass { IsPassOf in_memory board.now result.0 × (quota_of result.0 ≡ quota_of pass) }
{
    let heard = sends(rt, alloc, gate, board, &mut pass, plan, number, says);
    (pass, heard)
}

// A client who reads, likewise.
fn reads_by<R: Wait>(
    rt: &R,
    alloc: Global,
    gate: &OneWaits,
    board: &Cluster,
    mut pass: Pass,
    plan: &Plan,
    number: u64,
) -> (Pass, Vec<u8>)
    requires pass { IsPassOf in_memory board.now pass }
    ensures pass { IsPassOf in_memory board.now result.0 × (quota_of result.0 ≡ quota_of pass) }
{
    let heard = reads(rt, alloc, gate, board, &mut pass, plan, number, READ);
    (pass, heard)
}

// One pass that those of two clients are joined in, and what each heard.
type Heard = (Pass, Vec<u8>, Vec<u8>);

// One client sends to ann, and another to bob.
fn send_both<R: Threads + Wait + Sync>(
    rt: &R,
    alloc: Global,
    gate: &OneWaits,
    board: &Cluster,
    first: Pass,
    second: Pass,
    plan: &Plan,
) -> Heard
    requires passes { IsPassOf in_memory board.now first × IsPassOf in_memory board.now second }
    ensures pass { IsPassOf in_memory board.now result.0 × (quota_of result.0 ≡ quota_of first + quota_of second) }
{
    let ((mut pass, one), (other, two)) = join(
        rt,
        || -> (Pass, Vec<u8>)
            requires pass { IsPassOf in_memory board.now first }
            ensures { IsPassOf in_memory board.entry.now result.0 × (quota_of result.0 ≡ quota_of first) }
        { sends_by(rt, alloc, gate, board, first, plan, ONE, MAIL_TO_ANN) },
        || -> (Pass, Vec<u8>)
            requires pass { IsPassOf in_memory board.now second }
            ensures { IsPassOf in_memory board.entry.now result.0 × (quota_of result.0 ≡ quota_of second) }
        { sends_by(rt, alloc, gate, board, second, plan, OTHER, MAIL_TO_BOB) },
    );
    board.join(&mut pass, other);
    (pass, one, two)
}

// One client reads ann's mail, and another sends it.
fn read_and_send<R: Threads + Wait + Sync>(
    rt: &R,
    alloc: Global,
    gate: &OneWaits,
    board: &Cluster,
    first: Pass,
    second: Pass,
    plan: &Plan,
) -> Heard
    requires passes { IsPassOf in_memory board.now first × IsPassOf in_memory board.now second }
    ensures pass { IsPassOf in_memory board.now result.0 × (quota_of result.0 ≡ quota_of first + quota_of second) }
{
    let ((mut pass, one), (other, two)) = join(
        rt,
        || -> (Pass, Vec<u8>)
            requires pass { IsPassOf in_memory board.now first }
            ensures { IsPassOf in_memory board.entry.now result.0 × (quota_of result.0 ≡ quota_of first) }
        { reads_by(rt, alloc, gate, board, first, plan, OTHER) },
        || -> (Pass, Vec<u8>)
            requires pass { IsPassOf in_memory board.now second }
            ensures { IsPassOf in_memory board.entry.now result.0 × (quota_of result.0 ≡ quota_of second) }
        { sends_by(rt, alloc, gate, board, second, plan, ONE, MAIL_TO_ANN) },
    );
    board.join(&mut pass, other);
    (pass, one, two)
}

// Whether the entry is of a message to this user, and the message has this number.
fn is_acked(entry: Option<&Entry>, to: &[u8], number: u64) -> bool {
    match entry {
        Some(Entry::Acked { user, id, .. }) => user.octets() == to && id.seq() == number,
        _ => false,
    }
}

// Whether the book has these two messages, in this order, and nothing else.
fn is_booked(entries: &[Entry], first: &[u8], second: &[u8]) -> bool {
    entries.len() == 2 && is_acked(entries.first(), first, 1) && is_acked(entries.last(), second, 2)
}

// Whoever comes first is held. So no order in which one client is served after the other gets through.
#[test]
fn held_sender_comes_second(rt: HostRuntime) -> Result<(), Fail> {
    let alloc = rt.alloc();
    let plan = plan(alloc, 1, 1)?;
    let Ok(world) = opened(alloc, 1, 1) else {
        panic!(rt; "no world");
    };
    let Some((board, mut first)) = made(alloc, world, CARRY, 2) else {
        panic!(rt; "no memory");
    };
    let second = board.split(&mut first, 1);
    let gate = OneWaits::new(0);
    let (pass, one, two) = send_both(&rt, alloc, &gate, &board, first, second, &plan);
    let world = board.close(pass);
    let entries = world.book().entries();
    assert!(rt; gate.kept_order());
    assert!(rt; one.as_slice() == STORED && two.as_slice() == STORED);
    if gate.held() == ONE {
        assert!(rt; is_booked(entries, b"bob", b"ann"));
    } else {
        assert!(rt; is_booked(entries, b"ann", b"bob"));
    }
    Ok(())
}

// The reader is held. Where no thread can be made it is served second.
#[test]
fn held_reader_finds_the_mail(rt: HostRuntime) -> Result<(), Fail> {
    let alloc = rt.alloc();
    let plan = plan(alloc, 1, 1)?;
    let Ok(world) = opened(alloc, 1, 1) else {
        panic!(rt; "no world");
    };
    let Some((board, mut first)) = made(alloc, world, CARRY, 2) else {
        panic!(rt; "no memory");
    };
    let second = board.split(&mut first, 1);
    let gate = OneWaits::new(OTHER);
    let (pass, read, sent) = read_and_send(&rt, alloc, &gate, &board, first, second, &plan);
    let sum = board.close(pass).sum();
    assert!(rt; gate.kept_order());
    assert!(rt; sent.as_slice() == STORED && read.as_slice() == READ_ALL);
    assert_eq!(rt; (sum.acked, sum.struck, sum.dropped), (1, 1, 1));
    Ok(())
}
