//! Doors, and the connections that come in by them.
ghost use Rattle.std.specs.Prelude.{◌≡◌};
ghost use Rattle.std.specs.Thread.{IsSync};
ghost use Rattle.mail_service.specs.Entrances.{AllMet, IsLater, EndsSo, AllEndSo, IsEmpty, Knocks, taken_in, worse, noted};

use crate::backend::Line;
use crossbeam_channel::Sender;
use io_edge::{Accepted, Door, Protocol};
use std::alloc::Global;
use std::sync::Wait;
use std::sync::atomic::{AtomicBool, AtomicU64, Ordering};
use std::thread::{Threads, join_mut};

/// A door of a node, at which a protocol is spoken.
#[derive(Drop)]
pub struct Entrance<G> {
    /// The node, from 1 on.
    pub node: u8,
    /// What is spoken.
    pub protocol: Protocol,
    /// The door.
    pub door: G,
    /// How many connections were handed on.
    pub taken: u64,
}

/// A connection on its way to who serves it.
#[derive(Drop)]
pub struct Conn<I, O> {
    /// Which it is.
    pub line: Line,
    /// What comes in by it.
    pub source: I,
    /// What goes out by it.
    pub sink: O,
}

/// How a door ended.
#[derive(Clone, Copy, Debug, PartialEq, Eq)]
pub enum DoorEnd {
    /// It found nobody.
    Quiet,
    /// A call of it failed.
    Failed,
    /// There was no memory to hand a connection on, or too many were.
    NoMemory,
}

impl DoorEnd {
    // What is to be said where one ended so, and another so.
    fn worse(self, other: DoorEnd) -> DoorEnd
        ensures { result ≡ worse self other }
    {
        match self {
            DoorEnd::Quiet => other,
            DoorEnd::Failed => DoorEnd::Failed,
            DoorEnd::NoMemory => match other {
                DoorEnd::Failed => DoorEnd::Failed,
                DoorEnd::Quiet | DoorEnd::NoMemory => DoorEnd::NoMemory,
            },
        }
    }
}

/// What all doors look at.
#[derive(Clone, Copy)]
pub struct Watch<'a> {
    /// Whether the service is to end.
    pub stop: &'a AtomicBool,
    /// The number of the next connection.
    pub numbers: &'a AtomicU64,
}

// Hands a connection on, with its number. Answers whether there was memory for that.
fn hand_on<R: Wait, I: Drop, O: Drop>(
    rt: &R,
    watch: &Watch<'_>,
    node: u8,
    protocol: Protocol,
    source: I,
    sink: O,
    conns: &Sender<Conn<I, O>, Global>,
) -> bool {
    let number = watch.numbers.fetch_add(1, Ordering::SeqCst);
    let line = Line {
        node,
        protocol,
        number,
    };
    conns.send(rt, Conn { line, source, sink }).is_ok()
}

// Calls the door once. Answers nothing where a connection was handed on, and else how the door might end.
fn knock<R: Wait, G: Door>(
    rt: &R,
    watch: &Watch<'_>,
    entrance: &mut Entrance<G>,
    conns: &Sender<Conn<G::In, G::Out>, Global>,
) -> Option<DoorEnd>
    ensures later { IsLater G.quiets G.faults entrance.old entrance.new }
    ensures none_more { IsEmpty (G.left entrance.old.door) → IsEmpty (G.left entrance.new.door) }
    ensures knocks { Knocks G.left G.quiets G.faults result entrance.old entrance.new }
{
    match entrance.door.accept() {
        Ok(Accepted::Conn(source, sink)) => {
            let Some(taken) = entrance.taken.checked_add(1) else {
                return Some(DoorEnd::NoMemory);
            };
            entrance.taken = taken;
            let node = entrance.node;
            let protocol = entrance.protocol;
            if hand_on(rt, watch, node, protocol, source, sink, conns) {
                None
            } else {
                Some(DoorEnd::NoMemory)
            }
        }
        Ok(Accepted::Quiet) => Some(DoorEnd::Quiet),
        Err(_) => Some(DoorEnd::Failed),
    }
}

// What is to be said of a door after one more call.
fn noted(before: Option<DoorEnd>, came: Option<DoorEnd>) -> Option<DoorEnd>
    ensures { result ≡ noted before came }
{
    match before {
        None => came,
        Some(end) => match came {
            None => Some(end),
            Some(other) => Some(end.worse(other)),
        },
    }
}

// Calls the door until the service is to end, and at least until it found nobody or failed.
fn attend<R: Wait, G: Door>(
    rt: &R,
    watch: &Watch<'_>,
    entrance: &mut Entrance<G>,
    conns: &Sender<Conn<G::In, G::Out>, Global>,
) -> DoorEnd
    ensures later { IsLater G.quiets G.faults entrance.old entrance.new }
    ensures ends { EndsSo G.left G.quiets G.faults result entrance.old entrance.new }
{
    let mut end = None;
    for _ in rt.forever() {
        if let Some(end) = end {
            if watch.stop.load(Ordering::SeqCst) {
                return end;
            }
        }
        let came = knock(rt, watch, entrance, conns);
        end = noted(end, came);
    }
    unreachable!()
}

/// How many connections were handed on at all of these doors.
pub(crate) fn taken_in<G>(entrances: &[Entrance<G>]) -> u128
    ensures { result ≡ taken_in entrances.now }
{
    entrances
        .iter()
        .map(|entrance| u128::from(entrance.taken))
        .sum()
}

/// Attends all doors, each in a thread, until the service is to end.
pub fn attend_all<R: Threads + Wait + Sync, G: Door + Send>(
    rt: &R,
    watch: &Watch<'_>,
    entrances: &mut [Entrance<G>],
    conns: &Sender<Conn<G::In, G::Out>, Global>,
) -> DoorEnd
    ensures later { AllMet (IsLater G.quiets G.faults) entrances.old entrances.new }
    ensures end { AllEndSo G.left G.quiets G.faults result entrances.old entrances.new }
{
    if entrances.len() < 2 {
        return match entrances.first_mut() {
            None => DoorEnd::Quiet,
            Some(entrance) => attend(rt, watch, entrance, conns),
        };
    }
    let (front, back) = entrances.split_at_mut(entrances.len() / 2);
    let (first, second) = join_mut(
        rt,
        &mut || -> DoorEnd
            requires { IsSync R.row }
            ensures later { AllMet (IsLater G.quiets G.faults) front.entry.now front.exit.now }
            ensures end { AllEndSo G.left G.quiets G.faults result front.entry.now front.exit.now }
        { attend_all(rt, watch, front, conns) },
        &mut || -> DoorEnd
            requires { IsSync R.row }
            ensures later { AllMet (IsLater G.quiets G.faults) back.entry.now back.exit.now }
            ensures end { AllEndSo G.left G.quiets G.faults result back.entry.now back.exit.now }
        { attend_all(rt, watch, back, conns) },
    );
    first.worse(second)
}
