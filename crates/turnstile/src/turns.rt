//! Turns.
ghost use Rattle.std.specs.Prelude.{◌≡◌, ◌+◌, ◌<◌, ◌≤◌, [], ◌∷◌};
ghost use Rattle.turnstile.specs.Passes.{first_value, IsSeatOf, IsIdle, IsPassOf, IsInside, IsWorked, IsFilled, IsOut, IsTurn};

use crate::counted::{Counted, Work};
use crate::lock::{Pass, Place, Turnstile};
use crate::plays::{Add, Draw, Look, Ring, ServeNext};
use crate::views::View;
use std::sync::Wait;
use std::thread;

const NEXT: usize = 0;

const SERVED: usize = 1;

const LENGTH: usize = 2;

// The first of the bells, and how many there are.
const FIRST_BELL: usize = 3;

const BELLS: u64 = 16;

// How often a thread looks before it sleeps.
const TRIES: u32 = 8;

// A sleep compares the low 32 bits.
const LOW_HALF: u64 = 0xffff_ffff;

// The word of the bell of a ticket.
fn bell_of(ticket: u64) -> usize
    ensures { (3 ≤ result) × (result < 19) }
{
    FIRST_BELL + (ticket % BELLS) as usize
}

impl<V: Counted> Turnstile<V> {
    // Draws a ticket, and waits until it is served. The bell is heard before the look, so that none is missed: whoever serves the
    // ticket rings afterwards, and then the bell is no longer as it was heard.
    fn enter<R: Wait>(&self, rt: &R, seat: &mut Place<V>)
        requires { IsSeatOf self.now seat.old × IsIdle seat.old }
        ensures { (x : V) × IsInside V.history V.keeps self.now seat.old.me.0 x seat.new }
    {
        let mine = self.table.shared.fetch_add::<Draw>(seat, NEXT, 1);
        let bell = bell_of(mine);
        let mut tries = 0u32;
        for _ in rt.forever() {
            let heard = self.table.shared.peek(bell);
            let served = self.table.shared.load::<Look>(seat, SERVED);
            if served == mine {
                return;
            }
            if tries < TRIES {
                tries += 1;
                thread::yield_now();
            } else {
                self.table.shared.park(rt, bell, (heard & LOW_HALF) as u32);
            }
        }
        unreachable!()
    }

    // Does the work on the value in hand. Answers also how many entries it added.
    fn labour<W: Work<V>>(&self, seat: &mut Place<V>, work: W) -> (W::Out, u64)
        requires { (x : V) × (seat.old.table_id ≡ self.now.table.shared.table_id) × (seat.old.me.1 ≡ (0, x) ∷ []) × W.asks work x }
        ensures { IsWorked V.history V.keeps (W.did work) seat.old seat.new result.0 result.1 }
    {
        let value = seat.slot_mut(&self.table.shared, 0);
        let before = value.count();
        let out = work.run(value);
        (out, value.count() - before)
    }

    // Counts what was added, and serves the next ticket.
    fn leave(&self, seat: &mut Place<V>, count: u64)
        requires { (x : V) × IsFilled V.history V.keeps self.now count x seat.old }
        ensures { IsOut V.history V.keeps seat.old seat.new }
    {
        self.table.shared.fetch_add::<Add>(seat, LENGTH, count);
        let served = self.table.shared.fetch_add::<ServeNext>(seat, SERVED, 1);
        self.call_next(seat, served.wrapping_add(1));
    }

    // Rings the bell of the ticket that is served now, and wakes those who sleep on it, if the ticket was drawn already. Whoever draws
    // it from now on finds it served.
    fn call_next(&self, seat: &mut Place<V>, ticket: u64)
        requires { seat.old.table_id ≡ self.now.table.shared.table_id }
        ensures { (seat.new.table_id ≡ seat.old.table_id) × (seat.new.me ≡ seat.old.me) }
    {
        if self.table.shared.peek(NEXT) != ticket {
            let bell = bell_of(ticket);
            self.table.shared.fetch_add::<Ring>(seat, bell, 1);
            self.table.shared.wake_all(bell);
        }
    }

    /// One turn: the work is done once, on the one value, and nobody else works on it meanwhile. It may wait for the turns before
    /// it, and has no refusal.
    pub fn turn<W: Work<V>, R: Wait>(&self, rt: &R, pass: &mut Pass<V>, work: W) -> W::Out
        requires pass { IsPassOf self.now pass.old }
        requires work { (v : V) → V.keeps (first_value self.now) v → W.asks work v }
        ensures pass { IsPassOf self.now pass.new }
        ensures turn { IsTurn V.history V.keeps (W.did work) self.now pass.old pass.new result }
    {
        self.enter(rt, &mut pass.seat);
        let (out, count) = self.labour(&mut pass.seat, work);
        self.leave(&mut pass.seat, count);
        out
    }
}
