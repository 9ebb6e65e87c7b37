// A cluster and the sessions that are open at it.
ghost use Rattle.std.specs.Prelude.{◌^◌, ◌≡◌, ◌+◌, ◌<◌, ◌≤◌, ℕ, List, true, length, slice_get, slice_set, Option, Some, None, IsErrOf, OnOk, IfOk};
ghost use Rattle.io_edge.specs.Causes.{Rose};
ghost use Rattle.mail_model.specs.Plan.{Plan};
ghost use Rattle.call_tickets.specs.Seen.{answer_seen};
ghost use Rattle.node_store.specs.Disks.{view_of};
ghost use Rattle.cluster_world.specs.Worlds.{plan_of};
ghost use Rattle.cluster_world.specs.declared.world.World.{World as AWorld};
ghost use Rattle.drive_tape.specs.Points.{Point, IsAtPoint, WorkGoes};
ghost use Rattle.drive_tape.specs.Lines.{NothingIsUnderWay};
ghost use Rattle.drive_tape.specs.Fed.{IsTelling, TellsSo};
ghost use Rattle.drive_tape.specs.Worlds.{WorldIsReady};
ghost use Rattle.drive_tape.specs.Moving.{left_at, work_at, AreEven};
ghost use Rattle.drive_tape.specs.Kinds.{IsNoLeave};
ghost use Rattle.drive_tape.specs.Leaving.{AsksALeave, EndsInLeave};
ghost use Rattle.drive_tape.specs.Clusters.{SessionHears, RestsAt, MovedTo, IsSaying, SessionEndsAt, IsBeginning, FaultsAt, IsToFall, IsFalling, FellOn, AsksFrom, CallHasAnswer, HeardSo, IsLess};

use crate::Stop;
use crate::calls::{ask, begin, leave};
use crate::open_call::OpenCall;
use crate::reply::{write_fault, write_reply};
use crate::sessions::{After, Sessions};
use call_tickets::{Answer, Call, Move};
use cluster_world::World;
use io_edge::{Disk, Sink};
use mail_base::NodeNo;
use std::alloc::Global;

/// A cluster with the sessions of a tape, numbered from 1 in order of `open`.
#[derive(Drop)]
pub(crate) struct Cluster<D> {
    /// The nodes and their disks.
    pub world: World<D>,
    /// All sessions, those that have ended among them.
    pub sessions: Sessions,
}

/// How a session goes on that was asked for.
#[derive(Clone, Copy, Debug, PartialEq, Eq)]
pub(crate) enum Heard {
    /// It was answered, and hears on.
    On,
    /// It was answered, and has ended.
    Rests,
    /// It still waits.
    StillWaits,
}

// The number of the session at this place.
fn number_of(place: usize) -> u64
    requires { place < 2 ^ 63 }
    ensures { result ≡ place + 1 }
{
    place as u64 + 1
}

impl<D: Disk> Cluster<D> {
    // The session at this place makes its next move, and what it says is written. Whether it hears on.
    fn make_move<K: Sink>(
        &mut self,
        alloc: Global,
        sink: &mut K,
        place: usize,
    ) -> Result<bool, Stop>
        requires ready { WorldIsReady D.seen D.settled self.old.world }
        requires within { place < length self.old.sessions.talkers.items }
        requires even { AreEven self.old.sessions }
        ensures ready { WorldIsReady D.seen D.settled self.new.world }
        ensures plan { plan_of self.new.world ≡ plan_of self.old.world }
        ensures moved { (start : AWorld D) (p : Point) (onward : ℕ) → IsAtPoint (view_of D.seen D.faults D.clock) start (plan_of self.old.world) self.old p → p.held ≡ K.contents sink.old → SessionHears place onward p
            → WorkGoes (view_of D.seen D.faults D.clock) start (plan_of self.old.world) p (MovedTo place onward result) result (K.contents sink.new) self.new }
        ensures length { length self.new.sessions.talkers.items ≡ length self.old.sessions.talkers.items }
        ensures even { AreEven self.new.sessions }
        ensures later { K.faults sink.old ≤ K.faults sink.new }
        ensures failed { IsErrOf result Stop.WriteFault → Rose (K.faults sink.old) (K.faults sink.new) }
        ensures work { OnOk result (work_at place self.new.sessions ≤ work_at place self.old.sessions) }
        ensures less { IfOk result (λ on. on ≡ true → work_at place self.new.sessions < work_at place self.old.sessions) }
    {
        let mut out = Vec::new(alloc);
        let (did, after) = self
            .sessions
            .next(alloc, self.world.plan(), place, &mut out)?;
        match did {
            Move::Said => self.say(alloc, sink, place, &out, after),
            Move::Begin(call) => self.begin(alloc, sink, place, call),
            Move::Wait => Ok(false),
            Move::Idle => Ok(false),
            Move::End => Ok(false),
        }
    }

    // The session at this place makes its moves until it does not hear on.
    pub fn hear<K: Sink>(&mut self, alloc: Global, sink: &mut K, place: usize) -> Result<(), Stop>
        requires ready { WorldIsReady D.seen D.settled self.old.world }
        requires within { place < length self.old.sessions.talkers.items }
        requires even { AreEven self.old.sessions }
        ensures ready { WorldIsReady D.seen D.settled self.new.world }
        ensures plan { plan_of self.new.world ≡ plan_of self.old.world }
        ensures heard { (start : AWorld D) (p : Point) (onward : ℕ) → IsAtPoint (view_of D.seen D.faults D.clock) start (plan_of self.old.world) self.old p → p.held ≡ K.contents sink.old → SessionHears place onward p
            → WorkGoes (view_of D.seen D.faults D.clock) start (plan_of self.old.world) p (RestsAt onward) result (K.contents sink.new) self.new }
        ensures length { length self.new.sessions.talkers.items ≡ length self.old.sessions.talkers.items }
        ensures even { AreEven self.new.sessions }
        ensures later { K.faults sink.old ≤ K.faults sink.new }
        ensures failed { IsErrOf result Stop.WriteFault → Rose (K.faults sink.old) (K.faults sink.new) }
        ensures work { OnOk result (work_at place self.new.sessions ≤ work_at place self.old.sessions) }
    {
        while self.make_move(alloc, sink, place)? {}
        Ok(())
    }

    // The call for which the session at this place waits.
    fn waiting(&self, place: usize) -> Option<OpenCall>
        requires within { place < length self.now.sessions.calls.items }
        ensures { slice_get self.now.sessions.calls.items place ≡ Some result }
    {
        match &self.sessions.calls[place] {
            Some(open_call) => Some(OpenCall {
                ticket: open_call.ticket,
                kind: open_call.kind,
            }),
            None => None,
        }
    }

    // The call of the session at this place was answered: it replies, and that is written. Whether it hears on.
    fn answered<K: Sink>(
        &mut self,
        alloc: Global,
        sink: &mut K,
        place: usize,
        answer: Answer,
    ) -> Result<bool, Stop>
        requires ready { WorldIsReady D.seen D.settled self.old.world }
        requires within { place < length self.old.sessions.talkers.items }
        requires even { AreEven self.old.sessions }
        ensures ready { WorldIsReady D.seen D.settled self.new.world }
        ensures plan { plan_of self.new.world ≡ plan_of self.old.world }
        ensures answered { (start : AWorld D) (p : Point) → CallHasAnswer (view_of D.seen D.faults D.clock) start (plan_of self.old.world) p place (answer_seen answer) self.old → p.held ≡ K.contents sink.old
            → WorkGoes (view_of D.seen D.faults D.clock) start (plan_of self.old.world) p (MovedTo place (place + 1) result) result (K.contents sink.new) self.new }
        ensures length { length self.new.sessions.talkers.items ≡ length self.old.sessions.talkers.items }
        ensures even { AreEven self.new.sessions }
        ensures later { K.faults sink.old ≤ K.faults sink.new }
        ensures failed { IsErrOf result Stop.WriteFault → Rose (K.faults sink.old) (K.faults sink.new) }
        ensures calls { self.new.sessions.calls.items ≡ slice_set self.old.sessions.calls.items place None }
        ensures left { OnOk result (left_at place self.new.sessions ≤ left_at place self.old.sessions) }
    {
        self.sessions.calls[place] = None;
        let mut out = Vec::new(alloc);
        let after = self
            .sessions
            .reply(alloc, self.world.plan(), place, Some(answer), &mut out)?;
        self.say(alloc, sink, place, &out, after)
    }

    // The call of the session at this place is asked for, and its reply is written.
    fn ask<K: Sink>(
        &mut self,
        alloc: Global,
        sink: &mut K,
        place: usize,
        open_call: &OpenCall,
    ) -> Result<Heard, Stop>
        requires ready { WorldIsReady D.seen D.settled self.old.world }
        requires within { place < length self.old.sessions.talkers.items }
        requires even { AreEven self.old.sessions }
        requires waits { slice_get self.old.sessions.calls.items place ≡ Some (Some open_call.now) }
        ensures ready { WorldIsReady D.seen D.settled self.new.world }
        ensures plan { plan_of self.new.world ≡ plan_of self.old.world }
        ensures asked { (start : AWorld D) (p : Point) → IsAtPoint (view_of D.seen D.faults D.clock) start (plan_of self.old.world) self.old p → p.held ≡ K.contents sink.old → AsksFrom place p
            → WorkGoes (view_of D.seen D.faults D.clock) start (plan_of self.old.world) p (HeardSo place result) result (K.contents sink.new) self.new }
        ensures length { length self.new.sessions.talkers.items ≡ length self.old.sessions.talkers.items }
        ensures even { AreEven self.new.sessions }
        ensures later { K.faults sink.old ≤ K.faults sink.new }
        ensures failed { IsErrOf result Stop.WriteFault → Rose (K.faults sink.old) (K.faults sink.new) }
        ensures less { IfOk result (λ heard. IsLess heard (work_at place self.new.sessions) (work_at place self.old.sessions)) }
    {
        let Some(answer) = ask(&mut self.world, alloc, open_call)? else {
            return Ok(Heard::StillWaits);
        };
        if self.answered(alloc, sink, place, answer)? {
            Ok(Heard::On)
        } else {
            Ok(Heard::Rests)
        }
    }

    // The session at this place is asked for, until it waits no more or its answer is not there yet.
    fn ask_at<K: Sink>(&mut self, alloc: Global, sink: &mut K, place: usize) -> Result<(), Stop>
        requires ready { WorldIsReady D.seen D.settled self.old.world }
        requires within { place < length self.old.sessions.talkers.items }
        requires even { AreEven self.old.sessions }
        ensures ready { WorldIsReady D.seen D.settled self.new.world }
        ensures plan { plan_of self.new.world ≡ plan_of self.old.world }
        ensures asked { (start : AWorld D) (p : Point) → IsAtPoint (view_of D.seen D.faults D.clock) start (plan_of self.old.world) self.old p → p.held ≡ K.contents sink.old → AsksFrom place p
            → WorkGoes (view_of D.seen D.faults D.clock) start (plan_of self.old.world) p (AsksFrom (place + 1)) result (K.contents sink.new) self.new }
        ensures length { length self.new.sessions.talkers.items ≡ length self.old.sessions.talkers.items }
        ensures even { AreEven self.new.sessions }
        ensures later { K.faults sink.old ≤ K.faults sink.new }
        ensures failed { IsErrOf result Stop.WriteFault → Rose (K.faults sink.old) (K.faults sink.new) }
    {
        while let Some(open_call) = self.waiting(place) {
            match self.ask(alloc, sink, place, &open_call)? {
                Heard::On => self.hear(alloc, sink, place)?,
                Heard::Rests => {}
                Heard::StillWaits => return Ok(()),
            }
        }
        Ok(())
    }

    // All sessions that wait are asked for, in rising order. Those before `from` have ended.
    pub fn ask_all<K: Sink>(&mut self, alloc: Global, sink: &mut K) -> Result<(), Stop>
        requires ready { WorldIsReady D.seen D.settled self.old.world }
        requires even { AreEven self.old.sessions }
        ensures ready { WorldIsReady D.seen D.settled self.new.world }
        ensures plan { plan_of self.new.world ≡ plan_of self.old.world }
        ensures asked { (start : AWorld D) (p : Point) → IsAtPoint (view_of D.seen D.faults D.clock) start (plan_of self.old.world) self.old p → p.held ≡ K.contents sink.old → AsksFrom 0 p
            → WorkGoes (view_of D.seen D.faults D.clock) start (plan_of self.old.world) p NothingIsUnderWay result (K.contents sink.new) self.new }
        ensures length { length self.new.sessions.talkers.items ≡ length self.old.sessions.talkers.items }
        ensures even { AreEven self.new.sessions }
        ensures later { K.faults sink.old ≤ K.faults sink.new }
        ensures failed { IsErrOf result Stop.WriteFault → Rose (K.faults sink.old) (K.faults sink.new) }
    {
        let from = self.sessions.pass_over();
        for place in from..self.sessions.talkers.len() {
            self.ask_at(alloc, sink, place)?;
        }
        Ok(())
    }

    /// Writes what the session at this place said; if it has ended, it leaves. Whether it hears on.
    pub fn say<K: Sink>(
        &mut self,
        alloc: Global,
        sink: &mut K,
        place: usize,
        out: &[u8],
        after: After,
    ) -> Result<bool, Stop>
        requires ready { WorldIsReady D.seen D.settled self.old.world }
        requires within { place < length self.old.sessions.talkers.items }
        requires even { AreEven self.old.sessions }
        requires leaves { EndsInLeave after }
        ensures ready { WorldIsReady D.seen D.settled self.new.world }
        ensures plan { plan_of self.new.world ≡ plan_of self.old.world }
        ensures said { (start : AWorld D) (p q : Point) (onward : ℕ) → IsSaying (view_of D.seen D.faults D.clock) start (plan_of self.old.world) p q place onward after out.now self.old → p.held ≡ K.contents sink.old
            → WorkGoes (view_of D.seen D.faults D.clock) start (plan_of self.old.world) p (MovedTo place onward result) result (K.contents sink.new) self.new }
        ensures told { (start : AWorld D) (p q : Point) (line : List ℕ) → IsTelling (view_of D.seen D.faults D.clock) start (plan_of self.old.world) p q line place after out.now self.old → p.held ≡ K.contents sink.old
            → TellsSo (view_of D.seen D.faults D.clock) start (plan_of self.old.world) p line place result (K.contents sink.new) self.new }
        ensures sessions { self.new.sessions ≡ self.old.sessions }
        ensures later { K.faults sink.old ≤ K.faults sink.new }
        ensures failed { IsErrOf result Stop.WriteFault → Rose (K.faults sink.old) (K.faults sink.new) }
    {
        match after {
            After::Stays => {
                write_reply(alloc, sink, number_of(place), out, false)?;
                Ok(true)
            }
            After::Ends(call) => {
                write_reply(alloc, sink, number_of(place), out, true)?;
                self.leave(alloc, place, call)?;
                Ok(false)
            }
        }
    }

    // The session at this place, which has ended, leaves, where it was let in.
    pub fn leave(&mut self, alloc: Global, place: usize, call: Option<Call>) -> Result<(), Stop>
        requires ready { WorldIsReady D.seen D.settled self.old.world }
        requires within { place < length self.old.sessions.talkers.items }
        requires even { AreEven self.old.sessions }
        requires leaves { AsksALeave call }
        ensures ready { WorldIsReady D.seen D.settled self.new.world }
        ensures plan { plan_of self.new.world ≡ plan_of self.old.world }
        ensures left { (start : AWorld D) (p : Point) (onward : ℕ) → IsAtPoint (view_of D.seen D.faults D.clock) start (plan_of self.old.world) self.old p → SessionEndsAt place onward call p
            → WorkGoes (view_of D.seen D.faults D.clock) start (plan_of self.old.world) p (RestsAt onward) result p.held self.new }
        ensures sessions { self.new.sessions ≡ self.old.sessions }
        ensures why { IsErrOf result Stop.WriteFault → ⊥ }
    {
        match call {
            Some(call) => {
                let node = self.sessions.nodes[place];
                Ok(leave(&mut self.world, alloc, node, call)?)
            }
            None => Ok(()),
        }
    }

    // The call of the session at this place begins: it waits; or the disk failed, and its node is down.
    fn begin<K: Sink>(
        &mut self,
        alloc: Global,
        sink: &mut K,
        place: usize,
        call: Call,
    ) -> Result<bool, Stop>
        requires ready { WorldIsReady D.seen D.settled self.old.world }
        requires within { place < length self.old.sessions.talkers.items }
        requires even { AreEven self.old.sessions }
        requires asks { IsNoLeave call }
        ensures ready { WorldIsReady D.seen D.settled self.new.world }
        ensures plan { plan_of self.new.world ≡ plan_of self.old.world }
        ensures began { (start : AWorld D) (p : Point) (onward : ℕ) → IsBeginning (view_of D.seen D.faults D.clock) start (plan_of self.old.world) p place onward call self.old → p.held ≡ K.contents sink.old
            → WorkGoes (view_of D.seen D.faults D.clock) start (plan_of self.old.world) p (MovedTo place onward result) result (K.contents sink.new) self.new }
        ensures length { length self.new.sessions.talkers.items ≡ length self.old.sessions.talkers.items }
        ensures even { AreEven self.new.sessions }
        ensures left { left_at place self.new.sessions ≤ left_at place self.old.sessions }
        ensures later { K.faults sink.old ≤ K.faults sink.new }
        ensures failed { IsErrOf result Stop.WriteFault → Rose (K.faults sink.old) (K.faults sink.new) }
    {
        let node = self.sessions.nodes[place];
        match begin(&mut self.world, alloc, node, call)? {
            Some(open_call) => self.sessions.calls[place] = Some(open_call),
            None => self.fault(alloc, sink, place)?,
        }
        Ok(false)
    }

    // The disk of the node of the session at this place failed: that is written, and its sessions fall.
    fn fault<K: Sink>(&mut self, alloc: Global, sink: &mut K, place: usize) -> Result<(), Stop>
        requires within { place < length self.old.sessions.talkers.items }
        requires even { AreEven self.old.sessions }
        ensures world { self.new.world ≡ self.old.world }
        ensures faulted { (start : AWorld D) (plan : Plan) (p : Point) (onward node : ℕ) → FaultsAt (view_of D.seen D.faults D.clock) start plan p place onward node self.old → p.held ≡ K.contents sink.old
            → WorkGoes (view_of D.seen D.faults D.clock) start plan p (RestsAt onward) result (K.contents sink.new) self.new }
        ensures length { length self.new.sessions.talkers.items ≡ length self.old.sessions.talkers.items }
        ensures even { AreEven self.new.sessions }
        ensures left { (other : ℕ) → left_at other self.new.sessions ≤ left_at other self.old.sessions }
        ensures later { K.faults sink.old ≤ K.faults sink.new }
        ensures failed { IsErrOf result Stop.WriteFault → Rose (K.faults sink.old) (K.faults sink.new) }
    {
        let node = self.sessions.nodes[place];
        write_fault(alloc, sink, node.number())?;
        let node = self.sessions.nodes[place];
        self.fall(alloc, sink, node)
    }

    // All sessions of the node fall, in rising order.
    pub fn fall<K: Sink>(&mut self, alloc: Global, sink: &mut K, node: NodeNo) -> Result<(), Stop>
        requires even { AreEven self.old.sessions }
        ensures world { self.new.world ≡ self.old.world }
        ensures fell { (start : AWorld D) (plan : Plan) (p : Point) (onward : ℕ) → IsFalling (view_of D.seen D.faults D.clock) start plan p 0 node onward self.old → p.held ≡ K.contents sink.old
            → WorkGoes (view_of D.seen D.faults D.clock) start plan p (RestsAt onward) result (K.contents sink.new) self.new }
        ensures length { length self.new.sessions.talkers.items ≡ length self.old.sessions.talkers.items }
        ensures even { AreEven self.new.sessions }
        ensures left { (other : ℕ) → left_at other self.new.sessions ≤ left_at other self.old.sessions }
        ensures later { K.faults sink.old ≤ K.faults sink.new }
        ensures failed { IsErrOf result Stop.WriteFault → Rose (K.faults sink.old) (K.faults sink.new) }
    {
        for place in 0..self.sessions.talkers.len() {
            self.fall_of(alloc, sink, place, node)?;
        }
        Ok(())
    }

    // The session at this place falls, if it is one of the node.
    fn fall_of<K: Sink>(
        &mut self,
        alloc: Global,
        sink: &mut K,
        place: usize,
        node: NodeNo,
    ) -> Result<(), Stop>
        requires within { place < length self.old.sessions.talkers.items }
        requires even { AreEven self.old.sessions }
        ensures world { self.new.world ≡ self.old.world }
        ensures fell { (start : AWorld D) (plan : Plan) (p : Point) (onward : ℕ) → IsFalling (view_of D.seen D.faults D.clock) start plan p place node onward self.old → p.held ≡ K.contents sink.old
            → FellOn (view_of D.seen D.faults D.clock) start plan p place node onward result (K.contents sink.new) self.new }
        ensures length { length self.new.sessions.talkers.items ≡ length self.old.sessions.talkers.items }
        ensures even { AreEven self.new.sessions }
        ensures left { (other : ℕ) → left_at other self.new.sessions ≤ left_at other self.old.sessions }
        ensures later { K.faults sink.old ≤ K.faults sink.new }
        ensures failed { IsErrOf result Stop.WriteFault → Rose (K.faults sink.old) (K.faults sink.new) }
    {
        if self.sessions.nodes[place].number() != node.number() {
            return Ok(());
        }
        self.fall_at(alloc, sink, place)
    }

    // The session at this place falls, where it has not ended, and its last line is written.
    fn fall_at<K: Sink>(&mut self, alloc: Global, sink: &mut K, place: usize) -> Result<(), Stop>
        requires within { place < length self.old.sessions.talkers.items }
        requires even { AreEven self.old.sessions }
        ensures world { self.new.world ≡ self.old.world }
        ensures fell { (start : AWorld D) (plan : Plan) (p : Point) (node onward : ℕ) → IsToFall (view_of D.seen D.faults D.clock) start plan p place node onward self.old → p.held ≡ K.contents sink.old
            → FellOn (view_of D.seen D.faults D.clock) start plan p place node onward result (K.contents sink.new) self.new }
        ensures length { length self.new.sessions.talkers.items ≡ length self.old.sessions.talkers.items }
        ensures even { AreEven self.new.sessions }
        ensures left { (other : ℕ) → left_at other self.new.sessions ≤ left_at other self.old.sessions }
        ensures later { K.faults sink.old ≤ K.faults sink.new }
        ensures failed { IsErrOf result Stop.WriteFault → Rose (K.faults sink.old) (K.faults sink.new) }
    {
        let mut out = Vec::new(alloc);
        if !self.sessions.fall(alloc, place, &mut out)? {
            return Ok(());
        }
        write_reply(alloc, sink, number_of(place), &out, true)?;
        Ok(())
    }
}
