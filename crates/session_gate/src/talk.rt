//! The moves of a session, with the calls that it asks, until it rests.
ghost use Rattle.std.specs.Prelude.{◌≡◌, ◌≤◌, ◌<◌, [], ℕ, List, IfOk, IfSome, IsErrOf};
ghost use Rattle.io_edge.specs.Causes.{Rose};
ghost use Rattle.call_tickets.specs.Passes.{known_to};
ghost use Rattle.session_gate.specs.Connections.{Connection, HasCome, MovesOn, HearsOut, Talks};
ghost use Rattle.session_gate.specs.Closes.{IsSinkFault, IsSourceFault, MayMove};

use crate::calls::Dealing;
use crate::intent::{Intent, next_intent};
use crate::stop::{Close, Stop, left_off};
use crate::turn::{Visit, flush, take_turn};
use call_tickets::Desk;
use io_edge::{Gate, Sink};
use mail_base::Plan;
use session_speaker::Speaker;
use std::sync::Wait;

/// What a move of a session was.
#[derive(Clone, Copy, Debug, PartialEq, Eq)]
pub(crate) enum Next {
    /// It said something, which may wait until more is said.
    Said,
    /// It asked a call, which was answered, and said its reply.
    Answered,
    /// It hears nothing more in what it was fed, or has ended.
    Rests,
    /// Its node went down, and it said so.
    Fell,
}

// The session's next move, with the call that it asks. All that was said before is written before a call is begun.
fn make_move<T: Speaker, E: Desk, G: Gate, K: Sink, R: Wait>(
    rt: &R,
    gate: &G,
    desk: &E,
    pass: &mut E::Pass,
    plan: &Plan,
    visit: &mut Visit,
    talker: &mut T,
    out: &mut Vec<u8>,
    sink: &mut K,
) -> Result<Next, Stop>
    requires belongs { E.belongs desk.now pass.old }
    ensures belongs { E.belongs desk.now pass.new }
    ensures moved { (line : Connection) (fed wrote : List ℕ) → line.plan ≡ plan.now
        → HasCome line (Talks (T.follows talker.old)) fed wrote out.old.items (known_to (E.own pass.old) (E.counts pass.old))
        → MovesOn line (T.follows talker.new) fed wrote (K.contents sink.old) (K.contents sink.new) out.new.items (known_to (E.own pass.new) (E.counts pass.new)) result }
    ensures less { IfOk result (λ next. MayMove next → T.left talker.new < T.left talker.old) }
    ensures later { K.faults sink.old ≤ K.faults sink.new }
    ensures failed { IsErrOf result Stop.WriteFault → Rose (K.faults sink.old) (K.faults sink.new) }
{
    let call = match next_intent(talker, visit.alloc, plan, out)? {
        Intent::Says => return Ok(Next::Said),
        Intent::Asks(call) => call,
        Intent::Rests => return Ok(Next::Rests),
    };
    match take_turn(rt, gate, desk, pass, visit, call, out, sink)? {
        Dealing::Answered(answer) => {
            talker.reply(visit.alloc, plan, Some(answer), out)?;
            Ok(Next::Answered)
        }
        Dealing::GivenUp => {
            talker.reply(visit.alloc, plan, None, out)?;
            Ok(Next::Answered)
        }
        Dealing::Down => {
            talker.node_down(visit.alloc, out)?;
            Ok(Next::Fell)
        }
    }
}

// The session makes its moves until it rests, and what it says is written; or it is left off.
#[tactic(auto, using(crate::proofs::Hearing::left_unread))]
pub(crate) fn hear<T: Speaker, E: Desk, G: Gate, K: Sink, R: Wait>(
    rt: &R,
    gate: &G,
    desk: &E,
    pass: &mut E::Pass,
    plan: &Plan,
    visit: &mut Visit,
    talker: &mut T,
    out: &mut Vec<u8>,
    sink: &mut K,
) -> Option<Close>
    requires belongs { E.belongs desk.now pass.old }
    ensures belongs { E.belongs desk.now pass.new }
    ensures heard { (line : Connection) (fed wrote : List ℕ) → line.plan ≡ plan.now
        → HasCome line (Talks (T.follows talker.old)) fed wrote out.old.items (known_to (E.own pass.old) (E.counts pass.old))
        → HearsOut line (T.follows talker.new) fed wrote (K.contents sink.old) (K.contents sink.new) out.new.items (known_to (E.own pass.new) (E.counts pass.new)) result }
    ensures later { K.faults sink.old ≤ K.faults sink.new }
    ensures failed { IfSome result (λ close. IsSinkFault close → Rose (K.faults sink.old) (K.faults sink.new)) }
    ensures unread { IfSome result (λ close. IsSourceFault close → ⊥) }
{
    loop {
        match make_move(rt, gate, desk, pass, plan, visit, talker, out, sink) {
            Err(stop) => return Some(left_off(stop)),
            Ok(Next::Said) => {}
            Ok(Next::Answered) => {
                let Ok(()) = flush(sink, out) else {
                    return Some(Close::WriteFault);
                };
                visit.end_turn(gate);
            }
            Ok(Next::Rests) => {
                let Ok(()) = flush(sink, out) else {
                    return Some(Close::WriteFault);
                };
                return None;
            }
            Ok(Next::Fell) => {
                let Ok(()) = flush(sink, out) else {
                    return Some(Close::FellUnwritten);
                };
                visit.end_turn(gate);
                return Some(Close::Fell);
            }
        }
    }
}
