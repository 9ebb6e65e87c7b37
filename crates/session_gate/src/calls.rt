//! A call of a session, from its beginning to its answer.
ghost use Rattle.std.specs.Prelude.{◌≡◌, Some, IsErrOf};
ghost use Rattle.session_model.specs.Calls as calls;
ghost use Rattle.call_tickets.specs.Seen.{call_seen};
ghost use Rattle.call_tickets.specs.Passes.{known_to};
ghost use Rattle.session_gate.specs.Deals.{ComesOf, GivesUp, Settles};

use crate::stop::Stop;
use call_tickets::{Answer, Ask, Call, Desk, DeskFault, DeskTicket};
use mail_base::NodeNo;
use std::alloc::Global;
use std::sync::Wait;

/// What became of a call.
#[derive(Debug, Drop)]
pub(crate) enum Dealing {
    Answered(Answer),
    GivenUp,
    Down,
}

// Asks for a call that has begun, until it has its answer. A letter is posted between two askings.
#[tactic(auto, using(crate::proofs::Knows::quiet_on, crate::proofs::Knows::quiet_none))]
fn await_answer<E: Desk, R: Wait>(
    rt: &R,
    alloc: Global,
    desk: &E,
    pass: &mut E::Pass,
    ticket: DeskTicket,
) -> Result<Dealing, Stop>
    requires belongs { E.belongs desk.now pass.old }
    ensures belongs { E.belongs desk.now pass.new }
    ensures came { ComesOf ticket.begun result (known_to (E.own pass.old) (E.counts pass.old)) (known_to (E.own pass.new) (E.counts pass.new)) }
    ensures why { IsErrOf result Stop.WriteFault → ⊥ }
{
    for _ in rt.forever() {
        match desk.ask(alloc, pass, &ticket) {
            Ok(Ask::Done(answer)) => return Ok(Dealing::Answered(answer)),
            Ok(Ask::Pending { .. }) => {}
            Err(DeskFault::Down) => return Ok(Dealing::Down),
            Err(DeskFault::Worn) => return give_up(alloc, desk, pass, ticket),
            Err(DeskFault::NoMemory) => return Err(Stop::NoMemory),
        }
        match desk.post_one(alloc, pass) {
            Ok(_) => {}
            Err(DeskFault::Down) => unreachable!(),
            Err(DeskFault::Worn) => return give_up(alloc, desk, pass, ticket),
            Err(DeskFault::NoMemory) => return Err(Stop::NoMemory),
        }
    }
    unreachable!()
}

// Gives up a call for which a number is used up.
fn give_up<E: Desk>(
    alloc: Global,
    desk: &E,
    pass: &mut E::Pass,
    ticket: DeskTicket,
) -> Result<Dealing, Stop>
    requires belongs { E.belongs desk.now pass.old }
    ensures belongs { E.belongs desk.now pass.new }
    ensures gave { GivesUp result (known_to (E.own pass.old) (E.counts pass.old)) (known_to (E.own pass.new) (E.counts pass.new)) }
{
    match desk.give_up(alloc, pass, ticket) {
        Ok(()) => Ok(Dealing::GivenUp),
        Err(DeskFault::Down) => unreachable!(),
        Err(DeskFault::Worn) => Ok(Dealing::GivenUp),
        Err(DeskFault::NoMemory) => Err(Stop::NoMemory),
    }
}

/// Begins a call, and waits until it has its answer.
#[tactic(auto, using(crate::proofs::Deals::awaited_settled, crate::proofs::Deals::worn_dealt, crate::proofs::Deals::refused_dealt))]
pub(crate) fn settle<E: Desk, R: Wait>(
    rt: &R,
    alloc: Global,
    desk: &E,
    pass: &mut E::Pass,
    node: NodeNo,
    call: Call,
) -> Result<Dealing, Stop>
    requires belongs { E.belongs desk.now pass.old }
    ensures belongs { E.belongs desk.now pass.new }
    ensures settled { (asked : calls.Call) → call_seen call ≡ Some asked
        → Settles asked result (known_to (E.own pass.old) (E.counts pass.old)) (known_to (E.own pass.new) (E.counts pass.new)) }
    ensures why { IsErrOf result Stop.WriteFault → ⊥ }
{
    match desk.begin(alloc, pass, node, call) {
        Ok(ticket) => await_answer(rt, alloc, desk, pass, ticket),
        Err(DeskFault::Down) => Ok(Dealing::Down),
        Err(DeskFault::Worn) => Ok(Dealing::GivenUp),
        Err(DeskFault::NoMemory) => Err(Stop::NoMemory),
    }
}
