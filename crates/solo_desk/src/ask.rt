// It is asked what became of a call.
ghost use Rattle.std.specs.Prelude.{◌≡◌};
ghost use Rattle.node_store.specs.Disks.{view_of};
ghost use Rattle.cluster_world.specs.Books.{IsLongerBook};
ghost use Rattle.cluster_world.specs.Worlds.{plan_of, book_of, CanMakeSteps};
ghost use Rattle.solo_desk.specs.Serving.{CanServe, AddsTo};
ghost use Rattle.desk_model.specs.Entries.{AsksWith};
ghost use Rattle.desk_model.specs.Growing.{AnswersInKind};
ghost use Rattle.solo_desk.specs.Steps.{AsksBy};
ghost use Rattle.solo_desk.specs.Asking.{IsSaidOfAsk, OwnAnswer, Tells, HandsOn};

use crate::kinds::fits;
use crate::refusal::refusal_of;
use crate::standing::stands_as_begun;
use call_tickets::{Answer, Ask, DeskFault, DeskTicket};
use cluster_world::{Said, Step, StepFault, World};
use io_edge::Disk;
use mail_base::CallKind;
use std::alloc::Global;

// An answer to a call of this kind. A world answers each call in its own kind.
fn own_answer(kind: CallKind, answer: Answer) -> Result<Ask, DeskFault>
    ensures { OwnAnswer kind answer result }
{
    if fits(kind, &answer) {
        Ok(Ask::Done(answer))
    } else {
        Err(DeskFault::Down)
    }
}

fn told(kind: CallKind, ask: Ask) -> Result<Ask, DeskFault>
    ensures { Tells kind ask result }
{
    match ask {
        Ask::Pending { got, wanted } => Ok(Ask::Pending { got, wanted }),
        Ask::Done(answer) => own_answer(kind, answer),
    }
}

// What is told of a call of this kind, by what its step said.
fn hand_on(kind: CallKind, said: Result<Said, StepFault>) -> Result<Ask, DeskFault>
    requires { IsSaidOfAsk said }
    ensures { HandsOn kind said result }
{
    match said {
        Ok(Said::Asked(ask)) => told(kind, ask),
        // Nothing else is said of it.
        Ok(_) => unreachable!(),
        Err(fault) => Err(refusal_of(fault)),
    }
}

/// Asks what became of a call. A call that is done waits no more.
///
/// # Errors
///
/// `Down`, where its node is not up, or what stands under its ticket is not what its beginning found; `Worn`, and out of memory.
/// Nothing is then acknowledged.
pub fn ask_call<D: Disk>(
    alloc: Global,
    world: &mut World<D>,
    ticket: &DeskTicket,
) -> Result<Ask, DeskFault>
    requires { CanMakeSteps D.seen world.old }
    ensures ready { CanMakeSteps D.seen world.new }
    ensures serves { CanServe (view_of D.seen D.faults D.clock) world.old → CanServe (view_of D.seen D.faults D.clock) world.new }
    ensures plan { plan_of world.new ≡ plan_of world.old }
    ensures longer { IsLongerBook (book_of world.old) (book_of world.new) }
    ensures adds { CanServe (view_of D.seen D.faults D.clock) world.old → AddsTo (AsksWith ticket.now.begun result) world.old world.new }
    ensures kind { AnswersInKind ticket.now.begun result }
    ensures made { AsksBy (view_of D.seen D.faults D.clock) ticket.now result world.old world.new }
{
    if !stands_as_begun(world, ticket) {
        return Err(DeskFault::Down);
    }
    let step = Step::Ask {
        ticket: ticket.ticket,
    };
    let said = world.step(alloc, step);
    hand_on(ticket.begun.kind, said)
}
