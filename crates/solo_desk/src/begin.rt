// A call begins.
ghost use Rattle.std.specs.Prelude.{◌≡◌, Some, None, IfOk, OnErr};
ghost use Rattle.std.specs.Option.{option_copied};
ghost use Rattle.session_model.specs.Calls as calls;
ghost use Rattle.call_tickets.specs.Seen.{call_seen};
ghost use Rattle.node_store.specs.Disks.{view_of};
ghost use Rattle.node_tickets.specs.Standing.{filing_at};
ghost use Rattle.cluster_world.specs.Telling.{standing_in};
ghost use Rattle.cluster_world.specs.Books.{IsLongerBook};
ghost use Rattle.cluster_world.specs.Worlds.{plan_of, book_of, CanMakeSteps};
ghost use Rattle.mail_base.specs.declared.filing.CallKind.TheVariants as kinds;
ghost use Rattle.solo_desk.specs.Serving.{CanServe, AddsTo};
ghost use Rattle.desk_model.specs.Entries.{BeginsWith};
ghost use Rattle.desk_model.specs.Growing.{BeginsInKind};
ghost use Rattle.solo_desk.specs.Steps.{BeginsBy};
ghost use Rattle.solo_desk.specs.Beginning.{IsSaidOfBegin, TicketOf, FindsFiled, Takes, HandsOut};

use crate::kinds::{kind_of, text_is_ended};
use crate::refusal::refusal_of;
use call_tickets::{Call, DeskFault, DeskTicket};
use cluster_world::{Said, Step, StepFault, World};
use io_edge::Disk;
use mail_base::{Begun, CallKind, Filing, NodeNo, Ticket};
use std::alloc::{AllocError, Global};

// The ticket of a call that has begun. One in whose beginning the node went down has none that stands.
fn ticket_of(said: &Result<Said, StepFault>) -> Result<Option<Ticket>, DeskFault>
    requires { IsSaidOfBegin said.now }
    ensures { TicketOf said.now result }
{
    match said {
        Ok(Said::Begun { ticket, stirs: _ }) => Ok(Some(*ticket)),
        Ok(Said::Faulted(_)) => Ok(None),
        // Nothing else is said of a call that has an answer.
        Ok(_) => unreachable!(),
        Err(StepFault::NoMemory { down: Some(_) }) => Ok(None),
        Err(fault) => Err(refusal_of(*fault)),
    }
}

fn copied(filing: Option<&Filing>) -> Result<Option<Filing>, AllocError>
    ensures { IfOk result (λ copy. copy ≡ option_copied filing.entry) }
{
    match filing {
        Some(filing) => Ok(Some(filing.copy()?)),
        None => Ok(None),
    }
}

// What stands under the ticket of a call of this kind that has just begun. Only of a delivery is anything copied.
fn begun_under<D: Disk>(
    world: &World<D>,
    kind: CallKind,
    ticket: &Ticket,
) -> Result<Begun, AllocError>
    requires { CanMakeSteps D.seen world.now }
    ensures ok { IfOk result (λ begun. FindsFiled kind (filing_at (standing_in world.now ticket.now)) begun) }
    ensures err { OnErr result (kind ≡ kinds.Deliver) }
{
    let filing = match kind {
        CallKind::Deliver => copied(world.filing(ticket))?,
        CallKind::Login => None,
        CallKind::Fetch => None,
        CallKind::Strike => None,
    };
    Ok(Begun { kind, filing })
}

// The ticket of a call that has just begun, with what stands under it. Where memory runs out for that, the call is given up.
fn take<D: Disk>(
    alloc: Global,
    world: &mut World<D>,
    kind: CallKind,
    ticket: Ticket,
) -> Result<DeskTicket, DeskFault>
    requires { CanMakeSteps D.seen world.old }
    ensures ready { CanMakeSteps D.seen world.new }
    ensures serves { CanServe (view_of D.seen D.faults D.clock) world.old → CanServe (view_of D.seen D.faults D.clock) world.new }
    ensures plan { plan_of world.new ≡ plan_of world.old }
    ensures takes { Takes (view_of D.seen D.faults D.clock) kind ticket result world.old world.new }
{
    match begun_under(world, kind, &ticket) {
        Ok(begun) => Ok(DeskTicket { ticket, begun }),
        Err(_) => {
            let _ = world.step(alloc, Step::GiveUp { ticket });
            Err(DeskFault::NoMemory)
        }
    }
}

// A call in whose beginning its node went down. Tickets are numbered from 1, so none stands under this.
fn fallen(node: NodeNo, kind: CallKind) -> DeskTicket
    ensures kind { result.begun.kind ≡ kind }
    ensures filing { result.begun.filing ≡ None }
{
    DeskTicket {
        ticket: Ticket::new(node, 0, 0),
        begun: Begun { kind, filing: None },
    }
}

// What is handed out of a call that begins, by what its step said.
fn hand_out<D: Disk>(
    alloc: Global,
    world: &mut World<D>,
    node: NodeNo,
    kind: CallKind,
    said: &Result<Said, StepFault>,
) -> Result<DeskTicket, DeskFault>
    requires ready { CanMakeSteps D.seen world.old }
    requires fits { IsSaidOfBegin said.now }
    ensures ready { CanMakeSteps D.seen world.new }
    ensures serves { CanServe (view_of D.seen D.faults D.clock) world.old → CanServe (view_of D.seen D.faults D.clock) world.new }
    ensures plan { plan_of world.new ≡ plan_of world.old }
    ensures hands { HandsOut (view_of D.seen D.faults D.clock) kind said.now result world.old world.new }
{
    match ticket_of(said)? {
        Some(ticket) => take(alloc, world, kind, ticket),
        None => Ok(fallen(node, kind)),
    }
}

/// Begins a call that has an answer at a node of the world. A call in whose beginning the node goes down has begun: its ticket
/// stands no more.
///
/// # Errors
///
/// `Down`, `Worn`, and out of memory. Nothing is then struck, and no ticket stands for the call. A Leave has no answer and is
/// refused as `Down`.
pub fn begin_call<D: Disk>(
    alloc: Global,
    world: &mut World<D>,
    node: NodeNo,
    call: Call,
) -> Result<DeskTicket, DeskFault>
    requires { CanMakeSteps D.seen world.old }
    ensures ready { CanMakeSteps D.seen world.new }
    ensures serves { CanServe (view_of D.seen D.faults D.clock) world.old → CanServe (view_of D.seen D.faults D.clock) world.new }
    ensures plan { plan_of world.new ≡ plan_of world.old }
    ensures longer { IsLongerBook (book_of world.old) (book_of world.new) }
    ensures adds { (asked : calls.Call) → call_seen call ≡ Some asked → CanServe (view_of D.seen D.faults D.clock) world.old → AddsTo (BeginsWith asked result) world.old world.new }
    ensures kind { (asked : calls.Call) → call_seen call ≡ Some asked → BeginsInKind asked result }
    ensures made { BeginsBy (view_of D.seen D.faults D.clock) node call result world.old world.new }
{
    let Some(kind) = kind_of(&call) else {
        return Err(DeskFault::Down);
    };
    if !text_is_ended(&call) {
        return Err(DeskFault::NoMemory);
    }
    let said = world.step(alloc, Step::Begin { node, call });
    hand_out(alloc, world, node, kind, &said)
}
