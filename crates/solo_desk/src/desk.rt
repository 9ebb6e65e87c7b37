// A desk of one thread.
ghost use Rattle.desk_model.specs.Tallies.{LeaveCounts};

use crate::ask::ask_call;
use crate::begin::begin_call;
use crate::give_up::give_up_call;
use crate::leave::leave_login;
use crate::pass::SoloPass;
use crate::post::post_first;
use crate::tally::{count_asked, count_if_refused, count_leave, count_refusal};
use call_tickets::{Ask, Call, Desk, DeskFault, DeskTicket, Life, Posted, Tally};
use io_edge::Disk;
use mail_base::NodeNo;
use std::alloc::Global;
use std::marker::PhantomData;

/// A desk whose pass holds a whole world, so that sessions are served over it by one thread.
#[derive(Drop)]
pub struct SoloDesk<D> {
    disks: PhantomData<D>,
}

impl<D> SoloDesk<D> {
    /// The desk. It holds nothing: each call is lent the pass.
    pub fn new() -> SoloDesk<D> {
        SoloDesk { disks: PhantomData }
    }
}

// Counts a Leave that was begun, or why it was refused.
fn count_left(tally: &mut Tally, left: &Result<(), DeskFault>)
    ensures { LeaveCounts left.now tally.old tally.new }
{
    match left {
        Ok(()) => count_leave(tally),
        Err(why) => count_refusal(tally, *why),
    }
}

impl<D: Disk> Desk for SoloDesk<D> {
    ghost use Rattle.std.specs.Prelude.{Some};
    ghost use Rattle.node_store.specs.Disks.{view_of};
    ghost use Rattle.solo_desk.specs.Passes.{own_entries, IsPass};

    type Pass = SoloPass<D>;

    ghost belongs = { λ _ pass. IsPass (view_of D.seen D.faults D.clock) pass };

    ghost own = { λ pass. Some (own_entries pass) };

    ghost counts = { λ pass. pass.tally };

    fn is_up(&self, pass: &mut SoloPass<D>, node: NodeNo) -> Option<Life> {
        match pass.world.boot(node) {
            Some(boot) => Some(Life {
                boot,
                seconds: pass.world.seconds(),
            }),
            None => {
                count_refusal(&mut pass.tally, DeskFault::Down);
                None
            }
        }
    }

    fn begin(
        &self,
        alloc: Global,
        pass: &mut SoloPass<D>,
        node: NodeNo,
        call: Call,
    ) -> Result<DeskTicket, DeskFault> {
        let begun = begin_call(alloc, &mut pass.world, node, call);
        count_if_refused(&mut pass.tally, &begun);
        begun
    }

    fn leave(
        &self,
        alloc: Global,
        pass: &mut SoloPass<D>,
        node: NodeNo,
        call: Call,
    ) -> Result<(), DeskFault> {
        let left = leave_login(alloc, &mut pass.world, node, call);
        count_left(&mut pass.tally, &left);
        left
    }

    fn ask(
        &self,
        alloc: Global,
        pass: &mut SoloPass<D>,
        ticket: &DeskTicket,
    ) -> Result<Ask, DeskFault> {
        let asked = ask_call(alloc, &mut pass.world, ticket);
        count_asked(&mut pass.tally, &asked);
        asked
    }

    fn give_up(
        &self,
        alloc: Global,
        pass: &mut SoloPass<D>,
        ticket: DeskTicket,
    ) -> Result<(), DeskFault> {
        let ended = give_up_call(alloc, &mut pass.world, &ticket);
        count_if_refused(&mut pass.tally, &ended);
        ended
    }

    fn post_one(&self, alloc: Global, pass: &mut SoloPass<D>) -> Result<Posted, DeskFault> {
        let posted = post_first(alloc, &mut pass.world);
        count_if_refused(&mut pass.tally, &posted);
        posted
    }

    fn tally(&self, pass: &SoloPass<D>) -> Tally {
        pass.tally
    }
}
