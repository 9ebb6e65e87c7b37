//! A board as a desk.
ghost use Rattle.std.specs.Prelude.{◌≡◌};
ghost use Rattle.node_store.specs.Disks.{view_of};
ghost use Rattle.shard_board.specs.Boards.{IsPassOf};
ghost use Rattle.shard_board.specs.declared.board.BoardPass.{BoardPass as APass};
ghost use Rattle.board_desk.specs.Desks.{IsDeskPass};

use crate::counts::{count_absence, count_left};
use crate::deeds::{Asking, Beginning, GivingUp, Leaving};
use call_tickets::{Ask, Call, Desk, DeskFault, DeskTicket, Life, Posted, Tally};
use io_edge::{Clock, Disk, Fate};
use mail_base::NodeNo;
use shard_board::{Board, BoardPass};
use solo_desk::{count_asked, count_if_refused};
use std::alloc::Global;
use std::snapshot::Snapshot;
use std::sync::Wait;

/// A board as a desk. Threads may share it, each with a pass of its own.
#[derive(Drop)]
pub struct BoardDesk<'a, R, D: Disk, F, C> {
    // by which a thread waits for its turn
    rt: &'a R,
    board: &'a Board<D, F, C>,
    // what the quota and the joined entries of its passes are
    pattern: Snapshot<BoardPass<D, F, C>>,
}

impl<'a, R, D: Disk, F, C> BoardDesk<'a, R, D, F, C> {
    /// The desk over this board, for passes with the quota and the joined entries of this one. A pass that was split off with the
    /// same quota, and has joined none, is such a pass wherever this one has joined none. Takes no memory.
    pub fn new(
        rt: &'a R,
        board: &'a Board<D, F, C>,
        pass: &BoardPass<D, F, C>,
    ) -> BoardDesk<'a, R, D, F, C>
        ensures board { result.board.now ≡ board.now }
        ensures pattern { result.pattern.value ≡ pass.now }
        ensures belongs { IsPassOf (view_of D.seen D.faults D.clock) board.now pass.now → IsDeskPass (view_of D.seen D.faults D.clock) result.board.now result.pattern.value pass.now }
        ensures still { (p : APass D F C) → IsDeskPass (view_of D.seen D.faults D.clock) result.board.now result.pattern.value p → IsDeskPass (view_of D.seen D.faults D.clock) board.now pass.now p }
    {
        let pattern = Snapshot::of(pass);
        BoardDesk { rt, board, pattern }
    }
}

impl<'a, R: Wait, D: Disk, F: Fate, C: Clock> Desk for BoardDesk<'a, R, D, F, C> {
    ghost use Rattle.board_desk.specs.Desks.{told_entries};

    type Pass = BoardPass<D, F, C>;

    ghost belongs = { λ desk pass. IsDeskPass (view_of D.seen D.faults D.clock) desk.board.now desk.pattern.value pass };

    ghost own = { λ pass. told_entries D.seen pass };

    ghost counts = { λ pass. pass.tally };

    fn is_up(&self, pass: &mut BoardPass<D, F, C>, node: NodeNo) -> Option<Life> {
        let life = self.board.is_up(self.rt, pass, node);
        count_absence(&mut pass.tally, &life);
        life
    }

    fn begin(
        &self,
        alloc: Global,
        pass: &mut BoardPass<D, F, C>,
        node: NodeNo,
        call: Call,
    ) -> Result<DeskTicket, DeskFault> {
        let begun = self
            .board
            .act(self.rt, alloc, pass, Beginning { node, call });
        count_if_refused(&mut pass.tally, &begun);
        begun
    }

    fn leave(
        &self,
        alloc: Global,
        pass: &mut BoardPass<D, F, C>,
        node: NodeNo,
        call: Call,
    ) -> Result<(), DeskFault> {
        let left = self.board.act(self.rt, alloc, pass, Leaving { node, call });
        count_left(&mut pass.tally, &left);
        left
    }

    fn ask(
        &self,
        alloc: Global,
        pass: &mut BoardPass<D, F, C>,
        ticket: &DeskTicket,
    ) -> Result<Ask, DeskFault> {
        let asked = self.board.act(self.rt, alloc, pass, Asking { ticket });
        count_asked(&mut pass.tally, &asked);
        asked
    }

    fn give_up(
        &self,
        alloc: Global,
        pass: &mut BoardPass<D, F, C>,
        ticket: DeskTicket,
    ) -> Result<(), DeskFault> {
        let ended = self
            .board
            .act(self.rt, alloc, pass, GivingUp { ticket: &ticket });
        count_if_refused(&mut pass.tally, &ended);
        ended
    }

    fn post_one(&self, alloc: Global, pass: &mut BoardPass<D, F, C>) -> Result<Posted, DeskFault> {
        let posted = self.board.post_one(self.rt, alloc, pass);
        count_if_refused(&mut pass.tally, &posted);
        posted
    }

    fn tally(&self, pass: &BoardPass<D, F, C>) -> Tally {
        pass.tally
    }
}
