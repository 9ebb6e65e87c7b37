//! A board as what a service stands before.
use crate::client::serve_client;
use crate::courier::carry_one;
use crate::obey::obey_line;
use crate::pass::ServicePass;
use io_edge::{Clock, Disk, Fate, Gate, Sink, Source};
use mail_base::Plan;
use mail_service::{Backend, Line};
use shard_board::Board;
use std::alloc::{AllocError, Global};
use std::sync::Wait;
use std::sync::atomic::AtomicU64;

/// A board as what a service stands before. Threads share it, each with a pass of its own.
#[derive(Drop)]
pub(crate) struct BoardBackend<'a, R, D: Disk, F, C, G> {
    // by which a thread waits for its turn
    pub(crate) rt: &'a R,
    pub(crate) board: &'a Board<D, F, C>,
    pub(crate) gate: &'a G,
    // who looks names up
    pub(crate) plan: &'a Plan,
    // how many pushes were begun
    pub(crate) pushes: &'a AtomicU64,
}

impl<
    'a,
    R: Wait,
    D: Disk + Drop + Send,
    F: Fate + Drop + Send,
    C: Clock + Drop + Send,
    G: Gate,
> Backend for BoardBackend<'a, R, D, F, C, G> {
    ghost use Rattle.node_store.specs.Disks.{view_of};
    ghost use Rattle.shard_board.specs.Boards.{quota_of};
    ghost use Rattle.board_service.specs.Passes.{IsServicePass};
    ghost use Rattle.board_service.specs.Serving.{Serves};
    ghost use Rattle.board_service.specs.Carrying.{Carries};
    ghost use Rattle.board_service.specs.Obeying.{ObeysLine};

    type Pass = ServicePass<D, F, C>;

    ghost belongs = { λ backend pass. IsServicePass (view_of D.seen D.faults D.clock) backend.board.now backend.plan.now pass };

    ghost quota = { λ pass. quota_of pass.board };

    ghost serves = { λ backend old line left0 left1 held0 held1 new. Serves D.seen backend.plan.now old.board line left0 left1 held0 held1 new.board };

    ghost carries = { λ backend old did new. Carries (view_of D.seen D.faults D.clock) backend.board.now F.decides old.board did new.board };

    ghost obeys = { λ backend old line number said new. ObeysLine (view_of D.seen D.faults D.clock) backend.board.now backend.plan.now old.board line number said new.board };

    fn split(&self, pass: &mut ServicePass<D, F, C>, part: u32) -> ServicePass<D, F, C> {
        let board = self.board.split(&mut pass.board, part);
        ServicePass { board, served: 0 }
    }

    fn join(&self, pass: &mut ServicePass<D, F, C>, other: ServicePass<D, F, C>) {
        let ServicePass { board, served } = other;
        self.board.join(&mut pass.board, board);
        pass.served = pass.served.saturating_add(served);
    }

    fn serve<I: Source, O: Sink>(
        &self,
        alloc: Global,
        pass: &mut ServicePass<D, F, C>,
        line: Line,
        source: &mut I,
        sink: &mut O,
    ) {
        serve_client(
            self.rt,
            alloc,
            self.gate,
            self.board,
            self.plan,
            &mut pass.board,
            &line,
            source,
            sink,
        );
        pass.served = pass.served.saturating_add(1);
    }

    fn carry(&self, alloc: Global, pass: &mut ServicePass<D, F, C>) -> bool {
        let plan = self.plan;
        carry_one(
            self.rt,
            alloc,
            self.board,
            &mut pass.board,
            plan.nodes,
            self.pushes,
        )
    }

    fn obey(
        &self,
        alloc: Global,
        pass: &mut ServicePass<D, F, C>,
        line: &[u8],
        number: u64,
        out: &mut Vec<u8>,
    ) -> Result<(), AllocError> {
        obey_line(
            self.rt,
            alloc,
            self.board,
            self.plan,
            &mut pass.board,
            line,
            number,
            out,
        )
    }
}
