//! The calls of a board. Each is one turn.
ghost use Rattle.std.specs.Prelude.{◌≡◌, ◌<◌, true, IfOk, length, slice_get};
ghost use Rattle.node_store.specs.Disks.{view_of};
ghost use Rattle.cluster_world.specs.Worlds.{plan_of};
ghost use Rattle.cluster_world.specs.Ended.{IsEnded};
ghost use Rattle.cluster_world.specs.declared.world.World.{World as AWorld};
ghost use Rattle.cluster_world.specs.declared.step.Step.TheVariants as step;
ghost use Rattle.shard_board.specs.Parts.{KeepsPart};
ghost use Rattle.shard_board.specs.Deeds.{MakesOne, Regroups, Settles, is_blind};
ghost use Rattle.shard_board.specs.Boards.{first_part, plan_of_board, own_entries, seen_book, made_known, IsPassOf, IsTurnOf};
ghost use Rattle.shard_board.specs.Orders.{ordered_by, is_blind_order, Obeys, TellsOf, TellsOfRegroup, TellsOfSettle};
ghost use Rattle.shard_board.specs.Posts.{PostsOne};
ghost use Rattle.shard_board.specs.Reads.{TellsLife, TellsMap, TellsSum, TellsEntry};
ghost use Rattle.shard_board.specs.Entries.{entry_shown};

use crate::board::{Board, BoardPass};
use crate::deed::{Deed, Regrouping, Settling, Stepping};
use crate::order::{Order, Told};
use crate::part::Part;
use crate::works::{Doing, Looking, Mapping, Posting, Reading, Summing};
use call_tickets::{Call, DeskFault, Life, Posted, Tally};
use cluster_world::{BookSum, Regroup, Said, Settle, Step, StepFault};
use io_edge::{Clock, Disk, Fate};
use mail_base::{Name, NodeNo, NodeSet, Ticket};
use std::alloc::{AllocError, Global};
use std::sync::Wait;
use turnstile::Work;
use world_book::Entry;

// What the step said is what is told of its order.
fn told(said: Result<Said, StepFault>) -> Result<Told, StepFault>
    ensures { TellsOf said result }
{
    Ok(Told::Said(said?))
}

// What came of a regroup is what is told of its order.
fn told_regroup(came: Result<Regroup, StepFault>) -> Result<Told, StepFault>
    ensures { TellsOfRegroup came result }
{
    Ok(Told::Regrouped(came?))
}

// What came of a settle is what is told of its order.
fn told_settle(came: Result<Settle, StepFault>) -> Result<Told, StepFault>
    ensures { TellsOfSettle came result }
{
    Ok(Told::Settled(came?))
}

impl<D: Disk, F, C> Board<D, F, C> {
    // One turn.
    fn take<W: Work<Part<D, F, C>>, R: Wait>(
        &self,
        rt: &R,
        pass: &mut BoardPass<D, F, C>,
        work: W,
    ) -> W::Out
        requires pass { IsPassOf (view_of D.seen D.faults D.clock) self.now pass.old }
        requires work { (part : Part D F C) → KeepsPart (view_of D.seen D.faults D.clock) (first_part self.now) part → W.asks work part }
        ensures pass { IsPassOf (view_of D.seen D.faults D.clock) self.now pass.new }
        ensures turn { IsTurnOf (view_of D.seen D.faults D.clock) (W.did work) self.now pass.old pass.new result }
    {
        self.turnstile.turn(rt, &mut pass.lower, work)
    }

    /// Does the deed with the world, in one turn. Where there is no memory for its page, it is not done.
    pub fn act<T: Deed<D>, R: Wait>(
        &self,
        rt: &R,
        alloc: Global,
        pass: &mut BoardPass<D, F, C>,
        deed: T,
    ) -> T::Out
        requires pass { IsPassOf (view_of D.seen D.faults D.clock) self.now pass.old }
        requires asks { (world : AWorld D) → plan_of world ≡ plan_of_board self.now → T.asks deed world }
        ensures pass { IsPassOf (view_of D.seen D.faults D.clock) self.now pass.new }
        ensures turn { IsTurnOf (view_of D.seen D.faults D.clock) (λ old out new. T.did deed old.world out new.world) self.now pass.old pass.new result }
        ensures still { T.blind deed (plan_of_board self.now).nodes ≡ true → made_known D.seen pass.new ≡ made_known D.seen pass.old }
    {
        self.take(rt, pass, Doing { alloc, deed })
    }

    // One step.
    fn step<R: Wait>(
        &self,
        rt: &R,
        alloc: Global,
        pass: &mut BoardPass<D, F, C>,
        step: Step,
    ) -> Result<Said, StepFault>
        requires pass { IsPassOf (view_of D.seen D.faults D.clock) self.now pass.old }
        requires ended { IsEnded step }
        ensures pass { IsPassOf (view_of D.seen D.faults D.clock) self.now pass.new }
        ensures turn { IsTurnOf (view_of D.seen D.faults D.clock) (λ old said new. MakesOne (view_of D.seen D.faults D.clock) said step old.world new.world) self.now pass.old pass.new result }
        ensures still { is_blind (plan_of_board self.now).nodes step ≡ true → made_known D.seen pass.new ≡ made_known D.seen pass.old }
    {
        self.act(rt, alloc, pass, Stepping { step })
    }

    /// Begins a call at a node: one step, and no other. The message of a delivery is empty or ends in CRLF.
    ///
    /// # Errors
    ///
    /// Why the step was refused.
    pub fn begin<R: Wait>(
        &self,
        rt: &R,
        alloc: Global,
        pass: &mut BoardPass<D, F, C>,
        node: NodeNo,
        call: Call,
    ) -> Result<Said, StepFault>
        requires pass { IsPassOf (view_of D.seen D.faults D.clock) self.now pass.old }
        requires ended { IsEnded (step.Begin node call) }
        ensures pass { IsPassOf (view_of D.seen D.faults D.clock) self.now pass.new }
        ensures turn { IsTurnOf (view_of D.seen D.faults D.clock) (λ old said new. MakesOne (view_of D.seen D.faults D.clock) said (step.Begin node call) old.world new.world) self.now pass.old pass.new result }
        ensures still { made_known D.seen pass.new ≡ made_known D.seen pass.old }
    {
        self.step(rt, alloc, pass, Step::Begin { node, call })
    }

    /// Asks what became of a call: one step, and no other. A call that is done waits no more.
    ///
    /// # Errors
    ///
    /// Why the step was refused.
    pub fn ask<R: Wait>(
        &self,
        rt: &R,
        alloc: Global,
        pass: &mut BoardPass<D, F, C>,
        ticket: Ticket,
    ) -> Result<Said, StepFault>
        requires pass { IsPassOf (view_of D.seen D.faults D.clock) self.now pass.old }
        ensures pass { IsPassOf (view_of D.seen D.faults D.clock) self.now pass.new }
        ensures turn { IsTurnOf (view_of D.seen D.faults D.clock) (λ old said new. MakesOne (view_of D.seen D.faults D.clock) said (step.Ask ticket) old.world new.world) self.now pass.old pass.new result }
        ensures still { made_known D.seen pass.new ≡ made_known D.seen pass.old }
    {
        self.step(rt, alloc, pass, Step::Ask { ticket })
    }

    /// Gives a call up: one step, and no other.
    ///
    /// # Errors
    ///
    /// Why the step was refused.
    pub fn give_up<R: Wait>(
        &self,
        rt: &R,
        alloc: Global,
        pass: &mut BoardPass<D, F, C>,
        ticket: Ticket,
    ) -> Result<Said, StepFault>
        requires pass { IsPassOf (view_of D.seen D.faults D.clock) self.now pass.old }
        ensures pass { IsPassOf (view_of D.seen D.faults D.clock) self.now pass.new }
        ensures turn { IsTurnOf (view_of D.seen D.faults D.clock) (λ old said new. MakesOne (view_of D.seen D.faults D.clock) said (step.GiveUp ticket) old.world new.world) self.now pass.old pass.new result }
        ensures still { made_known D.seen pass.new ≡ made_known D.seen pass.old }
    {
        self.step(rt, alloc, pass, Step::GiveUp { ticket })
    }

    /// How many entries of each kind the book has. It makes no step, and takes no memory.
    pub fn sum<R: Wait>(&self, rt: &R, pass: &mut BoardPass<D, F, C>) -> BookSum
        requires pass { IsPassOf (view_of D.seen D.faults D.clock) self.now pass.old }
        ensures pass { IsPassOf (view_of D.seen D.faults D.clock) self.now pass.new }
        ensures turn { IsTurnOf (view_of D.seen D.faults D.clock) TellsSum self.now pass.old pass.new result }
        ensures still { made_known D.seen pass.new ≡ made_known D.seen pass.old }
    {
        self.take(rt, pass, Summing)
    }

    /// A whole regroup, by this node: the steps that it takes, and no other, in one turn.
    ///
    /// # Errors
    ///
    /// Why the first of them was refused, or one after it.
    pub fn regroup<R: Wait>(
        &self,
        rt: &R,
        alloc: Global,
        pass: &mut BoardPass<D, F, C>,
        node: NodeNo,
    ) -> Result<Regroup, StepFault>
        requires pass { IsPassOf (view_of D.seen D.faults D.clock) self.now pass.old }
        ensures pass { IsPassOf (view_of D.seen D.faults D.clock) self.now pass.new }
        ensures turn { IsTurnOf (view_of D.seen D.faults D.clock) (λ old came new. Regroups (view_of D.seen D.faults D.clock) node came old.world new.world) self.now pass.old pass.new result }
        ensures still { made_known D.seen pass.new ≡ made_known D.seen pass.old }
    {
        self.act(rt, alloc, pass, Regrouping { node })
    }

    /// A whole settle: the steps that it takes, and no other, in one turn. It is blind over one node alone, since it pushes among
    /// several.
    ///
    /// # Errors
    ///
    /// Why it was refused, as `World::settle` is.
    pub fn settle<R: Wait>(
        &self,
        rt: &R,
        alloc: Global,
        pass: &mut BoardPass<D, F, C>,
    ) -> Result<Settle, StepFault>
        requires pass { IsPassOf (view_of D.seen D.faults D.clock) self.now pass.old }
        ensures pass { IsPassOf (view_of D.seen D.faults D.clock) self.now pass.new }
        ensures turn { IsTurnOf (view_of D.seen D.faults D.clock) (λ old came new. Settles (view_of D.seen D.faults D.clock) came old.world new.world) self.now pass.old pass.new result }
        ensures still { (plan_of_board self.now).nodes ≡ 1 → made_known D.seen pass.new ≡ made_known D.seen pass.old }
    {
        self.act(rt, alloc, pass, Settling)
    }

    /// The manager of the user in the latest epoch, and the nodes that it names. It makes no step, and takes no memory.
    pub fn maps<R: Wait>(
        &self,
        rt: &R,
        pass: &mut BoardPass<D, F, C>,
        user: Name,
    ) -> Option<(NodeNo, NodeSet)>
        requires pass { IsPassOf (view_of D.seen D.faults D.clock) self.now pass.old }
        ensures pass { IsPassOf (view_of D.seen D.faults D.clock) self.now pass.new }
        ensures turn { IsTurnOf (view_of D.seen D.faults D.clock) (TellsMap user) self.now pass.old pass.new result }
        ensures still { made_known D.seen pass.new ≡ made_known D.seen pass.old }
    {
        self.take(rt, pass, Mapping { user })
    }

    /// What an operator orders: the step that is ordered, and no other; or the steps of a regroup or a settle, all in one turn; or
    /// a user's map; or a count of the entries of the book. A start, and a push or a settle among several nodes, are not blind: over
    /// disks that tell nothing, no pass that has seen such a step tells any more.
    ///
    /// # Errors
    ///
    /// Why the step was refused.
    pub fn console<R: Wait>(
        &self,
        rt: &R,
        alloc: Global,
        pass: &mut BoardPass<D, F, C>,
        order: Order,
    ) -> Result<Told, StepFault>
        requires pass { IsPassOf (view_of D.seen D.faults D.clock) self.now pass.old }
        ensures pass { IsPassOf (view_of D.seen D.faults D.clock) self.now pass.new }
        ensures turn { IsTurnOf (view_of D.seen D.faults D.clock) (Obeys (view_of D.seen D.faults D.clock) (ordered_by order)) self.now pass.old pass.new result }
        ensures still { is_blind_order (plan_of_board self.now).nodes (ordered_by order) ≡ true → made_known D.seen pass.new ≡ made_known D.seen pass.old }
    {
        match order {
            Order::Crash(node) => told(self.step(rt, alloc, pass, Step::Crash { node })),
            Order::Start(node) => told(self.step(rt, alloc, pass, Step::Start { node })),
            Order::Lose(node) => told(self.step(rt, alloc, pass, Step::Lose { node })),
            Order::Push { from, to } => told(self.step(rt, alloc, pass, Step::Push { from, to })),
            Order::Widen { at, user, id, to } => {
                told(self.step(rt, alloc, pass, Step::Widen { at, user, id, to }))
            }
            Order::Regroup(node) => told_regroup(self.regroup(rt, alloc, pass, node)),
            Order::Report { from, to } => {
                told(self.step(rt, alloc, pass, Step::Report { from, to }))
            }
            Order::Settle => told_settle(self.settle(rt, alloc, pass)),
            Order::Maps(user) => Ok(Told::Mapped(self.maps(rt, pass, user))),
            Order::Sum => Ok(Told::Sum(self.sum(rt, pass))),
        }
    }

    /// The life of a node: its boot, and the seconds of the clock; nothing where it is not up. It makes no step, and takes no
    /// memory.
    pub fn is_up<R: Wait>(
        &self,
        rt: &R,
        pass: &mut BoardPass<D, F, C>,
        node: NodeNo,
    ) -> Option<Life>
        requires pass { IsPassOf (view_of D.seen D.faults D.clock) self.now pass.old }
        ensures pass { IsPassOf (view_of D.seen D.faults D.clock) self.now pass.new }
        ensures turn { IsTurnOf (view_of D.seen D.faults D.clock) (TellsLife node) self.now pass.old pass.new result }
        ensures still { made_known D.seen pass.new ≡ made_known D.seen pass.old }
    {
        self.take(rt, pass, Looking { node })
    }

    /// The entry of the book at this place, counted from 0; none where the book has not so many. Where the pass has seen the
    /// place, it is the entry that it saw. It makes no step.
    ///
    /// # Errors
    ///
    /// Out of memory alone.
    pub fn entry<R: Wait>(
        &self,
        rt: &R,
        pass: &mut BoardPass<D, F, C>,
        place: usize,
    ) -> Result<Option<Entry>, AllocError>
        requires pass { IsPassOf (view_of D.seen D.faults D.clock) self.now pass.old }
        ensures pass { IsPassOf (view_of D.seen D.faults D.clock) self.now pass.new }
        ensures turn { IsTurnOf (view_of D.seen D.faults D.clock) (TellsEntry place) self.now pass.old pass.new result }
        ensures still { made_known D.seen pass.new ≡ made_known D.seen pass.old }
        ensures own { own_entries pass.new ≡ own_entries pass.old }
        ensures seen { place < length (seen_book self.now pass.old) → IfOk result (λ found. entry_shown found ≡ slice_get (seen_book self.now pass.old) place) }
    {
        self.take(rt, pass, Reading { place })
    }

    /// What the pass counted. It takes no memory.
    pub fn tally(pass: &BoardPass<D, F, C>) -> Tally
        ensures { result ≡ pass.now.tally }
    {
        pass.tally
    }
}

impl<D: Disk, F: Fate, C: Clock> Board<D, F, C> {
    /// Sets the clock, and then looks at the letter of the lowest number, if one is in flight: what fate decides of it is done.
    ///
    /// # Errors
    ///
    /// `Worn`, where a number is used up, and out of memory.
    pub fn post_one<R: Wait>(
        &self,
        rt: &R,
        alloc: Global,
        pass: &mut BoardPass<D, F, C>,
    ) -> Result<Posted, DeskFault>
        requires pass { IsPassOf (view_of D.seen D.faults D.clock) self.now pass.old }
        ensures pass { IsPassOf (view_of D.seen D.faults D.clock) self.now pass.new }
        ensures turn { IsTurnOf (view_of D.seen D.faults D.clock) (PostsOne (view_of D.seen D.faults D.clock) F.decides) self.now pass.old pass.new result }
        ensures still { made_known D.seen pass.new ≡ made_known D.seen pass.old }
    {
        self.take(rt, pass, Posting { alloc })
    }
}
