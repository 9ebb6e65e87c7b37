//! What a turn does to the world of a board.
ghost use Rattle.std.specs.Prelude.{◌≡◌, ℕ, Bool, true, nat_eq};
ghost use Rattle.node_store.specs.Disks.{view_of};
ghost use Rattle.cluster_world.specs.Books.{IsLongerBook};
ghost use Rattle.cluster_world.specs.Worlds.{plan_of, book_of, CanMakeSteps};
ghost use Rattle.cluster_world.specs.Ended.{IsEnded};
ghost use Rattle.cluster_world.specs.declared.world.World.{World as AWorld};
ghost use Rattle.shard_board.specs.Worlds.{IsSoundWorld};
ghost use Rattle.shard_board.specs.Pages.{is_known_over};
ghost use Rattle.shard_board.specs.Deeds.{MakesOne, Regroups, Settles, is_blind};

use cluster_world::{Regroup, Said, Settle, Step, StepFault, World};
use io_edge::Disk;
use mail_base::NodeNo;
use std::alloc::Global;

/// What one turn does to the world of a board. It has one page.
pub trait Deed<D: Disk> {
    /// What is answered.
    type Out;

    /// What it asks of the world.
    ghost asks: { Self → AWorld D → Type 0 };

    /// What it did: of the deed, the old world, the answer and the new world.
    ghost did: { Self → AWorld D → Self.Out → AWorld D → Type 0 };

    /// Whether it is blind over so many nodes.
    ghost blind: { Self → ℕ → Bool };

    /// Whether it is blind over so many nodes: it reads from no disk what the machine has to know.
    fn is_blind(&self, nodes: u8) -> bool
        ensures { result ≡ blind self.now nodes };

    /// Does it. Where it is blind, or the disks of the world tell what they hold, a sound world is sound afterwards.
    fn act(self, alloc: Global, world: &mut World<D>) -> Self::Out
        requires ready { CanMakeSteps D.seen world.old }
        requires asks { asks self world.old }
        ensures did { did self world.old result world.new }
        ensures ready { CanMakeSteps D.seen world.new }
        ensures sound { is_known_over D.seen (blind self (plan_of world.old).nodes) world.old ≡ true
            → IsSoundWorld (view_of D.seen D.faults D.clock) world.old → IsSoundWorld (view_of D.seen D.faults D.clock) world.new }
        ensures plan { plan_of world.new ≡ plan_of world.old }
        ensures longer { IsLongerBook (book_of world.old) (book_of world.new) };

    /// What is answered where there is no memory for the page. Nothing is then done.
    fn short(self) -> Self::Out
        ensures { (world : AWorld D) → did self world result world };
}

// Whether the step is blind over so many nodes.
fn is_blind(step: &Step, nodes: u8) -> bool
    ensures { result ≡ is_blind nodes step.now }
{
    match step {
        Step::Push { .. } => nodes == 1,
        Step::Start { .. } => false,
        Step::Begin { .. }
        | Step::Ask { .. }
        | Step::GiveUp { .. }
        | Step::Post { .. }
        | Step::Drop { .. }
        | Step::Widen { .. }
        | Step::Group { .. }
        | Step::Conclude { .. }
        | Step::Report { .. }
        | Step::Crash { .. }
        | Step::Lose { .. }
        | Step::Tick { .. } => true,
    }
}

/// One step.
#[derive(Drop)]
pub(crate) struct Stepping {
    pub step: Step,
}

impl<D: Disk> Deed<D> for Stepping {
    type Out = Result<Said, StepFault>;

    ghost asks = { λ deed world. IsEnded deed.step };

    ghost did = { λ deed old result new. MakesOne (view_of D.seen D.faults D.clock) result deed.step old new };

    ghost blind = { λ deed nodes. is_blind nodes deed.step };

    fn is_blind(&self, nodes: u8) -> bool {
        is_blind(&self.step, nodes)
    }

    fn act(self, alloc: Global, world: &mut World<D>) -> Result<Said, StepFault> {
        world.step(alloc, self.step)
    }

    fn short(self) -> Result<Said, StepFault> {
        Err(StepFault::NoMemory { down: None })
    }
}

/// A whole regroup.
#[derive(Drop)]
pub(crate) struct Regrouping {
    pub node: NodeNo,
}

impl<D: Disk> Deed<D> for Regrouping {
    type Out = Result<Regroup, StepFault>;

    ghost asks = { λ deed world. Unit {0} };

    ghost did = { λ deed old result new. Regroups (view_of D.seen D.faults D.clock) deed.node result old new };

    ghost blind = { λ deed nodes. true };

    fn is_blind(&self, nodes: u8) -> bool {
        let _ = nodes;
        true
    }

    fn act(self, alloc: Global, world: &mut World<D>) -> Result<Regroup, StepFault> {
        world.regroup(alloc, self.node)
    }

    fn short(self) -> Result<Regroup, StepFault> {
        Err(StepFault::NoMemory { down: None })
    }
}

/// A whole settle.
#[derive(Drop)]
pub(crate) struct Settling;

impl<D: Disk> Deed<D> for Settling {
    type Out = Result<Settle, StepFault>;

    ghost asks = { λ deed world. Unit {0} };

    ghost did = { λ deed old result new. Settles (view_of D.seen D.faults D.clock) result old new };

    ghost blind = { λ deed nodes. nat_eq nodes 1 };

    fn is_blind(&self, nodes: u8) -> bool {
        nodes == 1
    }

    fn act(self, alloc: Global, world: &mut World<D>) -> Result<Settle, StepFault> {
        world.settle(alloc)
    }

    fn short(self) -> Result<Settle, StepFault> {
        Err(StepFault::NoMemory { down: None })
    }
}
