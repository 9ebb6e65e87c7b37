// The pass of a desk of one thread.
ghost use Rattle.std.specs.Prelude.{◌≡◌, [], length, IfOk, IfErr};
ghost use Rattle.node_store.specs.Disks.{view_of};
ghost use Rattle.cluster_world.specs.Ended.{IsEnded};
ghost use Rattle.cluster_world.specs.Opens.{CanBeOpened, AreEmpty, Opened, Refused};
ghost use Rattle.cluster_world.specs.Steps.{IsStep, StepIsKnown};
ghost use Rattle.cluster_world.specs.Worlds.{state_of};
ghost use Rattle.solo_desk.specs.Serving.{CanServe};
ghost use Rattle.desk_model.specs.Tallies.{no_counts};
ghost use Rattle.solo_desk.specs.Passes.{own_entries, start_of, IsPass};

use crate::tally::no_counts;
use call_tickets::Tally;
use cluster_world::{OpenFault, Said, Step, StepFault, World};
use io_edge::Disk;
use mail_base::Plan;
use std::alloc::Global;
use std::snapshot::Snapshot;

/// The one pass of a desk of one thread. It holds the whole world, and counts what came of the calls.
#[derive(Drop)]
pub struct SoloPass<D> {
    pub(crate) world: World<D>,
    pub(crate) tally: Tally,
    // the world as the pass was made
    pub(crate) start: Snapshot<World<D>>,
}

impl<D: Disk> SoloPass<D> {
    /// A pass that holds this world. Its own entries are those that the book gets from here on.
    pub fn new(world: World<D>) -> SoloPass<D>
        requires { CanServe (view_of D.seen D.faults D.clock) world }
        ensures belongs { IsPass (view_of D.seen D.faults D.clock) result }
        ensures world { result.world ≡ world }
        ensures start { start_of result ≡ world }
        ensures own { own_entries result ≡ [] }
        ensures counts { result.tally ≡ no_counts }
    {
        let start = Snapshot::of(&world);
        SoloPass {
            world,
            tally: no_counts(),
            start,
        }
    }

    /// A pass that holds a new world over empty disks, one for each node of the plan, in order. A refusal hands the disks back.
    pub fn open(
        alloc: Global,
        plan: Plan,
        disks: Vec<D>,
    ) -> Result<SoloPass<D>, (OpenFault, Vec<D>)>
        requires fit { CanBeOpened plan }
        requires one_each { length disks.items ≡ plan.nodes }
        requires empty { AreEmpty D.seen disks.items }
        ensures belongs { IfOk result (λ pass. IsPass (view_of D.seen D.faults D.clock) pass) }
        ensures opened { IfOk result (λ pass. Opened (view_of D.seen D.faults D.clock) D.settled plan disks.items pass.world) }
        ensures own { IfOk result (λ pass. own_entries pass ≡ []) }
        ensures counts { IfOk result (λ pass. pass.tally ≡ no_counts) }
        ensures refused { IfErr result (λ refused. Refused (view_of D.seen D.faults D.clock) refused.0 disks.items (refused.1).items) }
    {
        match World::open(alloc, plan, disks) {
            Ok(world) => Ok(SoloPass::new(world)),
            Err(refused) => Err(refused),
        }
    }

    /// Makes a step of the world that no session asks for: a node stops or starts, the clock is set, a letter is dropped. The
    /// entries that it adds are own entries, too. What the machine does in the step has to be known: over disks that tell
    /// nothing no node is started, and among several nodes none pushes.
    pub fn step(&mut self, alloc: Global, step: Step) -> Result<Said, StepFault>
        requires belongs { IsPass (view_of D.seen D.faults D.clock) self.old }
        requires known { StepIsKnown D.seen (state_of self.old.world) step }
        requires ended { IsEnded step }
        ensures belongs { IsPass (view_of D.seen D.faults D.clock) self.new }
        ensures is { IsStep (view_of D.seen D.faults D.clock) result step self.old.world self.new.world }
        ensures start { start_of self.new ≡ start_of self.old }
        ensures counts { self.new.tally ≡ self.old.tally }
    {
        self.world.step(alloc, step)
    }

    /// The world that it holds.
    pub fn world(&self) -> &World<D>
        ensures { result.now ≡ self.now.world }
    {
        &self.world
    }

    /// Gives the world back.
    pub fn into_world(self) -> World<D>
        ensures { result ≡ self.world }
    {
        self.world
    }
}
