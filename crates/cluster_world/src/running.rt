//! Several steps in one call.
ghost use Rattle.std.specs.Prelude.{IfOk, IfErr};
ghost use Rattle.node_store.specs.Disks.{view_of};
ghost use Rattle.cluster_world.specs.Worlds.{state_of, CanMakeSteps};
ghost use Rattle.cluster_world.specs.Steps.{AreSettled};
ghost use Rattle.cluster_world.specs.Runs.{MadeThese, RunStops};

use crate::fault::StepFault;
use crate::step::{Said, Step};
use crate::world::World;
use io_edge::Disk;
use std::alloc::Global;

impl<D: Disk> World<D> {
    /// Makes these steps in their order, up to the first that is refused, and answers what each said.
    ///
    /// # Errors
    ///
    /// Why the step was refused; what was made before stays made. Memory may also run out before the first.
    pub fn run(&mut self, alloc: Global, steps: Vec<Step>) -> Result<Vec<Said>, StepFault>
        requires ready { CanMakeSteps D.seen self.old }
        ensures ready { CanMakeSteps D.seen self.new }
        ensures all { IfOk result (λ said. MadeThese (view_of D.seen D.faults D.clock) steps.items said.items self.old self.new) }
        ensures stops { IfErr result (λ why. RunStops (view_of D.seen D.faults D.clock) steps.items why self.old self.new) }
        ensures settled { AreSettled D.settled (state_of self.old) → AreSettled D.settled (state_of self.new) }
    {
        let mut said = Vec::with_capacity(alloc, steps.len())?;
        for step in steps {
            said.push_reserved(self.step(alloc, step)?);
        }
        Ok(said)
    }
}
