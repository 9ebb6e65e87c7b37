//! A promise that goes to the disk first.
ghost use Rattle.mail_model.specs.Grammar.{IsNodeNumber};
ghost use Rattle.node_store.specs.Disks.{view_of};
ghost use Rattle.node_core.specs.Nodes.{CanWork};
ghost use Rattle.node_core.specs.Works.{LeavesUp};
ghost use Rattle.node_core.specs.Promising.{PromisesEpoch};

use crate::fault::NodeFault;
use crate::node::Node;
use io_edge::Disk;
use mail_base::EpochId;
use std::alloc::Global;

impl Node {
    /// Appends the record that the node promises the epoch, and syncs it: only then the node may speak of its promise. Nothing
    /// else of the node changes, and nothing is sent.
    ///
    /// # Errors
    ///
    /// It is never `Worn`.
    pub fn promise<D: Disk>(
        &mut self,
        alloc: Global,
        disk: &mut D,
        epoch: EpochId,
    ) -> Result<(), NodeFault>
        requires works { CanWork (D.seen disk.old) self.old }
        requires node { IsNodeNumber epoch.node }
        ensures promises { PromisesEpoch (view_of D.seen D.faults D.clock) epoch result self.old disk.old self.new disk.new }
        ensures settled { LeavesUp result → D.settled disk.old → D.settled disk.new }
    {
        self.store.promise(alloc, disk, epoch)?;
        Ok(())
    }
}
