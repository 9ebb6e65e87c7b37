//! Groups that a node opens and concludes.
ghost use Rattle.std.specs.Prelude.{◌≡◌, ◌≤◌, ◌<◌, ℕ, List, Option, reverse};
ghost use Rattle.node_store.specs.Disks.{view_of};
ghost use Rattle.node_core.specs.Works.{LeavesUp};
ghost use Rattle.joint_model.specs.Joint.Life.{Up};
ghost use Rattle.joint_world.specs.Staying.{KeepsReads};
ghost use Rattle.whole_node.specs.Nodes.{joint_seen, KeepsBeside, WholeWorks};
ghost use Rattle.whole_node.specs.Grouping.{OpensGroup, ConcludesBoth, ConcludesGroup};

use crate::node::WholeNode;
use io_edge::Disk;
use mail_base::{EpochId, Letter, Sequence};
use node_core::NodeFault;
use node_maps::Concluded;
use std::alloc::{AllocError, Global};

/// A group that was opened.
#[derive(Drop)]
pub struct Grouped {
    /// Its epoch, which the node has promised.
    pub epoch: EpochId,
    /// A Group for each other node of the plan, in rising order of receiver.
    pub letters: Sequence<Letter>,
}

fn turned_round(letters: Sequence<Letter>) -> Sequence<Letter>
    ensures { result ≡ reverse letters }
{
    let mut held = letters.into_vec();
    held.reverse();
    Sequence::from_vec(held)
}

impl WholeNode {
    /// Opens a group over a plan of so many nodes, and closes one that is open. The record of its promise is appended and synced
    /// before anything is said.
    ///
    /// # Errors
    ///
    /// `Worn` exactly where the count of epochs is used up. Where the disk fails as the node promises, the record stands, or may
    /// stand, or does not; nothing is sent, and the node has to go down. So it has to where memory runs out after that.
    pub fn open_group<D: Disk>(
        &mut self,
        alloc: Global,
        disk: &mut D,
        nodes: u8,
    ) -> Result<Grouped, NodeFault>
        requires works { WholeWorks (D.seen disk.old) self.old }
        requires few { nodes ≤ 16 }
        ensures opens { OpensGroup (view_of D.seen D.faults D.clock) nodes self.old disk.old self.new disk.new result }
        ensures beside { LeavesUp result → KeepsReads (Up (joint_seen self.old)) (joint_seen self.new) }
        ensures works { LeavesUp result → WholeWorks (D.seen disk.new) self.new }
        ensures settled { LeavesUp result → D.settled disk.old → D.settled disk.new }
    {
        if self.maps.group().heard() == u64::MAX {
            return Err(NodeFault::Worn);
        }
        let epoch = self.maps.next_epoch();
        self.mail.promise(alloc, disk, epoch)?;
        match self.maps.start_group(alloc, nodes) {
            Ok(letters) => Ok(Grouped {
                epoch,
                letters: turned_round(letters),
            }),
            Err(AllocError) => Err(NodeFault::NoMemory { down: true }),
        }
    }

    // The maps conclude the open group, and messages go by its epoch.
    fn conclude_both(
        &mut self,
        alloc: Global,
        buckets: u32,
    ) -> Result<Option<Concluded>, AllocError>
        requires some { 0 < buckets }
        ensures concludes { ConcludesBoth buckets result self.old self.new }
        ensures beside { KeepsBeside self.old self.new }
    {
        match self.maps.conclude(alloc, buckets)? {
            Some(done) => {
                self.share_epoch()?;
                Ok(Some(done))
            }
            None => Ok(None),
        }
    }

    /// Concludes the open group: those who joined are the members, and each of so many buckets gets its manager. Messages go by
    /// its epoch from now on, and all locks of an earlier one are let go. Nothing exactly where no group is open, and nothing changes.
    ///
    /// # Errors
    ///
    /// Only out of memory, and the node has to go down.
    pub fn conclude(&mut self, alloc: Global, buckets: u32) -> Result<Option<Concluded>, NodeFault>
        requires some { 0 < buckets }
        ensures concludes { (seen : Option (List ℕ)) → WholeWorks seen self.old → ConcludesGroup buckets result self.old self.new }
        ensures beside { (seen : Option (List ℕ)) → WholeWorks seen self.old → LeavesUp result → KeepsReads (Up (joint_seen self.old)) (joint_seen self.new) }
        ensures works { (seen : Option (List ℕ)) → WholeWorks seen self.old → LeavesUp result → WholeWorks seen self.new }
    {
        let epoch = self.mail.epoch();
        match self.conclude_both(alloc, buckets) {
            Ok(done) => {
                self.keep_locks(epoch);
                Ok(done)
            }
            Err(AllocError) => Err(NodeFault::NoMemory { down: true }),
        }
    }
}
