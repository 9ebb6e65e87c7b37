//! A letter that is heard.
ghost use Rattle.std.specs.Prelude.{◌≡◌, ℕ, true, false, All, IfOk};
ghost use Rattle.mail_model.specs.Plan.{Plan as PlainPlan};
ghost use Rattle.object_model.specs.Letters.{is_read_body};
ghost use Rattle.cluster_model.specs.Deeds.{hear};
ghost use Rattle.whole_model.specs.Rules.{IsMailBody, IsMapsBody};
ghost use Rattle.joint_model.specs.Joint.Life.{Up};
ghost use Rattle.joint_world.specs.Staying.{KeepsReads};
ghost use Rattle.node_store.specs.Disks.{view_of};
ghost use Rattle.node_core.specs.Nodes.{IsNodeOf};
ghost use Rattle.node_core.specs.Spelling.{CanBeTaken};
ghost use Rattle.node_core.specs.Works.{LeavesUp};
ghost use Rattle.node_core.specs.Hearing.{HearsLetter};
ghost use Rattle.whole_node.specs.Nodes.{joint_seen, WholeWorks};
ghost use Rattle.whole_node.specs.Following.{FollowsLetter};
ghost use Rattle.whole_node.specs.Hearing.{FitsMaps, HearsOfMaps};

use crate::hearing::is_of_maps;
use crate::node::WholeNode;
use io_edge::Disk;
use mail_base::Letter;
use node_core::{NodeFault, Outbox};
use std::alloc::Global;

impl WholeNode {
    /// Hears a letter that is for this node, or throws it, but for those of calls that read (`hear_read`). One of messages goes the way
    /// of `Node::hear`, and the copies that it speaks of are noted; one of membership or maps is heard as `hear_maps` hears it.
    ///
    /// # Errors
    ///
    /// It is never `Worn`.
    pub fn hear<D: Disk>(
        &mut self,
        alloc: Global,
        disk: &mut D,
        letter: &Letter,
    ) -> Result<Outbox, NodeFault>
        requires works { WholeWorks (D.seen disk.old) self.old }
        requires kind { is_read_body letter.now.body ≡ false }
        requires spelt { CanBeTaken letter.now.body }
        requires fits { FitsMaps letter.now }
        ensures hears { IsMailBody letter.now.body → (plan : PlainPlan) (own : ℕ) → IsNodeOf plan own self.old.mail → HearsLetter (view_of D.seen D.faults D.clock) own plan.nodes letter.now self.old.mail disk.old self.new.mail disk.new result }
        ensures follows { IsMailBody letter.now.body → (plan : PlainPlan) (own : ℕ) → IsNodeOf plan own self.old.mail → FollowsLetter (λ node disk. hear own plan.nodes node disk letter.now) result self.old self.new }
        ensures maps { IsMapsBody letter.now.body → HearsOfMaps (view_of D.seen D.faults D.clock) letter.now self.old disk.old self.new disk.new result }
        ensures beside { LeavesUp result → KeepsReads (Up (joint_seen self.old)) (joint_seen self.new) }
        ensures fits { IfOk result (λ outbox. All FitsMaps outbox.letters) }
        ensures works { LeavesUp result → WholeWorks (D.seen disk.new) self.new }
        ensures settled { LeavesUp result → D.settled disk.old → D.settled disk.new }
    {
        if is_of_maps(&letter.body) {
            return self.hear_maps(alloc, disk, letter);
        }
        self.hear_mail(alloc, disk, letter)
    }
}
