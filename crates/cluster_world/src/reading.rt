//! What a node that is up does for calls that read, with its disk.
ghost use Rattle.std.specs.Prelude.{◌≡◌, ℕ, true};
ghost use Rattle.mail_model.specs.Plan.{Plan as PlainPlan};
ghost use Rattle.object_model.specs.Letters.{is_read_body};
ghost use Rattle.node_store.specs.Disks.{view_of};
ghost use Rattle.node_core.specs.Nodes.{IsNodeOf};
ghost use Rattle.node_core.specs.Works.{LeavesUp};
ghost use Rattle.whole_node.specs.Nodes.{WholeWorks};
ghost use Rattle.whole_node.specs.Reading.{HearsRead};
ghost use Rattle.whole_node.specs.declared.node.WholeNode.{WholeNode as AWholeNode};
ghost use Rattle.cluster_world.specs.ReadPosts.{ReadTurns};
ghost use Rattle.cluster_world.specs.declared.life.Life.TheVariants as lives;

use crate::life::Life;
use crate::working::settle;
use io_edge::Disk;
use mail_base::{Letter, Users};
use node_core::{NodeFault, Outbox};
use std::alloc::Global;

/// A node that is up hears a letter of a call that reads.
pub(crate) fn hear_read_at<D: Disk>(
    alloc: Global,
    life: &mut Life,
    disk: &mut D,
    users: &Users,
    letter: &Letter,
) -> Result<Outbox, NodeFault>
    requires up { (node : AWholeNode) × (life.old ≡ lives.Up node) × WholeWorks (D.seen disk.old) node }
    requires kind { is_read_body letter.now.body ≡ true }
    ensures turns { ReadTurns D.seen (λ result old before new after. (plan : PlainPlan) (own : ℕ) → IsNodeOf plan own old.mail → users.now ≡ plan.users → HearsRead (view_of D.seen D.faults D.clock) plan own old before new after letter.now result)
        result life.old disk.old life.new disk.new }
    ensures settled { LeavesUp result → D.settled disk.old → D.settled disk.new }
{
    let done = match life {
        Life::Up(node) => node.hear_read(alloc, disk, users, letter),
        Life::Down | Life::Lost => unreachable!(),
    };
    settle(life, &done);
    done
}
