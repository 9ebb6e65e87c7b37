//! What a node that is up does with its disk, and how its life then is.
ghost use Rattle.std.specs.Prelude.{◌≡◌, ◌≤◌, ◌<◌, ℕ, All, false, IfOk, IfSome, if◌then◌else◌};
ghost use Rattle.mail_model.specs.Plan.{Plan as PlainPlan};
ghost use Rattle.mail_model.specs.Identity.Key.{Message};
ghost use Rattle.object_model.specs.Letters.{is_read_body};
ghost use Rattle.cluster_model.specs.Rules.{widen};
ghost use Rattle.joint_world.specs.Staying.{IsMailCall};
ghost use Rattle.node_store.specs.Disks.{view_of};
ghost use Rattle.node_core.specs.Nodes.{IsNodeOf};
ghost use Rattle.node_core.specs.Works.{LeavesUp};
ghost use Rattle.node_core.specs.Beginning.{NodeBegins, IsTextEnded, call_seen};
ghost use Rattle.node_core.specs.Pushing.{PushesOut, WidensCopy};
ghost use Rattle.whole_node.specs.Nodes.{WholeWorks};
ghost use Rattle.whole_node.specs.Following.{FollowsRule, FollowsCall};
ghost use Rattle.whole_node.specs.Grouping.{OpensGroup, ConcludesGroup};
ghost use Rattle.whole_node.specs.Hearing.{FitsMaps};
ghost use Rattle.whole_node.specs.declared.node.WholeNode.{WholeNode as AWholeNode};
ghost use Rattle.cluster_world.specs.Forms.{GroupsSo, ConcludesGroupSo};
ghost use Rattle.cluster_world.specs.Hears.{CanBeHeard, AllCanBeHeard, HearsAny, HearsWhole};
ghost use Rattle.cluster_world.specs.Turning.{TurnsBy, life_left};
ghost use Rattle.cluster_world.specs.declared.life.Life.TheVariants as lives;

use crate::life::Life;
use call_tickets::Call;
use io_edge::Disk;
use mail_base::{Letter, MsgId, Name, NodeNo, Ticket};
use node_core::{NodeFault, Outbox};
use node_maps::Concluded;
use std::alloc::Global;
use whole_node::Grouped;

/// Whether the node has to go down after this.
fn goes_down<T>(did: &Result<T, NodeFault>) -> bool
    ensures { (node : AWholeNode) → life_left did.now node ≡ (if result then lives.Down else lives.Up node) }
{
    match did {
        Ok(_) => false,
        Err(NodeFault::Disk) => true,
        Err(NodeFault::Worn) => false,
        Err(NodeFault::NoMemory { down }) => *down,
    }
}

/// The node goes down, if it has to.
pub(crate) fn settle<T>(life: &mut Life, did: &Result<T, NodeFault>)
    ensures { (node : AWholeNode) → life.old ≡ lives.Up node → life.new ≡ life_left did.now node }
{
    if goes_down(did) {
        *life = Life::Down;
    }
}

/// A node that is up hears a letter, but for those of calls that read.
pub(crate) fn hear_at<D: Disk>(
    alloc: Global,
    life: &mut Life,
    disk: &mut D,
    letter: &Letter,
) -> Result<Outbox, NodeFault>
    requires up { (node : AWholeNode) × (life.old ≡ lives.Up node) × WholeWorks (D.seen disk.old) node }
    requires kind { is_read_body letter.now.body ≡ false }
    requires fits { CanBeHeard letter.now }
    ensures turns { TurnsBy D.seen (λ result old before new after. (plan : PlainPlan) (own : ℕ) → IsNodeOf plan own old → HearsAny (view_of D.seen D.faults D.clock) own plan.nodes letter.now old before new after result)
        (λ result old before new after. (plan : PlainPlan) (own : ℕ) → IsNodeOf plan own old.mail → HearsWhole (view_of D.seen D.faults D.clock) own plan.nodes letter.now result old before new after)
        result life.old disk.old life.new disk.new }
    ensures fits { IfOk result (λ outbox. All FitsMaps outbox.letters) }
    ensures settled { LeavesUp result → D.settled disk.old → D.settled disk.new }
{
    let done = match life {
        Life::Up(node) => node.hear(alloc, disk, letter),
        Life::Down | Life::Lost => unreachable!(),
    };
    settle(life, &done);
    done
}

/// A node that is up begins a call of messages.
pub(crate) fn begin_at<D: Disk>(
    alloc: Global,
    life: &mut Life,
    disk: &mut D,
    call: Call,
    seconds: u64,
) -> Result<(Option<Ticket>, Outbox), NodeFault>
    requires up { (node : AWholeNode) × (life.old ≡ lives.Up node) × WholeWorks (D.seen disk.old) node }
    requires mail { IsMailCall (call_seen call) }
    requires ended { IsTextEnded (call_seen call) }
    ensures turns { TurnsBy D.seen (λ result old before new after. (plan : PlainPlan) (own : ℕ) → IsNodeOf plan own old → IsTextEnded (call_seen call) → NodeBegins (view_of D.seen D.faults D.clock) plan own seconds (call_seen call) old before new after result)
        (λ result old before new after. (plan : PlainPlan) (own : ℕ) → IsNodeOf plan own old.mail → FollowsCall (view_of D.seen D.faults D.clock) plan own seconds (call_seen call) result old before new after)
        result life.old disk.old life.new disk.new }
    ensures fits { IfOk result (λ begun. All FitsMaps (begun.1).letters) }
    ensures settled { LeavesUp result → D.settled disk.old → D.settled disk.new }
{
    let done = match life {
        Life::Up(node) => node.begin(alloc, disk, call, seconds),
        Life::Down | Life::Lost => unreachable!(),
    };
    settle(life, &done);
    done
}

/// A node that is up gives a copy a target more.
pub(crate) fn widen_at<D: Disk>(
    alloc: Global,
    life: &mut Life,
    disk: &mut D,
    user: &Name,
    id: MsgId,
    to: NodeNo,
) -> Result<bool, NodeFault>
    requires up { (node : AWholeNode) × (life.old ≡ lives.Up node) × WholeWorks (D.seen disk.old) node }
    ensures turns { TurnsBy D.seen (λ result old before new after. (plan : PlainPlan) (own : ℕ) → IsNodeOf plan own old → WidensCopy (view_of D.seen D.faults D.clock) own to (Message user.now id) old before new after result)
        (λ result old before new after. (plan : PlainPlan) (own : ℕ) → IsNodeOf plan own old.mail → FollowsRule (λ node disk. widen own to (Message user.now id) node disk) result old new)
        result life.old disk.old life.new disk.new }
    ensures settled { LeavesUp result → D.settled disk.old → D.settled disk.new }
{
    let done = match life {
        Life::Up(node) => node.widen(alloc, disk, user, id, to),
        Life::Down | Life::Lost => unreachable!(),
    };
    settle(life, &done);
    done
}

/// A node that is up pushes to another.
pub(crate) fn push_at<D: Disk>(
    alloc: Global,
    life: &mut Life,
    disk: &mut D,
    to: NodeNo,
    most: usize,
    room: u64,
) -> Result<Outbox, NodeFault>
    requires up { (node : AWholeNode) × (life.old ≡ lives.Up node) × WholeWorks (D.seen disk.old) node }
    ensures turns { TurnsBy D.seen (λ result old before new after. (plan : PlainPlan) (own : ℕ) → IsNodeOf plan own old → PushesOut (view_of D.seen D.faults D.clock) own to most room old before new after result)
        (λ result old before new after. (plan : PlainPlan) (own : ℕ) → IsNodeOf plan own old.mail → new.maps ≡ old.maps)
        result life.old disk.old life.new disk.new }
    ensures fits { IfOk result (λ outbox. All FitsMaps outbox.letters) }
    ensures settled { D.settled disk.old → D.settled disk.new }
{
    let done = match life {
        Life::Up(node) => node.push(alloc, disk, to, most, room),
        Life::Down | Life::Lost => unreachable!(),
    };
    settle(life, &done);
    done
}

/// A node that is up opens a group over a plan of so many nodes.
pub(crate) fn open_at<D: Disk>(
    alloc: Global,
    life: &mut Life,
    disk: &mut D,
    nodes: u8,
) -> Result<Grouped, NodeFault>
    requires up { (node : AWholeNode) × (life.old ≡ lives.Up node) × WholeWorks (D.seen disk.old) node }
    requires few { nodes ≤ 16 }
    ensures turns { TurnsBy D.seen (λ result old before new after. GroupsSo (view_of D.seen D.faults D.clock) result old before new after)
        (λ result old before new after. OpensGroup (view_of D.seen D.faults D.clock) nodes old before new after result)
        result life.old disk.old life.new disk.new }
    ensures sent { IfOk result (λ done. AllCanBeHeard done.letters) }
    ensures settled { LeavesUp result → D.settled disk.old → D.settled disk.new }
{
    let done = match life {
        Life::Up(node) => node.open_group(alloc, disk, nodes),
        Life::Down | Life::Lost => unreachable!(),
    };
    settle(life, &done);
    done
}

/// A node that is up concludes the group that it has open, if it has one.
pub(crate) fn conclude_at<D: Disk>(
    alloc: Global,
    life: &mut Life,
    disk: &D,
    buckets: u32,
) -> Result<Option<Concluded>, NodeFault>
    requires up { (node : AWholeNode) × (life.old ≡ lives.Up node) × WholeWorks (D.seen disk.now) node }
    requires some { 0 < buckets }
    ensures turns { TurnsBy D.seen (λ result old before new after. ConcludesGroupSo (view_of D.seen D.faults D.clock) result old before new after)
        (λ result old before new after. ConcludesGroup buckets result old new)
        result life.old disk.now life.new disk.now }
    ensures sent { IfOk result (λ done. IfSome done (λ concluded. AllCanBeHeard concluded.letters)) }
{
    let done = match life {
        Life::Up(node) => node.conclude(alloc, buckets),
        Life::Down | Life::Lost => unreachable!(),
    };
    settle(life, &done);
    done
}
