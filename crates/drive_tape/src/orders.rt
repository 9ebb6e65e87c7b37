// Whether a run line that moves the cluster may do so.
ghost use Rattle.std.specs.Prelude.{◌≤◌};
ghost use Rattle.mail_model.specs.Tape.{ClusterOrder as AnOrder};
ghost use Rattle.tape_lines.specs.ClusterOrders.{cluster_order_seen};
ghost use Rattle.cluster_world.specs.Worlds.{life_of};
ghost use Rattle.drive_tape.specs.Orders.{AdmitsNode, AdmitsBy, AdmitsWorker, Admits};
ghost use Rattle.drive_tape.specs.Worlds.{WorldIsReady};
ghost use Rattle.session_model.specs.Run.{work_fault, start_fault, loss_fault};

use crate::TapeFault;
use cluster_world::World;
use io_edge::Disk;
use mail_base::{MsgId, Name, NodeNo, Plan};
use tape_lines::ClusterOrder;

/// A run line that moves the cluster, whose nodes are there.
#[derive(Debug, Drop)]
pub(crate) enum Admitted {
    /// A node stops.
    Crash(NodeNo),
    /// A node starts again.
    Start(NodeNo),
    /// A node is lost.
    Lose(NodeNo),
    /// A letter is posted, and stays in flight or not.
    Post {
        letter: u64,
        keep: bool,
    },
    /// A letter is dropped.
    Drop(u64),
    /// All letters are posted.
    Flow,
    /// A node pushes what it owes to each other.
    Push(NodeNo),
    /// A copy of a message gets a target more.
    Widen {
        at: NodeNo,
        user: Name,
        id: MsgId,
        to: NodeNo,
    },
    /// A node opens a group.
    Group(NodeNo),
    /// A node concludes its group.
    Conclude(NodeNo),
    /// A node forms the next epoch.
    Regroup(NodeNo),
    /// A node reports its rows to each other member of its epoch.
    Report(NodeNo),
    /// The cluster settles.
    Settle,
    /// It is asked which nodes have mail of the user.
    Maps(Name),
    /// The clock is set.
    Tick(u64),
    /// The entries of the book are counted.
    Sum,
}

/// The node of this number, where the plan has it.
pub(crate) fn node_of(plan: &Plan, number: u64) -> Result<NodeNo, TapeFault>
    requires { plan.now.nodes ≤ 16 }
    ensures { AdmitsNode plan.now number result }
{
    if number > u64::from(plan.nodes) {
        return Err(TapeFault::NoSuchNode);
    }
    match NodeNo::new(number as u8) {
        Some(node) => Ok(node),
        None => Err(TapeFault::NoSuchNode),
    }
}

// That the node is up; or that it is lost, or down.
fn works<D: Disk>(world: &World<D>, node: NodeNo) -> Result<(), TapeFault>
    ensures { AdmitsBy work_fault (life_of world.now node) result }
{
    if world.is_lost(node) {
        return Err(TapeFault::NodeLost);
    }
    if !world.is_up(node) {
        return Err(TapeFault::NodeDown);
    }
    Ok(())
}

// That the node is down; or that it is lost, or up.
fn may_start<D: Disk>(world: &World<D>, node: NodeNo) -> Result<(), TapeFault>
    ensures { AdmitsBy start_fault (life_of world.now node) result }
{
    if world.is_lost(node) {
        return Err(TapeFault::NodeLost);
    }
    if world.is_up(node) {
        return Err(TapeFault::NodeUp);
    }
    Ok(())
}

// That the node is not lost.
fn is_there<D: Disk>(world: &World<D>, node: NodeNo) -> Result<(), TapeFault>
    ensures { AdmitsBy loss_fault (life_of world.now node) result }
{
    if world.is_lost(node) {
        return Err(TapeFault::NodeLost);
    }
    Ok(())
}

/// The node of this number, where the plan has it, and it is up.
pub(crate) fn worker<D: Disk>(world: &World<D>, number: u64) -> Result<NodeNo, TapeFault>
    requires { WorldIsReady D.seen D.settled world.now }
    ensures { AdmitsWorker work_fault world.now number result }
{
    let node = node_of(world.plan(), number)?;
    works(world, node)?;
    Ok(node)
}

// The node of this number, where the plan has it, and it is down.
fn starter<D: Disk>(world: &World<D>, number: u64) -> Result<NodeNo, TapeFault>
    requires { WorldIsReady D.seen D.settled world.now }
    ensures { AdmitsWorker start_fault world.now number result }
{
    let node = node_of(world.plan(), number)?;
    may_start(world, node)?;
    Ok(node)
}

// The node of this number, where the plan has it, and it is not lost.
fn loser<D: Disk>(world: &World<D>, number: u64) -> Result<NodeNo, TapeFault>
    requires { WorldIsReady D.seen D.settled world.now }
    ensures { AdmitsWorker loss_fault world.now number result }
{
    let node = node_of(world.plan(), number)?;
    is_there(world, node)?;
    Ok(node)
}

// A copy of this user's gets a target more.
fn widen<D: Disk>(
    world: &World<D>,
    at: u64,
    user: Name,
    id: MsgId,
    to: u64,
) -> Result<Admitted, TapeFault>
    requires { WorldIsReady D.seen D.settled world.now }
    ensures { Admits world.now (AnOrder.Widen at user id to) result }
{
    if !world.plan().users.has(&user) {
        return Err(TapeFault::BadLine);
    }
    let at = node_of(world.plan(), at)?;
    let to = node_of(world.plan(), to)?;
    works(world, at)?;
    Ok(Admitted::Widen { at, user, id, to })
}

// It is asked which nodes have mail of this user.
fn map<D: Disk>(world: &World<D>, user: Name) -> Result<Admitted, TapeFault>
    ensures { Admits world.now (AnOrder.Maps user) result }
{
    if !world.plan().users.has(&user) {
        return Err(TapeFault::BadLine);
    }
    Ok(Admitted::Maps(user))
}

/// The order, where its nodes are there and are as they have to be.
///
/// # Errors
///
/// The first fault that applies: a user whom the plan has not, a node that it has not, and how a node is.
pub(crate) fn admit<D: Disk>(world: &World<D>, order: ClusterOrder) -> Result<Admitted, TapeFault>
    requires { WorldIsReady D.seen D.settled world.now }
    ensures { Admits world.now (cluster_order_seen order) result }
{
    match order {
        ClusterOrder::Crash { node } => Ok(Admitted::Crash(worker(world, node)?)),
        ClusterOrder::Start { node } => Ok(Admitted::Start(starter(world, node)?)),
        ClusterOrder::Lose { node } => Ok(Admitted::Lose(loser(world, node)?)),
        ClusterOrder::Post { letter } => Ok(Admitted::Post {
            letter,
            keep: false,
        }),
        ClusterOrder::Again { letter } => Ok(Admitted::Post { letter, keep: true }),
        ClusterOrder::Drop { letter } => Ok(Admitted::Drop(letter)),
        ClusterOrder::Flow => Ok(Admitted::Flow),
        ClusterOrder::Push { node } => Ok(Admitted::Push(node_of(world.plan(), node)?)),
        ClusterOrder::Widen { at, user, id, to } => widen(world, at, user, id, to),
        ClusterOrder::Group { node } => Ok(Admitted::Group(worker(world, node)?)),
        ClusterOrder::Conclude { node } => Ok(Admitted::Conclude(worker(world, node)?)),
        ClusterOrder::Regroup { node } => Ok(Admitted::Regroup(worker(world, node)?)),
        ClusterOrder::Report { node } => Ok(Admitted::Report(node_of(world.plan(), node)?)),
        ClusterOrder::Settle => Ok(Admitted::Settle),
        ClusterOrder::Maps { user } => map(world, user),
        ClusterOrder::Tick { seconds } => Ok(Admitted::Tick(seconds)),
        ClusterOrder::Sum => Ok(Admitted::Sum),
    }
}
