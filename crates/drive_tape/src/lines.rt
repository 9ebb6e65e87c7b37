// The run lines of a tape, each until nothing of it is under way.
ghost use Rattle.std.specs.Prelude.{◌≡◌, ◌+◌, ◌<◌, ◌≤◌, ℕ, List, length, true, Some, Ok, IsErrOf, OnOk, slice_get};
ghost use Rattle.io_edge.specs.Causes.{Rose};
ghost use Rattle.mail_model.specs.Tape.{tape_order, Order as AnOrder};
ghost use Rattle.mail_model.specs.Plan.{Plan};
ghost use Rattle.tape_lines.specs.Orders.{protocol_seen};
ghost use Rattle.tape_lines.specs.ClusterOrders.{cluster_order_seen};
ghost use Rattle.node_store.specs.Disks.{view_of};
ghost use Rattle.cluster_world.specs.Worlds.{plan_of};
ghost use Rattle.cluster_world.specs.declared.world.World.{World as AWorld};
ghost use Rattle.drive_tape.specs.Clusters.{RestsAt, MovedTo};
ghost use Rattle.drive_tape.specs.declared.drove.Stop.{Stop as Why};
ghost use Rattle.drive_tape.specs.Points.{Point, IsAtPoint, IsOnTime, WorkGoes};
ghost use Rattle.drive_tape.specs.Lines.{LineDid};
ghost use Rattle.drive_tape.specs.Fed.{IsFeedingAt, AdmitsSession, GaveUpCall, IsGivingUpAt, IsClosingAt, MayFallBy, Happens};
ghost use Rattle.session_model.specs.Talk.{IsOn};
ghost use Rattle.session_model.specs.Sessions.{Session};
ghost use Rattle.drive_tape.specs.Worlds.{WorldIsReady};
ghost use Rattle.drive_tape.specs.Moving.{AreEven};

use crate::calls::give_up;
use crate::cluster::Cluster;
use crate::event::{ClusterEvent, write_event};
use crate::moved::make;
use crate::orders::{admit, worker};
use crate::reply::write_reply;
use crate::{Stop, TapeFault};
use io_edge::{Disk, Sink};
use mail_base::NodeNo;
use std::alloc::Global;
use tape_lines::{ClusterOrder, Protocol};

/// How many sessions may stand.
const MOST_SESSIONS: u64 = 256;

// The node at which a session may be opened, and its boot; or why not, the first that applies.
fn admit_session<D: Disk>(cluster: &Cluster<D>, number: u64) -> Result<(NodeNo, u32), TapeFault>
    requires ready { WorldIsReady D.seen D.settled cluster.now.world }
    ensures admits { AdmitsSession (plan_of cluster.now.world) cluster.now number result }
{
    let node = worker(&cluster.world, number)?;
    let Some(boot) = cluster.world.boot(node) else {
        return Err(TapeFault::NodeDown);
    };
    if cluster.sessions.standing >= MOST_SESSIONS {
        return Err(TapeFault::TooManySessions);
    }
    Ok((node, boot))
}

/// A session is opened and greeted, at the node of this number.
///
/// # Errors
///
/// The fault of the tape where the order is refused, and then nothing is done; a fault of the sink, or out of memory.
pub(crate) fn open_line<D: Disk, K: Sink>(
    cluster: &mut Cluster<D>,
    alloc: Global,
    sink: &mut K,
    protocol: Protocol,
    node: u64,
) -> Result<(), Stop>
    requires ready { WorldIsReady D.seen D.settled cluster.old.world }
    requires even { AreEven cluster.old.sessions }
    ensures ready { WorldIsReady D.seen D.settled cluster.new.world }
    ensures plan { plan_of cluster.new.world ≡ plan_of cluster.old.world }
    ensures even { OnOk result (AreEven cluster.new.sessions) }
    ensures did { (start : AWorld D) (p : Point) (line : List ℕ) → tape_order line ≡ Some (AnOrder.Open (protocol_seen protocol) node) → IsAtPoint (view_of D.seen D.faults D.clock) start (plan_of cluster.old.world) cluster.old p
        → IsOnTime cluster.old.world p → p.held ≡ K.contents sink.old → LineDid (view_of D.seen D.faults D.clock) start (plan_of cluster.old.world) p line result (K.contents sink.new) cluster.new }
    ensures later { K.faults sink.old ≤ K.faults sink.new }
    ensures failed { IsErrOf result Stop.WriteFault → Rose (K.faults sink.old) (K.faults sink.new) }
{
    let (only, boot) = match admit_session(cluster, node) {
        Ok(found) => found,
        Err(fault) => return Err(Stop::Bad(fault)),
    };
    let number = cluster.sessions.talkers.len() as u64 + 1;
    let seconds = cluster.world.seconds();
    let mut out = Vec::new(alloc);
    cluster.sessions.open(
        alloc,
        cluster.world.plan(),
        protocol,
        only,
        boot,
        seconds,
        &mut out,
    )?;
    write_reply(alloc, sink, number, &out, false)?;
    cluster.ask_all(alloc, sink)
}

// The session at this place is given these octets, and hears.
fn feed_at<D: Disk, K: Sink>(
    cluster: &mut Cluster<D>,
    alloc: Global,
    sink: &mut K,
    place: usize,
    octets: &[u8],
) -> Result<(), Stop>
    requires ready { WorldIsReady D.seen D.settled cluster.old.world }
    requires even { AreEven cluster.old.sessions }
    requires within { place < length cluster.old.sessions.talkers.items }
    ensures ready { WorldIsReady D.seen D.settled cluster.new.world }
    ensures plan { plan_of cluster.new.world ≡ plan_of cluster.old.world }
    ensures even { OnOk result (AreEven cluster.new.sessions) }
    ensures did { (start : AWorld D) (p : Point) (line : List ℕ) → IsFeedingAt p line place octets.now → IsAtPoint (view_of D.seen D.faults D.clock) start (plan_of cluster.old.world) cluster.old p
        → p.held ≡ K.contents sink.old → LineDid (view_of D.seen D.faults D.clock) start (plan_of cluster.old.world) p line result (K.contents sink.new) cluster.new }
    ensures later { K.faults sink.old ≤ K.faults sink.new }
    ensures failed { IsErrOf result Stop.WriteFault → Rose (K.faults sink.old) (K.faults sink.new) }
{
    cluster.sessions.feed(place, octets)?;
    cluster.hear(alloc, sink, place)?;
    cluster.ask_all(alloc, sink)
}

/// A session hears the text with its CRLF.
///
/// # Errors
///
/// As `open_line`.
pub(crate) fn say_line<D: Disk, K: Sink>(
    cluster: &mut Cluster<D>,
    alloc: Global,
    sink: &mut K,
    session: u64,
    text: &[u8],
) -> Result<(), Stop>
    requires ready { WorldIsReady D.seen D.settled cluster.old.world }
    requires even { AreEven cluster.old.sessions }
    ensures ready { WorldIsReady D.seen D.settled cluster.new.world }
    ensures plan { plan_of cluster.new.world ≡ plan_of cluster.old.world }
    ensures even { OnOk result (AreEven cluster.new.sessions) }
    ensures did { (start : AWorld D) (p : Point) (line : List ℕ) → tape_order line ≡ Some (AnOrder.Say session text.now) → IsAtPoint (view_of D.seen D.faults D.clock) start (plan_of cluster.old.world) cluster.old p
        → p.held ≡ K.contents sink.old → LineDid (view_of D.seen D.faults D.clock) start (plan_of cluster.old.world) p line result (K.contents sink.new) cluster.new }
    ensures later { K.faults sink.old ≤ K.faults sink.new }
    ensures failed { IsErrOf result Stop.WriteFault → Rose (K.faults sink.old) (K.faults sink.new) }
{
    let Some(place) = cluster.sessions.find(session) else {
        return Err(Stop::Bad(TapeFault::NoSuchSession));
    };
    let mut octets = Vec::new(alloc);
    octets.extend_from_slice(text)?;
    octets.extend_from_slice(b"\r\n")?;
    feed_at(cluster, alloc, sink, place, &octets)
}

/// A session hears these octets.
///
/// # Errors
///
/// As `open_line`.
pub(crate) fn feed_line<D: Disk, K: Sink>(
    cluster: &mut Cluster<D>,
    alloc: Global,
    sink: &mut K,
    session: u64,
    octets: &[u8],
) -> Result<(), Stop>
    requires ready { WorldIsReady D.seen D.settled cluster.old.world }
    requires even { AreEven cluster.old.sessions }
    ensures ready { WorldIsReady D.seen D.settled cluster.new.world }
    ensures plan { plan_of cluster.new.world ≡ plan_of cluster.old.world }
    ensures even { OnOk result (AreEven cluster.new.sessions) }
    ensures did { (start : AWorld D) (p : Point) (line : List ℕ) → tape_order line ≡ Some (AnOrder.Feed session octets.now) → IsAtPoint (view_of D.seen D.faults D.clock) start (plan_of cluster.old.world) cluster.old p
        → p.held ≡ K.contents sink.old → LineDid (view_of D.seen D.faults D.clock) start (plan_of cluster.old.world) p line result (K.contents sink.new) cluster.new }
    ensures later { K.faults sink.old ≤ K.faults sink.new }
    ensures failed { IsErrOf result Stop.WriteFault → Rose (K.faults sink.old) (K.faults sink.new) }
{
    let Some(place) = cluster.sessions.find(session) else {
        return Err(Stop::Bad(TapeFault::NoSuchSession));
    };
    feed_at(cluster, alloc, sink, place, octets)
}

// The call of the session at this place is given up, where one is in progress. Whether it was.
fn let_go<D: Disk>(cluster: &mut Cluster<D>, alloc: Global, place: usize) -> Result<bool, Stop>
    requires ready { WorldIsReady D.seen D.settled cluster.old.world }
    requires even { AreEven cluster.old.sessions }
    requires within { place < length cluster.old.sessions.talkers.items }
    ensures ready { WorldIsReady D.seen D.settled cluster.new.world }
    ensures plan { plan_of cluster.new.world ≡ plan_of cluster.old.world }
    ensures even { AreEven cluster.new.sessions }
    ensures length { length cluster.new.sessions.talkers.items ≡ length cluster.old.sessions.talkers.items }
    ensures let_go { (start : AWorld D) (p : Point) (plain : Session) → IsAtPoint (view_of D.seen D.faults D.clock) start (plan_of cluster.old.world) cluster.old p → slice_get p.sessions place ≡ Some plain → IsOn plain.standing
        → GaveUpCall (view_of D.seen D.faults D.clock) start (plan_of cluster.old.world) p place result cluster.new }
    ensures why { IsErrOf result Stop.WriteFault → ⊥ }
{
    let Some(open_call) = cluster.sessions.calls[place].take() else {
        return Ok(false);
    };
    give_up(&mut cluster.world, alloc, &open_call)?;
    Ok(true)
}

// The session at this place, whose call is not in progress, is closed, and leaves.
fn close_at<D: Disk, K: Sink>(
    cluster: &mut Cluster<D>,
    alloc: Global,
    sink: &mut K,
    place: usize,
) -> Result<(), Stop>
    requires ready { WorldIsReady D.seen D.settled cluster.old.world }
    requires even { AreEven cluster.old.sessions }
    requires within { place < length cluster.old.sessions.talkers.items }
    ensures ready { WorldIsReady D.seen D.settled cluster.new.world }
    ensures plan { plan_of cluster.new.world ≡ plan_of cluster.old.world }
    ensures even { OnOk result (AreEven cluster.new.sessions) }
    ensures closed { (start : AWorld D) (p : Point) (line : List ℕ) → IsClosingAt (view_of D.seen D.faults D.clock) start (plan_of cluster.old.world) p line place cluster.old
        → p.held ≡ K.contents sink.old → LineDid (view_of D.seen D.faults D.clock) start (plan_of cluster.old.world) p line result (K.contents sink.new) cluster.new }
    ensures later { K.faults sink.old ≤ K.faults sink.new }
    ensures failed { IsErrOf result Stop.WriteFault → Rose (K.faults sink.old) (K.faults sink.new) }
{
    let call = cluster.sessions.close(place);
    cluster.leave(alloc, place, call)?;
    cluster.ask_all(alloc, sink)
}

/// A session is closed by its client, and leaves. A call of it that is in progress is given up first.
///
/// # Errors
///
/// As `open_line`.
pub(crate) fn close_line<D: Disk, K: Sink>(
    cluster: &mut Cluster<D>,
    alloc: Global,
    sink: &mut K,
    session: u64,
) -> Result<(), Stop>
    requires ready { WorldIsReady D.seen D.settled cluster.old.world }
    requires even { AreEven cluster.old.sessions }
    ensures ready { WorldIsReady D.seen D.settled cluster.new.world }
    ensures plan { plan_of cluster.new.world ≡ plan_of cluster.old.world }
    ensures even { OnOk result (AreEven cluster.new.sessions) }
    ensures did { (start : AWorld D) (p : Point) (line : List ℕ) → tape_order line ≡ Some (AnOrder.Close session) → IsAtPoint (view_of D.seen D.faults D.clock) start (plan_of cluster.old.world) cluster.old p
        → p.held ≡ K.contents sink.old → LineDid (view_of D.seen D.faults D.clock) start (plan_of cluster.old.world) p line result (K.contents sink.new) cluster.new }
    ensures later { K.faults sink.old ≤ K.faults sink.new }
    ensures failed { IsErrOf result Stop.WriteFault → Rose (K.faults sink.old) (K.faults sink.new) }
{
    let Some(place) = cluster.sessions.find(session) else {
        return Err(Stop::Bad(TapeFault::NoSuchSession));
    };
    let_go(cluster, alloc, place)?;
    close_at(cluster, alloc, sink, place)
}

// The session at this place hears on, or rests.
fn hear_on<D: Disk, K: Sink>(
    cluster: &mut Cluster<D>,
    alloc: Global,
    sink: &mut K,
    place: usize,
    goes_on: bool,
) -> Result<(), Stop>
    requires ready { WorldIsReady D.seen D.settled cluster.old.world }
    requires even { AreEven cluster.old.sessions }
    requires within { place < length cluster.old.sessions.talkers.items }
    ensures ready { WorldIsReady D.seen D.settled cluster.new.world }
    ensures plan { plan_of cluster.new.world ≡ plan_of cluster.old.world }
    ensures even { AreEven cluster.new.sessions }
    ensures heard { (start : AWorld D) (p : Point) (onward : ℕ) → IsAtPoint (view_of D.seen D.faults D.clock) start (plan_of cluster.old.world) cluster.old p → p.held ≡ K.contents sink.old → MovedTo {E = Why} place onward (Ok goes_on) p
        → WorkGoes (view_of D.seen D.faults D.clock) start (plan_of cluster.old.world) p (RestsAt onward) result (K.contents sink.new) cluster.new }
    ensures later { K.faults sink.old ≤ K.faults sink.new }
    ensures failed { IsErrOf result Stop.WriteFault → Rose (K.faults sink.old) (K.faults sink.new) }
{
    if goes_on {
        return cluster.hear(alloc, sink, place);
    }
    Ok(())
}

// The session at this place, whose call was given up, is told so, and hears on.
fn told_at<D: Disk, K: Sink>(
    cluster: &mut Cluster<D>,
    alloc: Global,
    sink: &mut K,
    place: usize,
) -> Result<(), Stop>
    requires ready { WorldIsReady D.seen D.settled cluster.old.world }
    requires even { AreEven cluster.old.sessions }
    requires within { place < length cluster.old.sessions.talkers.items }
    ensures ready { WorldIsReady D.seen D.settled cluster.new.world }
    ensures plan { plan_of cluster.new.world ≡ plan_of cluster.old.world }
    ensures even { OnOk result (AreEven cluster.new.sessions) }
    ensures told { (start : AWorld D) (p : Point) (line : List ℕ) → IsGivingUpAt (view_of D.seen D.faults D.clock) start (plan_of cluster.old.world) p line place cluster.old
        → p.held ≡ K.contents sink.old → LineDid (view_of D.seen D.faults D.clock) start (plan_of cluster.old.world) p line result (K.contents sink.new) cluster.new }
    ensures later { K.faults sink.old ≤ K.faults sink.new }
    ensures failed { IsErrOf result Stop.WriteFault → Rose (K.faults sink.old) (K.faults sink.new) }
{
    let mut out = Vec::new(alloc);
    let after = cluster
        .sessions
        .reply(alloc, cluster.world.plan(), place, None, &mut out)?;
    let goes_on = cluster.say(alloc, sink, place, &out, after)?;
    hear_on(cluster, alloc, sink, place, goes_on)?;
    cluster.ask_all(alloc, sink)
}

/// The call that a session waits for is given up.
///
/// # Errors
///
/// As `open_line`; and the fault of the step, where it is refused.
pub(crate) fn give_up_line<D: Disk, K: Sink>(
    cluster: &mut Cluster<D>,
    alloc: Global,
    sink: &mut K,
    session: u64,
) -> Result<(), Stop>
    requires ready { WorldIsReady D.seen D.settled cluster.old.world }
    requires even { AreEven cluster.old.sessions }
    ensures ready { WorldIsReady D.seen D.settled cluster.new.world }
    ensures plan { plan_of cluster.new.world ≡ plan_of cluster.old.world }
    ensures even { OnOk result (AreEven cluster.new.sessions) }
    ensures did { (start : AWorld D) (p : Point) (line : List ℕ) → tape_order line ≡ Some (AnOrder.GiveUp session) → IsAtPoint (view_of D.seen D.faults D.clock) start (plan_of cluster.old.world) cluster.old p
        → p.held ≡ K.contents sink.old → LineDid (view_of D.seen D.faults D.clock) start (plan_of cluster.old.world) p line result (K.contents sink.new) cluster.new }
    ensures later { K.faults sink.old ≤ K.faults sink.new }
    ensures failed { IsErrOf result Stop.WriteFault → Rose (K.faults sink.old) (K.faults sink.new) }
{
    let Some(place) = cluster.sessions.find(session) else {
        return Err(Stop::Bad(TapeFault::NoSuchSession));
    };
    if !let_go(cluster, alloc, place)? {
        return Err(Stop::Bad(TapeFault::BadLine));
    }
    told_at(cluster, alloc, sink, place)
}

// All sessions of this node fall, where there is one.
fn fall_by<D: Disk, K: Sink>(
    cluster: &mut Cluster<D>,
    alloc: Global,
    sink: &mut K,
    fallen: Option<NodeNo>,
) -> Result<(), Stop>
    requires even { AreEven cluster.old.sessions }
    ensures world { cluster.new.world ≡ cluster.old.world }
    ensures even { AreEven cluster.new.sessions }
    ensures fell { (start : AWorld D) (plan : Plan) (p : Point) → MayFallBy (view_of D.seen D.faults D.clock) start plan p fallen cluster.old → p.held ≡ K.contents sink.old
        → WorkGoes (view_of D.seen D.faults D.clock) start plan p (RestsAt 1) result (K.contents sink.new) cluster.new }
    ensures later { K.faults sink.old ≤ K.faults sink.new }
    ensures failed { IsErrOf result Stop.WriteFault → Rose (K.faults sink.old) (K.faults sink.new) }
{
    match fallen {
        Some(node) => cluster.fall(alloc, sink, node),
        None => Ok(()),
    }
}

// What came of the steps of a run line is written; the sessions of a node that went down fall, and those that wait are
// asked for.
fn happen<D: Disk, K: Sink>(
    cluster: &mut Cluster<D>,
    alloc: Global,
    sink: &mut K,
    event: &ClusterEvent,
) -> Result<(), Stop>
    requires ready { WorldIsReady D.seen D.settled cluster.old.world }
    requires even { AreEven cluster.old.sessions }
    ensures ready { WorldIsReady D.seen D.settled cluster.new.world }
    ensures plan { plan_of cluster.new.world ≡ plan_of cluster.old.world }
    ensures even { OnOk result (AreEven cluster.new.sessions) }
    ensures happened { (start : AWorld D) (p : Point) (line : List ℕ) → Happens (view_of D.seen D.faults D.clock) start (plan_of cluster.old.world) p line event.now cluster.old
        → p.held ≡ K.contents sink.old → LineDid (view_of D.seen D.faults D.clock) start (plan_of cluster.old.world) p line result (K.contents sink.new) cluster.new }
    ensures later { K.faults sink.old ≤ K.faults sink.new }
    ensures failed { IsErrOf result Stop.WriteFault → Rose (K.faults sink.old) (K.faults sink.new) }
{
    write_event(alloc, sink, event)?;
    fall_by(cluster, alloc, sink, event.fallen())?;
    cluster.ask_all(alloc, sink)
}

/// The cluster itself is moved.
///
/// # Errors
///
/// As `open_line`; and the fault of a step, where it is refused.
pub(crate) fn move_line<D: Disk, K: Sink>(
    cluster: &mut Cluster<D>,
    alloc: Global,
    sink: &mut K,
    order: ClusterOrder,
) -> Result<(), Stop>
    requires ready { WorldIsReady D.seen D.settled cluster.old.world }
    requires even { AreEven cluster.old.sessions }
    ensures ready { WorldIsReady D.seen D.settled cluster.new.world }
    ensures plan { plan_of cluster.new.world ≡ plan_of cluster.old.world }
    ensures even { OnOk result (AreEven cluster.new.sessions) }
    ensures did { (start : AWorld D) (p : Point) (line : List ℕ) → tape_order line ≡ Some (AnOrder.Moves (cluster_order_seen order)) → IsAtPoint (view_of D.seen D.faults D.clock) start (plan_of cluster.old.world) cluster.old p
        → p.held ≡ K.contents sink.old → LineDid (view_of D.seen D.faults D.clock) start (plan_of cluster.old.world) p line result (K.contents sink.new) cluster.new }
    ensures later { K.faults sink.old ≤ K.faults sink.new }
    ensures failed { IsErrOf result Stop.WriteFault → Rose (K.faults sink.old) (K.faults sink.new) }
{
    let admitted = match admit(&cluster.world, order) {
        Ok(admitted) => admitted,
        Err(fault) => return Err(Stop::Bad(fault)),
    };
    let event = make(&mut cluster.world, alloc, admitted)?;
    happen(cluster, alloc, sink, &event)
}
