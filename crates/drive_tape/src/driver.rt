// Drives a cluster by the run lines of a tape.
ghost use Rattle.std.specs.Prelude.{◌≡◌, ◌≤◌, ◌<◌, ◌^◌, OnOk, IsErrOf};
ghost use Rattle.io_edge.specs.Causes.{Rose};
ghost use Rattle.node_store.specs.Disks.{view_of};
ghost use Rattle.cluster_world.specs.Worlds.{CanMakeSteps, state_of, plan_of};
ghost use Rattle.cluster_world.specs.Steps.{AreSettled};
ghost use Rattle.cluster_world.specs.Opens.{IsAtBeginning};
ghost use Rattle.cluster_world.specs.declared.world.World.{World as AWorld};
ghost use Rattle.drive_tape.specs.Drive.{Drives, stop_of, NamesLine};
ghost use Rattle.drive_tape.specs.Lines.{LineDid};
ghost use Rattle.drive_tape.specs.Points.{Point, IsAtPoint, IsOnTime};
ghost use Rattle.drive_tape.specs.Runs.{Turned};
ghost use Rattle.drive_tape.specs.Worlds.{WorldIsReady};
ghost use Rattle.drive_tape.specs.Moving.{AreEven};

use crate::cluster::Cluster;
use crate::lines::{close_line, feed_line, give_up_line, move_line, open_line, say_line};
use crate::reader::next_line;
use crate::sessions::Sessions;
use crate::{Drove, LineStop, Stop, TapeFault, WriteStop};
use cluster_world::World;
use io_edge::{Disk, Sink};
use line_source::LineSource;
use std::alloc::{AllocError, Global};
use tape_lines::{Order, read_order};

/// How many octets of a tape may be taken after `go`. A plan part has at most 4,101 lines, and so never as many.
pub const TAPE_OCTETS: u64 = 1_099_511_627_776;

impl From<LineStop> for Stop {
    ghost use Rattle.std.specs.Prelude.{◌≡◌};
    ghost use Rattle.drive_tape.specs.Stops.{of_line};

    ghost from_gives = { λ why stop. stop ≡ of_line why };

    fn from(why: LineStop) -> Stop {
        match why {
            LineStop::ReadFault => Stop::ReadFault,
            LineStop::EndedEarly => Stop::Bad(TapeFault::BadLine),
            LineStop::LongLine => Stop::Bad(TapeFault::BadLine),
            LineStop::TooLong => Stop::Bad(TapeFault::TapeTooLong),
            LineStop::NoMemory => Stop::NoMemory,
        }
    }
}

impl From<WriteStop> for Stop {
    ghost use Rattle.std.specs.Prelude.{◌≡◌};
    ghost use Rattle.drive_tape.specs.Stops.{of_write};

    ghost from_gives = { λ why stop. stop ≡ of_write why };

    fn from(why: WriteStop) -> Stop {
        match why {
            WriteStop::WriteFault => Stop::WriteFault,
            WriteStop::NoMemory => Stop::NoMemory,
        }
    }
}

impl From<AllocError> for Stop {
    ghost use Rattle.std.specs.Prelude.{◌≡◌};
    ghost use Rattle.drive_tape.specs.declared.drove.Stop.TheVariants.{NoMemory};

    ghost from_gives = { λ _ stop. stop ≡ NoMemory };

    fn from(_: AllocError) -> Stop {
        Stop::NoMemory
    }
}

// The answer for a stop at the line of this number.
pub(crate) fn at_line(stop: Stop, number: u64) -> Drove
    ensures stop { stop_of result ≡ stop }
    ensures number { NamesLine result number }
{
    match stop {
        Stop::Ended => Drove::Ended,
        Stop::ReadFault => Drove::ReadFault,
        Stop::WriteFault => Drove::WriteFault(number),
        Stop::Bad(fault) => Drove::BadTape(number, fault),
        Stop::NoMemory => Drove::NoMemory(number),
    }
}

// One run line, without its LF.
fn handle<D: Disk, K: Sink>(
    cluster: &mut Cluster<D>,
    alloc: Global,
    sink: &mut K,
    line: &[u8],
) -> Result<(), Stop>
    requires ready { WorldIsReady D.seen D.settled cluster.old.world }
    requires even { AreEven cluster.old.sessions }
    ensures ready { WorldIsReady D.seen D.settled cluster.new.world }
    ensures plan { plan_of cluster.new.world ≡ plan_of cluster.old.world }
    ensures even { OnOk result (AreEven cluster.new.sessions) }
    ensures did { (start : AWorld D) (p : Point) → IsAtPoint (view_of D.seen D.faults D.clock) start (plan_of cluster.old.world) cluster.old p → IsOnTime cluster.old.world p
        → p.held ≡ K.contents sink.old → LineDid (view_of D.seen D.faults D.clock) start (plan_of cluster.old.world) p line.now result (K.contents sink.new) cluster.new }
    ensures later { K.faults sink.old ≤ K.faults sink.new }
    ensures failed { IsErrOf result Stop.WriteFault → Rose (K.faults sink.old) (K.faults sink.new) }
{
    let Some(order) = read_order(alloc, line)? else {
        return Err(Stop::Bad(TapeFault::BadLine));
    };
    match order {
        Order::Open { protocol, node } => open_line(cluster, alloc, sink, protocol, node),
        Order::Say { session, text } => say_line(cluster, alloc, sink, session, text),
        Order::Feed { session, octets } => feed_line(cluster, alloc, sink, session, &octets),
        Order::Close { session } => close_line(cluster, alloc, sink, session),
        Order::GiveUp { session } => give_up_line(cluster, alloc, sink, session),
        Order::Moves(order) => move_line(cluster, alloc, sink, order),
        Order::End => Err(Stop::Ended),
    }
}

// A line is read and handled.
fn turn<S: LineSource, K: Sink, D: Disk>(
    alloc: Global,
    source: &mut S,
    sink: &mut K,
    room: &mut u64,
    cluster: &mut Cluster<D>,
) -> Result<(), Stop>
    requires ready { WorldIsReady D.seen D.settled cluster.old.world }
    requires even { AreEven cluster.old.sessions }
    ensures ready { WorldIsReady D.seen D.settled cluster.new.world }
    ensures plan { plan_of cluster.new.world ≡ plan_of cluster.old.world }
    ensures even { OnOk result (AreEven cluster.new.sessions) }
    ensures turned { (start : AWorld D) (p : Point) → IsAtPoint (view_of D.seen D.faults D.clock) start (plan_of cluster.old.world) cluster.old p → IsOnTime cluster.old.world p → p.held ≡ K.contents sink.old
        → Turned (view_of D.seen D.faults D.clock) start (plan_of cluster.old.world) p result (S.left source.old) (S.left source.new) room.old room.new (K.contents sink.new) cluster.old cluster.new }
    ensures less { OnOk result (room.new < room.old) }
    ensures read_later { S.faults source.old ≤ S.faults source.new }
    ensures write_later { K.faults sink.old ≤ K.faults sink.new }
    ensures read_fault { (start : AWorld D) (p : Point) → IsAtPoint (view_of D.seen D.faults D.clock) start (plan_of cluster.old.world) cluster.old p → IsOnTime cluster.old.world p → p.held ≡ K.contents sink.old
        → IsErrOf result Stop.ReadFault → Rose (S.faults source.old) (S.faults source.new) }
    ensures write_fault { IsErrOf result Stop.WriteFault → Rose (K.faults sink.old) (K.faults sink.new) }
{
    let line = next_line(alloc, source, room)?;
    handle(cluster, alloc, sink, line.octets())
}

/// Drives the world by run lines until `end` or a stop; `from` lines of the tape came before them. The world comes back.
/// No octet after the last line that is handled is read, and what a line gives is written before the next one is read.
///
/// The answer is `Ended` after the line `end`. `BadTape(n, fault)` comes where line n is refused, and nothing is done for
/// it; `ReadFault` where the source failed before a line was whole; `WriteFault(n)` where the sink failed at what line n
/// gives, of which a prefix was written; `NoMemory(n)` where memory ran out at line n, which may be done in part.
pub fn drive<S: LineSource, K: Sink, D: Disk>(
    alloc: Global,
    source: &mut S,
    sink: &mut K,
    world: World<D>,
    from: u64,
) -> (Drove, World<D>)
    requires nodes { (plan_of world).nodes ≤ 16 }
    requires ready { CanMakeSteps D.seen world }
    requires settled { AreSettled D.settled (state_of world) }
    requires few { from < 2 ^ 63 }
    ensures drives { IsAtBeginning (view_of D.seen D.faults D.clock) (plan_of world) world → Drives (view_of D.seen D.faults D.clock) world (S.left source.old) (S.left source.new) (K.contents sink.old) (K.contents sink.new) result.0 from result.1 }
    ensures ready { CanMakeSteps D.seen result.1 }
    ensures settled { AreSettled D.settled (state_of result.1) }
    ensures plan { plan_of result.1 ≡ plan_of world }
    ensures read_later { S.faults source.old ≤ S.faults source.new }
    ensures write_later { K.faults sink.old ≤ K.faults sink.new }
    ensures read_fault { IsAtBeginning (view_of D.seen D.faults D.clock) (plan_of world) world → stop_of result.0 ≡ Stop.ReadFault → Rose (S.faults source.old) (S.faults source.new) }
    ensures write_fault { stop_of result.0 ≡ Stop.WriteFault → Rose (K.faults sink.old) (K.faults sink.new) }
{
    let mut cluster = Cluster {
        world,
        sessions: Sessions::new(alloc),
    };
    let mut room = TAPE_OCTETS;
    let mut handled: u64 = 0;
    loop {
        match turn(alloc, source, sink, &mut room, &mut cluster) {
            Ok(()) => handled += 1,
            Err(stop) => return (at_line(stop, from + handled + 1), cluster.world),
        }
    }
}
