// Small tapes over a cluster that is open already, with what the description of tapes gives for them, what the book then has,
// and how lines are written.
ghost use Rattle.std.specs.Prelude.{◌≡◌, IfSome, IfOk, []};
ghost use Rattle.cluster_world.specs.Opens.{AreEmpty};

use super::Script;
use cluster_world::World;
use drive_tape::{Drove, Entry, Row, TapeFault, drive, read_drive_head, write_entries};
use io_edge::{Disk, PlainDisk, Sink, SliceSource, VecSink};
use line_source::LineSource;
use mail_base::Octets;
use node_disk::MemoryDisk;
use std::alloc::{AllocError, Global};
use std::process::Abort;
use std::test::Fail;
use world_book::Entry as BookEntry;

// In another order than the usual one, and with two users, who both get a message.
const MESSAGE: &[u8] = b"\
user alice a
postmaster carol
buckets 1
copies 1 1
user carol c
nodes 1
go
open smtp 1
  1 220 node1 Porcupine ready
say 1 HELO c.example
  1 250 node1
say 1 MAIL FROM:<>
  1 250 sender ok
say 1 RCPT TO:<postmaster>
  1 250 recipient ok
say 1 RCPT TO:<alice>
  1 250 recipient ok
say 1 DATA
  1 354 end with a line that is a single period
say 1 Subject: hi
say 1
say 1 hello
say 1 .
";

// What the book says: how many copies were acknowledged, were to be deleted, and were dropped, and how many times a node
// went down, came up or was lost.
#[derive(Clone, Copy, Debug, PartialEq, Eq)]
struct Counts {
    acked: u32,
    struck: u32,
    dropped: u32,
    down: u32,
    up: u32,
    lost: u32,
}

fn none() -> Counts {
    Counts {
        acked: 0,
        struck: 0,
        dropped: 0,
        down: 0,
        up: 0,
        lost: 0,
    }
}

fn counted_in(book: &[BookEntry]) -> Counts {
    let mut found = none();
    for entry in book {
        match entry {
            BookEntry::Acked { .. } => found.acked = found.acked.saturating_add(1),
            BookEntry::Struck { .. } => found.struck = found.struck.saturating_add(1),
            BookEntry::Dropped { .. } => found.dropped = found.dropped.saturating_add(1),
            BookEntry::Down { .. } => found.down = found.down.saturating_add(1),
            BookEntry::Up { .. } => found.up = found.up.saturating_add(1),
            BookEntry::Lost { .. } => found.lost = found.lost.saturating_add(1),
            BookEntry::Installed { .. } => {}
        }
    }
    found
}

// The disk of a cluster of one node.
fn alone<D: Disk + Drop>(alloc: Global, disk: D) -> Result<Vec<D>, AllocError>
    requires { IfSome (D.seen disk) (λ held. held ≡ []) }
    ensures { IfOk result (λ disks. AreEmpty D.seen disks.items) }
{
    let mut disks = Vec::with_capacity(alloc, 1)?;
    disks.push_reserved(disk);
    Ok(disks)
}

// The disks of a cluster of three nodes.
fn three<D: Disk + Drop>(alloc: Global, first: D, second: D, third: D) -> Result<Vec<D>, AllocError>
    requires first { IfSome (D.seen first) (λ held. held ≡ []) }
    requires second { IfSome (D.seen second) (λ held. held ≡ []) }
    requires third { IfSome (D.seen third) (λ held. held ≡ []) }
    ensures { IfOk result (λ disks. AreEmpty D.seen disks.items) }
{
    let mut disks = Vec::with_capacity(alloc, 3)?;
    disks.push_reserved(first);
    disks.push_reserved(second);
    disks.push_reserved(third);
    Ok(disks)
}

// What the tape leads to on those disks, and the counts of the book.
fn run<S: LineSource, K: Sink, D: Disk + Drop>(
    alloc: Global,
    source: &mut S,
    sink: &mut K,
    disks: Vec<D>,
) -> (Drove, Counts)
    requires { AreEmpty D.seen disks.items }
{
    let (plan, from) = match read_drive_head(alloc, source) {
        Ok(head) => head,
        Err(answer) => return (answer, none()),
    };
    if disks.len() != usize::from(plan.nodes) {
        return (Drove::NoMemory(from), none());
    }
    let Ok(world) = World::open(alloc, plan, disks) else {
        return (Drove::NoMemory(from), none());
    };
    let (answer, world) = drive(alloc, source, sink, world, from);
    let counted = counted_in(world.book().entries());
    let _disks = world.close();
    (answer, counted)
}

const STORED: &[u8] = b"  1 250 stored\nopen smtp 1\n  2 220 node1 Porcupine ready\nend\n";

const FALLEN: &[u8] = b"  * fault 1\n  1 421 node1 down\n  * 1 closed\nopen smtp 1\nend\n";

// The reader of one of them has it deleted; and one that closes its session has not.
const MARKED: &[u8] = b"  1 250 stored
open pop 1
  2 +OK node1 ready <1.2.0@node1>
say 2 USER alice
  2 +OK send PASS
say 2 PASS a
  2 +OK maildrop open
say 2 DELE 1
  2 +OK message 1 deleted
open pop 1
  3 +OK node1 ready <1.3.0@node1>
say 3 USER carol
  3 +OK send PASS
say 3 PASS c
  3 +OK maildrop open
say 3 DELE 1
  3 +OK message 1 deleted
close 3
say 2 QUIT
";

const DROPPED: &[u8] = b"  2 +OK bye\n  * 2 closed\nend\n";

const FALLEN_IN_QUIT: &[u8] = b"  * fault 1
  1 421 node1 down
  * 1 closed
  2 -ERR [SYS/TEMP] node1 down
  * 2 closed
end
";

// Runs the tape over a disk of which this call fails; it drives so, and the book has so many entries.
fn drives(
    rt: &impl Abort,
    alloc: Global,
    pieces: &[&[u8]],
    call: u64,
    wanted: (Drove, Counts),
) -> Result<(), Fail> {
    let script = Script::new(alloc, pieces)?;
    let mut disk = MemoryDisk::new(alloc);
    disk.fail_at(call)?;
    let disks = alone(alloc, disk)?;
    let mut sink = VecSink::new(alloc);
    let drove = run(alloc, &mut SliceSource::new(&script.tape), &mut sink, disks);
    assert_eq!(rt; drove, wanted);
    assert!(rt; sink.held.as_slice() == script.wanted.as_slice());
    Ok(())
}

#[test]
fn a_message_is_stored_or_the_disk_fails(rt: HostRuntime) -> Result<(), Fail> {
    let down = Drove::BadTape(18, TapeFault::NodeDown);
    let whole = Counts { acked: 2, ..none() };
    let gone = Counts { down: 1, ..none() };
    // The opening makes ten disk calls, and the message for two mailboxes twenty: its octets, and of each copy its state and
    // that it is retired.
    let cases: [(u64, Drove, &[u8], Counts); 4] = [
        (0, Drove::Ended, STORED, whole),
        (11, down, FALLEN, gone),
        (30, down, FALLEN, gone),
        (31, Drove::Ended, STORED, whole),
    ];
    for (call, drove, lines, counted) in cases {
        drives(&rt, rt.alloc(), &[MESSAGE, lines], call, (drove, counted))?;
    }
    Ok(())
}

#[test]
fn a_marked_message_is_deleted_or_the_disk_fails(rt: HostRuntime) -> Result<(), Fail> {
    let struck = Counts {
        acked: 2,
        struck: 1,
        ..none()
    };
    let dropped = Counts {
        dropped: 1,
        ..struck
    };
    let down = Counts { down: 1, ..struck };
    // The Gone state takes four disk calls after the thirty before it, and that it is retired four more.
    let cases: [(u64, &[u8], Counts); 4] = [
        (0, DROPPED, dropped),
        (31, FALLEN_IN_QUIT, down),
        (38, FALLEN_IN_QUIT, down),
        (39, DROPPED, dropped),
    ];
    for (call, lines, counted) in cases {
        let pieces = [MESSAGE, MARKED, lines];
        drives(&rt, rt.alloc(), &pieces, call, (Drove::Ended, counted))?;
    }
    Ok(())
}

// A message for alice at node 1 of three, of which two confirm. Its letters to nodes 2 and 3 are 1 and 2; that which says
// that node 2 has it is 3.
const PENDING: &[u8] = b"\
nodes 3
copies 3 2
buckets 1
user alice tanstaaf
postmaster alice
go
open smtp 1
  1 220 node1 Porcupine ready
say 1 HELO c.example
  1 250 node1
say 1 MAIL FROM:<bob@b.example>
  1 250 sender ok
say 1 RCPT TO:<alice>
  1 250 recipient ok
say 1 DATA
  1 354 end with a line that is a single period
say 1 Subject: hi
say 1
say 1 hello
say 1 .
";

const POSTED: &[u8] = b"post 1\n  * 1 heard\npost 3\n  * 3 heard\n  1 250 stored\nend\n";

const GIVEN_UP: &[u8] = b"giveup 1\n  1 451 not stored, try again\nend\n";

const LOST: &[u8] = b"crash 1
  * node 1 down
  1 421 node1 down
  * 1 closed
start 1
  * node 1 up 2
lose 2
  * node 2 lost
end
";

// Runs the tape over three disks; it drives so, and the book has so many entries.
fn three_drive(
    rt: &impl Abort,
    alloc: Global,
    pieces: &[&[u8]],
    wanted: (Drove, Counts),
) -> Result<(), Fail> {
    let script = Script::new(alloc, pieces)?;
    let (one, two, last) = (
        PlainDisk::new(alloc),
        PlainDisk::new(alloc),
        PlainDisk::new(alloc),
    );
    let disks = three(alloc, one, two, last)?;
    let mut sink = VecSink::new(alloc);
    let drove = run(alloc, &mut SliceSource::new(&script.tape), &mut sink, disks);
    assert_eq!(rt; drove, wanted);
    assert!(rt; sink.held.as_slice() == script.wanted.as_slice());
    Ok(())
}

#[test]
fn a_message_waits_for_its_nodes(rt: HostRuntime) -> Result<(), Fail> {
    let stored = Counts { acked: 1, ..none() };
    let lost = Counts {
        down: 1,
        up: 1,
        lost: 1,
        ..none()
    };
    let refused = Drove::BadTape(17, TapeFault::NoSuchLetter);
    let cases: [(&[u8], Drove, Counts); 5] = [
        (b"end\n", Drove::Ended, none()),
        (POSTED, Drove::Ended, stored),
        (GIVEN_UP, Drove::Ended, none()),
        (LOST, Drove::Ended, lost),
        (b"drop 1\npost 1\n", refused, none()),
    ];
    for (lines, drove, counted) in cases {
        three_drive(&rt, rt.alloc(), &[PENDING, lines], (drove, counted))?;
    }
    Ok(())
}

#[test]
fn entries_are_written(rt: HostRuntime) -> Result<(), Fail> {
    let alloc = rt.alloc();
    let mut row = Row::new(alloc);
    row.push(Entry::Said {
        session: 12,
        text: Octets::from_vec(b"a~\\\x7f\n".to_vec(alloc)?),
    })?;
    row.push(Entry::Event {
        text: Octets::from_vec(b"fault 1".to_vec(alloc)?),
    })?;
    row.push(Entry::Refused {
        text: Octets::from_vec(TapeFault::BadLine.name().to_vec(alloc)?),
    })?;
    let mut sink = VecSink::new(alloc);
    assert_eq!(rt; write_entries(alloc, &mut sink, row.as_slice()), Ok(()));
    assert_eq!(rt;
        sink.held.as_slice(),
        b"12 a~\\x5C\\x7F\\x0A\n* fault 1\n! BadLine\n".as_slice()
    );
    Ok(())
}
