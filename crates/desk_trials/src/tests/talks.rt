// Connections that are served over a whole world, one after another.
ghost use Rattle.cluster_trials.specs.Disks.{in_memory};
ghost use Rattle.solo_desk.specs.Passes.{IsPass};

use super::rows::{counted, left_of};
use super::{opened, plan};
use cluster_world::World;
use io_edge::{OpenGate, SliceSource, VecSink};
use mail_base::{NodeNo, Plan};
use node_disk::MemoryDisk;
use session_gate::{Served, serve_pop, serve_smtp};
use solo_desk::{SoloDesk, SoloPass};
use std::alloc::{AllocError, Global};
use std::sync::Wait;
use std::test::Fail;

// What a client says at node 1, what it hears, and how its connection ends.
#[derive(Drop)]
struct Talk<'a> {
    pop: bool,
    says: &'a [u8],
    hears: &'a [u8],
    served: Served,
}

const MAIL: &[u8] = b"HELO c\r\nMAIL FROM:<a>\r\nRCPT TO:<ann>\r\nDATA\r\nx\r\n.\r\nQUIT\r\n";

const STORED: &[u8] =
    b"220 node1 Porcupine ready\r\n250 node1\r\n250 sender ok\r\n250 recipient ok\r\n354 end with a line that is a single period\r\n250 stored\r\n221 node1 closing\r\n";

const NOT_STORED: &[u8] =
    b"220 node1 Porcupine ready\r\n250 node1\r\n250 sender ok\r\n250 recipient ok\r\n354 end with a line that is a single period\r\n451 not stored, try again\r\n221 node1 closing\r\n";

const MAIL_DOWN: &[u8] =
    b"220 node1 Porcupine ready\r\n250 node1\r\n250 sender ok\r\n250 recipient ok\r\n354 end with a line that is a single period\r\n421 node1 down\r\n";

const READ: &[u8] = b"USER ann\r\nPASS sesame\r\nRETR 1\r\nDELE 1\r\nQUIT\r\n";

const READ_ALL: &[u8] =
    b"+OK node1 ready <1.12.0@node1>\r\n+OK send PASS\r\n+OK maildrop open\r\n+OK 112 octets\r\nReturn-Path: <a>\r\nReceived: from c\r\n by node1 with SMTP id <1.1.1@node1>;\r\n Thu, 01 Jan 1970 00:00:00 +0000\r\nx\r\n.\r\n+OK message 1 deleted\r\n+OK bye\r\n";

// The node went down as the message was to be read.
const READ_DOWN: &[u8] =
    b"+OK node1 ready <1.12.0@node1>\r\n+OK send PASS\r\n+OK maildrop open\r\n-ERR [SYS/TEMP] node1 down\r\n";

// The node went down as the message was to be deleted.
const QUIT_DOWN: &[u8] =
    b"+OK node1 ready <1.12.0@node1>\r\n+OK send PASS\r\n+OK maildrop open\r\n+OK 112 octets\r\nReturn-Path: <a>\r\nReceived: from c\r\n by node1 with SMTP id <1.1.1@node1>;\r\n Thu, 01 Jan 1970 00:00:00 +0000\r\nx\r\n.\r\n+OK message 1 deleted\r\n-ERR [SYS/TEMP] node1 down\r\n";

// Two messages are sent, and read back; the first is deleted.
const AT_ONE: [Talk<'static>; 5] = [
    Talk {
        pop: false,
        says: MAIL,
        hears: STORED,
        served: Served::Ended,
    },
    Talk {
        pop: false,
        says: MAIL,
        hears: STORED,
        served: Served::Ended,
    },
    Talk {
        pop: true,
        says: READ,
        hears: READ_ALL,
        served: Served::Ended,
    },
    Talk {
        pop: true,
        says: b"USER ann\r\nPASS open\r\nQUIT\r\n",
        hears: b"+OK node1 ready <1.12.0@node1>\r\n+OK send PASS\r\n-ERR name or secret is wrong\r\n+OK bye\r\n",
        served: Served::Ended,
    },
    Talk {
        pop: true,
        says: b"USER ann\r\nPASS sesame\r\nUIDL\r\n",
        hears: b"+OK node1 ready <1.12.0@node1>\r\n+OK send PASS\r\n+OK maildrop open\r\n+OK unique ids\r\n1 1.1.2\r\n.\r\n",
        served: Served::Ended,
    },
];

// A message waits for two nodes, and so does its deletion.
const AT_THREE: [Talk<'static>; 2] = [
    Talk {
        pop: false,
        says: MAIL,
        hears: STORED,
        served: Served::Ended,
    },
    Talk {
        pop: true,
        says: READ,
        hears: READ_ALL,
        served: Served::Ended,
    },
];

// The other nodes are down, and too few confirm.
const TOO_FEW: [Talk<'static>; 1] = [Talk {
    pop: false,
    says: MAIL,
    hears: NOT_STORED,
    served: Served::Ended,
}];

// The node is down before its clients come.
const DOWN: [Talk<'static>; 2] = [
    Talk {
        pop: false,
        says: MAIL,
        hears: b"",
        served: Served::Ended,
    },
    Talk {
        pop: true,
        says: READ,
        hears: b"",
        served: Served::Ended,
    },
];

fn serve<R: Wait>(
    rt: &R,
    alloc: Global,
    pop: bool,
    pass: &mut SoloPass<MemoryDisk>,
    plan: &Plan,
    source: &mut SliceSource,
    sink: &mut VecSink,
) -> Option<Served>
    requires { IsPass in_memory pass.old }
    ensures { IsPass in_memory pass.new }
{
    let desk = SoloDesk::new();
    let node = NodeNo::new(1)?;
    if pop {
        return Some(serve_pop(
            rt, alloc, &OpenGate, &desk, pass, plan, node, 12, source, sink,
        ));
    }
    Some(serve_smtp(
        rt, alloc, &OpenGate, &desk, pass, plan, node, 12, source, sink,
    ))
}

// How a connection of a client that says this ends, and what the client hears.
fn heard<R: Wait>(
    rt: &R,
    alloc: Global,
    pass: &mut SoloPass<MemoryDisk>,
    plan: &Plan,
    pop: bool,
    says: &[u8],
) -> (Option<Served>, Vec<u8>)
    requires { IsPass in_memory pass.old }
    ensures { IsPass in_memory pass.new }
{
    let mut source = SliceSource::new(says);
    let mut sink = VecSink::new(alloc);
    let served = serve(rt, alloc, pop, pass, plan, &mut source, &mut sink);
    (served, sink.held)
}

// Whether a connection goes as it is told.
fn goes<R: Wait>(
    rt: &R,
    alloc: Global,
    pass: &mut SoloPass<MemoryDisk>,
    plan: &Plan,
    talk: &Talk,
) -> bool
    requires { IsPass in_memory pass.old }
    ensures { IsPass in_memory pass.new }
{
    let (served, hears) = heard(rt, alloc, pass, plan, talk.pop, talk.says);
    served == Some(talk.served) && hears.as_slice() == talk.hears
}

// How many go as they are told, from the first on.
fn all_go<R: Wait>(
    rt: &R,
    alloc: Global,
    pass: &mut SoloPass<MemoryDisk>,
    plan: &Plan,
    talks: &[Talk],
) -> usize
    requires { IsPass in_memory pass.old }
    ensures { IsPass in_memory pass.new }
{
    let mut count = 0usize;
    for talk in talks {
        if !goes(rt, alloc, pass, plan, talk) {
            return count;
        }
        count = count.saturating_add(1);
    }
    count
}

// Copies that the book has acknowledged, is to delete, and has deleted.
fn booked(world: &World<MemoryDisk>) -> (u64, u64, u64) {
    let sum = world.sum();
    (sum.acked, sum.struck, sum.dropped)
}

#[test]
fn mail_goes_in_and_is_read_back(rt: HostRuntime) -> Result<(), Fail> {
    let alloc = rt.alloc();
    let plan = plan(alloc, 1, 1)?;
    let Ok(mut pass) = opened(alloc, 1, 1, 0) else {
        panic!(rt; "no world");
    };
    assert_eq!(rt; all_go(&rt, alloc, &mut pass, &plan, &AT_ONE), 5);
    assert_eq!(rt; counted(&pass), [2, 2, 1, 1, 0, 1, 0, 0, 2]);
    assert_eq!(rt; booked(pass.world()), (2, 1, 1));
    Ok(())
}

// Makes these calls between two connections.
fn made(
    alloc: Global,
    pass: &mut SoloPass<MemoryDisk>,
    rows: &[[u8; 4]],
) -> Result<bool, AllocError>
    requires { IsPass in_memory pass.old }
    ensures { IsPass in_memory pass.new }
{
    let mut tickets = Vec::new(alloc);
    Ok(left_of(alloc, pass, &mut tickets, rows)? == 0)
}

#[test]
fn mail_waits_for_other_nodes(rt: HostRuntime) -> Result<(), Fail> {
    let alloc = rt.alloc();
    let plan = plan(alloc, 3, 2)?;
    let Ok(mut pass) = opened(alloc, 3, 2, 0) else {
        panic!(rt; "no world");
    };
    assert_eq!(rt; all_go(&rt, alloc, &mut pass, &plan, &AT_THREE), 2);
    assert!(rt; made(alloc, &mut pass, &[*b"C2..", *b"C3.."])?);
    assert_eq!(rt; all_go(&rt, alloc, &mut pass, &plan, &TOO_FEW), 1);
    assert!(rt; made(alloc, &mut pass, &[*b"C1.."])?);
    assert_eq!(rt; all_go(&rt, alloc, &mut pass, &plan, &DOWN), 2);
    assert_eq!(rt; counted(&pass), [1, 1, 0, 1, 0, 1, 1, 2, 1]);
    assert_eq!(rt; booked(&pass.into_world()), (1, 1, 1));
    Ok(())
}

// Where a node went down: nowhere, as the message was stored, read or deleted; or what was heard is none of these.
#[derive(Clone, Copy, Debug, PartialEq, Eq)]
enum Fell {
    Opening,
    Storing,
    Reading,
    Deleting,
    Never,
    Elsewhere,
}

// What is heard by one who sends a message, and then by one who reads and deletes it.
fn fell_where(sender: &[u8], reader: &[u8]) -> Fell {
    if sender == MAIL_DOWN && reader.is_empty() {
        return Fell::Storing;
    }
    if sender != STORED {
        return Fell::Elsewhere;
    }
    if reader == READ_DOWN {
        return Fell::Reading;
    }
    if reader == QUIT_DOWN {
        return Fell::Deleting;
    }
    if reader == READ_ALL {
        Fell::Never
    } else {
        Fell::Elsewhere
    }
}

fn falls<R: Wait>(rt: &R, alloc: Global, pass: &mut SoloPass<MemoryDisk>, plan: &Plan) -> Fell
    requires { IsPass in_memory pass.old }
    ensures { IsPass in_memory pass.new }
{
    let (_, sender) = heard(rt, alloc, pass, plan, false, MAIL);
    let (_, reader) = heard(rt, alloc, pass, plan, true, READ);
    fell_where(&sender, &reader)
}

// Where the node goes down whose disk fails at this call.
fn falls_at<R: Wait>(rt: &R, alloc: Global, plan: &Plan, call: u64) -> Fell {
    let Ok(mut pass) = opened(alloc, 1, 1, call) else {
        return Fell::Opening;
    };
    falls(rt, alloc, &mut pass, plan)
}

// Whether one comes after the other as a later call fails.
fn follows(before: Fell, now: Fell) -> bool {
    now == before
        || match before {
            Fell::Opening => now == Fell::Storing,
            Fell::Storing => now == Fell::Reading,
            Fell::Reading => now == Fell::Deleting,
            Fell::Deleting => now == Fell::Never,
            Fell::Never | Fell::Elsewhere => false,
        }
}

// Whichever call of the disk fails, the client hears that the node is down in the midst of its connection, and the next is told
// nothing.
#[test]
fn any_call_of_the_disk_may_fail(rt: HostRuntime) -> Result<(), Fail> {
    let plan = plan(rt.alloc(), 1, 1)?;
    let mut before = Fell::Opening;
    for call in 1..40u64 {
        let now = falls_at(&rt, rt.alloc(), &plan, call);
        assert!(rt; follows(before, now), "at {call}");
        before = now;
    }
    assert_eq!(rt; before, Fell::Never);
    Ok(())
}
