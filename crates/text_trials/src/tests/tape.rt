// Lines of the tape's format, and each public call once.
use mail_base::{MsgId, Name};
use std::alloc::{AllocError, Global};
use std::test::Fail;
use tape_lines::{
    ClusterOrder, CopyCount, Draft, Order, Protocol, read_order, read_plan_line, strip, tape_line,
    without_cr,
};

// A word and its number, and what else there is.
fn worded(alloc: Global, word: &[u8], number: u64, rest: &[u8]) -> Result<Vec<u8>, AllocError> {
    let mut text = Vec::from_slice(alloc, word)?;
    text.push(b' ')?;
    text.extend_from_slice(number.to_string(alloc)?.as_bytes())?;
    text.push(b':')?;
    text.extend_from_slice(rest)?;
    Ok(text)
}

fn widening(
    alloc: Global,
    at: u64,
    user: &Name,
    id: MsgId,
    to: u64,
) -> Result<Vec<u8>, AllocError> {
    let mut text = worded(alloc, b"widen", at, user.octets())?;
    text.push(b' ')?;
    text.extend_from_slice(id.id_text(alloc)?.as_bytes())?;
    text.push(b' ')?;
    text.extend_from_slice(to.to_string(alloc)?.as_bytes())?;
    Ok(text)
}

fn mapping(alloc: Global, user: &Name) -> Result<Vec<u8>, AllocError> {
    let mut text = Vec::from_slice(alloc, b"maps ")?;
    text.extend_from_slice(user.octets())?;
    Ok(text)
}

fn of_move(alloc: Global, order: &ClusterOrder) -> Result<Vec<u8>, AllocError> {
    match order {
        ClusterOrder::Crash { node } => worded(alloc, b"crash", *node, b""),
        ClusterOrder::Start { node } => worded(alloc, b"start", *node, b""),
        ClusterOrder::Lose { node } => worded(alloc, b"lose", *node, b""),
        ClusterOrder::Post { letter } => worded(alloc, b"post", *letter, b""),
        ClusterOrder::Again { letter } => worded(alloc, b"again", *letter, b""),
        ClusterOrder::Drop { letter } => worded(alloc, b"drop", *letter, b""),
        ClusterOrder::Flow => Vec::from_slice(alloc, b"flow"),
        ClusterOrder::Push { node } => worded(alloc, b"push", *node, b""),
        ClusterOrder::Widen { at, user, id, to } => widening(alloc, *at, user, *id, *to),
        ClusterOrder::Group { node } => worded(alloc, b"group", *node, b""),
        ClusterOrder::Conclude { node } => worded(alloc, b"conclude", *node, b""),
        ClusterOrder::Regroup { node } => worded(alloc, b"regroup", *node, b""),
        ClusterOrder::Report { node } => worded(alloc, b"report", *node, b""),
        ClusterOrder::Settle => Vec::from_slice(alloc, b"settle"),
        ClusterOrder::Maps { user } => mapping(alloc, user),
        ClusterOrder::Tick { seconds } => worded(alloc, b"tick", *seconds, b""),
        ClusterOrder::Sum => Vec::from_slice(alloc, b"sum"),
    }
}

fn of_order(alloc: Global, order: &Order<'_>) -> Result<Vec<u8>, AllocError> {
    match order {
        Order::Open { protocol, node } => match protocol {
            Protocol::Smtp => worded(alloc, b"smtp", *node, b""),
            Protocol::Pop => worded(alloc, b"pop", *node, b""),
        },
        Order::Say { session, text } => worded(alloc, b"say", *session, text),
        Order::Feed { session, octets } => worded(alloc, b"feed", *session, octets),
        Order::Close { session } => worded(alloc, b"close", *session, b""),
        Order::GiveUp { session } => worded(alloc, b"giveup", *session, b""),
        Order::Moves(order) => of_move(alloc, order),
        Order::End => Vec::from_slice(alloc, b"end"),
    }
}

// What a run line is read as; nothing where it is of no form.
fn read_as(alloc: Global, line: &[u8]) -> Result<Vec<u8>, AllocError> {
    match &read_order(alloc, line)? {
        Some(order) => of_order(alloc, order),
        None => Ok(Vec::new(alloc)),
    }
}

// Run lines, and what each is read as.
const TAKEN: [(&[u8], &[u8]); 54] = [
    (b"open smtp 2\r", b"smtp 2:"),
    (b"open smtp 0", b"smtp 0:"),
    (b"open pop 2\r", b"pop 2:"),
    (
        b"open pop 18446744073709551615",
        b"pop 18446744073709551615:",
    ),
    (b"close 00000000000000000007", b"close 7:"),
    (b"close 0\r", b"close 0:"),
    (b"end", b"end"),
    (b"end\r", b"end"),
    (b"say 1 NOOP\r", b"say 1:NOOP"),
    (b"say 1", b"say 1:"),
    (b"say 1 ", b"say 1:"),
    (b"say 007  RCPT  TO ", b"say 7: RCPT  TO "),
    (
        b"say 18446744073709551615 \r\r",
        b"say 18446744073709551615:\r",
    ),
    (b"feed 1 51554954", b"feed 1:QUIT"),
    (b"feed 0 0d0A\r", b"feed 0:\r\n"),
    (b"feed 00000000000000000007 00", b"feed 7:\x00"),
    (
        b"feed 18446744073709551615 fF",
        b"feed 18446744073709551615:\xff",
    ),
    (b"feed 2 aBcDeF09", b"feed 2:\xab\xcd\xef\x09"),
    (b"crash 1", b"crash 1:"),
    (b"crash 0\r", b"crash 0:"),
    (b"start 16", b"start 16:"),
    (b"lose 00000000000000000003", b"lose 3:"),
    (b"post 7", b"post 7:"),
    (
        b"again 18446744073709551615",
        b"again 18446744073709551615:",
    ),
    (b"drop 0", b"drop 0:"),
    (b"flow", b"flow"),
    (b"flow\r", b"flow"),
    (b"push 2", b"push 2:"),
    (b"group 1", b"group 1:"),
    (b"conclude 16\r", b"conclude 16:"),
    (b"regroup 0", b"regroup 0:"),
    (b"regroup 00000000000000000002", b"regroup 2:"),
    (b"report 2", b"report 2:"),
    (b"report 0\r", b"report 0:"),
    (
        b"report 18446744073709551615",
        b"report 18446744073709551615:",
    ),
    (b"settle", b"settle"),
    (b"settle\r", b"settle"),
    (b"maps alice", b"maps alice"),
    (b"maps ALICE\r", b"maps alice"),
    (b"maps Alice@Example.ORG", b"maps alice@example.org"),
    (b"maps 7", b"maps 7"),
    (b"maps a:1\\", b"maps a:1\\"),
    (b"maps none", b"maps none"),
    (b"giveup 12\r", b"giveup 12:"),
    (b"widen 1 alice 2.3.4 5", b"widen 1:alice 2.3.4 5"),
    (
        b"widen 17 ALICE 016.04294967295.18446744073709551615 0\r",
        b"widen 17:alice 16.4294967295.18446744073709551615 0",
    ),
    (
        b"widen 0 Alice 1.1.1 18446744073709551615",
        b"widen 0:alice 1.1.1 18446744073709551615",
    ),
    (b"widen 01 alice 01.01.01 01", b"widen 1:alice 1.1.1 1"),
    (b"tick 0", b"tick 0:"),
    (b"tick 253402300799\r", b"tick 253402300799:"),
    (b"tick 00000000000000000784", b"tick 784:"),
    (b"tick 18446744073709551615", b"tick 18446744073709551615:"),
    (b"sum", b"sum"),
    (b"sum\r", b"sum"),
];

// Lines of no form.
const REFUSED: [&[u8]; 109] = [
    b"open sm",
    b"open pop",
    b"open pop ",
    b"open pop  1",
    b"open pop 1 ",
    b"open pop 1x",
    b"open POP 1",
    b"open imap 1",
    b"open pop 18446744073709551616",
    b"open smtp 000000000000000000001",
    b"close",
    b"close ",
    b"close  1",
    b"close 1 ",
    b"closes 1",
    b"close 18446744073709551616",
    b"end ",
    b"end\r\r",
    b"END",
    b"",
    b"feed",
    b"feed 1",
    b"feed 1 ",
    b"feed 1 \r",
    b"feed 1 4",
    b"feed 1 414",
    b"feed 1 4g",
    b"feed 1 G4",
    b"feed 1 0x41",
    b"feed 1  41",
    b"feed 1  414",
    b"feed 1 41 ",
    b"feed 1 41  ",
    b"feed 1 41 41",
    b"feed  1 41",
    b"feed x 41",
    b"feed 18446744073709551616 41",
    b"feed 000000000000000000001 41",
    b"Feed 1 41",
    b"feed 1 41\r\r",
    b"crash",
    b"crash ",
    b"crash  1",
    b"crash 1 ",
    b"crash x",
    b"CRASH 1",
    b"start 1 2",
    b"lose 18446744073709551616",
    b"lose 000000000000000000001",
    b"post -1",
    b"posts 1",
    b"again",
    b"drop 1x",
    b"flow ",
    b"flow 1",
    b"flows",
    b"push",
    b"group",
    b"group 1 2",
    b"groups 1",
    b"conclude ",
    b"conclude x",
    b"regroup  1",
    b"re group 1",
    b"report",
    b"report ",
    b"report  1",
    b"report 1 2",
    b"report x",
    b"reports 1",
    b"settle ",
    b"settle 1",
    b"settles",
    b"SETTLE",
    b"maps",
    b"maps ",
    b"maps  alice",
    b"maps alice ",
    b"maps alice bob",
    b"maps @lice",
    b"maps <alice>",
    b"Maps alice",
    b"giveup",
    b"giveup x",
    b"give up 1",
    b"widen 1 alice 1.1.1",
    b"widen 1 alice 1.1.1 ",
    b"widen 1 alice 1.1 2",
    b"widen 1 alice 1.1.1.1 2",
    b"widen 1 alice 0.1.1 2",
    b"widen 1 alice 17.1.1 2",
    b"widen 1 alice 1.0.1 2",
    b"widen 1 alice 1.4294967296.1 2",
    b"widen 1 alice 1.1.0 2",
    b"widen 1 @lice 1.1.1 2",
    b"tick",
    b"tick ",
    b"tick  1",
    b"tick 1 ",
    b"tick 1 2",
    b"tick -1",
    b"tick 1.5",
    b"tick 18446744073709551616",
    b"tick 000000000000000000001",
    b"Tick 1",
    b"sum ",
    b"sum 1",
    b"sums",
    b"SUM",
];

#[test]
fn reads_run_lines(rt: HostRuntime) -> Result<(), Fail> {
    for (at, (line, wanted)) in TAKEN.iter().enumerate() {
        assert!(rt; read_as(rt.alloc(), line)?.as_slice() == *wanted, "at {at}");
    }
    for (at, line) in REFUSED.iter().enumerate() {
        assert!(rt; read_as(rt.alloc(), line)?.is_empty(), "at {at}");
    }
    Ok(())
}

#[test]
fn cuts_lines(rt: HostRuntime) {
    assert!(rt; strip(b"user ", b"user ann") == Some(b"ann".as_slice()));
    assert!(rt; without_cr(b"ann\r") == b"ann".as_slice());
    assert!(rt; tape_line(b"ann\r") == Some(b"ann".as_slice()));
    assert!(rt; CopyCount::new(1, 2).is_none());
}

#[test]
fn reads_plans(rt: HostRuntime) -> Result<(), Fail> {
    let lines: [&[u8]; 5] = [
        b"nodes 5",
        b"copies 3 2",
        b"buckets 16",
        b"user U0 s0",
        b"postmaster u0",
    ];
    let mut draft = Draft::new(rt.alloc());
    for line in lines {
        let Some(found) = read_plan_line(rt.alloc(), line)? else {
            panic!(rt; "no line");
        };
        assert!(rt; draft.add(found)?);
    }
    let Some(plan) = draft.finish() else {
        panic!(rt; "no plan");
    };
    assert!(rt; plan.nodes == 5 && plan.copies == 3 && plan.confirm == 2 && plan.buckets == 16);
    assert!(rt; plan.postmaster.octets() == b"u0".as_slice());
    Ok(())
}
