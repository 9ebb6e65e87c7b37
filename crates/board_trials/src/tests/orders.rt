// Calls of a board one after another, in the name of two passes.
ghost use Rattle.std.specs.Prelude.{◌≡◌};
ghost use Rattle.cluster_trials.specs.Disks.{in_memory};
ghost use Rattle.shard_board.specs.Boards.{quota_of, IsPassOf};

use super::{CARRY, Cluster, Pass, count, digit, made, node, opened};
use crate::fresh::{message, name};
use call_tickets::{Answer, Ask, Call, DeskFault, Posted};
use cluster_world::{BookSum, Regroup, Said, Settle, StepFault};
use mail_base::{MsgId, NodeNo, NodeSet, Ticket};
use shard_board::{Order, Told};
use std::alloc::{AllocError, Global};
use std::sync::Wait;
use std::test::Fail;
use world_book::Entry;

// What is done at a plan of three nodes, of which two have to confirm a message: in whose name, and a letter for the call, then
// its node, place or ticket, its second node or the number of the ticket, and two letters for the answer.
const ROWS: [[u8; 6]; 69] = [
    // A message of one pass is asked for by the other. It waits for letters, and each pass posts some.
    *b"au1.b1", *b"aD1.B1", *b"bA11P1", *b"bp..po", *b"ap..po", *b"bA11P1", *b"bp..po", *b"aA11S3",
    // Each pass reads its entry; the ticket stands no more.
    *b"be0.A3", *b"ae0.A3", *b"be1.--", *b"bA11t?", *b"ap..po", *b"ap..qu", *b"bs..10",
    // One is given up by the other pass, and its letters are posted all the same.
    *b"bD1.B2", *b"aG12..", *b"bA12t?", *b"bG12t?", *b"ap..po", *b"bp..po", *b"ap..po", *b"bp..po",
    *b"bp..qu",
    // A node stops, and starts again.
    *b"aC2...", *b"bu2.do", *b"bu1.b1", *b"be1.d2", *b"bD2.do", *b"bC2.do", *b"b>21do", *b"aR2.do",
    *b"bS2.U2", *b"au2.b2", *b"ae2.u2", *b"aS2.up",
    // It has no epoch: what node 1 sends to it is thrown, and it sends nothing.
    *b"a>12L2", *b"bp..po", *b"bp..po", *b"bp..qu", *b"a>21L0",
    // Node 1 regroups, in one turn. All nodes that are up are members.
    *b"bR1.E7", *b"bp..qu",
    // Node 1 sends what it owes to node 2: two states. Both are heard, and acknowledged.
    *b"a>12L2", *b"bp..po", *b"ap..po", *b"bp..po", *b"ap..po", *b"bp..qu", *b"a>12L0",
    // All nodes are targets already.
    *b"bW13Wn",
    // A node is lost for good.
    *b"bL3...", *b"aL3.lo", *b"aS3.lo", *b"aC3.lo", *b"bW33lo", *b"bu3.do", *b"ae3.l3", *b"ae4.--",
    *b"bs..11", *b"bR3.lo", *b"bR2.E3",
    // What is not there.
    *b"aC4.n?", *b"bS4.n?", *b"aL4.n?", *b"b>14n?", *b"aA41n?", *b"bu4.do", *b"bR4.n?",
];

// The same at a plan of four nodes, of which two have to confirm a message.
const LEFT: [[u8; 6]; 21] = [
    // Two nodes are lost. A message still has four copies to come, and two are confirmed.
    *b"aL3...", *b"bL4...", *b"aD1.B1", *b"bp..po", *b"bp..po", *b"bp..po", *b"bp..po", *b"bp..qu",
    *b"bA11S3",
    // The two that are left regroup, and take mail: each message has a letter to the other, and one back.
    *b"aR2.E3", *b"bD2.B1", *b"ap..po", *b"ap..po", *b"ap..qu", *b"aA21S3", *b"bD1.B2", *b"bp..po",
    *b"bp..po", *b"bp..qu", *b"bA12S3", *b"bs..32",
];

// Rows that are reported, and settles, at the first plan. All nodes have a copy of each message, and node 1 manages ann.
const SETTLES: [[u8; 6]; 27] = [
    // Nothing is due, and nobody has mail.
    *b"aE..se", *b"bM..10", *b"a^21L0",
    // A message: node 1 knows of its own copy at once, and of that of node 2 once its report is heard.
    *b"aD1.B1", *b"bM..11", *b"bp..po", *b"a^21L1", *b"ap..po", *b"bp..po", *b"bM..11", *b"ap..po",
    *b"aM..13",
    // A settle in the name of each pass does the rest.
    *b"bE..se", *b"aM..17", *b"aE..se", *b"b^31L0", *b"ap..qu",
    // A node stops: it is a member until the others regroup.
    *b"bC2...", *b"aE..a2", *b"aR1.E5", *b"bE..se", *b"bM..15", *b"a^21do", *b"a^14n?",
    // Its manager stops.
    *b"aC1...", *b"bM..no", *b"bE..a1",
];

fn first_id() -> MsgId {
    MsgId::new(node(1), 1, 1).unwrap()
}

fn told_answer(answer: &Answer) -> [u8; 2] {
    match answer {
        Answer::Stored { confirmers, .. } => [b'S', digit(u64::from(confirmers.mask()))],
        Answer::Failed(_) => *b"F.",
        Answer::Listed { .. }
        | Answer::Wrong { .. }
        | Answer::InUse { .. }
        | Answer::NoProfile { .. }
        | Answer::Part { .. }
        | Answer::GoneAlready
        | Answer::Dropped { .. } => *b"??",
    }
}

fn told_ask(ask: &Ask) -> [u8; 2] {
    match ask {
        Ask::Pending { got, .. } => [b'P', digit(*got)],
        Ask::Done(answer) => told_answer(answer),
    }
}

fn told_said(said: &Said) -> [u8; 2] {
    match said {
        Said::Begun { ticket, .. } => [b'B', digit(ticket.seq)],
        Said::Noted => *b"N.",
        Said::Asked(ask) => told_ask(ask),
        Said::Heard => *b"H.",
        Said::Thrown(_) => *b"T.",
        Said::Sent { letters } => [b'L', digit(*letters)],
        Said::Widened(did) => { if *did { *b"Wy" } else { *b"Wn" } }
        Said::Grouped(epoch) => [b'g', digit(epoch.count)],
        Said::Concluded { members, .. } => [b'E', digit(u64::from(members.mask()))],
        Said::NodeUp { boot } => [b'U', digit(u64::from(*boot))],
        Said::Done => *b"..",
        Said::Faulted(node) => [b'!', digit(u64::from(node.number()))],
    }
}

fn told_fault(fault: StepFault) -> [u8; 2] {
    match fault {
        StepFault::NoSuchNode => *b"n?",
        StepFault::NodeLost => *b"lo",
        StepFault::NodeDown => *b"do",
        StepFault::NodeUp => *b"up",
        StepFault::NoSuchLetter => *b"l?",
        StepFault::NoSuchTicket => *b"t?",
        StepFault::NotAGroup => *b"g?",
        StepFault::Worn => *b"wo",
        StepFault::NoRoom => *b"ro",
        StepFault::NoMemory { .. } => *b"me",
    }
}

// What came of a step, in two letters.
pub(super) fn told_step(came: &Result<Said, StepFault>) -> [u8; 2] {
    match came {
        Ok(said) => told_said(said),
        Err(fault) => told_fault(*fault),
    }
}

fn told_regroup(came: &Regroup) -> [u8; 2] {
    match came {
        Regroup::Formed { members, .. } => [b'E', digit(u64::from(members.mask()))],
        Regroup::Fault(node) => [b'!', digit(u64::from(node.number()))],
    }
}

fn told_settle(came: &Settle) -> [u8; 2] {
    match came {
        Settle::Settled => *b"se",
        Settle::NotAllUp(node) => [b'a', digit(u64::from(node.number()))],
        Settle::Fault(node) => [b'!', digit(u64::from(node.number()))],
    }
}

fn told_map(map: &Option<(NodeNo, NodeSet)>) -> [u8; 2] {
    match map {
        Some((manager, named)) => [
            digit(u64::from(manager.number())),
            digit(u64::from(named.mask())),
        ],
        None => *b"no",
    }
}

fn told_sum(sum: &BookSum) -> [u8; 2] {
    [digit(sum.acked), digit(sum.lost)]
}

// What came of an order.
pub(super) fn told_order(came: &Result<Told, StepFault>) -> [u8; 2] {
    match came {
        Ok(Told::Said(said)) => told_said(said),
        Ok(Told::Regrouped(came)) => told_regroup(came),
        Ok(Told::Settled(came)) => told_settle(came),
        Ok(Told::Mapped(map)) => told_map(map),
        Ok(Told::Sum(sum)) => told_sum(sum),
        Err(fault) => told_fault(*fault),
    }
}

pub(super) fn told_posted(posted: &Result<Posted, DeskFault>) -> [u8; 2] {
    match posted {
        Ok(Posted::Did) => *b"po",
        Ok(Posted::Quiet) => *b"qu",
        Err(_) => *b"??",
    }
}

fn told_entry(entry: &Entry) -> [u8; 2] {
    match entry {
        Entry::Acked { confirmers, .. } => [b'A', digit(u64::from(confirmers.mask()))],
        Entry::Down { node } => [b'd', digit(u64::from(node.number()))],
        Entry::Up { node, .. } => [b'u', digit(u64::from(node.number()))],
        Entry::Lost { node } => [b'l', digit(u64::from(node.number()))],
        Entry::Struck { .. } | Entry::Dropped { .. } | Entry::Installed { .. } => *b"??",
    }
}

fn told_place(entry: &Result<Option<Entry>, AllocError>) -> [u8; 2] {
    match entry {
        Ok(Some(entry)) => told_entry(entry),
        Ok(None) => *b"--",
        Err(_) => *b"me",
    }
}

// The life of a node.
fn life<R: Wait>(rt: &R, board: &Cluster, pass: &mut Pass, node: NodeNo) -> [u8; 2]
    requires pass { IsPassOf in_memory board.now pass.old }
    ensures pass { IsPassOf in_memory board.now pass.new }
    ensures quota { quota_of pass.new ≡ quota_of pass.old }
{
    match board.is_up(rt, pass, node) {
        Some(life) => [b'b', digit(u64::from(life.boot))],
        None => *b"do",
    }
}

// A letter is looked at.
pub(super) fn posts<R: Wait>(rt: &R, alloc: Global, board: &Cluster, pass: &mut Pass) -> [u8; 2]
    requires pass { IsPassOf in_memory board.now pass.old }
    ensures pass { IsPassOf in_memory board.now pass.new }
    ensures quota { quota_of pass.new ≡ quota_of pass.old }
{
    let posted = board.post_one(rt, alloc, pass);
    told_posted(&posted)
}

// An entry of the book is read.
fn reads<R: Wait>(rt: &R, board: &Cluster, pass: &mut Pass, place: u8) -> [u8; 2]
    requires pass { IsPassOf in_memory board.now pass.old }
    ensures pass { IsPassOf in_memory board.now pass.new }
    ensures quota { quota_of pass.new ≡ quota_of pass.old }
{
    let entry = board.entry(rt, pass, usize::from(place));
    told_place(&entry)
}

// An order is carried out.
fn orders<R: Wait>(rt: &R, alloc: Global, board: &Cluster, pass: &mut Pass, order: Order) -> [u8; 2]
    requires pass { IsPassOf in_memory board.now pass.old }
    ensures pass { IsPassOf in_memory board.now pass.new }
    ensures quota { quota_of pass.new ≡ quota_of pass.old }
{
    let told = board.console(rt, alloc, pass, order);
    told_order(&told)
}

// A message to ann begins at a node.
pub(super) fn delivers<R: Wait>(
    rt: &R,
    alloc: Global,
    board: &Cluster,
    pass: &mut Pass,
    node: NodeNo,
) -> Result<[u8; 2], AllocError>
    requires pass { IsPassOf in_memory board.now pass.old }
    ensures pass { IsPassOf in_memory board.now pass.new }
    ensures quota { quota_of pass.new ≡ quota_of pass.old }
{
    let deliver = message(alloc, b"ann")?;
    let begun = board.begin(rt, alloc, pass, node, Call::Deliver(deliver));
    Ok(told_step(&begun))
}

// It is asked what became of the call of this ticket.
pub(super) fn asks<R: Wait>(
    rt: &R,
    alloc: Global,
    board: &Cluster,
    pass: &mut Pass,
    ticket: Ticket,
) -> [u8; 2]
    requires pass { IsPassOf in_memory board.now pass.old }
    ensures pass { IsPassOf in_memory board.now pass.new }
    ensures quota { quota_of pass.new ≡ quota_of pass.old }
{
    let asked = board.ask(rt, alloc, pass, ticket);
    told_step(&asked)
}

// The call of this ticket is given up.
fn gives_up<R: Wait>(
    rt: &R,
    alloc: Global,
    board: &Cluster,
    pass: &mut Pass,
    ticket: Ticket,
) -> [u8; 2]
    requires pass { IsPassOf in_memory board.now pass.old }
    ensures pass { IsPassOf in_memory board.now pass.new }
    ensures quota { quota_of pass.new ≡ quota_of pass.old }
{
    let gave = board.give_up(rt, alloc, pass, ticket);
    told_step(&gave)
}

// The order of a letter.
fn order_of(alloc: Global, what: u8, first: u8, second: u8) -> Result<Order, AllocError> {
    let one = node(count(first));
    let two = node(count(second));
    Ok(match what {
        b'C' => Order::Crash(one),
        b'S' => Order::Start(one),
        b'L' => Order::Lose(one),
        b'R' => Order::Regroup(one),
        b'>' => Order::Push { from: one, to: two },
        b'^' => Order::Report { from: one, to: two },
        b'E' => Order::Settle,
        b'M' => Order::Maps(name(alloc, b"ann")?),
        b'W' => Order::Widen {
            at: one,
            user: name(alloc, b"ann")?,
            id: first_id(),
            to: two,
        },
        _ => Order::Sum,
    })
}

// Does what a row tells in the name of a pass, and says what came of it.
fn does<R: Wait>(
    rt: &R,
    alloc: Global,
    board: &Cluster,
    pass: &mut Pass,
    what: u8,
    first: u8,
    second: u8,
) -> Result<[u8; 2], AllocError>
    requires pass { IsPassOf in_memory board.now pass.old }
    ensures pass { IsPassOf in_memory board.now pass.new }
    ensures quota { quota_of pass.new ≡ quota_of pass.old }
{
    let one = node(count(first));
    let ticket = Ticket::new(one, 1, u64::from(count(second)));
    match what {
        b'u' => Ok(life(rt, board, pass, one)),
        b'p' => Ok(posts(rt, alloc, board, pass)),
        b'e' => Ok(reads(rt, board, pass, count(first))),
        b'D' => delivers(rt, alloc, board, pass, one),
        b'A' => Ok(asks(rt, alloc, board, pass, ticket)),
        b'G' => Ok(gives_up(rt, alloc, board, pass, ticket)),
        _ => Ok(orders(
            rt,
            alloc,
            board,
            pass,
            order_of(alloc, what, first, second)?,
        )),
    }
}

// The same, in the name of the pass that the row names.
fn does_for<R: Wait>(
    rt: &R,
    alloc: Global,
    board: &Cluster,
    first: &mut Pass,
    second: &mut Pass,
    row: &[u8; 6],
) -> Result<bool, AllocError>
    requires first { IsPassOf in_memory board.now first.old }
    requires second { IsPassOf in_memory board.now second.old }
    ensures first { IsPassOf in_memory board.now first.new × (quota_of first.new ≡ quota_of first.old) }
    ensures second { IsPassOf in_memory board.now second.new × (quota_of second.new ≡ quota_of second.old) }
{
    let [who, what, one, two, kind, digit] = *row;
    let told = if who == b'a' {
        does(rt, alloc, board, first, what, one, two)?
    } else {
        does(rt, alloc, board, second, what, one, two)?
    };
    Ok(told == [kind, digit])
}

// How many rows are left, where each before them answered as it is to.
fn left_of<R: Wait>(
    rt: &R,
    alloc: Global,
    board: &Cluster,
    first: &mut Pass,
    second: &mut Pass,
    rows: &[[u8; 6]],
) -> Result<usize, AllocError>
    requires first { IsPassOf in_memory board.now first.old }
    requires second { IsPassOf in_memory board.now second.old }
    ensures first { IsPassOf in_memory board.now first.new × (quota_of first.new ≡ quota_of first.old) }
    ensures second { IsPassOf in_memory board.now second.new × (quota_of second.new ≡ quota_of second.old) }
{
    let Some((row, others)) = rows.split_first() else {
        return Ok(0);
    };
    if !does_for(rt, alloc, board, first, second, row)? {
        return Ok(rows.len());
    }
    left_of(rt, alloc, board, first, second, others)
}

#[test]
fn each_call_answers(rt: HostRuntime) -> Result<(), Fail> {
    let alloc = rt.alloc();
    let Ok(world) = opened(alloc, 3, 2) else {
        panic!(rt; "no world");
    };
    let Some((board, mut first)) = made(alloc, world, CARRY, 2) else {
        panic!(rt; "no memory");
    };
    let mut second = board.split(&mut first, 1);
    let left = left_of(&rt, alloc, &board, &mut first, &mut second, &ROWS);
    board.join(&mut first, second);
    let sum = board.close(first).sum();
    assert_eq!(rt; left?, 0);
    assert_eq!(rt; told_sum(&sum), *b"11");
    Ok(())
}

#[test]
fn those_that_are_left_take_mail(rt: HostRuntime) -> Result<(), Fail> {
    let alloc = rt.alloc();
    let Ok(world) = opened(alloc, 4, 2) else {
        panic!(rt; "no world");
    };
    let Some((board, mut first)) = made(alloc, world, CARRY, 2) else {
        panic!(rt; "no memory");
    };
    let mut second = board.split(&mut first, 1);
    let left = left_of(&rt, alloc, &board, &mut first, &mut second, &LEFT);
    board.join(&mut first, second);
    let sum = board.close(first).sum();
    assert_eq!(rt; left?, 0);
    assert_eq!(rt; told_sum(&sum), *b"32");
    Ok(())
}

#[test]
fn the_latest_epoch_settles(rt: HostRuntime) -> Result<(), Fail> {
    let alloc = rt.alloc();
    let Ok(world) = opened(alloc, 3, 2) else {
        panic!(rt; "no world");
    };
    let Some((board, mut first)) = made(alloc, world, CARRY, 2) else {
        panic!(rt; "no memory");
    };
    let mut second = board.split(&mut first, 1);
    let left = left_of(&rt, alloc, &board, &mut first, &mut second, &SETTLES);
    board.join(&mut first, second);
    let sum = board.close(first).sum();
    assert_eq!(rt; left?, 0);
    assert_eq!(rt; told_sum(&sum), *b"00");
    Ok(())
}
