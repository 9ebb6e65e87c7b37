// Four threads, each with a pass and a user of its own, and what the book, the store and the passes then say of their work.
ghost use Rattle.std.specs.Prelude.{◌≡◌, ◌+◌};
ghost use Rattle.shard_board.specs.Boards.{quota_of, IsPassOf};
ghost use Rattle.board_trials.specs.Disks.{plainly};

use super::{CARRY, made, node};
use crate::fresh::{message, name, open_plain};
use crate::lots::Lots;
use board_desk::BoardDesk;
use call_tickets::{Answer, Ask, Call, Desk, DeskFault, DeskTicket};
use cluster_world::{Said, StepFault, World};
use io_edge::{PlainDisk, SetClock};
use mail_base::{Item, Items, MsgId, NodeSet, Stamp};
use node_store::NodeStore;
use shard_board::{Board, BoardPass, Order, Told};
use std::alloc::{AllocError, Global};
use std::sync::Wait;
use std::test::Fail;
use std::thread::{Threads, join};
use world_book::Entry;

type Shared = Board<PlainDisk, Lots, SetClock>;

type Hand = BoardPass<PlainDisk, Lots, SetClock>;

// How many messages are deleted in the name of each pass, and how many orders are given.
const ROUNDS: u32 = 334;

fn begins<R: Wait>(
    rt: &R,
    alloc: Global,
    board: &Shared,
    pass: &mut Hand,
    call: Call,
) -> Result<DeskTicket, DeskFault>
    requires pass { IsPassOf plainly board.now pass.old }
    ensures pass { IsPassOf plainly board.now pass.new }
    ensures quota { quota_of pass.new ≡ quota_of pass.old }
{
    let desk = BoardDesk::new(rt, board, pass);
    desk.begin(alloc, pass, node(1), call)
}

fn asks<R: Wait>(
    rt: &R,
    alloc: Global,
    board: &Shared,
    pass: &mut Hand,
    ticket: &DeskTicket,
) -> Result<Ask, DeskFault>
    requires pass { IsPassOf plainly board.now pass.old }
    ensures pass { IsPassOf plainly board.now pass.new }
    ensures quota { quota_of pass.new ≡ quota_of pass.old }
{
    let desk = BoardDesk::new(rt, board, pass);
    desk.ask(alloc, pass, ticket)
}

// What came of a call that is begun and then asked for.
fn makes<R: Wait>(
    rt: &R,
    alloc: Global,
    board: &Shared,
    pass: &mut Hand,
    call: Call,
) -> Result<Ask, DeskFault>
    requires pass { IsPassOf plainly board.now pass.old }
    ensures pass { IsPassOf plainly board.now pass.new }
    ensures quota { quota_of pass.new ≡ quota_of pass.old }
{
    match begins(rt, alloc, board, pass, call) {
        Ok(ticket) => asks(rt, alloc, board, pass, &ticket),
        Err(why) => Err(why),
    }
}

fn stored_id(asked: &Result<Ask, DeskFault>) -> Option<MsgId> {
    match asked {
        Ok(Ask::Done(Answer::Stored { id, .. })) => Some(*id),
        _ => None,
    }
}

// A message to the user is stored, and has this id.
fn delivers<R: Wait>(
    rt: &R,
    alloc: Global,
    board: &Shared,
    pass: &mut Hand,
    user: &[u8],
) -> Result<MsgId, AllocError>
    requires pass { IsPassOf plainly board.now pass.old }
    ensures pass { IsPassOf plainly board.now pass.new }
    ensures quota { quota_of pass.new ≡ quota_of pass.old }
{
    let call = Call::Deliver(message(alloc, user)?);
    let asked = makes(rt, alloc, board, pass, call);
    stored_id(&asked).ok_or(AllocError)
}

// The deletion of the user's message.
fn strike(alloc: Global, user: &[u8], id: MsgId) -> Result<Call, AllocError> {
    let here = NodeSet::empty().with(node(1));
    let mut items = Items::new(alloc);
    items.push(Item {
        id,
        stamp: Stamp::new(1, 1, 1),
        targets: here,
        holders: here,
        length: 4,
    })?;
    Ok(Call::Strike {
        user: name(alloc, user)?,
        items,
    })
}

fn is_dropped(asked: &Result<Ask, DeskFault>) -> bool {
    matches!(asked, Ok(Ask::Done(Answer::Dropped { .. })))
}

// The user's message is deleted.
fn deletes<R: Wait>(
    rt: &R,
    alloc: Global,
    board: &Shared,
    pass: &mut Hand,
    user: &[u8],
    id: MsgId,
) -> Result<bool, AllocError>
    requires pass { IsPassOf plainly board.now pass.old }
    ensures pass { IsPassOf plainly board.now pass.new }
    ensures quota { quota_of pass.new ≡ quota_of pass.old }
{
    let call = strike(alloc, user, id)?;
    let asked = makes(rt, alloc, board, pass, call);
    Ok(is_dropped(&asked))
}

// An order is carried out.
fn orders<R: Wait>(
    rt: &R,
    alloc: Global,
    board: &Shared,
    pass: &mut Hand,
    order: Order,
) -> Result<Told, StepFault>
    requires pass { IsPassOf plainly board.now pass.old }
    ensures pass { IsPassOf plainly board.now pass.new }
    ensures quota { quota_of pass.new ≡ quota_of pass.old }
{
    board.console(rt, alloc, pass, order)
}

// The order of a round: the entries of the book are counted, or the node is to send what it owes to itself.
fn order_of(round: u32) -> Order {
    if round % 2 == 0 {
        return Order::Sum;
    }
    Order::Push {
        from: node(1),
        to: node(1),
    }
}

// Whether what was told of an order is right after so many messages of this pass: the others may have sent more.
fn is_told(told: &Result<Told, StepFault>, sent: u64) -> bool {
    match told {
        Ok(Told::Sum(sum)) => sum.acked >= sent && sum.struck >= sum.dropped,
        Ok(Told::Said(Said::Sent { letters })) => *letters == 0,
        _ => false,
    }
}

// Whether a message is stored, the one before it is deleted, and an order is carried out.
fn goes_on<R: Wait>(
    rt: &R,
    alloc: Global,
    board: &Shared,
    pass: &mut Hand,
    user: &[u8],
    ids: &mut Vec<MsgId>,
    round: u32,
) -> Result<bool, AllocError>
    requires pass { IsPassOf plainly board.now pass.old }
    ensures pass { IsPassOf plainly board.now pass.new }
    ensures quota { quota_of pass.new ≡ quota_of pass.old }
{
    let Some(before) = ids.last().copied() else {
        return Ok(false);
    };
    let id = delivers(rt, alloc, board, pass, user)?;
    ids.push(id)?;
    let gone = deletes(rt, alloc, board, pass, user, before)?;
    let told = orders(rt, alloc, board, pass, order_of(round));
    Ok(gone && is_told(&told, ids.len() as u64))
}

// The rounds that are left. Says whether all went as it is to.
fn goes_round<R: Wait>(
    rt: &R,
    alloc: Global,
    board: &Shared,
    pass: &mut Hand,
    user: &[u8],
    ids: &mut Vec<MsgId>,
    left: u32,
) -> Result<bool, AllocError>
    requires pass { IsPassOf plainly board.now pass.old }
    ensures pass { IsPassOf plainly board.now pass.new }
    ensures quota { quota_of pass.new ≡ quota_of pass.old }
{
    if left == 0 {
        return Ok(true);
    }
    if !goes_on(rt, alloc, board, pass, user, ids, left)? {
        return Ok(false);
    }
    goes_round(rt, alloc, board, pass, user, ids, left - 1)
}

// A message, and then the rounds.
fn goes_through<R: Wait>(
    rt: &R,
    alloc: Global,
    board: &Shared,
    pass: &mut Hand,
    user: &[u8],
    ids: &mut Vec<MsgId>,
) -> Result<bool, AllocError>
    requires pass { IsPassOf plainly board.now pass.old }
    ensures pass { IsPassOf plainly board.now pass.new }
    ensures quota { quota_of pass.new ≡ quota_of pass.old }
{
    let id = delivers(rt, alloc, board, pass, user)?;
    ids.push(id)?;
    goes_round(rt, alloc, board, pass, user, ids, ROUNDS)
}

// What is done in the name of one pass: the ids of its messages; none where something did not go as it is to.
fn works<R: Wait>(
    rt: &R,
    alloc: Global,
    board: &Shared,
    pass: Hand,
    user: &[u8],
) -> (Hand, Vec<MsgId>)
    requires pass { IsPassOf plainly board.now pass }
    ensures pass { IsPassOf plainly board.now result.0 × (quota_of result.0 ≡ quota_of pass) }
{
    let mut pass = pass;
    let mut ids = Vec::new(alloc);
    match goes_through(rt, alloc, board, &mut pass, user, &mut ids) {
        Ok(true) => {}
        _ => ids.clear(),
    }
    (pass, ids)
}

// What two passes did: one pass that both are joined in, and the ids of the messages of each.
type Both = (Hand, Vec<MsgId>, Vec<MsgId>);

// Two threads, each with a pass and a user of its own.
fn work_two<R: Threads + Wait + Sync>(
    rt: &R,
    alloc: Global,
    board: &Shared,
    first: Hand,
    second: Hand,
    one: &[u8],
    two: &[u8],
) -> Both
    requires passes { IsPassOf plainly board.now first × IsPassOf plainly board.now second }
    ensures pass { IsPassOf plainly board.now result.0 × (quota_of result.0 ≡ quota_of first + quota_of second) }
{
    let ((mut pass, ones), (other, twos)) = join(
        rt,
        || -> (Hand, Vec<MsgId>)
            requires pass { IsPassOf plainly board.now first }
            ensures { IsPassOf plainly board.entry.now result.0 × (quota_of result.0 ≡ quota_of first) }
        { works(rt, alloc, board, first, one) },
        || -> (Hand, Vec<MsgId>)
            requires pass { IsPassOf plainly board.now second }
            ensures { IsPassOf plainly board.entry.now result.0 × (quota_of result.0 ≡ quota_of second) }
        { works(rt, alloc, board, second, two) },
    );
    board.join(&mut pass, other);
    (pass, ones, twos)
}

// Two threads that have two threads each: the users are ann and bob, cat and dan.
fn work_four<R: Threads + Wait + Sync>(
    rt: &R,
    alloc: Global,
    board: &Shared,
    first: Hand,
    second: Hand,
    third: Hand,
    fourth: Hand,
) -> (Hand, [Sent; 4])
    requires front { IsPassOf plainly board.now first × IsPassOf plainly board.now second }
    requires back { IsPassOf plainly board.now third × IsPassOf plainly board.now fourth }
    ensures pass { IsPassOf plainly board.now result.0 }
    ensures quota { quota_of result.0 ≡ (quota_of first + quota_of second) + (quota_of third + quota_of fourth) }
{
    let ((mut pass, ann, bob), (other, cat, dan)) = join(
        rt,
        || -> Both
            requires passes { IsPassOf plainly board.now first × IsPassOf plainly board.now second }
            ensures { IsPassOf plainly board.entry.now result.0 × (quota_of result.0 ≡ quota_of first + quota_of second) }
        { work_two(rt, alloc, board, first, second, b"ann", b"bob") },
        || -> Both
            requires passes { IsPassOf plainly board.now third × IsPassOf plainly board.now fourth }
            ensures { IsPassOf plainly board.entry.now result.0 × (quota_of result.0 ≡ quota_of third + quota_of fourth) }
        { work_two(rt, alloc, board, third, fourth, b"cat", b"dan") },
    );
    board.join(&mut pass, other);
    let all = [
        sent_by(*b"ann", ann),
        sent_by(*b"bob", bob),
        sent_by(*b"cat", cat),
        sent_by(*b"dan", dan),
    ];
    (pass, all)
}

// The message that an entry of one kind has, where it is of the user.
fn id_in(entry: &Entry, kind: u8, user: &[u8]) -> Option<MsgId> {
    let (of, name, id) = match entry {
        Entry::Acked { user, id, .. } => (b'A', user, *id),
        Entry::Struck { user, id } => (b'S', user, *id),
        Entry::Dropped { user, id, .. } => (b'X', user, *id),
        _ => return None,
    };
    (of == kind && name.octets() == user).then_some(id)
}

// The messages of the user that the entries of one kind have, in order.
fn ids_in(
    alloc: Global,
    entries: &[Entry],
    kind: u8,
    user: &[u8],
) -> Result<Vec<MsgId>, AllocError> {
    let mut ids = Vec::new(alloc);
    for entry in entries {
        if let Some(id) = id_in(entry, kind, user) {
            ids.push(id)?;
        }
    }
    Ok(ids)
}

// Whether the book has just these messages of the user: all of them acknowledged, and all but the last deleted, in order.
fn is_booked(
    alloc: Global,
    entries: &[Entry],
    user: &[u8],
    ids: &[MsgId],
) -> Result<bool, AllocError> {
    let Some((_, gone)) = ids.split_last() else {
        return Ok(false);
    };
    let acked = ids_in(alloc, entries, b'A', user)?;
    let struck = ids_in(alloc, entries, b'S', user)?;
    let dropped = ids_in(alloc, entries, b'X', user)?;
    Ok(acked.as_slice() == ids && struck.as_slice() == gone && dropped.as_slice() == gone)
}

// Whether the store has the last of these messages of the user, and no other.
fn is_kept(
    alloc: Global,
    store: &NodeStore,
    user: &[u8],
    ids: &[MsgId],
) -> Result<bool, AllocError> {
    let Some((last, _)) = ids.split_last() else {
        return Ok(false);
    };
    let kept = store.ids(alloc, &name(alloc, user)?)?;
    Ok(kept.as_slice() == [*last].as_slice() && store.length(*last).is_some())
}

// What was done in the name of a pass: its user, and the ids of the user's messages.
#[derive(Drop)]
struct Sent {
    user: [u8; 3],
    ids: Vec<MsgId>,
}

// Whether the book has all that was sent.
fn all_booked(alloc: Global, entries: &[Entry], all: &[Sent]) -> Result<bool, AllocError> {
    for sent in all {
        if sent.ids.len() != ROUNDS as usize + 1
            || !is_booked(alloc, entries, &sent.user, &sent.ids)?
        {
            return Ok(false);
        }
    }
    Ok(true)
}

// Whether the store has the last message of each pass.
fn all_kept(alloc: Global, store: &NodeStore, all: &[Sent]) -> Result<bool, AllocError> {
    for sent in all {
        if !is_kept(alloc, store, &sent.user, &sent.ids)? {
            return Ok(false);
        }
    }
    Ok(true)
}

// Whether the journal of the disk has them.
fn disk_keeps(alloc: Global, disk: &mut PlainDisk, all: &[Sent]) -> Result<bool, AllocError> {
    match NodeStore::open(alloc, disk, node(1)) {
        Ok((store, _)) => all_kept(alloc, &store, all),
        Err(_) => Ok(false),
    }
}

fn sent_by(user: [u8; 3], ids: Vec<MsgId>) -> Sent {
    Sent { user, ids }
}

// Whether the book and the store of the world have all that was sent, and nothing else.
fn agrees(alloc: Global, world: World<PlainDisk>, all: &[Sent]) -> Result<bool, AllocError> {
    let sum = world.sum();
    if (sum.acked, sum.struck, sum.dropped) != (1340, 1336, 1336) {
        return Ok(false);
    }
    if !all_booked(alloc, world.book().entries(), all)? {
        return Ok(false);
    }
    let mut disks = world.close();
    match disks.first_mut() {
        Some(disk) => disk_keeps(alloc, disk, all),
        None => Ok(false),
    }
}

#[test]
fn four_threads_agree(rt: HostRuntime) -> Result<(), Fail> {
    let alloc = rt.alloc();
    let Some(world) = open_plain(alloc) else {
        panic!(rt; "no world");
    };
    let Some((board, mut first)) = made(alloc, world, CARRY, 4) else {
        panic!(rt; "no memory");
    };
    let second = board.split(&mut first, 1);
    let third = board.split(&mut first, 1);
    let fourth = board.split(&mut first, 1);
    let (pass, all) = work_four(&rt, alloc, &board, first, second, third, fourth);
    let tally = Board::tally(&pass);
    let world = board.close(pass);
    assert_eq!(rt;
        (tally.stored, tally.dropped, tally.failed),
        (1340, 1336, 0)
    );
    assert_eq!(rt; (tally.down, tally.worn), (0, 0));
    assert!(rt; agrees(alloc, world, &all)?);
    Ok(())
}
