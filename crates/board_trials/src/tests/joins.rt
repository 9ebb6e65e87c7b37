// A pass takes another in, and reads what this one did.
ghost use Rattle.std.specs.Prelude.{◌≡◌};
ghost use Rattle.cluster_trials.specs.Disks.{in_memory};
ghost use Rattle.shard_board.specs.Boards.{quota_of, IsPassOf};

use super::{CARRY, Cluster, Pass, made, node, opened};
use crate::fresh::message;
use board_desk::BoardDesk;
use call_tickets::{Answer, Ask, Call, Desk, DeskFault, DeskTicket, Posted, Tally};
use shard_board::Board;
use std::alloc::{AllocError, Global};
use std::sync::Wait;
use std::test::Fail;
use world_book::Entry;

// A message to ann begins at node 1.
fn begins<R: Wait>(
    rt: &R,
    alloc: Global,
    board: &Cluster,
    pass: &mut Pass,
) -> Result<Result<DeskTicket, DeskFault>, AllocError>
    requires pass { IsPassOf in_memory board.now pass.old }
    ensures pass { IsPassOf in_memory board.now pass.new }
    ensures quota { quota_of pass.new ≡ quota_of pass.old }
{
    let call = Call::Deliver(message(alloc, b"ann")?);
    let desk = BoardDesk::new(rt, board, pass);
    Ok(desk.begin(alloc, pass, node(1), call))
}

fn asks<R: Wait>(
    rt: &R,
    alloc: Global,
    board: &Cluster,
    pass: &mut Pass,
    ticket: &DeskTicket,
) -> Result<Ask, DeskFault>
    requires pass { IsPassOf in_memory board.now pass.old }
    ensures pass { IsPassOf in_memory board.now pass.new }
    ensures quota { quota_of pass.new ≡ quota_of pass.old }
{
    let desk = BoardDesk::new(rt, board, pass);
    desk.ask(alloc, pass, ticket)
}

fn gives_up<R: Wait>(
    rt: &R,
    alloc: Global,
    board: &Cluster,
    pass: &mut Pass,
    ticket: DeskTicket,
) -> Result<(), DeskFault>
    requires pass { IsPassOf in_memory board.now pass.old }
    ensures pass { IsPassOf in_memory board.now pass.new }
    ensures quota { quota_of pass.new ≡ quota_of pass.old }
{
    let desk = BoardDesk::new(rt, board, pass);
    desk.give_up(alloc, pass, ticket)
}

fn posts<R: Wait>(
    rt: &R,
    alloc: Global,
    board: &Cluster,
    pass: &mut Pass,
) -> Result<Posted, DeskFault>
    requires pass { IsPassOf in_memory board.now pass.old }
    ensures pass { IsPassOf in_memory board.now pass.new }
    ensures quota { quota_of pass.new ≡ quota_of pass.old }
{
    let desk = BoardDesk::new(rt, board, pass);
    desk.post_one(alloc, pass)
}

fn is_stored(asked: &Result<Ask, DeskFault>) -> bool {
    matches!(asked, Ok(Ask::Done(Answer::Stored { .. })))
}

// Whether a message is stored, and then its ticket stands no more.
fn stores<R: Wait>(
    rt: &R,
    alloc: Global,
    board: &Cluster,
    pass: &mut Pass,
) -> Result<bool, AllocError>
    requires pass { IsPassOf in_memory board.now pass.old }
    ensures pass { IsPassOf in_memory board.now pass.new }
    ensures quota { quota_of pass.new ≡ quota_of pass.old }
{
    let Ok(ticket) = begins(rt, alloc, board, pass)? else {
        return Ok(false);
    };
    let asked = asks(rt, alloc, board, pass, &ticket);
    let again = asks(rt, alloc, board, pass, &ticket);
    Ok(is_stored(&asked) && matches!(again, Err(DeskFault::Down)))
}

// Whether a message is given up, and a letter is then looked for in vain.
fn drops<R: Wait>(
    rt: &R,
    alloc: Global,
    board: &Cluster,
    pass: &mut Pass,
) -> Result<bool, AllocError>
    requires pass { IsPassOf in_memory board.now pass.old }
    ensures pass { IsPassOf in_memory board.now pass.new }
    ensures quota { quota_of pass.new ≡ quota_of pass.old }
{
    let Ok(ticket) = begins(rt, alloc, board, pass)? else {
        return Ok(false);
    };
    let gave = gives_up(rt, alloc, board, pass, ticket);
    let posted = posts(rt, alloc, board, pass);
    Ok(gave == Ok(()) && posted == Ok(Posted::Quiet))
}

// Whether the entry is that of the first message to ann.
fn is_first(entry: &Entry) -> bool {
    match entry {
        Entry::Acked {
            user,
            id,
            confirmers,
            ..
        } => user.octets() == b"ann".as_slice() && id.seq() == 1 && confirmers.mask() == 1,
        _ => false,
    }
}

fn reads_first(entry: &Result<Option<Entry>, AllocError>) -> bool {
    match entry {
        Ok(Some(entry)) => is_first(entry),
        _ => false,
    }
}

// How often each thing was counted: stored, down, and anything else.
fn counts(tally: Tally) -> [u64; 3] {
    let others = [
        tally.listed,
        tally.wrong,
        tally.in_use,
        tally.no_profile,
        tally.part,
        tally.gone,
        tally.dropped,
        tally.failed,
        tally.worn,
        tally.leaves,
    ];
    let mut sum = 0u64;
    for count in others {
        sum = sum.saturating_add(count);
    }
    [tally.stored, tally.down, sum]
}

#[test]
fn joined_entry_is_read(rt: HostRuntime) -> Result<(), Fail> {
    let alloc = rt.alloc();
    let Ok(world) = opened(alloc, 1, 1) else {
        panic!(rt; "no world");
    };
    let Some((board, mut first)) = made(alloc, world, CARRY, 2) else {
        panic!(rt; "no memory");
    };
    let mut second = board.split(&mut first, 1);
    let stored = stores(&rt, alloc, &board, &mut first);
    let counted = Board::tally(&second);
    board.join(&mut second, first);
    let read = reads_first(&board.entry(&rt, &mut second, 0));
    let dropped = drops(&rt, alloc, &board, &mut second);
    let tally = Board::tally(&second);
    let sum = board.close(second).sum();
    assert!(rt; stored? && read && dropped?);
    assert_eq!(rt; counts(counted), [0, 0, 0]);
    assert_eq!(rt; counts(tally), [1, 1, 0]);
    assert_eq!(rt; sum.acked, 1);
    Ok(())
}
