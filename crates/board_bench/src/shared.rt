// Threads that take turns at a board, each in the name of a pass of its own.
ghost use Rattle.std.specs.Prelude.{◌≡◌, ◌≤◌};
ghost use Rattle.std.specs.Thread.{IsSync};
ghost use Rattle.shard_board.specs.Boards.{quota_of, IsPassOf};
ghost use Rattle.shard_board.specs.Worlds.{IsSoundWorld};
ghost use Rattle.board_trials.specs.Disks.{plainly};

use crate::words::{Job, Work};
use board_desk::{Asking, Beginning};
use board_trials::message;
use call_tickets::{Answer, Ask, Call, DeskFault, DeskTicket};
use cluster_world::World;
use io_edge::{CarryAll, PlainDisk, SetClock};
use mail_base::NodeNo;
use shard_board::{Board, BoardPass};
use std::alloc::Global;
use std::sync::Wait;
use std::thread::{Threads, join};

type Shared = Board<PlainDisk, CarryAll, SetClock>;

type Hand = BoardPass<PlainDisk, CarryAll, SetClock>;

/// Whether the call is answered that a message is stored.
pub fn is_stored(asked: &Result<Ask, DeskFault>) -> bool {
    matches!(asked, Ok(Ask::Done(Answer::Stored { .. })))
}

// One turn that looks at the node. Says how many turns went as they are to.
fn looks<R: Wait>(rt: &R, board: &Shared, pass: &mut Hand, node: NodeNo) -> u64
    requires pass { IsPassOf plainly board.now pass.old }
    ensures pass { IsPassOf plainly board.now pass.new }
    ensures quota { quota_of pass.new ≡ quota_of pass.old }
{
    match board.is_up(rt, pass, node) {
        Some(_) => 1,
        None => 0,
    }
}

// A message begins.
fn begins<R: Wait>(
    rt: &R,
    alloc: Global,
    board: &Shared,
    pass: &mut Hand,
    node: NodeNo,
    call: Call,
) -> Result<DeskTicket, DeskFault>
    requires pass { IsPassOf plainly board.now pass.old }
    ensures pass { IsPassOf plainly board.now pass.new }
    ensures quota { quota_of pass.new ≡ quota_of pass.old }
{
    board.act(rt, alloc, pass, Beginning { node, call })
}

// It is asked for.
fn asks<R: Wait>(
    rt: &R,
    alloc: Global,
    board: &Shared,
    pass: &mut Hand,
    ticket: &DeskTicket,
) -> Result<Ask, DeskFault>
    requires pass { IsPassOf plainly board.now pass.old }
    ensures pass { IsPassOf plainly board.now pass.new }
    ensures quota { quota_of pass.new ≡ quota_of pass.old }
{
    board.act(rt, alloc, pass, Asking { ticket })
}

// Both. Says how many turns went as they are to.
fn sends<R: Wait>(rt: &R, alloc: Global, board: &Shared, pass: &mut Hand, node: NodeNo) -> u64
    requires pass { IsPassOf plainly board.now pass.old }
    ensures pass { IsPassOf plainly board.now pass.new }
    ensures quota { quota_of pass.new ≡ quota_of pass.old }
{
    let Ok(mail) = message(alloc, b"ann") else {
        return 0;
    };
    let Ok(ticket) = begins(rt, alloc, board, pass, node, Call::Deliver(mail)) else {
        return 0;
    };
    let asked = asks(rt, alloc, board, pass, &ticket);
    if is_stored(&asked) { 2 } else { 1 }
}

// One round.
fn goes_round<R: Wait>(
    rt: &R,
    alloc: Global,
    board: &Shared,
    pass: &mut Hand,
    node: NodeNo,
    work: Work,
) -> u64
    requires pass { IsPassOf plainly board.now pass.old }
    ensures pass { IsPassOf plainly board.now pass.new }
    ensures quota { quota_of pass.new ≡ quota_of pass.old }
{
    match work {
        Work::Look => looks(rt, board, pass, node),
        Work::Send => sends(rt, alloc, board, pass, node),
    }
}

// All rounds of one thread.
fn works<R: Wait>(
    rt: &R,
    alloc: Global,
    board: &Shared,
    mut pass: Hand,
    work: Work,
    rounds: u32,
) -> (Hand, u64)
    requires pass { IsPassOf plainly board.now pass }
    ensures pass { IsPassOf plainly board.now result.0 × (quota_of result.0 ≡ quota_of pass) }
{
    let Some(node) = NodeNo::new(1) else {
        return (pass, 0);
    };
    let mut turns = 0u64;
    for _ in 0..rounds {
        turns = turns.saturating_add(goes_round(rt, alloc, board, &mut pass, node, work));
    }
    (pass, turns)
}

// So many threads, half of them beside the other half.
#[cycle(halves)]
fn work_all<R: Threads + Wait + Sync>(
    rt: &R,
    alloc: Global,
    board: &Shared,
    mut pass: Hand,
    threads: u32,
    work: Work,
    rounds: u32,
) -> (Hand, u64)
    requires sync { IsSync R.row }
    requires pass { IsPassOf plainly board.now pass }
    requires enough { threads ≤ quota_of pass }
    ensures pass { IsPassOf plainly board.now result.0 × (quota_of result.0 ≡ quota_of pass) }
{
    if threads < 2 {
        return works(rt, alloc, board, pass, work, rounds);
    }
    let half = threads / 2;
    let rest = threads - half;
    let other = board.split(&mut pass, half);
    let ((mut pass, turns), (other, more)) = join(
        rt,
        || -> (Hand, u64)
            requires sync { IsSync R.row }
            requires pass { IsPassOf plainly board.now pass }
            requires enough { rest ≤ quota_of pass }
            ensures { IsPassOf plainly board.entry.now result.0 × (quota_of result.0 ≡ quota_of pass) }
        { work_all(rt, alloc, board, pass, rest, work, rounds) },
        || -> (Hand, u64)
            requires sync { IsSync R.row }
            requires pass { IsPassOf plainly board.now other }
            requires enough { half ≤ quota_of other }
            ensures { IsPassOf plainly board.entry.now result.0 × (quota_of result.0 ≡ quota_of other) }
        { work_all(rt, alloc, board, other, half, work, rounds) },
    );
    board.join(&mut pass, other);
    (pass, turns.saturating_add(more))
}

/// Has the threads of the job take their turns at a board over this world. Says how many went as they are to; nothing where memory
/// ran out.
pub fn by_board<R: Threads + Wait + Sync>(
    rt: &R,
    alloc: Global,
    world: World<PlainDisk>,
    job: Job,
) -> Option<u64>
    requires sound { IsSoundWorld plainly world }
    requires some { 1 ≤ job.threads }
{
    let clock = SetClock { seconds: 12 };
    match Board::new(alloc, world, CarryAll, clock, job.threads) {
        Ok((board, pass)) => {
            let (pass, turns) = work_all(
                rt,
                alloc,
                &board,
                pass,
                job.threads,
                job.work,
                job.rounds,
            );
            let _ = board.close(pass);
            Some(turns)
        }
        Err(_) => None,
    }
}
