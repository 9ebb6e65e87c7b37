// Threads that take turns at a world behind a Mutex.
ghost use Rattle.std.specs.Thread.{IsSync};
ghost use Rattle.shard_board.specs.Worlds.{IsSoundWorld};
ghost use Rattle.board_trials.specs.Disks.{plainly};

use crate::shared::is_stored;
use crate::words::{Job, Work};
use board_desk::{Asking, Beginning};
use board_trials::message;
use call_tickets::{Ask, Call, DeskFault, DeskTicket};
use cluster_world::World;
use io_edge::PlainDisk;
use mail_base::NodeNo;
use shard_board::Deed;
use std::alloc::Global;
use std::marker::Model;
use std::sync::{Mutex, Wait};
use std::thread::{Threads, join};

/// A sound world, and the node that is asked. Contracts see the node.
#[derive(Drop)]
struct Guarded {
    world: World<PlainDisk>,
    node: NodeNo,
}

impl Model for Guarded {
    ghost use Rattle.std.specs.Prelude.{ℕ};
    ghost use Rattle.shard_board.specs.Worlds.{IsSoundWorld};
    ghost use Rattle.board_trials.specs.Disks.{plainly};

    ghost Value = { ℕ };

    ghost view = { λ g. g.node };

    ghost invariant = { λ g. IsSoundWorld plainly g.world };
}

impl Guarded {
    fn new(world: World<PlainDisk>, node: NodeNo) -> Guarded
        requires { IsSoundWorld plainly world }
    {
        Guarded { world, node }
    }

    fn looks(&self) -> bool {
        self.world.boot(self.node).is_some()
    }

    fn begins(&mut self, alloc: Global, call: Call) -> Result<DeskTicket, DeskFault> {
        let node = self.node;
        Beginning { node, call }.act(alloc, &mut self.world)
    }

    fn asks(&mut self, alloc: Global, ticket: &DeskTicket) -> Result<Ask, DeskFault> {
        Asking { ticket }.act(alloc, &mut self.world)
    }
}

// One turn that looks at the node. Says how many turns went as they are to.
fn looks<R: Wait>(rt: &R, world: &Mutex<Guarded>) -> u64 {
    if world.lock(rt).looks() { 1 } else { 0 }
}

// A message begins.
fn begins<R: Wait>(
    rt: &R,
    alloc: Global,
    world: &Mutex<Guarded>,
    call: Call,
) -> Result<DeskTicket, DeskFault> {
    world.lock(rt).begins(alloc, call)
}

// It is asked for.
fn asks<R: Wait>(
    rt: &R,
    alloc: Global,
    world: &Mutex<Guarded>,
    ticket: &DeskTicket,
) -> Result<Ask, DeskFault> {
    world.lock(rt).asks(alloc, ticket)
}

// Both. Says how many turns went as they are to.
fn sends<R: Wait>(rt: &R, alloc: Global, world: &Mutex<Guarded>) -> u64 {
    let Ok(mail) = message(alloc, b"ann") else {
        return 0;
    };
    let Ok(ticket) = begins(rt, alloc, world, Call::Deliver(mail)) else {
        return 0;
    };
    let asked = asks(rt, alloc, world, &ticket);
    if is_stored(&asked) { 2 } else { 1 }
}

// One round.
fn goes_round<R: Wait>(rt: &R, alloc: Global, world: &Mutex<Guarded>, work: Work) -> u64 {
    match work {
        Work::Look => looks(rt, world),
        Work::Send => sends(rt, alloc, world),
    }
}

// All rounds of one thread.
fn works<R: Wait>(rt: &R, alloc: Global, world: &Mutex<Guarded>, work: Work, rounds: u32) -> u64 {
    let mut turns = 0u64;
    for _ in 0..rounds {
        turns = turns.saturating_add(goes_round(rt, alloc, world, work));
    }
    turns
}

// So many threads, half of them beside the other half.
#[cycle(halves)]
fn work_all<R: Threads + Wait + Sync>(
    rt: &R,
    alloc: Global,
    world: &Mutex<Guarded>,
    threads: u32,
    work: Work,
    rounds: u32,
) -> u64
    requires { IsSync R.row }
{
    if threads < 2 {
        return works(rt, alloc, world, work, rounds);
    }
    let half = threads / 2;
    let rest = threads - half;
    let (turns, more) = join(
        rt,
        || -> u64
            requires { IsSync R.row }
        { work_all(rt, alloc, world, rest, work, rounds) },
        || -> u64
            requires { IsSync R.row }
        { work_all(rt, alloc, world, half, work, rounds) },
    );
    turns.saturating_add(more)
}

/// Has the threads of the job take their turns at this world behind a Mutex. Says how many went as they are to.
pub fn by_mutex<R: Threads + Wait + Sync>(
    rt: &R,
    alloc: Global,
    world: World<PlainDisk>,
    job: Job,
) -> Option<u64>
    requires { IsSoundWorld plainly world }
{
    let world = Mutex::new(Guarded::new(world, NodeNo::new(1)?));
    Some(work_all(rt, alloc, &world, job.threads, job.work, job.rounds))
}
