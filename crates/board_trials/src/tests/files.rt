// A board over files, which tell nothing of what they hold: letters are lost, a node stops and starts again, and what is owed is
// sent again.
ghost use Rattle.std.specs.Prelude.{◌≡◌, length, IfSome};
ghost use Rattle.node_store.specs.Disks.{view_of};
ghost use Rattle.cluster_world.specs.Opens.{AreEmpty};
ghost use Rattle.shard_board.specs.Worlds.{IsSoundWorld};
ghost use Rattle.shard_board.specs.Boards.{quota_of, IsPassOf};

use super::orders::{told_order, told_posted, told_step};
use super::{count, made, node};
use crate::fresh::{message, plan};
use crate::lots::Lots;
use call_tickets::Call;
use cluster_world::World;
use io_edge::{Disk, SetClock};
use mail_base::{NodeNo, Ticket};
use node_disk::FileDisk;
use shard_board::{Board, BoardPass, Order, opened_is_sound};
use std::alloc::{AllocError, Global};
use std::fs;
use std::fs::File;
use std::rt::Files;
use std::sync::Wait;
use std::test::Fail;

type Shared<D> = Board<D, Lots, SetClock>;

type Hand<D> = BoardPass<D, Lots, SetClock>;

// What is done at a plan of three nodes, of which two have to confirm a message: a letter for the call, its node, its second node
// or the number of the ticket, and two letters for the answer.
const ROWS: [[u8; 5]; 20] = [
    // Both letters of a message of node 1 are lost, so it is not stored.
    *b"D1.B1", *b"p..po", *b"p..po", *b"p..qu", *b"A11F.",
    // Node 2 stops, and starts again over its file. Node 1 regroups, and lets it in.
    *b"C2...", *b">21do", *b"S2.U2", *b"R1.E7",
    // Node 1 sends again what it owes. Both hear it, and acknowledge it; and then they hear that all have it.
    *b">12L1", *b">13L1", *b"p..po", *b"p..po", *b"p..po", *b"p..po", *b"p..po", *b"p..po",
    *b"p..qu", *b">12L0", *b">13L0",
];

// Both letters of the first message are lost.
const LOST: [u8; 8] = *b"dd......";

fn delivers<D: Disk, R: Wait>(
    rt: &R,
    alloc: Global,
    board: &Shared<D>,
    pass: &mut Hand<D>,
    node: NodeNo,
) -> Result<[u8; 2], AllocError>
    requires pass { IsPassOf (view_of D.seen D.faults D.clock) board.now pass.old }
    ensures pass { IsPassOf (view_of D.seen D.faults D.clock) board.now pass.new }
    ensures quota { quota_of pass.new ≡ quota_of pass.old }
{
    let deliver = message(alloc, b"ann")?;
    let begun = board.begin(rt, alloc, pass, node, Call::Deliver(deliver));
    Ok(told_step(&begun))
}

fn asks<D: Disk, R: Wait>(
    rt: &R,
    alloc: Global,
    board: &Shared<D>,
    pass: &mut Hand<D>,
    ticket: Ticket,
) -> [u8; 2]
    requires pass { IsPassOf (view_of D.seen D.faults D.clock) board.now pass.old }
    ensures pass { IsPassOf (view_of D.seen D.faults D.clock) board.now pass.new }
    ensures quota { quota_of pass.new ≡ quota_of pass.old }
{
    let asked = board.ask(rt, alloc, pass, ticket);
    told_step(&asked)
}

fn posts<D: Disk, R: Wait>(rt: &R, alloc: Global, board: &Shared<D>, pass: &mut Hand<D>) -> [u8; 2]
    requires pass { IsPassOf (view_of D.seen D.faults D.clock) board.now pass.old }
    ensures pass { IsPassOf (view_of D.seen D.faults D.clock) board.now pass.new }
    ensures quota { quota_of pass.new ≡ quota_of pass.old }
{
    let posted = board.post_one(rt, alloc, pass);
    told_posted(&posted)
}

// An order is carried out, whatever the disks tell.
fn orders<D: Disk, R: Wait>(
    rt: &R,
    alloc: Global,
    board: &Shared<D>,
    pass: &mut Hand<D>,
    order: Order,
) -> [u8; 2]
    requires pass { IsPassOf (view_of D.seen D.faults D.clock) board.now pass.old }
    ensures pass { IsPassOf (view_of D.seen D.faults D.clock) board.now pass.new }
    ensures quota { quota_of pass.new ≡ quota_of pass.old }
{
    let told = board.console(rt, alloc, pass, order);
    told_order(&told)
}

// Does what a row tells, and says what came of it.
fn does<D: Disk, R: Wait>(
    rt: &R,
    alloc: Global,
    board: &Shared<D>,
    pass: &mut Hand<D>,
    what: u8,
    one: NodeNo,
    two: NodeNo,
) -> Result<[u8; 2], AllocError>
    requires pass { IsPassOf (view_of D.seen D.faults D.clock) board.now pass.old }
    ensures pass { IsPassOf (view_of D.seen D.faults D.clock) board.now pass.new }
    ensures quota { quota_of pass.new ≡ quota_of pass.old }
{
    match what {
        b'D' => delivers(rt, alloc, board, pass, one),
        b'A' => Ok(asks(rt, alloc, board, pass, Ticket::new(one, 1, 1))),
        b'p' => Ok(posts(rt, alloc, board, pass)),
        b'C' => Ok(orders(rt, alloc, board, pass, Order::Crash(one))),
        b'S' => Ok(orders(rt, alloc, board, pass, Order::Start(one))),
        b'R' => Ok(orders(rt, alloc, board, pass, Order::Regroup(one))),
        _ => Ok(orders(rt, alloc, board, pass, Order::Push { from: one, to: two })),
    }
}

// How many rows are left, where each before them answered as it is to.
fn left_of<D: Disk, R: Wait>(
    rt: &R,
    alloc: Global,
    board: &Shared<D>,
    pass: &mut Hand<D>,
    rows: &[[u8; 5]],
) -> Result<usize, AllocError>
    requires pass { IsPassOf (view_of D.seen D.faults D.clock) board.now pass.old }
    ensures pass { IsPassOf (view_of D.seen D.faults D.clock) board.now pass.new }
    ensures quota { quota_of pass.new ≡ quota_of pass.old }
{
    let Some((row, others)) = rows.split_first() else {
        return Ok(0);
    };
    let [what, one, two, kind, digit] = *row;
    let told = does(
        rt,
        alloc,
        board,
        pass,
        what,
        node(count(one)),
        node(count(two)),
    )?;
    if told != [kind, digit] {
        return Ok(rows.len());
    }
    left_of(rt, alloc, board, pass, others)
}

// A new world of three nodes over these disks.
fn opened<D: Disk + Drop>(alloc: Global, disks: Vec<D>) -> Option<World<D>>
    requires three { length disks.items ≡ 3 }
    requires empty { AreEmpty D.seen disks.items }
    ensures { IfSome result (λ world. IsSoundWorld (view_of D.seen D.faults D.clock) world) }
{
    let plan = plan(alloc, 3, 2).ok()?;
    opened_is_sound::<D>();
    match World::open(alloc, plan, disks) {
        Ok(world) => Some(world),
        Err(_) => None,
    }
}

// How many rows are left at a board over this world.
fn runs<D: Disk + Drop, R: Wait>(rt: &R, alloc: Global, world: World<D>) -> Option<usize>
    requires { IsSoundWorld (view_of D.seen D.faults D.clock) world }
{
    let (board, mut pass) = made(alloc, world, LOST, 1)?;
    let left = left_of(rt, alloc, &board, &mut pass, &ROWS);
    let _ = board.close(pass);
    left.ok()
}

// The files of three nodes.
fn files<R: Files<File = File>>(system: &R, alloc: Global) -> Option<Vec<FileDisk>>
    ensures { IfSome result (λ disks. length disks.items ≡ 3) }
{
    let mut disks = Vec::new(alloc);
    disks
        .push(FileDisk::open(system, "board-over-files/1").ok()?)
        .ok()?;
    disks
        .push(FileDisk::open(system, "board-over-files/2").ok()?)
        .ok()?;
    disks
        .push(FileDisk::open(system, "board-over-files/3").ok()?)
        .ok()?;
    Some(disks)
}

// The same at a board over three files.
fn over_files<R: Wait + Files<File = File>>(rt: &R, alloc: Global) -> Option<usize> {
    let world = opened(alloc, files(rt, alloc)?)?;
    runs(rt, alloc, world)
}

// Nothing is left of a run that was cut off.
fn clear<R: Files<File = File>>(system: &R) {
    let _ = fs::remove_file(system, "board-over-files/1");
    let _ = fs::remove_file(system, "board-over-files/2");
    let _ = fs::remove_file(system, "board-over-files/3");
    let _ = fs::remove_dir(system, "board-over-files");
}

#[test]
fn what_is_owed_is_sent_again(rt: HostRuntime) -> Result<(), Fail> {
    clear(&rt);
    fs::create_dir(&rt, "board-over-files")?;
    let left = over_files(&rt, rt.alloc());
    clear(&rt);
    assert_eq!(rt; left, Some(0));
    Ok(())
}
