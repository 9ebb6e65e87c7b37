//! Who carries letters at a board, and has nodes send what they owe and tell what they have.
ghost use Rattle.std.specs.Prelude.{◌≡◌};
ghost use Rattle.node_store.specs.Disks.{view_of};
ghost use Rattle.cluster_world.specs.declared.step.Step.TheVariants.{Push, Report};
ghost use Rattle.shard_board.specs.Boards.{IsPassOf, IsTurnOf};
ghost use Rattle.shard_board.specs.Posts.{PostsOne};
ghost use Rattle.board_service.specs.Passes.{GoesStill};
ghost use Rattle.shard_board.specs.Reads.{TellsLife};
ghost use Rattle.board_service.specs.Carrying.{has_posted, WasOrdered, PushesAndReports, PushesTo, MayPush, PushesAfter, Carries};

use call_tickets::{DeskFault, Life, Posted};
use io_edge::{Clock, Disk, Fate};
use mail_base::NodeNo;
use shard_board::{Board, BoardPass, Order};
use std::alloc::Global;
use std::sync::Wait;
use std::sync::atomic::{AtomicU64, Ordering};

// Whether a letter was looked at.
fn has_posted(posted: &Result<Posted, DeskFault>) -> bool
    ensures { result ≡ has_posted posted.now }
{
    match posted {
        Ok(Posted::Did) => true,
        Ok(Posted::Quiet) => false,
        Err(_) => false,
    }
}

// What fate decides of the letter of the lowest number is done, if one is in flight.
fn post<R: Wait, D: Disk, F: Fate, C: Clock>(
    rt: &R,
    alloc: Global,
    board: &Board<D, F, C>,
    pass: &mut BoardPass<D, F, C>,
) -> Result<Posted, DeskFault>
    requires pass { IsPassOf (view_of D.seen D.faults D.clock) board.now pass.old }
    ensures goes { GoesStill (view_of D.seen D.faults D.clock) board.now pass.old pass.new }
    ensures turn { IsTurnOf (view_of D.seen D.faults D.clock) (PostsOne (view_of D.seen D.faults D.clock) F.decides) board.now pass.old pass.new result }
{
    board.post_one(rt, alloc, pass)
}

// A node sends to another what it owes.
fn push<R: Wait, D: Disk, F, C>(
    rt: &R,
    alloc: Global,
    board: &Board<D, F, C>,
    pass: &mut BoardPass<D, F, C>,
    from: NodeNo,
    to: NodeNo,
)
    requires pass { IsPassOf (view_of D.seen D.faults D.clock) board.now pass.old }
    ensures goes { GoesStill (view_of D.seen D.faults D.clock) board.now pass.old pass.new }
    ensures pushed { WasOrdered (view_of D.seen D.faults D.clock) board.now (Push from to) pass.old pass.new }
{
    let _told = board.console(rt, alloc, pass, Order::Push { from, to });
}

// A node tells another, as its manager, what it has of users.
fn report<R: Wait, D: Disk, F, C>(
    rt: &R,
    alloc: Global,
    board: &Board<D, F, C>,
    pass: &mut BoardPass<D, F, C>,
    from: NodeNo,
    to: NodeNo,
)
    requires pass { IsPassOf (view_of D.seen D.faults D.clock) board.now pass.old }
    ensures goes { GoesStill (view_of D.seen D.faults D.clock) board.now pass.old pass.new }
    ensures reported { WasOrdered (view_of D.seen D.faults D.clock) board.now (Report from to) pass.old pass.new }
{
    let _told = board.console(rt, alloc, pass, Order::Report { from, to });
}

// Both, one after the other.
fn push_and_report<R: Wait, D: Disk, F, C>(
    rt: &R,
    alloc: Global,
    board: &Board<D, F, C>,
    pass: &mut BoardPass<D, F, C>,
    from: NodeNo,
    to: NodeNo,
)
    requires pass { IsPassOf (view_of D.seen D.faults D.clock) board.now pass.old }
    ensures goes { GoesStill (view_of D.seen D.faults D.clock) board.now pass.old pass.new }
    ensures told { PushesAndReports (view_of D.seen D.faults D.clock) board.now to pass.old pass.new }
{
    push(rt, alloc, board, pass, from, to);
    report(rt, alloc, board, pass, from, to);
}

// How a node is.
fn life_of<R: Wait, D: Disk, F, C>(
    rt: &R,
    board: &Board<D, F, C>,
    pass: &mut BoardPass<D, F, C>,
    node: NodeNo,
) -> Option<Life>
    requires pass { IsPassOf (view_of D.seen D.faults D.clock) board.now pass.old }
    ensures goes { GoesStill (view_of D.seen D.faults D.clock) board.now pass.old pass.new }
    ensures turn { IsTurnOf (view_of D.seen D.faults D.clock) (TellsLife node) board.now pass.old pass.new result }
{
    board.is_up(rt, pass, node)
}

// Both, where the receiver is up. Whatever is sent to another is lost.
fn push_to<R: Wait, D: Disk, F, C>(
    rt: &R,
    alloc: Global,
    board: &Board<D, F, C>,
    pass: &mut BoardPass<D, F, C>,
    from: NodeNo,
    to: NodeNo,
    life: Option<Life>,
)
    requires pass { IsPassOf (view_of D.seen D.faults D.clock) board.now pass.old }
    ensures goes { GoesStill (view_of D.seen D.faults D.clock) board.now pass.old pass.new }
    ensures told { PushesTo (view_of D.seen D.faults D.clock) board.now to life pass.old pass.new }
{
    match life {
        Some(_) => push_and_report(rt, alloc, board, pass, from, to),
        None => {}
    }
}

// Whether the receiver is up is asked first.
fn ask_and_push<R: Wait, D: Disk, F, C>(
    rt: &R,
    alloc: Global,
    board: &Board<D, F, C>,
    pass: &mut BoardPass<D, F, C>,
    from: NodeNo,
    to: NodeNo,
)
    requires pass { IsPassOf (view_of D.seen D.faults D.clock) board.now pass.old }
    ensures goes { GoesStill (view_of D.seen D.faults D.clock) board.now pass.old pass.new }
    ensures push { MayPush (view_of D.seen D.faults D.clock) board.now pass.old pass.new }
{
    let life = life_of(rt, board, pass, to);
    push_to(rt, alloc, board, pass, from, to, life)
}

// The node at this place in the round of so many.
fn node_at(place: u64) -> Option<NodeNo> {
    let number = u8::try_from(place).ok()?.checked_add(1)?;
    NodeNo::new(number)
}

// Which node is to send to which, at this place in the round of all pairs; nothing where they are one.
fn pair_at(nodes: u8, place: u64) -> Option<(NodeNo, NodeNo)> {
    let count = u64::from(nodes);
    if count < 2 {
        return None;
    }
    let from = node_at(place % count)?;
    let to = node_at(place / count % count)?;
    if from == to {
        return None;
    }
    Some((from, to))
}

// The pair at this place in the round has its push and its report, where the receiver is up.
fn push_at<R: Wait, D: Disk, F, C>(
    rt: &R,
    alloc: Global,
    board: &Board<D, F, C>,
    pass: &mut BoardPass<D, F, C>,
    nodes: u8,
    place: u64,
)
    requires pass { IsPassOf (view_of D.seen D.faults D.clock) board.now pass.old }
    ensures goes { GoesStill (view_of D.seen D.faults D.clock) board.now pass.old pass.new }
    ensures push { MayPush (view_of D.seen D.faults D.clock) board.now pass.old pass.new }
{
    match pair_at(nodes, place) {
        Some((from, to)) => ask_and_push(rt, alloc, board, pass, from, to),
        None => {}
    }
}

// The next pair in the round has its push and its report.
fn push_next<R: Wait, D: Disk, F, C>(
    rt: &R,
    alloc: Global,
    board: &Board<D, F, C>,
    pass: &mut BoardPass<D, F, C>,
    nodes: u8,
    pushes: &AtomicU64,
)
    requires pass { IsPassOf (view_of D.seen D.faults D.clock) board.now pass.old }
    ensures goes { GoesStill (view_of D.seen D.faults D.clock) board.now pass.old pass.new }
    ensures push { MayPush (view_of D.seen D.faults D.clock) board.now pass.old pass.new }
{
    let place = pushes.fetch_add(1, Ordering::SeqCst);
    push_at(rt, alloc, board, pass, nodes, place)
}

// The same, but where a letter was looked at.
fn push_after<R: Wait, D: Disk, F, C>(
    rt: &R,
    alloc: Global,
    board: &Board<D, F, C>,
    pass: &mut BoardPass<D, F, C>,
    nodes: u8,
    pushes: &AtomicU64,
    did: bool,
)
    requires pass { IsPassOf (view_of D.seen D.faults D.clock) board.now pass.old }
    ensures goes { GoesStill (view_of D.seen D.faults D.clock) board.now pass.old pass.new }
    ensures push { PushesAfter (view_of D.seen D.faults D.clock) board.now did pass.old pass.new }
{
    match did {
        true => {}
        false => push_next(rt, alloc, board, pass, nodes, pushes),
    }
}

/// Does what fate decides of the letter of the lowest number in flight. Where there is none, the next of all pairs of nodes has its
/// push and its report, if the receiver is up. That is no reason to go on: a node that is up and answers nothing would be sent the
/// same again and again. Answers whether a letter was looked at.
pub(crate) fn carry_one<R: Wait, D: Disk, F: Fate, C: Clock>(
    rt: &R,
    alloc: Global,
    board: &Board<D, F, C>,
    pass: &mut BoardPass<D, F, C>,
    nodes: u8,
    pushes: &AtomicU64,
) -> bool
    requires pass { IsPassOf (view_of D.seen D.faults D.clock) board.now pass.old }
    ensures goes { GoesStill (view_of D.seen D.faults D.clock) board.now pass.old pass.new }
    ensures carries { Carries (view_of D.seen D.faults D.clock) board.now F.decides pass.old result pass.new }
{
    let posted = post(rt, alloc, board, pass);
    let did = has_posted(&posted);
    push_after(rt, alloc, board, pass, nodes, pushes, did);
    did
}
