//! A line of the console, at a board.
ghost use Rattle.std.specs.Prelude.{◌≡◌, ◌++◌, List, ℕ, OnOk};
ghost use Rattle.node_store.specs.Disks.{view_of};
ghost use Rattle.shard_board.specs.Boards.{IsPassOf};
ghost use Rattle.board_service.specs.ConsoleLines.{board_order};
ghost use Rattle.board_service.specs.Obeying.{IsOrdered, OrdersBy, HearsOrder, ObeysLine};
ghost use Rattle.board_service.specs.Passes.{GoesStill};

use crate::answers::{say_answer, say_refused};
use crate::orders::{ConsoleOrder, board_order, order_heard};
use io_edge::Disk;
use mail_base::Plan;
use shard_board::{Board, BoardPass, Order};
use std::alloc::{AllocError, Global};
use std::sync::Wait;

// The board does what is ordered, and what came of it is said.
fn do_order<R: Wait, D: Disk, F, C>(
    rt: &R,
    alloc: Global,
    board: &Board<D, F, C>,
    pass: &mut BoardPass<D, F, C>,
    number: u64,
    order: &ConsoleOrder,
    ordered: Order,
    out: &mut Vec<u8>,
) -> Result<(), AllocError>
    requires pass { IsPassOf (view_of D.seen D.faults D.clock) board.now pass.old }
    ensures goes { GoesStill (view_of D.seen D.faults D.clock) board.now pass.old pass.new }
    ensures ordered { OnOk result ((said : List ℕ) × (out.new.items ≡ out.old.items ++ said) × IsOrdered (view_of D.seen D.faults D.clock) board.now order.now number ordered pass.old said pass.new) }
{
    let came = board.console(rt, alloc, pass, ordered);
    say_answer(alloc, number, order, &came, out)
}

// The same, where a plan may have the node.
fn obey_order<R: Wait, D: Disk, F, C>(
    rt: &R,
    alloc: Global,
    board: &Board<D, F, C>,
    pass: &mut BoardPass<D, F, C>,
    number: u64,
    order: &ConsoleOrder,
    ordered: Option<Order>,
    out: &mut Vec<u8>,
) -> Result<(), AllocError>
    requires pass { IsPassOf (view_of D.seen D.faults D.clock) board.now pass.old }
    ensures goes { GoesStill (view_of D.seen D.faults D.clock) board.now pass.old pass.new }
    ensures orders { OnOk result ((said : List ℕ) × (out.new.items ≡ out.old.items ++ said) × OrdersBy (view_of D.seen D.faults D.clock) board.now order.now number ordered pass.old said pass.new) }
{
    match ordered {
        Some(ordered) => do_order(rt, alloc, board, pass, number, order, ordered, out),
        None => say_refused(alloc, number, b"NoSuchNode", out),
    }
}

// The same, of what a line orders.
fn obey_known<R: Wait, D: Disk, F, C>(
    rt: &R,
    alloc: Global,
    board: &Board<D, F, C>,
    pass: &mut BoardPass<D, F, C>,
    number: u64,
    order: &ConsoleOrder,
    out: &mut Vec<u8>,
) -> Result<(), AllocError>
    requires pass { IsPassOf (view_of D.seen D.faults D.clock) board.now pass.old }
    ensures goes { GoesStill (view_of D.seen D.faults D.clock) board.now pass.old pass.new }
    ensures orders { OnOk result ((said : List ℕ) × (out.new.items ≡ out.old.items ++ said) × OrdersBy (view_of D.seen D.faults D.clock) board.now order.now number (board_order order.now) pass.old said pass.new) }
{
    let ordered = board_order(order)?;
    obey_order(rt, alloc, board, pass, number, order, ordered, out)
}

// The same, where the line may be known.
fn obey_heard<R: Wait, D: Disk, F, C>(
    rt: &R,
    alloc: Global,
    board: &Board<D, F, C>,
    pass: &mut BoardPass<D, F, C>,
    number: u64,
    heard: Option<ConsoleOrder>,
    out: &mut Vec<u8>,
) -> Result<(), AllocError>
    requires pass { IsPassOf (view_of D.seen D.faults D.clock) board.now pass.old }
    ensures goes { GoesStill (view_of D.seen D.faults D.clock) board.now pass.old pass.new }
    ensures hears { OnOk result ((said : List ℕ) × (out.new.items ≡ out.old.items ++ said) × HearsOrder (view_of D.seen D.faults D.clock) board.now heard number pass.old said pass.new) }
{
    match heard {
        Some(order) => obey_known(rt, alloc, board, pass, number, &order, out),
        None => say_refused(alloc, number, b"BadLine", out),
    }
}

/// Does what the line of this number orders, in one turn, and appends what is said of it. The line is without its LF. Users are
/// those of the plan.
///
/// # Errors
///
/// Out of memory alone.
pub(crate) fn obey_line<R: Wait, D: Disk, F, C>(
    rt: &R,
    alloc: Global,
    board: &Board<D, F, C>,
    plan: &Plan,
    pass: &mut BoardPass<D, F, C>,
    line: &[u8],
    number: u64,
    out: &mut Vec<u8>,
) -> Result<(), AllocError>
    requires pass { IsPassOf (view_of D.seen D.faults D.clock) board.now pass.old }
    ensures goes { GoesStill (view_of D.seen D.faults D.clock) board.now pass.old pass.new }
    ensures obeys { OnOk result ((said : List ℕ) × (out.new.items ≡ out.old.items ++ said) × ObeysLine (view_of D.seen D.faults D.clock) board.now plan.now pass.old line.now number said pass.new) }
{
    let heard = order_heard(alloc, plan, line)?;
    obey_heard(rt, alloc, board, pass, number, heard, out)
}
