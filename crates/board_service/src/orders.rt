//! What the lines of the console order.
ghost use Rattle.std.specs.Prelude.{◌≡◌, codes, option_and_then, IfOk};
ghost use Rattle.std.specs.Option.{option_map};
ghost use Rattle.mail_model.specs.Plan.{is_user};
ghost use Rattle.mail_model.specs.Tape.{strip};
ghost use Rattle.shard_board.specs.declared.order.Order.TheVariants as board;
ghost use Rattle.board_service.specs.ConsoleLines.{numbered, bare, maps_line, order_in, is_known, order_heard, node_of, board_order};
ghost use Rattle.board_service.specs.declared.orders.ConsoleOrder.TheVariants.{Crash, Start, Lose, Group, Settle, Sum};

use line_words::number;
use mail_base::{Name, NodeNo, Plan, spells_name};
use shard_board::Order;
use std::alloc::{AllocError, Global};
use tape_lines::{strip, without_cr};

/// What a line of the console orders. A number is as the line gives it, below 2^64: whether there is such a node is not asked
/// here.
#[derive(Debug, Drop)]
pub(crate) enum ConsoleOrder {
    /// A node stops. What is on its disk stays.
    Crash(u64),
    /// A node that is down starts.
    Start(u64),
    /// A node loses its disk for good.
    Lose(u64),
    /// A node opens a group, asks all others and concludes.
    Group(u64),
    /// The latest epoch is brought to rest.
    Settle,
    /// It is asked which nodes have mail of this user.
    Maps(Name),
    /// The entries of the book are counted.
    Sum,
}

fn crashes(line: &[u8]) -> Option<ConsoleOrder>
    ensures { result ≡ option_and_then (numbered Crash) (strip (codes "crash ") line.now) }
{
    let node = number(strip(b"crash ", line)?)?;
    Some(ConsoleOrder::Crash(node))
}

fn starts(line: &[u8]) -> Option<ConsoleOrder>
    ensures { result ≡ option_and_then (numbered Start) (strip (codes "start ") line.now) }
{
    let node = number(strip(b"start ", line)?)?;
    Some(ConsoleOrder::Start(node))
}

fn loses(line: &[u8]) -> Option<ConsoleOrder>
    ensures { result ≡ option_and_then (numbered Lose) (strip (codes "lose ") line.now) }
{
    let node = number(strip(b"lose ", line)?)?;
    Some(ConsoleOrder::Lose(node))
}

fn groups(line: &[u8]) -> Option<ConsoleOrder>
    ensures { result ≡ option_and_then (numbered Group) (strip (codes "group ") line.now) }
{
    let node = number(strip(b"group ", line)?)?;
    Some(ConsoleOrder::Group(node))
}

fn settles(line: &[u8]) -> Option<ConsoleOrder>
    ensures { result ≡ option_and_then (bare Settle) (strip (codes "settle") line.now) }
{
    let rest = strip(b"settle", line)?;
    if !rest.is_empty() {
        return None;
    }
    Some(ConsoleOrder::Settle)
}

fn sums(line: &[u8]) -> Option<ConsoleOrder>
    ensures { result ≡ option_and_then (bare Sum) (strip (codes "sum") line.now) }
{
    let rest = strip(b"sum", line)?;
    if !rest.is_empty() {
        return None;
    }
    Some(ConsoleOrder::Sum)
}

fn maps_of(alloc: Global, rest: &[u8]) -> Result<Option<ConsoleOrder>, AllocError>
    ensures { IfOk result (λ order. order ≡ maps_line rest.now) }
{
    let Some(user) = Name::spelt(alloc, rest)? else {
        return Ok(None);
    };
    Ok(Some(ConsoleOrder::Maps(user)))
}

fn asks_maps(alloc: Global, line: &[u8]) -> Result<Option<ConsoleOrder>, AllocError>
    ensures { IfOk result (λ order. order ≡ option_and_then maps_line (strip (codes "maps ") line.now)) }
{
    match strip(b"maps ", line) {
        Some(rest) => maps_of(alloc, rest),
        None => Ok(None),
    }
}

// The order that the line spells.
fn order_in(alloc: Global, line: &[u8]) -> Result<Option<ConsoleOrder>, AllocError>
    ensures { IfOk result (λ order. order ≡ order_in line.now) }
{
    if let Some(order) = crashes(line) {
        return Ok(Some(order));
    }
    if let Some(order) = starts(line) {
        return Ok(Some(order));
    }
    if let Some(order) = loses(line) {
        return Ok(Some(order));
    }
    if let Some(order) = groups(line) {
        return Ok(Some(order));
    }
    if let Some(order) = settles(line) {
        return Ok(Some(order));
    }
    if let Some(order) = sums(line) {
        return Ok(Some(order));
    }
    asks_maps(alloc, line)
}

// Whether the plan has a user of this name.
fn has_user(plan: &Plan, user: &Name) -> bool
    ensures { result ≡ is_user plan.now user.now }
{
    spells_name(user.octets()) && plan.users.has(user)
}

// Whether the user whose map is asked for is one of the plan.
fn is_known(plan: &Plan, order: &ConsoleOrder) -> bool
    ensures { result ≡ is_known plan.now order.now }
{
    match order {
        ConsoleOrder::Maps(user) => has_user(plan, user),
        ConsoleOrder::Crash(_)
        | ConsoleOrder::Start(_)
        | ConsoleOrder::Lose(_)
        | ConsoleOrder::Group(_)
        | ConsoleOrder::Settle
        | ConsoleOrder::Sum => true,
    }
}

/// What the line orders, given without its LF; nothing where it is not known, or asks for the map of a user whom the plan has not.
/// A CR at its end is dropped.
///
/// # Errors
///
/// Out of memory alone, for the name of `maps`.
pub(crate) fn order_heard(
    alloc: Global,
    plan: &Plan,
    raw: &[u8],
) -> Result<Option<ConsoleOrder>, AllocError>
    ensures { IfOk result (λ order. order ≡ order_heard plan.now raw.now) }
{
    let Some(order) = order_in(alloc, without_cr(raw))? else {
        return Ok(None);
    };
    if !is_known(plan, &order) {
        return Ok(None);
    }
    Ok(Some(order))
}

// The node of this number. No plan has others.
fn node_of(number: u64) -> Option<NodeNo>
    ensures { result ≡ node_of number }
{
    if number > 16 {
        return None;
    }
    NodeNo::new(number as u8)
}

fn crash_at(number: u64) -> Option<Order>
    ensures { result ≡ option_map board.Crash (node_of number) }
{
    Some(Order::Crash(node_of(number)?))
}

fn start_at(number: u64) -> Option<Order>
    ensures { result ≡ option_map board.Start (node_of number) }
{
    Some(Order::Start(node_of(number)?))
}

fn lose_at(number: u64) -> Option<Order>
    ensures { result ≡ option_map board.Lose (node_of number) }
{
    Some(Order::Lose(node_of(number)?))
}

fn regroup_at(number: u64) -> Option<Order>
    ensures { result ≡ option_map board.Regroup (node_of number) }
{
    Some(Order::Regroup(node_of(number)?))
}

/// What a board is to do; nothing where no plan has the node.
///
/// # Errors
///
/// Out of memory alone, for the name of `maps`.
pub(crate) fn board_order(order: &ConsoleOrder) -> Result<Option<Order>, AllocError>
    ensures { IfOk result (λ ordered. ordered ≡ board_order order.now) }
{
    match order {
        ConsoleOrder::Crash(number) => Ok(crash_at(*number)),
        ConsoleOrder::Start(number) => Ok(start_at(*number)),
        ConsoleOrder::Lose(number) => Ok(lose_at(*number)),
        ConsoleOrder::Group(number) => Ok(regroup_at(*number)),
        ConsoleOrder::Settle => Ok(Some(Order::Settle)),
        ConsoleOrder::Maps(user) => Ok(Some(Order::Maps(user.copy()?))),
        ConsoleOrder::Sum => Ok(Some(Order::Sum)),
    }
}
