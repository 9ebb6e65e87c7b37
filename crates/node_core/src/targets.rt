//! Which nodes a delivery and a deletion ask.
ghost use Rattle.std.specs.Prelude.{◌≡◌, ◌<◌, ◌≤◌, ◌^◌, ◌%◌, ◌+◌, ◌-◌, ◌++◌, take, length, IfOk};
ghost use Rattle.cluster_model.specs.Targets.{deliver_targets, strike_asks, position_of};

use crate::nodes::{position_of, set_of, those_in, those_outside, turned};
use mail_base::{NodeNo, NodeSet};
use std::alloc::{AllocError, Global};

// The position at which the targets of the message of this number begin.
fn first_position(own: NodeNo, seq: u64, members: &[NodeNo]) -> usize
    requires drawn { 1 ≤ seq }
    requires some { 0 < length members.now }
    ensures value { result ≡ (position_of own members.now + (seq - 1)) % length members.now }
    ensures bound { result < length members.now }
{
    let at = position_of(own, members) as u128 + u128::from(seq - 1);
    (at % members.len() as u128) as usize
}

/// The targets of the message of this number: as many members as there are to be copies, or all where they are fewer.
pub(crate) fn deliver_targets(
    alloc: Global,
    copies: u8,
    own: NodeNo,
    seq: u64,
    members: &[NodeNo],
) -> Result<NodeSet, AllocError>
    requires drawn { 1 ≤ seq }
    requires some { 0 < length members.now }
    ensures value { IfOk result (λ set. set ≡ deliver_targets copies own seq members.now) }
    ensures some { IfOk result (λ set. 0 < copies → 0 < set) }
    ensures bound { IfOk result (λ set. set < 2 ^ 16) }
{
    let list = turned(alloc, first_position(own, seq, members), members)?;
    let count = usize::from(copies).min(list.len());
    Ok(set_of(&list[..count]))
}

// The first of these nodes after the others, as many as there are to be at most.
fn with_first(
    mut asked: Vec<NodeNo>,
    most: usize,
    others: &[NodeNo],
) -> Result<Vec<NodeNo>, AllocError>
    ensures { IfOk result (λ list. list.items ≡ asked.items ++ take most others.now) }
{
    let count = most.min(others.len());
    asked.extend_from_slice(&others[..count])?;
    Ok(asked)
}

/// The nodes that a deletion asks: the members among the listed targets, and where these are fewer than F, members cyclically from
/// the node on, until F are asked.
pub(crate) fn strike_asks(
    alloc: Global,
    confirm: u8,
    own: NodeNo,
    listed: NodeSet,
    members: &[NodeNo],
) -> Result<NodeSet, AllocError>
    ensures { IfOk result (λ set. set ≡ strike_asks confirm own listed members.now) }
{
    let asked = those_in(alloc, listed, members)?;
    let cycle = turned(alloc, position_of(own, members), members)?;
    let others = those_outside(alloc, listed, &cycle)?;
    let missing = usize::from(confirm).saturating_sub(asked.len());
    let asked = with_first(asked, missing, &others)?;
    Ok(set_of(&asked))
}
