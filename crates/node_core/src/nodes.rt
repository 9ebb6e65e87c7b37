//! Sets and lists of nodes.
ghost use Rattle.std.specs.Prelude.{◌≡◌, ◌≤◌, ◌<◌, ◌-◌, ◌^◌, not, length, IfOk};
ghost use Rattle.std.specs.List.{filter};
ghost use Rattle.object_model.specs.Sets.{has, with_node, all_nodes, nodes_in};
ghost use Rattle.cluster_model.specs.Rules.{receivers};
ghost use Rattle.cluster_model.specs.Targets.{set_of, rotated, position_of};

use mail_base::{NodeNo, NodeSet};
use std::alloc::{AllocError, Global};

/// The node of this number.
pub(crate) fn node_of(number: u8) -> NodeNo
    requires low { 1 ≤ number }
    requires high { number ≤ 16 }
    ensures { result ≡ number }
{
    NodeNo::new(number).unwrap()
}

/// The nodes from 1 to so many.
pub(crate) fn all_nodes(nodes: u8) -> NodeSet
    requires { nodes ≤ 16 }
    ensures { result ≡ all_nodes nodes }
{
    if nodes == 0 {
        return NodeSet::empty();
    }
    all_nodes(nodes - 1).with(node_of(nodes))
}

/// The nodes of the set, of those from 1 to so many, in rising order.
pub(crate) fn nodes_in(alloc: Global, set: NodeSet, nodes: u8) -> Result<Vec<NodeNo>, AllocError>
    requires { nodes ≤ 16 }
    ensures { IfOk result (λ list. list.items ≡ nodes_in set nodes) }
{
    if nodes == 0 {
        return Ok(Vec::new(alloc));
    }
    let mut list = nodes_in(alloc, set, nodes - 1)?;
    let last = node_of(nodes);
    if set.has(last) {
        list.push(last)?;
    }
    Ok(list)
}

/// These but for the own node.
pub(crate) fn receivers(
    alloc: Global,
    own: NodeNo,
    set: NodeSet,
    nodes: u8,
) -> Result<Vec<NodeNo>, AllocError>
    requires { nodes ≤ 16 }
    ensures { IfOk result (λ list. list.items ≡ receivers own set nodes) }
{
    if nodes == 0 {
        return Ok(Vec::new(alloc));
    }
    let mut list = receivers(alloc, own, set, nodes - 1)?;
    let last = node_of(nodes);
    if set.has(last) && last != own {
        list.push(last)?;
    }
    Ok(list)
}

// The set with this node in it, so not the empty one.
fn with_one(set: NodeSet, node: NodeNo) -> NodeSet
    ensures value { result ≡ with_node set node }
    ensures some { 0 < result }
    ensures bound { result < 2 ^ 16 }
{
    let _number = node.number();
    set.with(node)
}

/// The set of these nodes.
pub(crate) fn set_of(nodes: &[NodeNo]) -> NodeSet
    ensures value { result ≡ set_of nodes.now }
    ensures some { 0 < length nodes.now → 0 < result }
    ensures bound { result < 2 ^ 16 }
{
    match nodes.split_first() {
        Some((first, others)) => with_one(set_of(others), *first),
        None => NodeSet::empty(),
    }
}

/// How many of these nodes have a lower number.
pub(crate) fn position_of(own: NodeNo, members: &[NodeNo]) -> usize
    ensures value { result ≡ position_of own members.now }
    ensures bound { result ≤ length members.now }
{
    members
        .iter()
        .filter(|member| member.number() < own.number())
        .count()
}

/// The list from a position on, and then what stands before it.
pub(crate) fn turned(
    alloc: Global,
    at: usize,
    members: &[NodeNo],
) -> Result<Vec<NodeNo>, AllocError>
    requires { at ≤ length members.now }
    ensures { IfOk result (λ list. list.items ≡ rotated at members.now) }
{
    let mut list = Vec::new(alloc);
    list.extend_from_slice(&members[at..])?;
    list.extend_from_slice(&members[..at])?;
    Ok(list)
}

/// Those of the list that the set has.
pub(crate) fn those_in(
    alloc: Global,
    set: NodeSet,
    nodes: &[NodeNo],
) -> Result<Vec<NodeNo>, AllocError>
    ensures { IfOk result (λ list. list.items ≡ filter (λ m. has set m) nodes.now) }
{
    let mut list = Vec::new(alloc);
    for node in nodes {
        if set.has(*node) {
            list.push(*node)?;
        }
    }
    Ok(list)
}

/// Those of the list that it does not have.
pub(crate) fn those_outside(
    alloc: Global,
    set: NodeSet,
    nodes: &[NodeNo],
) -> Result<Vec<NodeNo>, AllocError>
    ensures { IfOk result (λ list. list.items ≡ filter (λ m. not (has set m)) nodes.now) }
{
    let mut list = Vec::new(alloc);
    for node in nodes {
        if !set.has(*node) {
            list.push(*node)?;
        }
    }
    Ok(list)
}
