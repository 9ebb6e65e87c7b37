//! Sets of nodes, and the nodes that are asked.
ghost use Rattle.std.specs.Prelude.{◌≡◌, ◌≤◌, ◌<◌, ◌^◌, ◌&&◌, not, nat_eq, Some, None, IfOk, if◌then◌else◌};
ghost use Rattle.object_model.specs.Sets.{has};
ghost use Rattle.cluster_model.specs.Rules.{receivers};
ghost use Rattle.node_reads.specs.Readings.{first_in};

use mail_base::{NodeNo, NodeSet};
use std::alloc::{AllocError, Global};

fn node_of(number: u8) -> NodeNo
    requires low { 1 ≤ number }
    requires high { number ≤ 16 }
    ensures { result ≡ number }
{
    NodeNo::new(number).unwrap()
}

// Those of the set up to this number, but for the own node.
fn receivers(alloc: Global, own: NodeNo, set: NodeSet, nodes: u8) -> Result<Vec<NodeNo>, AllocError>
    requires { nodes ≤ 16 }
    ensures { IfOk result (λ list. list.items ≡ receivers own set nodes) }
{
    if nodes == 0 {
        return Ok(Vec::new(alloc));
    }
    let mut list = receivers(alloc, own, set, nodes - 1)?;
    let last = node_of(nodes);
    if set.has(last) && last != own {
        list.push(last)?;
    }
    Ok(list)
}

// The node, where the set has it and it is not the own one.
fn other_in(own: NodeNo, set: NodeSet, node: NodeNo) -> Option<NodeNo>
    ensures { result ≡ (if has set node && not (nat_eq node own) then Some node else None) }
{
    if set.has(node) && node != own {
        Some(node)
    } else {
        None
    }
}

// The lowest of those of the set up to this number, but for the own node.
fn first_receiver(own: NodeNo, set: NodeSet, nodes: u8) -> Option<NodeNo>
    requires { nodes ≤ 16 }
    ensures { result ≡ first_in (receivers own set nodes) }
{
    if nodes == 0 {
        return None;
    }
    match first_receiver(own, set, nodes - 1) {
        Some(first) => Some(first),
        None => other_in(own, set, node_of(nodes)),
    }
}

/// The nodes of the set in rising order, but for the own one.
#[tactic(auto, using(crate::proofs::Receivers::receivers_few))]
pub(crate) fn others(alloc: Global, own: NodeNo, set: NodeSet) -> Result<Vec<NodeNo>, AllocError>
    ensures { IfOk result (λ list. list.items ≡ receivers own set 64) }
{
    let _mask = set.mask();
    receivers(alloc, own, set, 16)
}

/// The lowest node of the set, but for the own one. It takes no memory.
#[tactic(auto, using(crate::proofs::Receivers::receivers_few))]
pub(crate) fn lowest_other(own: NodeNo, set: NodeSet) -> Option<NodeNo>
    ensures { result ≡ first_in (receivers own set 64) }
{
    let _mask = set.mask();
    first_receiver(own, set, 16)
}
