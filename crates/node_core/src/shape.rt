//! How a node stands in its cluster.

use membership::Install;

/// How many nodes, copies of an object and confirmations the plan has, and the membership that the node has installed, if any.
#[derive(Drop)]
pub(crate) struct Shape {
    pub(crate) nodes: u8,
    pub(crate) copies: u8,
    pub(crate) confirm: u8,
    pub(crate) installed: Option<Install>,
}
