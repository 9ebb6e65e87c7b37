// The ticket of a call in progress.
ghost use Rattle.std.specs.Prelude.{◌≡◌};

use crate::NodeNo;
use std::marker::Model;

/// A call in progress has a ticket at its node. Its number begins at 1 in each boot of the node, and rises by one with each ticket.
#[derive(Clone, Copy, Debug, PartialEq, Eq)]
pub struct Ticket {
    /// The node at which the call was begun.
    pub node: NodeNo,
    /// The boot of that node.
    pub boot: u32,
    /// The ticket's number in that boot.
    pub seq: u64,
}

impl Model for Ticket {
    ghost use Rattle.object_model.specs.Letters.{Number};

    ghost Value = { Number };

    ghost view = { λ t. record { node = t.node; boot = t.boot; seq = t.seq } };

    ghost inverse = { λ n. record { node = n.node; boot = n.boot; seq = n.seq } };
}

impl Ticket {
    /// The ticket of these parts.
    pub fn new(node: NodeNo, boot: u32, seq: u64) -> Ticket
        ensures { result ≡ record { node = node; boot = boot; seq = seq } }
    {
        Ticket { node, boot, seq }
    }
}
