//! The list that a node told.
use mail_base::{NodeNo, Sequence, ToldItem};
use std::marker::Model;

/// The messages that one node told of a user.
#[derive(Drop)]
pub struct ToldList {
    /// The node that told them.
    pub node: NodeNo,
    /// The messages, as they were told.
    pub items: Sequence<ToldItem>,
}

impl Model for ToldList {
    ghost use Rattle.login_model.specs.Readings.{ToldList as Seen};

    ghost Value = { Seen };

    ghost view = { λ l. record { node = l.node; items = l.items } };
}
