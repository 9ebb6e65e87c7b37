//! What a call sends its letters under.
use mail_base::{EpochId, NodeNo, Ticket};
use std::marker::Model;

/// The node of a call, its epoch, and the number of the call's ticket.
#[derive(Clone, Copy, Debug)]
pub(crate) struct Under {
    pub(crate) own: NodeNo,
    pub(crate) epoch: EpochId,
    pub(crate) number: Ticket,
}

impl Model for Under {
    ghost use Rattle.login_model.specs.Rules.{Under as Seen};

    ghost Value = { Seen };

    ghost view = { λ u. record { own = u.own; epoch = u.epoch; number = u.number } };

    ghost inverse = { λ u. record { own = u.own; epoch = u.epoch; number = u.number } };
}
