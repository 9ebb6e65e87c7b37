// A letter from one node to another.
ghost use Rattle.std.specs.Prelude.{◌≡◌, IfOk};

use crate::{Body, EpochId, NodeNo, Ticket};
use std::alloc::AllocError;
use std::marker::Model;

/// A letter from one node to another.
#[derive(Drop)]
pub struct Letter {
    /// The sender.
    pub from: NodeNo,
    /// The receiver.
    pub to: NodeNo,
    /// The epoch that the sender has installed. Group, Join and Install say theirs in the body, and are heard whatever stands here.
    pub epoch: EpochId,
    /// The ticket that it asks for or answers, where it has one.
    pub ticket: Option<Ticket>,
    /// What it says.
    pub body: Body,
}

impl Model for Letter {
    ghost use Rattle.object_model.specs.Letters.{Letter as Seen};
    ghost use Rattle.mail_base.specs.Bodies.{body_seen};

    ghost Value = { Seen };

    ghost view = { λ l. record { from = l.from; to = l.to; epoch = l.epoch; ticket = l.ticket; body = body_seen l.body } };
}

fn copy_ticket(ticket: &Option<Ticket>) -> Option<Ticket>
    ensures { result ≡ ticket.now }
{
    match ticket {
        Some(ticket) => Some(*ticket),
        None => None,
    }
}

impl Letter {
    /// The same letter once more. Message octets are copied too.
    ///
    /// # Errors
    ///
    /// Out of memory alone.
    pub fn copy(&self) -> Result<Letter, AllocError>
        ensures { IfOk result (λ letter. letter ≡ self.now) }
    {
        Ok(Letter {
            from: self.from,
            to: self.to,
            epoch: self.epoch,
            ticket: copy_ticket(&self.ticket),
            body: self.body.copy()?,
        })
    }
}
