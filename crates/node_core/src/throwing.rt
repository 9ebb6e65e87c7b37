//! Which letters a node throws.
ghost use Rattle.std.specs.Prelude.{◌≡◌, is_some, option_map};
ghost use Rattle.object_model.specs.Keys.{is_same_epoch};
ghost use Rattle.mail_base.specs.Bodies.{body_seen};
ghost use Rattle.cluster_model.specs.Rules.{ticket_at};
ghost use Rattle.cluster_model.specs.Thrown.{has_epoch, answers_ticket, is_late, is_stale, thrown_by};
ghost use Rattle.node_core.specs.Nodes.{node_seen, IsWhole};
ghost use Rattle.node_core.specs.Standing.{ticket_standing};
ghost use Rattle.node_core.specs.Hearing.{why_seen};

use crate::installed::is_stale;
use crate::node::Node;
use crate::outbox::Why;
use mail_base::{Body, EpochId, Letter, Ticket};

/// Whether both are one epoch.
pub(crate) fn is_same_epoch(a: &EpochId, b: &EpochId) -> bool
    ensures { result ≡ is_same_epoch a.now b.now }
{
    a.count == b.count && a.node == b.node
}

/// Whether a letter of this kind carries the epoch of its sender. The letters that form a group carry none.
pub fn has_epoch(body: &Body) -> bool
    ensures { result ≡ has_epoch (body_seen body.now) }
{
    match body {
        Body::Group { .. } | Body::Join { .. } | Body::Install { .. } => false,
        Body::File { .. }
        | Body::Filed { .. }
        | Body::LoginAsk { .. }
        | Body::LoginTold { .. }
        | Body::ListAsk { .. }
        | Body::ListTold { .. }
        | Body::FetchAsk { .. }
        | Body::FetchTold { .. }
        | Body::Strike { .. }
        | Body::StrikeTold { .. }
        | Body::Unlock { .. }
        | Body::Push { .. }
        | Body::PushAck { .. }
        | Body::Retired { .. }
        | Body::Report { .. }
        | Body::ReportAck { .. } => true,
    }
}

// Whether it answers a ticket.
fn answers_ticket(body: &Body) -> bool
    ensures { result ≡ answers_ticket (body_seen body.now) }
{
    match body {
        Body::Filed { .. }
        | Body::LoginTold { .. }
        | Body::ListTold { .. }
        | Body::FetchTold { .. }
        | Body::StrikeTold { .. } => true,
        Body::File { .. }
        | Body::LoginAsk { .. }
        | Body::ListAsk { .. }
        | Body::FetchAsk { .. }
        | Body::Strike { .. }
        | Body::Unlock { .. }
        | Body::Push { .. }
        | Body::PushAck { .. }
        | Body::Retired { .. }
        | Body::Group { .. }
        | Body::Join { .. }
        | Body::Install { .. }
        | Body::Report { .. }
        | Body::ReportAck { .. } => false,
    }
}

impl Node {
    /// Whether the letter carries another epoch than the one that is installed. It takes no memory.
    pub fn is_stale(&self, letter: &Letter) -> bool
        ensures { result ≡ is_stale letter.now (node_seen self.now).installed }
    {
        is_stale(letter, &self.shape.installed)
    }

    // Whether the ticket stands.
    fn stands(&self, ticket: &Ticket) -> bool
        requires whole { IsWhole self.now }
        ensures { result ≡ is_some (ticket_standing self.now ticket.now) }
    {
        self.tickets
            .kind(Ticket::new(ticket.node, ticket.boot, ticket.seq))
            .is_some()
    }

    // Whether a ticket of this node stands under the letter.
    fn is_awaited(&self, letter: &Letter) -> bool
        requires whole { IsWhole self.now }
        ensures { result ≡ is_some (ticket_at self.now.store.own (node_seen self.now) letter.now.ticket) }
    {
        match &letter.ticket {
            Some(ticket) => self.stands(ticket),
            None => false,
        }
    }

    // Whether the letter answers a ticket that stands no more.
    fn is_late(&self, letter: &Letter) -> bool
        requires whole { IsWhole self.now }
        ensures { result ≡ is_late self.now.store.own (node_seen self.now) letter.now }
    {
        answers_ticket(&letter.body) && !self.is_awaited(letter)
    }

    /// Why the node throws the letter, if it does: the first reason that applies.
    pub(crate) fn throws(&self, letter: &Letter) -> Option<Why>
        requires whole { IsWhole self.now }
        ensures { option_map why_seen result ≡ thrown_by self.now.store.own (node_seen self.now) letter.now }
    {
        if self.is_stale(letter) {
            return Some(Why::Stale);
        }
        if self.is_late(letter) {
            return Some(Why::Late);
        }
        None
    }
}
