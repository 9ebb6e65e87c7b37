//! The tickets of a node.
ghost use Rattle.std.specs.Prelude.{◌≡◌, ℕ, is_some};
ghost use Rattle.std.specs.Option.{option_copied};
ghost use Rattle.object_model.specs.Sets.{has};
ghost use Rattle.node_tickets.specs.Seen.{kind_of_mishap};
ghost use Rattle.node_tickets.specs.Standing.{filed_seen, asks_seen, asks_at, asked_out, befell_in, ticket_taken_out, waits_at, call_kind_seen, kind_of_ticket, wants_at, filing_at, done_at};
ghost use Rattle.node_core.specs.Nodes.{node_seen, IsWhole, ChangesTickets};
ghost use Rattle.node_core.specs.Standing.{ticket_standing};

use crate::node::Node;
use call_tickets::Ask;
use mail_base::{CallKind, Filing, NodeNo, NodeSet, Ticket};
use node_tickets::{MishapKind, Want};

impl Node {
    /// How far the call has come, or its answer; nothing exactly where the ticket is not there. A ticket that is done is taken out.
    /// It takes no memory.
    pub fn ask(&mut self, ticket: Ticket) -> Option<Ask>
        requires whole { IsWhole self.old }
        ensures answer { asks_seen result ≡ asks_at self.old.shape.confirm (ticket_standing self.old ticket) }
        ensures tickets { ChangesTickets (asked_out self.old.shape.confirm ticket.seq (ticket_standing self.old ticket) (node_seen self.old).tickets) self.old self.new }
    {
        self.tickets.ask(ticket)
    }

    /// Takes the ticket out; false exactly where it was not there. It takes no memory.
    pub fn give_up(&mut self, ticket: Ticket) -> bool
        requires whole { IsWhole self.old }
        ensures stood { result ≡ is_some (ticket_standing self.old ticket) }
        ensures tickets { ChangesTickets (ticket_taken_out ticket.seq (ticket_standing self.old ticket) (node_seen self.old).tickets) self.old self.new }
    {
        self.tickets.give_up(ticket)
    }

    /// A mishap of a letter to or from the node is counted at the ticket, and the node fails where it is waited for; false
    /// exactly where the ticket is not there. It takes no memory.
    pub fn mishap(&mut self, ticket: Ticket, kind: MishapKind, at: NodeNo) -> bool
        requires whole { IsWhole self.old }
        ensures stood { result ≡ is_some (ticket_standing self.old ticket) }
        ensures tickets { ChangesTickets (befell_in (kind_of_mishap kind) at ticket.seq (ticket_standing self.old ticket) (node_seen self.old).tickets) self.old self.new }
    {
        self.tickets.mishap(ticket, kind, at)
    }

    /// The nodes that the ticket waits for, none where it is not there. It takes no memory.
    pub fn waiting(&self, ticket: Ticket) -> NodeSet
        requires whole { IsWhole self.now }
        ensures { (m : ℕ) → has result m ≡ waits_at (ticket_standing self.now ticket) m }
    {
        self.tickets.waiting(ticket)
    }

    /// The kind of the call, if the ticket stands. It takes no memory.
    pub fn kind(&self, ticket: Ticket) -> Option<CallKind>
        requires whole { IsWhole self.now }
        ensures { call_kind_seen result ≡ kind_of_ticket (ticket_standing self.now ticket) }
    {
        self.tickets.kind(ticket)
    }

    /// What the call wants of nodes: one want of a delivery, one for each item of a deletion, and none of a call that failed at
    /// once or of a ticket that is not there. It takes no memory.
    pub fn wants(&self, ticket: Ticket) -> &[Want]
        requires whole { IsWhole self.now }
        ensures { result.now ≡ wants_at (ticket_standing self.now ticket) }
    {
        self.tickets.wants(ticket)
    }

    /// What the delivery filed; nothing exactly where no delivery stands under the ticket, or it failed at once. It takes no
    /// memory.
    pub fn filing(&self, ticket: Ticket) -> Option<&Filing>
        requires whole { IsWhole self.now }
        ensures { filed_seen (option_copied result) ≡ filing_at (ticket_standing self.now ticket) }
    {
        self.tickets.filing(ticket)
    }

    /// Whether an ask would be answered. It takes no memory.
    pub fn is_done(&self, ticket: Ticket) -> bool
        requires whole { IsWhole self.now }
        ensures { result ≡ done_at self.now.shape.confirm (ticket_standing self.now ticket) }
    {
        self.tickets.is_done(ticket)
    }
}
