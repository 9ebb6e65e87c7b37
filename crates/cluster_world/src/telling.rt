//! What a world tells of its letters, its calls and its members.
ghost use Rattle.std.specs.Prelude.{◌≡◌, Some};
ghost use Rattle.std.specs.Option.{option_copied};
ghost use Rattle.session_model.specs.Sums.{sum_of};
ghost use Rattle.node_core.specs.Nodes.{IsWhole};
ghost use Rattle.whole_node.specs.Nodes.{HasReads};
ghost use Rattle.whole_node.specs.declared.node.WholeNode.{WholeNode as AWholeNode};
ghost use Rattle.node_tickets.specs.Standing.{call_kind_seen, filed_seen, filing_at};
ghost use Rattle.cluster_world.specs.Flights.{first_number};
ghost use Rattle.cluster_world.specs.Sums.{sum_seen};
ghost use Rattle.cluster_world.specs.Worlds.{state_of, book_of, node_of_life, node_in, CanMakeSteps};
ghost use Rattle.cluster_world.specs.Telling.{members_seen, standing_on, standing_in, kind_on, kind_standing};
ghost use Rattle.cluster_world.specs.declared.life.Life.TheVariants as lives;

use crate::life::Life;
use crate::steps::ask::{node_of, ticket_of};
use crate::sum::{BookSum, sum};
use crate::world::World;
use io_edge::Disk;
use mail_base::{CallKind, Filing, NodeNo, NodeSet, Ticket};
use whole_node::WholeNode;

/// The members of a node's epoch.
pub(crate) fn members_at(life: &Life) -> NodeSet
    requires whole { (node : AWholeNode) → life.now ≡ lives.Up node → IsWhole node.mail }
    ensures { result ≡ members_seen (node_of_life (Some life.now)) }
{
    match life {
        Life::Up(node) => node.mail().member_set(),
        Life::Down | Life::Lost => NodeSet::empty(),
    }
}

// The kind of the call of a ticket that stands at a node, among those of messages or among those of calls that read.
fn kind_in(node: &WholeNode, ticket: &Ticket) -> Option<CallKind>
    requires reads { HasReads node.now }
    requires own { node.now.mail.store.own ≡ ticket.now.node }
    ensures { call_kind_seen result ≡ kind_on (Some (lives.Up node.now)) ticket.now }
{
    match node.mail().kind(ticket_of(ticket)) {
        Some(kind) => Some(kind),
        None => node.reads().kind(ticket_of(ticket)),
    }
}

/// The kind of the call of the ticket at a node, if it stands there.
fn kind_at(life: &Life, ticket: &Ticket) -> Option<CallKind>
    requires reads { (node : AWholeNode) → life.now ≡ lives.Up node → HasReads node × (node.mail.store.own ≡ ticket.now.node) }
    ensures { call_kind_seen result ≡ kind_on (Some life.now) ticket.now }
{
    match life {
        Life::Up(node) => kind_in(node, ticket),
        Life::Down | Life::Lost => None,
    }
}

/// What the delivery of the ticket filed at a node, if it stands there.
fn filing_in<'a>(life: &'a Life, ticket: &Ticket) -> Option<&'a Filing>
    requires whole { (node : AWholeNode) → life.now ≡ lives.Up node → IsWhole node.mail }
    ensures { filed_seen (option_copied result) ≡ filing_at (standing_on (Some life.now) ticket.now) }
{
    match life {
        Life::Up(node) => node.mail().filing(ticket_of(ticket)),
        Life::Down | Life::Lost => None,
    }
}

impl<D: Disk> World<D> {
    /// The lowest number of a letter in flight. It takes no memory.
    pub fn flying(&self) -> Option<u64>
        ensures { result ≡ first_number (state_of self.now).flying.flights }
    {
        self.flying.first()
    }

    /// The seconds since 1970 that the clock shows: those of the last tick, and 0 before the first. It takes no memory.
    pub fn seconds(&self) -> u64
        ensures { result ≡ (state_of self.now).seconds }
    {
        self.seconds
    }

    /// The members of the node's epoch: none where the node is not up, or has no epoch. It takes no memory.
    pub fn members(&self, node: NodeNo) -> NodeSet
        requires ready { CanMakeSteps D.seen self.now }
        ensures { result ≡ members_seen (node_in (state_of self.now) node) }
    {
        match self.nodes.life(node) {
            Some(life) => members_at(life),
            None => NodeSet::empty(),
        }
    }

    /// How many entries of each kind the book has. It takes no memory.
    pub fn sum(&self) -> BookSum
        ensures { sum_seen result ≡ sum_of (book_of self.now) }
    {
        sum(self.book.entries())
    }

    /// The kind of the call for which the ticket stands, of messages or one that reads; none exactly where it stands at no node that is
    /// up. It takes no memory.
    pub fn kind(&self, ticket: &Ticket) -> Option<CallKind>
        requires ready { CanMakeSteps D.seen self.now }
        ensures { call_kind_seen result ≡ kind_standing self.now ticket.now }
    {
        match self.nodes.life(node_of(ticket)) {
            Some(life) => kind_at(life, ticket),
            None => None,
        }
    }

    /// What the delivery filed for which the ticket stands; none where no delivery stands under it at a node that is up, or one
    /// that failed at once. It takes no memory.
    pub fn filing(&self, ticket: &Ticket) -> Option<&Filing>
        requires ready { CanMakeSteps D.seen self.now }
        ensures { filed_seen (option_copied result) ≡ filing_at (standing_in self.now ticket.now) }
    {
        match self.nodes.life(node_of(ticket)) {
            Some(life) => filing_in(life, ticket),
            None => None,
        }
    }
}
