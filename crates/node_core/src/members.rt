//! The members of a node's epoch, and the numbers that it draws for calls.
ghost use Rattle.std.specs.Prelude.{◌≡◌, ◌<◌, ◌≤◌, ◌+◌, ◌-◌, ◌||◌, nat_lt, IfOk};
ghost use Rattle.mail_model.specs.Grammar.{IsStamp};
ghost use Rattle.object_model.specs.Sets.{nodes_in};
ghost use Rattle.cluster_model.specs.Cluster.{members_of};
ghost use Rattle.cluster_model.specs.Rules.{new_number};
ghost use Rattle.cluster_model.specs.Steps.{greatest, asked_of};
ghost use Rattle.node_core.specs.Nodes.{node_seen, IsWhole};

use crate::installed::members_in;
use crate::node::Node;
use crate::nodes::nodes_in;
use crate::numbers::Numbers;
use crate::spelling::stamp_of;
use mail_base::{MsgId, NodeNo, NodeSet, Stamp, Ticket};
use std::alloc::{AllocError, Global};

impl Numbers {
    /// Whether a call can't draw a ticket, so many ids and so many stamps any more.
    pub(crate) fn lack(&self, ids: u64, stamps: u64) -> bool
        ensures { result ≡ (nat_lt greatest (self.now.calls + 1) || nat_lt greatest (self.now.drawn + ids) || nat_lt greatest (self.now.count + stamps)) }
    {
        self.calls == u64::MAX || self.drawn > u64::MAX - ids || self.count > u64::MAX - stamps
    }

    /// Whether it can't draw a ticket and so many ids any more.
    pub(crate) fn lack_ids(&self, ids: u64) -> bool
        ensures { result ≡ (nat_lt greatest (self.now.calls + 1) || nat_lt greatest (self.now.drawn + ids)) }
    {
        self.calls == u64::MAX || self.drawn > u64::MAX - ids
    }

    /// A call draws a ticket and so many ids.
    pub(crate) fn draw_ids(&mut self, ids: u64)
        requires calls { self.old.calls + 1 ≤ greatest }
        requires drawn { self.old.drawn + ids ≤ greatest }
        ensures { self.new ≡ record self.old { drawn = self.old.drawn + ids; calls = self.old.calls + 1 } }
    {
        self.calls += 1;
        self.drawn += ids;
    }

    /// A call draws a ticket, so many ids and so many stamps.
    pub(crate) fn draw(&mut self, ids: u64, stamps: u64)
        requires calls { self.old.calls + 1 ≤ greatest }
        requires drawn { self.old.drawn + ids ≤ greatest }
        requires count { self.old.count + stamps ≤ greatest }
        ensures { self.new ≡ record self.old { drawn = self.old.drawn + ids; count = self.old.count + stamps; calls = self.old.calls + 1 } }
    {
        self.calls += 1;
        self.drawn += ids;
        self.count += stamps;
    }
}

impl Node {
    /// The members of its epoch, none where it has no epoch. It takes no memory.
    pub fn member_set(&self) -> NodeSet
        requires whole { IsWhole self.now }
        ensures { result ≡ members_of (node_seen self.now) }
    {
        members_in(&self.shape.installed)
    }

    /// Those of these nodes that are members of its epoch. It takes no memory.
    pub fn members_among(&self, holders: NodeSet) -> NodeSet
        requires whole { IsWhole self.now }
        ensures { result ≡ asked_of (node_seen self.now) holders }
    {
        NodeSet::from_mask(holders.mask() & self.member_set().mask())
    }

    /// The members of its epoch, in rising order.
    pub(crate) fn members(&self, alloc: Global) -> Result<Vec<NodeNo>, AllocError>
        requires whole { IsWhole self.now }
        ensures { IfOk result (λ members. members.items ≡ nodes_in (members_of (node_seen self.now)) self.now.shape.nodes) }
    {
        nodes_in(alloc, self.member_set(), self.shape.nodes)
    }

    /// The id that its next message gets.
    pub(crate) fn next_id(&self) -> MsgId
        requires whole { IsWhole self.now }
        requires fresh { self.now.numbers.drawn + 1 ≤ greatest }
        ensures { result ≡ record { node = self.now.store.own; boot = self.now.numbers.boot; seq = self.now.numbers.drawn + 1 } }
    {
        MsgId::new(self.store.own(), self.numbers.boot, self.numbers.drawn + 1).unwrap()
    }

    /// The stamp that it draws next.
    pub(crate) fn next_stamp(&self) -> Stamp
        requires fresh { self.now.numbers.count + 1 ≤ greatest }
        ensures value { result ≡ record { count = self.now.numbers.count + 1; boot = self.now.numbers.boot; node = self.now.store.own } }
        ensures fits { IsStamp result }
    {
        stamp_of(self.numbers.count + 1, self.numbers.boot, self.store.own())
    }

    /// The ticket that its next call gets. It takes no memory.
    pub fn next_ticket(&self) -> Ticket
        requires fresh { self.now.numbers.calls + 1 ≤ greatest }
        ensures { result ≡ new_number self.now.store.own (node_seen self.now) }
    {
        Ticket::new(self.store.own(), self.numbers.boot, self.numbers.calls + 1)
    }
}
