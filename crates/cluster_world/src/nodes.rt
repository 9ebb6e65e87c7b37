//! The nodes of a plan with their disks.
ghost use Rattle.std.specs.Prelude.{◌≡◌, ◌+◌, ◌≤◌, ◌<◌, length, Some, IfSome};
ghost use Rattle.std.specs.Option.{option_copied};

use crate::life::Life;
use crate::steps::ask::{ask_at, node_of};
use crate::steps::give_up::give_up_at;
use crate::steps::start::start_at;
use call_tickets::Ask;
use io_edge::Disk;
use mail_base::{NodeNo, Plan, Ticket};
use node_core::NodeFault;
use std::alloc::Global;

/// The nodes of a plan, in order of number, each with its disk.
#[derive(Drop)]
pub struct Nodes<D> {
    pub(crate) plan: Plan,
    pub(crate) lives: Vec<Life>,
    // in the list that was handed in
    pub(crate) disks: Vec<D>,
    ghost few: { plan.nodes ≤ 16 },
    ghost copied: { 1 ≤ plan.copies },
    ghost bucketed: { 1 ≤ plan.buckets },
    ghost all: { length lives.items ≡ plan.nodes },
    ghost disk_each: { length disks.items ≡ plan.nodes },
}

/// The place of a node in the list of all.
pub(crate) fn place_of(node: NodeNo) -> usize
    ensures { result + 1 ≡ node }
{
    usize::from(node.number()) - 1
}

/// The node of this number.
pub(crate) fn numbered(number: u8) -> NodeNo
    requires above { 1 ≤ number }
    requires within { number ≤ 16 }
    ensures { result ≡ number }
{
    NodeNo::new(number).unwrap()
}

/// The node at a place in the list of all.
pub(crate) fn node_at(place: usize) -> NodeNo
    requires { place < 16 }
    ensures { result ≡ place + 1 }
{
    numbered(place as u8 + 1)
}

/// The life is this one from now on.
pub(crate) fn put_life(life: &mut Life, now: Life)
    ensures { life.new ≡ now }
{
    *life = now;
}

impl<D> Nodes<D> {
    ghost use Rattle.cluster_world.specs.Lives.{of_node, all_falls_left};
    ghost use Rattle.cluster_world.specs.Asking.{IsUpWhole, IsAskedOn, IsRetoldOn, tickets_without};
    ghost use Rattle.cluster_world.specs.Changes.{ChangesNode, IsTurnedTo};

    /// The plan.
    pub(crate) fn plan(&self) -> &Plan
        ensures { result.now ≡ self.now.plan }
    {
        &self.plan
    }

    /// The life of a node, if the plan has it.
    pub(crate) fn life(&self, node: NodeNo) -> Option<&Life>
        ensures { option_copied result ≡ of_node self.now.lives.items node }
    {
        self.lives.get(usize::from(node.number()) - 1)
    }

    /// The life of a node of the plan is this one from now on. It takes no memory.
    pub(crate) fn turn(&mut self, node: NodeNo, life: Life)
        requires within { node ≤ self.old.plan.nodes }
        ensures { ChangesNode node (IsTurnedTo life) self.old self.new }
    {
        put_life(&mut self.lives[place_of(node)], life);
    }

    /// The life of a node of the plan.
    pub(crate) fn at(&self, node: NodeNo) -> &Life
        requires within { node ≤ self.now.plan.nodes }
        ensures { of_node self.now.lives.items node ≡ Some result.now }
    {
        &self.lives[place_of(node)]
    }

    /// How many entries the falls of all nodes may need.
    pub(crate) fn most_falls(&self) -> usize
        ensures most { all_falls_left self.now.lives.items ≤ result }
        ensures few { result ≤ 32 }
    {
        2 * self.lives.len()
    }

    /// Asks a node of the plan that is up. It takes no memory.
    pub(crate) fn ask(&mut self, ticket: &Ticket) -> Option<Ask>
        requires within { ticket.now.node ≤ self.old.plan.nodes }
        requires up { IfSome (of_node self.old.lives.items ticket.now.node) (λ life. IsUpWhole life) }
        ensures { ChangesNode ticket.now.node (IsAskedOn ticket.now result) self.old self.new }
    {
        ask_at(&mut self.lives[place_of(node_of(ticket))], ticket)
    }

    /// Gives a ticket up at a node of the plan that is up. It takes no memory.
    pub(crate) fn give_up(&mut self, ticket: &Ticket)
        requires within { ticket.now.node ≤ self.old.plan.nodes }
        requires up { IfSome (of_node self.old.lives.items ticket.now.node) (λ life. IsUpWhole life) }
        ensures { ChangesNode ticket.now.node (IsRetoldOn (tickets_without ticket.now)) self.old self.new }
    {
        give_up_at(&mut self.lives[place_of(node_of(ticket))], ticket)
    }

    /// The disks, in the list in which they were handed over.
    pub(crate) fn into_disks(self) -> Vec<D>
        ensures { result.items ≡ self.disks.items }
    {
        self.disks
    }
}

impl<D: Disk> Nodes<D> {
    ghost use Rattle.node_store.specs.Disks.{view_of};
    ghost use Rattle.cluster_world.specs.Lives.{of_node};
    ghost use Rattle.cluster_world.specs.Changes.{ChangesNode};
    ghost use Rattle.cluster_world.specs.Starting.{HasStarted};
    ghost use Rattle.cluster_world.specs.declared.life.Life.TheVariants as lives;

    /// Starts a node of the plan that is down. It answers its boot.
    pub(crate) fn start(&mut self, alloc: Global, node: NodeNo) -> Result<u32, NodeFault>
        requires within { node ≤ self.old.plan.nodes }
        requires down { of_node self.old.lives.items node ≡ Some lives.Down }
        ensures { ChangesNode node (HasStarted (view_of D.seen D.faults D.clock) self.old.plan node D.settled result) self.old self.new }
    {
        let at = place_of(node);
        start_at(
            alloc,
            &mut self.lives[at],
            &mut self.disks[at],
            &self.plan,
            node,
        )
    }
}
