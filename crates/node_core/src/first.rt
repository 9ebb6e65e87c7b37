//! The first boot of a node.
ghost use Rattle.std.specs.Prelude.{◌≡◌, ◌≤◌, [], None, IfSome, OnOk};
ghost use Rattle.io_edge.specs.Octets.{IsToldAlike};
ghost use Rattle.std.specs.FinMap as fin;
ghost use Rattle.node_store.specs.Disks.{view_of};
ghost use Rattle.node_tickets.specs.Standing.{IsOf, tickets_in};
ghost use Rattle.node_core.specs.First.{StartsFirst};

use crate::fault::NodeFault;
use crate::node::{Node, shape_of};
use crate::numbers::Numbers;
use io_edge::Disk;
use mail_base::{NodeNo, Plan};
use node_store::NodeStore;
use node_tickets::Tickets;
use std::alloc::Global;

// A node that has done nothing, in its first boot. It has no epoch.
fn in_first_boot(alloc: Global, store: NodeStore, plan: &Plan, number: NodeNo) -> Node
    ensures store { result.store ≡ store }
    ensures boot { result.numbers.boot ≡ 1 }
    ensures drawn { result.numbers.drawn ≡ 0 }
    ensures count { result.numbers.count ≡ 0 }
    ensures calls { result.numbers.calls ≡ 0 }
    ensures nodes { result.shape.nodes ≡ plan.now.nodes }
    ensures copies { result.shape.copies ≡ plan.now.copies }
    ensures confirm { result.shape.confirm ≡ plan.now.confirm }
    ensures installed { result.shape.installed ≡ None }
    ensures whose { IsOf number 1 result.shape.confirm result.tickets }
    ensures none { tickets_in result.tickets ≡ fin.empty }
{
    let shape = shape_of(plan);
    let tickets = Tickets::new(alloc, number, 1, shape.confirm);
    let numbers = Numbers {
        boot: 1,
        drawn: 0,
        count: 0,
        calls: 0,
    };
    Node {
        shape,
        numbers,
        store,
        tickets,
    }
}

impl Node {
    /// Makes the journal of a node on its disk, which is empty, and starts the node in its first boot, whose record is
    /// appended. It has no epoch. Nothing is read, so this is known of a disk that does not tell what it holds, too.
    ///
    /// # Errors
    ///
    /// It is never `Worn`. After an error the disk has to be emptied before it is tried again.
    pub fn first<D: Disk>(
        alloc: Global,
        disk: &mut D,
        plan: &Plan,
        number: NodeNo,
    ) -> Result<Node, NodeFault>
        requires empty { IfSome (D.seen disk.old) (λ held. held ≡ []) }
        requires within { number ≤ plan.now.nodes }
        requires few { plan.now.nodes ≤ 16 }
        requires copies { 1 ≤ plan.now.copies }
        ensures starts { StartsFirst (view_of D.seen D.faults D.clock) plan.now number disk.old disk.new result }
        ensures told { IsToldAlike (D.seen disk.old) (D.seen disk.new) }
        ensures faults { D.faults disk.old ≤ D.faults disk.new }
        ensures settled { OnOk result (D.settled disk.new) }
    {
        let mut store = NodeStore::create(alloc, disk, number)?;
        store.boot(alloc, disk, 1)?;
        Ok(in_first_boot(alloc, store, plan, number))
    }
}
