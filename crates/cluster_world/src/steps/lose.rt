//! A node loses its disk for good.
ghost use Rattle.std.specs.Prelude.{◌≡◌, ◌≤◌, ℕ, None, Ok};
ghost use Rattle.node_store.specs.Disks.{view_of};
ghost use Rattle.world_book.specs.Books.{spare_of};
ghost use Rattle.cluster_world.specs.Flights.{InFlight};
ghost use Rattle.cluster_world.specs.Installs.{installs_booked};
ghost use Rattle.cluster_world.specs.Lives.{all_falls_left, CanWorkOn};
ghost use Rattle.cluster_world.specs.Worlds.{state_with, life_among};
ghost use Rattle.cluster_world.specs.Turns.{node_refusal};
ghost use Rattle.cluster_world.specs.Steps.{StepDid, AreSettled};
ghost use Rattle.cluster_world.specs.declared.step.Step.TheVariants.{Lose};
ghost use Rattle.cluster_world.specs.declared.step.Said.TheVariants.{Done};

use crate::life::Life;
use crate::nodes::Nodes;
use io_edge::Disk;
use mail_base::NodeNo;
use world_book::{Book, Entry};

/// A node of the plan that is not lost loses its disk for good. It takes no memory.
pub(crate) fn lose_node<D: Disk>(nodes: &mut Nodes<D>, book: &mut Book, node: NodeNo)
    requires fit { node_refusal nodes.old.plan (life_among nodes.old) (Lose node) ≡ None }
    requires room { all_falls_left nodes.old.lives.items ≤ spare_of book.old }
    ensures did { (flying : InFlight) (seconds : ℕ) → StepDid (view_of D.seen D.faults D.clock) (Ok Done) (Lose node) (state_with nodes.old flying seconds book.old) (state_with nodes.new flying seconds book.new) }
    ensures ready { CanWorkOn D.seen nodes.old.plan nodes.old.lives.items nodes.old.disks.items → CanWorkOn D.seen nodes.new.plan nodes.new.lives.items nodes.new.disks.items }
    ensures settled { (flying : InFlight) (seconds : ℕ) → AreSettled D.settled (state_with nodes.old flying seconds book.old) → AreSettled D.settled (state_with nodes.new flying seconds book.new) }
    ensures room { all_falls_left nodes.new.lives.items ≤ spare_of book.new }
    ensures installs { installs_booked book.new ≡ installs_booked book.old }
{
    nodes.turn(node, Life::Lost);
    book.add(Entry::Lost { node });
}
