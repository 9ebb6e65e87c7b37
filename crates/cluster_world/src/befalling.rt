//! Mishaps of letters of calls that read, each of which may send a letter.
ghost use Rattle.std.specs.Prelude.{◌≡◌, ℕ, Some, slice_get};
ghost use Rattle.whole_node.specs.Nodes.{HasReads};
ghost use Rattle.whole_node.specs.declared.node.WholeNode.{WholeNode as AWholeNode};
ghost use Rattle.node_tickets.specs.Seen.{kind_of_mishap};
ghost use Rattle.node_reads.specs.Readings.{listed};
ghost use Rattle.node_store.specs.Disks.{view_of};
ghost use Rattle.cluster_world.specs.Hears.{AllCanBeHeard};
ghost use Rattle.cluster_world.specs.Lives.{CanWorkOn};
ghost use Rattle.cluster_world.specs.Reading.{LifeBefell, LivesBefell, BefellUnder, HasBefallen};
ghost use Rattle.cluster_world.specs.declared.life.Life.TheVariants as life_is;

use crate::life::Life;
use crate::nodes::{Nodes, place_of};
use io_edge::Disk;
use mail_base::{Letter, NodeNo, Ticket};
use node_tickets::MishapKind;

/// The node notes it at the ticket, if that stands, and may send a letter for it.
fn befall_at(life: &mut Life, ticket: Ticket, kind: MishapKind, at: NodeNo) -> Option<Letter>
    requires reads { (node : AWholeNode) → life.old ≡ life_is.Up node → HasReads node }
    ensures { LifeBefell (kind_of_mishap kind) at ticket result life.old life.new }
{
    match life {
        Life::Up(node) => node.befall(ticket, kind, at),
        Life::Down => None,
        Life::Lost => None,
    }
}

/// The node of the ticket does, if there is one.
fn befall_on(lives: &mut Vec<Life>, ticket: Ticket, kind: MishapKind, at: NodeNo) -> Option<Letter>
    requires reads { (k : ℕ) (node : AWholeNode) → slice_get lives.old.items k ≡ Some (life_is.Up node) → HasReads node }
    ensures { LivesBefell (kind_of_mishap kind) at ticket result lives.old.items lives.new.items }
{
    let place = place_of(ticket.node);
    if place < lives.len() {
        befall_at(&mut lives[place], ticket, kind, at)
    } else {
        None
    }
}

/// Notes a mishap of the letter at its ticket, if it has one that stands. It takes no memory.
fn befall(lives: &mut Vec<Life>, kind: MishapKind, letter: &Letter) -> Option<Letter>
    requires reads { (k : ℕ) (node : AWholeNode) → slice_get lives.old.items k ≡ Some (life_is.Up node) → HasReads node }
    ensures { BefellUnder (kind_of_mishap kind) letter.now letter.now.ticket result lives.old.items lives.new.items }
{
    let ticket = letter.ticket?;
    let at = if letter.from == ticket.node {
        letter.to
    } else {
        letter.from
    };
    befall_on(lives, ticket, kind, at)
}

/// The same among the nodes of a world.
pub(crate) fn befall_in<D: Disk>(
    nodes: &mut Nodes<D>,
    kind: MishapKind,
    letter: &Letter,
) -> Option<Letter>
    requires works { CanWorkOn D.seen nodes.old.plan nodes.old.lives.items nodes.old.disks.items }
    ensures befallen { HasBefallen (view_of D.seen D.faults D.clock) (kind_of_mishap kind) letter.now result nodes.old nodes.new }
    ensures heard { AllCanBeHeard (listed result) }
{
    befall(&mut nodes.lives, kind, letter)
}
