//! Mishaps of letters, which are noted at their tickets.
ghost use Rattle.std.specs.Prelude.{◌≡◌, ℕ, Some, slice_get};
ghost use Rattle.node_core.specs.Nodes.{IsWhole};
ghost use Rattle.whole_node.specs.declared.node.WholeNode.{WholeNode as AWholeNode};
ghost use Rattle.node_tickets.specs.Seen.{kind_of_mishap};
ghost use Rattle.node_store.specs.Disks.{view_of};
ghost use Rattle.cluster_model.specs.World.{missed};
ghost use Rattle.cluster_world.specs.Lives.{CanWorkOn};
ghost use Rattle.cluster_world.specs.Missing.{all_missed, Noticed};
ghost use Rattle.cluster_world.specs.Noting.{LifeNoted, LivesNoted, LettersNoted};
ghost use Rattle.cluster_world.specs.declared.life.Life.TheVariants as life_is;

use crate::life::Life;
use crate::nodes::{Nodes, place_of};
use io_edge::Disk;
use mail_base::{Letter, NodeNo, Ticket};
use node_tickets::MishapKind;

/// The node counts it at the ticket, if that stands.
fn note_at(life: &mut Life, ticket: Ticket, kind: MishapKind, at: NodeNo)
    requires whole { (node : AWholeNode) → life.old ≡ life_is.Up node → IsWhole node.mail }
    ensures { LifeNoted (kind_of_mishap kind) at ticket life.old life.new }
{
    match life {
        Life::Up(node) => {
            node.mishap(ticket, kind, at);
        }
        Life::Down => {}
        Life::Lost => {}
    }
}

/// The node of the ticket counts it, if there is one.
fn note_on(lives: &mut Vec<Life>, ticket: Ticket, kind: MishapKind, at: NodeNo)
    requires whole { (k : ℕ) (node : AWholeNode) → slice_get lives.old.items k ≡ Some (life_is.Up node) → IsWhole node.mail }
    ensures { LivesNoted (kind_of_mishap kind) at ticket lives.old.items lives.new.items }
{
    let place = place_of(ticket.node);
    if place < lives.len() {
        note_at(&mut lives[place], ticket, kind, at);
    }
}

/// Notes a mishap of the letter at its ticket, if it has one that stands. It takes no memory.
pub(crate) fn note(lives: &mut Vec<Life>, kind: MishapKind, letter: &Letter)
    requires whole { (k : ℕ) (node : AWholeNode) → slice_get lives.old.items k ≡ Some (life_is.Up node) → IsWhole node.mail }
    ensures { LettersNoted (kind_of_mishap kind) letter.now lives.old.items lives.new.items }
{
    let Some(ticket) = letter.ticket else {
        return;
    };
    let at = if letter.from == ticket.node {
        letter.to
    } else {
        letter.from
    };
    note_on(lives, ticket, kind, at);
}

/// The same among the nodes of a world.
pub(crate) fn note_in<D: Disk>(nodes: &mut Nodes<D>, kind: MishapKind, letter: &Letter)
    requires works { CanWorkOn D.seen nodes.old.plan nodes.old.lives.items nodes.old.disks.items }
    ensures { Noticed (view_of D.seen D.faults D.clock) nodes.old.plan (λ slots. missed (kind_of_mishap kind) slots letter.now) nodes.old nodes.new }
{
    note(&mut nodes.lives, kind, letter);
}

/// The same of letters, one after another.
pub(crate) fn note_all<D: Disk>(nodes: &mut Nodes<D>, kind: MishapKind, letters: &[Letter])
    requires works { CanWorkOn D.seen nodes.old.plan nodes.old.lives.items nodes.old.disks.items }
    ensures { Noticed (view_of D.seen D.faults D.clock) nodes.old.plan (λ slots. all_missed (kind_of_mishap kind) slots letters.now) nodes.old nodes.new }
{
    for letter in letters {
        note_in(nodes, kind, letter);
    }
}
