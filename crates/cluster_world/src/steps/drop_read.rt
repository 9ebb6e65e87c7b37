//! A letter of a call that reads is dropped.
ghost use Rattle.std.specs.Prelude.{◌≡◌, ℕ, true, Some};
ghost use Rattle.object_model.specs.Letters.{Letter as PlainLetter, is_read_body};
ghost use Rattle.cluster_model.specs.Steps.{letter_at};
ghost use Rattle.node_store.specs.Disks.{view_of};
ghost use Rattle.world_book.specs.declared.book.Book.{Book as ABook};
ghost use Rattle.cluster_world.specs.Lives.{all_falls_left, CanWorkOn};
ghost use Rattle.cluster_world.specs.Worlds.{state_with};
ghost use Rattle.cluster_world.specs.Steps.{StepDid, AreSettled};
ghost use Rattle.cluster_world.specs.Sure.{IsSurelyDone};
ghost use Rattle.cluster_world.specs.declared.step.Step.TheVariants as step;

use crate::befalling::befall_in;
use crate::fault::StepFault;
use crate::flying::Flying;
use crate::nodes::Nodes;
use crate::queue::put_next;
use crate::step::Said;
use crate::steps::drop::leads_too_far;
use io_edge::Disk;
use node_tickets::MishapKind;
use std::alloc::Global;

/// Takes a letter of a call that reads out of flight. Its ticket has a mishap, if it has one that stands, and what is sent for that
/// takes the letter's place. It takes no memory.
pub(crate) fn drop_read<D: Disk>(
    alloc: Global,
    nodes: &mut Nodes<D>,
    flying: &mut Flying,
    number: u64,
) -> Result<Said, StepFault>
    requires ready { CanWorkOn D.seen nodes.old.plan nodes.old.lives.items nodes.old.disks.items }
    requires read { (letter : PlainLetter) → letter_at number flying.old.flights ≡ Some letter → is_read_body letter.body ≡ true }
    ensures did { (seconds : ℕ) (book : ABook) → StepDid (view_of D.seen D.faults D.clock) result (step.Drop number) (state_with nodes.old flying.old seconds book) (state_with nodes.new flying.new seconds book) }
    ensures sure { (seconds : ℕ) (book : ABook) → IsSurelyDone (state_with nodes.old flying.old seconds book) (step.Drop number) result }
    ensures ready { CanWorkOn D.seen nodes.new.plan nodes.new.lives.items nodes.new.disks.items }
    ensures settled { (seconds : ℕ) (book : ABook) → AreSettled D.settled (state_with nodes.old flying.old seconds book) → AreSettled D.settled (state_with nodes.new flying.new seconds book) }
    ensures room { all_falls_left nodes.new.lives.items ≡ all_falls_left nodes.old.lives.items }
{
    let Some(letter) = flying.letter(number) else {
        return Err(StepFault::NoSuchLetter);
    };
    if leads_too_far(letter, flying.sent()) {
        return Err(StepFault::Worn);
    }
    let sent = befall_in(nodes, MishapKind::Dropped, letter);
    let mut roomy = flying.take_with_place(alloc, number);
    put_next(nodes, &mut roomy, sent);
    flying.put_back(roomy);
    Ok(Said::Done)
}
