//! A letter is dropped.
ghost use Rattle.std.specs.Prelude.{◌≡◌, ℕ, ◌&&◌, nat_le, false, Some};
ghost use Rattle.object_model.specs.Letters.{Letter as PlainLetter, is_read_body};
ghost use Rattle.cluster_model.specs.Steps.{letter_at, has_ticket, letters_end};
ghost use Rattle.node_store.specs.Disks.{view_of};
ghost use Rattle.world_book.specs.declared.book.Book.{Book as ABook};
ghost use Rattle.cluster_world.specs.Lives.{all_falls_left, CanWorkOn};
ghost use Rattle.cluster_world.specs.Worlds.{state_with};
ghost use Rattle.cluster_world.specs.Steps.{StepDid, AreSettled};
ghost use Rattle.cluster_world.specs.Sure.{IsSurelyDone};
ghost use Rattle.cluster_world.specs.declared.step.Step.TheVariants as step;

use crate::fault::StepFault;
use crate::flying::{Flying, is_worn};
use crate::mishaps::note_in;
use crate::nodes::Nodes;
use crate::step::Said;
use io_edge::Disk;
use mail_base::Letter;
use node_tickets::MishapKind;

/// Whether a letter with a ticket is dropped where no letter is sent any more.
pub(crate) fn leads_too_far(letter: &Letter, sent: u64) -> bool
    ensures { result ≡ (has_ticket (Some letter.now) && nat_le letters_end sent) }
{
    letter.ticket.is_some() && is_worn(sent)
}

/// Takes a letter that is of no call that reads out of flight. Its ticket has a mishap, if it has one that stands. It takes no memory.
pub(crate) fn drop_letter<D: Disk>(
    nodes: &mut Nodes<D>,
    flying: &mut Flying,
    number: u64,
) -> Result<Said, StepFault>
    requires ready { CanWorkOn D.seen nodes.old.plan nodes.old.lives.items nodes.old.disks.items }
    requires mail { (letter : PlainLetter) → letter_at number flying.old.flights ≡ Some letter → is_read_body letter.body ≡ false }
    ensures did { (seconds : ℕ) (book : ABook) → StepDid (view_of D.seen D.faults D.clock) result (step.Drop number) (state_with nodes.old flying.old seconds book) (state_with nodes.new flying.new seconds book) }
    ensures sure { (seconds : ℕ) (book : ABook) → IsSurelyDone (state_with nodes.old flying.old seconds book) (step.Drop number) result }
    ensures ready { CanWorkOn D.seen nodes.new.plan nodes.new.lives.items nodes.new.disks.items }
    ensures settled { (seconds : ℕ) (book : ABook) → AreSettled D.settled (state_with nodes.old flying.old seconds book) → AreSettled D.settled (state_with nodes.new flying.new seconds book) }
    ensures room { all_falls_left nodes.new.lives.items ≡ all_falls_left nodes.old.lives.items }
{
    let Some(letter) = flying.letter(number) else {
        return Err(StepFault::NoSuchLetter);
    };
    if leads_too_far(letter, flying.sent()) {
        return Err(StepFault::Worn);
    }
    note_in(nodes, MishapKind::Dropped, letter);
    flying.take(number);
    Ok(Said::Done)
}
