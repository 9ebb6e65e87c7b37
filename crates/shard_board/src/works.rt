//! What one turn does to a part: a work for each kind of turn.
ghost use Rattle.std.specs.Prelude.{◌≡◌, true, IfOk};
ghost use Rattle.std.specs.Option.{option_copied};
ghost use Rattle.node_store.specs.Disks.{view_of};
ghost use Rattle.cluster_world.specs.Worlds.{plan_of, CanMakeSteps};
ghost use Rattle.shard_board.specs.Parts.{KeepsPart, AddsKnown};
ghost use Rattle.shard_board.specs.Posts.{step_by, posted_of, LetterMet, PostsOne};
ghost use Rattle.shard_board.specs.Reads.{TellsLife, TellsMap, TellsSum, TellsEntry};

use crate::deed::{Deed, Stepping};
use crate::entries::{copied, entry_at};
use crate::part::Part;
use call_tickets::{DeskFault, Life, Posted};
use cluster_world::{BookSum, Said, Step, StepFault};
use io_edge::{Clock, Disk, Fate, Luck};
use mail_base::{Name, NodeNo, NodeSet};
use std::alloc::{AllocError, Global};
use turnstile::Work;
use world_book::Entry;

/// A deed with the world.
#[derive(Drop)]
pub(crate) struct Doing<T> {
    pub alloc: Global,
    pub deed: T,
}

impl<D: Disk, F, C, T: Deed<D>> Work<Part<D, F, C>> for Doing<T> {
    type Out = T::Out;

    ghost asks = { λ work part. CanMakeSteps D.seen part.world × T.asks work.deed part.world };

    ghost did = { λ work old result new. T.did work.deed old.world result new.world × (T.blind work.deed (plan_of old.world).nodes ≡ true → AddsKnown D.seen old new) };

    fn run(self, part: &mut Part<D, F, C>) -> T::Out {
        part.make(self.alloc, self.deed)
    }
}

/// A look at the life of a node.
#[derive(Drop)]
pub(crate) struct Looking {
    pub node: NodeNo,
}

impl<D: Disk, F, C> Work<Part<D, F, C>> for Looking {
    type Out = Option<Life>;

    ghost asks = { λ work part. Unit {0} };

    ghost did = { λ work old life new. TellsLife work.node old life new };

    fn run(self, part: &mut Part<D, F, C>) -> Option<Life> {
        Some(Life {
            boot: part.world.boot(self.node)?,
            seconds: part.world.seconds(),
        })
    }
}

/// A count of the entries of the book.
#[derive(Drop)]
pub(crate) struct Summing;

impl<D: Disk, F, C> Work<Part<D, F, C>> for Summing {
    type Out = BookSum;

    ghost asks = { λ work part. Unit {0} };

    ghost did = { λ work old sum new. TellsSum old sum new };

    fn run(self, part: &mut Part<D, F, C>) -> BookSum {
        part.world.sum()
    }
}

/// A look at a user's map.
#[derive(Drop)]
pub(crate) struct Mapping {
    pub user: Name,
}

impl<D: Disk, F, C> Work<Part<D, F, C>> for Mapping {
    type Out = Option<(NodeNo, NodeSet)>;

    ghost asks = { λ work part. Unit {0} };

    ghost did = { λ work old told new. TellsMap work.user old told new };

    fn run(self, part: &mut Part<D, F, C>) -> Option<(NodeNo, NodeSet)> {
        part.world.maps(&self.user)
    }
}

/// A look at one entry of the book.
#[derive(Drop)]
pub(crate) struct Reading {
    pub place: usize,
}

// The entry, if there is one, once more.
fn copy_of(entry: Option<&Entry>) -> Result<Option<Entry>, AllocError>
    ensures { IfOk result (λ copy. copy ≡ option_copied entry.entry) }
{
    match entry {
        Some(entry) => Ok(Some(copied(entry)?)),
        None => Ok(None),
    }
}

impl<D: Disk, F, C> Work<Part<D, F, C>> for Reading {
    type Out = Result<Option<Entry>, AllocError>;

    ghost asks = { λ work part. Unit {0} };

    ghost did = { λ work old entry new. TellsEntry work.place old entry new };

    fn run(self, part: &mut Part<D, F, C>) -> Result<Option<Entry>, AllocError> {
        copy_of(entry_at(part.world.book().entries(), self.place))
    }
}

/// A look at the letter of the lowest number, after the clock was set.
#[derive(Drop)]
pub(crate) struct Posting {
    pub alloc: Global,
}

// The step that the luck of a letter leads to.
fn step_by(luck: Luck, letter: u64) -> Step
    ensures { result ≡ step_by luck letter }
{
    match luck {
        Luck::Carry => Step::Post {
            letter,
            keep: false,
        },
        Luck::Drop => Step::Drop { letter },
        Luck::Twice => Step::Post { letter, keep: true },
    }
}

// What is answered of a step with a letter that is in flight. It is refused only where a number is used up, or memory runs out.
fn posted_of(said: &Result<Said, StepFault>) -> Result<Posted, DeskFault>
    ensures { result ≡ posted_of said.now }
{
    match said {
        Ok(_) => Ok(Posted::Did),
        Err(StepFault::Worn) => Err(DeskFault::Worn),
        Err(_) => Err(DeskFault::NoMemory),
    }
}

// What fate decides of the letter is done.
fn meet<D: Disk, F: Fate, C>(
    part: &mut Part<D, F, C>,
    alloc: Global,
    letter: u64,
) -> Result<Posted, DeskFault>
    requires ready { CanMakeSteps D.seen part.old.world }
    ensures met { LetterMet (view_of D.seen D.faults D.clock) F.decides letter part.old result part.new }
    ensures keeps { KeepsPart (view_of D.seen D.faults D.clock) part.old part.new }
    ensures known { AddsKnown D.seen part.old part.new }
{
    let luck = part.fate.decide(letter);
    let step = step_by(luck, letter);
    let said = part.make(alloc, Stepping { step });
    posted_of(&said)
}

impl<D: Disk, F: Fate, C: Clock> Work<Part<D, F, C>> for Posting {
    type Out = Result<Posted, DeskFault>;

    ghost asks = { λ work part. CanMakeSteps D.seen part.world };

    ghost did = { λ work old result new. PostsOne (view_of D.seen D.faults D.clock) F.decides old result new };

    fn run(self, part: &mut Part<D, F, C>) -> Result<Posted, DeskFault> {
        let seconds = part.clock.seconds();
        let step = Step::Tick { seconds };
        let _ = part.make(self.alloc, Stepping { step });
        match part.world.flying() {
            Some(letter) => meet(part, self.alloc, letter),
            None => Ok(Posted::Quiet),
        }
    }
}
