//! Letters of calls that read, and the others.
ghost use Rattle.std.specs.Prelude.{◌≡◌, ◌≤◌, ℕ, true, false, None};
ghost use Rattle.cluster_model.specs.Steps.{letter_at};
ghost use Rattle.joint_world.specs.Staying.{IsMailCall};
ghost use Rattle.node_core.specs.Beginning.{call_seen};
ghost use Rattle.node_store.specs.Disks.{view_of};
ghost use Rattle.world_book.specs.Books.{spare_of};
ghost use Rattle.world_book.specs.declared.book.Book.{Book as ABook};
ghost use Rattle.cluster_world.specs.BeginningReads.{IsReadCall};
ghost use Rattle.cluster_world.specs.Installs.{AddsInstalls, installs_booked};
ghost use Rattle.cluster_world.specs.Lives.{all_falls_left, CanWorkOn};
ghost use Rattle.cluster_world.specs.Sorting.{is_of_reads};
ghost use Rattle.cluster_world.specs.Turns.{node_refusal};
ghost use Rattle.cluster_world.specs.Worlds.{state_with, life_among};
ghost use Rattle.cluster_world.specs.Steps.{StepDid, AreSettled};
ghost use Rattle.cluster_world.specs.Sure.{IsSurelyDone};
ghost use Rattle.cluster_world.specs.declared.step.Step.TheVariants as step;

use crate::fault::StepFault;
use crate::flying::Flying;
use crate::nodes::Nodes;
use crate::step::Said;
use crate::steps::begin::begin_call;
use crate::steps::begin_read::begin_read;
use crate::steps::drop::drop_letter;
use crate::steps::drop_read::drop_read;
use crate::steps::post::post_letter;
use crate::steps::post_read::post_read;
use call_tickets::Call;
use io_edge::Disk;
use mail_base::NodeNo;
use std::alloc::Global;
use whole_node::is_of_reads;
use world_book::Book;

/// Whether the letter of this number is one of a call that reads.
fn is_read(flying: &Flying, number: u64) -> bool
    ensures { result ≡ is_of_reads (letter_at number flying.now.flights) }
{
    match flying.letter(number) {
        Some(letter) => is_of_reads(&letter.body),
        None => false,
    }
}

/// Takes a letter out of flight. Its ticket has a mishap, if it has one that stands. It takes no memory.
pub(crate) fn drop_any<D: Disk>(
    alloc: Global,
    nodes: &mut Nodes<D>,
    flying: &mut Flying,
    number: u64,
) -> Result<Said, StepFault>
    requires ready { CanWorkOn D.seen nodes.old.plan nodes.old.lives.items nodes.old.disks.items }
    ensures did { (seconds : ℕ) (book : ABook) → StepDid (view_of D.seen D.faults D.clock) result (step.Drop number) (state_with nodes.old flying.old seconds book) (state_with nodes.new flying.new seconds book) }
    ensures sure { (seconds : ℕ) (book : ABook) → IsSurelyDone (state_with nodes.old flying.old seconds book) (step.Drop number) result }
    ensures ready { CanWorkOn D.seen nodes.new.plan nodes.new.lives.items nodes.new.disks.items }
    ensures settled { (seconds : ℕ) (book : ABook) → AreSettled D.settled (state_with nodes.old flying.old seconds book) → AreSettled D.settled (state_with nodes.new flying.new seconds book) }
    ensures room { all_falls_left nodes.new.lives.items ≡ all_falls_left nodes.old.lives.items }
{
    if is_read(flying, number) {
        return drop_read(alloc, nodes, flying, number);
    }
    drop_letter(nodes, flying, number)
}

/// Hands a letter to its receiver. It leaves, or is kept in flight, so that it can be posted again; where memory runs out it
/// stays. Its ticket has a mishap where the receiver is not up, has another epoch, or has a disk fault. Of an Install that the
/// receiver hears the book has the epoch.
pub(crate) fn post_any<D: Disk>(
    alloc: Global,
    nodes: &mut Nodes<D>,
    flying: &mut Flying,
    book: &mut Book,
    number: u64,
    keep: bool,
) -> Result<Said, StepFault>
    requires ready { CanWorkOn D.seen nodes.old.plan nodes.old.lives.items nodes.old.disks.items }
    requires room { all_falls_left nodes.old.lives.items ≤ spare_of book.old }
    ensures did { (seconds : ℕ) → StepDid (view_of D.seen D.faults D.clock) result (step.Post number keep) (state_with nodes.old flying.old seconds book.old) (state_with nodes.new flying.new seconds book.new) }
    ensures ready { CanWorkOn D.seen nodes.new.plan nodes.new.lives.items nodes.new.disks.items }
    ensures settled { (seconds : ℕ) → AreSettled D.settled (state_with nodes.old flying.old seconds book.old) → AreSettled D.settled (state_with nodes.new flying.new seconds book.new) }
    ensures room { all_falls_left nodes.new.lives.items ≤ spare_of book.new }
    ensures installs { AddsInstalls (step.Post number keep) flying.old.flights nodes.old.lives.items book.old nodes.new.lives.items book.new }
{
    if is_read(flying, number) {
        return post_read(alloc, nodes, flying, book, number, keep);
    }
    post_letter(alloc, nodes, flying, book, number, keep)
}

/// Whether the call is one that reads.
fn reads(call: &Call) -> bool
    ensures reads { result ≡ true → IsReadCall (call_seen call.now) }
    ensures mail { result ≡ false → IsMailCall (call_seen call.now) }
{
    match call {
        Call::Deliver(_) | Call::Strike { .. } => false,
        Call::Login { .. } | Call::Fetch { .. } | Call::Leave { .. } => true,
    }
}

/// Begins a call at a node that is up. The book has at once what a Strike is to delete, also where the node goes down in it.
pub(crate) fn begin_any<D: Disk>(
    alloc: Global,
    nodes: &mut Nodes<D>,
    flying: &mut Flying,
    book: &mut Book,
    node: NodeNo,
    call: Call,
    seconds: u64,
) -> Result<Said, StepFault>
    requires fit { node_refusal nodes.old.plan (life_among nodes.old) (step.Begin node call) ≡ None }
    requires ready { CanWorkOn D.seen nodes.old.plan nodes.old.lives.items nodes.old.disks.items }
    requires room { all_falls_left nodes.old.lives.items ≤ spare_of book.old }
    ensures did { StepDid (view_of D.seen D.faults D.clock) result (step.Begin node call) (state_with nodes.old flying.old seconds book.old) (state_with nodes.new flying.new seconds book.new) }
    ensures ready { CanWorkOn D.seen nodes.new.plan nodes.new.lives.items nodes.new.disks.items }
    ensures settled { AreSettled D.settled (state_with nodes.old flying.old seconds book.old) → AreSettled D.settled (state_with nodes.new flying.new seconds book.new) }
    ensures room { all_falls_left nodes.new.lives.items ≤ spare_of book.new }
    ensures installs { installs_booked book.new ≡ installs_booked book.old }
{
    if reads(&call) {
        return begin_read(alloc, nodes, flying, book, node, call);
    }
    begin_call(alloc, nodes, flying, book, node, call, seconds)
}
