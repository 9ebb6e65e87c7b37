//! A letter of a call that reads is handed to its receiver.
ghost use Rattle.std.specs.Prelude.{◌≡◌, ◌+◌, ◌≤◌, ◌<◌, ◌^◌, ℕ, [], true, false, length, nat_le, Some, Ok, Err, IfOk};
ghost use Rattle.std.specs.VecDeque.{deque_len, deque_capacity};
ghost use Rattle.object_model.specs.Letters.{Letter as PlainLetter, is_read_body};
ghost use Rattle.cluster_model.specs.Steps.{letter_at, letters_end};
ghost use Rattle.node_store.specs.Disks.{view_of};
ghost use Rattle.node_tickets.specs.Seen.{kind_of_mishap};
ghost use Rattle.node_core.specs.declared.fault.NodeFault.TheVariants.{Disk};
ghost use Rattle.whole_node.specs.Reading.{AreReadLetters};
ghost use Rattle.world_book.specs.Books.{spare_of};
ghost use Rattle.cluster_world.specs.Flights.{FlightIsCounted, taken_out};
ghost use Rattle.cluster_world.specs.Hears.{AllCanBeHeard};
ghost use Rattle.cluster_world.specs.Installs.{installs_booked};
ghost use Rattle.cluster_world.specs.Lives.{is_up_life, all_falls_left, CanWorkOn};
ghost use Rattle.cluster_world.specs.Changes.{ChangesNode};
ghost use Rattle.cluster_world.specs.Posts.{out_of};
ghost use Rattle.cluster_world.specs.Reading.{AreOfOne, PutsQueue, flying_of};
ghost use Rattle.cluster_world.specs.ReadPosts.{HearsReadAt, LosesLetter, ThrowsRead, EndsHeardRead, EndsRead, said_of_heard};
ghost use Rattle.cluster_world.specs.Steps.{StepDid, AreSettled};
ghost use Rattle.cluster_world.specs.Worlds.{life_among, state_with};
ghost use Rattle.cluster_world.specs.declared.step.Step.TheVariants as step;
ghost use Rattle.cluster_world.specs.declared.step.Said.TheVariants as said;

use crate::befalling::befall_in;
use crate::fault::StepFault;
use crate::flying::{Flying, is_worn};
use crate::nodes::{Nodes, place_of};
use crate::queue::{append, put_next, put_queue};
use crate::reading::hear_read_at;
use crate::roomy::Roomy;
use crate::step::Said;
use crate::steps::fault::{enter_fall, said_of};
use crate::steps::post::{has_up, out_of, receiver_of};
use io_edge::Disk;
use mail_base::{Letter, NodeNo};
use node_core::{NodeFault, Outbox, Why};
use node_tickets::MishapKind;
use std::alloc::Global;
use std::collections::VecDeque;
use world_book::Book;

/// How many letters a node sends at most for a call that reads.
const MOST_SENT: usize = 64;

/// The receiver, which is up, hears the letter.
fn hear_read_in<D: Disk>(
    alloc: Global,
    nodes: &mut Nodes<D>,
    letter: &Letter,
) -> Result<Outbox, NodeFault>
    requires up { is_up_life (life_among nodes.old letter.now.to) ≡ true }
    requires works { CanWorkOn D.seen nodes.old.plan nodes.old.lives.items nodes.old.disks.items }
    requires kind { is_read_body letter.now.body ≡ true }
    ensures hears { ChangesNode letter.now.to (HearsReadAt (view_of D.seen D.faults D.clock) D.settled nodes.old.plan letter.now.to letter.now result) nodes.old nodes.new }
{
    let place = place_of(receiver_of(letter));
    hear_read_at(
        alloc,
        &mut nodes.lives[place],
        &mut nodes.disks[place],
        &nodes.plan.users,
        letter,
    )
}

/// The letter is lost: its mishap is noted, it leaves if it is to, and what is sent for that is put in flight. It takes no memory.
fn lose<D: Disk>(nodes: &mut Nodes<D>, roomy: &mut Roomy, kind: MishapKind, number: u64, keep: bool)
    requires works { CanWorkOn D.seen nodes.old.plan nodes.old.lives.items nodes.old.disks.items }
    requires counted { FlightIsCounted roomy.old.octets roomy.old.sent roomy.old.flights.items }
    requires numbers { roomy.old.sent + 64 < 2 ^ 64 }
    requires room { deque_len roomy.old.flights + 64 ≤ deque_capacity roomy.old.flights }
    ensures counted { FlightIsCounted roomy.new.octets roomy.new.sent roomy.new.flights.items }
    ensures lost { LosesLetter (view_of D.seen D.faults D.clock) number keep (kind_of_mishap kind) nodes.old (flying_of roomy.old) nodes.new (flying_of roomy.new) }
{
    let Some(letter) = roomy.letter(number) else {
        return;
    };
    let sent = befall_in(nodes, kind, letter);
    roomy.leave(out_of(number, keep));
    put_next(nodes, roomy, sent);
}

/// These letters are in the queue, which has room for them.
fn queue_all(queue: &mut VecDeque<Letter>, letters: Vec<Letter>)
    requires none { queue.old.items ≡ [] }
    requires room { length letters.items ≤ deque_capacity queue.old }
    ensures items { queue.new.items ≡ letters.items }
    ensures capacity { deque_capacity queue.new ≡ deque_capacity queue.old }
{
    for letter in letters {
        append(queue, Some(letter));
    }
}

/// What a node sends is put in flight from the queue.
fn send_read<D: Disk>(
    nodes: &mut Nodes<D>,
    roomy: &mut Roomy,
    queue: &mut VecDeque<Letter>,
    letters: Vec<Letter>,
)
    requires works { CanWorkOn D.seen nodes.old.plan nodes.old.lives.items nodes.old.disks.items }
    requires counted { FlightIsCounted roomy.old.octets roomy.old.sent roomy.old.flights.items }
    requires numbers { roomy.old.sent + 64 < 2 ^ 64 }
    requires room { deque_len roomy.old.flights + 64 ≤ deque_capacity roomy.old.flights }
    requires none { queue.old.items ≡ [] }
    requires spare { 64 ≤ deque_capacity queue.old }
    requires few { length letters.items ≤ 64 }
    requires heard { AllCanBeHeard letters.items }
    requires one { AreOfOne letters.items }
    ensures counted { FlightIsCounted roomy.new.octets roomy.new.sent roomy.new.flights.items }
    ensures puts { PutsQueue (view_of D.seen D.faults D.clock) letters.items nodes.old (flying_of roomy.old) nodes.new (flying_of roomy.new) }
{
    queue_all(queue, letters);
    put_queue(nodes, roomy, queue);
}

/// A letter that was thrown: it is lost where it is of another epoch, and else leaves, if it is to.
fn end_thrown<D: Disk>(nodes: &mut Nodes<D>, roomy: &mut Roomy, number: u64, keep: bool, why: Why)
    requires works { CanWorkOn D.seen nodes.old.plan nodes.old.lives.items nodes.old.disks.items }
    requires counted { FlightIsCounted roomy.old.octets roomy.old.sent roomy.old.flights.items }
    requires numbers { roomy.old.sent + 64 < 2 ^ 64 }
    requires room { deque_len roomy.old.flights + 64 ≤ deque_capacity roomy.old.flights }
    ensures counted { FlightIsCounted roomy.new.octets roomy.new.sent roomy.new.flights.items }
    ensures thrown { ThrowsRead (view_of D.seen D.faults D.clock) number keep why nodes.old (flying_of roomy.old) nodes.new (flying_of roomy.new) }
{
    match why {
        Why::Stale => lose(nodes, roomy, MishapKind::Stale, number, keep),
        Why::Down => roomy.leave(out_of(number, keep)),
        Why::Old => roomy.leave(out_of(number, keep)),
        Why::NotPromised => roomy.leave(out_of(number, keep)),
        Why::NotMember => roomy.leave(out_of(number, keep)),
        Why::Late => roomy.leave(out_of(number, keep)),
    }
}

/// A letter that was heard, or thrown.
fn end_heard<D: Disk>(
    nodes: &mut Nodes<D>,
    roomy: &mut Roomy,
    queue: &mut VecDeque<Letter>,
    number: u64,
    keep: bool,
    outbox: Outbox,
) -> Said
    requires works { CanWorkOn D.seen nodes.old.plan nodes.old.lives.items nodes.old.disks.items }
    requires counted { FlightIsCounted roomy.old.octets roomy.old.sent roomy.old.flights.items }
    requires numbers { roomy.old.sent + 64 < 2 ^ 64 }
    requires room { deque_len roomy.old.flights + 64 ≤ deque_capacity roomy.old.flights }
    requires none { queue.old.items ≡ [] }
    requires spare { 64 ≤ deque_capacity queue.old }
    requires few { length outbox.letters ≤ 64 }
    requires heard { AllCanBeHeard outbox.letters }
    requires one { AreOfOne outbox.letters }
    ensures counted { FlightIsCounted roomy.new.octets roomy.new.sent roomy.new.flights.items }
    ensures ends { EndsHeardRead (view_of D.seen D.faults D.clock) number keep outbox.thrown outbox.letters nodes.old (flying_of roomy.old) nodes.new (flying_of roomy.new) }
    ensures said { result ≡ said_of_heard outbox.thrown }
{
    let Outbox { letters, thrown } = outbox;
    match thrown {
        Some(why) => {
            end_thrown(nodes, roomy, number, keep, why);
            Said::Thrown(why)
        }
        None => {
            roomy.leave(out_of(number, keep));
            send_read(nodes, roomy, queue, letters.into_vec());
            Said::Heard
        }
    }
}

/// The disk of the receiver failed: the book has that it is down, and the letter is lost.
fn end_failed<D: Disk>(
    nodes: &mut Nodes<D>,
    roomy: &mut Roomy,
    book: &mut Book,
    node: NodeNo,
    number: u64,
    keep: bool,
) -> Said
    requires works { CanWorkOn D.seen nodes.old.plan nodes.old.lives.items nodes.old.disks.items }
    requires counted { FlightIsCounted roomy.old.octets roomy.old.sent roomy.old.flights.items }
    requires numbers { roomy.old.sent + 64 < 2 ^ 64 }
    requires room { deque_len roomy.old.flights + 64 ≤ deque_capacity roomy.old.flights }
    requires spare { 0 < spare_of book.old }
    ensures counted { FlightIsCounted roomy.new.octets roomy.new.sent roomy.new.flights.items }
    ensures ends { EndsRead (view_of D.seen D.faults D.clock) number keep node (Err Disk) (Ok result) nodes.old (flying_of roomy.old) book.old nodes.new (flying_of roomy.new) book.new }
{
    enter_fall(book, node);
    lose(nodes, roomy, MishapKind::Disk, number, keep);
    Said::Faulted(node)
}

/// What is made of a letter that was handed to its receiver.
fn end_read<D: Disk>(
    nodes: &mut Nodes<D>,
    roomy: &mut Roomy,
    queue: &mut VecDeque<Letter>,
    book: &mut Book,
    node: NodeNo,
    number: u64,
    keep: bool,
    heard: Result<Outbox, NodeFault>,
) -> Result<Said, StepFault>
    requires works { CanWorkOn D.seen nodes.old.plan nodes.old.lives.items nodes.old.disks.items }
    requires counted { FlightIsCounted roomy.old.octets roomy.old.sent roomy.old.flights.items }
    requires numbers { roomy.old.sent + 64 < 2 ^ 64 }
    requires room { deque_len roomy.old.flights + 64 ≤ deque_capacity roomy.old.flights }
    requires none { queue.old.items ≡ [] }
    requires spare { 64 ≤ deque_capacity queue.old }
    requires book { 0 < spare_of book.old }
    requires few { IfOk heard (λ outbox. length outbox.letters ≤ 64) }
    requires fit { IfOk heard (λ outbox. AllCanBeHeard outbox.letters) }
    requires one { IfOk heard (λ outbox. AreOfOne outbox.letters) }
    ensures counted { FlightIsCounted roomy.new.octets roomy.new.sent roomy.new.flights.items }
    ensures ends { EndsRead (view_of D.seen D.faults D.clock) number keep node heard result nodes.old (flying_of roomy.old) book.old nodes.new (flying_of roomy.new) book.new }
{
    match heard {
        Ok(outbox) => Ok(end_heard(nodes, roomy, queue, number, keep, outbox)),
        Err(NodeFault::Disk) => Ok(end_failed(nodes, roomy, book, node, number, keep)),
        Err(NodeFault::Worn) => said_of(node, NodeFault::Worn),
        Err(NodeFault::NoMemory { down }) => said_of(node, NodeFault::NoMemory { down }),
    }
}

// Hands a letter to its receiver, once there is room for all that may be sent.
fn hand_read<D: Disk>(
    alloc: Global,
    nodes: &mut Nodes<D>,
    roomy: &mut Roomy,
    queue: &mut VecDeque<Letter>,
    book: &mut Book,
    number: u64,
    keep: bool,
) -> Result<Said, StepFault>
    requires ready { CanWorkOn D.seen nodes.old.plan nodes.old.lives.items nodes.old.disks.items }
    requires room { all_falls_left nodes.old.lives.items ≤ spare_of book.old }
    requires read { (letter : PlainLetter) → letter_at number roomy.old.flights.items ≡ Some letter → is_read_body letter.body ≡ true }
    requires counted { FlightIsCounted roomy.old.octets roomy.old.sent roomy.old.flights.items }
    requires early { nat_le letters_end roomy.old.sent ≡ false }
    requires places { deque_len roomy.old.flights + 64 ≤ deque_capacity roomy.old.flights }
    requires none { queue.old.items ≡ [] }
    requires spare { 64 ≤ deque_capacity queue.old }
    ensures did { (seconds : ℕ) → StepDid (view_of D.seen D.faults D.clock) result (step.Post number keep) (state_with nodes.old (flying_of roomy.old) seconds book.old) (state_with nodes.new (flying_of roomy.new) seconds book.new) }
    ensures ready { CanWorkOn D.seen nodes.new.plan nodes.new.lives.items nodes.new.disks.items }
    ensures settled { (seconds : ℕ) → AreSettled D.settled (state_with nodes.old (flying_of roomy.old) seconds book.old) → AreSettled D.settled (state_with nodes.new (flying_of roomy.new) seconds book.new) }
    ensures spare { spare_of book.old + all_falls_left nodes.new.lives.items ≤ spare_of book.new + all_falls_left nodes.old.lives.items }
    ensures installs { installs_booked book.new ≡ installs_booked book.old }
    ensures counted { FlightIsCounted roomy.new.octets roomy.new.sent roomy.new.flights.items }
{
    let Some(letter) = roomy.letter(number) else {
        return Err(StepFault::NoSuchLetter);
    };
    let node = receiver_of(letter);
    if !has_up(nodes, node) {
        lose(nodes, roomy, MishapKind::Down, number, keep);
        return Ok(Said::Thrown(Why::Down));
    }
    let heard = hear_read_in(alloc, nodes, letter);
    end_read(nodes, roomy, queue, book, node, number, keep, heard)
}

/// Hands a letter of a call that reads to its receiver. It leaves, or is kept in flight, so that it can be posted again; where memory runs
/// out nothing has changed. Its ticket has a mishap where the receiver is not up, has another epoch, or has a disk fault, and what is
/// sent for that is in flight.
pub(crate) fn post_read<D: Disk>(
    alloc: Global,
    nodes: &mut Nodes<D>,
    flying: &mut Flying,
    book: &mut Book,
    number: u64,
    keep: bool,
) -> Result<Said, StepFault>
    requires ready { CanWorkOn D.seen nodes.old.plan nodes.old.lives.items nodes.old.disks.items }
    requires room { all_falls_left nodes.old.lives.items ≤ spare_of book.old }
    requires read { (letter : PlainLetter) → letter_at number flying.old.flights ≡ Some letter → is_read_body letter.body ≡ true }
    ensures did { (seconds : ℕ) → StepDid (view_of D.seen D.faults D.clock) result (step.Post number keep) (state_with nodes.old flying.old seconds book.old) (state_with nodes.new flying.new seconds book.new) }
    ensures ready { CanWorkOn D.seen nodes.new.plan nodes.new.lives.items nodes.new.disks.items }
    ensures settled { (seconds : ℕ) → AreSettled D.settled (state_with nodes.old flying.old seconds book.old) → AreSettled D.settled (state_with nodes.new flying.new seconds book.new) }
    ensures spare { spare_of book.old + all_falls_left nodes.new.lives.items ≤ spare_of book.new + all_falls_left nodes.old.lives.items }
    ensures installs { installs_booked book.new ≡ installs_booked book.old }
{
    let Some(_) = flying.letter(number) else {
        return Err(StepFault::NoSuchLetter);
    };
    if is_worn(flying.sent()) {
        return Err(StepFault::Worn);
    }
    let mut queue = VecDeque::with_capacity(alloc, MOST_SENT)?;
    let mut roomy = flying.make_room(alloc, MOST_SENT)?;
    let said = hand_read(alloc, nodes, &mut roomy, &mut queue, book, number, keep);
    flying.put_back(roomy);
    said
}
