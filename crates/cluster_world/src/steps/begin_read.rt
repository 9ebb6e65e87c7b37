//! A call that reads begins at a node, or a session leaves.
ghost use Rattle.std.specs.Prelude.{◌≡◌, ◌≤◌, ◌<◌, ◌+◌, ◌^◌, ℕ, [], List, length, Option, None, IfOk, vec_len, vec_capacity};
ghost use Rattle.std.specs.VecDeque.{deque_len, deque_capacity};
ghost use Rattle.mail_model.specs.Plan.{Plan as PlainPlan};
ghost use Rattle.node_store.specs.Disks.{view_of};
ghost use Rattle.node_core.specs.Beginning.{call_seen};
ghost use Rattle.node_core.specs.Nodes.{IsNodeOf};
ghost use Rattle.node_core.specs.Works.{LeavesUp};
ghost use Rattle.node_reads.specs.Readings.{listed};
ghost use Rattle.whole_node.specs.Nodes.{HasReads, WholeWorks};
ghost use Rattle.whole_node.specs.declared.node.WholeNode.{WholeNode as AWholeNode};
ghost use Rattle.world_book.specs.Books.{spare_of};
ghost use Rattle.cluster_world.specs.BeginningReads.{IsReadCall, LeavesAs, BeginsReading, BeginsReadAt, TurnsReading, CanBePut, ConcludesReading};
ghost use Rattle.cluster_world.specs.Changes.{ChangesNode};
ghost use Rattle.cluster_world.specs.Flights.{FlightIsCounted};
ghost use Rattle.cluster_world.specs.Hears.{AllCanBeHeard};
ghost use Rattle.cluster_world.specs.Installs.{installs_booked};
ghost use Rattle.cluster_world.specs.Lives.{all_falls_left, CanWorkOn};
ghost use Rattle.cluster_world.specs.Reading.{PutsQueue, AreOfOne, flying_of};
ghost use Rattle.cluster_world.specs.Steps.{StepDid, AreSettled};
ghost use Rattle.cluster_world.specs.Turns.{node_refusal};
ghost use Rattle.cluster_world.specs.Worlds.{state_with, life_among};
ghost use Rattle.cluster_world.specs.declared.life.Life.TheVariants as lives;
ghost use Rattle.cluster_world.specs.declared.step.Step.TheVariants.{Begin};

use crate::fault::StepFault;
use crate::filling::{fill, room_for_letters};
use crate::flying::{Flying, is_worn};
use crate::life::Life;
use crate::nodes::{Nodes, place_of};
use crate::queue::put_queue;
use crate::roomy::Roomy;
use crate::step::Said;
use crate::steps::begin::begun;
use crate::steps::fault::tell_fault;
use crate::working::settle;
use call_tickets::Call;
use io_edge::Disk;
use mail_base::{Letter, Name, NodeNo, Sequence, Ticket, Users};
use node_core::{NodeFault, Outbox};
use std::alloc::Global;
use std::collections::VecDeque;
use whole_node::WholeNode;
use world_book::Book;

/// The letter, if there is one, in a list that has room for it.
fn alone(mut letters: Vec<Letter>, letter: Option<Letter>) -> Sequence<Letter>
    requires room { vec_len letters < vec_capacity letters }
    requires none { letters.items ≡ [] }
    ensures { result ≡ listed letter }
{
    if let Some(letter) = letter {
        letters.push_reserved(letter);
    }
    Sequence::from_vec(letters)
}

/// A session leaves. It makes room for its letter first.
fn leave_at(
    alloc: Global,
    node: &mut WholeNode,
    user: Name,
    login: Ticket,
    manager: NodeNo,
) -> Result<(Option<Ticket>, Outbox), NodeFault>
    requires reads { HasReads node.old }
    ensures leaves { LeavesAs user login manager result node.old node.new }
    ensures works { (seen : Option (List ℕ)) → WholeWorks seen node.old → WholeWorks seen node.new }
{
    let mut letters = Vec::new(alloc);
    letters.reserve(1)?;
    let letter = node.leave(user, login, manager);
    Ok((
        None,
        Outbox {
            letters: alone(letters, letter),
            thrown: None,
        },
    ))
}

/// A node that is up begins the call.
fn begin_by<D: Disk>(
    alloc: Global,
    node: &mut WholeNode,
    disk: &mut D,
    users: &Users,
    call: Call,
) -> Result<(Option<Ticket>, Outbox), NodeFault>
    requires works { WholeWorks (D.seen disk.old) node.old }
    requires reads { IsReadCall (call_seen call) }
    ensures begins { (plan : PlainPlan) (own seconds : ℕ) → IsNodeOf plan own node.old.mail → users.now ≡ plan.users → BeginsReading (view_of D.seen D.faults D.clock) plan own seconds (call_seen call) node.old disk.old node.new disk.new result }
    ensures works { LeavesUp result → WholeWorks (D.seen disk.new) node.new }
    ensures settled { LeavesUp result → D.settled disk.old → D.settled disk.new }
{
    match call {
        Call::Login { user, proof } => node.begin_login(alloc, users, user, proof),
        Call::Fetch {
            user,
            id,
            holders,
            from,
            most,
        } => node.begin_fetch(alloc, disk, user, id, from, most, holders),
        Call::Leave {
            user,
            login,
            manager,
        } => leave_at(alloc, node, user, login, manager),
        Call::Deliver(_) | Call::Strike { .. } => unreachable!(),
    }
}

/// The same of its life: it goes down where its disk failed.
fn begin_read_at<D: Disk>(
    alloc: Global,
    life: &mut Life,
    disk: &mut D,
    users: &Users,
    call: Call,
) -> Result<(Option<Ticket>, Outbox), NodeFault>
    requires up { (node : AWholeNode) × (life.old ≡ lives.Up node) × WholeWorks (D.seen disk.old) node }
    requires reads { IsReadCall (call_seen call) }
    ensures turns { (plan : PlainPlan) → users.now ≡ plan.users → TurnsReading (view_of D.seen D.faults D.clock) D.settled (call_seen call) plan result life.old disk.old life.new disk.new }
{
    let done = match life {
        Life::Up(node) => begin_by(alloc, node, disk, users, call),
        Life::Down | Life::Lost => unreachable!(),
    };
    settle(life, &done);
    done
}

/// The node of the world does.
fn begin_read_in<D: Disk>(
    alloc: Global,
    nodes: &mut Nodes<D>,
    node: NodeNo,
    call: Call,
) -> Result<(Option<Ticket>, Outbox), NodeFault>
    requires fit { node_refusal nodes.old.plan (life_among nodes.old) (Begin node call) ≡ None }
    requires works { CanWorkOn D.seen nodes.old.plan nodes.old.lives.items nodes.old.disks.items }
    requires reads { IsReadCall (call_seen call) }
    ensures begins { ChangesNode node (BeginsReadAt (view_of D.seen D.faults D.clock) D.settled (call_seen call) result nodes.old.plan node) nodes.old nodes.new }
{
    let place = place_of(node);
    begin_read_at(
        alloc,
        &mut nodes.lives[place],
        &mut nodes.disks[place],
        &nodes.plan.users,
        call,
    )
}

/// It has begun: its letters are put in flight. It takes no memory.
fn send_read<D: Disk>(
    nodes: &mut Nodes<D>,
    roomy: &mut Roomy,
    queue: VecDeque<Letter>,
    letters: Sequence<Letter>,
)
    requires works { CanWorkOn D.seen nodes.old.plan nodes.old.lives.items nodes.old.disks.items }
    requires counted { FlightIsCounted roomy.old.octets roomy.old.sent roomy.old.flights.items }
    requires numbers { roomy.old.sent + 64 < 2 ^ 64 }
    requires none { queue.items ≡ [] }
    requires some { deque_len queue + 64 ≤ deque_capacity queue }
    requires room { deque_len roomy.old.flights + 64 ≤ deque_capacity roomy.old.flights }
    requires few { length letters ≤ 64 }
    requires heard { AllCanBeHeard letters }
    requires one { AreOfOne letters }
    ensures counted { FlightIsCounted roomy.new.octets roomy.new.sent roomy.new.flights.items }
    ensures puts { PutsQueue (view_of D.seen D.faults D.clock) letters nodes.old (flying_of roomy.old) nodes.new (flying_of roomy.new) }
{
    let mut queue = queue;
    fill(&mut queue, letters);
    put_queue(nodes, roomy, &mut queue);
}

// What comes of what the node did.
fn conclude_read<D: Disk>(
    nodes: &mut Nodes<D>,
    roomy: &mut Roomy,
    book: &mut Book,
    node: NodeNo,
    queue: VecDeque<Letter>,
    did: Result<(Option<Ticket>, Outbox), NodeFault>,
) -> Result<Said, StepFault>
    requires works { CanWorkOn D.seen nodes.old.plan nodes.old.lives.items nodes.old.disks.items }
    requires counted { FlightIsCounted roomy.old.octets roomy.old.sent roomy.old.flights.items }
    requires numbers { roomy.old.sent + 64 < 2 ^ 64 }
    requires none { queue.items ≡ [] }
    requires some { deque_len queue + 64 ≤ deque_capacity queue }
    requires room { deque_len roomy.old.flights + 64 ≤ deque_capacity roomy.old.flights }
    requires spare { 0 < spare_of book.old }
    requires sends { IfOk did (λ begun. CanBePut begun.1.letters) }
    ensures counted { FlightIsCounted roomy.new.octets roomy.new.sent roomy.new.flights.items }
    ensures concludes { ConcludesReading (view_of D.seen D.faults D.clock) node result nodes.old (flying_of roomy.old) book.old nodes.new (flying_of roomy.new) book.new did }
    ensures spare { spare_of book.old ≤ spare_of book.new + 1 }
    ensures installs { installs_booked book.new ≡ installs_booked book.old }
{
    match did {
        Ok((ticket, outbox)) => {
            send_read(nodes, roomy, queue, outbox.letters);
            Ok(begun(ticket))
        }
        Err(why) => tell_fault(book, node, why),
    }
}

/// Begins a Login or a Fetch at a node that is up, or a session leaves there. It makes room in memory first: for the letters that
/// may be sent, and for the book's entry where the node goes down.
pub(crate) fn begin_read<D: Disk>(
    alloc: Global,
    nodes: &mut Nodes<D>,
    flying: &mut Flying,
    book: &mut Book,
    node: NodeNo,
    call: Call,
) -> Result<Said, StepFault>
    requires fit { node_refusal nodes.old.plan (life_among nodes.old) (Begin node call) ≡ None }
    requires ready { CanWorkOn D.seen nodes.old.plan nodes.old.lives.items nodes.old.disks.items }
    requires reads { IsReadCall (call_seen call) }
    requires room { all_falls_left nodes.old.lives.items ≤ spare_of book.old }
    ensures did { (seconds : ℕ) → StepDid (view_of D.seen D.faults D.clock) result (Begin node call) (state_with nodes.old flying.old seconds book.old) (state_with nodes.new flying.new seconds book.new) }
    ensures ready { CanWorkOn D.seen nodes.new.plan nodes.new.lives.items nodes.new.disks.items }
    ensures settled { (seconds : ℕ) → AreSettled D.settled (state_with nodes.old flying.old seconds book.old) → AreSettled D.settled (state_with nodes.new flying.new seconds book.new) }
    ensures room { all_falls_left nodes.new.lives.items ≤ spare_of book.new }
    ensures installs { installs_booked book.new ≡ installs_booked book.old }
{
    if is_worn(flying.sent()) {
        return Err(StepFault::Worn);
    }
    let queue = room_for_letters(alloc)?;
    book.reserve(nodes.most_falls() + 1)?;
    let mut roomy = flying.make_room(alloc, 64)?;
    let did = begin_read_in(alloc, nodes, node, call);
    let said = conclude_read(nodes, &mut roomy, book, node, queue, did);
    flying.put_back(roomy);
    said
}
