//! Letters of calls that read are put in flight, from a queue: the mishap of one may send one more.
ghost use Rattle.std.specs.Prelude.{◌≡◌, ◌+◌, ◌≤◌, ◌<◌, ◌^◌, ◌++◌, length};
ghost use Rattle.std.specs.VecDeque.{deque_len, deque_capacity};
ghost use Rattle.node_store.specs.Disks.{view_of};
ghost use Rattle.node_reads.specs.Readings.{listed};
ghost use Rattle.cluster_world.specs.Flights.{FlightIsCounted};
ghost use Rattle.cluster_world.specs.Hears.{CanBeHeard, AllCanBeHeard};
ghost use Rattle.cluster_world.specs.Lives.{CanWorkOn};
ghost use Rattle.cluster_world.specs.Reading.{LooksAt, PutsQueue, AreOfOne, flying_of};

use crate::befalling::befall_in;
use crate::flight::{Flight, octets_of};
use crate::flying::{finds_room, push};
use crate::nodes::Nodes;
use crate::roomy::Roomy;
use io_edge::Disk;
use mail_base::Letter;
use node_tickets::MishapKind;
use std::collections::VecDeque;

/// Looks at the first letter of a queue: it is put in flight, or its mishap is noted where it finds no room. What that sends is to
/// come behind the queue. It takes no memory.
fn look_at<D: Disk>(nodes: &mut Nodes<D>, roomy: &mut Roomy, letter: Letter) -> Option<Letter>
    requires works { CanWorkOn D.seen nodes.old.plan nodes.old.lives.items nodes.old.disks.items }
    requires counted { FlightIsCounted roomy.old.octets roomy.old.sent roomy.old.flights.items }
    requires numbers { roomy.old.sent + 1 < 2 ^ 64 }
    requires room { deque_len roomy.old.flights < deque_capacity roomy.old.flights }
    requires heard { CanBeHeard letter }
    ensures counted { FlightIsCounted roomy.new.octets roomy.new.sent roomy.new.flights.items }
    ensures looks { LooksAt (view_of D.seen D.faults D.clock) letter result nodes.old (flying_of roomy.old) nodes.new (flying_of roomy.new) }
    ensures heard { AllCanBeHeard (listed result) }
    ensures len { deque_len roomy.new.flights + length (listed result) ≤ deque_len roomy.old.flights + 1 }
    ensures number { roomy.new.sent + length (listed result) ≤ roomy.old.sent + 1 }
    ensures capacity { deque_capacity roomy.new.flights ≡ deque_capacity roomy.old.flights }
{
    if finds_room(roomy.flights.len(), roomy.octets, &letter) {
        roomy.octets += octets_of(&letter) as u64;
        roomy.sent += 1;
        push(&mut roomy.flights, Flight::new(roomy.sent, letter));
        None
    } else {
        befall_in(nodes, MishapKind::Crowded, &letter)
    }
}

/// Puts a letter in flight, if there is one. Where it finds no room its mishap may send another, and that is put in flight likewise.
/// It takes no memory.
pub(crate) fn put_next<D: Disk>(nodes: &mut Nodes<D>, roomy: &mut Roomy, letter: Option<Letter>)
    requires works { CanWorkOn D.seen nodes.old.plan nodes.old.lives.items nodes.old.disks.items }
    requires counted { FlightIsCounted roomy.old.octets roomy.old.sent roomy.old.flights.items }
    requires numbers { roomy.old.sent + length (listed letter) < 2 ^ 64 }
    requires room { deque_len roomy.old.flights + length (listed letter) ≤ deque_capacity roomy.old.flights }
    requires heard { AllCanBeHeard (listed letter) }
    ensures counted { FlightIsCounted roomy.new.octets roomy.new.sent roomy.new.flights.items }
    ensures puts { PutsQueue (view_of D.seen D.faults D.clock) (listed letter) nodes.old (flying_of roomy.old) nodes.new (flying_of roomy.new) }
{
    let mut next = letter;
    while let Some(letter) = next {
        next = look_at(nodes, roomy, letter);
    }
}

/// A letter that was sent comes behind the queue, which has room for it.
pub(crate) fn append(queue: &mut VecDeque<Letter>, letter: Option<Letter>)
    requires { deque_len queue.old + length (listed letter) ≤ deque_capacity queue.old }
    ensures items { queue.new.items ≡ queue.old.items ++ listed letter }
    ensures len { deque_len queue.new ≡ deque_len queue.old + length (listed letter) }
    ensures capacity { deque_capacity queue.new ≡ deque_capacity queue.old }
{
    if let Some(letter) = letter {
        let _ = queue.push_back(letter);
    }
}

/// The same of letters of one ticket, one by one, from a queue. There is room for each.
pub(crate) fn put_queue<D: Disk>(
    nodes: &mut Nodes<D>,
    roomy: &mut Roomy,
    queue: &mut VecDeque<Letter>,
)
    requires works { CanWorkOn D.seen nodes.old.plan nodes.old.lives.items nodes.old.disks.items }
    requires counted { FlightIsCounted roomy.old.octets roomy.old.sent roomy.old.flights.items }
    requires numbers { roomy.old.sent + deque_len queue.old < 2 ^ 64 }
    requires spare { deque_len queue.old ≤ deque_capacity queue.old }
    requires room { deque_len roomy.old.flights + deque_len queue.old ≤ deque_capacity roomy.old.flights }
    requires heard { AllCanBeHeard queue.old.items }
    requires one { AreOfOne queue.old.items }
    ensures counted { FlightIsCounted roomy.new.octets roomy.new.sent roomy.new.flights.items }
    ensures puts { PutsQueue (view_of D.seen D.faults D.clock) queue.old.items nodes.old (flying_of roomy.old) nodes.new (flying_of roomy.new) }
{
    while let Some(letter) = queue.pop_front() {
        let next = look_at(nodes, roomy, letter);
        append(queue, next);
    }
}
