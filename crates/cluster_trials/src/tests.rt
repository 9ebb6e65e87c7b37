// Clusters of three nodes over disks in memory: what each step answers, and what the disk of each node then holds.
ghost use Rattle.std.specs.Prelude.{◌≡◌, ◌≤◌, IfOk};
ghost use Rattle.cluster_world.specs.Worlds.{CanMakeSteps};
ghost use Rattle.cluster_world.specs.Opens.{CanBeOpened};
ghost use Rattle.cluster_trials.specs.Disks.{octets_told};

mod faults;
mod groups;
mod installs;
mod journals;
mod logins;
mod orders;
mod settles;
mod steps;
mod telling;

use crate::open_fresh;
use call_tickets::{Answer, Ask, Call};
use cluster_world::{OpenFault, Regroup, Said, Settle, Step, StepFault, World};
use io_edge::Disk;
use mail_base::{
    Deliver, Item, Items, MsgId, Name, Names, NodeNo, NodeSet, Octets, Plan, Proof, Secret, Stamp,
    Ticket, Users,
};
use node_core::Why;
use node_disk::MemoryDisk;
use std::alloc::{AllocError, Global};

/// The node of this number, and node 1 where there is none.
fn node(number: u8) -> NodeNo {
    match NodeNo::new(number) {
        Some(node) => node,
        None => NodeNo::new(1).unwrap(),
    }
}

fn ann(alloc: Global) -> Result<Name, AllocError> {
    match Name::spelt(alloc, b"ann")? {
        Some(name) => Ok(name),
        None => Err(AllocError),
    }
}

/// A plan of so many nodes, with the one user ann. Two nodes have to confirm a message.
fn plan_of(alloc: Global, nodes: u8, copies: u8) -> Result<Plan, AllocError>
    requires some { 2 ≤ copies }
    requires most { copies ≤ nodes }
    requires few { nodes ≤ 16 }
    ensures fit { IfOk result (λ plan. CanBeOpened plan) }
    ensures nodes { IfOk result (λ plan. plan.nodes ≡ nodes) }
{
    let mut users = Users::new(alloc);
    users.insert(ann(alloc)?, Secret::read(alloc, b"open sesame")?.unwrap())?;
    Ok(Plan {
        nodes,
        copies,
        confirm: 2,
        buckets: 1,
        users,
        postmaster: ann(alloc)?,
    })
}

/// The same of three nodes.
fn plan(alloc: Global, copies: u8) -> Result<Plan, AllocError>
    requires some { 2 ≤ copies }
    requires most { copies ≤ 3 }
    ensures fit { IfOk result (λ plan. CanBeOpened plan) }
    ensures nodes { IfOk result (λ plan. plan.nodes ≡ 3) }
{
    plan_of(alloc, 3, copies)
}

/// A cluster of that plan over empty disks in memory. Of the disk of the node `weak` this call fails.
fn opened_over(
    alloc: Global,
    copies: u8,
    weak: u8,
    call: u64,
) -> Result<World<MemoryDisk>, OpenFault>
    requires some { 2 ≤ copies }
    requires most { copies ≤ 3 }
    ensures { IfOk result (λ world. CanMakeSteps octets_told world) }
{
    open_fresh(alloc, plan(alloc, copies)?, weak, call)
}

/// The same, where none fails.
fn opened(alloc: Global, copies: u8) -> Result<World<MemoryDisk>, OpenFault>
    requires some { 2 ≤ copies }
    requires most { copies ≤ 3 }
    ensures { IfOk result (λ world. CanMakeSteps octets_told world) }
{
    opened_over(alloc, copies, 0, 0)
}

/// A message to ann.
fn hello(alloc: Global) -> Result<Deliver, AllocError> {
    let mut users = Names::new(alloc);
    users.push(ann(alloc)?)?;
    Ok(Deliver {
        users,
        sender: Octets::from_vec(b"bob@b.example".to_vec(alloc)?),
        helo: Octets::from_vec(b"c.example".to_vec(alloc)?),
        extended: false,
        text: Octets::from_vec(b"Hi\r\n".to_vec(alloc)?),
    })
}

/// The first message of node 1.
fn first_id() -> MsgId {
    MsgId::new(NodeNo::new(1).unwrap(), 1, 1).unwrap()
}

/// A login of ann, by her secret or by another one.
fn login(alloc: Global, secret: &[u8]) -> Result<Call, AllocError> {
    Ok(Call::Login {
        user: ann(alloc)?,
        proof: Proof::Pass(Octets::from_vec(secret.to_vec(alloc)?)),
    })
}

/// A fetch of ann's first message from the nodes of this mask.
fn fetch(alloc: Global, holders: u8) -> Result<Call, AllocError> {
    Ok(Call::Fetch {
        user: ann(alloc)?,
        id: first_id(),
        holders: NodeSet::from_mask(u16::from(holders)),
        from: 0,
        most: 9,
    })
}

/// Its deletion at the nodes of this mask.
fn strike(alloc: Global, targets: u8) -> Result<Call, AllocError> {
    let mut items = Items::new(alloc);
    items.push(Item {
        id: first_id(),
        stamp: Stamp::new(1, 1, 1),
        targets: NodeSet::from_mask(u16::from(targets)),
        holders: NodeSet::from_mask(u16::from(targets)),
        length: 0,
    })?;
    Ok(Call::Strike {
        user: ann(alloc)?,
        items,
    })
}

/// The end of a session whose login is this ticket, at node 1 as the manager.
fn leave(alloc: Global, login: Ticket) -> Result<Call, AllocError> {
    Ok(Call::Leave {
        user: ann(alloc)?,
        login,
        manager: node(1),
    })
}

/// What a digit counts, where `a` follows 9.
fn count(digit: u8) -> u8 {
    match digit {
        b'0'..=b'9' => digit - b'0',
        b'a'..=b'z' => digit - b'a' + 10,
        _ => 0,
    }
}

/// The digit of a count, and `+` of one that has none.
fn digit(count: u64) -> u8 {
    if count < 10 {
        return b'0' + count as u8;
    }
    if count < 36 {
        return b'a' + (count as u8 - 10);
    }
    b'+'
}

/// The step that three letters tell: what is done, and with which nodes, ticket or letter. A fetch and a deletion have the mask of
/// nodes in the third.
fn step_of(alloc: Global, what: u8, first: u8, second: u8) -> Result<Step, AllocError> {
    let one = node(count(first));
    let two = node(count(second));
    let letter = u64::from(count(first));
    let seq = u64::from(count(second));
    Ok(match what {
        b'D' => Step::Begin {
            node: one,
            call: Call::Deliver(hello(alloc)?),
        },
        b'l' => Step::Begin {
            node: one,
            call: login(alloc, b"open sesame")?,
        },
        b'w' => Step::Begin {
            node: one,
            call: login(alloc, b"open")?,
        },
        b'f' => Step::Begin {
            node: one,
            call: fetch(alloc, count(second))?,
        },
        b'd' => Step::Begin {
            node: one,
            call: strike(alloc, count(second))?,
        },
        b'v' => Step::Begin {
            node: one,
            call: leave(alloc, Ticket::new(one, 1, seq))?,
        },
        b'A' => Step::Ask {
            ticket: Ticket::new(one, 1, seq),
        },
        b'G' => Step::GiveUp {
            ticket: Ticket::new(one, 1, seq),
        },
        b'P' => Step::Post {
            letter,
            keep: false,
        },
        b'K' => Step::Post { letter, keep: true },
        b'X' => Step::Drop { letter },
        b'>' => Step::Push { from: one, to: two },
        b'W' => Step::Widen {
            at: one,
            user: ann(alloc)?,
            id: first_id(),
            to: two,
        },
        b'g' => Step::Group { node: one },
        b'c' => Step::Conclude { node: one },
        b'r' => Step::Report { from: one, to: two },
        b'C' => Step::Crash { node: one },
        b'S' => Step::Start { node: one },
        _ => Step::Lose { node: one },
    })
}

fn told_answer(answer: &Answer) -> [u8; 2] {
    match answer {
        Answer::Stored { id, confirmers } => {
            if *id == first_id() {
                [b'S', digit(u64::from(confirmers.mask()))]
            } else {
                [b's', digit(u64::from(confirmers.mask()))]
            }
        }
        Answer::Failed(_) => *b"F.",
        Answer::Listed { items, .. } => [b'L', digit(items.len() as u64)],
        Answer::Wrong { .. } => *b"W.",
        Answer::InUse { by } => [b'I', digit(u64::from(by.node.number()))],
        Answer::NoProfile { .. } => *b"??",
        Answer::Part { .. } => *b"O.",
        Answer::GoneAlready => *b"G.",
        Answer::Dropped { confirmers } => match confirmers.first() {
            Some(set) => [b'X', digit(u64::from(set.mask()))],
            None => *b"X.",
        },
    }
}

fn told_ask(ask: &Ask) -> [u8; 2] {
    match ask {
        Ask::Pending { got, .. } => [b'P', digit(*got)],
        Ask::Done(answer) => told_answer(answer),
    }
}

fn told_why(why: Why) -> [u8; 2] {
    match why {
        Why::Down => *b"Td",
        Why::Late => *b"Tl",
        Why::Stale => *b"Ts",
        Why::Old => *b"To",
        Why::NotPromised => *b"Tp",
        Why::NotMember => *b"Tm",
    }
}

fn told_said(said: &Said) -> [u8; 2] {
    match said {
        Said::Begun { ticket, .. } => [b'B', digit(ticket.seq)],
        Said::Noted => *b"N.",
        Said::Asked(ask) => told_ask(ask),
        Said::Heard => *b"H.",
        Said::Thrown(why) => told_why(*why),
        Said::Sent { letters } => [b'L', digit(*letters)],
        Said::Widened(did) => { if *did { *b"Wy" } else { *b"Wn" } }
        Said::Grouped(epoch) => [b'g', digit(epoch.count)],
        Said::Concluded { members, .. } => [b'c', digit(u64::from(members.mask()))],
        Said::NodeUp { boot } => [b'U', digit(u64::from(*boot))],
        Said::Done => *b"..",
        Said::Faulted(node) => [b'!', digit(u64::from(node.number()))],
    }
}

fn told_fault(fault: StepFault) -> [u8; 2] {
    match fault {
        StepFault::NoSuchNode => *b"n?",
        StepFault::NodeLost => *b"lo",
        StepFault::NodeDown => *b"do",
        StepFault::NodeUp => *b"up",
        StepFault::NoSuchLetter => *b"l?",
        StepFault::NoSuchTicket => *b"t?",
        StepFault::NotAGroup => *b"ng",
        StepFault::Worn => *b"wo",
        StepFault::NoRoom => *b"ro",
        StepFault::NoMemory { .. } => *b"me",
    }
}

/// What came of a step, in two letters.
fn told(came: &Result<Said, StepFault>) -> [u8; 2] {
    match came {
        Ok(said) => told_said(said),
        Err(fault) => told_fault(*fault),
    }
}

/// What came of a regroup, in two letters: the count of its epoch and the set of its members.
fn told_regroup(came: &Result<Regroup, StepFault>) -> [u8; 2] {
    match came {
        Ok(Regroup::Formed { epoch, members }) => {
            [digit(epoch.count), digit(u64::from(members.mask()))]
        }
        Ok(Regroup::Fault(node)) => [b'!', digit(u64::from(node.number()))],
        Err(fault) => told_fault(*fault),
    }
}

/// What came of a settle, in two letters.
fn told_settle(came: &Result<Settle, StepFault>) -> [u8; 2] {
    match came {
        Ok(Settle::Settled) => *b"st",
        Ok(Settle::NotAllUp(node)) => [b'-', digit(u64::from(node.number()))],
        Ok(Settle::Fault(node)) => [b'!', digit(u64::from(node.number()))],
        Err(fault) => told_fault(*fault),
    }
}

/// Who manages ann, and the set of the nodes that it names.
fn told_maps(told: Option<(NodeNo, NodeSet)>) -> [u8; 2] {
    match told {
        Some((manager, named)) => [
            digit(u64::from(manager.number())),
            digit(u64::from(named.mask())),
        ],
        None => *b"no",
    }
}

/// The node of which something is due.
fn told_due(due: Option<NodeNo>) -> [u8; 2] {
    match due {
        Some(node) => [b'u', digit(u64::from(node.number()))],
        None => *b"--",
    }
}

/// Makes the step that three letters tell, a regroup or a settle, and tells what came of it; or it tells of maps.
fn make<D: Disk>(
    alloc: Global,
    world: &mut World<D>,
    what: u8,
    first: u8,
    second: u8,
) -> Result<[u8; 2], AllocError>
    requires { CanMakeSteps D.seen world.old }
    ensures { CanMakeSteps D.seen world.new }
{
    if what == b'R' {
        return Ok(told_regroup(&world.regroup(alloc, node(count(first)))));
    }
    if what == b'Z' {
        return Ok(told_settle(&world.settle(alloc)));
    }
    if what == b'm' {
        return Ok(told_maps(world.maps(&ann(alloc)?)));
    }
    if what == b'u' {
        return Ok(told_due(world.due()));
    }
    let step = step_of(alloc, what, first, second)?;
    Ok(told(&world.step(alloc, step)))
}
