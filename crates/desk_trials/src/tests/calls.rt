// What each call of a desk answers, in two letters.
ghost use Rattle.cluster_trials.specs.Disks.{in_memory};
ghost use Rattle.solo_desk.specs.Passes.{IsPass};

use super::ann;
use call_tickets::{Answer, Ask, Call, Desk, DeskFault, DeskTicket, Posted};
use cluster_world::{Said, Step, StepFault};
use mail_base::{
    Begun, CallKind, Deliver, Filing, Item, Items, MsgId, Names, NodeNo, NodeSet, Octets, Proof,
    Stamp, Ticket,
};
use node_disk::MemoryDisk;
use solo_desk::{SoloDesk, SoloPass};
use std::alloc::{AllocError, Global};

fn digit(count: u64) -> u8 {
    if count < 10 { b'0' + count as u8 } else { b'+' }
}

fn first_id() -> Result<MsgId, AllocError> {
    let node = NodeNo::new(1).ok_or(AllocError)?;
    MsgId::new(node, 1, 1).ok_or(AllocError)
}

fn hello(alloc: Global) -> Result<Call, AllocError> {
    let mut users = Names::new(alloc);
    users.push(ann(alloc)?)?;
    Ok(Call::Deliver(Deliver {
        users,
        sender: Octets::from_vec(b"bob@b.example".to_vec(alloc)?),
        helo: Octets::from_vec(b"c.example".to_vec(alloc)?),
        extended: false,
        text: Octets::from_vec(b"Hi\r\n".to_vec(alloc)?),
    }))
}

fn login(alloc: Global, secret: &[u8]) -> Result<Call, AllocError> {
    Ok(Call::Login {
        user: ann(alloc)?,
        proof: Proof::Pass(Octets::from_vec(secret.to_vec(alloc)?)),
    })
}

fn fetch(alloc: Global, holder: NodeNo) -> Result<Call, AllocError> {
    Ok(Call::Fetch {
        user: ann(alloc)?,
        id: first_id()?,
        holders: NodeSet::empty().with(holder),
        from: 0,
        most: u64::MAX,
    })
}

fn strike(alloc: Global, holder: NodeNo) -> Result<Call, AllocError> {
    let mut items = Items::new(alloc);
    items.push(Item {
        id: first_id()?,
        stamp: Stamp::new(1, 1, 1),
        targets: NodeSet::empty().with(holder),
        holders: NodeSet::empty().with(holder),
        length: 4,
    })?;
    Ok(Call::Strike {
        user: ann(alloc)?,
        items,
    })
}

fn leave(alloc: Global, manager: NodeNo) -> Result<Call, AllocError> {
    Ok(Call::Leave {
        user: ann(alloc)?,
        login: Ticket::new(manager, 1, 2),
        manager,
    })
}

// The call of a letter: a message to ann, her login with the right secret and with a wrong one, her first message as node 1 has
// it, its deletion, and a Leave.
fn call_of(alloc: Global, letter: u8) -> Result<Call, AllocError> {
    let holder = NodeNo::new(1).ok_or(AllocError)?;
    match letter {
        b'D' => hello(alloc),
        b'L' => login(alloc, b"sesame"),
        b'W' => login(alloc, b"open"),
        b'F' => fetch(alloc, holder),
        b'X' => strike(alloc, holder),
        _ => leave(alloc, holder),
    }
}

fn told_fault(fault: DeskFault) -> [u8; 2] {
    match fault {
        DeskFault::Down => *b"do",
        DeskFault::Worn => *b"wo",
        DeskFault::NoMemory => *b"me",
    }
}

fn told_answer(answer: &Answer) -> [u8; 2] {
    match answer {
        Answer::Stored { confirmers, .. } => [b'S', digit(u64::from(confirmers.mask()))],
        Answer::Listed { items, .. } => [b'L', digit(items.len() as u64)],
        Answer::Wrong { .. } => *b"W.",
        Answer::InUse { .. } => *b"U.",
        Answer::NoProfile { .. } => *b"N.",
        Answer::Part { .. } => *b"O.",
        Answer::GoneAlready => *b"G.",
        Answer::Dropped { .. } => *b"X.",
        Answer::Failed(_) => *b"F.",
    }
}

fn told_asked(asked: &Result<Ask, DeskFault>) -> [u8; 2] {
    match asked {
        Ok(Ask::Pending { got, .. }) => [b'P', digit(*got)],
        Ok(Ask::Done(answer)) => told_answer(answer),
        Err(fault) => told_fault(*fault),
    }
}

fn told_done(done: &Result<(), DeskFault>) -> [u8; 2] {
    match done {
        Ok(()) => *b"..",
        Err(fault) => told_fault(*fault),
    }
}

fn told_posted(posted: &Result<Posted, DeskFault>) -> [u8; 2] {
    match posted {
        Ok(Posted::Did) => *b"po",
        Ok(Posted::Quiet) => *b"qu",
        Err(fault) => told_fault(*fault),
    }
}

fn told_step(said: &Result<Said, StepFault>) -> [u8; 2] {
    match said {
        Ok(_) => *b"..",
        Err(_) => *b"re",
    }
}

// Whether the node is up, and in which boot.
fn tells_life(pass: &mut SoloPass<MemoryDisk>, node: NodeNo) -> [u8; 2]
    requires { IsPass in_memory pass.old }
    ensures { IsPass in_memory pass.new }
{
    let desk = SoloDesk::new();
    match desk.is_up(pass, node) {
        Some(life) => [b'b', digit(u64::from(life.boot))],
        None => *b"do",
    }
}

// Keeps the ticket of a call that has begun.
fn keep(tickets: &mut Vec<DeskTicket>, ticket: DeskTicket) -> Result<[u8; 2], AllocError> {
    let told = [b'B', digit(ticket.ticket.seq)];
    tickets.push(ticket)?;
    Ok(told)
}

fn begins(
    alloc: Global,
    pass: &mut SoloPass<MemoryDisk>,
    tickets: &mut Vec<DeskTicket>,
    node: NodeNo,
    call: Call,
) -> Result<[u8; 2], AllocError>
    requires { IsPass in_memory pass.old }
    ensures { IsPass in_memory pass.new }
{
    let desk = SoloDesk::new();
    match desk.begin(alloc, pass, node, call) {
        Ok(ticket) => keep(tickets, ticket),
        Err(fault) => Ok(told_fault(fault)),
    }
}

fn leaves(alloc: Global, pass: &mut SoloPass<MemoryDisk>, node: NodeNo, call: Call) -> [u8; 2]
    requires { IsPass in_memory pass.old }
    ensures { IsPass in_memory pass.new }
{
    let desk = SoloDesk::new();
    let left = desk.leave(alloc, pass, node, call);
    told_done(&left)
}

fn asks(alloc: Global, pass: &mut SoloPass<MemoryDisk>, ticket: &DeskTicket) -> [u8; 2]
    requires { IsPass in_memory pass.old }
    ensures { IsPass in_memory pass.new }
{
    let desk = SoloDesk::new();
    let asked = desk.ask(alloc, pass, ticket);
    told_asked(&asked)
}

fn gives_up(alloc: Global, pass: &mut SoloPass<MemoryDisk>, ticket: DeskTicket) -> [u8; 2]
    requires { IsPass in_memory pass.old }
    ensures { IsPass in_memory pass.new }
{
    let desk = SoloDesk::new();
    let gave = desk.give_up(alloc, pass, ticket);
    told_done(&gave)
}

fn posts(alloc: Global, pass: &mut SoloPass<MemoryDisk>) -> [u8; 2]
    requires { IsPass in_memory pass.old }
    ensures { IsPass in_memory pass.new }
{
    let desk = SoloDesk::new();
    let posted = desk.post_one(alloc, pass);
    told_posted(&posted)
}

fn copy(ticket: &DeskTicket) -> Result<DeskTicket, AllocError> {
    Ok(DeskTicket {
        ticket: ticket.ticket,
        begun: ticket.begun.copy()?,
    })
}

fn of_no_digest(filing: &Filing) -> Result<Filing, AllocError> {
    let mut other = filing.copy()?;
    other.digest = [0; 32];
    Ok(other)
}

// The ticket with another digest of what was filed.
fn of_another_digest(ticket: &DeskTicket) -> Result<DeskTicket, AllocError> {
    let filing = match &ticket.begun.filing {
        Some(filing) => Some(of_no_digest(filing)?),
        None => None,
    };
    Ok(DeskTicket {
        ticket: ticket.ticket,
        begun: Begun {
            kind: ticket.begun.kind,
            filing,
        },
    })
}

// The ticket, and that a login began.
fn of_another_kind(ticket: &DeskTicket) -> DeskTicket {
    DeskTicket {
        ticket: ticket.ticket,
        begun: Begun {
            kind: CallKind::Login,
            filing: None,
        },
    }
}

// What is done with a ticket: it is asked for, by itself or by one of another digest or another kind, or given up.
fn handles(
    alloc: Global,
    pass: &mut SoloPass<MemoryDisk>,
    ticket: &DeskTicket,
    what: u8,
) -> Result<[u8; 2], AllocError>
    requires { IsPass in_memory pass.old }
    ensures { IsPass in_memory pass.new }
{
    let held = match what {
        b'd' => of_another_digest(ticket)?,
        b'k' => of_another_kind(ticket),
        _ => copy(ticket)?,
    };
    if what == b'!' {
        return Ok(gives_up(alloc, pass, held));
    }
    Ok(asks(alloc, pass, &held))
}

fn crashes(alloc: Global, pass: &mut SoloPass<MemoryDisk>, node: NodeNo) -> [u8; 2]
    requires { IsPass in_memory pass.old }
    ensures { IsPass in_memory pass.new }
{
    let said = pass.step(alloc, Step::Crash { node });
    told_step(&said)
}

fn starts(alloc: Global, pass: &mut SoloPass<MemoryDisk>, node: NodeNo) -> [u8; 2]
    requires { IsPass in_memory pass.old }
    ensures { IsPass in_memory pass.new }
{
    let said = pass.step(alloc, Step::Start { node });
    told_step(&said)
}

fn opens_group(alloc: Global, pass: &mut SoloPass<MemoryDisk>, node: NodeNo) -> [u8; 2]
    requires { IsPass in_memory pass.old }
    ensures { IsPass in_memory pass.new }
{
    let said = pass.step(alloc, Step::Group { node });
    told_step(&said)
}

fn concludes(alloc: Global, pass: &mut SoloPass<MemoryDisk>, node: NodeNo) -> [u8; 2]
    requires { IsPass in_memory pass.old }
    ensures { IsPass in_memory pass.new }
{
    let said = pass.step(alloc, Step::Conclude { node });
    told_step(&said)
}

// Does what a letter tells at a node.
fn does_at(
    alloc: Global,
    pass: &mut SoloPass<MemoryDisk>,
    tickets: &mut Vec<DeskTicket>,
    what: u8,
    node: NodeNo,
) -> Result<[u8; 2], AllocError>
    requires { IsPass in_memory pass.old }
    ensures { IsPass in_memory pass.new }
{
    match what {
        b'u' => Ok(tells_life(pass, node)),
        b'C' => Ok(crashes(alloc, pass, node)),
        b'S' => Ok(starts(alloc, pass, node)),
        b'g' => Ok(opens_group(alloc, pass, node)),
        b'c' => Ok(concludes(alloc, pass, node)),
        b'E' => Ok(leaves(alloc, pass, node, call_of(alloc, b'E')?)),
        b'e' => Ok(leaves(alloc, pass, node, call_of(alloc, b'D')?)),
        _ => begins(alloc, pass, tickets, node, call_of(alloc, what)?),
    }
}

// Does what a letter tells with a ticket.
fn does_with(
    alloc: Global,
    pass: &mut SoloPass<MemoryDisk>,
    tickets: &[DeskTicket],
    what: u8,
    place: usize,
) -> Result<[u8; 2], AllocError>
    requires { IsPass in_memory pass.old }
    ensures { IsPass in_memory pass.new }
{
    match tickets.get(place) {
        Some(ticket) => handles(alloc, pass, ticket, what),
        None => Err(AllocError),
    }
}

// Does what two letters tell, and says what came of it. `u` asks whether the node is up, `C` and `S` have it stop and start, `g`
// and `c` have it open a group and conclude it, and `p` posts a letter. `E` begins a Leave, and `e` hands in a message where a
// Leave is wanted. `?`, `d`, `k` and `!` are done with the ticket of this number, from 0. Any other letter begins its call at the
// node.
pub(super) fn does(
    alloc: Global,
    pass: &mut SoloPass<MemoryDisk>,
    tickets: &mut Vec<DeskTicket>,
    what: u8,
    number: u8,
) -> Result<[u8; 2], AllocError>
    requires { IsPass in_memory pass.old }
    ensures { IsPass in_memory pass.new }
{
    match what {
        b'?' | b'd' | b'k' | b'!' => does_with(alloc, pass, tickets, what, usize::from(number)),
        b'p' => Ok(posts(alloc, pass)),
        _ => match NodeNo::new(number) {
            Some(node) => does_at(alloc, pass, tickets, what, node),
            None => Err(AllocError),
        },
    }
}
