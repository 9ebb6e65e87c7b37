//! One node by hand: what it answers to calls and letters, and what its disk then says.
//!
//! A table is a text. Each line begins with what the node is to do, and goes on behind ` > ` with what it answers. Letters that are
//! heard and letters that are sent are written alike, in 18 columns:
//!
//! ```text
//! P 2 111 21 3 h 1 1
//! | | |   |  | | | the epoch
//! | | |   |  | | the ticket of node 1 in its first boot
//! | | |   |  | what the kind of letter has more
//! | | |   |  the targets, as a mask
//! | | |   the count of the stamp, and its node
//! | | the node, the boot and the number of the message
//! | the other node: the sender, or the receiver
//! the kind: File, f for Filed, Strike, s for StrikeTold, Push, A for PushAck, Retired, Unlock
//! ```
//!
//! As a table begins the node is in the epoch 1.1, whose members are all three nodes, and so it is once it has started again by `r`.
//!
//! A File has the number of its users more, a Strike that of its deletions, and the others that have a state its value: here, with
//! its octets in a Push, n where a Push has none, gone, or x for the secret of a profile.
mod calls;
mod epochs;
mod falls;
mod letters;
mod lines;
mod opening;
mod promises;
mod reads;
mod says;
mod starts;
mod store;
mod tickets;

ghost use Rattle.std.specs.Prelude.{◌≡◌, ℕ, List, Option, IfOk};
ghost use Rattle.mail_base.specs.Delivers.{mail_in};
ghost use Rattle.cluster_model.specs.Steps.NodeCall.{Deliver as Delivers};
ghost use Rattle.node_core.specs.Beginning.{IsTextEnded};
ghost use Rattle.node_core.specs.Nodes.{CanWork, IsWhole};
ghost use Rattle.node_core.specs.Spelling.{CanBeTaken};
ghost use Rattle.node_core.specs.Works.{LeavesUp};

use epochs::{installs, installs_all};
use io_edge::Disk;
use lines::{
    at, deliver_at, digit, id_at, items_at, letter_at, lines_of, named, node_at, room_at, ticket_at,
};
use mail_base::{CallKind, Deliver, EpochId, Item, Letter, MsgId, Name, NodeNo, Plan, Users};
use node_core::{Node, NodeFault};
use node_disk::MemoryDisk;
use node_tickets::MishapKind;
use says::{
    one, say_ask, say_ids, say_list, say_outbox, say_part, say_state, say_ticket, say_users,
    say_whether,
};
use std::alloc::{AllocError, Global};
use std::process::Abort;
use std::test::Fail;

fn delivers_now<D: Disk>(
    alloc: Global,
    disk: &mut D,
    node: &mut Node,
    deliver: Deliver,
    seconds: u64,
    out: &mut Vec<u8>,
) -> Result<(), NodeFault>
    requires works { CanWork (D.seen disk.old) node.old }
    requires ended { IsTextEnded (Delivers (mail_in deliver)) }
    ensures { LeavesUp result → CanWork (D.seen disk.new) node.new }
{
    let begun = node.deliver(alloc, disk, deliver, seconds)?;
    say_outbox(out, &begun.1)?;
    Ok(())
}

fn strikes<D: Disk>(
    alloc: Global,
    disk: &mut D,
    node: &mut Node,
    user: &Name,
    items: &[Item],
    out: &mut Vec<u8>,
) -> Result<(), NodeFault>
    requires works { CanWork (D.seen disk.old) node.old }
    ensures { LeavesUp result → CanWork (D.seen disk.new) node.new }
{
    let begun = node.strike(alloc, disk, user, items)?;
    say_outbox(out, &begun.1)?;
    Ok(())
}

/// The node tells a part of ann's copy.
fn tells_part<D: Disk>(
    alloc: Global,
    disk: &mut D,
    node: &Node,
    user: &Name,
    id: MsgId,
    from: u64,
    most: u64,
    out: &mut Vec<u8>,
) -> Result<(), NodeFault>
    requires works { CanWork (D.seen disk.old) node.now }
    ensures { LeavesUp result → CanWork (D.seen disk.new) node.now }
{
    let part = node.told_part(alloc, disk, user, id, from, most)?;
    say_part(out, &part)?;
    Ok(())
}

fn hears<D: Disk>(
    alloc: Global,
    disk: &mut D,
    node: &mut Node,
    letter: &Letter,
    out: &mut Vec<u8>,
) -> Result<(), NodeFault>
    requires works { CanWork (D.seen disk.old) node.old }
    requires spelt { CanBeTaken letter.now.body }
    ensures { LeavesUp result → CanWork (D.seen disk.new) node.new }
{
    let outbox = node.hear(alloc, disk, letter)?;
    say_outbox(out, &outbox)?;
    Ok(())
}

fn pushes<D: Disk>(
    alloc: Global,
    disk: &mut D,
    node: &mut Node,
    to: NodeNo,
    most: usize,
    room: u64,
    out: &mut Vec<u8>,
) -> Result<(), NodeFault>
    requires works { CanWork (D.seen disk.old) node.old }
    ensures { LeavesUp result → CanWork (D.seen disk.new) node.new }
{
    let outbox = node.push(alloc, disk, to, most, room)?;
    say_outbox(out, &outbox)?;
    Ok(())
}

fn widens<D: Disk>(
    alloc: Global,
    disk: &mut D,
    node: &mut Node,
    user: &Name,
    id: MsgId,
    to: NodeNo,
    out: &mut Vec<u8>,
) -> Result<(), NodeFault>
    requires works { CanWork (D.seen disk.old) node.old }
    ensures { LeavesUp result → CanWork (D.seen disk.new) node.new }
{
    let did = node.widen(alloc, disk, user, id, to)?;
    say_whether(out, did)?;
    Ok(())
}

/// The node starts again, and no epoch is installed.
fn restarts_alone<D: Disk>(
    alloc: Global,
    disk: &mut D,
    node: &mut Node,
    out: &mut Vec<u8>,
) -> Result<(), NodeFault>
    ensures { LeavesUp result → CanWork (D.seen disk.new) node.new }
{
    match started_alone(alloc, disk, node.own()) {
        Ok(again) => {
            *node = again;
            out.extend_from_slice(&[b' ', one(u64::from(node.boot()))])?;
            Ok(())
        }
        Err(_) => Err(NodeFault::Disk),
    }
}

/// The node starts again, and is in the epoch 1.1. Any fault is told as one that takes it down.
fn restarts<D: Disk>(
    alloc: Global,
    disk: &mut D,
    node: &mut Node,
    out: &mut Vec<u8>,
) -> Result<(), NodeFault>
    ensures { LeavesUp result → CanWork (D.seen disk.new) node.new }
{
    match started(alloc, disk, node.own()) {
        Ok(again) => {
            *node = again;
            out.extend_from_slice(&[b' ', one(u64::from(node.boot()))])?;
            Ok(())
        }
        Err(_) => Err(NodeFault::Disk),
    }
}

/// So it does, and the epoch is told too that it promised last.
fn restarts_promised<D: Disk>(
    alloc: Global,
    disk: &mut D,
    node: &mut Node,
    out: &mut Vec<u8>,
) -> Result<(), NodeFault>
    ensures { LeavesUp result → CanWork (D.seen disk.new) node.new }
{
    match started_promised(alloc, disk, node.own()) {
        Ok((again, promise)) => {
            *node = again;
            out.extend_from_slice(&[b' ', one(u64::from(node.boot()))])?;
            out.extend_from_slice(&[b' ', one(promise.count), one(u64::from(promise.node))])?;
            Ok(())
        }
        Err(_) => Err(NodeFault::Disk),
    }
}

/// The node promises an epoch of this count and node.
fn promises_epoch<D: Disk>(
    alloc: Global,
    disk: &mut D,
    node: &mut Node,
    count: u64,
    by: NodeNo,
) -> Result<(), NodeFault>
    requires works { CanWork (D.seen disk.old) node.old }
    ensures { LeavesUp result → CanWork (D.seen disk.new) node.new }
{
    node.promise(alloc, disk, EpochId::new(count, by.number()))
}

/// What is asked of the tickets alone.
fn tells(alloc: Global, node: &mut Node, line: &[u8], out: &mut Vec<u8>) -> Result<(), AllocError>
    requires whole { IsWhole node.old }
    ensures works { (seen : Option (List ℕ)) → CanWork seen node.old → CanWork seen node.new }
{
    match at(line, 0) {
        b'a' => say_ask(out, &node.ask(ticket_at(line))),
        b'g' => say_whether(out, node.give_up(ticket_at(line))),
        b'm' => {
            let noted = node.mishap(ticket_at(line), MishapKind::Down, node_at(line, 2));
            say_whether(out, noted)
        }
        b'o' => say_whether(out, node.is_due(node_at(line, 2))),
        b'i' => say_ticket(node, ticket_at(line), out),
        b'l' => say_ids(alloc, node, out),
        b'L' => say_list(alloc, node, out),
        b't' => draws(node, out),
        b'I' => installs(alloc, node, line),
        b'u' => say_users(alloc, node, out),
        b'q' => say_whether(out, node.is_settled()),
        b'c' => {
            let (most, room) = room_at(line);
            let crowded = node.is_crowded(alloc, node_at(line, 2), most, room)?;
            say_whether(out, crowded)
        }
        _ => say_state(alloc, node, line, out),
    }
}

fn delivers<D: Disk>(
    alloc: Global,
    disk: &mut D,
    node: &mut Node,
    line: &[u8],
    seconds: u64,
    out: &mut Vec<u8>,
) -> Result<(), NodeFault>
    requires works { CanWork (D.seen disk.old) node.old }
    ensures { LeavesUp result → CanWork (D.seen disk.new) node.new }
{
    let deliver = deliver_at(alloc, line)?;
    delivers_now(alloc, disk, node, deliver, seconds, out)
}

/// The message is to be deleted, and with a 2 also the next one.
fn deletes<D: Disk>(
    alloc: Global,
    disk: &mut D,
    node: &mut Node,
    line: &[u8],
    out: &mut Vec<u8>,
) -> Result<(), NodeFault>
    requires works { CanWork (D.seen disk.old) node.old }
    ensures { LeavesUp result → CanWork (D.seen disk.new) node.new }
{
    let ann = named(alloc, b"ann")?;
    let items = items_at(alloc, line)?;
    strikes(alloc, disk, node, &ann, items.as_slice(), out)
}

/// So many octets at most of the message, behind so many that are passed over.
fn fetches<D: Disk>(
    alloc: Global,
    disk: &mut D,
    node: &Node,
    line: &[u8],
    out: &mut Vec<u8>,
) -> Result<(), NodeFault>
    requires works { CanWork (D.seen disk.old) node.now }
    ensures { LeavesUp result → CanWork (D.seen disk.new) node.now }
{
    let ann = named(alloc, b"ann")?;
    let from = u64::from(digit(line, 8));
    let most = u64::from(digit(line, 11));
    tells_part(alloc, disk, node, &ann, id_at(line), from, most, out)
}

/// The ticket of a login that fails at once.
fn refuses(alloc: Global, node: &mut Node, out: &mut Vec<u8>) -> Result<(), NodeFault>
    requires whole { IsWhole node.old }
    ensures works { (seen : Option (List ℕ)) → CanWork seen node.old → CanWork seen node.new }
    ensures up { LeavesUp result }
{
    let ticket = node.refuse_read(alloc, CallKind::Login)?;
    out.extend_from_slice(&[b' ', one(ticket.seq)])?;
    Ok(())
}

/// The ticket of a call that reads, if one can be drawn.
fn draws(node: &mut Node, out: &mut Vec<u8>) -> Result<(), AllocError>
    ensures works { (seen : Option (List ℕ)) → CanWork seen node.old → CanWork seen node.new }
{
    if node.is_worn() {
        return Ok(());
    }
    let ticket = node.draw_ticket();
    out.extend_from_slice(&[b' ', one(ticket.seq)])
}

/// What the node does by the line. A Push finds room for as many letters as the line says, and for the octets of so many that
/// carry no message.
fn acts<D: Disk>(
    alloc: Global,
    disk: &mut D,
    node: &mut Node,
    line: &[u8],
    out: &mut Vec<u8>,
) -> Result<(), NodeFault>
    requires works { CanWork (D.seen disk.old) node.old }
    ensures { LeavesUp result → CanWork (D.seen disk.new) node.new }
{
    match at(line, 0) {
        b'd' => delivers(alloc, disk, node, line, 0, out),
        b'y' => delivers(alloc, disk, node, line, 253_402_300_800, out),
        b'k' => deletes(alloc, disk, node, line, out),
        b'e' => fetches(alloc, disk, node, line, out),
        b'z' => refuses(alloc, node, out),
        b'p' => {
            let (most, room) = room_at(line);
            pushes(alloc, disk, node, node_at(line, 2), most, room, out)
        }
        b'w' => {
            let ann = named(alloc, b"ann")?;
            widens(alloc, disk, node, &ann, id_at(line), node_at(line, 2), out)
        }
        b'r' => restarts(alloc, disk, node, out),
        b'N' => restarts_alone(alloc, disk, node, out),
        b'V' => restarts_promised(alloc, disk, node, out),
        b'v' => promises_epoch(
            alloc,
            disk,
            node,
            u64::from(digit(line, 8)),
            node_at(line, 9),
        ),
        b'F' | b'f' | b'S' | b's' | b'P' | b'A' | b'R' | b'U' => {
            let letter = letter_at(alloc, line, node.own())?;
            hears(alloc, disk, node, &letter, out)
        }
        _ => {
            tells(alloc, node, line, out)?;
            Ok(())
        }
    }
}

/// A plan of three nodes with two copies, of which two confirm.
fn plan_of(alloc: Global) -> Result<Plan, AllocError>
    ensures nodes { IfOk result (λ plan. plan.nodes ≡ 3) }
    ensures copies { IfOk result (λ plan. plan.copies ≡ 2) }
{
    Ok(Plan {
        nodes: 3,
        copies: 2,
        confirm: 2,
        buckets: 1,
        users: Users::new(alloc),
        postmaster: named(alloc, b"ann")?,
    })
}

/// A node of that plan that starts over its journal. It has no epoch.
fn started_alone<D: Disk>(alloc: Global, disk: &mut D, number: NodeNo) -> Result<Node, NodeFault>
    ensures works { IfOk result (λ node. CanWork (D.seen disk.new) node) }
{
    if number.number() > 3 {
        return Err(NodeFault::Disk);
    }
    let plan = plan_of(alloc)?;
    Node::start(alloc, disk, &plan, number)
}

/// So does this one, and then it installs the epoch 1.1 of all three nodes.
fn started<D: Disk>(alloc: Global, disk: &mut D, number: NodeNo) -> Result<Node, NodeFault>
    ensures works { IfOk result (λ node. CanWork (D.seen disk.new) node) }
{
    let mut node = started_alone(alloc, disk, number)?;
    installs_all(alloc, &mut node)?;
    Ok(node)
}

/// So does this one, and the epoch is told too that it promised last.
fn started_promised<D: Disk>(
    alloc: Global,
    disk: &mut D,
    number: NodeNo,
) -> Result<(Node, EpochId), NodeFault>
    ensures works { IfOk result (λ started. CanWork (D.seen disk.new) started.0) }
{
    if number.number() > 3 {
        return Err(NodeFault::Disk);
    }
    let plan = plan_of(alloc)?;
    let (mut node, promise) = Node::start_with_promise(alloc, disk, &plan, number)?;
    installs_all(alloc, &mut node)?;
    Ok((node, promise))
}

/// What the line says that the node is to do.
fn asked(line: &[u8]) -> &[u8] {
    &line[..line.len().min(18)]
}

/// Plays the line, and gives what comes in its place; nothing where it comes as it is written.
fn plays_line<D: Disk>(
    alloc: Global,
    disk: &mut D,
    node: &mut Node,
    line: &[u8],
) -> Result<Vec<u8>, NodeFault>
    requires works { CanWork (D.seen disk.old) node.old }
    ensures { LeavesUp result → CanWork (D.seen disk.new) node.new }
{
    let mut out = Vec::from_slice(alloc, asked(line))?;
    out.extend_from_slice(b" >")?;
    acts(alloc, disk, node, line, &mut out)?;
    if out.as_slice() == line {
        return Ok(Vec::new(alloc));
    }
    Ok(out)
}

/// Plays the lines, and gives what comes in place of the first that does not come as it is written.
fn plays_lines<D: Disk>(
    alloc: Global,
    disk: &mut D,
    node: &mut Node,
    lines: &[&[u8]],
) -> Result<Vec<u8>, NodeFault>
    requires works { CanWork (D.seen disk.old) node.old }
    ensures { LeavesUp result → CanWork (D.seen disk.new) node.new }
{
    let Some((line, others)) = lines.split_first() else {
        return Ok(Vec::new(alloc));
    };
    let wrong = plays_line(alloc, disk, node, line)?;
    if !wrong.is_empty() {
        return Ok(wrong);
    }
    plays_lines(alloc, disk, node, others)
}

/// Plays the table, and gives what comes in place of the first line that does not come as it is written.
fn plays<D: Disk>(
    alloc: Global,
    disk: &mut D,
    node: &mut Node,
    table: &[u8],
) -> Result<Vec<u8>, NodeFault>
    requires works { CanWork (D.seen disk.old) node.old }
    ensures { LeavesUp result → CanWork (D.seen disk.new) node.new }
{
    let lines = lines_of(alloc, table)?;
    plays_lines(alloc, disk, node, &lines)
}

/// Plays the table at the node of this number, which begins over an empty disk.
fn begins_with(alloc: Global, number: u8, table: &[u8]) -> Result<Vec<u8>, NodeFault> {
    let mut disk = MemoryDisk::new(alloc);
    let own = node_at(&[number], 0);
    Node::create(alloc, &mut disk, own)?;
    let mut node = started(alloc, &mut disk, own)?;
    plays(alloc, &mut disk, &mut node, table)
}

/// Each line of the table comes as it is written.
fn stands(rt: &impl Abort, alloc: Global, number: u8, table: &[u8]) -> Result<(), Fail> {
    let Ok(wrong) = begins_with(alloc, number, table) else {
        panic!(rt; "the node fell");
    };
    assert_eq!(rt; str::from_utf8(&wrong)?, "");
    Ok(())
}
