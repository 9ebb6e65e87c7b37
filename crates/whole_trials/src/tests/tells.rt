// What comes of a call, as the lines of a table write it.
use super::says::{name_of, one, say_epoch, say_letters, say_members, say_why};
use call_tickets::{Answer, Ask, Mishaps};
use mail_base::{EpochId, Items, Letter, Name, NodeNo, Ticket};
use membership::Install;
use node_core::{NodeFault, Outbox};
use node_maps::Concluded;
use std::alloc::AllocError;
use whole_node::{Grouped, WholeNode};

/// Writes letters, and adds them to those in flight.
pub(super) fn send(
    letters: Vec<Letter>,
    flying: &mut Vec<Letter>,
    out: &mut Vec<u8>,
) -> Result<(), AllocError> {
    say_letters(out, letters.as_slice())?;
    for letter in letters {
        flying.push(letter)?;
    }
    Ok(())
}

pub(super) fn say_fault(out: &mut Vec<u8>, fault: NodeFault) -> Result<(), AllocError> {
    match fault {
        NodeFault::Disk => out.extend_from_slice(b" fell"),
        NodeFault::Worn => out.extend_from_slice(b" worn"),
        NodeFault::NoMemory { .. } => Err(AllocError),
    }
}

pub(super) fn tell_outbox(
    outbox: Outbox,
    flying: &mut Vec<Letter>,
    out: &mut Vec<u8>,
) -> Result<(), AllocError> {
    say_why(out, &outbox.thrown)?;
    send(outbox.letters.into_vec(), flying, out)
}

pub(super) fn tell_heard(
    heard: Result<Outbox, NodeFault>,
    flying: &mut Vec<Letter>,
    out: &mut Vec<u8>,
) -> Result<(), AllocError> {
    match heard {
        Ok(outbox) => tell_outbox(outbox, flying, out),
        Err(fault) => say_fault(out, fault),
    }
}

pub(super) fn tell_begun(
    begun: Result<(Option<Ticket>, Outbox), NodeFault>,
    flying: &mut Vec<Letter>,
    out: &mut Vec<u8>,
) -> Result<(), AllocError> {
    match begun {
        Ok((_, outbox)) => tell_outbox(outbox, flying, out),
        Err(fault) => say_fault(out, fault),
    }
}

pub(super) fn tell_group(
    epoch: EpochId,
    letters: Vec<Letter>,
    flying: &mut Vec<Letter>,
    out: &mut Vec<u8>,
) -> Result<(), AllocError> {
    say_epoch(out, epoch)?;
    send(letters, flying, out)
}

pub(super) fn tell_opened(
    opened: Result<Grouped, NodeFault>,
    flying: &mut Vec<Letter>,
    out: &mut Vec<u8>,
) -> Result<(), AllocError> {
    match opened {
        Ok(done) => tell_group(done.epoch, done.letters.into_vec(), flying, out),
        Err(fault) => say_fault(out, fault),
    }
}

pub(super) fn tell_concluded(
    concluded: Result<Option<Concluded>, NodeFault>,
    flying: &mut Vec<Letter>,
    out: &mut Vec<u8>,
) -> Result<(), AllocError> {
    match concluded {
        Ok(Some(done)) => tell_group(done.epoch, done.letters.into_vec(), flying, out),
        Ok(None) => out.extend_from_slice(b" none"),
        Err(fault) => say_fault(out, fault),
    }
}

// Writes the epoch that is installed, with its members.
pub(super) fn say_installed(install: &Install, out: &mut Vec<u8>) -> Result<(), AllocError> {
    say_epoch(out, install.epoch)?;
    say_members(out, install.members.as_slice())
}

pub(super) fn look_at(node: &WholeNode, out: &mut Vec<u8>) -> Result<(), AllocError> {
    let group = node.maps().group();
    say_epoch(out, group.promise())?;
    match group.installed() {
        Some(install) => say_installed(install, out),
        None => out.extend_from_slice(b" none"),
    }
}

pub(super) fn say_started(node: &WholeNode, out: &mut Vec<u8>) -> Result<(), AllocError> {
    out.extend_from_slice(&[b' ', one(u64::from(node.mail().boot()))])?;
    say_epoch(out, node.maps().group().promise())
}

pub(super) fn say_named(
    node: &WholeNode,
    user: &Name,
    out: &mut Vec<u8>,
) -> Result<(), AllocError> {
    let set = node.named(user);
    if set.count() == 0 {
        return out.extend_from_slice(b" none");
    }
    out.push(b' ')?;
    for number in 1..4u8 {
        if let Some(other) = NodeNo::new(number) {
            if set.has(other) {
                out.push(one(u64::from(number)))?;
            }
        }
    }
    Ok(())
}

// To whom a row of the node is due, and whether it owes nobody anything.
pub(super) fn say_owed(node: &WholeNode, out: &mut Vec<u8>) -> Result<(), AllocError> {
    out.push(b' ')?;
    for number in 1..4u8 {
        if let Some(other) = NodeNo::new(number) {
            if node.owes_rows(other) {
                out.push(one(u64::from(number)))?;
            }
        }
    }
    if node.is_settled() {
        out.extend_from_slice(b"settled")
    } else {
        out.extend_from_slice(b"-")
    }
}

/// Writes the number of a ticket that was drawn, and its letters.
pub(super) fn tell_reader(
    begun: Result<(Option<Ticket>, Outbox), NodeFault>,
    flying: &mut Vec<Letter>,
    out: &mut Vec<u8>,
) -> Result<(), AllocError> {
    match begun {
        Ok((Some(ticket), outbox)) => {
            out.extend_from_slice(&[b' ', one(ticket.seq)])?;
            tell_outbox(outbox, flying, out)
        }
        Ok((None, outbox)) => tell_outbox(outbox, flying, out),
        Err(fault) => say_fault(out, fault),
    }
}

/// Writes a letter that is sent, if one is.
pub(super) fn tell_letter(
    letter: Option<Letter>,
    flying: &mut Vec<Letter>,
    out: &mut Vec<u8>,
) -> Result<(), AllocError> {
    if let Some(letter) = letter {
        out.push(b' ')?;
        out.extend_from_slice(&name_of(&letter))?;
        flying.push(letter)?;
    }
    Ok(())
}

// Writes each message of a listing: its id, and the nodes that told it as a mask.
fn say_items(items: &Items, out: &mut Vec<u8>) -> Result<(), AllocError> {
    out.extend_from_slice(b" listed")?;
    for item in items.as_slice() {
        let node = one(u64::from(item.id.node().number()));
        let boot = one(u64::from(item.id.boot()));
        let held = one(u64::from(item.holders.mask()));
        out.extend_from_slice(&[b' ', node, boot, one(item.id.seq()), b':', held])?;
    }
    Ok(())
}

// Writes a count with its sign, if it is not 0.
fn say_count(out: &mut Vec<u8>, sign: u8, count: u64) -> Result<(), AllocError> {
    if count == 0 {
        return Ok(());
    }
    out.extend_from_slice(&[b' ', sign, one(count)])
}

fn say_mishaps(mishaps: &Mishaps, out: &mut Vec<u8>) -> Result<(), AllocError> {
    out.extend_from_slice(b" failed")?;
    say_count(out, b'f', mishaps.few_members)?;
    say_count(out, b'l', mishaps.dropped)?;
    say_count(out, b's', mishaps.stale)?;
    say_count(out, b'd', mishaps.down)?;
    say_count(out, b'k', mishaps.disk)
}

/// Writes a ticket: its node, boot and number.
pub(super) fn say_ticket(out: &mut Vec<u8>, ticket: Ticket) -> Result<(), AllocError> {
    let node = one(u64::from(ticket.node.number()));
    let boot = one(u64::from(ticket.boot));
    out.extend_from_slice(&[b' ', node, boot, one(ticket.seq)])
}

fn say_answer(answer: &Answer, out: &mut Vec<u8>) -> Result<(), AllocError> {
    match answer {
        Answer::Listed { items, .. } => say_items(items, out),
        Answer::Wrong { .. } => out.extend_from_slice(b" wrong"),
        Answer::InUse { by } => {
            out.extend_from_slice(b" in-use")?;
            say_ticket(out, *by)
        }
        Answer::NoProfile { .. } => out.extend_from_slice(b" no-profile"),
        Answer::Part { octets, whole } => {
            let length = one(octets.len() as u64);
            out.extend_from_slice(&[b' ', length, b'/', one(*whole)])
        }
        Answer::GoneAlready => out.extend_from_slice(b" gone"),
        Answer::Failed(mishaps) => say_mishaps(mishaps, out),
        Answer::Stored { .. } => out.extend_from_slice(b" stored"),
        Answer::Dropped { .. } => out.extend_from_slice(b" dropped"),
    }
}

/// Writes how far a call has come, or its answer.
pub(super) fn say_ask(ask: &Option<Ask>, out: &mut Vec<u8>) -> Result<(), AllocError> {
    match ask {
        None => out.extend_from_slice(b" none"),
        Some(Ask::Pending { got, wanted }) => {
            out.extend_from_slice(&[b' ', one(*got), b'/', one(*wanted)])
        }
        Some(Ask::Done(answer)) => say_answer(answer, out),
    }
}
