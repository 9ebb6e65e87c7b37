// What a node answers, as the lines of a table write it.
ghost use Rattle.node_core.specs.Nodes.{IsWhole};

use super::lines::{ROW, id_at, named, node_at, object_at};
use call_tickets::{Answer, Ask};
use mail_base::{Body, CallKind, Key, Letter, MsgId, ObjState, Stamp, Ticket, ToldPart, Value};
use node_core::{Node, Outbox, Why};
use std::alloc::{AllocError, Global};

pub(super) fn one(number: u64) -> u8 {
    b'0' + (number % 10) as u8
}

fn write_id(row: &mut [u8; 18], id: MsgId) {
    row[4] = one(u64::from(id.node().number()));
    row[5] = one(u64::from(id.boot()));
    row[6] = one(id.seq());
}

fn write_stamp(row: &mut [u8; 18], stamp: Stamp) {
    row[8] = one(stamp.count);
    row[9] = one(u64::from(stamp.node));
}

fn write_state(row: &mut [u8; 18], key: &Key, state: &ObjState) {
    if let Key::Message(_, id) = key {
        write_id(row, *id);
    }
    write_stamp(row, state.stamp);
    row[11] = one(u64::from(state.targets.mask()));
    row[13] = match state.value {
        Value::Here => b'h',
        Value::Gone => b'g',
        Value::Secret(_) => b'x',
    };
}

fn write_body(row: &mut [u8; 18], body: &Body) {
    match body {
        Body::File {
            id,
            stamp,
            targets,
            users,
            ..
        } => {
            row[0] = b'F';
            write_id(row, *id);
            write_stamp(row, *stamp);
            row[11] = one(u64::from(targets.mask()));
            row[13] = one(users.len() as u64);
        }
        Body::Filed { id } => {
            row[0] = b'f';
            write_id(row, *id);
        }
        Body::Strike { marks, .. } => {
            row[0] = b'S';
            if let Some(mark) = marks.as_slice().first() {
                write_id(row, mark.id);
                write_stamp(row, mark.stamp);
            }
            row[13] = one(marks.len() as u64);
        }
        Body::StrikeTold { ids, .. } => {
            row[0] = b's';
            if let Some(id) = ids.as_slice().first() {
                write_id(row, *id);
            }
            row[13] = one(ids.len() as u64);
        }
        Body::Push { key, state, octets } => {
            row[0] = b'P';
            write_state(row, key, state);
            if row[13] == b'h' && octets.is_none() {
                row[13] = b'n';
            }
        }
        Body::PushAck { key, state } => {
            row[0] = b'A';
            write_state(row, key, state);
        }
        Body::Retired { key, state } => {
            row[0] = b'R';
            write_state(row, key, state);
        }
        _ => row[0] = b'?',
    }
}

fn row_of(letter: &Letter) -> [u8; 18] {
    let mut row = ROW;
    row[2] = one(u64::from(letter.to.number()));
    if let Some(ticket) = &letter.ticket {
        row[15] = one(ticket.seq);
    }
    row[17] = one(letter.epoch.count);
    write_body(&mut row, &letter.body);
    row
}

/// Writes what comes of a call or a letter.
pub(super) fn say_outbox(out: &mut Vec<u8>, outbox: &Outbox) -> Result<(), AllocError> {
    match outbox.thrown {
        Some(Why::Stale) => out.extend_from_slice(b" stale")?,
        Some(Why::Late) => out.extend_from_slice(b" late")?,
        Some(_) => out.extend_from_slice(b" thrown")?,
        None => {}
    }
    for letter in outbox.letters.as_slice() {
        out.push(b' ')?;
        out.extend_from_slice(&row_of(letter))?;
    }
    Ok(())
}

/// Writes each message that the node tells of ann: its id, its stamp, its targets and the last digit of its length.
pub(super) fn say_list(alloc: Global, node: &Node, out: &mut Vec<u8>) -> Result<(), AllocError> {
    let items = node.told_list(alloc, &named(alloc, b"ann")?)?;
    out.extend_from_slice(b" listed")?;
    for item in items.as_slice() {
        let mut row = ROW;
        write_id(&mut row, item.id);
        write_stamp(&mut row, item.stamp);
        row[11] = one(u64::from(item.targets.mask()));
        row[13] = one(item.length);
        out.push(b' ')?;
        out.extend_from_slice(&row[4..14])?;
    }
    Ok(())
}

/// Writes the octets of a part of a message, with a point for each that can't be seen, and the last digit of the whole length; or
/// the stamp of one that is not there.
pub(super) fn say_part(out: &mut Vec<u8>, part: &ToldPart) -> Result<(), AllocError> {
    match part {
        ToldPart::Octets { octets, whole } => {
            out.push(b' ')?;
            for octet in octets.as_slice() {
                out.push(if octet.is_ascii_graphic() {
                    *octet
                } else {
                    b'.'
                })?;
            }
            out.extend_from_slice(&[b'/', one(*whole)])
        }
        ToldPart::Gone { stamp } => {
            out.extend_from_slice(b" gone ")?;
            out.extend_from_slice(&[one(stamp.count), one(u64::from(stamp.node))])
        }
    }
}

pub(super) fn say_ask(out: &mut Vec<u8>, ask: &Option<Ask>) -> Result<(), AllocError> {
    match ask {
        None => out.extend_from_slice(b" none"),
        Some(Ask::Pending { got, wanted }) => {
            out.extend_from_slice(&[b' ', one(*got), b'/', one(*wanted)])
        }
        Some(Ask::Done(answer)) => match answer {
            Answer::Stored { confirmers, .. } => {
                out.extend_from_slice(b" stored ")?;
                out.push(one(u64::from(confirmers.mask())))?;
                Ok(())
            }
            Answer::Dropped { confirmers } => {
                out.extend_from_slice(b" dropped ")?;
                for set in confirmers {
                    out.push(one(u64::from(set.mask())))?;
                }
                Ok(())
            }
            Answer::Failed(_) => out.extend_from_slice(b" failed"),
            _ => out.extend_from_slice(b" read"),
        },
    }
}

pub(super) fn say_whether(out: &mut Vec<u8>, did: bool) -> Result<(), AllocError> {
    if did {
        out.extend_from_slice(b" yes")
    } else {
        out.extend_from_slice(b" no")
    }
}

/// Writes the kind of the call, how much it wants, whom it waits for, whether it is done, and whether it has filed.
pub(super) fn say_ticket(node: &Node, ticket: Ticket, out: &mut Vec<u8>) -> Result<(), AllocError>
    requires whole { IsWhole node.now }
{
    let kind = match node.kind(ticket) {
        Some(CallKind::Deliver) => b'd',
        Some(CallKind::Strike) => b'k',
        Some(CallKind::Login) => b'L',
        Some(CallKind::Fetch) => b'e',
        None => b'-',
    };
    let wants = one(node.wants(ticket).len() as u64);
    let waiting = one(u64::from(node.waiting(ticket).mask()));
    let done = if node.is_done(ticket) { b'y' } else { b'n' };
    let filed = if node.filing(ticket).is_some() {
        b'f'
    } else {
        b'-'
    };
    out.extend_from_slice(&[b' ', kind, wants, waiting, done, filed])
}

/// Writes what the disk says of ann's copy, whether octets of the message are stored, and to which nodes the state is owed.
pub(super) fn say_state(
    alloc: Global,
    node: &Node,
    line: &[u8],
    out: &mut Vec<u8>,
) -> Result<(), AllocError> {
    let (key, _) = object_at(alloc, line)?;
    let mut row = ROW;
    if let Some(state) = node.state(&key) {
        write_state(&mut row, &key, state);
    }
    out.push(b' ')?;
    out.extend_from_slice(&row[4..14])?;
    out.push(b' ')?;
    out.push(if node.store().length(id_at(line)).is_some() {
        b'o'
    } else {
        b'-'
    })?;
    if let Some(entry) = node.store().entry(&key) {
        for number in [b'1', b'2', b'3'] {
            if entry.remaining.has(node_at(&[number], 0)) {
                out.push(number)?;
            }
        }
    }
    Ok(())
}

/// Writes the users of whom the node knows something.
pub(super) fn say_users(alloc: Global, node: &Node, out: &mut Vec<u8>) -> Result<(), AllocError> {
    let users = node.users(alloc)?;
    for user in users.as_slice() {
        out.push(b' ')?;
        out.extend_from_slice(user.octets())?;
    }
    Ok(())
}

/// Writes the ids of ann's messages.
pub(super) fn say_ids(alloc: Global, node: &Node, out: &mut Vec<u8>) -> Result<(), AllocError> {
    let ids = node.ids(alloc, &named(alloc, b"ann")?)?;
    for id in ids.as_slice() {
        let mut row = ROW;
        write_id(&mut row, *id);
        out.push(b' ')?;
        out.extend_from_slice(&row[4..7])?;
    }
    Ok(())
}
