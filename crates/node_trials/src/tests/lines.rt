// What the lines of a table say.
ghost use Rattle.std.specs.Prelude.{◌≡◌, ◌<◌, ◌≤◌, ◌^◌, length, true, IfOk, IsTrue};
ghost use Rattle.mail_model.specs.Grammar.{IsId, IsObject, IsStamp};
ghost use Rattle.mail_model.specs.Names.{IsLowerName, is_secret};
ghost use Rattle.mail_model.specs.Lines.{ends_in_crlf};
ghost use Rattle.mail_base.specs.Bodies.{body_seen};
ghost use Rattle.mail_base.specs.Seen.{key_seen};
ghost use Rattle.mail_base.specs.Delivers.{mail_in};
ghost use Rattle.cluster_model.specs.Steps.NodeCall.{Deliver as Delivers};
ghost use Rattle.node_core.specs.Beginning.{IsTextEnded};
ghost use Rattle.node_core.specs.Spelling.{CanBeTaken};

use mail_base::{
    Body, Deliver, EpochId, Ids, Item, Items, Key, Letter, MsgId, Name, Names, NodeNo, NodeSet,
    ObjState, Octets, Secret, Sequence, Stamp, StrikeMark, Ticket, Value,
};
use std::alloc::{AllocError, Global};

/// A letter of which nothing is known.
pub(super) const ROW: [u8; 18] = *b"- - --- -- - - - -";

pub(super) fn at(line: &[u8], column: usize) -> u8 {
    match line.get(column) {
        Some(octet) => *octet,
        None => b' ',
    }
}

/// The digit of the column; 0 where it has none.
pub(super) fn digit(line: &[u8], column: usize) -> u8
    ensures { result ≤ 9 }
{
    let octet = at(line, column);
    if octet.is_ascii_digit() {
        octet - b'0'
    } else {
        0
    }
}

pub(super) fn node_at(line: &[u8], column: usize) -> NodeNo {
    NodeNo::new(digit(line, column).max(1)).unwrap()
}

pub(super) fn id_at(line: &[u8]) -> MsgId {
    let boot = u32::from(digit(line, 5).max(1));
    let seq = u64::from(digit(line, 6).max(1));
    MsgId::new(node_at(line, 4), boot, seq).unwrap()
}

fn stamp_at(line: &[u8]) -> Stamp
    ensures { IsStamp result }
{
    Stamp::new(u64::from(digit(line, 8)), 1, node_at(line, 9).number())
}

fn targets_at(line: &[u8]) -> NodeSet
    ensures some { 0 < result }
    ensures bound { result < 2 ^ 16 }
{
    NodeSet::from_mask(u16::from(digit(line, 11).max(1)))
}

pub(super) fn ticket_at(line: &[u8]) -> Ticket {
    Ticket::new(node_at(b"1", 0), 1, u64::from(digit(line, 15)))
}

pub(super) fn named(alloc: Global, octets: &[u8]) -> Result<Name, AllocError> {
    match Name::spelt(alloc, octets)? {
        Some(name) => Ok(name),
        None => Err(AllocError),
    }
}

/// Ann, or Ann and Bob.
fn users_at(alloc: Global, line: &[u8]) -> Result<Names, AllocError> {
    let mut users = Names::new(alloc);
    users.push(named(alloc, b"ann")?)?;
    if digit(line, 13) == 2 {
        users.push(named(alloc, b"bob")?)?;
    }
    Ok(users)
}

/// Ann's secret.
fn secret_of(alloc: Global) -> Result<Secret, AllocError> {
    match Secret::read(alloc, b"tulip")? {
        Some(secret) => Ok(secret),
        None => Err(AllocError),
    }
}

/// A secret is one that a record can spell.
fn is_fit(secret: &Secret)
    ensures { IsTrue (is_secret secret.now) }
{
    let _octets = secret.octets();
}

// A name is in lower case.
fn is_name(name: &Name)
    ensures { IsLowerName name.now }
{
    let _octets = name.octets();
}

// An id is within its limits.
fn is_id(id: MsgId)
    ensures { IsId id }
{
    let _node = id.node().number();
    let _boot = id.boot();
    let _seq = id.seq();
}

/// Ann's copy of the message, or her profile.
pub(super) fn object_at(alloc: Global, line: &[u8]) -> Result<(Key, ObjState), AllocError>
    ensures { IfOk result (λ object. IsObject (key_seen object.0) object.1) }
{
    let ann = named(alloc, b"ann")?;
    let id = id_at(line);
    is_name(&ann);
    is_id(id);
    let stamp = stamp_at(line);
    let targets = targets_at(line);
    if at(line, 13) == b'x' {
        let secret = secret_of(alloc)?;
        is_fit(&secret);
        let state = ObjState::new(Value::Secret(secret), stamp, targets);
        return Ok((Key::Profile(ann), state));
    }
    if at(line, 13) == b'g' {
        return Ok((
            Key::Message(ann, id),
            ObjState::new(Value::Gone, stamp, targets),
        ));
    }
    Ok((
        Key::Message(ann, id),
        ObjState::new(Value::Here, stamp, targets),
    ))
}

/// The octets of each message.
fn octets_of(alloc: Global) -> Result<Octets, AllocError>
    ensures short { IfOk result (λ octets. length octets ≤ 16) }
    ensures ended { IfOk result (λ octets. ends_in_crlf octets ≡ true) }
{
    Ok(Octets::from_vec(Vec::from_slice(alloc, b"hello\r\n")?))
}

fn strike_at(alloc: Global, line: &[u8]) -> Result<Body, AllocError>
    ensures { IfOk result (λ body. CanBeTaken (body_seen body)) }
{
    let mut marks = Sequence::new(alloc);
    marks.push(StrikeMark::new(id_at(line), stamp_at(line)))?;
    Ok(Body::Strike {
        user: named(alloc, b"ann")?,
        marks,
    })
}

fn push_at(alloc: Global, line: &[u8]) -> Result<Body, AllocError>
    ensures { IfOk result (λ body. CanBeTaken (body_seen body)) }
{
    let (key, state) = object_at(alloc, line)?;
    if at(line, 13) == b'h' {
        let octets = Some(octets_of(alloc)?);
        return Ok(Body::Push { key, state, octets });
    }
    Ok(Body::Push {
        key,
        state,
        octets: None,
    })
}

fn body_at(alloc: Global, line: &[u8]) -> Result<Body, AllocError>
    ensures { IfOk result (λ body. CanBeTaken (body_seen body)) }
{
    let id = id_at(line);
    match at(line, 0) {
        b'F' => Ok(Body::File {
            id,
            stamp: stamp_at(line),
            targets: targets_at(line),
            users: users_at(alloc, line)?,
            octets: octets_of(alloc)?,
        }),
        b'f' => Ok(Body::Filed { id }),
        b'S' => strike_at(alloc, line),
        b's' => {
            let mut ids = Ids::new(alloc);
            ids.push(id)?;
            let user = named(alloc, b"ann")?;
            Ok(Body::StrikeTold { user, ids })
        }
        b'P' => push_at(alloc, line),
        b'A' => {
            let (key, state) = object_at(alloc, line)?;
            Ok(Body::PushAck { key, state })
        }
        b'R' => {
            let (key, state) = object_at(alloc, line)?;
            Ok(Body::Retired { key, state })
        }
        _ => Ok(Body::Unlock {
            user: named(alloc, b"ann")?,
            login: ticket_at(line),
        }),
    }
}

/// The letter of the line, as the node is to hear it.
pub(super) fn letter_at(alloc: Global, line: &[u8], to: NodeNo) -> Result<Letter, AllocError>
    ensures { IfOk result (λ letter. CanBeTaken letter.body) }
{
    let ticket = if digit(line, 15) == 0 {
        None
    } else {
        Some(ticket_at(line))
    };
    Ok(Letter {
        from: node_at(line, 2),
        to,
        epoch: EpochId::new(u64::from(digit(line, 17)), 1),
        ticket,
        body: body_at(alloc, line)?,
    })
}

pub(super) fn deliver_at(alloc: Global, line: &[u8]) -> Result<Deliver, AllocError>
    ensures { IfOk result (λ deliver. IsTextEnded (Delivers (mail_in deliver))) }
{
    Ok(Deliver {
        users: users_at(alloc, line)?,
        sender: Octets::new(alloc),
        helo: Octets::new(alloc),
        extended: false,
        text: octets_of(alloc)?,
    })
}

fn item_of(line: &[u8], id: MsgId) -> Item {
    Item {
        id,
        stamp: stamp_at(line),
        targets: targets_at(line),
        holders: NodeSet::empty(),
        length: 0,
    }
}

/// The message of the line, and with a 2 also the next one.
pub(super) fn items_at(alloc: Global, line: &[u8]) -> Result<Items, AllocError> {
    let id = id_at(line);
    let mut items = Items::new(alloc);
    items.push(item_of(line, id))?;
    if digit(line, 13) == 2 {
        let next = MsgId::new(id.node(), id.boot(), 9).unwrap();
        items.push(item_of(line, next))?;
    }
    Ok(items)
}

/// How many letters a push finds room for, and how many octets: those of so many letters that carry no message.
pub(super) fn room_at(line: &[u8]) -> (usize, u64) {
    (
        usize::from(digit(line, 11)),
        64 * u64::from(digit(line, 13)),
    )
}

/// The lines of a table.
pub(super) fn lines_of<'a>(alloc: Global, table: &'a [u8]) -> Result<Vec<&'a [u8]>, AllocError> {
    let mut lines = Vec::new(alloc);
    for line in table.split(|octet| *octet == b'\n') {
        lines.push(line)?;
    }
    Ok(lines)
}
