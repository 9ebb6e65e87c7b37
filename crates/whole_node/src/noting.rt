//! Copies of which the maps are told whether they are here.
ghost use Rattle.std.specs.Prelude.{◌≡◌, ◌≢◌, [], List, map, flat_map, IfOk, OnOk, OnErr};
ghost use Rattle.mail_model.specs.Identity.Key.{Message};
ghost use Rattle.mail_model.specs.Listing.{is_here};
ghost use Rattle.mail_model.specs.Record.{Record};
ghost use Rattle.object_model.specs.Said.{said};
ghost use Rattle.mail_base.specs.Bodies.{body_seen};
ghost use Rattle.mail_base.specs.Seen.{key_seen, value_seen};
ghost use Rattle.cluster_model.specs.Reads.{is_here_held};
ghost use Rattle.node_tickets.specs.Seen.{asked_seen};
ghost use Rattle.node_tickets.specs.Standing.{wants_at};
ghost use Rattle.node_core.specs.Nodes.{NodeKeeps, IsWhole};
ghost use Rattle.node_core.specs.Standing.{ticket_standing};
ghost use Rattle.node_maps.specs.Rounds.{NotesMessage};
ghost use Rattle.whole_node.specs.Noting.{NotesCopies, copies_of_key, copies_named, copies_asked, copies_confirmed, NotesBegun, WantsSome};

use mail_base::{Body, Key, MsgId, Name, NodeNo, StrikeMark, Ticket, Value};
use node_core::Node;
use node_maps::NodeMaps;
use node_tickets::{Asked, Want};
use std::alloc::AllocError;

fn is_value_here(value: &Value) -> bool
    ensures { result ≡ is_here (value_seen value.now) }
{
    match value {
        Value::Here => true,
        Value::Gone => false,
        Value::Secret(_) => false,
    }
}

// Whether the disk says that the user's copy is here.
fn is_here(mail: &Node, user: &Name, id: MsgId) -> Result<bool, AllocError>
    ensures { IfOk result (λ here. (records : List Record) → NodeKeeps records mail.now → here ≡ is_here_held (said (Message user.now id) records)) }
{
    let key = Key::Message(user.copy()?, id);
    match mail.state(&key) {
        Some(state) => Ok(is_value_here(&state.value)),
        None => Ok(false),
    }
}

// Notes what the disk says of the user's copy. A version that is at its greatest counts as memory that ran out: each rise goes
// with a record, and no disk has so many.
fn note_copy(maps: &mut NodeMaps, mail: &Node, user: &Name, id: MsgId) -> Result<(), AllocError>
    ensures { OnOk result ((records : List Record) → NodeKeeps records mail.now → NotesMessage user.now id (is_here_held (said (Message user.now id) records)) maps.old maps.new) }
{
    let here = is_here(mail, user, id)?;
    if maps.reports().version(user) == u64::MAX {
        return Err(AllocError);
    }
    maps.note(user, id, here)
}

// Notes each user's copy of the message.
fn note_users(maps: &mut NodeMaps, mail: &Node, users: &[Name], id: MsgId) -> Result<(), AllocError>
    ensures { OnOk result ((records : List Record) → NodeKeeps records mail.now → NotesCopies records (map (λ user. (user, id)) users.now) maps.old maps.new) }
{
    for user in users {
        note_copy(maps, mail, user, id)?;
    }
    Ok(())
}

// Notes the user's copy that the mark names.
fn note_mark(
    maps: &mut NodeMaps,
    mail: &Node,
    user: &Name,
    mark: &StrikeMark,
) -> Result<(), AllocError>
    ensures { OnOk result ((records : List Record) → NodeKeeps records mail.now → NotesMessage user.now mark.now.id (is_here_held (said (Message user.now mark.now.id) records)) maps.old maps.new) }
{
    note_copy(maps, mail, user, mark.id)
}

// Notes the user's copies that these marks name.
fn note_marks(
    maps: &mut NodeMaps,
    mail: &Node,
    user: &Name,
    marks: &[StrikeMark],
) -> Result<(), AllocError>
    ensures { OnOk result ((records : List Record) → NodeKeeps records mail.now → NotesCopies records (map (λ mark. (user.now, mark.id)) marks.now) maps.old maps.new) }
{
    for mark in marks {
        note_mark(maps, mail, user, mark)?;
    }
    Ok(())
}

// Notes the copy, if the key is of one.
fn note_key(maps: &mut NodeMaps, mail: &Node, key: &Key) -> Result<(), AllocError>
    ensures { OnOk result ((records : List Record) → NodeKeeps records mail.now → NotesCopies records (copies_of_key (key_seen key.now)) maps.old maps.new) }
{
    match key {
        Key::Profile(_) => Ok(()),
        Key::Message(user, id) => note_copy(maps, mail, user, *id),
    }
}

/// Notes the copies of which the letter may have changed whether they are here.
///
/// # Errors
///
/// Only out of memory. Nothing is then said of the maps, and the node has to go down.
pub(crate) fn note_letter(maps: &mut NodeMaps, mail: &Node, body: &Body) -> Result<(), AllocError>
    ensures { OnOk result ((records : List Record) → NodeKeeps records mail.now → NotesCopies records (copies_named (body_seen body.now)) maps.old maps.new) }
{
    match body {
        Body::File { id, users, .. } => note_users(maps, mail, users.as_slice(), *id),
        Body::Strike { user, marks } => note_marks(maps, mail, user, marks.as_slice()),
        Body::Push { key, .. } => note_key(maps, mail, key),
        Body::Filed { .. }
        | Body::StrikeTold { .. }
        | Body::PushAck { .. }
        | Body::Retired { .. }
        | Body::LoginAsk { .. }
        | Body::LoginTold { .. }
        | Body::ListAsk { .. }
        | Body::ListTold { .. }
        | Body::FetchAsk { .. }
        | Body::FetchTold { .. }
        | Body::Unlock { .. }
        | Body::Group { .. }
        | Body::Join { .. }
        | Body::Install { .. }
        | Body::Report { .. }
        | Body::ReportAck { .. } => Ok(()),
    }
}

// Notes the copies that are asked for.
fn note_asked(maps: &mut NodeMaps, mail: &Node, asked: &Asked) -> Result<(), AllocError>
    ensures { OnOk result ((records : List Record) → NodeKeeps records mail.now → NotesCopies records (copies_asked (asked_seen asked.now)) maps.old maps.new) }
{
    match asked {
        Asked::Copies(filing) => note_users(maps, mail, filing.users.as_slice(), filing.id),
        Asked::Deletion { user, id } => note_copy(maps, mail, user, *id),
    }
}

// Notes them where the node itself has confirmed them.
fn note_want(maps: &mut NodeMaps, mail: &Node, own: NodeNo, want: &Want) -> Result<(), AllocError>
    ensures { OnOk result ((records : List Record) → NodeKeeps records mail.now → NotesCopies records (copies_confirmed own want.now) maps.old maps.new) }
{
    if want.confirmed().has(own) {
        return note_asked(maps, mail, want.asked());
    }
    Ok(())
}

// Notes what the node itself has confirmed of these.
fn note_wants(
    maps: &mut NodeMaps,
    mail: &Node,
    own: NodeNo,
    wants: &[Want],
) -> Result<(), AllocError>
    ensures noted { OnOk result ((records : List Record) → NodeKeeps records mail.now → NotesCopies records (flat_map (copies_confirmed own) wants.now) maps.old maps.new) }
    ensures some { OnErr result (wants.now ≢ []) }
{
    for want in wants {
        note_want(maps, mail, own, want)?;
    }
    Ok(())
}

// Notes what the node itself has confirmed under the ticket.
fn note_ticket(maps: &mut NodeMaps, mail: &Node, ticket: Ticket) -> Result<(), AllocError>
    requires whole { IsWhole mail.now }
    ensures noted { OnOk result ((records : List Record) → NodeKeeps records mail.now → NotesCopies records (flat_map (copies_confirmed mail.now.store.own) (wants_at (ticket_standing mail.now ticket))) maps.old maps.new) }
    ensures some { OnErr result (wants_at (ticket_standing mail.now ticket) ≢ []) }
{
    note_wants(maps, mail, mail.own(), mail.wants(ticket))
}

/// Notes the copies that a call under this ticket has filed or deleted at the node itself, as it began.
///
/// # Errors
///
/// Only out of memory, where the call wants something of nodes. Nothing is then said of the maps, and the node has to go down.
pub(crate) fn note_begun(
    maps: &mut NodeMaps,
    mail: &Node,
    ticket: &Option<Ticket>,
) -> Result<(), AllocError>
    requires whole { IsWhole mail.now }
    ensures noted { OnOk result (NotesBegun ticket.now mail.now maps.old maps.new) }
    ensures some { OnErr result (WantsSome ticket.now mail.now) }
{
    match ticket {
        Some(ticket) => {
            let ticket = Ticket::new(ticket.node, ticket.boot, ticket.seq);
            note_ticket(maps, mail, ticket)
        }
        None => Ok(()),
    }
}
