// The messages of a POP3 session, and which of them it marked to be deleted (RFC 1939, section 5).
ghost use Rattle.std.specs.Prelude.{◌≡◌, IfOk};
ghost use Rattle.mail_model.specs.PopReplies.{listed_slots, marked_ids, unmarked, without_marks};
ghost use Rattle.mail_model.specs.Maildrop.{deleted_in, with_mark};

use crate::item::Item;
use mail_model::plain::Id;
use pop_wire::{PopCommand, read_command};
use std::alloc::{AllocError, Global};
use std::marker::Model;

/// One place of a session's listing.
#[derive(Clone, Copy, Debug)]
pub struct Slot {
    /// Its message.
    pub item: Item,
    /// Whether QUIT will delete it.
    pub marked: bool,
}

impl Model for Slot {
    ghost use Rattle.mail_model.specs.PopReplies as replies;

    ghost Value = { replies.ListingSlot };

    ghost view = { λ s. record { item = s.item; marked = s.marked } };

    ghost inverse = { λ s. record { item = s.item; marked = s.marked } };
}

/// The places of a listing that was just told: nothing is marked.
///
/// # Errors
///
/// Out of memory alone.
pub fn slots(alloc: Global, items: &[Item]) -> Result<Vec<Slot>, AllocError>
    ensures { IfOk result (λ slots. slots.items ≡ listed_slots items.now) }
{
    let mut slots = Vec::new(alloc);
    for item in items {
        slots.push(Slot {
            item: *item,
            marked: false,
        })?;
    }
    Ok(slots)
}

/// The messages that are not marked.
///
/// # Errors
///
/// Out of memory alone.
pub fn unmarked(alloc: Global, slots: &[Slot]) -> Result<Vec<Item>, AllocError>
    ensures { IfOk result (λ items. items.items ≡ unmarked slots.now) }
{
    let mut items = Vec::new(alloc);
    for slot in slots {
        if !slot.marked {
            items.push(slot.item)?;
        }
    }
    Ok(items)
}

/// The ids of those that are.
///
/// # Errors
///
/// Out of memory alone.
pub fn marked_ids(alloc: Global, slots: &[Slot]) -> Result<Vec<Id>, AllocError>
    ensures { IfOk result (λ ids. ids.items ≡ marked_ids slots.now) }
{
    let mut ids = Vec::new(alloc);
    for slot in slots {
        if slot.marked {
            ids.push(slot.item.id)?;
        }
    }
    Ok(ids)
}

// The places with the message of this number marked, the first being 1; with 0 nothing changes.
fn with_mark(alloc: Global, slots: &[Slot], number: u32) -> Result<Vec<Slot>, AllocError>
    ensures { IfOk result (λ marked. marked.items ≡ with_mark slots.now number) }
{
    let mut all = Vec::new(alloc);
    let mut left = number;
    for slot in slots {
        all.push(Slot {
            item: slot.item,
            marked: left == 1 || slot.marked,
        })?;
        left = left.saturating_sub(1);
    }
    Ok(all)
}

// The places with no mark.
fn without_marks(alloc: Global, slots: &[Slot]) -> Result<Vec<Slot>, AllocError>
    ensures { IfOk result (λ clear. clear.items ≡ without_marks slots.now) }
{
    let mut clear = Vec::new(alloc);
    for slot in slots {
        clear.push(Slot {
            item: slot.item,
            marked: false,
        })?;
    }
    Ok(clear)
}

/// The places once the line was heard: a DELE that names one marks it, and RSET takes all marks away, where the line has at most 1,024 octets with
/// its CRLF.
///
/// # Errors
///
/// Out of memory alone.
pub fn slots_after(alloc: Global, slots: &[Slot], line: &[u8]) -> Result<Vec<Slot>, AllocError>
    ensures { IfOk result (λ after. after.items ≡ deleted_in slots.now line.now) }
{
    if line.len() > 1022 {
        return with_mark(alloc, slots, 0);
    }
    match read_command(line) {
        Ok(PopCommand::Dele { number }) => with_mark(alloc, slots, number),
        Ok(PopCommand::Rset) => without_marks(alloc, slots),
        Ok(
            PopCommand::User { .. }
            | PopCommand::Pass { .. }
            | PopCommand::Apop { .. }
            | PopCommand::Stat
            | PopCommand::List { .. }
            | PopCommand::Uidl { .. }
            | PopCommand::Retr { .. }
            | PopCommand::Top { .. }
            | PopCommand::Noop
            | PopCommand::Quit
            | PopCommand::Capa,
        )
        | Err(_) => with_mark(alloc, slots, 0),
    }
}
