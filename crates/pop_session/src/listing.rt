// The messages of a maildrop, as they were listed at the login, and what was marked since.
ghost use Rattle.std.specs.Prelude.{◌≡◌, ◌<◌, [], ℕ, Some, IfSome, IfOk, slice_get, length, map, sum_by, filter, not};
ghost use Rattle.std.specs.Option.{option_copied, option_map};
ghost use Rattle.mail_model.specs.Maildrop.{message_at, with_mark};
ghost use Rattle.mail_model.specs.PopReplies.{without_marks};
ghost use Rattle.mail_base.specs.Items.{item_seen};
ghost use Rattle.pop_session.specs.Slots.{slots_seen, items_of_slots, marked_items, listed_slot, marked_at, unmarked_at, unmarked_to, message_in};

use mail_base::{Item, Items};
use std::alloc::{AllocError, Global};
use std::marker::Model;

/// One place of a listing.
#[derive(Clone, Copy, Debug)]
pub(crate) struct Slot {
    /// Its message.
    pub(crate) item: Item,
    /// Whether QUIT will delete it (RFC 1939, section 5).
    pub(crate) marked: bool,
}

/// The messages of a maildrop, numbered from 1 (RFC 1939, section 5). A contract sees the list of their
/// slots, each with its message and whether that is marked.
#[derive(Debug, Drop)]
pub(crate) struct Listing {
    held: Vec<Slot>,
}

impl Model for Listing {
    ghost use Rattle.std.specs.Prelude.{List};
    ghost use Rattle.pop_session.specs.declared.listing.Slot as slots;

    ghost Value = { List slots.Slot };

    ghost view = { λ l. l.held.items };
}

// Marks the slot of this index, where there is one.
fn mark_at(slots: &mut [Slot], at: usize)
    ensures { slots.new ≡ marked_at slots.old at }
{
    if at < slots.len() {
        let slot = &mut slots[at];
        slot.marked = true;
    }
}

// Takes the mark of the slot of this index away, where there is one.
fn unmark_at(slots: &mut [Slot], at: usize)
    ensures { slots.new ≡ unmarked_at slots.old at }
{
    if at < slots.len() {
        let slot = &mut slots[at];
        slot.marked = false;
    }
}

// Takes all marks away.
fn unmark_all(slots: &mut [Slot])
    ensures { slots.new ≡ unmarked_to (length slots.old) slots.old }
{
    let count = slots.len();
    for at in 0..count {
        unmark_at(slots, at);
    }
}

impl Listing {
    /// No messages. It takes no memory.
    pub(crate) fn new(alloc: Global) -> Listing
        ensures { result ≡ [] }
    {
        Listing {
            held: Vec::new(alloc),
        }
    }

    /// The messages that were listed, none of which is marked.
    ///
    /// # Errors
    ///
    /// Out of memory alone.
    pub(crate) fn listed(alloc: Global, items: &Items) -> Result<Listing, AllocError>
        ensures { IfOk result (λ listing. listing ≡ map listed_slot items.now) }
    {
        let mut held = Vec::new(alloc);
        for item in items.as_slice() {
            held.push(Slot {
                item: *item,
                marked: false,
            })?;
        }
        Ok(Listing { held })
    }

    /// The slots, the first of which has the number 1.
    pub(crate) fn slots(&self) -> &[Slot]
        ensures { result.now ≡ self.now }
    {
        &self.held
    }

    // The message of this number.
    fn held_message(&self, number: u32) -> Option<&Item>
        ensures { option_copied result ≡ message_in self.now number }
    {
        let slot = self.held.get((number as usize).checked_sub(1)?)?;
        if slot.marked { None } else { Some(&slot.item) }
    }

    /// The message of this number; nothing at 0, after the last, and where it is marked.
    pub(crate) fn message(&self, number: u32) -> Option<&Item>
        ensures message { option_map item_seen (option_copied result) ≡ message_at (slots_seen self.now) number }
        ensures own { IfSome result (λ item. (at : ℕ) × (slice_get (items_of_slots self.now) at ≡ Some item.now)) }
    {
        self.held_message(number)
    }

    /// Marks the message of this number, where there is one (RFC 1939, section 5).
    #[tactic(auto, using(crate::proofs::Marks::marked_alike, crate::proofs::Marks::items_stay))]
    pub(crate) fn mark(&mut self, number: u32)
        ensures marks { slots_seen self.new ≡ with_mark (slots_seen self.old) number }
        ensures items { items_of_slots self.new ≡ items_of_slots self.old }
    {
        if let Some(at) = (number as usize).checked_sub(1) {
            mark_at(&mut self.held, at);
        }
    }

    /// No message is marked any more (RFC 1939, section 5).
    pub(crate) fn unmark(&mut self)
        ensures marks { slots_seen self.new ≡ without_marks (slots_seen self.old) }
        ensures items { items_of_slots self.new ≡ items_of_slots self.old }
    {
        unmark_all(&mut self.held);
    }

    /// How many messages are not marked.
    pub(crate) fn count(&self) -> usize
        ensures { result ≡ length (filter (λ slot. not slot.marked) self.now) }
    {
        self.held.iter().filter(|slot| !slot.marked).count()
    }

    /// How many octets these have together.
    pub(crate) fn octets(&self) -> u128
        ensures { result ≡ sum_by (λ slot. slot.item.length) (filter (λ slot. not slot.marked) self.now) }
    {
        self.held
            .iter()
            .filter(|slot| !slot.marked)
            .map(|slot| u128::from(slot.item.length))
            .sum()
    }

    /// The marked messages, in the order of the listing.
    pub(crate) fn marked_items(&self, alloc: Global) -> Result<Items, AllocError>
        ensures { IfOk result (λ items. items ≡ marked_items self.now) }
    {
        let mut items = Items::new(alloc);
        for slot in &self.held {
            if slot.marked {
                items.push(slot.item)?;
            }
        }
        Ok(items)
    }
}
