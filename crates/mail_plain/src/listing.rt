// What the records of a node list of a user's messages.
ghost use Rattle.std.specs.Prelude.{◌≡◌, ◌&&◌, ◌||◌, ◌∷◌, ◌++◌, List, not, nat_eq, IfOk};
ghost use Rattle.std.specs.Option.{option_copied};
ghost use Rattle.std.specs.Cmp.Lexicographic.{pointwise};
ghost use Rattle.mail_model.specs.Record as spelt;
ghost use Rattle.mail_model.specs.Tape.{or_else};
ghost use Rattle.mail_model.specs.Plain.{value_of};
ghost use Rattle.mail_model.specs.Listing.{has_gone, is_gone, is_here, is_same_id, item_of, items_in, listing_of, octets_in};
ghost use Rattle.mail_plain.specs.SeenRecords.{listed, record_seen, records_seen};

use crate::item::Item;
use crate::record::Record;
use mail_model::plain::{Fate, Id};
use std::alloc::{AllocError, Global};

fn is_same(a: &Id, b: &Id) -> bool
    ensures { result ≡ is_same_id a.now b.now }
{
    a.node == b.node && a.boot == b.boot && a.seq == b.seq
}

fn is_here(fate: &Fate) -> bool
    ensures { result ≡ is_here (value_of fate.now) }
{
    match fate {
        Fate::Here => true,
        Fate::Gone => false,
    }
}

fn is_gone(fate: &Fate) -> bool
    ensures { result ≡ is_gone (value_of fate.now) }
{
    match fate {
        Fate::Here => false,
        Fate::Gone => true,
    }
}

// The octets that the record holds of this id, if it does.
fn octets_of<'a>(id: &Id, written: &Record<'a>) -> Option<&'a [u8]>
    ensures { (more : List spelt.Record) → octets_in id.now (record_seen written.now ∷ more) ≡ or_else (option_copied result) (octets_in id.now more) }
{
    match written {
        Record::Octets { id: other, octets } if is_same(other, id) => Some(octets),
        Record::Octets { .. }
        | Record::Boot { .. }
        | Record::Promise { .. }
        | Record::Copy { .. }
        | Record::Profile { .. }
        | Record::Retired { .. } => None,
    }
}

// The octets of the first record that holds some of this id.
fn octets_in<'a>(id: &Id, records: &[Record<'a>]) -> Option<&'a [u8]>
    ensures { option_copied result ≡ octets_in id.now (records_seen records.now) }
{
    for written in records {
        if let Some(octets) = octets_of(id, written) {
            return Some(octets);
        }
    }
    None
}

fn says_gone(user: &[u8], id: &Id, written: &Record<'_>) -> bool
    ensures { (more : List spelt.Record) → has_gone user.now id.now (record_seen written.now ∷ more) ≡ (result || has_gone user.now id.now more) }
{
    match written {
        Record::Copy {
            user: name,
            id: other,
            fate,
            ..
        } => *name == user && is_same(other, id) && is_gone(fate),
        Record::Boot { .. }
        | Record::Promise { .. }
        | Record::Octets { .. }
        | Record::Profile { .. }
        | Record::Retired { .. } => false,
    }
}

// Whether some record says that the user's copy is gone, whatever the stamps.
fn has_gone(user: &[u8], id: &Id, records: &[Record<'_>]) -> bool
    ensures { result ≡ has_gone user.now id.now (records_seen records.now) }
{
    for written in records {
        if says_gone(user, id, written) {
            return true;
        }
    }
    false
}

fn is_listed(user: &[u8], name: &[u8], id: &Id, fate: &Fate, all: &[Record<'_>]) -> bool
    ensures { result ≡ (pointwise nat_eq name.now user.now && is_here (value_of fate.now) && not (has_gone user.now id.now (records_seen all.now))) }
{
    name == user && is_here(fate) && !has_gone(user, id, all)
}

fn item_of(id: &Id, all: &[Record<'_>]) -> Option<Item>
    ensures { listed result ≡ item_of id.now (octets_in id.now (records_seen all.now)) }
{
    match octets_in(id, all) {
        Some(octets) => Some(Item {
            id: *id,
            size: octets.len(),
        }),
        None => None,
    }
}

// The message that the record lists, if it does.
fn item_in(user: &[u8], written: &Record<'_>, all: &[Record<'_>]) -> Option<Item>
    ensures { (more : List spelt.Record) → items_in user.now (records_seen all.now) (record_seen written.now ∷ more) ≡ listed result ++ items_in user.now (records_seen all.now) more }
{
    match written {
        Record::Copy {
            user: name,
            id,
            fate,
            ..
        } if is_listed(user, name, id, fate, all) => item_of(id, all),
        Record::Copy { .. }
        | Record::Boot { .. }
        | Record::Promise { .. }
        | Record::Octets { .. }
        | Record::Profile { .. }
        | Record::Retired { .. } => None,
    }
}

/// The messages of the user's mailbox by these records, in the order in which they came.
///
/// A copy is listed where a record says that it is here, no record says that it is gone, and some record
/// holds its octets.
///
/// # Errors
///
/// Out of memory alone.
pub fn messages(alloc: Global, user: &[u8], records: &[Record<'_>]) -> Result<Vec<Item>, AllocError>
    ensures { IfOk result (λ items. items.items ≡ listing_of user.now (records_seen records.now)) }
{
    let mut items = Vec::new(alloc);
    for written in records {
        if let Some(item) = item_in(user, written, records) {
            items.push(item)?;
        }
    }
    Ok(items)
}
