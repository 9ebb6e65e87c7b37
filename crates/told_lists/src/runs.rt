//! Messages in order of their ids, and those of one id joined.
ghost use Rattle.std.specs.Prelude.{◌≡◌, IfOk};
ghost use Rattle.std.specs.Ordering.{eq_by_cmp};
ghost use Rattle.std.specs.List.Sorted.{IsPermutation};
ghost use Rattle.object_model.specs.Keys.{id_cmp};
ghost use Rattle.told_lists.specs.Joining.{later, joined, runs, runs_of, AreByIds};

use mail_base::Item;
use std::alloc::{AllocError, Global};

// Of two that were told of one message, the one with the later stamp; the first where they have one stamp.
fn later(one: &Item, other: &Item) -> Item
    ensures { result ≡ later one.now other.now }
{
    if one.stamp.cmp(&other.stamp).is_lt() {
        *other
    } else {
        *one
    }
}

// What was told of one message twice, as one.
fn join(one: &Item, other: &Item) -> Item
    ensures { result ≡ joined one.now other.now }
{
    let later = later(one, other);
    Item {
        id: one.id,
        stamp: later.stamp,
        targets: one.targets.union(other.targets),
        holders: one.holders.union(other.holders),
        length: later.length,
    }
}

fn is_same(one: &Item, other: &Item) -> bool
    ensures { result ≡ eq_by_cmp id_cmp one.now.id other.now.id }
{
    one.id == other.id
}

// Joins neighbours of one id, where `first` comes before the rest.
fn join_runs(alloc: Global, first: &Item, rest: &[Item]) -> Result<Vec<Item>, AllocError>
    ensures { IfOk result (λ list. list.items ≡ runs first.now rest.now) }
{
    let mut list = Vec::new(alloc);
    let mut current = *first;
    for item in rest {
        if is_same(&current, item) {
            current = join(&current, item);
        } else {
            list.push(current)?;
            current = *item;
        }
    }
    list.push(current)?;
    Ok(list)
}

/// Joins neighbours of one id.
pub(crate) fn join_neighbours(alloc: Global, items: &[Item]) -> Result<Vec<Item>, AllocError>
    ensures { IfOk result (λ list. list.items ≡ runs_of items.now) }
{
    match items.split_first() {
        Some((first, rest)) => join_runs(alloc, first, rest),
        None => Ok(Vec::new(alloc)),
    }
}

/// Puts the messages in the order of their ids. It takes no memory.
pub(crate) fn sort_by_id(items: &mut Vec<Item>)
    ensures same { IsPermutation items.old.items items.new.items }
    ensures in_order { AreByIds items.new.items }
{
    items.sort_unstable_by(|one, other| one.id.cmp(&other.id));
}
