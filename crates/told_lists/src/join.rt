//! The listing that the lists of several nodes make.
ghost use Rattle.std.specs.Prelude.{◌≡◌, ◌++◌, true, map, IfOk, OnOk};
ghost use Rattle.std.specs.List.{list_all};
ghost use Rattle.std.specs.List.Sorted.{IsPermutation};
ghost use Rattle.cluster_model.specs.Reads.{copy_cmp};
ghost use Rattle.login_model.specs.Listing.{IsMergeOfTold};
ghost use Rattle.told_lists.specs.Joining.{login_item, copy_seen, told_by, all_told, is_of_node, AreByStamps};

use crate::runs::{join_neighbours, sort_by_id};
use crate::told_list::ToldList;
use mail_base::{Item, Items, NodeNo, NodeSet, ToldItem};
use std::alloc::{AllocError, Global};
use std::cmp::Ordering;

// A list is that of a node. This does nothing.
fn is_of_node(list: &ToldList)
    ensures { is_of_node list.now ≡ true }
{
    let _number = list.node.number();
}

// So is each of these.
fn are_of_nodes(told: &[ToldList])
    ensures { list_all is_of_node told.now ≡ true }
{
    for list in told {
        is_of_node(list);
    }
}

// A message, as this node alone told it.
fn told_by(node: NodeNo, item: &ToldItem) -> Item
    ensures { result ≡ told_by node item.now }
{
    Item {
        id: item.id,
        stamp: item.stamp,
        targets: item.targets,
        holders: NodeSet::empty().with(node),
        length: item.length,
    }
}

// Puts what this node told after what is there.
fn put_items(items: &mut Vec<Item>, node: NodeNo, told: &[ToldItem]) -> Result<(), AllocError>
    ensures { OnOk result (items.new.items ≡ items.old.items ++ map (told_by node) told.now) }
{
    for item in told {
        items.push(told_by(node, item))?;
    }
    Ok(())
}

// Puts the messages of a list after those that are there.
fn put_list(items: &mut Vec<Item>, list: &ToldList) -> Result<(), AllocError>
    ensures { OnOk result (items.new.items ≡ items.old.items ++ map (told_by list.now.node) list.now.items) }
{
    put_items(items, list.node, list.items.as_slice())
}

// All that was told, list by list.
fn all_told(alloc: Global, told: &[ToldList]) -> Result<Vec<Item>, AllocError>
    ensures { IfOk result (λ list. list.items ≡ all_told told.now) }
{
    let mut items = Vec::new(alloc);
    for list in told {
        put_list(&mut items, list)?;
    }
    Ok(items)
}

// Which of two messages comes first in a listing: by stamp, and then by id.
fn compare(one: &Item, other: &Item) -> Ordering
    ensures { result ≡ copy_cmp (copy_seen one.now) (copy_seen other.now) }
{
    one.stamp.count.cmp(&other.stamp.count).then(
        one.stamp.boot.cmp(&other.stamp.boot).then(
            one.stamp
                .node
                .cmp(&other.stamp.node)
                .then(one.id.cmp(&other.id)),
        ),
    )
}

// Puts the messages in the order of a listing. It takes no memory.
fn sort_by_stamp(items: &mut Vec<Item>)
    ensures same { IsPermutation items.old.items items.new.items }
    ensures in_order { AreByStamps items.new.items }
{
    items.sort_unstable_by(|one, other| compare(one, other));
}

// These messages as a list.
fn items_of(alloc: Global, items: &[Item]) -> Result<Items, AllocError>
    ensures { IfOk result (λ list. list ≡ items.now) }
{
    let mut list = Items::new(alloc);
    for item in items {
        list.push(*item)?;
    }
    Ok(list)
}

/// The listing that these lists make: each message that any node told stands once, with the latest stamp and the size that was
/// told with it, all targets, and as holders the nodes that told it. It rises by stamp, and by id where stamps are equal.
///
/// It takes n log n steps and room for as many messages as were told.
///
/// # Errors
///
/// Out of memory alone.
pub fn join_told(alloc: Global, told: &[ToldList]) -> Result<Items, AllocError>
    ensures { IfOk result (λ items. IsMergeOfTold told.now (map login_item items)) }
{
    are_of_nodes(told);
    let mut all = all_told(alloc, told)?;
    sort_by_id(&mut all);
    let mut joined = join_neighbours(alloc, &all)?;
    sort_by_stamp(&mut joined);
    items_of(alloc, &joined)
}
