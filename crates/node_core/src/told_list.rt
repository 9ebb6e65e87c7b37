//! The messages of a user that are here.
ghost use Rattle.std.specs.Prelude.{◌≡◌, List, map, option_map, IfOk};
ghost use Rattle.std.specs.List.Sorted.{IsPermutation};
ghost use Rattle.mail_model.specs.Record.{Record};
ghost use Rattle.cluster_model.specs.Reads.{copy_cmp};
ghost use Rattle.login_model.specs.Facts.{copy_told, IsToldList};
ghost use Rattle.node_core.specs.Nodes.{NodeKeeps};
ghost use Rattle.node_core.specs.Listing.{copy_by, copy_of, copies_for, AreInOrder};

use crate::node::Node;
use mail_base::{Key, MsgId, Name, ObjState, Sequence, ToldItem, Value};
use std::alloc::{AllocError, Global};
use std::cmp::Ordering;

// A message of a listing, where the state says that the user's copy is here.
fn item_by(id: MsgId, state: &ObjState, size: u64) -> Option<ToldItem>
    ensures { option_map copy_told result ≡ copy_by id state.now size }
{
    match &state.value {
        Value::Here => Some(ToldItem::new(id, state.stamp, state.targets, size)),
        Value::Gone => None,
        Value::Secret(_) => None,
    }
}

// Which of two messages comes first in a listing: by stamp, and then by id.
fn compare(a: &ToldItem, b: &ToldItem) -> Ordering
    ensures { result ≡ copy_cmp (copy_told a.now) (copy_told b.now) }
{
    a.stamp.count.cmp(&b.stamp.count).then(
        a.stamp
            .boot
            .cmp(&b.stamp.boot)
            .then(a.stamp.node.cmp(&b.stamp.node).then(a.id.cmp(&b.id))),
    )
}

// Puts the messages in the order of a listing.
fn put_in_order(items: &mut Vec<ToldItem>)
    ensures same { IsPermutation items.old.items items.new.items }
    ensures in_order { AreInOrder items.new.items }
{
    items.sort_unstable_by(|a, b| compare(a, b));
}

impl Node {
    // The message of a listing, where the user's copy is here with its octets.
    fn item(&self, user: &Name, id: MsgId) -> Result<Option<ToldItem>, AllocError>
        ensures { IfOk result (λ item. (records : List Record) → NodeKeeps records self.now → option_map copy_told item ≡ copy_of user.now records id) }
    {
        let key = Key::Message(user.copy()?, id);
        let Some(state) = self.store.state(&key) else {
            return Ok(None);
        };
        let Some(size) = self.store.length(id) else {
            return Ok(None);
        };
        Ok(item_by(id, state, size))
    }

    // Those of these messages of which the user's copies are here with their octets.
    fn items(&self, alloc: Global, user: &Name, ids: &[MsgId]) -> Result<Vec<ToldItem>, AllocError>
        ensures { IfOk result (λ items. (records : List Record) → NodeKeeps records self.now → map copy_told items.items ≡ copies_for user.now records ids.now) }
    {
        let mut items = Vec::new(alloc);
        for id in ids {
            if let Some(item) = self.item(user, *id)? {
                items.push(item)?;
            }
        }
        Ok(items)
    }

    /// The messages of the user of which the disk says that they are here, and has the octets: each once, in the order of their
    /// stamps. It asks nothing of the disk, and changes nothing. It looks at the user's own objects, those that are gone among
    /// them, with a few look-ups for each, and at none of other users.
    ///
    /// # Errors
    ///
    /// Only out of memory.
    pub fn told_list(&self, alloc: Global, user: &Name) -> Result<Sequence<ToldItem>, AllocError>
        ensures { IfOk result (λ items. (records : List Record) → NodeKeeps records self.now → IsToldList user.now records items) }
    {
        let ids = self.store.ids(alloc, user)?;
        let mut items = self.items(alloc, user, ids.as_slice())?;
        put_in_order(&mut items);
        Ok(Sequence::from_vec(items))
    }
}
