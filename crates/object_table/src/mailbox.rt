//! Which messages of a user are here.
ghost use Rattle.std.specs.Prelude.{◌≡◌, ◌<◌, ◌≤◌, IfOk};
ghost use Rattle.std.specs.BTreeMap as tree;
ghost use Rattle.std.specs.BTreeMap.Range.{entries_between, IsLeBy};
ghost use Rattle.std.specs.declared.ops.Bound.TheVariants.{Included};
ghost use Rattle.mail_base.specs.declared.key.Key.TheVariants.{Message};
ghost use Rattle.mail_base.specs.Seen.{key_seen};
ghost use Rattle.mail_base.specs.KeyMaps.{entries_seen};
ghost use Rattle.mail_base.specs.KeyOrder.{seen_cmp};
ghost use Rattle.object_table.specs.Mailboxes.{copy_here, ids_here, AreHere};

use crate::states::States;
use crate::table::ObjectTable;
use mail_base::{Ids, Key, MsgId, Name, NodeNo, ObjState, Value};
use std::alloc::{AllocError, Global};
use std::collections::BTreeMap;
use std::ops::Bound;

// The id of these numbers.
fn id_of(node: u8, boot: u32, seq: u64) -> MsgId
    requires low { 1 ≤ node }
    requires high { node ≤ 16 }
    requires boot { 0 < boot }
    requires seq { 0 < seq }
    ensures { result ≡ record { node = node; boot = boot; seq = seq } }
{
    let Some(node) = NodeNo::new(node) else {
        unreachable!()
    };
    let Some(id) = MsgId::new(node, boot, seq) else {
        unreachable!()
    };
    id
}

// The message of which the object is this user's copy, where it is one and is here.
fn copy_here(user: &Name, key: &Key, state: &ObjState) -> Option<MsgId>
    ensures { result ≡ copy_here user.now (key_seen key.now) state.now }
{
    match key {
        Key::Profile(_) => None,
        Key::Message(owner, id) => {
            if owner == user && matches!(state.value, Value::Here) {
                Some(*id)
            } else {
                None
            }
        }
    }
}

// The messages of the user that are here, among the objects from one key to another.
fn here_between(
    held: &BTreeMap<Key, ObjState>,
    alloc: Global,
    user: &Name,
    first: &Key,
    last: &Key,
) -> Result<Ids, AllocError>
    requires { IsLeBy seen_cmp first.now last.now }
    ensures ids { IfOk result (λ ids. ids ≡ ids_here user.now (entries_seen (entries_between seen_cmp (Included first.now) (Included last.now) held.now.entries))) }
    ensures ordered { tree.IsOrdered seen_cmp held.now }
{
    let mut ids = Ids::new(alloc);
    for (key, state) in held.range((Bound::Included(first), Bound::Included(last))) {
        if let Some(id) = copy_here(user, key, state) {
            ids.push(id)?;
        }
    }
    Ok(ids)
}

impl States {
    // The messages of the user that are here.
    fn ids(&self, alloc: Global, user: &Name) -> Result<Ids, AllocError>
        ensures { IfOk result (λ ids. AreHere user.now self.now ids) }
    {
        let first = Key::Message(user.copy()?, id_of(1, 1, 1));
        let last = Key::Message(user.copy()?, id_of(16, u32::MAX, u64::MAX));
        here_between(&self.held, alloc, user, &first, &last)
    }
}

impl ObjectTable {
    /// The ids of the user's messages of which it stands that they are here, each once, by node, boot and number. It takes
    /// time in the number of the user's objects, and logarithmic in that of all.
    ///
    /// # Errors
    ///
    /// Out of memory alone.
    pub fn ids(&self, alloc: Global, user: &Name) -> Result<Ids, AllocError>
        ensures { IfOk result (λ ids. AreHere user.now self.now ids) }
    {
        self.states.ids(alloc, user)
    }
}
