//! What a node pushes to another, as far as letters find room.
ghost use Rattle.std.specs.Prelude.{◌≡◌, ◌≤◌, ◌+◌, ℕ, List, not, ◌&&◌, nat_eq, nat_lt, Some, map, take, length, IfOk};
ghost use Rattle.std.specs.FinMap as fin;
ghost use Rattle.mail_model.specs.Record.{Record};
ghost use Rattle.object_model.specs.Sets.{has};
ghost use Rattle.mail_base.specs.Seen.{key_seen};
ghost use Rattle.cluster_model.specs.Cluster.{epoch_of, members_of};
ghost use Rattle.cluster_model.specs.Rules.{push_of, pushed_octets};
ghost use Rattle.cluster_model.specs.Room.{octets_of_all, due_to};
ghost use Rattle.node_core.specs.Nodes.{node_seen, NodeKeeps, IsWhole};
ghost use Rattle.node_core.specs.Pushing.{first_within, keys_within, pushed_size};

use crate::node::Node;
use mail_base::{Key, NodeNo, ObjState, Value};
use std::alloc::{AllocError, Global};

impl Node {
    // How many octets of a message go with a state that is pushed.
    fn pushed_size(&self, key: &Key, state: &ObjState) -> u64
        ensures { (records : List Record) → NodeKeeps records self.now → result ≡ pushed_size (pushed_octets (key_seen key.now) state.now.value records) }
    {
        let Key::Message(_, id) = key else {
            return 0;
        };
        if !matches!(state.value, Value::Here) {
            return 0;
        }
        self.store.length(*id).unwrap_or(0)
    }

    // What the letter with this entry counts for, if it is due to the node.
    fn push_size(&self, to: NodeNo, key: &Key) -> u128
        ensures { (own : ℕ) (records : List Record) → NodeKeeps records self.now → result ≡ octets_of_all (push_of own to (epoch_of (node_seen self.now)) records (key_seen key.now) (fin.get self.now.store.log (key_seen key.now))) }
    {
        match self.store.entry(key) {
            Some(entry) => {
                if entry.remaining.has(to) {
                    64 + u128::from(self.pushed_size(key, &entry.state))
                } else {
                    0
                }
            }
            None => 0,
        }
    }

    // How many of these keys find room with their letters.
    fn count_within(&self, to: NodeNo, keys: &[Key], most: usize, room: u128) -> usize
        ensures first { (own : ℕ) (records : List Record) → NodeKeeps records self.now → map key_seen (take result keys.now)
            ≡ first_within (λ key. push_of own to (epoch_of (node_seen self.now)) records key (fin.get self.now.store.log key)) most room (map key_seen keys.now) }
        ensures bound { result ≤ length keys.now }
    {
        let Some((key, others)) = keys.split_first() else {
            return 0;
        };
        if most == 0 {
            return 0;
        }
        let size = self.push_size(to, key);
        if size > room {
            return 0;
        }
        1 + self.count_within(to, others, most - 1, room - size)
    }

    // Whether the node is a member of the epoch.
    fn is_member(&self, to: NodeNo) -> bool
        requires whole { IsWhole self.now }
        ensures { result ≡ has (members_of (node_seen self.now)) to }
    {
        self.member_set().has(to)
    }

    // Whether the node is another member of it.
    fn is_other_member(&self, to: NodeNo) -> bool
        requires whole { IsWhole self.now }
        ensures { result ≡ (has (members_of (node_seen self.now)) to && not (nat_eq to self.now.store.own)) }
    {
        self.is_member(to) && to != self.store.own()
    }

    /// Whether anything is due to the node as another member. It takes no memory, and asks nothing of the disk.
    pub fn is_due(&self, to: NodeNo) -> bool
        requires whole { IsWhole self.now }
        ensures { result ≡ nat_lt 0 (length (due_to self.now.store.own to (node_seen self.now))) }
    {
        self.is_other_member(to) && self.store.owes(to)
    }

    // The first keys that are due to the node as another member.
    fn due_keys(&self, alloc: Global, to: NodeNo) -> Result<Vec<Key>, AllocError>
        requires whole { IsWhole self.now }
        ensures { IfOk result (λ keys. map key_seen keys.items ≡ due_to self.now.store.own to (node_seen self.now)) }
    {
        if !self.is_other_member(to) {
            return Ok(Vec::new(alloc));
        }
        self.store.due(alloc, to, 64)
    }

    /// Whether something is due to the node, and not even the first letter finds room, where at most `most` letters with at most
    /// `room` octets do.
    ///
    /// # Errors
    ///
    /// Only out of memory.
    pub fn is_crowded(
        &self,
        alloc: Global,
        to: NodeNo,
        most: usize,
        room: u64,
    ) -> Result<bool, AllocError>
        requires whole { IsWhole self.now }
        ensures { IfOk result (λ crowded. (records : List Record) → NodeKeeps records self.now → crowded ≡ (nat_lt 0 (length (due_to self.now.store.own to (node_seen self.now))) && nat_eq (length (keys_within most room self.now.store.own to (node_seen self.now) records)) 0)) }
    {
        if !self.is_due(to) {
            return Ok(false);
        }
        let keys = self.keys_within(alloc, to, most, room)?;
        Ok(keys.len() == 0)
    }

    // The first of them, as many as find room with their letters.
    pub(crate) fn keys_within(
        &self,
        alloc: Global,
        to: NodeNo,
        most: usize,
        room: u64,
    ) -> Result<Vec<Key>, AllocError>
        requires whole { IsWhole self.now }
        ensures { IfOk result (λ keys. (records : List Record) → NodeKeeps records self.now → map key_seen keys.items ≡ keys_within most room self.now.store.own to (node_seen self.now) records) }
    {
        let mut keys = self.due_keys(alloc, to)?;
        let count = self.count_within(to, &keys, most, u128::from(room));
        keys.truncate(count);
        Ok(keys)
    }
}
