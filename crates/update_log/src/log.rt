//! The update log of a node.
ghost use Rattle.std.specs.Prelude.{◌≡◌, cond, map, take, Some, None, IsSome, IfOk, OnOk, OnErr};
ghost use Rattle.std.specs.Option.{option_copied};
ghost use Rattle.std.specs.List.{list_any};
ghost use Rattle.std.specs.FinMap as fin;
ghost use Rattle.std.specs.BTreeMap as tree;
ghost use Rattle.object_model.specs.UpdateLog.{noted, acknowledged, retired, is_of, owes, due};
ghost use Rattle.object_model.specs.Sets.{has};
ghost use Rattle.mail_base.specs.Seen.{key_seen};
ghost use Rattle.mail_base.specs.KeyOrder.{seen_cmp};
ghost use Rattle.update_log.specs.Answers.{answer_at};
ghost use Rattle.update_log.specs.Dues.{due_of};

use crate::logged::{Acked, Logged};
use mail_base::{Key, NodeNo, ObjState};
use std::alloc::{AllocError, Global};
use std::collections::BTreeMap;
use std::marker::Model;

/// For each object the state that is to reach its targets, and those that have not acknowledged it. A contract sees the
/// finite map from keys to entries.
#[derive(Drop)]
pub struct UpdateLog {
    entries: BTreeMap<Key, Logged>,
}

impl Model for UpdateLog {
    ghost use Rattle.std.specs.FinMap as fin;
    ghost use Rattle.object_model.specs.Keys.{key_cmp};
    ghost use Rattle.object_model.specs.UpdateLog.{Logged as Seen};
    ghost use Rattle.update_log.specs.Codes.{log_code};
    ghost use Rattle.mail_base.specs.KeyMaps.{map_seen};

    ghost Value = { fin.FinMap key_cmp Seen };

    ghost coded = { log_code };

    ghost view = { λ l. map_seen l.entries.entries };
}

// Puts the entry under the key.
fn put(entries: &mut BTreeMap<Key, Logged>, key: Key, entry: Logged) -> Result<(), AllocError>
    ensures ok { OnOk result ((other : Key) → tree.get seen_cmp entries.new other ≡ cond (tree.is_at (seen_cmp key) other) (Some entry) (tree.get seen_cmp entries.old other)) }
    ensures err { OnErr result (entries.new.entries ≡ entries.old.entries) }
{
    entries.insert(key, entry)?;
    Ok(())
}

fn set(here: &mut Logged, entry: Logged)
    ensures { here.new ≡ entry }
{
    *here = entry;
}

fn take_out(entries: &mut BTreeMap<Key, Logged>, key: &Key)
    ensures { (other : Key) → tree.get seen_cmp entries.new other ≡ cond (tree.is_at (seen_cmp key.now) other) None (tree.get seen_cmp entries.old other) }
{
    entries.remove(key);
}

// The keys of the first entries in which the node remains, as many as are wanted.
fn due_in(
    entries: &BTreeMap<Key, Logged>,
    alloc: Global,
    to: NodeNo,
    most: usize,
) -> Result<Vec<Key>, AllocError>
    ensures keys { IfOk result (λ keys. map key_seen keys.items ≡ take most (due_of to entries.now.entries)) }
    ensures ordered { tree.IsOrdered seen_cmp entries.now }
{
    let mut keys = Vec::new(alloc);
    for (key, entry) in entries.iter() {
        if keys.len() == most {
            break;
        }
        if entry.owes(to) {
            keys.push(key.copy()?)?;
        }
    }
    Ok(keys)
}

// Whether the node remains in one of these.
fn any_owes(entries: &BTreeMap<Key, Logged>, to: NodeNo) -> bool
    ensures any { result ≡ list_any (λ entry. has entry.remaining to) (tree.values entries.now) }
    ensures ordered { tree.IsOrdered seen_cmp entries.now }
{
    entries.values().any(|entry| entry.owes(to))
}

impl UpdateLog {
    /// A log without entries. It takes no memory.
    pub fn new(alloc: Global) -> UpdateLog
        ensures { result ≡ fin.empty }
    {
        UpdateLog {
            entries: BTreeMap::new(alloc),
        }
    }

    /// The entry of the object. It takes no memory, and time logarithmic in the number of entries.
    pub fn entry(&self, key: &Key) -> Option<&Logged>
        ensures { option_copied result ≡ fin.get self.now (key_seen key.now) }
    {
        self.entries.get(key)
    }

    /// Notes the state: all its targets but the own node remain. An entry that stood of the object is replaced. It takes
    /// time logarithmic in the number of entries.
    ///
    /// # Errors
    ///
    /// Out of memory alone; the log is then as before.
    pub fn note(&mut self, key: &Key, state: &ObjState, own: NodeNo) -> Result<(), AllocError>
        ensures ok { OnOk result (self.new ≡ noted own (key_seen key.now) state.now self.old) }
        ensures err { OnErr result (self.new ≡ self.old) }
    {
        let entry = Logged::new(state.copy()?, own);
        put(&mut self.entries, key.copy()?, entry)
    }

    /// Notes the state of an object that has an entry. It takes no memory, and time logarithmic in the number of entries.
    pub fn note_again(&mut self, key: &Key, state: ObjState, own: NodeNo)
        requires { IsSome (fin.get self.old (key_seen key.now)) }
        ensures { self.new ≡ noted own (key_seen key.now) state self.old }
    {
        match self.entries.get_mut(key) {
            Some(here) => {
                let entry = Logged::new(state, own);
                set(here, entry)
            }
            None => unreachable!(),
        }
    }

    /// The first keys, in the order of keys and as many as are wanted, of the entries in which the node remains.
    ///
    /// It goes through the entries in the order of their keys, and stops once it has found so many: the time grows with the
    /// number of entries up to the last key that it gives, or with that of all where there are fewer. What it gives is copied.
    ///
    /// # Errors
    ///
    /// Out of memory alone.
    pub fn due(&self, alloc: Global, to: NodeNo, most: usize) -> Result<Vec<Key>, AllocError>
        ensures { IfOk result (λ keys. map key_seen keys.items ≡ due self.now to most) }
    {
        due_in(&self.entries, alloc, to, most)
    }

    /// Whether the node remains in some entry. It takes no memory, and stops at the first such entry.
    pub fn owes(&self, to: NodeNo) -> bool
        ensures { result ≡ owes self.now to }
    {
        any_owes(&self.entries, to)
    }

    /// The node has acknowledged the state: it is taken out of an entry of that very state. It takes no memory, and time
    /// logarithmic in the number of entries.
    pub fn acknowledged(&mut self, key: &Key, state: &ObjState, by: NodeNo) -> Acked
        ensures log { self.new ≡ acknowledged (key_seen key.now) state.now by self.old }
        ensures answer { result ≡ answer_at state.now by (fin.get self.old (key_seen key.now)) }
    {
        match self.entries.get_mut(key) {
            Some(entry) => entry.acknowledge(state, by),
            None => Acked::Other,
        }
    }

    // Whether the entry of the object is of that very state.
    fn is_of(&self, key: &Key, state: &ObjState) -> bool
        ensures { result ≡ is_of state.now (fin.get self.now (key_seen key.now)) }
    {
        match self.entry(key) {
            Some(entry) => entry.is_of(state),
            None => false,
        }
    }

    /// Takes the entry of the object out, whatever its state. It takes no memory, and time logarithmic in the number of
    /// entries.
    pub fn forget(&mut self, key: &Key)
        ensures { self.new ≡ fin.remove self.old (key_seen key.now) }
    {
        take_out(&mut self.entries, key);
    }

    /// Takes the entry of that very state out; false exactly where none stands. It takes no memory, and time logarithmic in
    /// the number of entries.
    pub fn retire(&mut self, key: &Key, state: &ObjState) -> bool
        ensures log { self.new ≡ retired (key_seen key.now) state.now self.old }
        ensures stood { result ≡ is_of state.now (fin.get self.old (key_seen key.now)) }
    {
        if !self.is_of(key, state) {
            return false;
        }
        self.forget(key);
        true
    }
}
