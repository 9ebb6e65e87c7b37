//! The states of a table by key.
ghost use Rattle.std.specs.Prelude.{◌≡◌, cond, Some, IsSome, IfOk, OnOk, OnErr};
ghost use Rattle.std.specs.Option.{option_copied};
ghost use Rattle.std.specs.FinMap as fin;
ghost use Rattle.std.specs.BTreeMap as tree;
ghost use Rattle.object_model.specs.States.{join_with};
ghost use Rattle.object_table.specs.Tables.{taken};
ghost use Rattle.mail_base.specs.Seen.{key_seen};
ghost use Rattle.mail_base.specs.KeyOrder.{seen_cmp};

use crate::joins::join;
use mail_base::{Key, ObjState};
use std::alloc::{AllocError, Global};
use std::collections::BTreeMap;
use std::marker::Model;

/// A state for each key. A contract sees the finite map.
#[derive(Drop)]
pub(crate) struct States {
    pub(crate) held: BTreeMap<Key, ObjState>,
}

impl Model for States {
    ghost use Rattle.std.specs.FinMap as fin;
    ghost use Rattle.object_model.specs.Keys.{key_cmp};
    ghost use Rattle.mail_model.specs.Identity.{State};
    ghost use Rattle.object_table.specs.Codes.{table_code};
    ghost use Rattle.mail_base.specs.KeyMaps.{map_seen};

    ghost Value = { fin.FinMap key_cmp State };

    ghost coded = { table_code };

    ghost view = { λ s. map_seen s.held.entries };
}

// The join of a state to what a map has at its key.
fn joined_at(
    held: &BTreeMap<Key, ObjState>,
    key: &Key,
    state: &ObjState,
) -> Result<ObjState, AllocError>
    ensures { IfOk result (λ next. next ≡ join_with (tree.get seen_cmp held.now key.now) state.now) }
{
    match held.get(key) {
        Some(here) => join(here, state),
        None => state.copy(),
    }
}

// Puts the state under the key.
fn put(held: &mut BTreeMap<Key, ObjState>, key: Key, state: ObjState) -> Result<(), AllocError>
    ensures ok { OnOk result ((other : Key) → tree.get seen_cmp held.new other ≡ cond (tree.is_at (seen_cmp key) other) (Some state) (tree.get seen_cmp held.old other)) }
    ensures err { OnErr result (held.new.entries ≡ held.old.entries) }
{
    held.insert(key, state)?;
    Ok(())
}

fn set(here: &mut ObjState, state: ObjState)
    ensures { here.new ≡ state }
{
    *here = state;
}

impl States {
    /// No states. It takes no memory.
    pub(crate) fn new(alloc: Global) -> States
        ensures { result ≡ fin.empty }
    {
        States {
            held: BTreeMap::new(alloc),
        }
    }

    /// The state of this key.
    pub(crate) fn get(&self, key: &Key) -> Option<&ObjState>
        ensures { option_copied result ≡ fin.get self.now (key_seen key.now) }
    {
        self.held.get(key)
    }

    /// Joins the state to that of its key.
    pub(crate) fn take(&mut self, key: &Key, state: &ObjState) -> Result<(), AllocError>
        ensures ok { OnOk result (self.new ≡ taken (key_seen key.now) state.now self.old) }
        ensures err { OnErr result (self.new ≡ self.old) }
    {
        let next = joined_at(&self.held, key, state)?;
        put(&mut self.held, key.copy()?, next)
    }

    /// Puts the state in place of that of its key. It takes no memory.
    pub(crate) fn replace(&mut self, key: &Key, state: ObjState)
        requires { IsSome (fin.get self.old (key_seen key.now)) }
        ensures { self.new ≡ fin.insert self.old (key_seen key.now) state }
    {
        match self.held.get_mut(key) {
            Some(here) => set(here, state),
            None => unreachable!(),
        }
    }
}
