//! A table of states by key.
ghost use Rattle.std.specs.Prelude.{◌≡◌, IsSome, IfOk, IfSome, OnOk, OnErr};
ghost use Rattle.std.specs.Option.{option_copied};
ghost use Rattle.std.specs.FinMap as fin;
ghost use Rattle.mail_model.specs.Identity.Key.{Profile};
ghost use Rattle.mail_model.specs.Grammar.{IsOfKind};
ghost use Rattle.mail_base.specs.Seen.{key_seen};
ghost use Rattle.object_table.specs.Tables.{taken, AreUsers};
ghost use Rattle.object_table.specs.Outcomes.{outcome};

use crate::joins::is_news;
use crate::states::States;
use crate::user_keys::UserKeys;
use mail_base::{Key, Name, Names, ObjState};
use std::alloc::{AllocError, Global};
use std::marker::Model;

/// What taking a state did.
#[derive(Clone, Copy, Debug, PartialEq, Eq)]
pub enum Taken {
    /// Nothing stood, or the join is another state than stood.
    Newer,
    /// The very same state stood.
    Same,
    /// Another state stood, and the join is that one: the state has nothing new.
    Older,
}

/// For each object the join of all states of it that were taken. A contract sees the finite map from keys to states.
///
/// Each state is of its key's kind: a profile has a secret, and a message is here or gone.
#[derive(Drop)]
pub struct ObjectTable {
    pub(crate) states: States,
    users: UserKeys,
}

impl Model for ObjectTable {
    ghost use Rattle.std.specs.FinMap as fin;
    ghost use Rattle.object_model.specs.Keys.{key_cmp};
    ghost use Rattle.mail_model.specs.Identity.{State};
    ghost use Rattle.object_table.specs.Codes.{table_code};
    ghost use Rattle.object_table.specs.Users.{IsIndexed};

    ghost Value = { fin.FinMap key_cmp State };

    ghost coded = { table_code };

    ghost view = { λ t. t.states };

    ghost invariant = { λ t. IsIndexed t.states t.users };
}

// What becomes of a table that has this, as it takes the state.
fn judged(held: Option<&ObjState>, state: &ObjState) -> Taken
    ensures { result ≡ outcome (option_copied held.entry) state.now }
{
    match held {
        None => Taken::Newer,
        Some(held) => {
            if is_news(held, state) {
                Taken::Newer
            } else if held.is_same(state) {
                Taken::Same
            } else {
                Taken::Older
            }
        }
    }
}

impl ObjectTable {
    /// A table that holds nothing. It takes no memory.
    pub fn new(alloc: Global) -> ObjectTable
        ensures { result ≡ fin.empty }
    {
        ObjectTable {
            states: States::new(alloc),
            users: UserKeys::new(alloc),
        }
    }

    /// What stands of the object. It takes no memory, and time logarithmic in the number of objects.
    pub fn state(&self, key: &Key) -> Option<&ObjState>
        ensures value { option_copied result ≡ fin.get self.now (key_seen key.now) }
        ensures kind { IfSome result (λ state. IsOfKind (key_seen key.now) state.now.value) }
    {
        self.states.get(key)
    }

    /// What stands of the user's profile. It takes no memory, and time logarithmic in the number of objects.
    pub fn profile(&self, user: &Name) -> Option<&ObjState>
        ensures value { option_copied result ≡ fin.get self.now (Profile user.now) }
        ensures kind { IfSome result (λ state. IsOfKind (Profile user.now) state.now.value) }
    {
        match self.users.key(user) {
            Some(key) => self.states.get(key),
            None => None,
        }
    }

    /// The users of whom something stands, each once, in the order of their names. It takes time in their number alone.
    ///
    /// # Errors
    ///
    /// Out of memory alone.
    pub fn users(&self, alloc: Global) -> Result<Names, AllocError>
        ensures { IfOk result (λ names. AreUsers names self.now) }
    {
        self.users.names(alloc)
    }

    /// Joins the state to what stands of the object. It takes time logarithmic in the number of objects.
    ///
    /// # Errors
    ///
    /// Out of memory alone; the table is then as before.
    pub fn take(&mut self, key: &Key, state: &ObjState) -> Result<Taken, AllocError>
        requires { IsOfKind (key_seen key.now) state.now.value }
        ensures taken { OnOk result (self.new ≡ taken (key_seen key.now) state.now self.old) }
        ensures answer { IfOk result (λ became. became ≡ outcome (fin.get self.old (key_seen key.now)) state.now) }
        ensures err { OnErr result (self.new ≡ self.old) }
    {
        let became = judged(self.states.get(key), state);
        match became {
            Taken::Same => Ok(Taken::Same),
            Taken::Older => Ok(Taken::Older),
            Taken::Newer => {
                let fresh = self.users.add(key.user())?;
                match self.states.take(key, state) {
                    Ok(()) => Ok(Taken::Newer),
                    Err(refused) => {
                        if fresh {
                            self.users.remove(key.user());
                        }
                        Err(refused)
                    }
                }
            }
        }
    }

    /// Puts the state in place of the one that stands of the object. It takes no memory, so a caller that has made a join
    /// beforehand is not refused. It takes time logarithmic in the number of objects.
    pub fn replace(&mut self, key: &Key, state: ObjState)
        requires stands { IsSome (fin.get self.old (key_seen key.now)) }
        requires kind { IsOfKind (key_seen key.now) state.value }
        ensures { self.new ≡ fin.insert self.old (key_seen key.now) state }
    {
        self.states.replace(key, state);
    }
}
