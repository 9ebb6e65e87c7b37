// The messages of each user that are here.
ghost use Rattle.std.specs.Prelude.{◌≡◌, [], List, ℕ, true, false, Some, None, IfOk, OnOk, OnErr};
ghost use Rattle.std.specs.Ordering.{nat_cmp};
ghost use Rattle.std.specs.Cmp.Lexicographic.{slice_cmp};
ghost use Rattle.std.specs.List.Sorted.{IsStrictlySortedBy};
ghost use Rattle.std.specs.BTreeSet as set;
ghost use Rattle.std.specs.BTreeMap as tree;
ghost use Rattle.mail_base.specs.Orders.{id_cmp};
ghost use Rattle.mailbox_fragment.specs.Here.{ids_of, is_none, is_empty, SetsMessage, HasSameMessages, flips, AreIdsOf, full_in, AreUsersOf};

use mail_base::{Ids, MsgId, Name, Names};
use std::alloc::{AllocError, Global};
use std::collections::{BTreeMap, BTreeSet};

/// For each user the ids of the messages that are here.
#[derive(Drop)]
pub struct Fragments {
    alloc: Global,
    users: BTreeMap<Name, BTreeSet<MsgId>>,
}

// Puts the id among these.
fn add_id(ids: &mut BTreeSet<MsgId>, id: MsgId) -> Result<(), AllocError>
    ensures added { OnOk result (set.Updates id_cmp ids.old ids.new id true) }
    ensures err { OnErr result (ids.new.keys ≡ ids.old.keys) }
{
    ids.insert(id)?;
    Ok(())
}

// Takes the id out.
fn take_id(ids: &mut BTreeSet<MsgId>, id: MsgId)
    ensures { set.Updates id_cmp ids.old ids.new id false }
{
    ids.remove(&id);
}

// These ids in order.
fn listed(alloc: Global, ids: &BTreeSet<MsgId>) -> Result<Ids, AllocError>
    ensures same { IfOk result (λ listed. listed ≡ ids.now.keys) }
    ensures ordered { IsStrictlySortedBy id_cmp ids.now.keys }
{
    let mut listed = Ids::new(alloc);
    for id in ids.iter() {
        listed.push(*id)?;
    }
    Ok(listed)
}

// The users of whom a message is here.
fn full_users(alloc: Global, users: &BTreeMap<Name, BTreeSet<MsgId>>) -> Result<Names, AllocError>
    ensures names { IfOk result (λ names. names ≡ full_in users.now.entries) }
    ensures ordered { tree.IsOrdered (slice_cmp nat_cmp) users.now }
{
    let mut full = Names::new(alloc);
    for (user, ids) in users.iter() {
        if !has_none(ids) {
            full.push(user.copy()?)?;
        }
    }
    Ok(full)
}

fn has_none(ids: &BTreeSet<MsgId>) -> bool
    ensures { result ≡ is_none ids.now.keys }
{
    ids.is_empty()
}

impl Fragments {
    /// No messages of any user. It takes no memory.
    pub fn new(alloc: Global) -> Fragments
        ensures { (user : List ℕ) → ids_of result user ≡ [] }
    {
        Fragments {
            alloc,
            users: BTreeMap::new(alloc),
        }
    }

    /// Whether no message of the user is here. It takes no memory.
    pub fn is_empty(&self, user: &Name) -> bool
        ensures { result ≡ is_empty self.now user.now }
    {
        match self.users.get(user) {
            Some(ids) => has_none(ids),
            None => true,
        }
    }

    // Begins the user's messages with this one. The user has none so far.
    fn begin(&mut self, user: &Name, id: MsgId) -> Result<(), AllocError>
        requires { tree.get (slice_cmp nat_cmp) self.old.users user.now ≡ None }
        ensures ok { OnOk result (SetsMessage self.old self.new user.now id true) }
        ensures err { OnErr result (HasSameMessages self.old self.new) }
    {
        let mut first = BTreeSet::new(self.alloc);
        first.insert(id)?;
        self.users.insert(user.copy()?, first)?;
        Ok(())
    }

    // Notes that the message is here.
    fn add(&mut self, user: &Name, id: MsgId) -> Result<(), AllocError>
        ensures ok { OnOk result (SetsMessage self.old self.new user.now id true) }
        ensures err { OnErr result (HasSameMessages self.old self.new) }
    {
        match self.users.get_mut(user) {
            Some(ids) => add_id(ids, id),
            None => self.begin(user, id),
        }
    }

    // Notes that the message is not here.
    fn take_out(&mut self, user: &Name, id: MsgId)
        ensures { SetsMessage self.old self.new user.now id false }
    {
        if let Some(ids) = self.users.get_mut(user) {
            take_id(ids, id);
        }
    }

    // Forgets a user without messages, so that a mailbox that was emptied costs no room.
    fn forget_empty(&mut self, user: &Name)
        ensures { HasSameMessages self.old self.new }
    {
        if self.is_empty(user) {
            self.users.remove(user);
        }
    }

    /// Notes whether the user's message is here; true exactly where the user became full or empty.
    ///
    /// # Errors
    ///
    /// Only out of memory, where a message comes to be here; all is then as before.
    pub fn set(&mut self, user: &Name, id: MsgId, here: bool) -> Result<bool, AllocError>
        ensures here { OnOk result (SetsMessage self.old self.new user.now id here) }
        ensures flipped { IfOk result (λ flipped. flipped ≡ flips self.old self.new user.now) }
        ensures err { OnErr result (HasSameMessages self.old self.new) }
    {
        let was_empty = self.is_empty(user);
        if here {
            self.add(user, id)?;
        } else {
            self.take_out(user, id);
            self.forget_empty(user);
        }
        Ok(was_empty != self.is_empty(user))
    }

    /// The ids of the user's messages that are here, by node, boot and number. It takes time in their number.
    ///
    /// # Errors
    ///
    /// Only out of memory.
    pub fn list(&self, user: &Name) -> Result<Ids, AllocError>
        ensures { IfOk result (λ ids. AreIdsOf ids self.now user.now) }
    {
        match self.users.get(user) {
            Some(ids) => listed(self.alloc, ids),
            None => Ok(Ids::new(self.alloc)),
        }
    }

    /// The users of whom a message is here, in the order of their names. It takes time in the number of users.
    ///
    /// # Errors
    ///
    /// Only out of memory.
    pub fn users(&self) -> Result<Names, AllocError>
        ensures { IfOk result (λ users. AreUsersOf users self.now) }
    {
        let users = full_users(self.alloc, &self.users)?;
        Ok(users)
    }
}
