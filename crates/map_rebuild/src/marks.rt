// The users that are marked.
ghost use Rattle.std.specs.Prelude.{◌≡◌, ◌≤◌, ◌+◌, ◌||◌, ◌&&◌, true, false, not, List, ℕ, length, take, IfOk, OnOk, OnErr};
ghost use Rattle.std.specs.Ordering.{nat_cmp};
ghost use Rattle.std.specs.Cmp.Lexicographic.{slice_cmp};
ghost use Rattle.std.specs.List.{filter, list_any};
ghost use Rattle.std.specs.List.Sorted.{IsStrictlySortedBy};
ghost use Rattle.maps_model.specs.Rules.{set_at};
ghost use Rattle.user_map.specs.Managers.{is_managed_by};
ghost use Rattle.map_rebuild.specs.Users.{has_user};

use mail_base::{Name, Names, NodeNo, UserMap};
use std::alloc::{AllocError, Global};
use std::collections::BTreeSet;
use user_map::manages;

pub(crate) fn has(marked: &BTreeSet<Name>, user: &Name) -> bool
    ensures { result ≡ has_user marked.now.keys user.now }
{
    marked.contains(user)
}

// Puts the user in; true where the user is new.
pub(crate) fn put(marked: &mut BTreeSet<Name>, user: &Name) -> Result<bool, AllocError>
    ensures fresh { IfOk result (λ fresh. fresh ≡ not (has_user marked.old.keys user.now)) }
    ensures ok { OnOk result ((other : List ℕ) → has_user marked.new.keys other ≡ set_at (has_user marked.old.keys) user.now true other) }
    ensures more { length marked.old.keys ≤ length marked.new.keys }
    ensures few { length marked.new.keys ≤ length marked.old.keys + 1 }
    ensures err { OnErr result (marked.new.keys ≡ marked.old.keys) }
{
    Ok(marked.insert(user.copy()?)?)
}

// Takes the user out.
pub(crate) fn take_out(marked: &mut BTreeSet<Name>, user: &Name)
    ensures { (other : List ℕ) → has_user marked.new.keys other ≡ set_at (has_user marked.old.keys) user.now false other }
{
    marked.remove(user);
}

// Those of the users that are not marked.
fn unmarked(alloc: Global, marked: &BTreeSet<Name>, users: &[Name]) -> Result<Vec<Name>, AllocError>
    ensures those { IfOk result (λ fresh. fresh.items ≡ filter (λ user. not (has_user marked.now.keys user)) users.now) }
    ensures few { IfOk result (λ fresh. length fresh.items ≤ length users.now) }
{
    let mut fresh = Vec::new(alloc);
    for user in users {
        if !has(marked, user) {
            fresh.push(user.copy()?)?;
        }
    }
    Ok(fresh)
}

// Puts each of the users in. Where memory ran out, some of them may be in.
fn put_each(marked: &mut BTreeSet<Name>, users: &[Name]) -> Result<(), AllocError>
    ensures all { OnOk result ((user : List ℕ) → has_user marked.new.keys user ≡ (has_user marked.old.keys user || has_user users.now user)) }
    ensures more { length marked.old.keys ≤ length marked.new.keys }
    ensures few { length marked.new.keys ≤ length marked.old.keys + length users.now }
    ensures others { (user : List ℕ) → has_user users.now user ≡ false → has_user marked.new.keys user ≡ has_user marked.old.keys user }
{
    for user in users {
        put(marked, user)?;
    }
    Ok(())
}

// Takes each of the users out.
fn take_each(marked: &mut BTreeSet<Name>, users: &[Name])
    ensures { (user : List ℕ) → has_user marked.new.keys user ≡ (has_user marked.old.keys user && not (has_user users.now user)) }
{
    for user in users {
        take_out(marked, user);
    }
}

// Puts all of the users in, or none. Only those that are new are taken out again.
pub(crate) fn put_all(
    alloc: Global,
    marked: &mut BTreeSet<Name>,
    users: &[Name],
) -> Result<(), AllocError>
    ensures all { OnOk result ((user : List ℕ) → has_user marked.new.keys user ≡ (has_user marked.old.keys user || has_user users.now user)) }
    ensures more { OnOk result (length marked.old.keys ≤ length marked.new.keys) }
    ensures few { OnOk result (length marked.new.keys ≤ length marked.old.keys + length users.now) }
    ensures err { OnErr result ((user : List ℕ) → has_user marked.new.keys user ≡ has_user marked.old.keys user) }
{
    let fresh = unmarked(alloc, marked, users)?;
    match put_each(marked, &fresh) {
        Ok(()) => Ok(()),
        Err(refused) => {
            take_each(marked, &fresh);
            Err(refused)
        }
    }
}

// The first users, as many as are wanted, whom the node manages.
pub(crate) fn due_in(
    marked: &BTreeSet<Name>,
    alloc: Global,
    map: &UserMap,
    to: NodeNo,
    most: usize,
) -> Result<Names, AllocError>
    ensures users { IfOk result (λ users. users ≡ take most (filter (is_managed_by map.now to) marked.now.keys)) }
    ensures ordered { IsStrictlySortedBy (slice_cmp nat_cmp) marked.now.keys }
{
    let mut users = Names::new(alloc);
    for user in marked.iter() {
        if users.len() == most {
            break;
        }
        if manages(map, to, user) {
            users.push(user.copy()?)?;
        }
    }
    Ok(users)
}

// Whether one of them has this manager.
pub(crate) fn any_due_in(marked: &BTreeSet<Name>, map: &UserMap, to: NodeNo) -> bool
    ensures { result ≡ list_any (is_managed_by map.now to) marked.now.keys }
{
    marked.iter().any(|user| manages(map, to, user))
}
