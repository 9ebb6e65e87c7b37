// Which rows an install keeps.
ghost use Rattle.std.specs.Prelude.{◌≡◌, ◌&&◌, true, cond, ℕ, Some, None};
ghost use Rattle.std.specs.Option.{option_copied};
ghost use Rattle.mail_map.specs.Rows.{row_of_teller};
ghost use Rattle.mail_map.specs.Installs.{was_managed_by, comes, stays};

use crate::teller::Teller;
use mail_base::{EpochId, Member, Name, NodeNo, Row, UserMap};
use std::collections::BTreeMap;
use user_map::manages;

// Whether the node managed the user by the map that it had, if any.
fn managed(map: Option<&UserMap>, node: NodeNo, user: &Name) -> bool
    ensures { result ≡ was_managed_by (option_copied map.entry) node user.now }
{
    match map {
        Some(map) => manages(map, node, user),
        None => false,
    }
}

// Whether the node is a member in that boot and comes from that epoch.
fn comes(members: &[Member], teller: Teller, was: EpochId) -> bool
    ensures { result ≡ comes members.now teller.node teller.boot was }
{
    for member in members {
        if member.node == teller.node {
            return member.boot == teller.boot && member.was == was;
        }
    }
    false
}

// Keeps the rows of those who come from that epoch.
fn keep_rows(rows: &mut BTreeMap<Teller, Row>, members: &[Member], was: EpochId)
    ensures { (n boot : ℕ) → row_of_teller (Some rows.new) n boot ≡ cond (comes members.now n boot was) (row_of_teller (Some rows.old) n boot) None }
{
    rows.retain(|teller, _| comes(members, *teller, was));
}

fn has_none(rows: &BTreeMap<Teller, Row>) -> bool
    ensures { result ≡ true → (n boot : ℕ) → row_of_teller (Some rows.now) n boot ≡ None }
{
    rows.is_empty()
}

// Keeps the user's rows that stay; false where none does.
pub(crate) fn keep_user(
    own: NodeNo,
    old: Option<&UserMap>,
    new: &UserMap,
    was: EpochId,
    members: &[Member],
    user: &Name,
    rows: &mut BTreeMap<Teller, Row>,
) -> bool
    ensures { (n boot : ℕ) → row_of_teller (cond result (Some rows.new) None) n boot ≡ cond (stays own (option_copied old.entry) new.now was members.now n boot user.now) (row_of_teller (Some rows.old) n boot) None }
{
    if !(managed(old, own, user) && manages(new, own, user)) {
        return false;
    }
    keep_rows(rows, members, was);
    !has_none(rows)
}
