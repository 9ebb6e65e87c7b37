// The rows of one user.
ghost use Rattle.std.specs.Prelude.{◌≡◌, ◌&&◌, cond, ℕ, nat_eq, Some, None, OnOk, OnErr};
ghost use Rattle.std.specs.List.{list_any};
ghost use Rattle.object_model.specs.Sets.{has};
ghost use Rattle.maps_model.specs.Cluster.{is_full};
ghost use Rattle.mail_map.specs.Tellers.{Teller};
ghost use Rattle.mail_map.specs.Rows.{row_of_teller, is_older};

use crate::teller::Teller;
use mail_base::{Member, NodeSet, Row};
use std::alloc::AllocError;
use std::collections::BTreeMap;

// Puts the row in place of its teller's.
pub(crate) fn put(rows: &mut BTreeMap<Teller, Row>, row: Row) -> Result<(), AllocError>
    ensures ok { OnOk result ((n boot : ℕ) → row_of_teller (Some rows.new) n boot ≡ cond (nat_eq n row.node && nat_eq boot row.boot) (Some row) (row_of_teller (Some rows.old) n boot)) }
    ensures err { OnErr result (rows.new.entries ≡ rows.old.entries) }
{
    rows.insert(Teller::new(row.node, row.boot), row)?;
    Ok(())
}

// Whether a row is older than the one that stands of its teller.
pub(crate) fn has_newer(rows: &BTreeMap<Teller, Row>, row: &Row) -> bool
    ensures { result ≡ is_older (row_of_teller (Some rows.now) row.now.node row.now.boot) row.now.version }
{
    match rows.get(&Teller::new(row.node, row.boot)) {
        Some(stood) => row.version < stood.version,
        None => false,
    }
}

// Whether the member has a row that says full.
fn says_full(rows: &BTreeMap<Teller, Row>, member: Member) -> bool
    ensures { result ≡ is_full (row_of_teller (Some rows.now) member.node member.boot) }
{
    match rows.get(&Teller::new(member.node, member.boot)) {
        Some(row) => row.full,
        None => false,
    }
}

// The members with a row that says full.
pub(crate) fn named_in(rows: &BTreeMap<Teller, Row>, members: &[Member]) -> NodeSet
    ensures { (n : ℕ) → has result n ≡ list_any (λ member. nat_eq n member.node && is_full (row_of_teller (Some rows.now) member.node member.boot)) members.now }
{
    let mut named = NodeSet::empty();
    for member in members {
        if says_full(rows, *member) {
            named = named.with(member.node);
        }
    }
    named
}
