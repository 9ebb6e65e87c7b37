// The greatest profile among the rows of one user.
ghost use Rattle.std.specs.Prelude.{◌≡◌, None, fold};
ghost use Rattle.std.specs.Option.{option_copied, option_map};
ghost use Rattle.std.specs.BTreeMap as tree;
ghost use Rattle.mail_map.specs.Tellers.{teller_cmp};
ghost use Rattle.mail_map.specs.Profiles.{is_above, greater_of, profile_in};

use crate::teller::Teller;
use mail_base::{Row, Secret, Stamp};
use std::collections::BTreeMap;

// Whether the row's profile is above that of the other: a later stamp, or a greater secret at one stamp.
fn is_above(row: &Row, other: &Row) -> bool
    ensures { result ≡ is_above row.now.profile other.now.profile }
{
    match &row.profile {
        Some((stamp, secret)) => match &other.profile {
            Some((held, kept)) => stamp.cmp(held).then(secret.compare(kept)).is_gt(),
            None => true,
        },
        None => false,
    }
}

// The row of the greater profile.
fn greater<'a>(found: Option<&'a Row>, row: &'a Row) -> Option<&'a Row>
    ensures { option_copied result ≡ greater_of (option_copied found.entry) row.now }
{
    match found {
        Some(held) => {
            if is_above(row, held) {
                Some(row)
            } else {
                Some(held)
            }
        }
        None => Some(row),
    }
}

// The row of the greatest profile.
fn greatest_row(rows: &BTreeMap<Teller, Row>) -> Option<&Row>
    ensures row { option_copied result ≡ fold greater_of None (tree.values rows.now) }
    ensures ordered { tree.IsOrdered teller_cmp rows.now }
{
    let mut found = None;
    for row in rows.values() {
        found = greater(found, row);
    }
    found
}

// The row's profile.
fn profile_of(row: &Row) -> Option<(Stamp, &Secret)>
    ensures { option_map (λ p. (p.0, p.1.now)) result ≡ row.now.profile }
{
    match &row.profile {
        Some((stamp, secret)) => Some((*stamp, secret)),
        None => None,
    }
}

pub(crate) fn greatest_profile(rows: &BTreeMap<Teller, Row>) -> Option<(Stamp, &Secret)>
    ensures profile { option_map (λ p. (p.0, p.1.now)) result ≡ profile_in (fold greater_of None (tree.values rows.now)) }
    ensures ordered { tree.IsOrdered teller_cmp rows.now }
{
    match greatest_row(rows) {
        Some(row) => profile_of(row),
        None => None,
    }
}
