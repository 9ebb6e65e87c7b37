// The version of each user's row.
ghost use Rattle.std.specs.Prelude.{◌≡◌, List, ℕ, OnOk, OnErr};
ghost use Rattle.std.specs.Ordering.{nat_cmp};
ghost use Rattle.std.specs.Cmp.Lexicographic.{slice_cmp};
ghost use Rattle.std.specs.BTreeMap as tree;
ghost use Rattle.maps_model.specs.Rules.{set_at};
ghost use Rattle.map_rebuild.specs.Rows.{version_at};

use mail_base::Name;
use std::alloc::AllocError;
use std::collections::BTreeMap;

// The user's version, 0 where there is none.
pub(crate) fn version_in(versions: &BTreeMap<Name, u64>, user: &Name) -> u64
    ensures { result ≡ version_at (tree.get (slice_cmp nat_cmp) versions.now user.now) }
{
    versions.get(user).copied().unwrap_or(0)
}

// Puts the version in place of the user's.
pub(crate) fn set_version(
    versions: &mut BTreeMap<Name, u64>,
    user: &Name,
    version: u64,
) -> Result<(), AllocError>
    ensures ok { OnOk result ((other : List ℕ) → version_at (tree.get (slice_cmp nat_cmp) versions.new other) ≡ set_at (λ u. version_at (tree.get (slice_cmp nat_cmp) versions.old u)) user.now version other) }
    ensures err { OnErr result (versions.new.entries ≡ versions.old.entries) }
{
    versions.insert(user.copy()?, version)?;
    Ok(())
}
