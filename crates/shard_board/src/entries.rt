//! Entries of the book that are read.
ghost use Rattle.std.specs.Prelude.{◌≡◌, IfOk, slice_get};
ghost use Rattle.std.specs.List.{filter};
ghost use Rattle.std.specs.Option.{option_copied};
ghost use Rattle.cluster_world.specs.Books.{entries_seen};
ghost use Rattle.shard_board.specs.Entries.{is_shown, entry_shown};

use std::alloc::AllocError;
use world_book::Entry;

/// The entry once more.
///
/// # Errors
///
/// Out of memory alone.
pub(crate) fn copied(entry: &Entry) -> Result<Entry, AllocError>
    ensures { IfOk result (λ copy. copy ≡ entry.now) }
{
    match entry {
        Entry::Acked {
            user,
            id,
            seconds,
            length,
            digest,
            confirmers,
        } => Ok(Entry::Acked {
            user: user.copy()?,
            id: *id,
            seconds: *seconds,
            length: *length,
            digest: *digest,
            confirmers: *confirmers,
        }),
        Entry::Struck { user, id } => Ok(Entry::Struck {
            user: user.copy()?,
            id: *id,
        }),
        Entry::Dropped {
            user,
            id,
            confirmers,
        } => Ok(Entry::Dropped {
            user: user.copy()?,
            id: *id,
            confirmers: *confirmers,
        }),
        Entry::Installed { node, boot, epoch } => Ok(Entry::Installed {
            node: *node,
            boot: *boot,
            epoch: *epoch,
        }),
        Entry::Down { node } => Ok(Entry::Down { node: *node }),
        Entry::Up { node, boot } => Ok(Entry::Up {
            node: *node,
            boot: *boot,
        }),
        Entry::Lost { node } => Ok(Entry::Lost { node: *node }),
    }
}

// Whether the definitions have such an entry. Of an epoch that was installed they have none.
fn is_shown(entry: &Entry) -> bool
    ensures { result ≡ is_shown entry.now }
{
    !matches!(entry, Entry::Installed { .. })
}

// The entry at this place among those that are shown.
fn shown_at(entries: &[Entry], place: usize) -> Option<&Entry>
    ensures { option_copied result ≡ slice_get (filter is_shown entries.now) place }
{
    let mut left = place;
    for entry in entries {
        if is_shown(entry) {
            if left == 0 {
                return Some(entry);
            }
            left -= 1;
        }
    }
    None
}

#[tactic(auto, using(crate::proofs::Showing::shown_there))]
/// The entry at this place, counted from 0; none where the book has not so many.
pub(crate) fn entry_at(entries: &[Entry], place: usize) -> Option<&Entry>
    ensures { entry_shown (option_copied result) ≡ slice_get (entries_seen entries.now) place }
{
    shown_at(entries, place)
}
