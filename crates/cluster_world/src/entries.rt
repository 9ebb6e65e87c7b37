//! The entries of the book for a call that is confirmed.
ghost use Rattle.std.specs.Prelude.{◌≡◌, ◌++◌, ◌∷◌, [], map, IfOk, OnOk};
ghost use Rattle.mail_model.specs.Book.{BookEntry as plain};
ghost use Rattle.cluster_model.specs.Progress.{confirmed_entries, wants_entries};
ghost use Rattle.node_tickets.specs.Seen.{filing_seen};
ghost use Rattle.cluster_world.specs.Books.{entry_seen, entries_seen, acked_entry};
ghost use Rattle.cluster_world.specs.Installs.{install_in, installs_in};

use mail_base::{Filing, MsgId, Name, NodeSet};
use node_tickets::{Asked, Want};
use std::alloc::{AllocError, Global};
use world_book::Entry;

fn acked(filing: &Filing, user: &Name, confirmers: NodeSet) -> Result<Entry, AllocError>
    ensures seen { IfOk result (λ entry. entry_seen entry ≡ acked_entry (filing_seen filing.now) confirmers user.now ∷ []) }
    ensures installs { IfOk result (λ entry. install_in entry ≡ []) }
{
    let digest = filing.digest;
    Ok(Entry::Acked {
        user: user.copy()?,
        id: filing.id,
        seconds: filing.seconds,
        length: filing.length,
        digest,
        confirmers,
    })
}

fn dropped(user: &Name, id: MsgId, confirmers: NodeSet) -> Result<Entry, AllocError>
    ensures seen { IfOk result (λ entry. entry_seen entry ≡ plain.Dropped user.now id confirmers ∷ []) }
    ensures installs { IfOk result (λ entry. install_in entry ≡ []) }
{
    Ok(Entry::Dropped {
        user: user.copy()?,
        id,
        confirmers,
    })
}

// One entry for each user of the message.
fn add_acked(
    entries: &mut Vec<Entry>,
    filing: &Filing,
    confirmers: NodeSet,
) -> Result<(), AllocError>
    ensures seen { OnOk result (entries_seen entries.new.items ≡ entries_seen entries.old.items ++ map (acked_entry (filing_seen filing.now) confirmers) filing.now.users) }
    ensures installs { OnOk result (installs_in entries.new.items ≡ installs_in entries.old.items) }
{
    for user in filing.users.as_slice() {
        entries.push(acked(filing, user, confirmers)?)?;
    }
    Ok(())
}

fn add_dropped(
    entries: &mut Vec<Entry>,
    user: &Name,
    id: MsgId,
    confirmers: NodeSet,
) -> Result<(), AllocError>
    ensures seen { OnOk result (entries_seen entries.new.items ≡ entries_seen entries.old.items ++ plain.Dropped user.now id confirmers ∷ []) }
    ensures installs { OnOk result (installs_in entries.new.items ≡ installs_in entries.old.items) }
{
    entries.push(dropped(user, id, confirmers)?)?;
    Ok(())
}

fn add_want(entries: &mut Vec<Entry>, want: &Want) -> Result<(), AllocError>
    ensures seen { OnOk result (entries_seen entries.new.items ≡ entries_seen entries.old.items ++ confirmed_entries want.now want.now.asked) }
    ensures installs { OnOk result (installs_in entries.new.items ≡ installs_in entries.old.items) }
{
    let confirmers = want.confirmed();
    match want.asked() {
        Asked::Copies(filing) => add_acked(entries, filing, confirmers),
        Asked::Deletion { user, id } => add_dropped(entries, user, *id, confirmers),
    }
}

/// The entries of what is wanted, once all of it is confirmed: of a message one for each user, and one of each deletion.
pub(crate) fn entries_of(alloc: Global, wants: &[Want]) -> Result<Vec<Entry>, AllocError>
    ensures seen { IfOk result (λ entries. entries_seen entries.items ≡ wants_entries wants.now) }
    ensures installs { IfOk result (λ entries. installs_in entries.items ≡ []) }
{
    let mut entries = Vec::new(alloc);
    for want in wants {
        add_want(&mut entries, want)?;
    }
    Ok(entries)
}
