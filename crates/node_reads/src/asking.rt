//! What an ask of a ticket gives.
ghost use Rattle.std.specs.Prelude.{◌≡◌, true, map, IfOk, OnErr};
ghost use Rattle.std.specs.FinMap as fin;
ghost use Rattle.told_lists.specs.Joining.{login_item};
ghost use Rattle.node_reads.specs.Asking.{CanEnd, AskedIn, EndsIn, done_at};
ghost use Rattle.node_reads.specs.Tables.{seen};

use crate::progress::ReadProgress;
use crate::reads::{get_in, take_out};
use call_tickets::Ask;
use mail_base::{Items, Ticket};
use std::alloc::{AllocError, Global};
use std::collections::BTreeMap;

// Takes out a ticket that is done, and gives its answer with this listing.
fn end_at(entries: &mut BTreeMap<u64, ReadProgress>, ticket: Ticket, items: Items) -> Option<Ask>
    requires { CanEnd (fin.get (seen entries.old.entries) ticket.seq) (map login_item items) }
    ensures { EndsIn ticket (seen entries.old.entries) (fin.get (seen entries.old.entries) ticket.seq) result (seen entries.new.entries) }
{
    match take_out(entries, ticket.seq) {
        Some(progress) => Some(Ask::Done(progress.into_answer(ticket, items))),
        None => None,
    }
}

/// How far the call of the ticket has come, or its answer; nothing exactly where the ticket does not stand.
///
/// # Errors
///
/// Out of memory alone, where the call is done; the tickets are then as before.
pub(crate) fn ask_at(
    entries: &mut BTreeMap<u64, ReadProgress>,
    alloc: Global,
    ticket: Ticket,
) -> Result<Option<Ask>, AllocError>
    ensures ok { IfOk result (λ ask. AskedIn ticket (seen entries.old.entries) (fin.get (seen entries.old.entries) ticket.seq) ask (seen entries.new.entries)) }
    ensures done { OnErr result (done_at (fin.get (seen entries.old.entries) ticket.seq) ≡ true) }
    ensures err { OnErr result (seen entries.new.entries ≡ seen entries.old.entries) }
{
    let Some(progress) = get_in(entries, ticket.seq) else {
        return Ok(None);
    };
    if let Some(ask) = progress.pending() {
        return Ok(Some(ask));
    }
    let items = progress.listing(alloc)?;
    Ok(end_at(entries, ticket, items))
}
