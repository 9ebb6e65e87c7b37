// What stands under a ticket, and what its beginning found.
ghost use Rattle.std.specs.Prelude.{◌≡◌, Some};
ghost use Rattle.std.specs.Option.{option_copied};
ghost use Rattle.node_tickets.specs.Seen.{filing_seen};
ghost use Rattle.node_tickets.specs.Standing.{call_kind_seen, filed_seen};
ghost use Rattle.cluster_world.specs.Worlds.{CanMakeSteps};
ghost use Rattle.solo_desk.specs.Standing.{is_kind, same_filing, is_filed, may_file, stands_as_begun};

use call_tickets::DeskTicket;
use cluster_world::World;
use io_edge::Disk;
use mail_base::{Begun, CallKind, Filing};

// Whether the kind that was found is this.
fn is_kind(found: Option<CallKind>, kind: CallKind) -> bool
    ensures { result ≡ is_kind (call_kind_seen found) kind }
{
    match found {
        Some(CallKind::Deliver) => kind == CallKind::Deliver,
        Some(CallKind::Login) => kind == CallKind::Login,
        Some(CallKind::Fetch) => kind == CallKind::Fetch,
        Some(CallKind::Strike) => kind == CallKind::Strike,
        None => false,
    }
}

// Whether both are one filing.
fn same_filing(found: &Filing, filing: &Filing) -> bool
    ensures { result ≡ same_filing (filing_seen found.now) filing.now }
{
    found.id == filing.id
        && found.users.as_slice() == filing.users.as_slice()
        && found.seconds == filing.seconds
        && found.length == filing.length
        && found.digest == filing.digest
}

// Whether what was found is what was filed.
fn is_filed(found: Option<&Filing>, filed: &Option<Filing>) -> bool
    ensures { result ≡ is_filed (filed_seen (option_copied found.entry)) filed.now }
{
    match found {
        Some(found) => match filed {
            Some(filing) => same_filing(found, filing),
            None => false,
        },
        None => filed.is_none(),
    }
}

// Whether only a delivery files.
fn may_file(begun: &Begun) -> bool
    ensures { result ≡ may_file begun.now.kind begun.now.filing }
{
    begun.kind == CallKind::Deliver || begun.filing.is_none()
}

/// Whether what stands under the ticket is what its beginning found. Whoever asks may hold any ticket.
pub(crate) fn stands_as_begun<D: Disk>(world: &World<D>, ticket: &DeskTicket) -> bool
    requires { CanMakeSteps D.seen world.now }
    ensures { result ≡ stands_as_begun world.now ticket.now }
{
    is_kind(world.kind(&ticket.ticket), ticket.begun.kind)
        && is_filed(world.filing(&ticket.ticket), &ticket.begun.filing)
        && may_file(&ticket.begun)
}
