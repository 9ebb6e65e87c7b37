//! Calls that fail at once.
ghost use Rattle.std.specs.Prelude.{◌≡◌, max, nat_lt, nat_le, length};
ghost use Rattle.object_model.specs.Mishaps.{mishaps_of};
ghost use Rattle.cluster_model.specs.Steps.{end_of_dates};
ghost use Rattle.node_tickets.specs.Seen.{kind_seen, mishaps_seen};
ghost use Rattle.node_core.specs.Nodes.{IsWhole};
ghost use Rattle.node_core.specs.Failing.{RefusesCall, few_seen, late_seen};

use crate::fault::NodeFault;
use crate::letters::no_letters;
use crate::node::Node;
use crate::outbox::Outbox;
use call_tickets::Mishaps;
use mail_base::{CallKind, NodeNo, Ticket};
use std::alloc::Global;

/// What befalls a call for which there are too few members.
pub(crate) fn few_if(few: bool) -> Mishaps
    ensures { mishaps_seen result ≡ few_seen few }
{
    Mishaps {
        few_members: u64::from(few),
        year: 0,
        dropped: 0,
        stale: 0,
        down: 0,
        disk: 0,
        crowded: 0,
    }
}

/// What befalls a call that some members are asked for: one at least has to be there.
pub(crate) fn few_members(members: &[NodeNo], confirm: u8) -> Mishaps
    ensures { mishaps_seen result ≡ few_seen (nat_lt (length members.now) (max 1 confirm)) }
{
    few_if(members.len() < usize::from(confirm.max(1)))
}

/// The same of a delivery at these seconds.
pub(crate) fn few_members_or_late(members: &[NodeNo], confirm: u8, seconds: u64) -> Mishaps
    ensures { mishaps_seen result ≡ late_seen (nat_le end_of_dates seconds) (nat_lt (length members.now) (max 1 confirm)) }
{
    Mishaps {
        year: u64::from(seconds >= 253_402_300_800),
        ..few_members(members, confirm)
    }
}

/// Whether anything befell the call.
pub(crate) fn has_any(mishaps: &Mishaps) -> bool
    ensures { result ≡ (nat_lt 0 (mishaps_of (mishaps_seen mishaps.now))) }
{
    mishaps.few_members > 0
        || mishaps.year > 0
        || mishaps.dropped > 0
        || mishaps.stale > 0
        || mishaps.down > 0
        || mishaps.disk > 0
        || mishaps.crowded > 0
}

impl Node {
    /// Begins a call that fails at once.
    pub(crate) fn refuse(
        &mut self,
        alloc: Global,
        kind: CallKind,
        mishaps: Mishaps,
        ids: u64,
    ) -> Result<(Option<Ticket>, Outbox), NodeFault>
        requires whole { IsWhole self.old }
        ensures { RefusesCall (kind_seen kind) (mishaps_seen mishaps) ids result self.old self.new }
    {
        if self.numbers.lack_ids(ids) {
            return Err(NodeFault::Worn);
        }
        let ticket = self.next_ticket();
        self.tickets
            .open_failed(alloc, self.numbers.calls + 1, kind, mishaps)?;
        self.numbers.draw_ids(ids);
        Ok((Some(ticket), Outbox::sent(no_letters(alloc))))
    }
}
