// The id of a message.
ghost use Rattle.std.specs.Prelude.{◌≡◌, ◌<◌, ◌||◌, nat_eq, refl, Some, None, IfOk, if◌then◌else◌, string_bytes};
ghost use Rattle.std.specs.Ordering.{as_partial_cmp, eq_by_cmp};
ghost use Rattle.std.specs.Cmp.{eq_by_cmp_equiv, partial_equiv_from_equiv, partial_order_from_total};
ghost use Rattle.mail_model.specs.Identity.{id_text};
ghost use Rattle.mail_base.specs.Orders.{id_cmp, id_total};

use crate::NodeNo;
use std::alloc::{AllocError, Global};
use std::cmp::Ordering;
use std::marker::Model;

/// The id of one SMTP transaction: its node, the boot of that node, and a number drawn in that boot.
///
/// The boot and the number are above 0. Ids are ordered by node, boot and number.
#[derive(Clone, Copy, Debug)]
pub struct MsgId {
    from: NodeNo,
    start: u32,
    drawn: u64,
}

impl Model for MsgId {
    ghost use Rattle.std.specs.Prelude.{◌<◌};
    ghost use Rattle.mail_model.specs.Identity.{Id};

    ghost Value = { Id };

    ghost view = { λ m. record { node = m.from; boot = m.start; seq = m.drawn } };

    ghost inverse = { λ i. record { from = i.node; start = i.boot; drawn = i.seq } };

    ghost invariant = { λ m. (0 < m.start) × (0 < m.drawn) };
}

fn text_of(alloc: Global, node: u8, boot: u32, seq: u64) -> Result<String, AllocError>
    ensures { IfOk result (λ text. string_bytes text ≡ id_text (record { node = node; boot = boot; seq = seq })) }
{
    format!(in alloc; "{node}.{boot}.{seq}")
}

impl MsgId {
    /// The id of these parts; nothing exactly where `boot` or `seq` is 0.
    pub fn new(node: NodeNo, boot: u32, seq: u64) -> Option<MsgId>
        ensures { result ≡ (if nat_eq boot 0 || nat_eq seq 0 then None else Some (record { node = node; boot = boot; seq = seq })) }
    {
        if boot == 0 || seq == 0 {
            return None;
        }
        Some(MsgId {
            from: node,
            start: boot,
            drawn: seq,
        })
    }

    /// The node that drew it.
    pub fn node(self) -> NodeNo
        ensures { result ≡ self.node }
    {
        self.from
    }

    /// The boot of the node, above 0.
    pub fn boot(self) -> u32
        ensures boot { result ≡ self.boot }
        ensures above { 0 < result }
    {
        self.start
    }

    /// The number that the node drew in that boot, above 0.
    pub fn seq(self) -> u64
        ensures seq { result ≡ self.seq }
        ensures above { 0 < result }
    {
        self.drawn
    }

    /// The text `node.boot.seq`, each in decimal.
    ///
    /// # Errors
    ///
    /// Out of memory alone.
    pub fn id_text(&self, alloc: Global) -> Result<String, AllocError>
        ensures { IfOk result (λ text. string_bytes text ≡ id_text self.now) }
    {
        text_of(alloc, self.from.number(), self.start, self.drawn)
    }
}

impl PartialEq for MsgId {
    ghost eq = { eq_by_cmp id_cmp };

    ghost laws = { partial_equiv_from_equiv (eq_by_cmp_equiv id_total) };

    fn eq(&self, other: &MsgId) -> bool {
        self.cmp(other).is_eq()
    }
}

impl Eq for MsgId {
    ghost laws = { eq_by_cmp_equiv id_total };
}

impl PartialOrd for MsgId {
    ghost partial_cmp = { as_partial_cmp id_cmp };

    ghost laws = { partial_order_from_total id_total };

    fn partial_cmp(&self, other: &MsgId) -> Option<Ordering> {
        Some(self.cmp(other))
    }
}

impl Ord for MsgId {
    ghost cmp = { id_cmp };

    ghost total = { id_total };

    ghost matches_partial_cmp = { λ x y. refl };

    ghost matches_eq = { λ x y. refl };

    fn cmp(&self, other: &MsgId) -> Ordering {
        self.from
            .number()
            .cmp(&other.from.number())
            .then(self.start.cmp(&other.start))
            .then(self.drawn.cmp(&other.drawn))
    }
}
