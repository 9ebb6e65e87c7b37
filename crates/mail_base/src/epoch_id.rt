// The id of an epoch.
ghost use Rattle.std.specs.Prelude.{◌≡◌, refl};
ghost use Rattle.std.specs.Ordering.{as_partial_cmp, eq_by_cmp};
ghost use Rattle.std.specs.Cmp.{eq_by_cmp_equiv, partial_equiv_from_equiv, partial_order_from_total};
ghost use Rattle.mail_model.specs.Identity.{no_epoch};
ghost use Rattle.object_model.specs.Keys.{epoch_cmp};
ghost use Rattle.mail_base.specs.Orders.{epoch_total};

use std::cmp::Ordering;
use std::marker::Model;

/// The id of an epoch: a count, and the node that opened its group. Ids are ordered by count and node.
///
/// A node without an epoch has the id whose parts are both 0.
#[derive(Clone, Copy, Debug)]
pub struct EpochId {
    pub count: u64,
    pub node: u8,
}

impl Model for EpochId {
    ghost use Rattle.mail_model.specs.Identity.{EpochId as Seen};

    ghost Value = { Seen };

    ghost view = { λ e. record { count = e.count; node = e.node } };

    ghost inverse = { λ e. record { count = e.count; node = e.node } };
}

impl EpochId {
    /// The id of these parts.
    pub fn new(count: u64, node: u8) -> EpochId
        ensures { result ≡ record { count = count; node = node } }
    {
        EpochId { count, node }
    }

    /// That of no epoch.
    pub fn none() -> EpochId
        ensures { result ≡ no_epoch }
    {
        EpochId { count: 0, node: 0 }
    }
}

impl PartialEq for EpochId {
    ghost eq = { eq_by_cmp epoch_cmp };

    ghost laws = { partial_equiv_from_equiv (eq_by_cmp_equiv epoch_total) };

    fn eq(&self, other: &EpochId) -> bool {
        self.cmp(other).is_eq()
    }
}

impl Eq for EpochId {
    ghost laws = { eq_by_cmp_equiv epoch_total };
}

impl PartialOrd for EpochId {
    ghost partial_cmp = { as_partial_cmp epoch_cmp };

    ghost laws = { partial_order_from_total epoch_total };

    fn partial_cmp(&self, other: &EpochId) -> Option<Ordering> {
        Some(self.cmp(other))
    }
}

impl Ord for EpochId {
    ghost cmp = { epoch_cmp };

    ghost total = { epoch_total };

    ghost matches_partial_cmp = { λ x y. refl };

    ghost matches_eq = { λ x y. refl };

    fn cmp(&self, other: &EpochId) -> Ordering {
        self.count
            .cmp(&other.count)
            .then(self.node.cmp(&other.node))
    }
}
