// The stamp of a state.
ghost use Rattle.std.specs.Prelude.{◌≡◌, refl};
ghost use Rattle.std.specs.Ordering.{as_partial_cmp, eq_by_cmp};
ghost use Rattle.std.specs.Cmp.{eq_by_cmp_equiv, partial_equiv_from_equiv, partial_order_from_total};
ghost use Rattle.mail_base.specs.Orders.{stamp_cmp, stamp_total};

use std::cmp::Ordering;
use std::marker::Model;

/// A stamp orders the states of one object: by count, boot and node.
#[derive(Clone, Copy, Debug)]
pub struct Stamp {
    pub count: u64,
    pub boot: u32,
    pub node: u8,
}

impl Model for Stamp {
    ghost use Rattle.mail_model.specs.Identity.{Stamp as Seen};

    ghost Value = { Seen };

    ghost view = { λ s. record { count = s.count; boot = s.boot; node = s.node } };

    ghost inverse = { λ s. record { count = s.count; boot = s.boot; node = s.node } };
}

impl Stamp {
    /// The stamp of these parts.
    pub fn new(count: u64, boot: u32, node: u8) -> Stamp
        ensures { result ≡ record { count = count; boot = boot; node = node } }
    {
        Stamp { count, boot, node }
    }
}

impl PartialEq for Stamp {
    ghost eq = { eq_by_cmp stamp_cmp };

    ghost laws = { partial_equiv_from_equiv (eq_by_cmp_equiv stamp_total) };

    fn eq(&self, other: &Stamp) -> bool {
        self.cmp(other).is_eq()
    }
}

impl Eq for Stamp {
    ghost laws = { eq_by_cmp_equiv stamp_total };
}

impl PartialOrd for Stamp {
    ghost partial_cmp = { as_partial_cmp stamp_cmp };

    ghost laws = { partial_order_from_total stamp_total };

    fn partial_cmp(&self, other: &Stamp) -> Option<Ordering> {
        Some(self.cmp(other))
    }
}

impl Ord for Stamp {
    ghost cmp = { stamp_cmp };

    ghost total = { stamp_total };

    ghost matches_partial_cmp = { λ x y. refl };

    ghost matches_eq = { λ x y. refl };

    fn cmp(&self, other: &Stamp) -> Ordering {
        self.count
            .cmp(&other.count)
            .then(self.boot.cmp(&other.boot))
            .then(self.node.cmp(&other.node))
    }
}
