// Who tells a row.
ghost use Rattle.std.specs.Prelude.{◌≡◌, refl};
ghost use Rattle.std.specs.Ordering.{as_partial_cmp, eq_by_cmp};
ghost use Rattle.std.specs.Cmp.{eq_by_cmp_equiv, partial_equiv_from_equiv, partial_order_from_total};
ghost use Rattle.mail_map.specs.Tellers.{teller_cmp, teller_total};

use mail_base::NodeNo;
use std::cmp::Ordering;
use std::marker::Model;

/// A node in a boot. Tellers are ordered by node and boot.
#[derive(Clone, Copy, Debug)]
pub(crate) struct Teller {
    pub(crate) node: NodeNo,
    pub(crate) boot: u32,
}

impl Model for Teller {
    ghost use Rattle.mail_map.specs.Tellers.{Teller as Seen};

    ghost Value = { Seen };

    ghost view = { λ t. record { node = t.node; boot = t.boot } };

    ghost inverse = { λ t. record { node = t.node; boot = t.boot } };
}

impl Teller {
    /// The teller of these parts.
    pub(crate) fn new(node: NodeNo, boot: u32) -> Teller
        ensures { result ≡ record { node = node; boot = boot } }
    {
        Teller { node, boot }
    }
}

impl PartialEq for Teller {
    ghost eq = { eq_by_cmp teller_cmp };

    ghost laws = { partial_equiv_from_equiv (eq_by_cmp_equiv teller_total) };

    fn eq(&self, other: &Teller) -> bool {
        self.cmp(other).is_eq()
    }
}

impl Eq for Teller {
    ghost laws = { eq_by_cmp_equiv teller_total };
}

impl PartialOrd for Teller {
    ghost partial_cmp = { as_partial_cmp teller_cmp };

    ghost laws = { partial_order_from_total teller_total };

    fn partial_cmp(&self, other: &Teller) -> Option<Ordering> {
        Some(self.cmp(other))
    }
}

impl Ord for Teller {
    ghost cmp = { teller_cmp };

    ghost total = { teller_total };

    ghost matches_partial_cmp = { λ x y. refl };

    ghost matches_eq = { λ x y. refl };

    fn cmp(&self, other: &Teller) -> Ordering {
        self.node
            .number()
            .cmp(&other.node.number())
            .then(self.boot.cmp(&other.boot))
    }
}
