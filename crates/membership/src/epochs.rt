// Which of two epochs is the later.
ghost use Rattle.std.specs.Prelude.{◌≡◌};
ghost use Rattle.user_map.specs.Plain.{is_before};
ghost use Rattle.object_model.specs.Keys.{is_same_epoch};

use mail_base::EpochId;

/// Whether the first comes before the second.
pub(crate) fn is_before(a: EpochId, b: EpochId) -> bool
    ensures { result ≡ is_before a b }
{
    a.count < b.count || (a.count == b.count && a.node < b.node)
}

/// Whether both are one epoch.
pub(crate) fn is_same(a: EpochId, b: EpochId) -> bool
    ensures { result ≡ is_same_epoch a b }
{
    a.count == b.count && a.node == b.node
}
