// The key of an object.
ghost use Rattle.std.specs.Prelude.{◌≡◌, IfOk};
ghost use Rattle.object_model.specs.Keys.{user_of};
ghost use Rattle.mail_base.specs.Seen.{key_seen};

use crate::{MsgId, Name};
use std::alloc::AllocError;
use std::cmp::Ordering;

/// What an object is known by. Keys are ordered with profiles first, then by user and id.
#[derive(Debug, Drop)]
pub enum Key {
    /// The profile of a user.
    Profile(Name),
    /// A user's copy of a message.
    Message(Name, MsgId),
}

impl Key {
    /// The same key once more.
    ///
    /// # Errors
    ///
    /// Out of memory alone.
    pub fn copy(&self) -> Result<Key, AllocError>
        ensures { IfOk result (λ key. key ≡ self.now) }
    {
        Ok(match self {
            Key::Profile(user) => Key::Profile(user.copy()?),
            Key::Message(user, id) => Key::Message(user.copy()?, *id),
        })
    }

    /// Whose object it is.
    pub fn user(&self) -> &Name
        ensures { result.now ≡ user_of (key_seen self.now) }
    {
        match self {
            Key::Profile(user) => user,
            Key::Message(user, _) => user,
        }
    }
}

impl PartialEq for Key {
    ghost use Rattle.std.specs.Ordering.{eq_by_cmp};
    ghost use Rattle.std.specs.Cmp.{eq_by_cmp_equiv, partial_equiv_from_equiv};
    ghost use Rattle.mail_base.specs.KeyOrder.{seen_cmp, seen_total};

    ghost eq = { eq_by_cmp seen_cmp };

    ghost laws = { partial_equiv_from_equiv (eq_by_cmp_equiv seen_total) };

    fn eq(&self, other: &Key) -> bool {
        self.cmp(other).is_eq()
    }
}

impl Eq for Key {
    ghost use Rattle.std.specs.Cmp.{eq_by_cmp_equiv};
    ghost use Rattle.mail_base.specs.KeyOrder.{seen_total};

    ghost laws = { eq_by_cmp_equiv seen_total };
}

impl PartialOrd for Key {
    ghost use Rattle.std.specs.Ordering.{as_partial_cmp};
    ghost use Rattle.std.specs.Cmp.{partial_order_from_total};
    ghost use Rattle.mail_base.specs.KeyOrder.{seen_cmp, seen_total};

    ghost partial_cmp = { as_partial_cmp seen_cmp };

    ghost laws = { partial_order_from_total seen_total };

    fn partial_cmp(&self, other: &Key) -> Option<Ordering> {
        Some(self.cmp(other))
    }
}

impl Ord for Key {
    ghost use Rattle.std.specs.Prelude.{refl};
    ghost use Rattle.mail_base.specs.KeyOrder.{seen_cmp, seen_total};

    ghost cmp = { seen_cmp };

    ghost total = { seen_total };

    ghost matches_partial_cmp = { λ x y. refl };

    ghost matches_eq = { λ x y. refl };

    fn cmp(&self, other: &Key) -> Ordering {
        match (self, other) {
            (Key::Profile(a), Key::Profile(b)) => a.cmp(b),
            (Key::Profile(_), Key::Message(_, _)) => Ordering::Less,
            (Key::Message(_, _), Key::Profile(_)) => Ordering::Greater,
            (Key::Message(a, i), Key::Message(b, j)) => a.cmp(b).then(i.cmp(j)),
        }
    }
}
