//! The rule, and what each step tells. These types are for the proofs alone.
ghost use Rattle.std.specs.Prelude.{ℕ};
ghost use Rattle.turnstile.specs.Rule.{TableIsSound, first_view, HasDrawn, HasLooked, HasAdded, HasLeft, HasRung, lessened_view, handed_view, joined_view, spent_view};

use crate::counted::Counted;
use crate::views::{Key, View};
use atomic_table::{Join, Play, Split, TableRule};
use std::marker::{Brand, PhantomData};

/// One owner at a time, tickets, quotas, and one history.
pub struct OneAtATime;

impl<V: Counted> TableRule<V, View<V, V::Entry>, Key<V>> for OneAtATime {
    ghost holds = { TableIsSound V.history V.keeps };

    ghost first = { first_view V.history };
}

pub(crate) struct Draw;

impl<V: Counted> Play<V, View<V, V::Entry>> for Draw {
    ghost then = { HasDrawn };
}

pub(crate) struct Look;

impl<V: Counted> Play<V, View<V, V::Entry>> for Look {
    ghost then = { HasLooked V.history V.keeps };
}

pub(crate) struct Add;

impl<V: Counted> Play<V, View<V, V::Entry>> for Add {
    ghost then = { HasAdded V.history };
}

pub(crate) struct ServeNext;

impl<V: Counted> Play<V, View<V, V::Entry>> for ServeNext {
    ghost then = { HasLeft };
}

pub(crate) struct Ring;

impl<V: Counted> Play<V, View<V, V::Entry>> for Ring {
    ghost then = { HasRung };
}

/// The quota that a split hands on. Each call picks it.
pub(crate) trait Portion {
    ghost portion: { ℕ };
}

impl Portion for Brand {
    ghost portion = { 0 };
}

pub(crate) struct HandOn<P: Portion> {
    portion: PhantomData<P>,
}

impl<V, E, P: Portion> Split<View<V, E>> for HandOn<P> {
    ghost left = { lessened_view P.portion };

    ghost right = { handed_view P.portion };
}

pub(crate) struct TakeIn;

impl<V, E> Join<View<V, E>> for TakeIn {
    ghost both = { joined_view };

    ghost spent = { spent_view };
}
