//! The turnstile and its passes.
ghost use Rattle.std.specs.Prelude.{◌≡◌};

use crate::counted::Counted;
use crate::plays::OneAtATime;
use crate::views::{Key, View};
use atomic_table::{Seat, Table};
use std::alloc::Global;

pub(crate) type Place<V> = Seat<V, View<V, <V as Counted>::Entry>>;

/// A ticket lock round a value, with the length of its history in word 2, and bells in the words behind it.
pub struct Turnstile<V: Counted> {
    pub(crate) table: Table<V, View<V, V::Entry>, Key<V>, OneAtATime, Global>,
    ghost counts: { (table.shared.table_id.words ≡ 19) × (table.shared.table_id.slots ≡ 1) },
}

/// The right to take turns, with what it knows of the history. A thread needs one of its own.
#[derive(Drop)]
pub struct Pass<V: Counted> {
    pub(crate) seat: Place<V>,
}
