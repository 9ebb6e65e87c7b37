//! What the table of a turnstile is told, and what a seat at it knows. No value of a `View` is made.
use std::collections::LinkedList;
use std::snapshot::Snapshot;

/// What a seat knows.
pub struct View<V, E> {
    /// 1 while it has a ticket, else 0.
    pub waits: u64,
    /// 1 while it has the slot, else 0.
    pub inside: u64,
    /// The number of the ticket that it drew last.
    pub ticket: u64,
    /// How many passes it stands for.
    pub quota: u64,
    /// The history as it was seen last.
    pub seen: LinkedList<E>,
    /// The entries that its own turns added.
    pub own: LinkedList<E>,
    /// Those of each pass that was joined.
    pub joined: LinkedList<LinkedList<E>>,
    /// The value as the turnstile was made. A view that is spent has none.
    pub first_value: Option<V>,
}

/// What the table is told: the value as it was at first, and the quota of all passes.
#[derive(Drop)]
pub struct Key<V> {
    /// The value as the turnstile was made.
    pub first_value: Snapshot<V>,
    /// The quota of all passes together.
    pub passes: u32,
}
