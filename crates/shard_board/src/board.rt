//! A board, and its passes.
use crate::part::Part;
use call_tickets::Tally;
use io_edge::Disk;
use turnstile::{Pass, Turnstile};

/// A cluster behind a lock that has a history.
pub struct Board<D: Disk, F, C> {
    pub(crate) turnstile: Turnstile<Part<D, F, C>>,
}

/// The right to take turns at a board, with what it counted. A thread needs one of its own.
#[derive(Drop)]
pub struct BoardPass<D: Disk, F, C> {
    pub(crate) lower: Pass<Part<D, F, C>>,
    /// What it counted.
    pub tally: Tally,
}
