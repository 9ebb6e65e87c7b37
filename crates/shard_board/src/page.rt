//! What one deed found and left.
use cluster_world::World;
use std::snapshot::Snapshot;

/// What one deed found and left, and whether it was blind. It takes no room: a page is read by clauses alone.
#[derive(Drop)]
pub struct Page<D> {
    /// The world as the deed found it.
    pub before: Snapshot<World<D>>,
    /// The world as it left it.
    pub after: Snapshot<World<D>>,
    /// Whether it reads from no disk what the machine has to know.
    pub blind: Snapshot<bool>,
}
