//! The pass of a thread of the service.
use io_edge::Disk;
use shard_board::BoardPass;

/// The pass of a thread: that of the board, and how many connections were served in its name.
#[derive(Drop)]
pub struct ServicePass<D: Disk, F, C> {
    /// The pass of the board.
    pub board: BoardPass<D, F, C>,
    /// How many connections were served. The count stays at its greatest.
    pub served: u64,
}
