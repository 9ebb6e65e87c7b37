//! What a restart leaves of a disk in memory.

/// Which of its images a restart leaves, of the writes since the last sync that succeeded.
#[derive(Clone, Copy, Debug, PartialEq, Eq)]
pub enum Image {
    /// None of them has reached the disk.
    Nothing,
    /// The first octets that were written, so many of them, have reached it.
    Front(u64),
    /// All of them have reached it.
    All,
    /// Each range that was written holds nothing but this octet, also past the old end.
    Garbage(u8),
}
