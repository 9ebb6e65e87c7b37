//! What a pass counts.

/// How often each thing came of the calls of one pass. A count at its greatest, 2^64 - 1, stays there.
#[derive(Clone, Copy, Debug, PartialEq, Eq)]
pub struct Tally {
    /// Messages that were stored.
    pub stored: u64,
    /// Logins that were listed.
    pub listed: u64,
    /// Logins whose proof was wrong.
    pub wrong: u64,
    /// Logins whose maildrop another login had.
    pub in_use: u64,
    /// Logins of users of whom the manager had no profile.
    pub no_profile: u64,
    /// Parts of messages that were read.
    pub part: u64,
    /// Fetches of messages that were deleted.
    pub gone: u64,
    /// Deletions that were confirmed.
    pub dropped: u64,
    /// Calls that failed.
    pub failed: u64,
    /// Nodes that were found not to be up.
    pub down: u64,
    /// Numbers that were found to be used up.
    pub worn: u64,
    /// Leaves that were begun.
    pub leaves: u64,
}
