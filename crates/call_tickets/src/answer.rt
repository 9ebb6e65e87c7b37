//! What became of a call. `specs/Seen.antt` says what each answer is in the definitions.
use mail_base::{Items, MsgId, NodeNo, NodeSet, Octets, Stamp, Ticket};

/// Why a call failed: how often each of these mishaps came while it was carried out. A call that failed has
/// at least one that is not 0.
#[derive(Clone, Copy, Debug, PartialEq, Eq)]
pub struct Mishaps {
    /// Too few nodes could be asked.
    pub few_members: u64,
    /// The year of the message's date has more than four digits.
    pub year: u64,
    /// A letter was dropped.
    pub dropped: u64,
    /// A letter was of another epoch than its reader's.
    pub stale: u64,
    /// A node that was to answer was down.
    pub down: u64,
    /// The disk of a node failed.
    pub disk: u64,
    /// A node had no room for a letter.
    pub crowded: u64,
}

/// What became of a call. Each call has its own kinds of answer, and each may fail.
#[derive(Debug, Drop)]
pub enum Answer {
    /// To a Deliver: the message is stored in all its mailboxes.
    Stored {
        /// The id that it was given.
        id: MsgId,
        /// The nodes on whose disks it is.
        confirmers: NodeSet,
    },
    /// To a Login: the proof was right, and these are the messages of the maildrop.
    Listed {
        /// By which the login is known: the ticket of its call.
        login: Ticket,
        /// The node that manages it.
        manager: NodeNo,
        /// The nodes that were asked.
        asked: NodeSet,
        /// The messages, in the order in which they came.
        items: Items,
    },
    /// To a Login: the proof was not right.
    Wrong {
        /// The stamp of the secret that was asked.
        stamp: Stamp,
    },
    /// To a Login: another login has the maildrop.
    InUse {
        /// The ticket of that login.
        by: Ticket,
    },
    /// To a Login: the manager has no profile of the user.
    NoProfile {
        /// The manager.
        manager: NodeNo,
    },
    /// To a Fetch: a part of the message.
    Part {
        /// Its octets: those after the ones to be passed over, and no more than were asked for.
        octets: Octets,
        /// How many octets the message has.
        whole: u64,
    },
    /// To a Fetch: the message was deleted.
    GoneAlready,
    /// To a Strike: the copies of all its messages are gone.
    Dropped {
        /// For each message, the nodes on whose disks that is.
        confirmers: Vec<NodeSet>,
    },
    /// To each call: it failed, or it is not known that it was done.
    Failed(Mishaps),
}

/// Whether a call has its answer.
#[derive(Debug, Drop)]
pub enum Ask {
    /// Not yet.
    Pending {
        /// How many nodes have answered, fewer than are wanted.
        got: u64,
        /// How many have to.
        wanted: u64,
    },
    /// It has, and nothing waits for it any more.
    Done(Answer),
}
