//! What a session asks of its node.
use mail_base::{Deliver, Items, MsgId, Name, NodeNo, NodeSet, Proof, Ticket};

/// What a session asks of its node. The names are users of the plan.
#[derive(Debug, Drop)]
pub enum Call {
    /// That the message be stored in the mailbox of each of its users, of which there are 1 to 100.
    Deliver(Deliver),
    /// That the user's maildrop be opened, and its messages listed.
    Login {
        /// Whose maildrop.
        user: Name,
        /// What the client gave to show that it may.
        proof: Proof,
    },
    /// That a part of a message be read.
    Fetch {
        /// In whose maildrop it is.
        user: Name,
        /// The message's id.
        id: MsgId,
        /// The nodes that hold it, by the listing.
        holders: NodeSet,
        /// How many of its octets to pass over.
        from: u64,
        /// How many octets to give at most.
        most: u64,
    },
    /// That the user's copies of messages be deleted.
    Strike {
        /// From whose maildrop.
        user: Name,
        /// The messages as they were listed, one at least.
        items: Items,
    },
    /// That a login end.
    Leave {
        /// Whose maildrop.
        user: Name,
        /// The login, as its listing named it.
        login: Ticket,
        /// The node that manages it, as its listing named it.
        manager: NodeNo,
    },
}
