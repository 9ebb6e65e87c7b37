//! What an operator may order.
use cluster_world::{BookSum, Regroup, Said, Settle};
use mail_base::{MsgId, Name, NodeNo, NodeSet};

/// What an operator may order.
#[derive(Debug, Drop)]
pub enum Order {
    /// A node stops. What is on its disk stays.
    Crash(NodeNo),
    /// A node that is down starts.
    Start(NodeNo),
    /// A node loses its disk for good.
    Lose(NodeNo),
    /// A node sends what it owes to another: the first 64 states, as far as there is room.
    Push {
        /// Who sends.
        from: NodeNo,
        /// To whom.
        to: NodeNo,
    },
    /// A copy that is on a node's disk gets a target more.
    Widen {
        /// The node that holds the copy.
        at: NodeNo,
        /// Whose copy it is.
        user: Name,
        /// The message.
        id: MsgId,
        /// The new target.
        to: NodeNo,
    },
    /// This node opens a group, asks all others, concludes with those that answered, and each of them is told: one epoch more.
    Regroup(NodeNo),
    /// A node tells another, as their manager, what it has of users: the first 64 rows that are due, as far as there is room.
    Report {
        /// Who tells.
        from: NodeNo,
        /// The manager.
        to: NodeNo,
    },
    /// The latest epoch is brought to rest: all letters are posted, and members push and report, until nothing is due.
    Settle,
    /// It is asked which nodes have mail of this user, as the manager names them.
    Maps(Name),
    /// The entries of the book are counted.
    Sum,
}

/// What comes of an order.
#[derive(Debug, Drop)]
pub enum Told {
    /// What the step said.
    Said(Said),
    /// What came of the regroup.
    Regrouped(Regroup),
    /// What came of the settle.
    Settled(Settle),
    /// The manager in the latest epoch, and the nodes that it names; nothing where there is no epoch, or the manager is not live.
    Mapped(Option<(NodeNo, NodeSet)>),
    /// How many entries of each kind the book has.
    Sum(BookSum),
}
