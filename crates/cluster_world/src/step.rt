//! What can be done with a world, and what it answers.
use call_tickets::{Ask, Call};
use mail_base::{EpochId, MsgId, Name, NodeNo, NodeSet, Ticket};
use node_core::Why;

/// What can be done with a world.
#[derive(Debug, Drop)]
pub enum Step {
    /// Begins a call at a node.
    Begin {
        /// The node.
        node: NodeNo,
        /// The call.
        call: Call,
    },
    /// Asks what became of a call, and ends it where it is done.
    Ask {
        /// The ticket of the call.
        ticket: Ticket,
    },
    /// Gives a call up: its ticket stands no more.
    GiveUp {
        /// The ticket of the call.
        ticket: Ticket,
    },
    /// Hands a letter to its receiver. Where it is an Install this takes memory for the entry of the book first.
    Post {
        /// Its number.
        letter: u64,
        /// Whether it stays in flight, so that it can be posted again.
        keep: bool,
    },
    /// Takes a letter out of flight.
    Drop {
        /// Its number.
        letter: u64,
    },
    /// Has a node send what it owes to another: the first 64 states, as far as there is room.
    Push {
        /// Who sends.
        from: NodeNo,
        /// To whom.
        to: NodeNo,
    },
    /// Adds a target to a copy that is here.
    Widen {
        /// The node that holds the copy.
        at: NodeNo,
        /// Whose copy it is.
        user: Name,
        /// The message.
        id: MsgId,
        /// The new target.
        to: NodeNo,
    },
    /// A node opens a group: it promises the next epoch, and asks every other node of the plan to join.
    Group {
        /// The node.
        node: NodeNo,
    },
    /// A node concludes the group that it has open: those that joined are the members, and it tells each of them.
    Conclude {
        /// The node.
        node: NodeNo,
    },
    /// Has a node tell another, as their manager, what it has of users: the first 64 rows that are due to it, as far as there is
    /// room.
    Report {
        /// Who tells.
        from: NodeNo,
        /// The manager.
        to: NodeNo,
    },
    /// A node stops. What is on its disk stays.
    Crash {
        /// The node.
        node: NodeNo,
    },
    /// A node that is down starts.
    Start {
        /// The node.
        node: NodeNo,
    },
    /// A node loses its disk for good.
    Lose {
        /// The node.
        node: NodeNo,
    },
    /// The clock is set, forward or back.
    Tick {
        /// The seconds since 1970 that it shows from then on.
        seconds: u64,
    },
}

/// The answer of a step that was made.
#[derive(Debug, Drop)]
pub enum Said {
    /// The call has begun, and has this ticket.
    Begun {
        /// By which it is asked for.
        ticket: Ticket,
        /// How often something of the user's was stirred up, so that a listing can be seen to be fresh. Nothing counts
        /// that yet, and it is 0.
        stirs: u64,
    },
    /// The end of a login is noted. Nothing waits for it, so it has no ticket.
    Noted,
    /// What became of the call of the ticket.
    Asked(Ask),
    /// The letter was heard.
    Heard,
    /// The letter was thrown.
    Thrown(Why),
    /// So many letters were sent.
    Sent {
        /// How many.
        letters: u64,
    },
    /// Whether the copy got the target.
    Widened(bool),
    /// The group of this epoch is open.
    Grouped(EpochId),
    /// The group was concluded.
    Concluded {
        /// Its epoch.
        epoch: EpochId,
        /// Its members.
        members: NodeSet,
    },
    /// The node is up.
    NodeUp {
        /// Its boot.
        boot: u32,
    },
    /// It was done.
    Done,
    /// The disk of this node failed in this step, and the node is down.
    Faulted(NodeNo),
}
