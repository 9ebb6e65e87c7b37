//! One entry of the log.
ghost use Rattle.std.specs.Prelude.{◌≡◌, ◌&&◌};
ghost use Rattle.object_model.specs.Sets.{has, without_node};
ghost use Rattle.object_model.specs.States.{is_same_state};
ghost use Rattle.object_model.specs.UpdateLog.{new_entry};
ghost use Rattle.update_log.specs.Entries.{cleared_by};
ghost use Rattle.update_log.specs.Answers.{answer_of};

use mail_base::{NodeNo, NodeSet, ObjState};
use std::marker::Model;

/// What an acknowledgement did.
#[derive(Clone, Copy, Debug, PartialEq, Eq)]
pub enum Acked {
    /// The node was taken out, and others remain.
    Cleared,
    /// The node was taken out, and was the last one that remained.
    Emptied,
    /// No entry of that state has the node remaining: nothing changed.
    Other,
}

/// A state, and those of its targets that have not acknowledged it.
#[derive(Drop)]
pub struct Logged {
    /// The state.
    pub state: ObjState,
    /// The targets that have not acknowledged it.
    pub remaining: NodeSet,
}

impl Model for Logged {
    ghost use Rattle.object_model.specs.UpdateLog.{Logged as Seen};

    ghost Value = { Seen };

    ghost view = { λ l. record { state = l.state; remaining = l.remaining } };
}

impl Logged {
    /// The entry that a state begins with: all its targets but the own node remain.
    pub(crate) fn new(state: ObjState, own: NodeNo) -> Logged
        ensures { result ≡ new_entry own state }
    {
        let remaining = state.targets.without(own);
        Logged { state, remaining }
    }

    /// Whether the entry is of that very state.
    pub(crate) fn is_of(&self, state: &ObjState) -> bool
        ensures { result ≡ is_same_state self.now.state state.now }
    {
        self.state.is_same(state)
    }

    /// Whether the node remains.
    pub(crate) fn owes(&self, to: NodeNo) -> bool
        ensures { result ≡ has self.now.remaining to }
    {
        self.remaining.has(to)
    }

    // Takes the node out of those that remain.
    fn clear(&mut self, by: NodeNo)
        ensures { self.new ≡ record { state = self.old.state; remaining = without_node self.old.remaining by } }
    {
        self.remaining = self.remaining.without(by);
    }

    /// Takes the node out where the entry is of that very state and the node remains.
    pub(crate) fn acknowledge(&mut self, state: &ObjState, by: NodeNo) -> Acked
        ensures entry { self.new ≡ cleared_by state.now by self.old }
        ensures answer { result ≡ answer_of state.now by self.old }
    {
        if !(self.is_of(state) && self.owes(by)) {
            return Acked::Other;
        }
        self.clear(by);
        if self.remaining == NodeSet::empty() {
            Acked::Emptied
        } else {
            Acked::Cleared
        }
    }
}
