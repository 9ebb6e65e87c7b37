// The state of an object.
ghost use Rattle.std.specs.Prelude.{◌≡◌, IfOk, IsOk};
ghost use Rattle.object_model.specs.States.{is_same_stamp, is_same_state};
ghost use Rattle.mail_base.specs.Seen.{value_seen, IsOfMessage};

use crate::{NodeSet, Stamp, Value};
use std::alloc::AllocError;
use std::marker::Model;

/// What a node knows of an object: its value, the stamp of the update that made it so, and the nodes that are to know it.
#[derive(Drop)]
pub struct ObjState {
    pub value: Value,
    pub stamp: Stamp,
    pub targets: NodeSet,
}

impl Model for ObjState {
    ghost use Rattle.mail_model.specs.Identity.{State};
    ghost use Rattle.mail_base.specs.Seen.{value_seen};

    ghost Value = { State };

    ghost view = { λ s. record { value = value_seen s.value; stamp = s.stamp; targets = s.targets } };
}

fn same_stamp(a: &Stamp, b: &Stamp) -> bool
    ensures { result ≡ is_same_stamp a.now b.now }
{
    a.count == b.count && a.boot == b.boot && a.node == b.node
}

impl ObjState {
    /// The state of these parts.
    pub fn new(value: Value, stamp: Stamp, targets: NodeSet) -> ObjState
        ensures { result ≡ record { value = value_seen value; stamp = stamp; targets = targets } }
    {
        ObjState {
            value,
            stamp,
            targets,
        }
    }

    /// The same state once more. It takes memory for a secret alone, and answers for any other value.
    ///
    /// # Errors
    ///
    /// Out of memory alone.
    pub fn copy(&self) -> Result<ObjState, AllocError>
        ensures same { IfOk result (λ state. state ≡ self.now) }
        ensures of_messages { IsOfMessage self.now.value → IsOk result }
    {
        Ok(ObjState {
            value: self.value.copy()?,
            stamp: self.stamp,
            targets: self.targets,
        })
    }

    /// Whether both are the same state: value, stamp and targets. It takes no memory.
    pub fn is_same(&self, other: &ObjState) -> bool
        ensures { result ≡ is_same_state self.now other.now }
    {
        self.value.is_same(&other.value)
            && same_stamp(&self.stamp, &other.stamp)
            && self.targets == other.targets
    }
}
