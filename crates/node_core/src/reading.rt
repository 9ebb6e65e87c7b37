//! A part of a message that is here.
ghost use Rattle.std.specs.Prelude.{◌≡◌, ℕ, List, IfOk};
ghost use Rattle.std.specs.Option.{option_copied};
ghost use Rattle.mail_model.specs.Identity.{State};
ghost use Rattle.mail_model.specs.Identity.Key.{Message};
ghost use Rattle.mail_model.specs.Record.{Record};
ghost use Rattle.object_model.specs.Said.{said};
ghost use Rattle.cluster_model.specs.Reads.{is_here_held};
ghost use Rattle.login_model.specs.Facts.{stamp_said};
ghost use Rattle.node_store.specs.Disks.{view_of};
ghost use Rattle.node_core.specs.Nodes.{NodeKeeps};
ghost use Rattle.node_core.specs.Reading.{copy_size, TellsPart};

use crate::fault::NodeFault;
use crate::node::Node;
use io_edge::Disk;
use mail_base::{Key, MsgId, Name, ObjState, Octets, Stamp, ToldPart, Value};
use node_store::ReadFault;
use std::alloc::{AllocError, Global};

// Whether the state says that a copy is here.
fn is_here(state: Option<&ObjState>) -> bool
    ensures { result ≡ is_here_held (option_copied state.entry) }
{
    match state {
        Some(held) => matches!(held.value, Value::Here),
        None => false,
    }
}

// The stamp of the state; 0 in each part where there is none.
fn stamp_of(state: Option<&ObjState>) -> Stamp
    ensures { result ≡ stamp_said (option_copied state.entry) }
{
    match state {
        Some(held) => held.stamp,
        None => Stamp::new(0, 0, 0),
    }
}

impl Node {
    // How many octets the user's copy of the message has, nothing exactly where it is not here with its octets; and the stamp of
    // what the disk says of the copy.
    fn copy_size(&self, user: &Name, id: MsgId) -> Result<(Option<u64>, Stamp), AllocError>
        ensures { IfOk result (λ found. (records : List Record) → NodeKeeps records self.now → (found.0 ≡ copy_size user.now id records) × (found.1 ≡ stamp_said (said (Message user.now id) records))) }
    {
        let key = Key::Message(user.copy()?, id);
        let state = self.store.state(&key);
        let stamp = stamp_of(state);
        if !is_here(state) {
            return Ok((None, stamp));
        }
        Ok((self.store.length(id), stamp))
    }

    /// A part of the user's copy of a message: octets from one on, and at most so many, with the number of all; or that it is not
    /// here, with the stamp of what the disk says of it. The disk is read, and nothing is changed.
    ///
    /// # Errors
    ///
    /// `Disk` where the read failed, or the octets are not those that the node wrote: the node has to go down. Otherwise only out
    /// of memory.
    pub fn told_part<D: Disk>(
        &self,
        alloc: Global,
        disk: &mut D,
        user: &Name,
        id: MsgId,
        from: u64,
        most: u64,
    ) -> Result<ToldPart, NodeFault>
        ensures tells { TellsPart (view_of D.seen D.faults D.clock) user.now id from most self.now disk.old disk.new result }
        ensures settled { D.settled disk.old → D.settled disk.new }
    {
        let (size, stamp) = self.copy_size(user, id)?;
        let Some(whole) = size else {
            return Ok(ToldPart::Gone { stamp });
        };
        match self.store.octets_part(alloc, disk, id, from, most as usize) {
            Ok(Some(octets)) => Ok(ToldPart::Octets {
                octets: Octets::from_vec(octets),
                whole,
            }),
            // Octets that have a length are stored.
            Ok(None) => Ok(ToldPart::Gone { stamp }),
            Err(ReadFault::Disk) => Err(NodeFault::Disk),
            Err(ReadFault::NotAJournal) => Err(NodeFault::Disk),
            Err(ReadFault::NoMemory) => Err(NodeFault::NoMemory { down: false }),
        }
    }
}
