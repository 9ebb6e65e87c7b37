//! Copies of messages that are taken, for several users or messages at once.
ghost use Rattle.std.specs.Prelude.{◌≡◌, ◌<◌, All, IfOk, OnOk};
ghost use Rattle.mail_model.specs.Identity.Key.{Message};
ghost use Rattle.mail_model.specs.Identity.Value.{Here, Gone};
ghost use Rattle.mail_model.specs.Grammar.{IsKey, IsStamp, IsCount};
ghost use Rattle.cluster_model.specs.Store.{take_one, take_all, here_updates, gone_updates};
ghost use Rattle.mail_base.specs.Seen.{key_seen};
ghost use Rattle.node_store.specs.Disks.{view_of};
ghost use Rattle.node_store.specs.Keeps.{CanGoOn};
ghost use Rattle.node_store.specs.Writes.{WroteChange};

use crate::fault::KeepFault;
use crate::store::NodeStore;
use io_edge::Disk;
use mail_base::{Key, MsgId, Name, NodeSet, ObjState, Stamp, StrikeMark, Value};
use std::alloc::{AllocError, Global};

/// The user's copy of the message.
pub(crate) fn copy_key(user: &Name, id: MsgId) -> Result<Key, AllocError>
    ensures key { IfOk result (λ key. key_seen key ≡ Message user.now id) }
    ensures fits { IfOk result (λ key. IsKey (key_seen key)) }
{
    let _octets = user.octets();
    let _node = id.node().number();
    let _boot = id.boot();
    let _seq = id.seq();
    Ok(Key::Message(user.copy()?, id))
}

impl NodeStore {
    // The user's copy is here.
    fn take_copy<D: Disk>(
        &mut self,
        alloc: Global,
        disk: &mut D,
        user: &Name,
        id: MsgId,
        stamp: Stamp,
        targets: NodeSet,
    ) -> Result<(), KeepFault>
        requires sound { CanGoOn (D.seen disk.old) self.old }
        requires stamp { IsStamp stamp }
        requires targets { IsCount 16 targets }
        ensures wrote { WroteChange (view_of D.seen D.faults D.clock) (take_one self.old.own (record { key = Message user.now id; state = record { value = Here; stamp = stamp; targets = targets } })) result self.old disk.old self.new disk.new }
        ensures settled { OnOk result (D.settled disk.old → D.settled disk.new) }
    {
        let key = copy_key(user, id)?;
        let state = ObjState::new(Value::Here, stamp, targets);
        self.take(alloc, disk, &key, &state)?;
        Ok(())
    }

    // The user's copy is gone.
    fn take_mark<D: Disk>(
        &mut self,
        alloc: Global,
        disk: &mut D,
        user: &Name,
        mark: &StrikeMark,
        targets: NodeSet,
    ) -> Result<(), KeepFault>
        requires sound { CanGoOn (D.seen disk.old) self.old }
        requires stamp { IsStamp mark.now.stamp }
        requires targets { IsCount 16 targets }
        ensures wrote { WroteChange (view_of D.seen D.faults D.clock) (take_one self.old.own (record { key = Message user.now mark.now.id; state = record { value = Gone; stamp = mark.now.stamp; targets = targets } })) result self.old disk.old self.new disk.new }
        ensures settled { OnOk result (D.settled disk.old → D.settled disk.new) }
    {
        let key = copy_key(user, mark.id)?;
        let state = ObjState::new(Value::Gone, mark.stamp, targets);
        self.take(alloc, disk, &key, &state)?;
        Ok(())
    }

    /// Takes a copy that is here for each user, in order, all with this stamp and for these targets. Its octets are to be
    /// stored before it.
    pub fn take_here<D: Disk>(
        &mut self,
        alloc: Global,
        disk: &mut D,
        id: MsgId,
        stamp: Stamp,
        targets: NodeSet,
        users: &[Name],
    ) -> Result<(), KeepFault>
        requires sound { CanGoOn (D.seen disk.old) self.old }
        requires stamp { IsStamp stamp }
        requires targets { IsCount 16 targets }
        ensures wrote { WroteChange (view_of D.seen D.faults D.clock) (take_all self.old.own (here_updates id stamp targets users.now)) result self.old disk.old self.new disk.new }
        ensures settled { OnOk result (D.settled disk.old → D.settled disk.new) }
    {
        for user in users {
            self.take_copy(alloc, disk, user, id, stamp, targets)?;
        }
        Ok(())
    }

    /// Takes a deletion of each of these copies of a user, in order, each with its own stamp and all for these targets.
    pub fn take_gone<D: Disk>(
        &mut self,
        alloc: Global,
        disk: &mut D,
        user: &Name,
        targets: NodeSet,
        marks: &[StrikeMark],
    ) -> Result<(), KeepFault>
        requires sound { CanGoOn (D.seen disk.old) self.old }
        requires stamps { All (λ mark. IsStamp mark.stamp) marks.now }
        requires targets { IsCount 16 targets }
        ensures wrote { WroteChange (view_of D.seen D.faults D.clock) (take_all self.old.own (gone_updates user.now targets marks.now)) result self.old disk.old self.new disk.new }
        ensures settled { OnOk result (D.settled disk.old → D.settled disk.new) }
    {
        for mark in marks {
            self.take_mark(alloc, disk, user, mark, targets)?;
        }
        Ok(())
    }
}
