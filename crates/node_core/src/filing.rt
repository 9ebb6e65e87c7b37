//! What a node takes into its store: copies of a message, and states that are pushed.
ghost use Rattle.std.specs.Prelude.{IfSome, OnOk};
ghost use Rattle.mail_model.specs.Grammar.{IsStamp, IsCount, IsObject};
ghost use Rattle.mail_base.specs.Seen.{key_seen};
ghost use Rattle.node_store.specs.Disks.{view_of};
ghost use Rattle.node_store.specs.Keeps.{CanGoOn};
ghost use Rattle.node_store.specs.Writes.{WroteChange};
ghost use Rattle.node_core.specs.Spelling.{IsShort};
ghost use Rattle.node_core.specs.Filed.{with_filed, with_pushed_octets, with_state};

use io_edge::Disk;
use mail_base::{Key, MsgId, Name, NodeSet, ObjState, Octets, Stamp};
use node_store::{KeepFault, NodeStore};
use std::alloc::Global;

/// Stores the octets of the message where they are wanted, and takes each user's copy.
pub(crate) fn file<D: Disk>(
    store: &mut NodeStore,
    alloc: Global,
    disk: &mut D,
    id: MsgId,
    stamp: Stamp,
    targets: NodeSet,
    users: &[Name],
    octets: &[u8],
) -> Result<(), KeepFault>
    requires sound { CanGoOn (D.seen disk.old) store.old }
    requires stamp { IsStamp stamp }
    requires targets { IsCount 16 targets }
    requires short { IsShort octets.now }
    ensures wrote { WroteChange (view_of D.seen D.faults D.clock) (with_filed store.old.own id stamp targets users.now octets.now) result store.old disk.old store.new disk.new }
    ensures settled { OnOk result (D.settled disk.old → D.settled disk.new) }
{
    store.store_octets(alloc, disk, id, users, octets)?;
    store.take_here(alloc, disk, id, stamp, targets, users)?;
    Ok(())
}

// Stores the octets that a Push carries, where they are wanted.
fn store_pushed<D: Disk>(
    store: &mut NodeStore,
    alloc: Global,
    disk: &mut D,
    key: &Key,
    octets: &Option<Octets>,
) -> Result<(), KeepFault>
    requires sound { CanGoOn (D.seen disk.old) store.old }
    requires short { IfSome octets.now IsShort }
    ensures wrote { WroteChange (view_of D.seen D.faults D.clock) (with_pushed_octets (key_seen key.now) octets.now) result store.old disk.old store.new disk.new }
    ensures settled { OnOk result (D.settled disk.old → D.settled disk.new) }
{
    match key {
        Key::Profile(_) => Ok(()),
        Key::Message(user, id) => match octets {
            None => Ok(()),
            Some(octets) => {
                let users = std::slice::from_ref(user);
                store.store_octets(alloc, disk, *id, users, octets.as_slice())?;
                Ok(())
            }
        },
    }
}

/// Stores the octets that a Push carries, where they are wanted, and takes the state.
pub(crate) fn take_pushed<D: Disk>(
    store: &mut NodeStore,
    alloc: Global,
    disk: &mut D,
    key: &Key,
    state: &ObjState,
    octets: &Option<Octets>,
) -> Result<(), KeepFault>
    requires sound { CanGoOn (D.seen disk.old) store.old }
    requires object { IsObject (key_seen key.now) state.now }
    requires short { IfSome octets.now IsShort }
    ensures wrote { WroteChange (view_of D.seen D.faults D.clock) (with_state store.old.own (key_seen key.now) state.now octets.now) result store.old disk.old store.new disk.new }
    ensures settled { OnOk result (D.settled disk.old → D.settled disk.new) }
{
    store_pushed(store, alloc, disk, key, octets)?;
    store.take(alloc, disk, key, state)?;
    Ok(())
}
