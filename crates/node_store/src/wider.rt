//! Copies that get a target more.
ghost use Rattle.std.specs.Prelude.{◌≡◌, ◌<◌, ◌^◌, is_some, IfOk, IfSome, OnOk};
ghost use Rattle.std.specs.FinMap as fin;
ghost use Rattle.mail_model.specs.Listing.{is_here};
ghost use Rattle.mail_base.specs.Seen.{key_seen, value_seen};
ghost use Rattle.replica_push.specs.Pushes.{wider, wider_of};
ghost use Rattle.node_store.specs.Disks.{view_of};
ghost use Rattle.node_store.specs.Keeps.{CanGoOn};
ghost use Rattle.node_store.specs.Changes.{widened_in};
ghost use Rattle.node_store.specs.Writes.{WroteChange};

use crate::fault::KeepFault;
use crate::store::NodeStore;
use io_edge::Disk;
use mail_base::{Key, NodeNo, ObjState, Value};
use object_table::ObjectTable;
use std::alloc::Global;

fn is_here(value: &Value) -> bool
    ensures { result ≡ is_here (value_seen value.now) }
{
    match value {
        Value::Here => true,
        Value::Gone => false,
        Value::Secret(_) => false,
    }
}

// The state with this target, where it is Here and lacks it.
fn wider(held: &ObjState, to: NodeNo) -> Option<ObjState>
    ensures value { result ≡ wider_of held.now to }
    ensures bound { IfSome result (λ next. next.targets < 2 ^ 16) }
{
    if is_here(&held.value) && !held.targets.has(to) {
        Some(ObjState::new(Value::Here, held.stamp, held.targets.with(to)))
    } else {
        None
    }
}

fn wider_at(objects: &ObjectTable, key: &Key, to: NodeNo) -> Option<ObjState>
    ensures value { result ≡ wider (fin.get objects.now (key_seen key.now)) to }
    ensures bound { IfSome result (λ next. next.targets < 2 ^ 16) }
{
    match objects.state(key) {
        Some(held) => wider(held, to),
        None => None,
    }
}

impl NodeStore {
    /// A copy that is here gets a target more, and its state is recorded and noted for its targets. False exactly where the
    /// object is not Here or has the target; nothing is recorded then.
    pub fn widen<D: Disk>(
        &mut self,
        alloc: Global,
        disk: &mut D,
        key: &Key,
        to: NodeNo,
    ) -> Result<bool, KeepFault>
        requires sound { CanGoOn (D.seen disk.old) self.old }
        ensures answer { IfOk result (λ widened. widened ≡ is_some (wider (fin.get self.old.objects (key_seen key.now)) to)) }
        ensures wrote { WroteChange (view_of D.seen D.faults D.clock) (widened_in self.old.own (key_seen key.now) to) result self.old disk.old self.new disk.new }
        ensures settled { OnOk result (D.settled disk.old → D.settled disk.new) }
    {
        match wider_at(&self.objects, key, to) {
            None => Ok(false),
            Some(next) => {
                self.take(alloc, disk, key, &next)?;
                Ok(true)
            }
        }
    }
}
