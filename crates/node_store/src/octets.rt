//! Octets of messages that are stored.
ghost use Rattle.std.specs.Prelude.{◌≡◌, ◌+◌, ◌≤◌, length, IfOk, OnOk};
ghost use Rattle.std.specs.FinMap as fin;
ghost use Rattle.mail_model.specs.Identity.Key.{Message};
ghost use Rattle.mail_model.specs.Listing.{is_gone};
ghost use Rattle.mail_model.specs.Grammar.{IsId};
ghost use Rattle.object_model.specs.Said.{is_gone_held};
ghost use Rattle.mail_base.specs.Seen.{value_seen};
ghost use Rattle.disk_journal.specs.Journal.{largest};
ghost use Rattle.message_store.specs.Places.{place_of};
ghost use Rattle.node_store.specs.Disks.{view_of};
ghost use Rattle.node_store.specs.Keeps.{CanGoOn};
ghost use Rattle.node_store.specs.Wanted.{any_stays, wants_octets};
ghost use Rattle.node_store.specs.Changes.{with_stored};
ghost use Rattle.node_store.specs.Writes.{WroteChange};

use crate::append::append_record;
use crate::copies::copy_key;
use crate::fault::KeepFault;
use crate::store::NodeStore;
use io_edge::Disk;
use mail_base::{MsgId, Name, Value};
use object_table::ObjectTable;
use record_form::octets_head;
use std::alloc::{AllocError, Global};

fn is_gone(value: &Value) -> bool
    ensures { result ≡ is_gone (value_seen value.now) }
{
    match value {
        Value::Here => false,
        Value::Gone => true,
        Value::Secret(_) => false,
    }
}

// Whether the user's copy is gone.
fn is_copy_gone(objects: &ObjectTable, user: &Name, id: MsgId) -> Result<bool, AllocError>
    ensures { IfOk result (λ gone. gone ≡ is_gone_held (fin.get objects.now (Message user.now id))) }
{
    let key = copy_key(user, id)?;
    Ok(match objects.state(&key) {
        Some(held) => is_gone(&held.value),
        None => false,
    })
}

// Whether some user's copy is not gone.
fn stays_for_any(objects: &ObjectTable, users: &[Name], id: MsgId) -> Result<bool, AllocError>
    ensures { IfOk result (λ stays. stays ≡ any_stays id objects.now users.now) }
{
    for user in users {
        if !is_copy_gone(objects, user, id)? {
            return Ok(true);
        }
    }
    Ok(false)
}

// The id is within its limits.
fn is_id(id: MsgId)
    ensures { IsId id }
{
    let _node = id.node().number();
    let _boot = id.boot();
    let _seq = id.seq();
}

impl NodeStore {
    // Whether octets of the message are to be stored: some user's copy is not gone, and none are stored yet.
    fn wants(&self, id: MsgId, users: &[Name]) -> Result<bool, AllocError>
        ensures { IfOk result (λ wanted. wanted ≡ wants_octets id users.now self.now.objects (place_of self.now.messages id)) }
    {
        let stays = stays_for_any(&self.objects, users, id)?;
        Ok(stays && self.messages.length(id).is_none())
    }

    /// Stores the octets of a message, where some of these users' copies is not gone and no octets of it are stored yet.
    pub fn store_octets<D: Disk>(
        &mut self,
        alloc: Global,
        disk: &mut D,
        id: MsgId,
        users: &[Name],
        octets: &[u8],
    ) -> Result<(), KeepFault>
        requires sound { CanGoOn (D.seen disk.old) self.old }
        requires short { 14 + length octets.now ≤ largest }
        ensures wrote { WroteChange (view_of D.seen D.faults D.clock) (with_stored id users.now octets.now) result self.old disk.old self.new disk.new }
        ensures settled { OnOk result (D.settled disk.old → D.settled disk.new) }
    {
        if !self.wants(id, users)? {
            return Ok(());
        }
        is_id(id);
        let place = append_record(alloc, &mut self.journal, disk, &octets_head(id), octets)?;
        self.messages.found(id, place)?;
        Ok(())
    }
}
