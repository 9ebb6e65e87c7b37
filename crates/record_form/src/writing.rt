// Entries that are written as payloads.
ghost use Rattle.std.specs.Prelude.{◌≡◌, ◌++◌, ◌≤◌, [], length, OnOk, OnErr};
ghost use Rattle.mail_model.specs.Record.{id_octets, text_octets, key_octets, state_octets, secret_octets, rank_of, payload_of};
ghost use Rattle.mail_model.specs.Record.Record.{Octets};
ghost use Rattle.mail_model.specs.Grammar.{IsRecord};
ghost use Rattle.mail_base.specs.Seen.{key_seen, value_seen};
ghost use Rattle.record_form.specs.Entries.{head_record};
ghost use Rattle.record_form.specs.Reading.{stamp_octets};

use crate::entry::DiskEntry;
use crate::kinds::{BOOT, GONE, HERE, MESSAGE, OCTETS, PROFILE, PROMISE, RETIRED, SECRET, STATE};
use mail_base::{Key, MsgId, Name, ObjState, Secret, Stamp, Value};
use std::alloc::{AllocError, Global};

fn add_id(out: &mut Vec<u8>, id: MsgId) -> Result<(), AllocError>
    ensures { OnOk result (out.new.items ≡ out.old.items ++ id_octets id) }
{
    out.push(id.node().number())?;
    out.extend_from_slice(&id.boot().to_be_bytes())?;
    out.extend_from_slice(&id.seq().to_be_bytes())?;
    Ok(())
}

fn add_text(out: &mut Vec<u8>, text: &[u8]) -> Result<(), AllocError>
    requires { length text.now ≤ 64 }
    ensures { OnOk result (out.new.items ≡ out.old.items ++ text_octets text.now) }
{
    out.push(text.len() as u8)?;
    out.extend_from_slice(text)?;
    Ok(())
}

fn add_name(out: &mut Vec<u8>, name: &Name) -> Result<(), AllocError>
    ensures { OnOk result (out.new.items ≡ out.old.items ++ text_octets name.now) }
{
    add_text(out, name.octets())
}

fn add_secret(out: &mut Vec<u8>, secret: &Secret) -> Result<(), AllocError>
    ensures { OnOk result (out.new.items ≡ out.old.items ++ text_octets secret.now) }
{
    add_text(out, secret.octets())
}

fn add_key(out: &mut Vec<u8>, key: &Key) -> Result<(), AllocError>
    ensures { OnOk result (out.new.items ≡ out.old.items ++ key_octets (key_seen key.now)) }
{
    match key {
        Key::Profile(user) => {
            out.push(PROFILE)?;
            add_name(out, user)
        }
        Key::Message(user, id) => {
            out.push(MESSAGE)?;
            add_name(out, user)?;
            add_id(out, *id)?;
            Ok(())
        }
    }
}

fn rank_of(value: &Value) -> u8
    ensures { result ≡ rank_of (value_seen value.now) }
{
    match value {
        Value::Here => HERE,
        Value::Gone => GONE,
        Value::Secret(_) => SECRET,
    }
}

fn add_stamp(out: &mut Vec<u8>, stamp: Stamp) -> Result<(), AllocError>
    ensures { OnOk result (out.new.items ≡ out.old.items ++ stamp_octets stamp) }
{
    out.extend_from_slice(&stamp.count.to_be_bytes())?;
    out.extend_from_slice(&stamp.boot.to_be_bytes())?;
    out.push(stamp.node)?;
    Ok(())
}

fn add_secret_of(out: &mut Vec<u8>, value: &Value) -> Result<(), AllocError>
    ensures { OnOk result (out.new.items ≡ out.old.items ++ secret_octets (value_seen value.now)) }
{
    match value {
        Value::Here => Ok(()),
        Value::Gone => Ok(()),
        Value::Secret(secret) => add_secret(out, secret),
    }
}

fn add_state(out: &mut Vec<u8>, state: &ObjState) -> Result<(), AllocError>
    ensures { OnOk result (out.new.items ≡ out.old.items ++ state_octets state.now) }
{
    out.push(rank_of(&state.value))?;
    add_stamp(out, state.stamp)?;
    out.extend_from_slice(&state.targets.mask().to_be_bytes())?;
    add_secret_of(out, &state.value)?;
    Ok(())
}

fn add_entry(out: &mut Vec<u8>, entry: &DiskEntry) -> Result<(), AllocError>
    ensures { OnOk result (out.new.items ≡ out.old.items ++ payload_of (head_record entry.now)) }
{
    match entry {
        DiskEntry::Boot { boot } => {
            out.push(BOOT)?;
            out.extend_from_slice(&boot.to_be_bytes())
        }
        DiskEntry::Promise { epoch } => {
            out.push(PROMISE)?;
            out.extend_from_slice(&epoch.count.to_be_bytes())?;
            out.push(epoch.node)?;
            Ok(())
        }
        DiskEntry::Octets { id, length: _ } => {
            out.push(OCTETS)?;
            add_id(out, *id)
        }
        DiskEntry::State { key, state } => {
            out.push(STATE)?;
            add_key(out, key)?;
            add_state(out, state)
        }
        DiskEntry::Retired { key, state } => {
            out.push(RETIRED)?;
            add_key(out, key)?;
            add_state(out, state)
        }
    }
}

/// How the payload of a message's octets begins; the octets follow. It takes no memory.
pub fn octets_head(id: MsgId) -> [u8; 14]
    ensures { result ≡ payload_of (Octets id []) }
{
    let boot = id.boot().to_be_bytes();
    let seq = id.seq().to_be_bytes();
    [
        OCTETS,
        id.node().number(),
        boot[0],
        boot[1],
        boot[2],
        boot[3],
        seq[0],
        seq[1],
        seq[2],
        seq[3],
        seq[4],
        seq[5],
        seq[6],
        seq[7],
    ]
}

/// Appends the spelling of the entry; of a message's octets that which comes before them. No octets
/// follow any other entry.
///
/// # Errors
///
/// Out of memory alone: nothing is appended then.
pub fn record_into(alloc: Global, out: &mut Vec<u8>, entry: &DiskEntry) -> Result<(), AllocError>
    requires { IsRecord (head_record entry.now) }
    ensures appended { OnOk result (out.new.items ≡ out.old.items ++ payload_of (head_record entry.now)) }
    ensures kept { OnErr result (out.new.items ≡ out.old.items) }
{
    let mut spelt = Vec::new(alloc);
    add_entry(&mut spelt, entry)?;
    out.extend_from_slice(&spelt)
}
