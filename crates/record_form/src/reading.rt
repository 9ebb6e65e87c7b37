// Payloads that are read as entries.
ghost use Rattle.std.specs.Prelude.{◌≡◌, length, IfOk, IfSome, option_map};
ghost use Rattle.mail_model.specs.Grammar.{IsRecord};
ghost use Rattle.mail_model.specs.Record.Record.{Boot, Promise, Octets, Stated, Retired};
ghost use Rattle.record_form.specs.Entries.{head_record, IsEntryOf, FindsEntry, AnswersEntry, ReadsAs};
ghost use Rattle.mail_base.specs.Seen.{key_seen, value_seen};
ghost use Rattle.record_form.specs.Reading.{ReadsPart, FindsAsRead, name_at, secret_at, key_for, key_at, value_at, state_at, object_in, boot_in, promise_in, is_of_kind, id_at, record_in};

use crate::entry::DiskEntry;
use crate::fields::{epoch_at, id_at, octet_at, stamp_at, targets_at, text_at, u32_at};
use crate::kinds::{BOOT, GONE, HERE, MESSAGE, OCTETS, PROFILE, PROMISE, RETIRED, SECRET, STATE};
use mail_base::{EpochId, Key, MsgId, Name, ObjState, Secret, Value};
use std::alloc::{AllocError, Global};

#[tactic(auto, unfolding(crate::specs::Reading::name_at))]
fn name_at(alloc: Global, octets: &[u8]) -> Result<Option<(Name, &[u8])>, AllocError>
    ensures { ReadsPart (λ x. (x.0, x.1.now)) result (name_at octets.now) }
{
    let Some((text, rest)) = text_at(octets) else {
        return Ok(None);
    };
    let Some(name) = Name::spelt(alloc, text)? else {
        return Ok(None);
    };
    if name.octets() != text {
        return Ok(None);
    }
    Ok(Some((name, rest)))
}

#[tactic(auto, unfolding(crate::specs::Reading::secret_at))]
fn secret_at(alloc: Global, octets: &[u8]) -> Result<Option<(Secret, &[u8])>, AllocError>
    ensures { ReadsPart (λ x. (x.0, x.1.now)) result (secret_at octets.now) }
{
    let Some((text, rest)) = text_at(octets) else {
        return Ok(None);
    };
    let Some(secret) = Secret::read(alloc, text)? else {
        return Ok(None);
    };
    Ok(Some((secret, rest)))
}

#[tactic(auto, unfolding(crate::specs::Reading::key_for))]
fn key_for(kind: u8, user: Name, octets: &[u8]) -> Option<(Key, &[u8])>
    ensures { FindsAsRead (λ x. (key_seen x.0, x.1.now)) result (key_for kind user octets.now) }
{
    if kind == PROFILE {
        return Some((Key::Profile(user), octets));
    }
    if kind != MESSAGE {
        return None;
    }
    let Some((id, rest)) = id_at(octets) else {
        return None;
    };
    Some((Key::Message(user, id), rest))
}

#[tactic(auto, unfolding(crate::specs::Reading::key_at))]
fn key_at(alloc: Global, octets: &[u8]) -> Result<Option<(Key, &[u8])>, AllocError>
    ensures { ReadsPart (λ x. (key_seen x.0, x.1.now)) result (key_at octets.now) }
{
    let Some((kind, rest)) = octet_at(octets) else {
        return Ok(None);
    };
    let Some((user, rest)) = name_at(alloc, rest)? else {
        return Ok(None);
    };
    Ok(key_for(kind, user, rest))
}

#[tactic(auto, unfolding(crate::specs::Reading::value_at))]
fn value_at(alloc: Global, rank: u8, octets: &[u8]) -> Result<Option<(Value, &[u8])>, AllocError>
    ensures { ReadsPart (λ x. (value_seen x.0, x.1.now)) result (value_at rank octets.now) }
{
    if rank == HERE {
        return Ok(Some((Value::Here, octets)));
    }
    if rank == GONE {
        return Ok(Some((Value::Gone, octets)));
    }
    if rank != SECRET {
        return Ok(None);
    }
    let Some((secret, rest)) = secret_at(alloc, octets)? else {
        return Ok(None);
    };
    Ok(Some((Value::Secret(secret), rest)))
}

#[tactic(auto, unfolding(crate::specs::Reading::state_at))]
fn state_at(alloc: Global, octets: &[u8]) -> Result<Option<(ObjState, &[u8])>, AllocError>
    ensures { ReadsPart (λ x. (x.0, x.1.now)) result (state_at octets.now) }
{
    let Some((rank, rest)) = octet_at(octets) else {
        return Ok(None);
    };
    let Some((stamp, rest)) = stamp_at(rest) else {
        return Ok(None);
    };
    let Some((targets, rest)) = targets_at(rest) else {
        return Ok(None);
    };
    let Some((value, rest)) = value_at(alloc, rank, rest)? else {
        return Ok(None);
    };
    Ok(Some((ObjState::new(value, stamp, targets), rest)))
}

fn is_of_kind(key: &Key, value: &Value) -> bool
    ensures { result ≡ is_of_kind (key_seen key.now) (value_seen value.now) }
{
    match (key, value) {
        (Key::Profile(_), Value::Secret(_)) => true,
        (Key::Profile(_), Value::Here | Value::Gone) => false,
        (Key::Message(_, _), Value::Secret(_)) => false,
        (Key::Message(_, _), Value::Here | Value::Gone) => true,
    }
}

// A key and a state of it, with nothing after them.
#[tactic(auto, unfolding(crate::specs::Reading::object_in))]
fn object_in(alloc: Global, octets: &[u8]) -> Result<Option<(Key, ObjState)>, AllocError>
    ensures { ReadsPart (λ x. (key_seen x.0, x.1)) result (object_in octets.now) }
{
    let Some((key, rest)) = key_at(alloc, octets)? else {
        return Ok(None);
    };
    let Some((state, rest)) = state_at(alloc, rest)? else {
        return Ok(None);
    };
    if !rest.is_empty() || !is_of_kind(&key, &state.value) {
        return Ok(None);
    }
    Ok(Some((key, state)))
}

#[tactic(auto, unfolding(crate::specs::Reading::boot_in))]
fn boot_in(octets: &[u8]) -> Option<u32>
    ensures { FindsAsRead (λ x. x) result (boot_in octets.now) }
{
    let (boot, rest) = u32_at(octets)?;
    if !rest.is_empty() || boot == 0 {
        return None;
    }
    Some(boot)
}

#[tactic(auto, unfolding(crate::specs::Reading::promise_in))]
fn promise_in(octets: &[u8]) -> Option<EpochId>
    ensures { FindsAsRead (λ x. x) result (promise_in octets.now) }
{
    let Some((epoch, rest)) = epoch_at(octets) else {
        return None;
    };
    if !rest.is_empty() {
        return None;
    }
    Some(epoch)
}

fn octets_entry(id: MsgId, octets: &[u8]) -> DiskEntry
    ensures { IsEntryOf result (Octets id octets.now) }
{
    DiskEntry::Octets {
        id,
        length: octets.len() as u64,
    }
}

// The entry of a message's octets, whose id these octets begin with.
fn octets_in(octets: &[u8]) -> Option<DiskEntry>
    ensures { FindsEntry result (option_map (λ id. Octets id.0 id.1) (id_at octets.now)) }
{
    let Some((id, rest)) = id_at(octets) else {
        return None;
    };
    Some(octets_entry(id, rest))
}

fn state_in(alloc: Global, octets: &[u8]) -> Result<Option<DiskEntry>, AllocError>
    ensures { AnswersEntry result (option_map (λ one. Stated one.0 one.1) (object_in octets.now)) }
{
    let Some((key, state)) = object_in(alloc, octets)? else {
        return Ok(None);
    };
    Ok(Some(DiskEntry::State { key, state }))
}

fn retired_in(alloc: Global, octets: &[u8]) -> Result<Option<DiskEntry>, AllocError>
    ensures { AnswersEntry result (option_map (λ one. Retired one.0 one.1) (object_in octets.now)) }
{
    let Some((key, state)) = object_in(alloc, octets)? else {
        return Ok(None);
    };
    Ok(Some(DiskEntry::Retired { key, state }))
}

fn begun_in(octets: &[u8]) -> Option<DiskEntry>
    ensures { FindsEntry result (option_map Boot (boot_in octets.now)) }
{
    let boot = boot_in(octets)?;
    Some(DiskEntry::Boot { boot })
}

fn promised_in(octets: &[u8]) -> Option<DiskEntry>
    ensures { FindsEntry result (option_map Promise (promise_in octets.now)) }
{
    let epoch = promise_in(octets)?;
    Some(DiskEntry::Promise { epoch })
}

// The entry of this kind that the octets after the kind spell.
#[tactic(auto, unfolding(crate::specs::Reading::record_in))]
fn entry_in(alloc: Global, kind: u8, octets: &[u8]) -> Result<Option<DiskEntry>, AllocError>
    ensures { AnswersEntry result (record_in kind octets.now) }
{
    match kind {
        BOOT => Ok(begun_in(octets)),
        PROMISE => Ok(promised_in(octets)),
        OCTETS => Ok(octets_in(octets)),
        STATE => state_in(alloc, octets),
        RETIRED => retired_in(alloc, octets),
        _ => Ok(None),
    }
}

/// The entry that the payload spells; nothing where it spells none. What was read can be written again.
///
/// # Errors
///
/// Out of memory alone.
pub fn read_record(alloc: Global, payload: &[u8]) -> Result<Option<DiskEntry>, AllocError>
    ensures reads { IfOk result (λ found. ReadsAs payload.now found) }
    ensures again { IfOk result (λ found. IfSome found (λ entry. IsRecord (head_record entry))) }
{
    let Some((kind, octets)) = octet_at(payload) else {
        return Ok(None);
    };
    entry_in(alloc, kind, octets)
}
