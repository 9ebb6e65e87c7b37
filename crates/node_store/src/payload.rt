//! The payloads of records of states, boots and promises.
ghost use Rattle.std.specs.Prelude.{◌≡◌, ◌≤◌, ◌<◌, length, IfOk};
ghost use Rattle.mail_model.specs.Grammar.{IsNodeNumber, IsObject};
ghost use Rattle.mail_model.specs.Record.{payload_of};
ghost use Rattle.mail_model.specs.Record.Record.{Boot, Promise, Stated, Retired};
ghost use Rattle.mail_base.specs.Seen.{key_seen};

use mail_base::{EpochId, Key, ObjState};
use record_form::{DiskEntry, record_into};
use std::alloc::{AllocError, Global};

/// The payload of the record that a boot began.
pub(crate) fn boot_payload(alloc: Global, boot: u32) -> Result<Vec<u8>, AllocError>
    requires { 0 < boot }
    ensures spelt { IfOk result (λ payload. payload.items ≡ payload_of (Boot boot)) }
    ensures short { IfOk result (λ payload. length payload.items ≤ 256) }
{
    let mut payload = Vec::new(alloc);
    record_into(alloc, &mut payload, &DiskEntry::Boot { boot })?;
    Ok(payload)
}

/// The payload of the record that the node promised the epoch.
pub(crate) fn promise_payload(alloc: Global, epoch: EpochId) -> Result<Vec<u8>, AllocError>
    requires { IsNodeNumber epoch.node }
    ensures spelt { IfOk result (λ payload. payload.items ≡ payload_of (Promise epoch)) }
    ensures short { IfOk result (λ payload. length payload.items ≤ 256) }
{
    let mut payload = Vec::new(alloc);
    record_into(alloc, &mut payload, &DiskEntry::Promise { epoch })?;
    Ok(payload)
}

fn state_entry(key: &Key, state: &ObjState) -> Result<DiskEntry, AllocError>
    ensures { IfOk result (λ entry. entry ≡ DiskEntry.State key.now state.now) }
{
    let key = key.copy()?;
    let state = state.copy()?;
    Ok(DiskEntry::State { key, state })
}

fn retired_entry(key: &Key, state: &ObjState) -> Result<DiskEntry, AllocError>
    ensures { IfOk result (λ entry. entry ≡ DiskEntry.Retired key.now state.now) }
{
    let key = key.copy()?;
    let state = state.copy()?;
    Ok(DiskEntry::Retired { key, state })
}

/// The payload of the record that an object has this state.
#[tactic(auto, using(crate::proofs::Short::short_state))]
pub(crate) fn state_payload(
    alloc: Global,
    key: &Key,
    state: &ObjState,
) -> Result<Vec<u8>, AllocError>
    requires { IsObject (key_seen key.now) state.now }
    ensures spelt { IfOk result (λ payload. payload.items ≡ payload_of (Stated (key_seen key.now) state.now)) }
    ensures short { IfOk result (λ payload. length payload.items ≤ 256) }
{
    let mut payload = Vec::new(alloc);
    record_into(alloc, &mut payload, &state_entry(key, state)?)?;
    Ok(payload)
}

/// The payload of the record that all other targets of this state have it.
#[tactic(auto, using(crate::proofs::Short::short_retired))]
pub(crate) fn retired_payload(
    alloc: Global,
    key: &Key,
    state: &ObjState,
) -> Result<Vec<u8>, AllocError>
    requires { IsObject (key_seen key.now) state.now }
    ensures spelt { IfOk result (λ payload. payload.items ≡ payload_of (Retired (key_seen key.now) state.now)) }
    ensures short { IfOk result (λ payload. length payload.items ≤ 256) }
{
    let mut payload = Vec::new(alloc);
    record_into(alloc, &mut payload, &retired_entry(key, state)?)?;
    Ok(payload)
}
