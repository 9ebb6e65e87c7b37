//! How a pushed state is heard.
ghost use Rattle.std.specs.Prelude.{◌≡◌, IsSome, Some, None, IfOk, IsOk, OnOk, OnErr};
ghost use Rattle.std.specs.FinMap as fin;
ghost use Rattle.mail_model.specs.Grammar.{IsOfKind};
ghost use Rattle.object_model.specs.UpdateLog.{noted};
ghost use Rattle.mail_base.specs.Seen.{key_seen};
ghost use Rattle.object_table.specs.Tables.{taken};
ghost use Rattle.replica_push.specs.Pushes.{news_of, note_news};

use mail_base::{Key, NodeNo, ObjState};
use object_table::{ObjectTable, is_news, join};
use std::alloc::AllocError;
use update_log::UpdateLog;

// The join of both, where it differs from what is held.
fn news(held: &ObjState, state: &ObjState) -> Result<Option<ObjState>, AllocError>
    ensures news { IfOk result (λ next. next ≡ news_of (Some held.now) state.now) }
    ensures known { news_of (Some held.now) state.now ≡ None → IsOk result }
{
    if !is_news(held, state) {
        return Ok(None);
    }
    Ok(Some(join(held, state)?))
}

// What the state makes of the one that stands: the join where it is another; nothing where it is the same.
fn news_at(table: &ObjectTable, key: &Key, state: &ObjState) -> Result<Option<ObjState>, AllocError>
    ensures news { IfOk result (λ next. next ≡ news_of (fin.get table.now (key_seen key.now)) state.now) }
    ensures known { news_of (fin.get table.now (key_seen key.now)) state.now ≡ None → IsOk result }
{
    match table.state(key) {
        Some(held) => news(held, state),
        None => Ok(Some(state.copy()?)),
    }
}

/// Puts the state in place of the one that stands, and notes it. It answers the state once more, for its record.
pub(crate) fn put_next(
    table: &mut ObjectTable,
    log: &mut UpdateLog,
    key: &Key,
    next: ObjState,
    own: NodeNo,
) -> Result<ObjState, AllocError>
    requires stands { IsSome (fin.get table.old (key_seen key.now)) }
    requires kind { IsOfKind (key_seen key.now) next.value }
    ensures recorded { IfOk result (λ recorded. recorded ≡ next) }
    ensures table { OnOk result (table.new ≡ fin.insert table.old (key_seen key.now) next) }
    ensures log { OnOk result (log.new ≡ noted own (key_seen key.now) next log.old) }
    ensures table_err { OnErr result (table.new ≡ table.old) }
    ensures log_err { OnErr result (log.new ≡ log.old) }
{
    let recorded = next.copy()?;
    log.note(key, &next, own)?;
    table.replace(key, next);
    Ok(recorded)
}

// Takes the first state of an object that the log has an entry of.
fn take_noted(
    table: &mut ObjectTable,
    log: &mut UpdateLog,
    key: &Key,
    state: ObjState,
    own: NodeNo,
) -> Result<ObjState, AllocError>
    requires stands { IsSome (fin.get log.old (key_seen key.now)) }
    requires kind { IsOfKind (key_seen key.now) state.value }
    ensures recorded { IfOk result (λ recorded. recorded ≡ state) }
    ensures table { OnOk result (table.new ≡ taken (key_seen key.now) state table.old) }
    ensures log { OnOk result (log.new ≡ noted own (key_seen key.now) state log.old) }
    ensures table_err { OnErr result (table.new ≡ table.old) }
    ensures log_err { OnErr result (log.new ≡ log.old) }
{
    let recorded = state.copy()?;
    table.take(key, &state)?;
    log.note_again(key, state, own);
    Ok(recorded)
}

// Takes the first state of an object that the log has no entry of. Where the table has no memory for it, the entry goes
// again.
fn note_taken(
    table: &mut ObjectTable,
    log: &mut UpdateLog,
    key: &Key,
    state: ObjState,
    own: NodeNo,
) -> Result<ObjState, AllocError>
    requires none { fin.get log.old (key_seen key.now) ≡ None }
    requires kind { IsOfKind (key_seen key.now) state.value }
    ensures recorded { IfOk result (λ recorded. recorded ≡ state) }
    ensures table { OnOk result (table.new ≡ taken (key_seen key.now) state table.old) }
    ensures log { OnOk result (log.new ≡ noted own (key_seen key.now) state log.old) }
    ensures table_err { OnErr result (table.new ≡ table.old) }
    ensures log_err { OnErr result (log.new ≡ log.old) }
{
    log.note(key, &state, own)?;
    match table.take(key, &state) {
        Ok(_) => Ok(state),
        Err(refused) => {
            log.retire(key, &state);
            Err(refused)
        }
    }
}

// Takes the first state of an object, and notes it.
fn put_first(
    table: &mut ObjectTable,
    log: &mut UpdateLog,
    key: &Key,
    state: ObjState,
    own: NodeNo,
) -> Result<ObjState, AllocError>
    requires { IsOfKind (key_seen key.now) state.value }
    ensures recorded { IfOk result (λ recorded. recorded ≡ state) }
    ensures table { OnOk result (table.new ≡ taken (key_seen key.now) state table.old) }
    ensures log { OnOk result (log.new ≡ noted own (key_seen key.now) state log.old) }
    ensures table_err { OnErr result (table.new ≡ table.old) }
    ensures log_err { OnErr result (log.new ≡ log.old) }
{
    if log.entry(key).is_some() {
        take_noted(table, log, key, state, own)
    } else {
        note_taken(table, log, key, state, own)
    }
}

/// Hears a state that another node pushed: joins it to what stands, and notes the join for its targets where it differs
/// from that. It answers that join, which is to be recorded; nothing where nothing changed. The push is acknowledged in
/// both cases.
///
/// It takes time logarithmic in the number of objects and of entries. A state that adds nothing takes no memory, so its
/// push is always answered.
///
/// # Errors
///
/// Only out of memory; table and log are then as before.
pub fn hear_push(
    table: &mut ObjectTable,
    log: &mut UpdateLog,
    key: &Key,
    state: &ObjState,
    own: NodeNo,
) -> Result<Option<ObjState>, AllocError>
    requires { IsOfKind (key_seen key.now) state.now.value }
    ensures answer { IfOk result (λ recorded. recorded ≡ news_of (fin.get table.old (key_seen key.now)) state.now) }
    ensures table { OnOk result (table.new ≡ taken (key_seen key.now) state.now table.old) }
    ensures log { OnOk result (log.new ≡ note_news own (key_seen key.now) (news_of (fin.get table.old (key_seen key.now)) state.now) log.old) }
    ensures table_err { OnErr result (table.new ≡ table.old) }
    ensures log_err { OnErr result (log.new ≡ log.old) }
    ensures known { news_of (fin.get table.old (key_seen key.now)) state.now ≡ None → IsOk result }
{
    match news_at(table, key, state)? {
        None => Ok(None),
        Some(next) => {
            if table.state(key).is_some() {
                Ok(Some(put_next(table, log, key, next, own)?))
            } else {
                Ok(Some(put_first(table, log, key, next, own)?))
            }
        }
    }
}
