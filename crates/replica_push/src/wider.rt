//! How a copy that is here gets one target more.
ghost use Rattle.std.specs.Prelude.{◌≡◌, is_some, Some, None, IfSome, IfOk, OnOk, OnErr};
ghost use Rattle.std.specs.FinMap as fin;
ghost use Rattle.mail_model.specs.Grammar.{IsOfKind};
ghost use Rattle.mail_model.specs.Listing.{is_here};
ghost use Rattle.mail_base.specs.Seen.{key_seen, value_seen};
ghost use Rattle.replica_push.specs.Pushes.{wider, wider_of, put_news, note_news};

use crate::pushes::put_next;
use mail_base::{Key, NodeNo, ObjState, Value};
use object_table::ObjectTable;
use std::alloc::AllocError;
use update_log::UpdateLog;

fn stands_here(value: &Value) -> bool
    ensures { result ≡ is_here (value_seen value.now) }
{
    match value {
        Value::Here => true,
        Value::Gone => false,
        Value::Secret(_) => false,
    }
}

// The state with this target, where it is Here and lacks it.
fn widened(held: &ObjState, to: NodeNo) -> Option<ObjState>
    ensures value { result ≡ wider_of held.now to }
    ensures here { IfSome result (λ next. next.value ≡ held.now.value) }
{
    if stands_here(&held.value) && !held.targets.has(to) {
        Some(ObjState::new(Value::Here, held.stamp, held.targets.with(to)))
    } else {
        None
    }
}

fn wider_at(table: &ObjectTable, key: &Key, to: NodeNo) -> Option<ObjState>
    ensures value { result ≡ wider (fin.get table.now (key_seen key.now)) to }
    ensures kind { IfSome result (λ next. IsOfKind (key_seen key.now) next.value) }
{
    match table.state(key) {
        Some(held) => widened(held, to),
        None => None,
    }
}

/// Adds a target to a copy that is here, and notes the state for its targets; false exactly where the object is not Here
/// or has the target. At true the state is to be recorded.
///
/// It takes time logarithmic in the number of objects and of entries.
///
/// # Errors
///
/// Out of memory alone; table and log are then as before.
pub fn widen(
    table: &mut ObjectTable,
    log: &mut UpdateLog,
    key: &Key,
    to: NodeNo,
    own: NodeNo,
) -> Result<bool, AllocError>
    ensures answer { IfOk result (λ widened. widened ≡ is_some (wider (fin.get table.old (key_seen key.now)) to)) }
    ensures table { OnOk result (table.new ≡ put_news (key_seen key.now) (wider (fin.get table.old (key_seen key.now)) to) table.old) }
    ensures log { OnOk result (log.new ≡ note_news own (key_seen key.now) (wider (fin.get table.old (key_seen key.now)) to) log.old) }
    ensures table_err { OnErr result (table.new ≡ table.old) }
    ensures log_err { OnErr result (log.new ≡ log.old) }
{
    let Some(next) = wider_at(table, key, to) else {
        return Ok(false);
    };
    put_next(table, log, key, next, own)?;
    Ok(true)
}
