//! How two states of one object become one.
ghost use Rattle.std.specs.Prelude.{◌≡◌, not, IfOk, IsOk};
ghost use Rattle.mail_model.specs.Record.{rank_of};
ghost use Rattle.object_model.specs.States.{secret_in, state_cmp, joined, is_same_state};
ghost use Rattle.mail_base.specs.Seen.{value_seen, IsOfMessage};

use mail_base::{ObjState, Value};
use std::alloc::AllocError;
use std::cmp::Ordering;

// Gone is above Here.
fn rank(value: &Value) -> u8
    ensures { result ≡ rank_of (value_seen value.now) }
{
    match value {
        Value::Here => 1,
        Value::Gone => 2,
        Value::Secret(_) => 3,
    }
}

// The octets of a secret; none of any other value.
fn secret_octets(value: &Value) -> &[u8]
    ensures { result.now ≡ secret_in (value_seen value.now) }
{
    match value {
        Value::Here => &[],
        Value::Gone => &[],
        Value::Secret(secret) => secret.octets(),
    }
}

// Which of two states is the later: by value, then by stamp, then by secret. Targets count for nothing.
fn compare(a: &ObjState, b: &ObjState) -> Ordering
    ensures { result ≡ state_cmp a.now b.now }
{
    rank(&a.value)
        .cmp(&rank(&b.value))
        .then(a.stamp.count.cmp(&b.stamp.count))
        .then(a.stamp.boot.cmp(&b.stamp.boot))
        .then(a.stamp.node.cmp(&b.stamp.node))
        .then(secret_octets(&a.value).cmp(secret_octets(&b.value)))
}

/// The join of two states of one object: the later of both by value, stamp and secret, with the targets of both.
///
/// On states of a message it takes no memory, and answers.
///
/// # Errors
///
/// Out of memory alone for a secret.
pub fn join(a: &ObjState, b: &ObjState) -> Result<ObjState, AllocError>
    ensures joined { IfOk result (λ state. state ≡ joined a.now b.now) }
    ensures of_messages { IsOfMessage a.now.value → IsOfMessage b.now.value → IsOk result }
{
    let later = if compare(a, b).is_lt() { b } else { a };
    Ok(ObjState::new(later.value.copy()?, later.stamp, a.targets.union(b.targets)))
}

/// Whether the state adds anything to the one that is held: whether their join is another state. It takes no memory.
pub fn is_news(held: &ObjState, state: &ObjState) -> bool
    ensures { result ≡ not (is_same_state (joined held.now state.now) held.now) }
{
    compare(held, state).is_lt() || held.targets.union(state.targets) != held.targets
}
