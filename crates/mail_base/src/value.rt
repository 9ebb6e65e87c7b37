// What an object is.
ghost use Rattle.std.specs.Prelude.{◌≡◌, IfOk, IsOk};
ghost use Rattle.object_model.specs.States.{is_same_value};
ghost use Rattle.mail_base.specs.Seen.{value_seen, IsOfMessage};

use crate::Secret;
use std::alloc::AllocError;

/// What an object is: a user's copy of a message that is here or gone, or a user's secret.
#[derive(Drop)]
pub enum Value {
    /// The copy is here.
    Here,
    /// The copy was deleted.
    Gone,
    /// The user's secret.
    Secret(Secret),
}

impl Value {
    /// The same value once more. It takes memory for a secret alone, and answers for any other value.
    ///
    /// # Errors
    ///
    /// Out of memory alone.
    pub fn copy(&self) -> Result<Value, AllocError>
        ensures same { IfOk result (λ value. value ≡ self.now) }
        ensures of_messages { IsOfMessage (value_seen self.now) → IsOk result }
    {
        Ok(match self {
            Value::Here => Value::Here,
            Value::Gone => Value::Gone,
            Value::Secret(secret) => Value::Secret(secret.copy()?),
        })
    }

    /// Whether both are the same value. It takes no memory.
    pub fn is_same(&self, other: &Value) -> bool
        ensures { result ≡ is_same_value (value_seen self.now) (value_seen other.now) }
    {
        match (self, other) {
            (Value::Here, Value::Here) => true,
            (Value::Gone, Value::Gone) => true,
            (Value::Secret(a), Value::Secret(b)) => a.is_same(b),
            (Value::Here, Value::Gone) => false,
            (Value::Here, Value::Secret(_)) => false,
            (Value::Gone, Value::Here) => false,
            (Value::Gone, Value::Secret(_)) => false,
            (Value::Secret(_), Value::Here) => false,
            (Value::Secret(_), Value::Gone) => false,
        }
    }
}
