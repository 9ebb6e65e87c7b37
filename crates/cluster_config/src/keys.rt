// Which keys a plan file has.
ghost use Rattle.std.specs.Prelude.{◌≡◌, option_map};
ghost use Rattle.toml.specs.View.{view, table_view, array_view};
ghost use Rattle.cluster_config.specs.Keys.{is_among, file_keys, user_keys, are_known, has_known, all_have_known, each_has_known, has_known_keys};
ghost use Rattle.cluster_config.specs.Owners.{keys_of};

use toml::Value;
use toml::value::{Array, Table};

/// What has keys.
#[derive(Clone, Copy, Debug, PartialEq, Eq)]
pub(crate) enum Owner {
    /// The file, at its top.
    File,
    /// A user.
    User,
}

fn is_file_key(key: &str) -> bool
    ensures { result ≡ is_among file_keys key.now }
{
    matches!(
        key,
        "nodes"
            | "copies"
            | "confirm"
            | "buckets"
            | "shards"
            | "users"
            | "postmaster"
            | "folder"
            | "smtp_port"
            | "pop_port"
    )
}

fn is_user_key(key: &str) -> bool
    ensures { result ≡ is_among user_keys key.now }
{
    matches!(key, "name" | "secret")
}

fn is_known(owner: Owner, key: &str) -> bool
    ensures { result ≡ is_among (keys_of owner) key.now }
{
    match owner {
        Owner::File => is_file_key(key),
        Owner::User => is_user_key(key),
    }
}

fn are_known(owner: Owner, table: &Table) -> bool
    ensures { result ≡ are_known (keys_of owner) (table_view table.now) }
{
    for (key, _) in table.iter() {
        if !is_known(owner, key.as_str()) {
            return false;
        }
    }
    true
}

fn has_known(owner: Owner, value: &Value) -> bool
    ensures { result ≡ has_known (keys_of owner) (view value.now) }
{
    match value.as_table() {
        Some(table) => are_known(owner, table),
        None => true,
    }
}

#[tactic(auto, using(crate::proofs::Parts::known_next))]
fn users_have_known(items: &Array) -> bool
    ensures { result ≡ all_have_known user_keys (array_view items.now) }
{
    for item in items {
        if !has_known(Owner::User, item) {
            return false;
        }
    }
    true
}

fn each_user_has_known(users: Option<&Value>) -> bool
    ensures { result ≡ each_has_known user_keys (option_map (λ v. view v.now) users.entry) }
{
    match users.and_then(Value::as_array) {
        Some(items) => users_have_known(items),
        None => true,
    }
}

/// Whether all keys of the file are those of a plan file, and all keys of its users those of a user.
pub(crate) fn has_known_keys(file: &Value) -> bool
    ensures { result ≡ has_known_keys (view file.now) }
{
    has_known(Owner::File, file) && each_user_has_known(file.get("users"))
}
