// The users of a plan file, and its postmaster.
ghost use Rattle.std.specs.Prelude.{◌≡◌, Some, None, IfOk, MatchBool};
ghost use Rattle.std.specs.FinMap as map;
ghost use Rattle.std.specs.Option.{option_copied};
ghost use Rattle.toml.specs.Data.{array};
ghost use Rattle.toml.specs.View.{view, array_view};
ghost use Rattle.cluster_config.specs.Values.{text_at};
ghost use Rattle.cluster_config.specs.People.{name_of, secret_of, with_item, with_items, users_in, users_of, postmaster_of};

use mail_base::{Name, Secret, Users};
use std::alloc::{AllocError, Global};
use toml::Value;
use toml::value::Array;

/// The greatest number of users.
const MOST_USERS: usize = 4096;

/// The text under the key; nothing where there is none.
pub(crate) fn text_at<'a>(file: &'a Value, key: &str) -> Option<&'a str>
    ensures { option_copied result ≡ text_at key.now (view file.now) }
{
    match file.get(key) {
        Some(value) => value.as_str(),
        None => None,
    }
}

fn read_name(alloc: Global, text: Option<&str>) -> Result<Option<Name>, AllocError>
    ensures { IfOk result (λ name. name ≡ name_of (option_copied text.entry)) }
{
    match text {
        Some(text) => Name::spelt(alloc, text.as_bytes()),
        None => Ok(None),
    }
}

fn read_secret(alloc: Global, text: Option<&str>) -> Result<Option<Secret>, AllocError>
    ensures { IfOk result (λ secret. secret ≡ secret_of (option_copied text.entry)) }
{
    match text {
        Some(text) => Secret::read(alloc, text.as_bytes()),
        None => Ok(None),
    }
}

// Adds the user that the item is, and answers whether it is one.
fn add_item(alloc: Global, users: &mut Users, item: &Value) -> Result<bool, AllocError>
    ensures { IfOk result (λ is. MatchBool is (with_item users.old (view item.now) ≡ Some users.new) (with_item users.old (view item.now) ≡ None)) }
{
    let name = read_name(alloc, text_at(item, "name"))?;
    let secret = read_secret(alloc, text_at(item, "secret"))?;
    let (Some(name), Some(secret)) = (name, secret) else {
        return Ok(false);
    };
    users.insert(name, secret)?;
    Ok(true)
}

// The users that the items are; nothing where one of them is none.
#[tactic(auto, using(crate::proofs::Parts::item_next))]
fn read_items(alloc: Global, items: &Array) -> Result<Option<Users>, AllocError>
    ensures { IfOk result (λ users. users ≡ with_items (Some map.empty) (array_view items.now)) }
{
    let mut users = Users::new(alloc);
    for item in items {
        if !add_item(alloc, &mut users, item)? {
            return Ok(None);
        }
    }
    Ok(Some(users))
}

#[tactic(auto, using(crate::proofs::Parts::counted, crate::proofs::Parts::too_many))]
fn read_all(alloc: Global, items: &Array) -> Result<Option<Users>, AllocError>
    ensures { IfOk result (λ users. users ≡ users_in (Some (array (array_view items.now)))) }
{
    if MOST_USERS < items.len() {
        return Ok(None);
    }
    let Some(users) = read_items(alloc, items)? else {
        return Ok(None);
    };
    if users.len() == items.len() {
        Ok(Some(users))
    } else {
        Ok(None)
    }
}

/// Rule 7: the users.
pub(crate) fn read_users(alloc: Global, file: &Value) -> Result<Option<Users>, AllocError>
    ensures { IfOk result (λ users. users ≡ users_of (view file.now)) }
{
    match file.get("users") {
        None => Ok(Some(Users::new(alloc))),
        Some(value) => match value.as_array() {
            Some(items) => read_all(alloc, items),
            None => Ok(None),
        },
    }
}

/// Rule 8: the postmaster.
pub(crate) fn read_postmaster(
    alloc: Global,
    file: &Value,
    users: &Users,
) -> Result<Option<Name>, AllocError>
    ensures { IfOk result (λ name. name ≡ postmaster_of (Some users.now) (view file.now)) }
{
    let Some(name) = read_name(alloc, text_at(file, "postmaster"))? else {
        return Ok(None);
    };
    Ok(if users.has(&name) { Some(name) } else { None })
}
