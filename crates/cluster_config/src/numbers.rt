// The numbers of a plan file: its rules on nodes, copies, buckets and shards.
ghost use Rattle.std.specs.Prelude.{◌≡◌, Some, is_some, IfSome, option_map, codes};
ghost use Rattle.toml.specs.View.{view};
ghost use Rattle.cluster_config.specs.Values.{natural, number_at};
ghost use Rattle.cluster_config.specs.Rules.{has_nodes, has_copies, has_buckets, has_shards, shards_in, shards_of};

use toml::Value;

/// The greatest number of shards.
const MOST_SHARDS: u64 = 1;

/// The whole number under the key; nothing where there is none, or it is negative.
pub(crate) fn number_at(file: &Value, key: &str) -> Option<u64>
    ensures { result ≡ number_at key.now (view file.now) }
{
    match file.get(key) {
        Some(value) => natural(value),
        None => None,
    }
}

fn natural(value: &Value) -> Option<u64>
    ensures { result ≡ natural (Some (view value.now)) }
{
    match value.as_integer() {
        Some(number) => u64::try_from(number).ok(),
        None => None,
    }
}

/// Rule 3: the number of nodes.
pub(crate) fn read_nodes(file: &Value) -> Option<u8>
    ensures rule { is_some result ≡ has_nodes (view file.now) }
    ensures value { IfSome result (λ nodes. number_at (codes "nodes") (view file.now) ≡ Some nodes) }
{
    match number_at(file, "nodes") {
        Some(nodes) if 1 <= nodes && nodes <= 16 => Some(nodes as u8),
        _ => None,
    }
}

/// Rule 4: the numbers of copies and of confirmations.
pub(crate) fn read_copies(file: &Value, nodes: u8) -> Option<(u8, u8)>
    requires { number_at (codes "nodes") (view file.now) ≡ Some nodes }
    ensures rule { is_some result ≡ has_copies (view file.now) }
    ensures copies { IfSome result (λ both. number_at (codes "copies") (view file.now) ≡ Some both.0) }
    ensures confirm { IfSome result (λ both. number_at (codes "confirm") (view file.now) ≡ Some both.1) }
{
    let copies = number_at(file, "copies")?;
    let confirm = number_at(file, "confirm")?;
    if copies <= u64::from(nodes) && confirm <= copies && 1 <= confirm {
        Some((copies as u8, confirm as u8))
    } else {
        None
    }
}

/// Rule 5: the number of buckets.
pub(crate) fn read_buckets(file: &Value) -> Option<u32>
    ensures rule { is_some result ≡ has_buckets (view file.now) }
    ensures value { IfSome result (λ buckets. number_at (codes "buckets") (view file.now) ≡ Some buckets) }
{
    match number_at(file, "buckets") {
        Some(buckets) if 1 <= buckets && buckets <= 1024 => Some(buckets as u32),
        _ => None,
    }
}

// What `shards` says, and 1 where it is missing.
fn shards_in(value: Option<&Value>) -> Option<u64>
    ensures { result ≡ shards_in (option_map (λ v. view v.now) value.entry) }
{
    match value {
        Some(value) => natural(value),
        None => Some(1),
    }
}

/// Rule 6: the number of shards.
pub(crate) fn read_shards(file: &Value, buckets: u32) -> Option<u16>
    requires { number_at (codes "buckets") (view file.now) ≡ Some buckets }
    ensures rule { is_some result ≡ has_shards (view file.now) }
    ensures value { IfSome result (λ shards. shards_of (view file.now) ≡ Some shards) }
{
    match shards_in(file.get("shards")) {
        Some(shards) if 1 <= shards && shards <= MOST_SHARDS && shards <= u64::from(buckets) => {
            Some(shards as u16)
        }
        _ => None,
    }
}
