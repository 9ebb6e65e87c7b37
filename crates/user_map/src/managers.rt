// Who manages a user by a map.
ghost use Rattle.std.specs.Prelude.{◌≡◌};
ghost use Rattle.user_map.specs.Managers.{manager_by, is_managed_by};

use mail_base::{Name, NodeNo, UserMap, bucket_of};

/// The node that manages the user's bucket by this map; nothing exactly where the map has no buckets. It takes no memory.
pub fn manager(map: &UserMap, user: &Name) -> Option<NodeNo>
    ensures { result ≡ manager_by map.now user.now }
{
    let buckets = map.buckets();
    if buckets == 0 {
        return None;
    }
    map.manager_of(bucket_of(user, buckets))
}

/// Whether the node manages the user's bucket by this map. It takes no memory.
pub fn manages(map: &UserMap, node: NodeNo, user: &Name) -> bool
    ensures { result ≡ is_managed_by map.now node user.now }
{
    match manager(map, user) {
        Some(manager) => manager == node,
        None => false,
    }
}
