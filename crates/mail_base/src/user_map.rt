// Which node manages each bucket of users.
ghost use Rattle.std.specs.Prelude.{◌≡◌, ◌<◌, ◌^◌, length, slice_get, IfOk};
ghost use Rattle.std.specs.Option.{option_map};

use crate::{EpochId, NodeNo};
use std::alloc::AllocError;
use std::marker::Model;

/// Who manages one bucket.
#[derive(Clone, Copy, Debug)]
pub struct MapRow {
    /// The node.
    pub manager: NodeNo,
    /// The epoch since which it does.
    pub since: EpochId,
}

impl Model for MapRow {
    ghost use Rattle.object_model.specs.Letters.{MapRow as Seen};

    ghost Value = { Seen };

    ghost view = { λ r. record { manager = r.manager; since = r.since } };

    ghost inverse = { λ r. record { manager = r.manager; since = r.since } };
}

impl MapRow {
    /// The row of these parts.
    pub fn new(manager: NodeNo, since: EpochId) -> MapRow
        ensures { result ≡ record { manager = manager; since = since } }
    {
        MapRow { manager, since }
    }
}

/// The manager of each bucket, in rising order of buckets. A contract sees the list of rows.
#[derive(Debug, Drop)]
pub struct UserMap {
    rows: Vec<MapRow>,
}

impl Model for UserMap {
    ghost use Rattle.std.specs.Prelude.{List, length, ◌<◌, ◌^◌};
    ghost use Rattle.object_model.specs.Letters.{MapRow as Seen};

    ghost Value = { List Seen };

    ghost view = { λ m. m.rows.items };

    ghost invariant = { λ m. length m.rows.items < 2 ^ 32 };
}

impl UserMap {
    /// The map of these rows, one for each bucket from 0 on. It takes no memory.
    pub fn from_rows(rows: Vec<MapRow>) -> UserMap
        requires { length rows.items < 2 ^ 32 }
        ensures { result ≡ rows.items }
    {
        UserMap { rows }
    }

    /// The rows, one for each bucket from 0 on.
    pub fn rows(&self) -> &[MapRow]
        ensures { result.now ≡ self.now }
    {
        &self.rows
    }

    /// How many buckets there are. It takes no memory.
    pub fn buckets(&self) -> u32
        ensures { result ≡ length self.now }
    {
        self.rows.len() as u32
    }

    /// The node that manages the bucket; nothing exactly where there is no such bucket. It takes no memory.
    pub fn manager_of(&self, bucket: u32) -> Option<NodeNo>
        ensures { result ≡ option_map (λ row. row.manager) (slice_get self.now bucket) }
    {
        match self.rows.get(bucket as usize) {
            Some(row) => Some(row.manager),
            None => None,
        }
    }

    /// The epoch since which the bucket has its manager; nothing exactly where there is no such bucket. It takes no memory.
    pub fn since_of(&self, bucket: u32) -> Option<EpochId>
        ensures { result ≡ option_map (λ row. row.since) (slice_get self.now bucket) }
    {
        match self.rows.get(bucket as usize) {
            Some(row) => Some(row.since),
            None => None,
        }
    }

    /// The same map once more.
    ///
    /// # Errors
    ///
    /// Out of memory alone.
    pub fn copy(&self) -> Result<UserMap, AllocError>
        ensures { IfOk result (λ map. map ≡ self.now) }
    {
        let mut rows = Vec::new(*self.rows.allocator());
        for row in &self.rows {
            rows.push(*row)?;
        }
        Ok(UserMap { rows })
    }
}
