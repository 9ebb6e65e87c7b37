// A map for the members of an epoch.
ghost use Rattle.std.specs.Prelude.{◌≡◌, ◌<◌, ◌≤◌, ◌^◌, length, ℕ, IfOk};
ghost use Rattle.maps_model.specs.Assign.{IsAssigned};
ghost use Rattle.user_map.specs.Plain.{with_cell, claimed_loads, row_at, loads_after, placed};
ghost use Rattle.user_map.specs.Loads.{load_in};

use crate::cells::claimed_cells;
use crate::loads::Loads;
use mail_base::{Claim, EpochId, MapRow, Member, UserMap};
use std::alloc::{AllocError, Global};

// One bucket more for the node of a cell, where it has one.
fn count(loads: &mut Loads, cell: &Option<MapRow>)
    requires { (n : ℕ) → load_in loads.old.of_node n < 2 ^ 32 }
    ensures { load_in loads.new.of_node ≡ with_cell (load_in loads.old.of_node) cell.now }
{
    if let Some(row) = cell {
        loads.raise(row.manager);
    }
}

// How many of the cells each node has.
fn claimed_loads(cells: &[Option<MapRow>]) -> Loads
    requires { length cells.now < 2 ^ 32 }
    ensures loads { load_in result.of_node ≡ claimed_loads cells.now }
    ensures bounded { (n : ℕ) → load_in result.of_node n ≤ length cells.now }
{
    let mut loads = Loads::new();
    for cell in cells {
        count(&mut loads, cell);
    }
    loads
}

// The row of a cell. A bucket that nobody claims goes to the member with the fewest so far.
fn place(cell: &Option<MapRow>, members: &[Member], epoch: EpochId, loads: &mut Loads) -> MapRow
    requires some { 0 < length members.now }
    requires room { (n : ℕ) → load_in loads.old.of_node n < 2 ^ 33 }
    ensures row { result ≡ row_at epoch members.now (load_in loads.old.of_node) cell.now }
    ensures loads { load_in loads.new.of_node ≡ loads_after members.now (load_in loads.old.of_node) cell.now }
{
    match cell {
        Some(row) => *row,
        None => {
            let node = loads.least(members);
            loads.raise(node);
            MapRow::new(node, epoch)
        }
    }
}

fn placed(
    alloc: Global,
    cells: &[Option<MapRow>],
    members: &[Member],
    epoch: EpochId,
) -> Result<Vec<MapRow>, AllocError>
    requires some { 0 < length members.now }
    requires few { length cells.now < 2 ^ 32 }
    ensures { IfOk result (λ rows. rows.items ≡ placed epoch members.now (claimed_loads cells.now) cells.now) }
{
    let mut loads = claimed_loads(cells);
    let mut rows = Vec::new(alloc);
    for cell in cells {
        rows.push(place(cell, members, epoch, &mut loads))?;
    }
    Ok(rows)
}

/// The map of an epoch of these members, with so many buckets.
///
/// A bucket that is claimed goes to the claimant of the greatest `since`, the lowest node among equals, and keeps that
/// `since`; a claim of a node that is no member, or of no bucket, counts for nothing. Each other bucket, in rising order,
/// goes to the member with the fewest so far, the lowest number among equals, with the epoch as its `since`. The time grows
/// with the numbers of buckets and of claims, each times the number of members.
///
/// # Errors
///
/// Only out of memory.
#[tactic(auto, using(crate::proofs::Placing::placed_size, crate::proofs::Assigned::map_assigned))]
pub fn assign(
    alloc: Global,
    claims: &[Claim],
    members: &[Member],
    buckets: u32,
    epoch: EpochId,
) -> Result<UserMap, AllocError>
    requires { 0 < length members.now }
    ensures { IfOk result (λ map. IsAssigned claims.now members.now buckets epoch map) }
{
    let cells = claimed_cells(alloc, claims, members, buckets)?;
    let rows = placed(alloc, &cells, members, epoch)?;
    Ok(UserMap::from_rows(rows))
}
