// The best claim of each bucket.
ghost use Rattle.std.specs.Prelude.{◌≡◌, length, replicate, None, IfOk};
ghost use Rattle.object_model.specs.Keys.{is_same_epoch};
ghost use Rattle.user_map.specs.Plain.{is_before, is_member, row_of, beats, better, with_claim, claimed_cells};

use mail_base::{Claim, EpochId, MapRow, Member, NodeNo};
use std::alloc::{AllocError, Global};

fn is_before(a: EpochId, b: EpochId) -> bool
    ensures { result ≡ is_before a b }
{
    a.count < b.count || (a.count == b.count && a.node < b.node)
}

fn is_same(a: EpochId, b: EpochId) -> bool
    ensures { result ≡ is_same_epoch a b }
{
    a.count == b.count && a.node == b.node
}

fn is_member(members: &[Member], node: NodeNo) -> bool
    ensures { result ≡ is_member members.now node }
{
    members.iter().any(|member| member.node == node)
}

fn beats(claim: &Claim, row: &MapRow) -> bool
    ensures { result ≡ beats claim.now row.now }
{
    is_before(row.since, claim.since)
        || (is_same(row.since, claim.since) && claim.node < row.manager)
}

fn row_of(claim: &Claim) -> MapRow
    ensures { result ≡ row_of claim.now }
{
    MapRow::new(claim.node, claim.since)
}

// The better of what stands and a claim.
fn better(cell: &Option<MapRow>, claim: &Claim) -> MapRow
    ensures { result ≡ better cell.now claim.now }
{
    match cell {
        Some(row) => {
            if beats(claim, row) {
                row_of(claim)
            } else {
                *row
            }
        }
        None => row_of(claim),
    }
}

// Grants the claim where it counts and is the best so far.
fn grant(cells: &mut Vec<Option<MapRow>>, members: &[Member], claim: &Claim)
    ensures { cells.new.items ≡ with_claim members.now cells.old.items claim.now }
{
    let at = claim.bucket as usize;
    if at < cells.len() && is_member(members, claim.node) {
        cells[at] = Some(better(&cells[at], claim));
    }
}

fn no_claims(alloc: Global, buckets: u32) -> Result<Vec<Option<MapRow>>, AllocError>
    ensures { IfOk result (λ cells. cells.items ≡ replicate buckets None) }
{
    let mut cells = Vec::new(alloc);
    for _ in 0..buckets {
        cells.push(None)?;
    }
    Ok(cells)
}

/// A cell for each bucket, with the best of the claims that count.
#[tactic(auto, using(crate::proofs::Best::cells_size))]
pub(crate) fn claimed_cells(
    alloc: Global,
    claims: &[Claim],
    members: &[Member],
    buckets: u32,
) -> Result<Vec<Option<MapRow>>, AllocError>
    ensures cells { IfOk result (λ cells. cells.items ≡ claimed_cells claims.now members.now buckets) }
    ensures size { IfOk result (λ cells. length cells.items ≡ buckets) }
{
    let mut cells = no_claims(alloc, buckets)?;
    for claim in claims {
        grant(&mut cells, members, claim);
    }
    Ok(cells)
}
