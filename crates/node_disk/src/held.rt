//! What a disk in memory holds: what reads give, what the last sync left, and what was written since.
ghost use Rattle.std.specs.Prelude.{◌≡◌, ◌+◌, ◌≤◌, ◌++◌, ◌∷◌, [], length, vec_len, vec_capacity, IfOk, OnOk, OnErr};
ghost use Rattle.io_edge.specs.Octets.{Holds, Torn};
ghost use Rattle.node_disk.specs.Memory.{Reaches, IsImage, IsSynced};

use crate::image::Image;
use io_edge::overwrite;
use std::alloc::{AllocError, Global};

/// A range of octets that were written.
#[derive(Clone, Copy, Debug, PartialEq, Eq)]
pub struct Range {
    /// How many octets of the disk lie before them.
    pub at: u64,
    /// How many they are.
    pub length: u64,
}

/// What reads give, what the last sync left, and the ranges that were written since, the first one first.
#[derive(Drop)]
pub(crate) struct Held {
    pub(crate) octets: Vec<u8>,
    pub(crate) synced: Vec<u8>,
    pub(crate) unsynced: Vec<Range>,
}

/// So many octets of the range at most, as far as there are such.
fn piece_of(octets: &[u8], range: Range, most: u64) -> &[u8]
    ensures { length result.now ≤ range.length }
{
    let total = octets.len() as u64;
    let at = range.at.min(total);
    let count = most.min(range.length).min(total - at);
    &octets[at as usize..(at + count) as usize]
}

/// Writes the piece at the beginning of the range, as far as the octets reach up to it.
fn tear(left: &mut Vec<u8>, range: Range, piece: &[u8]) -> Result<(), AllocError>
    requires { length piece.now ≤ range.length }
    ensures { OnOk result (Torn range.at range.length left.old.items left.new.items) }
{
    if range.at > left.len() as u64 {
        return Ok(());
    }
    left.reserve(piece.len())?;
    overwrite(left, range.at as usize, piece);
    Ok(())
}

/// What is left where the first octets that were written, so many of them, have reached the disk.
fn front_left(
    alloc: Global,
    synced: &[u8],
    ranges: &[Range],
    octets: &[u8],
    most: u64,
) -> Result<Vec<u8>, AllocError>
    ensures { IfOk result (λ left. Reaches synced.now ranges.now left.items) }
{
    let mut left = Vec::new(alloc);
    left.extend_from_slice(synced)?;
    let mut most = most;
    for range in ranges {
        let piece = piece_of(octets, *range, most);
        tear(&mut left, *range, piece)?;
        most = most.saturating_sub(range.length);
    }
    Ok(left)
}

/// What is left where each range that was written holds nothing but this octet.
fn garbage_left(
    alloc: Global,
    synced: &[u8],
    ranges: &[Range],
    octet: u8,
) -> Result<Vec<u8>, AllocError>
    ensures { IfOk result (λ left. Reaches synced.now ranges.now left.items) }
{
    let mut left = Vec::new(alloc);
    left.extend_from_slice(synced)?;
    for range in ranges {
        let piece = vec![in alloc; octet; range.length as usize]?;
        tear(&mut left, *range, &piece)?;
    }
    Ok(left)
}

impl Held {
    /// Nothing.
    pub(crate) fn new(alloc: Global) -> Held
        ensures octets { result.octets.items ≡ [] }
        ensures synced { IsSynced result }
    {
        Held {
            octets: Vec::new(alloc),
            synced: Vec::new(alloc),
            unsynced: Vec::new(alloc),
        }
    }

    /// Writes the octets.
    pub(crate) fn write(&mut self, at: u64, octets: &[u8]) -> Result<(), AllocError>
        requires begins { at ≤ vec_len self.old.octets }
        requires fits { at + length octets.now ≤ vec_capacity self.old.octets }
        ensures written { OnOk result (Holds self.old.octets.items at octets.now self.new.octets.items) }
        ensures noted { OnOk result (self.new.unsynced.items ≡ self.old.unsynced.items ++ (record { at = at; length = length octets.now }) ∷ []) }
        ensures synced { self.new.synced ≡ self.old.synced }
        ensures refused { OnErr result ((self.new.octets ≡ self.old.octets) × (self.new.unsynced.items ≡ self.old.unsynced.items)) }
    {
        let range = Range {
            at,
            length: octets.len() as u64,
        };
        let Ok(()) = self.unsynced.push(range) else {
            return Err(AllocError);
        };
        overwrite(&mut self.octets, at as usize, octets);
        Ok(())
    }

    /// What reads give stands from now on.
    pub(crate) fn sync(&mut self, alloc: Global) -> Result<(), AllocError>
        ensures octets { self.new.octets ≡ self.old.octets }
        ensures synced { OnOk result (IsSynced self.new) }
        ensures refused { OnErr result (self.new ≡ self.old) }
    {
        let mut copy = Vec::new(alloc);
        copy.extend_from_slice(&self.octets)?;
        self.synced = copy;
        self.unsynced.clear();
        Ok(())
    }

    // The octets of the image that was chosen.
    fn left(&self, alloc: Global, image: Image) -> Result<Vec<u8>, AllocError>
        ensures { IfOk result (λ left. IsImage self.now left.items) }
    {
        match image {
            Image::Nothing => front_left(alloc, &self.synced, &self.unsynced, &self.octets, 0),
            Image::Front(most) => {
                front_left(alloc, &self.synced, &self.unsynced, &self.octets, most)
            }
            Image::All => front_left(alloc, &self.synced, &self.unsynced, &self.octets, u64::MAX),
            Image::Garbage(octet) => { garbage_left(alloc, &self.synced, &self.unsynced, octet) }
        }
    }

    /// Holds the image that was chosen from now on.
    pub(crate) fn restart(&mut self, alloc: Global, image: Image) -> Result<(), AllocError>
        ensures image { OnOk result (IsImage self.old self.new.octets.items) }
        ensures synced { OnOk result (IsSynced self.new) }
        ensures refused { OnErr result (self.new ≡ self.old) }
    {
        let left = self.left(alloc, image)?;
        let mut copy = Vec::new(alloc);
        copy.extend_from_slice(&left)?;
        self.octets = left;
        self.synced = copy;
        self.unsynced.clear();
        Ok(())
    }
}
