//! How a record is written: after the closed gate, which is then opened.
ghost use Rattle.std.specs.Prelude.{◌≡◌, ◌+◌, ◌≤◌, ◌<◌, ◌++◌, ◌∷◌, [], ℕ, List, length, IfOk, IfSome, OnOk, ◌^◌, vec_len};
ghost use Rattle.io_edge.specs.Causes.{HasCause};
ghost use Rattle.io_edge.specs.Moments.{Tears};
ghost use Rattle.io_edge.specs.Octets.{IsToldAlike, WritesAt};
ghost use Rattle.mail_model.specs.Record.{header_of};
ghost use Rattle.disk_journal.specs.Images.{Adds, AddsAll};
ghost use Rattle.disk_journal.specs.Journal.{HasGate, TellsJournal, behind_gate, Gated, largest};

use crate::sizes::octets_of;
use io_edge::{Disk, Failed};
use mail_base::NodeNo;
use std::alloc::{AllocError, Global};

/// Where a record counts.
pub(crate) const OPEN_GATE: u8 = 0xA5;

/// The header of the node's journal.
pub(crate) fn header(node: NodeNo) -> [u8; 16]
    ensures { result ≡ header_of node }
{
    let number = u16::from(node.number()).to_be_bytes();
    [
        b'P', b'O', b'R', b'C', b'U', b'P', b'N', b'1', number[0], number[1], 0, 0, 0, 0, 0, 0,
    ]
}

/// The header and a closed gate.
pub(crate) fn opening(alloc: Global, node: NodeNo) -> Result<Vec<u8>, AllocError>
    ensures octets { IfOk result (λ v. v.items ≡ header_of node ++ 0 ∷ []) }
{
    let mut octets = Vec::with_capacity(alloc, 17)?;
    octets.extend_from_slice(&header(node))?;
    octets.push(0)?;
    Ok(octets)
}

/// The length of the payload, the payload and the next gate.
pub(crate) fn behind_the_gate(
    alloc: Global,
    head: &[u8],
    body: &[u8],
) -> Result<Vec<u8>, AllocError>
    requires { length head.now + length body.now ≤ largest }
    ensures octets { IfOk result (λ v. v.items ≡ behind_gate (head.now ++ body.now)) }
    ensures len { IfOk result (λ v. vec_len v ≡ length head.now + length body.now + 5) }
{
    let size = head.len() + body.len();
    let mut octets = Vec::with_capacity(alloc, size + 5)?;
    octets.extend_from_slice(&octets_of(size as u32))?;
    octets.extend_from_slice(head)?;
    octets.extend_from_slice(body)?;
    octets.push(0)?;
    Ok(octets)
}

/// Writes the octets, and makes them sure.
pub(crate) fn write_sure<D: Disk>(disk: &mut D, at: u64, octets: &[u8]) -> Result<(), Failed>
    requires { IfSome (D.seen disk.old) (λ held. (at ≤ length held) × (at + length octets.now ≤ length held + D.room disk.old)) }
    ensures written { WritesAt (D.seen disk.old) (D.seen disk.new) result at octets.now }
    ensures told { IsToldAlike (D.seen disk.old) (D.seen disk.new) }
    ensures settled { OnOk result (D.settled disk.new) }
    ensures images { Tears D.clock disk.old disk.new at (length octets.now) }
    ensures cause { HasCause (D.faults disk.old) (D.faults disk.new) result }
    ensures quiet { OnOk result (D.faults disk.new ≡ D.faults disk.old) }
{
    disk.write_at(at, octets)?;
    disk.sync()
}

// Writes a record after the closed gate, and makes it sure before its gate is touched.
fn write_record<D: Disk>(disk: &mut D, end: u64, octets: &[u8]) -> Result<(), Failed>
    requires gate { HasGate (D.seen disk.old) end }
    requires room { length octets.now ≤ D.room disk.old }
    requires fits { end + 1 < 2 ^ 64 }
    ensures written { WritesAt (D.seen disk.old) (D.seen disk.new) result (end + 1) octets.now }
    ensures told { IsToldAlike (D.seen disk.old) (D.seen disk.new) }
    ensures settled { OnOk result (D.settled disk.new) }
    ensures images { Tears D.clock disk.old disk.new (end + 1) (length octets.now) }
    ensures cause { HasCause (D.faults disk.old) (D.faults disk.new) result }
    ensures quiet { OnOk result (D.faults disk.new ≡ D.faults disk.old) }
{
    write_sure(disk, end + 1, octets)
}

// Opens the gate of a record that is sure, and makes that sure.
fn open_gate<D: Disk>(disk: &mut D, end: u64) -> Result<(), Failed>
    requires { HasGate (D.seen disk.old) end }
    ensures written { WritesAt (D.seen disk.old) (D.seen disk.new) result end (0xA5 ∷ []) }
    ensures told { IsToldAlike (D.seen disk.old) (D.seen disk.new) }
    ensures settled { OnOk result (D.settled disk.new) }
    ensures images { Tears D.clock disk.old disk.new end 1 }
    ensures cause { HasCause (D.faults disk.old) (D.faults disk.new) result }
    ensures quiet { OnOk result (D.faults disk.new ≡ D.faults disk.old) }
{
    write_sure(disk, end, &[OPEN_GATE])
}

/// Writes a record after the closed gate, makes it sure, opens the gate, and makes that sure.
pub(crate) fn write_behind_gate<D: Disk>(
    disk: &mut D,
    end: u64,
    octets: &[u8],
) -> Result<(), Failed>
    requires gate { HasGate (D.seen disk.old) end }
    requires room { length octets.now ≤ D.room disk.old }
    requires fits { end + 1 < 2 ^ 64 }
    ensures gate { OnOk result (HasGate (D.seen disk.new) (end + length octets.now)) }
    ensures gated { (node : ℕ) (payloads : List (List ℕ)) (payload : List ℕ) → octets.now ≡ behind_gate payload → length payload < 2 ^ 32
        → TellsJournal (D.seen disk.old) node payloads end → Gated result (D.seen disk.new) node payloads payload (end + length octets.now) }
    ensures images { (payload : List ℕ) → octets.now ≡ behind_gate payload → length payload < 2 ^ 32
        → IfSome (D.seen disk.old) (λ _. Adds D.clock disk.old disk.new end (payload ∷ [])) }
    ensures all { (payload : List ℕ) → octets.now ≡ behind_gate payload → length payload < 2 ^ 32
        → OnOk result (IfSome (D.seen disk.old) (λ _. AddsAll D.clock disk.old disk.new end (end + length octets.now) (payload ∷ []))) }
    ensures told { IsToldAlike (D.seen disk.old) (D.seen disk.new) }
    ensures settled { OnOk result (D.settled disk.new) }
    ensures cause { HasCause (D.faults disk.old) (D.faults disk.new) result }
    ensures quiet { OnOk result (D.faults disk.new ≡ D.faults disk.old) }
{
    write_record(disk, end, octets)?;
    open_gate(disk, end)?;
    Ok(())
}
