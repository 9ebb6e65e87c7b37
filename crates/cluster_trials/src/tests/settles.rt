// Rows that are reported, and clusters that settle: reports that are lost, late and repeated, members that are not there, an
// epoch that is still on its way, and disks that fail.
ghost use Rattle.std.specs.Prelude.{◌≤◌, ◌<◌};
ghost use Rattle.cluster_world.specs.Worlds.{CanMakeSteps};

use crate::tests::groups::four;
use crate::tests::steps::left_of;
use crate::tests::{ann, make, node, opened, opened_over};
use cluster_world::{OpenFault, World};
use io_edge::Disk;
use node_disk::MemoryDisk;
use std::alloc::{AllocError, Global};
use std::test::Fail;

/// How many of these rows are left once one did not answer as it is to, in a cluster of three nodes. In it the one bucket of
/// users is managed by node 1 at first.
fn left(alloc: Global, rows: &[[u8; 6]]) -> Result<usize, OpenFault> {
    let mut world = opened(alloc, 2)?;
    Ok(left_of(alloc, &mut world, rows)?)
}

#[test]
fn reports_are_lost_and_repeated(rt: HostRuntime) -> Result<(), Fail> {
    let rows = [
        // Nothing is due where a cluster opens, and the manager names nobody.
        *b"u.. --", *b"m.. 10", *b"Z.. st", *b"r12 L0", *b"r21 L0",
        // A message for nodes 1 and 2: the manager knows of its own copy at once, and of the other by a report.
        *b"D1. B1", *b"u.. u1", *b"m.. 11", *b"P1. H.", *b"P2. H.", *b"m.. 11",
        // The report is lost. The next is heard twice, and its answer as often.
        *b"r21 L1", *b"X3. ..", *b"m.. 11", *b"r21 L1", *b"K4. H.", *b"m.. 13", *b"P4. H.",
        *b"P5. H.", *b"P6. H.", *b"r21 L0",
        // What the log of node 1 owes to node 2 is pushed, and then nothing is due.
        *b"u.. u1", *b"Z.. st", *b"u.. --", *b"m.. 13", *b"Z.. st",
        // No row is ever due to the node itself, nor to one that manages nobody.
        *b"r11 L0", *b"r13 L0", *b"r23 L0",
    ];
    assert_eq!(rt; left(rt.alloc(), &rows), Ok(0));
    Ok(())
}

#[test]
fn reports_are_refused(rt: HostRuntime) -> Result<(), Fail> {
    let rows = [
        *b"r14 n?", *b"r41 n?", *b"r44 n?", *b"C2. ..", *b"r21 do", *b"r12 L0", *b"r24 n?",
        *b"L3. ..", *b"r31 lo", *b"r13 L0", *b"r34 n?",
        // A node that has started has no epoch, and no row of it is due.
        *b"S2. U2", *b"r21 L0",
    ];
    assert_eq!(rt; left(rt.alloc(), &rows), Ok(0));
    Ok(())
}

#[test]
fn reports_of_another_epoch_are_stale(rt: HostRuntime) -> Result<(), Fail> {
    let rows = [
        // The report is on its way as the next epoch begins. The row stays due, and is reported in it.
        *b"D1. B1", *b"P1. H.", *b"P2. H.", *b"r21 L1", *b"R1. 27", *b"P3. Ts", *b"m.. 11",
        *b"r21 L1", *b"Z.. st", *b"m.. 13",
        // So it is with an answer that is late.
        *b"u.. --", *b"r21 L0",
    ];
    assert_eq!(rt; left(rt.alloc(), &rows), Ok(0));
    Ok(())
}

#[test]
fn members_are_not_there(rt: HostRuntime) -> Result<(), Fail> {
    let rows = [
        // A member is down, and then up in another boot than that of the epoch.
        *b"D1. B1", *b"C2. ..", *b"Z.. -2", *b"S2. U2", *b"Z.. -2", *b"C3. ..", *b"Z.. -2",
        *b"R1. 23", *b"Z.. st", *b"m.. 13", *b"u.. --",
        // The lowest one that is not live is told. A manager that is not tells nothing.
        *b"C1. ..", *b"C2. ..", *b"Z.. -1", *b"m.. no", *b"S1. U2", *b"S2. U3", *b"S3. U2",
        *b"Z.. -1", *b"m.. no", *b"u.. --", *b"R3. 27", *b"Z.. st",
    ];
    assert_eq!(rt; left(rt.alloc(), &rows), Ok(0));
    Ok(())
}

#[test]
fn later_epoch_is_on_its_way(rt: HostRuntime) -> Result<(), Fail> {
    let rows = [
        // Nodes 2 and 3 have an epoch of their own. Node 1 starts, and its first group is older than theirs.
        *b"C1. ..", *b"R2. 26", *b"Z.. st", *b"S1. U2", *b"g1. g2", *b"P5. To", *b"P6. To",
        *b"P7. H.", *b"P8. H.", *b"g1. g3", *b"P9. H.", *b"Pa. H.", *b"Pb. H.", *b"Pc. H.",
        *b"c1. c7",
        // It stops before its Installs are heard. All members of the epoch that is known are live, and then they enter the next.
        *b"C1. ..", *b"Z.. -1", *b"u.. --", *b"R2. 46", *b"Z.. st",
    ];
    assert_eq!(rt; left(rt.alloc(), &rows), Ok(0));
    Ok(())
}

#[test]
fn disks_fail_as_a_cluster_settles(rt: HostRuntime) -> Result<(), Fail> {
    let alloc = rt.alloc();
    let mut fell = 0u32;
    for call in 1..80u64 {
        let Ok(mut world) = opened_over(alloc, 2, 2, call) else {
            continue;
        };
        assert_eq!(rt;
            make(alloc, &mut world, b'D', b'1', b'.')?,
            *b"B1",
            "call {call}"
        );
        let came = make(alloc, &mut world, b'Z', b'.', b'.')?;
        if came == *b"st" {
            break;
        }
        // Node 2 is down, and the others settle in an epoch without it.
        assert_eq!(rt; came, *b"!2", "call {call}");
        let rows = [
            *b"Z.. -2", *b"R1. 25", *b"Z.. st", *b"m.. 11", *b"S2. U2", *b"R3. 37", *b"Z.. st",
            *b"m.. 13",
        ];
        assert_eq!(rt; left_of(alloc, &mut world, &rows)?, 0, "call {call}");
        fell = fell.saturating_add(1);
    }
    assert!(rt; 0 < fell && fell < 40, "{fell} calls");
    Ok(())
}

/// Whether a store has a record of a copy of ann's.
fn shows(octets: &[u8]) -> bool {
    for at in 0..octets.len() {
        if octets[at..].starts_with(b"\x04\x02\x03ann") {
            return true;
        }
    }
    false
}

/// The set of the nodes whose store has one.
fn holders(disks: &[MemoryDisk]) -> u16 {
    let mut set = 0u16;
    let mut one = 1u16;
    for disk in disks {
        if shows(disk.octets()) {
            set |= one;
        }
        one = one.wrapping_mul(2);
    }
    set
}

/// So many messages come, to one node after another.
fn take<D: Disk>(alloc: Global, world: &mut World<D>, messages: u8) -> Result<(), AllocError>
    requires { CanMakeSteps D.seen world.old }
    ensures { CanMakeSteps D.seen world.new }
{
    if messages == 0 {
        return Ok(());
    }
    take(alloc, world, messages - 1)?;
    make(alloc, world, b'D', b'1' + (messages - 1) % 4, b'.')?;
    Ok(())
}

/// Whom the manager of ann names, once messages came to so many nodes and the cluster has settled, and whose store shows one.
fn named_and_shown(alloc: Global, messages: u8) -> Result<Option<(u16, u16)>, OpenFault> {
    let mut world = four(alloc)?;
    take(alloc, &mut world, messages)?;
    if make(alloc, &mut world, b'Z', b'.', b'.')? != *b"st" {
        return Ok(None);
    }
    let told = world.maps(&ann(alloc)?);
    let disks = world.close();
    Ok(told.map(|(_, named)| (named.mask(), holders(&disks))))
}

#[test]
fn maps_name_what_stores_show(rt: HostRuntime) -> Result<(), Fail> {
    for messages in 0..9u8 {
        let Ok(Some((named, shown))) = named_and_shown(rt.alloc(), messages) else {
            panic!(rt; "not settled after {messages}");
        };
        assert_eq!(rt; named, shown, "after {messages}");
        assert!(rt; messages < 4 || named == 15, "after {messages}");
    }
    Ok(())
}
