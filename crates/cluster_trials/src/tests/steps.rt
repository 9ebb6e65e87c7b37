// Each step on its happy path, and each refusal.
ghost use Rattle.std.specs.Prelude.{◌<◌};
ghost use Rattle.cluster_world.specs.Worlds.{CanMakeSteps};

use crate::tests::journals::journal;
use crate::tests::{make, opened};
use cluster_world::World;
use io_edge::Disk;
use node_disk::MemoryDisk;
use std::alloc::{AllocError, Global};
use std::test::Fail;

/// What is done in a plan of three nodes with two copies, and what comes of it: a letter for the step, then its node, letter or
/// ticket, its second node or the number of the ticket, and two letters for the answer.
const ROWS: [[u8; 6]; 64] = [
    // A message for nodes 1 and 2. Its File is heard twice, and its second Filed comes too late.
    *b"D1. B1", *b"A11 P1", *b"K1. H.", *b"P1. H.", *b"P2. H.", *b"A11 S3", *b"A11 t?", *b"P3. Tl",
    // The copy is pushed and acknowledged, and that it is retired is lost.
    *b">12 L1", *b"P4. H.", *b"P5. H.", *b"X6. ..", *b">12 L0",
    // It gets node 3 as a target, and is pushed there.
    *b"W13 Wy", *b"W13 Wn", *b">13 L1", *b"P7. H.", *b"P8. H.",
    // A message for nodes 2 and 3 is given up.
    *b"D1. B2", *b"G12 ..", *b"A12 t?", *b"G12 t?", *b"X9. ..",
    // Node 2 stops and starts. It has no epoch: it pushes nothing, and what it begins fails at once.
    *b"C2. ..", *b"C2. do", *b"D2. do", *b"A21 do", *b"W21 do", *b">21 do", *b"g2. do", *b"c2. do",
    *b"S2. U2", *b"S2. up", *b">21 L0", *b"c2. ng",
    // Node 1 forms an epoch that lets it in, and it pushes what it owed before.
    *b"g1. g2", *b"Pb. H.", *b"Pd. H.", *b"Pc. H.", *b"Pe. H.", *b"c1. c7", *b"c1. ng", *b"Pf. H.",
    *b"Pg. H.", *b">21 L1", *b"Ph. H.", *b"Xi. ..",
    // Node 3 is lost, and a letter to it is thrown.
    *b"L3. ..", *b"L3. lo", *b"D3. lo", *b"S3. lo", *b"C3. lo", *b"Pa. Td",
    // What is not there.
    *b"P1. l?", *b"X1. l?", *b"D4. n?", *b"A41 n?", *b">14 n?", *b"W14 n?", *b"W41 n?", *b"g4. n?",
    *b"c4. n?", *b"g3. lo", *b"c3. lo",
];

/// Makes the steps of these rows, as long as each answers what it is to. It says how many rows are left.
pub(super) fn left_of<D: Disk>(
    alloc: Global,
    world: &mut World<D>,
    rows: &[[u8; 6]],
) -> Result<usize, AllocError>
    requires { CanMakeSteps D.seen world.old }
    ensures { CanMakeSteps D.seen world.new }
{
    let Some((row, others)) = rows.split_first() else {
        return Ok(0);
    };
    let [what, first, second, _, kind, digit] = *row;
    if make(alloc, world, what, first, second)? != [kind, digit] {
        return Ok(rows.len());
    }
    left_of(alloc, world, others)
}

/// Whether the disk of the node at this place holds these records.
pub(super) fn holds(
    alloc: Global,
    disks: &[MemoryDisk],
    place: u8,
    records: &[u8],
) -> Result<bool, AllocError>
    requires { place < 16 }
{
    let wanted = journal(alloc, place + 1, records)?;
    Ok(match disks.get(usize::from(place)) {
        Some(disk) => disk.octets() == wanted.as_slice(),
        None => false,
    })
}

#[test]
fn each_step_answers(rt: HostRuntime) -> Result<(), Fail> {
    let alloc = rt.alloc();
    let Ok(mut world) = opened(alloc, 2) else {
        panic!(rt; "no world");
    };
    assert_eq!(rt; left_of(alloc, &mut world, &ROWS)?, 0);
    let disks = world.close();
    assert!(rt; holds(alloc, &disks, 0, b"BPO3r7E")?);
    assert!(rt; holds(alloc, &disks, 1, b"BPO3bE")?);
    assert!(rt; holds(alloc, &disks, 2, b"BPO7E")?);
    Ok(())
}

/// Posts the letter of this number so often, and keeps it.
pub(super) fn post_again<D: Disk>(
    alloc: Global,
    world: &mut World<D>,
    times: u32,
) -> Result<bool, AllocError>
    requires { CanMakeSteps D.seen world.old }
    ensures { CanMakeSteps D.seen world.new }
{
    for _ in 0..times {
        if make(alloc, world, b'K', b'1', b'.')? != *b"H." {
            return Ok(false);
        }
    }
    Ok(true)
}

#[test]
fn full_flight_refuses_a_push(rt: HostRuntime) -> Result<(), Fail> {
    let alloc = rt.alloc();
    let Ok(mut world) = opened(alloc, 2) else {
        panic!(rt; "no world");
    };
    assert_eq!(rt; make(alloc, &mut world, b'D', b'1', b'.')?, *b"B1");
    // 65,535 letters are in flight, and one more finds room.
    assert!(rt; post_again(alloc, &mut world, 65_534)?);
    assert_eq!(rt; make(alloc, &mut world, b'>', b'1', b'2')?, *b"L1");
    assert_eq!(rt; make(alloc, &mut world, b'>', b'1', b'2')?, *b"ro");
    // Nothing is due to node 3, so no room is needed.
    assert_eq!(rt; make(alloc, &mut world, b'>', b'1', b'3')?, *b"L0");
    assert_eq!(rt; make(alloc, &mut world, b'X', b'1', b'.')?, *b"..");
    assert_eq!(rt; make(alloc, &mut world, b'>', b'1', b'2')?, *b"L1");
    Ok(())
}
