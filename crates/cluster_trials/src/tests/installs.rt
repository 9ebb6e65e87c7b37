// What the book has of the epochs that nodes install.
use crate::tests::steps::left_of;
use crate::tests::{digit, opened};
use cluster_world::OpenFault;
use std::alloc::{AllocError, Global};
use std::test::Fail;
use world_book::Entry;

/// The entries that say that a node installed an epoch: the node, its boot, and the count and the node of the epoch, a digit for
/// each, and a space behind them.
fn installs(alloc: Global, entries: &[Entry]) -> Result<Vec<u8>, AllocError> {
    let mut told = Vec::new(alloc);
    for entry in entries {
        if let Entry::Installed { node, boot, epoch } = entry {
            told.push(digit(u64::from(node.number())))?;
            told.push(digit(u64::from(*boot)))?;
            told.push(digit(epoch.count))?;
            told.push(digit(u64::from(epoch.node)))?;
            told.push(b' ')?;
        }
    }
    Ok(told)
}

/// Whether each row is answered as it is to be in a cluster of three nodes, and the book then has these entries.
fn books(alloc: Global, rows: &[[u8; 6]], wanted: &[u8]) -> Result<bool, OpenFault> {
    let mut world = opened(alloc, 2)?;
    if left_of(alloc, &mut world, rows)? != 0 {
        return Ok(false);
    }
    let told = installs(alloc, world.book().entries())?;
    Ok(told.as_slice() == wanted)
}

#[test]
fn opening_books_none(rt: HostRuntime) -> Result<(), Fail> {
    // Nor does a node that starts, nor a group in which nothing is concluded.
    let rows = [*b"C2. ..", *b"S2. U2", *b"g1. g2", *b"P1. H.", *b"P3. H."];
    assert_eq!(rt; books(rt.alloc(), &rows, b""), Ok(true));
    Ok(())
}

#[test]
fn each_member_is_booked(rt: HostRuntime) -> Result<(), Fail> {
    // Node 2 is in its second boot.
    let rows = [*b"C2. ..", *b"S2. U2", *b"R1. 27"];
    assert_eq!(rt; books(rt.alloc(), &rows, b"1121 2221 3121 "), Ok(true));
    // An epoch of two, and then one of three.
    let rows = [*b"C2. ..", *b"R3. 25", *b"S2. U2", *b"R2. 37"];
    assert_eq!(rt;
        books(rt.alloc(), &rows, b"3123 1123 2232 1132 3132 "),
        Ok(true)
    );
    Ok(())
}

#[test]
fn install_heard_twice_is_booked_once(rt: HostRuntime) -> Result<(), Fail> {
    let rows = [
        *b"g1. g2", *b"P1. H.", *b"P2. H.", *b"P3. H.", *b"P4. H.", *b"c1. c7", *b"K5. H.",
        *b"K5. To", *b"P5. To", *b"X6. ..",
    ];
    assert_eq!(rt; books(rt.alloc(), &rows, b"1121 2121 "), Ok(true));
    Ok(())
}

#[test]
fn thrown_install_is_not_booked(rt: HostRuntime) -> Result<(), Fail> {
    // Node 3 joins 2.1, and then promises 2.2: the Install of the first comes too late.
    let rows = [
        *b"g1. g2", *b"g2. g2", *b"P2. H.", *b"P5. H.", *b"c1. c5", *b"P4. H.", *b"P6. To",
    ];
    assert_eq!(rt; books(rt.alloc(), &rows, b"1121 "), Ok(true));
    // Node 2 joins in its first boot, and is in its second as the Install comes.
    let rows = [
        *b"g1. g2", *b"P1. H.", *b"P3. H.", *b"X2. ..", *b"c1. c3", *b"C2. ..", *b"S2. U2",
        *b"P4. Tm",
    ];
    assert_eq!(rt; books(rt.alloc(), &rows, b"1121 "), Ok(true));
    // And it is down.
    let rows = [
        *b"g1. g2", *b"P1. H.", *b"P3. H.", *b"X2. ..", *b"c1. c3", *b"C2. ..", *b"P4. Td",
    ];
    assert_eq!(rt; books(rt.alloc(), &rows, b"1121 "), Ok(true));
    Ok(())
}
