// Calls that read, over three nodes: logins of which each letter is lost, repeated and late, fetches whose holders are down,
// deletions at a node that has no mail, and locks.
use crate::tests::opened;
use crate::tests::steps::left_of;
use cluster_world::OpenFault;
use std::alloc::Global;
use std::test::Fail;

// Nodes 1 and 2 have ann's first message, and node 1, which manages her, names both. The next letter is 5.
const FILED: [[u8; 6]; 8] = [
    *b"D1. B1", *b"P1. H.", *b"P2. H.", *b"A11 S3", *b"r21 L1", *b"P3. H.", *b"P4. H.", *b"m.. 13",
];

/// How many of these rows are left, behind those.
fn left(alloc: Global, rows: &[[u8; 6]]) -> Result<usize, OpenFault> {
    let mut world = opened(alloc, 2)?;
    if left_of(alloc, &mut world, &FILED)? != 0 {
        return Ok(FILED.len().saturating_add(rows.len()));
    }
    Ok(left_of(alloc, &mut world, rows)?)
}

#[test]
fn login_is_listed(rt: HostRuntime) -> Result<(), Fail> {
    let rows = [
        // The manager is asked, and then both that it names, which tell in another order.
        *b"l3. B1", *b"A31 P0", *b"P5. H.", *b"P6. H.", *b"P8. H.", *b"P7. H.", *b"Pa. H.",
        *b"A31 P1", *b"P9. H.", *b"A31 L1", *b"A31 t?", *b"G31 t?",
        // The message is read, and the session leaves.
        *b"f33 B2", *b"Pb. H.", *b"A32 P0", *b"Pc. H.", *b"A32 O.", *b"v31 N.", *b"Pd. H.",
        // A secret that is wrong, at the manager itself and elsewhere.
        *b"w1. B2", *b"A12 W.", *b"w2. B1", *b"Pe. H.", *b"Pf. H.", *b"A21 W.",
        // No letter is sent from the manager to itself.
        *b"l1. B3", *b"Pg. H.", *b"Ph. H.", *b"A13 L1", *b"v13 N.", *b"Pi. l?",
    ];
    assert_eq!(rt; left(rt.alloc(), &rows), Ok(0));
    Ok(())
}

#[test]
fn letters_of_logins_are_lost(rt: HostRuntime) -> Result<(), Fail> {
    let rows = [
        // The question.
        *b"l3. B1", *b"X5. ..", *b"A31 F.", *b"P6. H.",
        // The word. The lock is held until its Unlock is heard.
        *b"l3. B2", *b"P7. H.", *b"X8. ..", *b"A32 F.", *b"l1. B2", *b"A12 I3", *b"P9. H.",
        // The question for a list, and the list of the other comes late.
        *b"l3. B3", *b"Pa. H.", *b"Pb. H.", *b"Xc. ..", *b"A33 F.", *b"Pd. H.", *b"Pf. Tl",
        *b"Pe. H.",
        // A list.
        *b"l3. B4", *b"Pg. H.", *b"Ph. H.", *b"Pi. H.", *b"Pj. H.", *b"Xk. ..", *b"A34 F.",
        *b"Pl. Tl",
        // The Unlock: the lock is held on, until it is left by hand.
        *b"Xm. ..", *b"l1. B3", *b"A13 I3", *b"v34 N.", *b"Pn. H.", *b"l1. B4", *b"A14 P1",
    ];
    assert_eq!(rt; left(rt.alloc(), &rows), Ok(0));
    Ok(())
}

#[test]
fn letters_of_logins_are_repeated(rt: HostRuntime) -> Result<(), Fail> {
    let rows = [
        *b"l3. B1", *b"K5. H.", *b"P5. H.", *b"K6. H.", *b"P7. H.", *b"K8. H.", *b"P8. H.",
        *b"Ka. H.", *b"Pb. H.", *b"A31 P1", *b"K9. H.", *b"P9. H.", *b"Kc. H.", *b"A31 L1",
        // What comes behind the answer is late.
        *b"P6. Tl", *b"Pa. Tl", *b"Pc. Tl", *b"Pd. Tl",
    ];
    assert_eq!(rt; left(rt.alloc(), &rows), Ok(0));
    Ok(())
}

#[test]
fn manager_stops_in_a_login(rt: HostRuntime) -> Result<(), Fail> {
    let tables: [&[[u8; 6]]; 4] = [
        // Before it is asked.
        &[*b"l3. B1", *b"C1. ..", *b"P5. Td", *b"A31 F.", *b"P6. Td"],
        // Before it has told its list.
        &[
            *b"l3. B1", *b"P5. H.", *b"C1. ..", *b"P6. H.", *b"P8. H.", *b"P7. Td", *b"A31 F.",
            *b"P9. Tl", *b"Pa. Td",
        ],
        // Behind that.
        &[
            *b"l3. B1", *b"P5. H.", *b"P6. H.", *b"P7. H.", *b"C1. ..", *b"P9. H.", *b"P8. H.",
            *b"Pa. H.", *b"A31 L1", *b"v31 N.", *b"Pb. Td",
        ],
        // It starts again, and has no epoch; nor does the session's node, so its login fails at once.
        &[
            *b"l3. B1", *b"C1. ..", *b"S1. U2", *b"P5. Ts", *b"A31 F.", *b"P6. Ts", *b"C3. ..",
            *b"S3. U2", *b"l3. B1", *b"f33 B2", *b"A31 t?",
        ],
    ];
    for rows in tables {
        assert_eq!(rt; left(rt.alloc(), rows), Ok(0));
    }
    Ok(())
}

#[test]
fn holders_stop(rt: HostRuntime) -> Result<(), Fail> {
    let rows = [
        // The first holder is down, and then the last, too.
        *b"f33 B1", *b"C1. ..", *b"P5. Td", *b"P6. H.", *b"P7. H.", *b"A31 O.", *b"f33 B2",
        *b"P8. Td", *b"C2. ..", *b"P9. Td", *b"A32 F.",
        // No holder is a member; and the only one has no copy.
        *b"f30 B3", *b"A33 F.", *b"f34 B4", *b"A34 G.",
    ];
    assert_eq!(rt; left(rt.alloc(), &rows), Ok(0));
    let last = [
        // The last is down, and is not asked. A fetch that is given up comes to nothing; and a holder reads its own disk.
        *b"C2. ..", *b"f33 B1", *b"P5. H.", *b"P6. H.", *b"A31 O.", *b"f33 B2", *b"G32 ..",
        *b"P7. H.", *b"P8. Tl", *b"f13 B2", *b"A12 O.",
    ];
    assert_eq!(rt; left(rt.alloc(), &last), Ok(0));
    Ok(())
}

#[test]
fn deletion_goes_to_holders(rt: HostRuntime) -> Result<(), Fail> {
    let rows = [
        *b"d33 B1", *b"P5. H.", *b"P6. H.", *b"P7. H.", *b"A31 P0", *b"P8. H.", *b"A31 X3",
        *b"m.. 12", *b"Z.. st", *b"m.. 10", *b"f31 B2",
    ];
    assert_eq!(rt; left(rt.alloc(), &rows), Ok(0));
    // One of both is down.
    let down = [
        *b"d33 B1", *b"C2. ..", *b"P5. H.", *b"P6. Td", *b"P7. H.", *b"A31 F.",
    ];
    assert_eq!(rt; left(rt.alloc(), &down), Ok(0));
    Ok(())
}

#[test]
fn one_login_has_the_lock(rt: HostRuntime) -> Result<(), Fail> {
    let rows = [
        *b"l3. B1", *b"P5. H.", *b"l2. B1", *b"P7. H.", *b"P8. H.", *b"A21 I3", *b"l1. B2",
        *b"A12 I3",
        // A login that was refused has nothing to leave.
        *b"v21 N.", *b"P9. H.", *b"v12 N.", *b"l1. B3", *b"A13 I3",
        // An epoch lets all locks go. A letter of the old one is stale.
        *b"R1. 27", *b"l1. B4", *b"A14 P1", *b"Pg. H.", *b"Ph. H.", *b"A14 L1", *b"P6. Ts",
        *b"A31 F.", *b"l1. B5", *b"A15 I1",
        // A login that is given up gives its lock back.
        *b"v14 N.", *b"Z.. st", *b"l1. B6", *b"A16 P1", *b"G16 ..", *b"l1. B7", *b"A17 P1",
    ];
    assert_eq!(rt; left(rt.alloc(), &rows), Ok(0));
    Ok(())
}
