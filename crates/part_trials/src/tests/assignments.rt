// Assignments that were worked by hand.
use mail_base::{EpochId, MapRow, Name, NodeNo};
use std::alloc::{AllocError, Global};
use std::test::Fail;
use user_map::{Claim, Member, UserMap, assign, manager, manages};

// Claims of a node, a bucket and the count of the epoch since when.
fn claims_of(alloc: Global, parts: &[(u8, u32, u64)]) -> Result<Vec<Claim>, AllocError> {
    let mut claims = Vec::new(alloc);
    for (number, bucket, count) in parts {
        if let Some(node) = NodeNo::new(*number) {
            claims.push(Claim::new(node, *bucket, EpochId::new(*count, 1)))?;
        }
    }
    Ok(claims)
}

fn members_of(alloc: Global, numbers: &[u8]) -> Result<Vec<Member>, AllocError> {
    let mut members = Vec::new(alloc);
    for number in numbers {
        if let Some(node) = NodeNo::new(*number) {
            members.push(Member::new(node, 1, EpochId::none()))?;
        }
    }
    Ok(members)
}

// Whether the map has these managers, each since the epoch of this count.
fn has_rows(map: &UserMap, rows: &[(u8, u64)]) -> bool {
    map.rows().len() == rows.len()
        && map.rows().iter().zip(rows.iter()).all(|(row, wanted)| row.manager.number() == wanted.0
            && row.since.count == wanted.1)
}

// Whether epoch 9.1 of these members, with these claims and so many buckets, has these rows.
fn assigns(
    alloc: Global,
    claims: &[(u8, u32, u64)],
    numbers: &[u8],
    buckets: u32,
    rows: &[(u8, u64)],
) -> Result<bool, AllocError> {
    let claims = claims_of(alloc, claims)?;
    let members = members_of(alloc, numbers)?;
    if members.is_empty() {
        return Ok(false);
    }
    let map = assign(alloc, &claims, &members, buckets, EpochId::new(9, 1))?;
    Ok(has_rows(&map, rows))
}

#[test]
fn assigns_as_by_hand(rt: HostRuntime) -> Result<(), Fail> {
    let alloc = rt.alloc();
    // no claims, and more buckets than members
    assert!(rt;
        assigns(
            alloc,
            &[],
            &[1, 2, 3],
            5,
            &[(1, 9), (2, 9), (3, 9), (1, 9), (2, 9)]
        )?
    );
    // no buckets
    assert!(rt; assigns(alloc, &[(1, 0, 3)], &[1], 0, &[])?);
    // equal claims: the lowest node
    assert!(rt; assigns(alloc, &[(3, 0, 4), (2, 0, 4)], &[1, 2, 3], 1, &[(2, 4)])?);
    // the greatest since, before the lower node
    assert!(rt;
        assigns(
            alloc,
            &[(1, 0, 4), (3, 0, 6), (2, 0, 5)],
            &[1, 2, 3],
            1,
            &[(3, 6)]
        )?
    );
    // claims that come later in the map count before buckets are given, and a member may stay without one
    assert!(rt;
        assigns(
            alloc,
            &[(1, 1, 2), (1, 2, 2)],
            &[1, 2, 3],
            4,
            &[(2, 9), (1, 2), (1, 2), (3, 9)]
        )?
    );
    assert!(rt; assigns(alloc, &[(2, 0, 2)], &[1, 2], 1, &[(2, 2)])?);
    // claims of a node that is no member, and of a bucket that is none
    assert!(rt;
        assigns(
            alloc,
            &[(4, 0, 8), (2, 2, 8)],
            &[2, 5],
            2,
            &[(2, 9), (5, 9)]
        )?
    );
    Ok(())
}

// A map whose buckets these nodes manage, one each.
fn map_of(alloc: Global, managers: &[u8]) -> Result<UserMap, AllocError> {
    let mut rows = Vec::new(alloc);
    for number in managers {
        let node = NodeNo::new(*number).ok_or(AllocError)?;
        rows.push(MapRow::new(node, EpochId::new(1, 1)))?;
    }
    if rows.len() > 16 {
        return Err(AllocError);
    }
    Ok(UserMap::from_rows(rows))
}

// The number of the user's manager, 0 where there is none; `manages` has to say the same of each node.
fn manager_in(alloc: Global, managers: &[u8], user: &[u8]) -> Result<u8, AllocError> {
    let map = map_of(alloc, managers)?;
    let name = Name::spelt(alloc, user)?.ok_or(AllocError)?;
    let found = manager(&map, &name);
    for number in 1..17u8 {
        let node = NodeNo::new(number).ok_or(AllocError)?;
        if manages(&map, node, &name) != (found == Some(node)) {
            return Err(AllocError);
        }
    }
    match found {
        Some(node) => Ok(node.number()),
        None => Ok(0),
    }
}

// Of five buckets ann has the second, bob the third and alice the fourth; of two ann has the first and alice the second.
#[test]
fn users_have_managers(rt: HostRuntime) -> Result<(), Fail> {
    let alloc = rt.alloc();
    assert!(rt; manager_in(alloc, &[7, 1, 2, 3, 9], b"ann") == Ok(1));
    assert!(rt; manager_in(alloc, &[7, 1, 2, 3, 9], b"bob") == Ok(2));
    assert!(rt; manager_in(alloc, &[7, 1, 2, 3, 9], b"alice") == Ok(3));
    assert!(rt; manager_in(alloc, &[16, 4], b"ann") == Ok(16));
    assert!(rt; manager_in(alloc, &[16, 4], b"alice") == Ok(4));
    // a map without buckets
    assert!(rt; manager_in(alloc, &[], b"ann") == Ok(0));
    Ok(())
}
