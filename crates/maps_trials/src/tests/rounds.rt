// The three rounds over three nodes, with letters in any order and nodes that stop.
use crate::tests::cluster::{Act, Trial, goes, is_same};
use node_maps::Refusal;
use std::alloc::{AllocError, Global};
use std::test::Fail;

// Node 1 forms an epoch with all.
const FORMED: [Act; 12] = [
    Act::Opens(1),
    Act::Promised(1, 1, 1),
    Act::Fly(2),
    // the Group for node 3, and that for node 2
    Act::Hears(0),
    Act::Hears(0),
    Act::Promised(3, 1, 1),
    Act::Hears(0),
    Act::Hears(0),
    Act::Concludes(1),
    Act::Hears(0),
    Act::Hears(0),
    Act::IsIn(3, 1, 1, 3),
];

#[test]
fn an_epoch_is_formed(rt: HostRuntime) -> Result<(), Fail> {
    assert!(rt; goes(rt.alloc(), &FORMED) == Ok(12));
    Ok(())
}

// Two nodes open groups at once: the later epoch takes both others, and the first is told of it.
const CROSSED: [Act; 16] = [
    Act::Opens(1),
    Act::Opens(2),
    Act::Fly(4),
    // of node 1: to node 3, to node 2; of node 2: to node 3, to node 1
    Act::Hears(0),
    Act::Throws(0, Refusal::Old),
    Act::Hears(0),
    Act::Hears(0),
    Act::Fly(4),
    // the Joins of node 3 and of node 2 come to a group that is closed
    Act::Throws(0, Refusal::Late),
    Act::Throws(0, Refusal::Late),
    Act::HasNoGroup(1),
    Act::Hears(0),
    Act::Hears(0),
    Act::Concludes(2),
    Act::Hears(0),
    Act::IsIn(2, 1, 2, 3),
];

#[test]
fn the_later_of_two_groups_is_formed(rt: HostRuntime) -> Result<(), Fail> {
    assert!(rt; goes(rt.alloc(), &CROSSED) == Ok(16));
    Ok(())
}

// Node 3 stops between its Promise and its Join. Its promise stands, and it joins in its next boot once it is asked again.
const STOPPED: [Act; 15] = [
    Act::Opens(1),
    Act::StopsPromising(0),
    Act::Promised(3, 1, 1),
    Act::IsIn(3, 0, 0, 0),
    Act::Hears(0),
    Act::Hears(0),
    Act::Fly(0),
    Act::Concludes(1),
    Act::IsIn(1, 1, 1, 2),
    Act::Hears(0),
    Act::Opens(3),
    Act::Promised(3, 2, 3),
    Act::Hears(0),
    Act::Hears(1),
    Act::IsIn(2, 1, 1, 2),
];

#[test]
fn a_promise_stands_without_its_join(rt: HostRuntime) -> Result<(), Fail> {
    assert!(rt; goes(rt.alloc(), &STOPPED) == Ok(15));
    Ok(())
}

// A node that joined and then started again is named in a boot that is over: it refuses the epoch.
const RENAMED: [Act; 9] = [
    Act::Opens(1),
    Act::Hears(0),
    Act::Hears(1),
    Act::Restarts(3),
    Act::Concludes(1),
    Act::Fly(2),
    Act::Throws(1, Refusal::NotMember),
    Act::IsIn(3, 0, 0, 0),
    Act::IsIn(1, 1, 1, 2),
];

#[test]
fn an_earlier_boot_is_not_entered(rt: HostRuntime) -> Result<(), Fail> {
    assert!(rt; goes(rt.alloc(), &RENAMED) == Ok(9));
    Ok(())
}

// The first node stops before it concludes: its group is gone, its promise is not, and its next group is of a later epoch.
const ABANDONED: [Act; 13] = [
    Act::Opens(1),
    Act::Hears(0),
    Act::Hears(0),
    Act::Restarts(1),
    Act::Promised(1, 1, 1),
    Act::HasNoGroup(1),
    Act::Throws(0, Refusal::Late),
    Act::Throws(0, Refusal::Late),
    Act::Opens(1),
    Act::Promised(1, 2, 1),
    Act::Hears(0),
    Act::Hears(1),
    Act::Concludes(1),
];

#[test]
fn a_stop_leaves_a_group(rt: HostRuntime) -> Result<(), Fail> {
    assert!(rt; goes(rt.alloc(), &ABANDONED) == Ok(13));
    Ok(())
}

// Whether any two nodes of one epoch have the same membership.
fn agree(trial: &Trial) -> bool {
    for a in &trial.sites {
        for b in &trial.sites {
            if let (Some(x), Some(y)) = (a.maps.group().installed(), b.maps.group().installed()) {
                if x.epoch == y.epoch && !is_same(x, y) {
                    return false;
                }
            }
        }
    }
    true
}

// Which letter in flight is posted next, at each of eight turns, and how many there were to pick from.
#[derive(Clone, Copy)]
struct Picks {
    at: [usize; 8],
    of: [usize; 8],
}

// Goes on to the next order; false where it was the last.
fn next(picks: &mut Picks) -> bool {
    for turn in (0..8usize).rev() {
        if picks.at[turn].saturating_add(1) < picks.of[turn] {
            picks.at[turn] = picks.at[turn].saturating_add(1);
            return true;
        }
        picks.at[turn] = 0;
    }
    false
}

// Posts eight letters in this order.
fn post_in_order(trial: &mut Trial, picks: &mut Picks) -> Result<(), AllocError> {
    for turn in 0..8usize {
        picks.of[turn] = trial.flying.len();
        trial.post(picks.at[turn])?;
    }
    Ok(())
}

// Posts what is left, from the first on.
fn post_rest(trial: &mut Trial) -> Result<(), AllocError> {
    for _ in 0..4u8 {
        if trial.flying.len() > 0 {
            trial.post(0)?;
        }
    }
    Ok(())
}

// Two nodes open a group, and the four Groups and their Joins are posted in this order. Whoever has a group then concludes it.
fn in_order(alloc: Global, picks: &mut Picks) -> Result<bool, AllocError> {
    let mut trial = Trial::new(alloc)?;
    trial.open_group(1)?;
    trial.open_group(2)?;
    post_in_order(&mut trial, picks)?;
    trial.conclude(1)?;
    trial.conclude(2)?;
    post_rest(&mut trial)?;
    Ok(agree(&trial) && trial.flying.is_empty())
}

// How many orders there are in which all nodes of an epoch agree, until one is met in which they don't.
fn orders(alloc: Global) -> Result<usize, AllocError> {
    let mut picks = Picks {
        at: [0; 8],
        of: [0; 8],
    };
    for count in 1..3000usize {
        if !in_order(alloc, &mut picks)? {
            return Ok(0);
        }
        if !next(&mut picks) {
            return Ok(count);
        }
    }
    Ok(0)
}

// Four letters, each with an answer that follows it: 8! / 2^4 orders.
#[test]
fn one_membership_in_all_orders(rt: HostRuntime) -> Result<(), Fail> {
    assert!(rt; orders(rt.alloc()) == Ok(2520));
    Ok(())
}
