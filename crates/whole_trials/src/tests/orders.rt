// All orders of the letters of two groups: each epoch has one membership, whatever the order.
use super::cluster::Trial;
use membership::Install;
use std::alloc::{AllocError, Global};
use std::test::Fail;

/// Whether both are one membership.
fn is_same(a: &Install, b: &Install) -> bool {
    a.members.len() == b.members.len()
        && a.map.rows().len() == b.map.rows().len()
        && a.members
            .as_slice()
            .iter()
            .zip(b.members.as_slice().iter())
            .all(|(x, y)| x.node == y.node && x.boot == y.boot)
        && a.map
            .rows()
            .iter()
            .zip(b.map.rows().iter())
            .all(|(x, y)| x.manager == y.manager)
}

// Whether any two nodes of one epoch have the same membership.
fn agree(trial: &Trial) -> bool {
    for a in &trial.sites {
        for b in &trial.sites {
            if let (Some(x), Some(y)) = (a.installed(), b.installed()) {
                if x.epoch == y.epoch && !is_same(x, y) {
                    return false;
                }
            }
        }
    }
    true
}

// Whether some node is in an epoch.
fn is_formed(trial: &Trial) -> bool {
    for site in &trial.sites {
        if site.installed().is_some() {
            return true;
        }
    }
    false
}

// Which letter in flight is posted next, at each of eight turns, and how many there were to pick from.
#[derive(Clone, Copy)]
struct Picks {
    at: [usize; 8],
    of: [usize; 8],
}

// Goes on to the next order; false where it was the last.
fn next(picks: &mut Picks) -> bool {
    for turn in (0..8usize).rev() {
        if picks.at[turn].saturating_add(1) < picks.of[turn] {
            picks.at[turn] = picks.at[turn].saturating_add(1);
            return true;
        }
        picks.at[turn] = 0;
    }
    false
}

fn post(trial: &mut Trial, place: usize) -> Result<(), AllocError> {
    let mut out = Vec::new(trial.alloc);
    trial.post(place, &mut out)
}

fn open_group(trial: &mut Trial, number: u8) -> Result<(), AllocError> {
    let mut out = Vec::new(trial.alloc);
    trial.open_group(number, &mut out)
}

fn conclude(trial: &mut Trial, number: u8) -> Result<(), AllocError> {
    let mut out = Vec::new(trial.alloc);
    trial.conclude(number, &mut out)
}

// Posts eight letters in this order. Before one of the turns a node stops, and starts again.
fn post_in_order(
    trial: &mut Trial,
    picks: &mut Picks,
    who: u8,
    when: usize,
) -> Result<(), AllocError> {
    for turn in 0..8usize {
        if turn == when {
            trial.halt(who)?;
            trial.start(who)?;
        }
        picks.of[turn] = trial.flying.len();
        post(trial, picks.at[turn])?;
    }
    Ok(())
}

// Posts what is left, from the first on.
fn post_rest(trial: &mut Trial) -> Result<(), AllocError> {
    for _ in 0..4u8 {
        if trial.flying.len() > 0 {
            post(trial, 0)?;
        }
    }
    Ok(())
}

// Two nodes open a group, and the four Groups and their Joins are posted in this order. Whoever has a group then concludes it.
fn in_order(alloc: Global, picks: &mut Picks, who: u8, when: usize) -> Result<bool, AllocError> {
    let mut trial = Trial::new(alloc)?;
    open_group(&mut trial, 1)?;
    open_group(&mut trial, 2)?;
    post_in_order(&mut trial, picks, who, when)?;
    conclude(&mut trial, 1)?;
    conclude(&mut trial, 2)?;
    post_rest(&mut trial)?;
    let formed = is_formed(&trial) || when < 8;
    Ok(formed && agree(&trial) && trial.flying.is_empty())
}

// How many orders there are in which all nodes of an epoch agree, until one is met in which they don't. Before a turn a node stops
// and starts again; none does where the turn is 8.
fn orders(alloc: Global, who: u8, when: usize) -> Result<usize, AllocError> {
    let mut picks = Picks {
        at: [0; 8],
        of: [0; 8],
    };
    for count in 1..3000usize {
        if !in_order(alloc, &mut picks, who, when)? {
            return Ok(0);
        }
        if !next(&mut picks) {
            return Ok(count);
        }
    }
    Ok(0)
}

// Four letters, each with an answer that follows it: 8! / 2^4 orders.
#[test]
fn one_membership_in_all_orders(rt: HostRuntime) -> Result<(), Fail> {
    assert!(rt; orders(rt.alloc(), 1, 8) == Ok(2520));
    Ok(())
}

// The same, where the first coordinator stops in the midst.
#[test]
fn one_membership_where_the_first_stops(rt: HostRuntime) -> Result<(), Fail> {
    assert!(rt; orders(rt.alloc(), 1, 3) == Ok(2520));
    Ok(())
}

// The second one.
#[test]
fn one_membership_where_the_second_stops(rt: HostRuntime) -> Result<(), Fail> {
    assert!(rt; orders(rt.alloc(), 2, 5) == Ok(2520));
    Ok(())
}

// The node that opened no group.
#[test]
fn one_membership_where_the_third_stops(rt: HostRuntime) -> Result<(), Fail> {
    assert!(rt; orders(rt.alloc(), 3, 4) == Ok(2520));
    Ok(())
}
