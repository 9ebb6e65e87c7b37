// A row as it changes, is reported and is acknowledged.
use crate::tests::cluster::{Act, Trial, node, notes};
use mail_base::{MsgId, Name};
use std::alloc::{AllocError, Global};
use std::test::Fail;

const FORMED: [Act; 8] = [
    Act::Opens(1),
    Act::Hears(0),
    Act::Hears(0),
    Act::Hears(0),
    Act::Hears(0),
    Act::Concludes(1),
    Act::Hears(0),
    Act::Hears(0),
];

fn form(trial: &mut Trial) -> Result<(), AllocError> {
    for act in FORMED.iter() {
        if !trial.does(act)? {
            return Err(AllocError);
        }
    }
    Ok(())
}

fn formed(alloc: Global) -> Result<Trial, AllocError> {
    let mut trial = Trial::new(alloc)?;
    form(&mut trial)?;
    Ok(trial)
}

// How many nodes a node names that hold messages of the user, by what it was told.
fn named(trial: &Trial, number: u8, user: &Name) -> Result<u32, AllocError> {
    let place = trial.place(number)?;
    Ok(trial.sites[place].maps.named(user).count())
}

// The sum of the nodes to which a row of node 3 is due.
fn owed(trial: &Trial) -> Result<u8, AllocError> {
    let place = trial.place(3)?;
    let mut sum = 0u8;
    for number in 1..4u8 {
        if trial.sites[place].maps.owes_rows(node(number)?) {
            sum = sum.saturating_add(number);
        }
    }
    Ok(sum)
}

// How many nodes the three name together.
fn named_by_all(trial: &Trial, user: &Name) -> Result<u32, AllocError> {
    let mut holders = 0u32;
    for number in 1..4u8 {
        holders = holders.saturating_add(named(trial, number, user)?);
    }
    Ok(holders)
}

// Node 3 reports what is due to nodes 1 and 2, and all letters are posted; how many reports it sent.
fn settles(trial: &mut Trial) -> Result<usize, AllocError> {
    let mut sent = 0usize;
    for to in 1..3u8 {
        sent = sent.saturating_add(trial.report(3, to)?);
        post_all(trial)?;
    }
    Ok(sent)
}

// A few letters more than there are.
fn post_all(trial: &mut Trial) -> Result<(), AllocError> {
    for _ in 0..4u8 {
        if trial.flying.len() > 0 {
            trial.post(0)?;
        }
    }
    Ok(())
}

fn is_clear(trial: &Trial) -> Result<bool, AllocError> {
    let place = trial.place(3)?;
    Ok(trial.sites[place].maps.reports().is_clear())
}

// To whom a row of node 3 is due once it has a message of the user, and then what it sent, how many holders the nodes name, and to
// whom a row is due still.
fn told(alloc: Global, user: &Name) -> Result<(u8, usize, u32, u8), AllocError> {
    let mut trial = formed(alloc)?;
    let id = MsgId::new(node(3)?, 1, 1).ok_or(AllocError)?;
    let place = trial.place(3)?;
    notes(&mut trial.sites[place], user, id, true)?;
    let owed_first = owed(&trial)?;
    let sent = settles(&mut trial)?;
    let left = owed(&trial)?;
    Ok((owed_first, sent, named_by_all(&trial, user)?, left))
}

// Bucket 0 is node 1's and bucket 1 is node 2's: node 3 reports each of its rows once, to the manager alone.
#[test]
fn a_row_reaches_its_manager(rt: HostRuntime) -> Result<(), Fail> {
    let Ok(user) = Name::read(rt.alloc(), b"ann") else {
        panic!(rt; "no name");
    };
    assert!(rt; told(rt.alloc(), &user) == Ok((1, 1, 1, 0)));
    let Ok(other) = Name::read(rt.alloc(), b"alice") else {
        panic!(rt; "no name");
    };
    assert!(rt; told(rt.alloc(), &other) == Ok((2, 1, 1, 0)));
    Ok(())
}

// What node 3 sent, how many holders the nodes name, and whether nothing is due, where it found the message on its disk before the
// epoch was formed.
fn found(alloc: Global, user: &Name) -> Result<(usize, u32, bool), AllocError> {
    let mut trial = Trial::new(alloc)?;
    let id = MsgId::new(node(3)?, 1, 1).ok_or(AllocError)?;
    let place = trial.place(3)?;
    trial.sites[place].maps.find(user, id)?;
    form(&mut trial)?;
    let sent = settles(&mut trial)?;
    Ok((sent, named_by_all(&trial, user)?, is_clear(&trial)?))
}

#[test]
fn a_row_is_due_in_a_new_epoch(rt: HostRuntime) -> Result<(), Fail> {
    let Ok(user) = Name::read(rt.alloc(), b"ann") else {
        panic!(rt; "no name");
    };
    assert!(rt; found(rt.alloc(), &user) == Ok((1, 1, true)));
    Ok(())
}
