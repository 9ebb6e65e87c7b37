// The users of the tables: alice, who is the postmaster, bob, and u001 to u101. Each secret is sesame.
use mail_base::{Name, Plan, Secret, Users};
use std::alloc::Global;
use std::test::Fail;

// u001, u002 and so on
pub(super) fn user(number: u8) -> [u8; 4] {
    [
        b'u',
        b'0' + number / 100,
        b'0' + number / 10 % 10,
        b'0' + number % 10,
    ]
}

fn name(alloc: Global, octets: &[u8]) -> Result<Name, Fail> {
    Ok(Name::spelt(alloc, octets)?.ok_or("no name")?)
}

fn add(users: &mut Users, alloc: Global, octets: &[u8]) -> Result<(), Fail> {
    let secret = Secret::read(alloc, b"sesame")?.ok_or("no secret")?;
    Ok(users.insert(name(alloc, octets)?, secret)?)
}

pub(super) fn plan(alloc: Global) -> Result<Plan, Fail> {
    let mut users = Users::new(alloc);
    add(&mut users, alloc, b"alice")?;
    add(&mut users, alloc, b"bob")?;
    for number in 1..102u8 {
        add(&mut users, alloc, &user(number))?;
    }
    Ok(Plan {
        nodes: 1,
        copies: 1,
        confirm: 1,
        buckets: 1,
        users,
        postmaster: name(alloc, b"alice")?,
    })
}
