// The users of the tables: alice, who is the postmaster, with the secret sesame, and u001 to u101, with the same.
use mail_base::{Name, Plan, Secret, Users};
use std::alloc::Global;
use std::test::Fail;

fn alice(alloc: Global) -> Result<Name, Fail> {
    Ok(Name::spelt(alloc, b"alice")?.ok_or("no name")?)
}

// The name of a user by number, below 1,000.
pub(super) fn numbered(number: u16) -> [u8; 4] {
    let digit = |place: u16| b'0' + (place % 10) as u8;
    [b'u', digit(number / 100), digit(number / 10), digit(number)]
}

fn add(alloc: Global, users: &mut Users, name: &[u8]) -> Result<(), Fail> {
    let name = Name::spelt(alloc, name)?.ok_or("no name")?;
    let secret = Secret::read(alloc, b"sesame")?.ok_or("no secret")?;
    users.insert(name, secret)?;
    Ok(())
}

pub(super) fn plan(alloc: Global) -> Result<Plan, Fail> {
    let mut users = Users::new(alloc);
    add(alloc, &mut users, b"alice")?;
    for number in 1..102u16 {
        add(alloc, &mut users, &numbered(number))?;
    }
    Ok(Plan {
        nodes: 1,
        copies: 1,
        confirm: 1,
        buckets: 1,
        users,
        postmaster: alice(alloc)?,
    })
}
