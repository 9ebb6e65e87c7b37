//! What the trials begin with: a plan, a message, and a world of one node.
ghost use Rattle.std.specs.Prelude.{◌≡◌, ◌≤◌, true, IfOk, IfSome};
ghost use Rattle.mail_model.specs.Lines.{ends_in_crlf};
ghost use Rattle.cluster_world.specs.Opens.{CanBeOpened};
ghost use Rattle.shard_board.specs.Worlds.{IsSoundWorld};
ghost use Rattle.board_trials.specs.Disks.{plainly};

use cluster_world::World;
use io_edge::PlainDisk;
use mail_base::{Deliver, Name, Names, Octets, Plan, Secret, Users};
use shard_board::opened_is_sound;
use std::alloc::{AllocError, Global};

/// The name that is spelt so.
///
/// # Errors
///
/// Out of memory, and octets that are no name.
pub fn name(alloc: Global, octets: &[u8]) -> Result<Name, AllocError> {
    Name::spelt(alloc, octets)?.ok_or(AllocError)
}

// Another user, whose secret is sesame.
fn add(alloc: Global, users: &mut Users, octets: &[u8]) -> Result<(), AllocError> {
    let secret = Secret::read(alloc, b"sesame")?.ok_or(AllocError)?;
    users.insert(name(alloc, octets)?, secret)
}

// The users ann, bob, cat and dan.
fn users(alloc: Global) -> Result<Users, AllocError> {
    let mut users = Users::new(alloc);
    add(alloc, &mut users, b"ann")?;
    add(alloc, &mut users, b"bob")?;
    add(alloc, &mut users, b"cat")?;
    add(alloc, &mut users, b"dan")?;
    Ok(users)
}

/// A plan of so many nodes, with the users ann, bob, cat and dan. Each node is to have a copy, and so many have to confirm it.
///
/// # Errors
///
/// Out of memory alone.
pub fn plan(alloc: Global, nodes: u8, confirm: u8) -> Result<Plan, AllocError>
    requires some { 1 ≤ confirm }
    requires fits { confirm ≤ nodes }
    requires few { nodes ≤ 16 }
    ensures fit { IfOk result (λ plan. CanBeOpened plan) }
    ensures nodes { IfOk result (λ plan. plan.nodes ≡ nodes) }
{
    Ok(Plan {
        nodes,
        copies: nodes,
        confirm,
        buckets: 1,
        users: users(alloc)?,
        postmaster: name(alloc, b"ann")?,
    })
}

/// A message of one line to the user.
///
/// # Errors
///
/// Out of memory, and octets that are no name.
pub fn message(alloc: Global, user: &[u8]) -> Result<Deliver, AllocError>
    ensures { IfOk result (λ mail. ends_in_crlf mail.text ≡ true) }
{
    let mut users = Names::new(alloc);
    users.push(name(alloc, user)?)?;
    Ok(Deliver {
        users,
        sender: Octets::from_vec(b"bob@b.example".to_vec(alloc)?),
        helo: Octets::from_vec(b"c.example".to_vec(alloc)?),
        extended: false,
        text: Octets::from_vec(b"Hi\r\n".to_vec(alloc)?),
    })
}

/// A new world of one node, over a plain disk; nothing, where memory ran out.
pub fn open_plain(alloc: Global) -> Option<World<PlainDisk>>
    ensures { IfSome result (λ world. IsSoundWorld plainly world) }
{
    let plan = plan(alloc, 1, 1).ok()?;
    let mut disks = Vec::new(alloc);
    disks.push(PlainDisk::new(alloc)).ok()?;
    opened_is_sound::<PlainDisk>();
    match World::open(alloc, plan, disks) {
        Ok(world) => Some(world),
        Err(_) => None,
    }
}
