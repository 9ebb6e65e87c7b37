// Plans, and the ports of their doors.
ghost use Rattle.std.specs.Prelude.{◌≡◌, ◌≤◌, IfOk};
ghost use Rattle.cluster_world.specs.Opens.{CanBeOpened};

use io_edge::Protocol;
use mail_base::{Name, Plan, Secret, Users};
use mail_service::Port;
use std::alloc::{AllocError, Global};

// The name that is spelt so.
fn name(alloc: Global, octets: &[u8]) -> Result<Name, AllocError> {
    Name::spelt(alloc, octets)?.ok_or(AllocError)
}

// Another user, with this secret.
fn add(alloc: Global, users: &mut Users, user: &[u8], secret: &[u8]) -> Result<(), AllocError> {
    let secret = Secret::read(alloc, secret)?.ok_or(AllocError)?;
    users.insert(name(alloc, user)?, secret)
}

// The users ann and alice@example.org.
fn users(alloc: Global) -> Result<Users, AllocError> {
    let mut users = Users::new(alloc);
    add(alloc, &mut users, b"ann", b"sesame")?;
    add(alloc, &mut users, b"alice@example.org", b"open sesame")?;
    Ok(users)
}

/// A plan of so many nodes, with the users ann and alice@example.org. So many are to have a copy, and so many have to confirm it.
pub(super) fn plan(alloc: Global, nodes: u8, copies: u8, confirm: u8) -> Result<Plan, AllocError>
    requires some { 1 ≤ confirm }
    requires copied { confirm ≤ copies }
    requires spread { copies ≤ nodes }
    requires few { nodes ≤ 16 }
    ensures fit { IfOk result (λ plan. CanBeOpened plan) }
    ensures nodes { IfOk result (λ plan. plan.nodes ≡ nodes) }
{
    Ok(Plan {
        nodes,
        copies,
        confirm,
        buckets: 1,
        users: users(alloc)?,
        postmaster: name(alloc, b"ann")?,
    })
}

/// A door for SMTP and one for POP3 at each of so many nodes.
pub(super) fn ports(alloc: Global, nodes: u8) -> Result<Vec<Port>, AllocError> {
    let mut ports = Vec::new(alloc);
    for node in 1..=nodes {
        for protocol in [Protocol::Smtp, Protocol::Pop] {
            ports.push(Port {
                node,
                protocol,
                port: u16::from(node),
            })?;
        }
    }
    Ok(ports)
}
