//! A desk over worlds of one node and of three.
ghost use Rattle.std.specs.Prelude.{◌≡◌, ◌≤◌, IfOk};
ghost use Rattle.cluster_world.specs.Opens.{CanBeOpened};
ghost use Rattle.cluster_trials.specs.Disks.{in_memory};
ghost use Rattle.solo_desk.specs.Passes.{IsPass};

mod calls;
mod rows;
mod talks;

use cluster_trials::fresh_disks;
use cluster_world::OpenFault;
use mail_base::{Name, Plan, Secret, Users};
use node_disk::MemoryDisk;
use solo_desk::SoloPass;
use std::alloc::{AllocError, Global};

fn ann(alloc: Global) -> Result<Name, AllocError> {
    Name::spelt(alloc, b"ann")?.ok_or(AllocError)
}

// A plan of so many nodes, with the one user ann. Each node is to have a copy, and so many have to confirm it.
fn plan(alloc: Global, nodes: u8, confirm: u8) -> Result<Plan, AllocError>
    requires some { 1 ≤ confirm }
    requires fits { confirm ≤ nodes }
    requires few { nodes ≤ 16 }
    ensures fit { IfOk result (λ plan. CanBeOpened plan) }
    ensures nodes { IfOk result (λ plan. plan.nodes ≡ nodes) }
{
    let mut users = Users::new(alloc);
    let secret = Secret::read(alloc, b"sesame")?.ok_or(AllocError)?;
    users.insert(ann(alloc)?, secret)?;
    Ok(Plan {
        nodes,
        copies: nodes,
        confirm,
        buckets: 1,
        users,
        postmaster: ann(alloc)?,
    })
}

// A pass over a new world of that plan. Of the disk of node 1 this call fails; none where it is 0.
fn opened(
    alloc: Global,
    nodes: u8,
    confirm: u8,
    call: u64,
) -> Result<SoloPass<MemoryDisk>, OpenFault>
    requires some { 1 ≤ confirm }
    requires fits { confirm ≤ nodes }
    requires few { nodes ≤ 16 }
    ensures { IfOk result (λ pass. IsPass in_memory pass) }
{
    let plan = plan(alloc, nodes, confirm)?;
    let disks = fresh_disks(alloc, nodes, 1, call)?;
    match SoloPass::open(alloc, plan, disks) {
        Ok(pass) => Ok(pass),
        Err((fault, _disks)) => Err(fault),
    }
}
