// Each disk call of a delivery to three nodes fails in turn: only that node goes down, and what was answered stands on the others.
ghost use Rattle.cluster_world.specs.Worlds.{CanMakeSteps};
ghost use Rattle.cluster_trials.specs.Disks.{octets_told};

use crate::tests::steps::holds;
use crate::tests::{make, node, opened_over};
use cluster_world::{OpenFault, StepFault, World};
use io_edge::Disk;
use mail_base::NodeNo;
use node_disk::MemoryDisk;
use std::alloc::{AllocError, Global};
use std::test::Fail;
use world_book::Entry;

/// When a disk failed.
#[derive(Clone, Copy, Debug, PartialEq, Eq)]
enum When {
    /// As the world was opened.
    Opening,
    /// As the message began.
    Beginning,
    /// As a letter was heard.
    Hearing,
    /// Not at all.
    Never,
}

/// Whether all nodes are up but this one.
fn others_up<D: Disk>(world: &World<D>, which: u8) -> bool {
    world.is_up(node(1)) == (which != 1)
        && world.is_up(node(2)) == (which != 2)
        && world.is_up(node(3)) == (which != 3)
}

/// Whether the book says that this node went down, and nothing else of nodes.
fn says_down(entries: &[Entry], which: u8) -> bool {
    let mut downs = 0u32;
    for entry in entries {
        match entry {
            Entry::Down { node: down } => {
                if *down != node(which) {
                    return false;
                }
                downs = downs.saturating_add(1);
            }
            Entry::Up { .. } | Entry::Lost { .. } => return false,
            _ => {}
        }
    }
    downs == 1
}

/// All letters are posted. It says which node went down.
fn flow<D: Disk>(alloc: Global, world: &mut World<D>) -> Result<Option<NodeNo>, StepFault>
    requires { CanMakeSteps D.seen world.old }
    ensures { CanMakeSteps D.seen world.new }
{
    let fell = world.flow(alloc)?;
    if fell.is_some() && world.flow(alloc)?.is_some() {
        return Err(StepFault::Worn);
    }
    Ok(fell)
}

/// What the first message of node 1 comes to, and whether all that is as it is to be, where that node's disk fails at this call.
fn delivers(alloc: Global, world: World<MemoryDisk>, which: u8) -> Result<Option<When>, StepFault>
    requires ready { CanMakeSteps octets_told world }
{
    let mut world = world;
    let begun = make(alloc, &mut world, b'D', b'1', b'.')?;
    if begun == *b"!1" {
        let right = which == 1 && others_up(&world, 1) && says_down(world.book().entries(), 1);
        let disks = world.close();
        let stands = holds(alloc, &disks, 1, b"BP")? && holds(alloc, &disks, 2, b"BP")?;
        return Ok((right && stands).then_some(When::Beginning));
    }
    let fell = flow(alloc, &mut world)?;
    let told = make(alloc, &mut world, b'A', b'1', b'1')?;
    let (when, wanted) = match fell {
        Some(_) => (When::Hearing, if which == 2 { *b"S5" } else { *b"S3" }),
        None => (When::Never, *b"S7"),
    };
    let right = begun == *b"B1"
        && told == wanted
        && match fell {
            Some(down) => which != 1
                && down == node(which)
                && others_up(&world, which)
                && says_down(world.book().entries(), which),
            None => others_up(&world, 0),
        };
    let disks = world.close();
    let stands = holds(alloc, &disks, 0, b"BPO7")?
        && ((which == 2 && fell.is_some()) || holds(alloc, &disks, 1, b"BPO7")?)
        && ((which == 3 && fell.is_some()) || holds(alloc, &disks, 2, b"BPO7")?);
    Ok((right && stands).then_some(when))
}

/// What a cluster that was not opened comes to, where the disk of that node was to fail.
fn refuses(fault: &OpenFault, which: u8) -> Result<Option<When>, StepFault> {
    match fault {
        OpenFault::DiskFault(failed) => { Ok((failed.number() == which).then_some(When::Opening)) }
        OpenFault::NoMemory => Err(StepFault::NoMemory { down: None }),
    }
}

/// When the disk of the node fails whose call of this number does; nothing where not all is as it is to be.
fn fails(alloc: Global, which: u8, call: u64) -> Result<Option<When>, StepFault> {
    match opened_over(alloc, 3, which, call) {
        Ok(world) => delivers(alloc, world, which),
        Err(fault) => refuses(&fault, which),
    }
}

#[test]
fn each_fault_takes_one_node_down(rt: HostRuntime) -> Result<(), Fail> {
    for (which, later) in [
        (1u8, When::Beginning),
        (2, When::Hearing),
        (3, When::Hearing),
    ] {
        let mut before = When::Opening;
        for call in 1..64u64 {
            let Ok(Some(when)) = fails(rt.alloc(), which, call) else {
                panic!(rt; "not as it is to be: node {which}, call {call}");
            };
            assert!(rt;
                when == before
                    || (before == When::Opening && when == later)
                    || (before == later && when == When::Never),
                "node {which}, call {call}"
            );
            before = when;
        }
        assert_eq!(rt; before, When::Never, "node {which}");
    }
    Ok(())
}
