// What a cluster tells of its letters, calls and members, and several steps in one call.
ghost use Rattle.cluster_world.specs.Worlds.{CanMakeSteps};

use crate::tests::{first_id, make, node, opened, step_of, told};
use cluster_world::{Step, World};
use io_edge::Disk;
use mail_base::{CallKind, Ticket};
use std::alloc::{AllocError, Global};
use std::test::Fail;
use world_book::Entry;

/// The steps that these rows tell.
fn steps_of(alloc: Global, rows: &[[u8; 3]]) -> Result<Vec<Step>, AllocError> {
    let mut steps = Vec::new(alloc);
    for row in rows {
        let [what, first, second] = *row;
        steps.push(step_of(alloc, what, first, second)?)?;
    }
    Ok(steps)
}

/// What the steps of these rows said, two letters for each; where one is refused, two letters for that alone.
fn run<D: Disk>(
    alloc: Global,
    world: &mut World<D>,
    rows: &[[u8; 3]],
) -> Result<Vec<u8>, AllocError>
    requires { CanMakeSteps D.seen world.old }
    ensures { CanMakeSteps D.seen world.new }
{
    let steps = steps_of(alloc, rows)?;
    let mut letters = Vec::new(alloc);
    match world.run(alloc, steps) {
        Ok(said) => {
            for one in said {
                letters.extend_from_slice(&told(&Ok(one)))?;
            }
        }
        Err(fault) => letters.extend_from_slice(&told(&Err(fault)))?,
    }
    Ok(letters)
}

/// What stands under the first ticket of node 1: nothing, or a delivery of its first message.
fn delivery_stands<D: Disk>(world: &World<D>) -> Option<bool>
    requires { CanMakeSteps D.seen world.now }
{
    let ticket = Ticket::new(node(1), 1, 1);
    let kind = world.kind(&ticket)?;
    let filing = world.filing(&ticket)?;
    Some(kind == CallKind::Deliver && filing.id == first_id() && filing.seconds == world.seconds())
}

/// The set of the members that a node knows.
pub(super) fn members<D: Disk>(world: &World<D>, number: u8) -> u16
    requires { CanMakeSteps D.seen world.now }
{
    world.members(node(number)).mask()
}

/// Whether the book has one copy that was acknowledged, with these confirmers, and nothing else.
fn has_one(entries: &[Entry], confirmers: u16) -> bool {
    let [entry] = entries else {
        return false;
    };
    match entry {
        Entry::Acked {
            id,
            confirmers: nodes,
            ..
        } => *id == first_id() && nodes.mask() == confirmers,
        _ => false,
    }
}

#[test]
fn tells_of_calls_and_letters(rt: HostRuntime) -> Result<(), Fail> {
    let alloc = rt.alloc();
    let Ok(mut world) = opened(alloc, 3) else {
        panic!(rt; "no cluster");
    };
    assert!(rt; delivery_stands(&world).is_none() && world.flying().is_none());
    let said = run(alloc, &mut world, &[*b"D1.", *b">12", *b">13"])?;
    assert!(rt; said.as_slice() == b"B1L1L1".as_slice());
    assert!(rt; delivery_stands(&world) == Some(true) && world.flying() == Some(1));
    let Ok(None) = world.flow(alloc) else {
        panic!(rt; "no flow");
    };
    assert!(rt; delivery_stands(&world) == Some(true) && world.flying().is_none());
    assert_eq!(rt; make(alloc, &mut world, b'A', b'1', b'1')?, *b"S7");
    assert!(rt; delivery_stands(&world).is_none() && has_one(world.book().entries(), 7));
    Ok(())
}

#[test]
fn tells_of_members(rt: HostRuntime) -> Result<(), Fail> {
    let alloc = rt.alloc();
    let Ok(mut world) = opened(alloc, 2) else {
        panic!(rt; "no cluster");
    };
    assert!(rt; members(&world, 2) == 7 && members(&world, 4) == 0);
    assert!(rt; world.boot(node(2)) == Some(1) && world.plan().nodes == 3);
    // The third is refused, and what was made before stays made.
    let said = run(alloc, &mut world, &[*b"C2.", *b"L3.", *b"C2.", *b"S2."])?;
    assert!(rt; said.as_slice() == b"do".as_slice());
    assert!(rt; members(&world, 1) == 7 && members(&world, 2) == 0 && members(&world, 3) == 0);
    assert!(rt; !world.is_lost(node(2)) && world.is_lost(node(3)) && world.is_lost(node(4)));
    let said = run(alloc, &mut world, &[*b"S2."])?;
    assert!(rt; said.as_slice() == b"U2".as_slice() && world.boot(node(2)) == Some(2));
    // It has no epoch until a group lets it in.
    assert!(rt; world.boot(node(3)).is_none() && members(&world, 2) == 0);
    assert_eq!(rt; make(alloc, &mut world, b'R', b'1', b'.')?, *b"23");
    assert!(rt; members(&world, 1) == 3 && members(&world, 2) == 3);
    Ok(())
}
