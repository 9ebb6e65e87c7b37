// Calls of a desk one after another: a letter, a node or a ticket, and what comes of it.
ghost use Rattle.cluster_trials.specs.Disks.{in_memory};
ghost use Rattle.solo_desk.specs.Passes.{IsPass};

use super::calls::does;
use super::opened;
use call_tickets::{Desk, DeskTicket, Tally};
use node_disk::MemoryDisk;
use solo_desk::{SoloDesk, SoloPass};
use std::alloc::{AllocError, Global};
use std::test::Fail;

// At one node.
const AT_ONE: [[u8; 4]; 32] = [
    // The plan has one node.
    *b"u1b1", *b"u2do", *b"D2do",
    // A message is stored at once. Its ticket stands once: it is Down afterwards, and giving it up passes it over.
    *b"D1B1", *b"?0S1", *b"?0do", *b"!0..",
    // It is listed, read, deleted, and gone.
    *b"L1B2", *b"?1L1", *b"F1B3", *b"?2O.", *b"X1B4", *b"?3X.", *b"F1B5", *b"?4G.",
    // Another login waits until that one is left.
    *b"L1B6", *b"?5U.",
    // A Leave is begun, and not by `begin`; and no other call is begun by `leave`.
    *b"E1..", *b"V1do", *b"e1do", *b"L1B7", *b"?6L0",
    // A secret that is wrong.
    *b"W1B8", *b"?7W.",
    // A ticket that is not as it was handed out stands no more, and then the right one still does.
    *b"D1B9", *b"d8do", *b"k8do", *b"?8S1",
    // A call is given up. Nothing is in flight.
    *b"D1B+", *b"!9..", *b"?9do", *b"p.qu",
];

// At three nodes, of which two have to confirm.
const AT_THREE: [[u8; 4]; 56] = [
    // A message waits for letters.
    *b"D1B1", *b"?0P1", *b"p.po", *b"?0P1", *b"p.po", *b"p.po", *b"?0S3", *b"p.po", *b"p.qu",
    // One is given up, and its letters are posted all the same.
    *b"D1B2", *b"!1..", *b"?1do", *b"p.po", *b"p.po", *b"p.po", *b"p.po", *b"p.qu",
    // The node goes down in the middle of one: its ticket stands no more, and none begins there.
    *b"D1B3", *b"C1..", *b"?2do", *b"u1do", *b"D1do", *b"!2..", *b"E1do", *b"C1re",
    // It starts again, without an epoch. A message fails there at once, and no group is to be concluded.
    *b"S1..", *b"u1b2", *b"D1B1", *b"?3F.", *b"c1re",
    // It opens a group, hears from both others, and is let in. The letters of the message that it began before are still in
    // flight: both others hear them, and their answers come too late.
    *b"g1..", *b"p.po", *b"p.po", *b"p.po", *b"p.po", *b"p.po", *b"p.po", *b"p.po", *b"p.po",
    *b"p.qu", *b"c1..", *b"p.po", *b"p.po", *b"p.qu", *b"D1B2",
    // The others are down: the message fails once its letters are posted.
    *b"C2..", *b"C3..", *b"?4P1", *b"p.po", *b"p.po", *b"?4F.", *b"p.qu",
    // What the plan has no node for. Node 1 manages ann, and knows of its own mail of her alone.
    *b"u4do", *b"L1B3", *b"?5L4", *b"E1..",
];

// How many rows are left, where each before them answered as it is to.
pub(super) fn left_of(
    alloc: Global,
    pass: &mut SoloPass<MemoryDisk>,
    tickets: &mut Vec<DeskTicket>,
    rows: &[[u8; 4]],
) -> Result<usize, AllocError>
    requires { IsPass in_memory pass.old }
    ensures { IsPass in_memory pass.new }
{
    let Some((row, others)) = rows.split_first() else {
        return Ok(0);
    };
    let [what, number, first, second] = *row;
    let number = if number > b'9' {
        0
    } else {
        number.saturating_sub(b'0')
    };
    if does(alloc, pass, tickets, what, number)? != [first, second] {
        return Ok(rows.len());
    }
    left_of(alloc, pass, tickets, others)
}

// How often each thing came: stored, listed, wrong, part, gone, dropped, failed, down, leaves.
fn counts(tally: Tally) -> [u64; 9] {
    [
        tally.stored,
        tally.listed,
        tally.wrong,
        tally.part,
        tally.gone,
        tally.dropped,
        tally.failed,
        tally.down,
        tally.leaves,
    ]
}

pub(super) fn counted(pass: &SoloPass<MemoryDisk>) -> [u64; 9] {
    let desk = SoloDesk::new();
    counts(desk.tally(pass))
}

#[test]
fn each_call_answers_at_one_node(rt: HostRuntime) -> Result<(), Fail> {
    let alloc = rt.alloc();
    let Ok(mut pass) = opened(alloc, 1, 1, 0) else {
        panic!(rt; "no world");
    };
    let left = left_of(alloc, &mut pass, &mut Vec::new(alloc), &AT_ONE)?;
    assert_eq!(rt; left, 0);
    assert_eq!(rt; counted(&pass), [2, 2, 1, 1, 1, 1, 0, 8, 1]);
    Ok(())
}

#[test]
fn each_call_answers_at_three_nodes(rt: HostRuntime) -> Result<(), Fail> {
    let alloc = rt.alloc();
    let Ok(mut pass) = opened(alloc, 3, 2, 0) else {
        panic!(rt; "no world");
    };
    let left = left_of(alloc, &mut pass, &mut Vec::new(alloc), &AT_THREE)?;
    assert_eq!(rt; left, 0);
    assert_eq!(rt; counted(&pass), [1, 1, 0, 0, 0, 0, 2, 6, 1]);
    Ok(())
}
