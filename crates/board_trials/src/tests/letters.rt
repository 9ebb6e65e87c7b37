// Letters of one message, and what becomes of them by fate.
ghost use Rattle.std.specs.Prelude.{◌≡◌};
ghost use Rattle.cluster_trials.specs.Disks.{in_memory};
ghost use Rattle.shard_board.specs.Boards.{quota_of, IsPassOf};

use super::orders::{asks, delivers, posts};
use super::{Cluster, Pass, digit, made, node, opened};
use mail_base::Ticket;
use std::alloc::{AllocError, Global};
use std::sync::Wait;
use std::test::Fail;

// What fate decides of the first eight letters that are looked at; how many looks there are until none is in flight; and what the
// message of node 1 then came to: which nodes confirmed it, as a sum of 1, 2 and 4, or that it failed. Two of three have to.
//
// Letters 1 and 2 file the message at nodes 2 and 3, and for each of these that hears one a letter goes back.
const ROWS: [[u8; 11]; 9] = [
    *b"........4S7",
    // Node 2 hears nothing, then node 3, then both.
    *b"d.......3S5",
    *b".d......3S3",
    *b"dd......2F.",
    // An answer is lost, or both are, or one where the other node heard nothing.
    *b"..d.....4S5",
    *b"..dd....4F.",
    *b"d.d.....3F.",
    // A letter is heard twice, and is answered twice; and once after three that are kept.
    *b"t.......6S7",
    *b"ttt.....+S7",
];

// How many letters are looked at until none is in flight, of so many at most.
fn looks<R: Wait>(rt: &R, alloc: Global, board: &Cluster, pass: &mut Pass, most: u8) -> u64
    requires pass { IsPassOf in_memory board.now pass.old }
    ensures pass { IsPassOf in_memory board.now pass.new }
    ensures quota { quota_of pass.new ≡ quota_of pass.old }
{
    if most == 0 || posts(rt, alloc, board, pass) != *b"po" {
        return 0;
    }
    looks(rt, alloc, board, pass, most - 1).saturating_add(1)
}

// A message of node 1 is sent, and its letters are posted. Says how many were looked at, and what it came to.
fn sends<R: Wait>(
    rt: &R,
    alloc: Global,
    board: &Cluster,
    pass: &mut Pass,
) -> Result<[u8; 3], AllocError>
    requires pass { IsPassOf in_memory board.now pass.old }
    ensures pass { IsPassOf in_memory board.now pass.new }
    ensures quota { quota_of pass.new ≡ quota_of pass.old }
{
    let _ = delivers(rt, alloc, board, pass, node(1))?;
    let looks = looks(rt, alloc, board, pass, 32);
    let [kind, mask] = asks(rt, alloc, board, pass, Ticket::new(node(1), 1, 1));
    Ok([digit(looks), kind, mask])
}

// The same at a new board with this fate.
fn comes_to<R: Wait>(rt: &R, alloc: Global, lots: [u8; 8]) -> Result<[u8; 3], AllocError> {
    let Ok(world) = opened(alloc, 3, 2) else {
        return Err(AllocError);
    };
    let Some((board, mut pass)) = made(alloc, world, lots, 1) else {
        return Err(AllocError);
    };
    let came = sends(rt, alloc, &board, &mut pass);
    let _ = board.close(pass);
    came
}

#[test]
fn letters_meet_their_fate(rt: HostRuntime) -> Result<(), Fail> {
    for row in &ROWS {
        let [a, b, c, d, e, f, g, h, looks, kind, mask] = *row;
        let came = comes_to(&rt, rt.alloc(), [a, b, c, d, e, f, g, h])?;
        assert_eq!(rt; came, [looks, kind, mask]);
    }
    Ok(())
}
