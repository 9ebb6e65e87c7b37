//! How a board is made and closed, and how passes are split and joined.
ghost use Rattle.std.specs.Prelude.{◌≡◌, ◌<◌, IfOk, IfErr};
ghost use Rattle.node_store.specs.Disks.{view_of};
ghost use Rattle.shard_board.specs.Worlds.{IsSoundWorld};
ghost use Rattle.shard_board.specs.Boards.{quota_of, passes_of, IsPassOf, IsNewBoard, IsSplitOf, TakesInPass, ClosesWith};

use crate::board::{Board, BoardPass};
use crate::part::Part;
use crate::tallies::{counts_of_both, no_counts};
use cluster_world::World;
use io_edge::Disk;
use std::alloc::Global;
use std::snapshot::Snapshot;
use turnstile::Turnstile;

impl<D: Disk, F: Drop, C: Drop> Board<D, F, C> {
    /// A board over the world, with its fate and its clock, and its one pass, which has the quota `passes`: so many passes there
    /// can be at once. Out of memory is the one refusal, and it hands all back.
    pub fn new(
        alloc: Global,
        world: World<D>,
        fate: F,
        clock: C,
        passes: u32,
    ) -> Result<(Board<D, F, C>, BoardPass<D, F, C>), (World<D>, F, C)>
        requires sound { IsSoundWorld (view_of D.seen D.faults D.clock) world }
        requires passes { 0 < passes }
        ensures made { IfOk result (λ made. IsNewBoard (view_of D.seen D.faults D.clock) world passes made.0 made.1) }
        ensures handed_back { IfErr result (λ back. (back.0 ≡ world) × (back.1 ≡ fate) × (back.2 ≡ clock)) }
    {
        let opening = Snapshot::of(world.book());
        let part = Part {
            world,
            fate,
            clock,
            opening,
            pages: Vec::new(alloc),
        };
        match Turnstile::new(alloc, part, passes) {
            Ok((turnstile, lower)) => {
                let tally = no_counts();
                Ok((Board { turnstile }, BoardPass { lower, tally }))
            }
            Err(part) => {
                let Part {
                    world,
                    fate,
                    clock,
                    ..
                } = part;
                Err((world, fate, clock))
            }
        }
    }

    /// A new pass with this quota, which has seen as much, and has no own entries and no counts. The pass keeps the rest of its
    /// quota. Takes no memory and waits for nobody.
    pub fn split(&self, pass: &mut BoardPass<D, F, C>, quota: u32) -> BoardPass<D, F, C>
        requires pass { IsPassOf (view_of D.seen D.faults D.clock) self.now pass.old }
        requires quota { (0 < quota) × (quota < quota_of pass.old) }
        ensures belong { IsPassOf (view_of D.seen D.faults D.clock) self.now pass.new × IsPassOf (view_of D.seen D.faults D.clock) self.now result }
        ensures split { IsSplitOf self.now quota pass.old pass.new result }
    {
        let lower = self.turnstile.split(&mut pass.lower, quota);
        let tally = no_counts();
        BoardPass { lower, tally }
    }

    /// Takes in another pass of this board, with its quota, its entries and its counts. Takes no memory and waits for nobody.
    pub fn join(&self, pass: &mut BoardPass<D, F, C>, other: BoardPass<D, F, C>)
        requires pass { IsPassOf (view_of D.seen D.faults D.clock) self.now pass.old × IsPassOf (view_of D.seen D.faults D.clock) self.now other }
        ensures pass { IsPassOf (view_of D.seen D.faults D.clock) self.now pass.new }
        ensures join { TakesInPass self.now pass.old other pass.new }
    {
        let BoardPass { lower, tally } = other;
        self.turnstile.join(&mut pass.lower, lower);
        pass.tally = counts_of_both(&pass.tally, &tally);
    }

    /// The world. The pass has the whole quota, so that no other pass is left. Takes no memory and waits for nobody.
    pub fn close(self, pass: BoardPass<D, F, C>) -> World<D>
        requires pass { IsPassOf (view_of D.seen D.faults D.clock) self pass }
        requires whole { quota_of pass ≡ passes_of self }
        ensures closed { ClosesWith (view_of D.seen D.faults D.clock) self pass result }
    {
        let Board { turnstile } = self;
        let BoardPass { lower, .. } = pass;
        let Part { world, .. } = turnstile.close(lower);
        world
    }
}
