//! What is behind the lock: a world with its fate and its clock, and a page for each deed.
ghost use Rattle.std.specs.Prelude.{◌≡◌, ◌++◌};
ghost use Rattle.cluster_world.specs.Worlds.{book_of};
ghost use Rattle.cluster_world.specs.Books.{booked_by};
ghost use Rattle.shard_board.specs.Pages.{all_on};

use crate::deed::Deed;
use crate::page::Page;
use cluster_world::World;
use io_edge::Disk;
use std::alloc::Global;
use std::snapshot::Snapshot;
use turnstile::Counted;
use world_book::Book;

/// A world with its fate and its clock, and a page for each deed since the board was made.
#[derive(Drop)]
pub struct Part<D, F, C> {
    pub(crate) world: World<D>,
    pub(crate) fate: F,
    pub(crate) clock: C,
    // the book as the board was made
    pub(crate) opening: Snapshot<Book>,
    pub(crate) pages: Vec<Page<D>>,
    // The book is what it was at first, and after that what the pages have.
    ghost bound: { book_of world ≡ booked_by opening.value ++ all_on pages.items },
}

impl<D: Disk, F, C> Counted for Part<D, F, C> {
    ghost use Rattle.node_store.specs.Disks.{view_of};
    ghost use Rattle.shard_board.specs.Parts.{pages_of, KeepsPart, stays, chains};

    type Entry = Page<D>;

    ghost history = { pages_of };

    ghost keeps = { KeepsPart (view_of D.seen D.faults D.clock) };

    fn count(&self) -> u64 {
        self.pages.len() as u64
    }

    ghost stays = { stays (view_of D.seen D.faults D.clock) };

    ghost chains = { chains (view_of D.seen D.faults D.clock) };
}

impl<D: Disk, F, C> Part<D, F, C> {
    ghost use Rattle.std.specs.Prelude.{true};
    ghost use Rattle.node_store.specs.Disks.{view_of};
    ghost use Rattle.cluster_world.specs.Worlds.{plan_of, CanMakeSteps};
    ghost use Rattle.shard_board.specs.Worlds.{IsSoundWorld};
    ghost use Rattle.shard_board.specs.Pages.{is_known_over};
    ghost use Rattle.shard_board.specs.Parts.{KeepsPart, AddsKnown};

    /// Does the deed, which has a page of its own. Where there is no memory for the page, nothing is done.
    pub(crate) fn make<T: Deed<D>>(&mut self, alloc: Global, deed: T) -> T::Out
        requires ready { CanMakeSteps D.seen self.old.world }
        requires asks { T.asks deed self.old.world }
        ensures did { T.did deed self.old.world result self.new.world }
        ensures ready { CanMakeSteps D.seen self.new.world }
        ensures sound { is_known_over D.seen (T.blind deed (plan_of self.old.world).nodes) self.old.world ≡ true
            → IsSoundWorld (view_of D.seen D.faults D.clock) self.old.world → IsSoundWorld (view_of D.seen D.faults D.clock) self.new.world }
        ensures keeps { KeepsPart (view_of D.seen D.faults D.clock) self.old self.new }
        ensures known { T.blind deed (plan_of self.old.world).nodes ≡ true → AddsKnown D.seen self.old self.new }
        ensures beside { (self.new.fate ≡ self.old.fate) × (self.new.clock ≡ self.old.clock) }
    {
        let Ok(()) = self.pages.reserve(1) else {
            return deed.short();
        };
        let blind = deed.is_blind(self.world.plan().nodes);
        let blind = Snapshot::of(&blind);
        let before = Snapshot::of(&self.world);
        let out = deed.act(alloc, &mut self.world);
        let after = Snapshot::of(&self.world);
        self.pages.push_reserved(Page {
            before,
            after,
            blind,
        });
        out
    }
}
