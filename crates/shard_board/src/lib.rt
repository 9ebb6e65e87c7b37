//! shard_board: a cluster behind a lock that has a history.
//!
//! SUMMARY
//!
//! A `Board` is a world with its fate and its clock behind a turnstile, for several threads, each with a `BoardPass`. Each call
//! of a board is one turn: it finds the world as the turns before left it, makes one whole step or a few, and nobody else works
//! on it meanwhile.
//!
//! DESCRIPTION
//!
//! `Board::new` takes a world, a fate and a clock, and gives the board and its first pass. `split` gives a pass for another
//! thread, and `join` takes it in again. `close` gives the world to the pass that has the whole quota.
//!
//! | Call | Steps of the world |
//! |---|---|
//! | `begin`, `ask`, `give_up` | one of that kind |
//! | `regroup` | those of one regroup: a group is opened, its letters are posted, it is concluded, and its letters are posted |
//! | `settle` | those of one settle: all letters are posted, and members push and report until nothing is due |
//! | `console` | the one that an operator orders; those of a regroup or a settle; none to tell a map or to count the entries of the book |
//! | `post_one` | the clock is set, and then the letter of the lowest number is handed over, lost or handed over twice, as fate decides |
//! | `is_up`, `maps`, `entry`, `sum` | none |
//! | `act` | those of the deed that it is handed |
//!
//! HOW IT STANDS
//!
//! The history of the lock has a page for each deed, mostly a step: the world before and after it, and whether it was blind, that
//! is whether it read from no disk what the machine has to know. A page takes no room. So the book is what it was as the board was
//! made, and after that what the pages have; what a pass has seen of it is what its pages have, and its own entries are those on
//! the pages of its own turns.
//!
//! PROMISES
//!
//! - Each call says by `IsTurnOf` in `specs/Boards.antt` what its turn did: there are an old and a new world with the step
//!   between them; the book of the old begins with all that the pass had seen; what was added is the pass's own.
//! - What `close` gives has in its book the entries of the opening, of the pass and of each pass that was joined, each once, in
//!   their order, and no other (`ClosesWith`).
//! - The plan stays, and the world can make steps, whatever is done.
//! - A page is known where its deed was blind, or the disks told what they hold. A pass tells still (`tells_still`) where each
//!   page that it has seen is known; then the worlds that its turn found and left were sound, which says that they stand for a
//!   sound world of the machine. Over disks of which each tells, every pass tells always (`passes_tell`). Over disks that tell
//!   nothing a start is not known, nor a push or a settle among several nodes: whoever has seen one tells nothing any more.
//! - `made_known` says that what a pass and those that it took in made is known. Each call but those three leaves it as it
//!   is, and where it holds of the pass that closes the board, the world is sound.
//! - `specs/Worlds.antt` has what stays of a world over known steps. The law is `steps_keep_world`. A sound world that is at rest
//!   has right maps (`sound_rests_right`).
//!
//! DIAGNOSTICS
//!
//! A call is refused as `cluster_world` refuses its step.
//!
//! STANDS ON
//!
//! `turnstile` for the lock, `cluster_world` for the world and its steps and for what a sound one is, and
//! `desk_model` for what its tickets ask.
//!
//! WHAT IT DOES NOT DO
//!
//! Who comes first and how long a turn waits are not said. A step whose page finds no memory is not made, and says so as one
//! that is out of memory. A pass that is dropped keeps its quota for ever, so that `close` can no longer be called.
#![tactic(auto)]

mod board;
mod deed;
mod entries;
mod laws;
mod order;
mod page;
mod part;
mod passes;
mod tallies;
mod turns;
mod works;

pub use board::{Board, BoardPass};
pub use deed::Deed;
pub use laws::{
    flows_keep_world, opened_is_sound, passes_tell, sound_rests_right, steps_keep_world,
};
pub use order::{Order, Told};
