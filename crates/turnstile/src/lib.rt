//! turnstile: a ticket lock whose turns extend one history.
//!
//! SUMMARY
//!
//! A value that several threads work on, one at a time, and a pass for each thread. The value has a history that only grows, and
//! a pass knows a prefix of it, and which of its entries the pass's own turns added.
//!
//! DESCRIPTION
//!
//! - `Counted`: what the value tells: its history, the length of that history, and `keeps`, what of it stays for ever.
//! - `Work`: what one turn does to the value. It may only append to the history, and it keeps what stays.
//! - `Turnstile::new` takes the value in and gives the first pass. Its quota is the number of passes that there can be.
//! - `Turnstile::turn` waits until the pass is served, hands the value to the work, and serves the next. The work finds a value
//!   whose history begins with all that the pass had seen, and which has what stays of the first value. What the work adds
//!   follows, and nothing else does. The pass has then seen all of that history, and what was added is its own.
//! - `split` hands a part of a pass's quota on to a new pass, for another thread; `join` takes that pass in again, with its entries.
//! - `close` gives the value to the pass that has the whole quota. Its history is shared out among the opening, the pass and each
//!   pass that was joined: each entry is one's alone, each list stands in it in order, and nothing else does.
//!
//! HOW IT STANDS
//!
//! The table of `atomic_table` has words and one slot. Word 0 is the next ticket, word 1 the ticket that is served, word 2 the
//! length of the history, and the sixteen words behind these are bells; the slot has the value. A turn draws a ticket from word 0,
//! looks at word 1 until it is its own, takes the slot, works, adds to word 2, gives the slot back and serves the next.
//! `specs/Rule.antt` has the rule that each of these steps keeps. The words wrap at 2^64, and the rule speaks of the numbers behind
//! them, which do not.
//!
//! A thread that waits looks a few times and gives way after each look. Then it sleeps on the bell of its ticket, which is that of
//! each sixteenth. Who serves the next rings the bell of its ticket and wakes those who sleep on it, where word 0 shows that the
//! ticket was drawn. So of many threads that wait, few are woken at a turn.
//!
//! STANDS ON
//!
//! `atomic_table` alone.
//!
//! WHAT IT DOES NOT DO
//!
//! Who is served first, how long a turn waits, and that a turn ends at all, are not said. Of two passes that were never joined
//! no order in time is said. A pass that is dropped keeps its quota for ever, so that `close` can no longer be called. The value
//! cannot be dropped with the turnstile: it has to be closed.
#![tactic(auto)]

mod counted;
mod laws;
mod lock;
mod passes;
mod plays;
mod turns;
mod views;

pub use counted::{Counted, Work};
pub use laws::an_entry_serves_one_pass;
pub use lock::{Pass, Turnstile};
pub use views::{Key, View};
