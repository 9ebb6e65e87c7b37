//! board_service: a cluster is served to clients, behind the doors of a yard.
//!
//! SUMMARY
//!
//! `serve_board` takes a world, its plan, the ports, a yard, and the console's source and sink. It opens the doors, puts the
//! world behind a board, serves connections, letters and the console side by side until the console has ended, and gives the
//! world back.
//!
//! DESCRIPTION
//!
//! - `backend`: a board as the `Backend` of `mail_service`. Threads share it, each with a pass of the board.
//! - `client`: a connection is one call of `serve_smtp` or `serve_pop`, over the board as a desk, in the name of its thread's
//!   pass.
//! - `courier`: one letter is posted as fate decides, after the clock was set. Where none is in flight, one node sends to another
//!   what it owes, and then tells it, as its manager, what it has of users: the next of all pairs, in a round. To a node that is no
//!   member of its epoch it sends nothing. That is no reason to go on, so a service ends though a node stays down. What such a push
//!   or report put in flight just before the end stays there.
//! - `orders`, `answers`, `obey`: a line of the console is one turn of the board.
//!
//! | Line | Does | Answer |
//! |---|---|---|
//! | `crash n` | a node stops | `*0 node n down` |
//! | `start n` | a node that is down starts | `*0 node n up b`, or `*0 fault n` where its disk failed |
//! | `lose n` | a node loses its disk for good | `*0 node n lost` |
//! | `group n` | a node regroups: it opens a group, asks all others and concludes, in one turn | `*0 epoch c.n members a b ..`, or `*0 fault m` where a disk failed |
//! | `settle` | the latest epoch is brought to rest: all letters are posted, and its members push and report until nothing is due, in one turn | `*0 settled`, or `*0 not-all-up n` where that member is not live, or `*0 fault n` |
//! | `maps NAME` | the user's manager in the latest epoch is asked which nodes have mail of the user | `*0 maps NAME at m: a b ..`, or `*0 maps NAME none` where there is no epoch or the manager is not live |
//! | `sum` | the entries of the book are counted | `*0 sum acked a struck s dropped d lost l` |
//!
//! A node that was started has no epoch, and takes no mail until a regroup lets it in. Whoever comes to the board meanwhile waits,
//! and finds the epoch that was there before or the one that was formed.
//!
//! A line of another form, or one that names a user whom the plan has not, is answered `! line N BadLine`, a node that no plan has `! line N NoSuchNode`, and an order that the
//! cluster refuses `! line N NAME` with the name of the refusal. One CR at the end of a line is dropped. `stop` is a line of
//! `mail_service`.
//!
//! PROMISES
//!
//! `specs/Served.antt` says what the world is that comes back: it has its plan and can make steps, and its book is shared out among
//! what it had before and what the pages of each pass have. As long as each of these pages is known, the world is sound. A start,
//! and a push or a settle among several nodes, have a page that is known only where the disks tell what they hold; all others are
//! known. So
//! over disks of which each tells, a world that was served is sound: that is the law `served_is_sound`.
//!
//! Each connection is said by `ServesSmtp` or `ServesPop` of `session_gate` (`specs/Visits.antt`). Where the disks tell what they
//! hold, what acknowledges or strikes in the list of a pass came of connections, one after another. So each message that a client
//! was told is stored stands in the book, with exactly what was told: that is the law `told_is_booked` (`specs/Booked.antt`).
//!
//! Connections that were handed on and those that were served are counted. Where each door is said to have been quiet, as many
//! were served as the doors told that they had (`CountsServed`).
//!
//! DIAGNOSTICS
//!
//! The ends and their causes are those of `mail_service`. `NoMemory` comes also where there is none for the board, and then
//! nobody was served.
//!
//! STANDS ON
//!
//! `mail_service` for doors, threads and the console, `shard_board` and `board_desk` for the cluster behind a lock,
//! `board_threads` for what may cross threads, `session_gate` for connections.
//!
//! WHAT IT DOES NOT DO
//!
//! How long a connection waits is not said, nor which of those that were handed on a thread serves. It takes no stores from the
//! yard and gives none back: whoever has the world does. A push is made whether anything is owed or not, so over disks that tell
//! nothing a service of several nodes has pages that are not known as soon as no letter is in flight.
#![tactic(auto)]

mod answers;
mod backend;
mod client;
mod courier;
mod laws;
mod obey;
mod orders;
mod pass;
mod serve;

pub use laws::{served_is_sound, told_is_booked};
pub use serve::serve_board;
