//! serve_word: the work of the word `serve`.
//!
//! SUMMARY
//!
//! `serve_plan(rt, alloc, file, source, sink, yard)` reads the plan file of this name, takes a store for each node of the plan, opens a
//! cluster over them, and serves it at the ports of the plan until the console has ended. It gives back all that it took, and answers
//! the exit status.
//!
//! DESCRIPTION
//!
//! - `plan_parts`: the plan file is read into two plans, since a plan has no copy: one is the world's, and in the other those who
//!   serve look names up. Each node has two ports, one for each protocol.
//! - `ending`: how serving ended, its status, and its last line.
//! - `serve`: the order of things. A fault of the doors is told before one of the console.
//!
//! | Status | Comes where | Last line |
//! |---|---|---|
//! | 0 | the console said `stop`, and each door found nobody before it was given back | none |
//! | 2 | the plan file breaks rule K, and none before it | `! plan K` |
//! | 3 | the console ended in line N, and no line before was `stop` | `! line N BadLine` |
//! | 4 | the yard failed to read the file, or the console's source failed | `! read` |
//! | 5 | the console's sink failed | none |
//! | 6 | the yard failed at the store of node N, or that store failed as it was opened or is not empty | `! disk 0 N` |
//! | 7 | memory ran out | none |
//! | 8 | a door could not be opened, or failed | `! doors` |
//!
//! LIMITS
//!
//! 256 connections are served at once (`WORKERS`). Others wait for one of those to end. How long a connection may be silent is the
//! yard's: `tcp_door` has the times of doors of the system.
//!
//! STANDS ON
//!
//! `cluster_config` for the plan file, `yard_stores` for the stores, `cluster_world` for the cluster, and `board_service`, which serves it.
//!
//! WHAT IT DOES NOT DO
//!
//! It writes nothing to standard error: which doors and stores were opened is told by the yard. A store that holds something is
//! refused, so nothing is served over the stores of an earlier run.
#![tactic(auto)]

mod ending;
mod plan_parts;
mod serve;

pub use ending::ServeEnd;
pub use plan_parts::PlanFault;
pub use serve::{WORKERS, serve_plan};
