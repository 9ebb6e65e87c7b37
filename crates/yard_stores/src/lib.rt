//! yard_stores: a store for each node of a plan, taken from a yard and given back.
//!
//! SUMMARY
//!
//! `take_stores(yard, folder, nodes, disks)` takes the stores of the nodes from 1 on, in order, and looks
//! at each: it has to be empty. `give_back_all(yard, disks)` gives them back, in order.
//!
//! DESCRIPTION
//!
//! All stores are of shard 0. What the folder means is the yard's own: a yard of stores in memory has
//! none. A store is looked at as soon as it is there, by one disk call. Nothing is written.
//!
//! DIAGNOSTICS
//!
//! `TakeFault::Store(node)` where the yard failed at the store of this node, or that store failed or is
//! not empty; `TakeFault::NoMemory` where the yard found no memory. The stores that were taken are then
//! in the list, and the caller gives them back.
//!
//! LIMITS
//!
//! 16 nodes. The list has the room beforehand, so that taking a store never fails for the list's sake.
//!
//! STANDS ON
//!
//! `io_edge` for yards and disks.
//!
//! WHAT IT DOES NOT DO
//!
//! It opens no journal, and keeps nothing.
#![tactic(auto)]

mod stores;

pub use stores::{TakeFault, give_back_all, take_stores};
