//! cluster_world: the nodes of a cluster with their disks, the letters between them, and the book.
//!
//! SUMMARY
//!
//! A `World` is all that a cluster holds: the nodes of a plan, each with its disk, the letters in flight, and a `Book` of what
//! was acknowledged. `open` makes one over empty disks, one for each node, in order. `step` makes one step, `run` several,
//! `flow` posts letters until none is in flight, `regroup` forms an epoch of the nodes that are up, and `settle` brings the
//! latest epoch to rest. `maps` and `due` tell what the nodes know of users, and what is still due. `close` hands the disks back.
//! `plan`, `book`, `is_up`, `is_lost`, `boot`, `members`, `kind`, `filing`, `flying`, `seconds` and `sum` tell what the world has,
//! take no memory, and change nothing.
//!
//! DESCRIPTION
//!
//! Whoever drives a world orders its steps: nothing happens between two of them, and each letter arrives when it is posted.
//!
//! | Step | What is done |
//! |---|---|
//! | `Begin` | a call begins at a node: what it files or deletes is recorded, its letters are sent, and it has a ticket, a `Leave` none |
//! | `Ask` | it is asked what became of a call; one that is done ends, and the book has what was confirmed |
//! | `GiveUp` | a call is given up: its ticket stands no more, and a login lets its maildrop go |
//! | `Post` | a letter is handed to its receiver, and leaves, or is kept in flight to be posted again |
//! | `Drop` | a letter is taken out of flight |
//! | `Push` | a node sends what it owes to another: the first 64 states, as far as there is room |
//! | `Widen` | a copy that is on a node's disk gets a target more |
//! | `Group` | a node opens a group: it promises the next epoch, which is recorded, and asks every other node of the plan |
//! | `Conclude` | a node concludes the group that it has open: those that joined are the members, and each of them is told |
//! | `Report` | a node tells another, as their manager, what it has of users: the first 64 rows that are due to it, as far as there is room |
//! | `Crash` | a node stops; what is on its disk stays |
//! | `Start` | a node that is down starts over its disk, in its next boot, and has no epoch until a group lets it in |
//! | `Lose` | a node loses its disk for good |
//! | `Tick` | the clock is set, forward or back; a message has the seconds of the clock as its call begins |
//!
//! A letter gets the next number as it is sent, from 1. At most 65,536 letters are in flight, of 536,870,912 octets together,
//! where a letter counts for 64 octets and those of the message that it carries. One that finds no room is not sent: that is a
//! mishap of its ticket, as it is where a letter is dropped, is posted to a node that is not up or has another epoch, or takes
//! its receiver down. A mishap is counted at the ticket, where that stands. Letters of membership and maps have no ticket. Each
//! letter in flight is one that its receiver can hear (`CanBeHeard` in `specs/Hears.antt`).
//!
//! Logins, fetches and `Leave`s are calls that read: they begin at any node. A node has their tickets beside those of calls of
//! messages, and a ticket is looked for among those of messages first. A mishap of such a call may send one letter more, and a
//! letter that is put in flight may have a mishap, so letters go in flight from a queue: a mishap's letter waits at its end
//! (`Puts` in `joint_world`). The locks of a node are those of the maildrops that it manages in its epoch.
//!
//! The book has an entry for each user's copy that was acknowledged, for each that is to be deleted and for each whose deletion
//! was confirmed, one wherever a node went down, came up or was lost, and one of each epoch that a node has installed, with the
//! boot in which it did. A node installs an epoch as it concludes its group, and as it hears an Install. An Install that is thrown
//! adds no entry, nor does a start, and an opening begins with an empty book. It only grows.
//!
//! Every step is counted, one that is refused as well. So whoever drives a world can be held to have made these steps and no
//! others.
//!
//! PROMISES
//!
//! `IsStep` in `specs/Steps.antt` says what each step does, whatever comes of it. A world stands for one of `joint_world`, with
//! its messages, its maps, its tickets and its locks (`StandsForAll` in `specs/Maps.antt`), and a step leads to a world that stands
//! for the machine's next (`LeadsTo`), where the disks tell what they hold or the step reads none. It is the very same step of the
//! whole machine without calls that read (the law `whole_sees` of `joint_world`), and of the machine of messages. At each moment
//! of it a stop of the machine leaves of each disk the records that stood, and the first of those that were added
//! (`EveryStopKeeps`). A disk that was settled stays so as long as its node is up.
//!
//! `BooksInstalls` in `specs/Installs.antt` says of each step which epoch the book has of it: that of the node that concluded its
//! group, or heard an Install, where that node is up and has another epoch than before; and no other.
//!
//! `specs/Outcomes.antt` has the chain of steps that sessions lead to (`Makes`). Of every such chain from an opening on,
//! whatever the order of its calls and whatever becomes of letters and nodes, the law `world_owes` says what the cluster owes of
//! the calls that it was asked and of those that it answered, and that it has it.
//!
//! A node that is up is a whole one, with its maps, its tickets and its locks. A world that was driven stands for a sound world of
//! `joint_world` (the law `world_is_whole`), and all memberships of one epoch that its nodes have installed, or that are on their
//! way, are equal (`one_map_per_epoch`).
//!
//! `HasRegrouped` in `specs/Regroups.antt` says which steps a regroup makes, in which order, and with which it stops. Where it
//! formed an epoch in a world that stands for a sound one of the whole machine, just the nodes that were up are its members, each
//! is up in the boot it was in, and each has installed the epoch (`HasFormed`). What a run line leads to has a whole regroup
//! (`MakesOrder`), and with each run line which nodes were up.
//!
//! `HasSettled` in `specs/Rests.antt` says which steps a settle makes, and what the world is then like. Where it answers that the
//! epoch is settled, the world is at rest (`IsAtRest` in `specs/Settling.antt`), which is said in words by `rest_is_settled`. A
//! world that stands for a sound one of the whole machine and is at rest has right maps (`rests_right`): each user has a manager,
//! which is up and names exactly the members whose disk says that some copy of the user is here. So has one that was driven
//! (`settled_maps_are_right`). A cluster that opens is at rest (`opening_is_at_rest`).
//!
//! DIAGNOSTICS
//!
//! A step that is refused says the first of these that applies:
//!
//! - `NoSuchNode`: the plan has no node of a number that the step names, be it the manager in a `Leave`. The node in an id is not
//!   meant.
//! - `NodeLost`, `NodeDown`, `NodeUp`: the node that is to act, to stop, to start or to be lost is not as the step needs it.
//! - `NoSuchLetter`: the letter is not in flight.
//! - `NoSuchTicket`: the ticket stands neither among those of calls of messages nor among those of calls that read.
//! - `NotAGroup`: the node has no group open that it could conclude.
//! - `Worn`: a number that the step needs is used up. No letter is sent from the number 2^64 - 2^32 on.
//! - `NoRoom`: letters or rows are due, and not even the first finds room; of a group or its conclusion, not all of them do. A
//!   regroup is refused so where there is no room for its rounds, and no number is used up that its first step needs.
//! - `NoMemory`: memory ran out. It may come before a refusal is found.
//!
//! All but `NoMemory` leave the world as it was. `NoMemory` does too where it names no node. A node that it names is down, with
//! some of the step's records on its disk, and the book has that; a letter that was posted stays in flight.
//!
//! `Said::Faulted` says that the disk of a node failed in the step: its count of faults rose, or octets that were read are not
//! those of the node's records, over a disk that does not tell what it holds. The node is down, and the book has that.
//!
//! A refused `run`, `flow`, `regroup` or `settle` leaves what its earlier steps did. A regroup for which there is no room makes no step.
//!
//! COSTS
//!
//! The costs on a disk are those of the node's calls in `node_core`; a step touches the disk of one node at most. A letter is
//! found by its number in a time that grows with the logarithm of how many are in flight, and one that leaves from the middle
//! moves those on its shorter side. Room in the book is made before the entries that need it, for all nodes that may still go
//! down or be lost, so `Crash` and `Lose` take no memory; nor does `Tick`. A `Drop` is never refused for want of it, an `Ask` only
//! where it ends its call, and a `GiveUp` only where the call reads: room for the letter that it may send is made first
//! (`IsSurelyDone` in `specs/Sure.antt`). For the entry of an epoch room is made before a node concludes its group, and before an
//! Install is heard.
//!
//! STANDS ON
//!
//! `node_core` for what a node does and `whole_node` for the node that does it, with its maps, `node_tickets` and `call_tickets`
//! for tickets and answers, `node_reads` and `drop_lock` for calls that read, `world_book` for the book, `io_edge` for disks,
//! `mail_base` for plans, letters and ids; the machine is that of `joint_world`, which has those of `whole_world` and
//! `cluster_model` in it, and what a cluster owes is said in `cluster_owes` and `session_model`.
//!
//! WHAT IT DOES NOT DO
//!
//! Its clock stands still between two ticks, and shows 0 before the first. It sends nothing by itself, tries nothing again, and
//! starts no node that is down.
#![tactic(auto)]

mod befalling;
mod entries;
mod fault;
mod filling;
mod flight;
mod flying;
mod installing;
mod laws;
mod life;
mod limits;
mod mishaps;
mod nodes;
mod opening;
mod queue;
mod reading;
mod refusal;
mod regrouping;
mod resting;
mod roomy;
mod running;
mod sending;
mod settling;
mod step;
mod steps;
mod sum;
mod telling;
mod working;
mod world;

pub use fault::{OpenFault, StepFault};
pub use laws::{
    later_after, makes_more, none_pending, one_map_per_epoch, opening_is_at_rest, plan_stays,
    rest_is_settled, rests_right, settled_maps_are_right, steps_are_counted, world_is_whole,
    world_owes,
};
pub use regrouping::Regroup;
pub use settling::Settle;
pub use step::{Said, Step};
pub use sum::BookSum;
pub use world::World;
