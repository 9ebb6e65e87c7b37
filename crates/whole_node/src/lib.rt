//! whole_node: one node of a cluster, with what it has for messages, for membership and mail maps, and for calls that read.
//!
//! SUMMARY
//!
//! A `WholeNode` is a `Node` of `node_core` and the `NodeMaps` of `node_maps`, over one disk, with the tickets of its calls that
//! read (`NodeReads` of `node_reads`) and the locks of the maildrops that it manages (`Locks` of `drop_lock`). Its calls for
//! messages are those of the `Node`; its maps follow the records that a call appends.
//!
//! DESCRIPTION
//!
//! | Call | What is done beside the work of `node_core` |
//! |---|---|
//! | `first` | the node promises the first epoch, and enters it: all nodes of the plan are its members |
//! | `over` | a node that has started gets its maps, with each message that is here |
//! | `start` | the node starts over its disk, and so it gets its maps: it has the last promise, and no epoch |
//! | `begin` | a Deliver or a Strike: the copies that the node files or deletes itself are noted in its maps |
//! | `hear` | so are the copies that a File, a Strike or a Push speaks of; a letter of membership or maps goes to `hear_maps` |
//! | `hear_maps` | a Group, Join, Install, Report or ReportAck is heard, once the promise that it makes due is on the disk |
//! | `open_group` | the node promises the epoch of a group of its own, and asks the other nodes to join it |
//! | `conclude` | the open group is concluded: those who joined are its members |
//! | `report` | the Reports of the first rows that are due to a node |
//! | `owes_rows`, `is_settled`, `named` | nothing: they tell whether a row is due to a node, whether nothing is owed or due to anybody, and whom the node names as having mail of a user |
//! | `widen`, `push`, `ask`, `give_up`, `mishap` | nothing: they change of no message whether it is here |
//!
//! Calls that read write no disk:
//!
//! | Call | What is done |
//! |---|---|
//! | `begin_login` | the manager of the user is asked; where that is the node itself, it judges at once, and takes the lock |
//! | `begin_fetch` | a holder is asked for the part; where the node itself is one, it reads its disk |
//! | `hear_read` | a letter of a call that reads: as a manager the node judges or lets a lock go, as a holder it tells its list or a part, and as the node that began the call it takes the answer |
//! | `ask_read` | it is asked what became of such a call; one that is done ends |
//! | `give_up_read`, `befall` | its ticket is given up, or has a mishap: a lock that the node manages itself goes back, and one that another manages by the letter |
//! | `leave` | a session has ended: the lock of its login goes back likewise |
//! | `reads_stand`, `is_of_reads` | nothing: they tell whether such a ticket stands, and whether a letter is of such a call |
//!
//! Locks are of an epoch: they all go where the node installs another one. Tickets of calls that read stay until they end.
//!
//! `mail`, `maps`, `reads` and `locks` show the parts, and what each of them tells is read there.
//!
//! A call is the work of the `Node` first, and then the maps are told what its disk now says of each copy. So a message is
//! never named in a map before its record is synced. Nor is a promise spoken before its record is: the record comes first, and
//! then the letter that speaks of it.
//!
//! Contracts say of the half for messages what `node_core` says. Beside that the maps are what `follows` of `whole_model`
//! makes of them by the records that were appended. `WholeWorks` is what holds of a node between its calls: the `Node` can work,
//! its maps know of each message whether its disk says that it is here, messages go by the epoch that the maps have
//! installed, and the tickets of calls that read are of this node and boot. A node that has started has no epoch, no such ticket
//! and no lock. Of calls that read contracts cite the rules of `joint_world` (`specs/Reading.antt`).
//!
//! DIAGNOSTICS
//!
//! The faults are those of `node_core`. Where memory runs out as a copy is noted, the records stand already: the node has to go
//! down, as after each fault in work that has begun. A version of a row that is at its greatest counts as memory that ran out:
//! each rise of it goes with a record, and no disk has so many. Where memory runs out in a call that reads nothing has changed,
//! and no lock was taken.
//!
//! COSTS
//!
//! For each copy that a call may have changed: a look at the object's state, and one at the messages of its user.
//!
//! STANDS ON
//!
//! `node_core`, `node_maps`, `node_reads` and `drop_lock`; the rules are those of `whole_model`, and of `joint_world` for calls that
//! read.
//!
//! WHAT IT DOES NOT DO
//!
//! It sends no letter, and knows of no other node: whoever has several hands on their letters.
#![tactic(auto)]

mod calls;
mod epoch;
mod fetching;
mod first;
mod grouping;
mod hear;
mod hear_read;
mod hearing;
mod logging;
mod managing;
mod naming;
mod node;
mod noting;
mod read_tickets;
mod reporting;
mod restart;
mod settling;
mod starting;

pub use grouping::Grouped;
pub use hear_read::is_of_reads;
pub use hearing::{fits_maps, is_of_maps};
pub use node::WholeNode;
