//! node_core: one node of a cluster.
//!
//! SUMMARY
//!
//! A `Node` is a node's store with its numbers and the tickets of its deliveries and deletions. `start` begins one over its disk,
//! `deliver` and `strike` begin these calls, and `hear` takes a letter of another node. Each answers the letters that are to be
//! sent. What calls that read need of a node is here, too: their numbers, and what its disk tells of a user.
//!
//! DESCRIPTION
//!
//! Each call does what the rules of the cluster (`cluster_model`) have a node do, for all records that its disk may have:
//!
//! | Call | What is done |
//! |---|---|
//! | `create` | the journal is made on an empty disk |
//! | `first` | the journal is made on an empty disk, and the record of the first boot is appended |
//! | `start` | the disk is started again, the journal is read, and the record of the next boot is appended |
//! | `start_with_promise` | so it is, and the last epoch that was promised is told |
//! | `promise` | the record of a promise is appended |
//! | `deliver`, `strike` | a call gets its ticket; what it files or marks is recorded, and its letters are answered |
//! | `refuse_read` | a call that reads gets a ticket, which says that it failed at once |
//! | `next_ticket`, `draw_ticket` | the number of a call that reads is told, and drawn |
//! | `told_list` | a user's messages that are here are listed |
//! | `told_part` | a part of a message is read from the disk |
//! | `hear` | the stamps are learned, and the letter does its work: File, Filed, Strike, StrikeTold, Push, PushAck, Retired |
//! | `ask` | an answer of a ticket is taken, as far as it is told |
//! | `give_up` | a ticket goes |
//! | `push` | the first due updates are sent to a node again |
//! | `widen` | a copy that is here gets one target more |
//! | `mishap` | the driver's mishap is counted in a ticket |
//! | `install` | the node has installed an epoch, or none |
//!
//! `hear` throws a letter that carries another epoch than the installed one, and one that answers a ticket that is not there;
//! the outbox says why, and nothing was changed.
//!
//! A letter is heard by reference: where it is refused since memory ran out it can be heard again. Octets are moved into the
//! journal's write, and are not copied for each user.
//!
//! `state`, `users`, `ids`, `is_settled`, `kind`, `wants`, `waiting`, `filing`, `is_done`, `own`, `boot`, `epoch`, `is_worn`,
//! `member_set`, `members_among` and `store` tell what the node has, and change nothing.
//!
//! DIAGNOSTICS
//!
//! `Disk` comes only where the disk's count of faults rose in the call, or where its octets are not those that the node wrote.
//! The node then has to go down. `NoMemory` says by `down` whether it has to: where it need not, nothing was changed.
//! `Worn` comes where a number is at its greatest, and then nothing was changed.
//!
//! After a fault that takes the node down, the first of the records that the rule adds stand on the disk, and one more may.
//!
//! COSTS
//!
//! The costs are those of the store. A letter costs one pass over its users or its marks, and one over the nodes.
//!
//! `told_list` asks the disk nothing. It looks through the user's own objects, those that are gone among them, with a few look-ups
//! for each that take time logarithmic in the number of all, and sorts what it lists. It takes memory for two lists of the user's
//! messages, and none for those of other users. `is_settled` is a pass over the update log for each member.
//!
//! STANDS ON
//!
//! `node_store`, `node_tickets`, `membership`, `mail_base`, `call_tickets`, `trace_lines` and `sha2`; the rules are those of
//! `cluster_model`, and what is told of a user is that of `login_model`.
//!
//! WHAT IT DOES NOT DO
//!
//! It sends nothing and knows no time but the seconds of a delivery. Letters of calls that read, of members and of
//! maps do nothing here: the tickets of such calls are those of `node_reads`, and whoever forms an epoch hands it in by `install`. A node that has started has no epoch.
#![tactic(auto)]

mod calls;
mod deliver;
mod drawing;
mod failing;
mod fault;
mod filing;
mod first;
mod hear;
mod install;
mod installed;
mod letters;
mod members;
mod node;
mod nodes;
mod numbers;
mod outbox;
mod promise;
mod push;
mod pushes;
mod reading;
mod reads;
mod shape;
mod spelling;
mod strike;
mod targets;
mod throwing;
mod told_list;

pub use fault::NodeFault;
pub use node::Node;
pub use outbox::{Outbox, Why};
pub use throwing::has_epoch;
