//! mail_base: the words of the mail service as Rust types.
//!
//! Octets, names of mailboxes, secrets, proofs of who a client is, numbers of nodes and sets of them,
//! ids of messages and lists of them, stamps, listings of maildrops, tickets of calls, the users and the plan of a
//! cluster; objects by key and state; epochs with their members and their map of users; and the letters by which
//! nodes speak. Contracts see each as the plain record, list, number or map of `mail_model` or `object_model`, so
//! that callers reason about those and never about fields. What allocates takes the allocator and answers
//! out of memory, with nothing changed.
//!
//! An enum is seen as it stands; `specs/Seen.antt` and `specs/Bodies.antt` say which plain word it means.
//!
//! It refuses octets that are no name or no secret, numbers that are no node, and ids whose boot or
//! number is 0. It knows nothing of sessions, disks or sockets.
#![tactic(auto)]

mod body;
mod bucket;
mod copied;
mod deliver;
mod epoch_id;
mod filing;
mod ids;
mod item;
mod items;
mod key;
mod letter;
mod member;
mod msg_id;
mod name;
mod names;
mod node_no;
mod node_set;
mod obj_state;
mod octets;
mod plan;
mod proof;
mod row;
mod secret;
mod sequence;
mod stamp;
mod ticket;
mod told;
mod user_map;
mod users;
mod value;

pub use body::Body;
pub use bucket::bucket_of;
pub use copied::Copied;
pub use deliver::Deliver;
pub use epoch_id::EpochId;
pub use filing::{Begun, CallKind, Filing};
pub use ids::Ids;
pub use item::Item;
pub use items::Items;
pub use key::Key;
pub use letter::Letter;
pub use member::{Claim, Member};
pub use msg_id::MsgId;
pub use name::{Name, NameFault, spells_name};
pub use names::Names;
pub use node_no::NodeNo;
pub use node_set::NodeSet;
pub use obj_state::ObjState;
pub use octets::Octets;
pub use plan::Plan;
pub use proof::{Proof, apop_digest};
pub use row::Row;
pub use secret::Secret;
pub use sequence::Sequence;
pub use stamp::Stamp;
pub use ticket::Ticket;
pub use told::{LoginWord, StrikeMark, ToldItem, ToldPart};
pub use user_map::{MapRow, UserMap};
pub use users::Users;
pub use value::Value;
