//! kept_parts: the parts on deletions and on octets hold of every world.
//!
//! SUMMARY
//!
//! `gone_model` says that each deletion is meant for all nodes, and `here_model` that each copy that is
//! here has its octets; both show that the rules of a node keep that. Here it is shown of steps: of a
//! world of messages, and of a world of the whole. So it holds of every world that comes of an opening
//! over empty disks, whatever its letters, disks and nodes go through.
//!
//! DESCRIPTION
//!
//! `Kept` has the laws: `mail_steps_keep_parts` and `mail_worlds_have_parts` for worlds of messages,
//! which the program is proved to be; `steps_keep_parts`, `worlds_have_parts` and `here_is_stored` for
//! worlds of the whole. They are functions that do nothing, and their contracts hold of the definitions
//! alone. The proof goes over the steps once, for any part over disks and letters that the rules keep,
//! that holds of each prefix of a disk's records, and that records without states leave alone
//! (`proofs/Holding.antt`, `proofs/Stepping.antt`).
//!
//! STANDS ON
//!
//! `gone_model` and `here_model` for the parts and what the rules do; `cluster_model` and `whole_world`
//! for the steps.
//!
//! WHAT IT DOES NOT DO
//!
//! It has no code, and no line of the program uses it. It says nothing of what calls that read keep at
//! nodes: of their steps it knows what messages see, and they write nothing.
#![tactic(auto)]

mod laws;

pub use laws::{
    here_is_stored, mail_steps_keep_parts, mail_worlds_have_parts, steps_keep_parts,
    worlds_have_parts,
};
