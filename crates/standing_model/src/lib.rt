//! standing_model: which messages of a user stand, by the records of the nodes' disks.
//!
//! SUMMARY
//!
//! A message of a user stands among the members of an epoch where one of them says that it is here, and
//! none that it is gone. From the records of the disks alone it is said which messages stand, in which
//! order a new session lists them, which members hold a fragment of a mailbox, and when members agree.
//!
//! DESCRIPTION
//!
//! - `Standing`: the definitions. `AreStanding` has each message that stands once, in rising order of the
//!   latest stamp that a member says of it; `NamesFragments` is what a mail map has to tell;
//!   `MembersAgree` says that members which are targets of a state say the same.
//! - `Laws`: two lists of what stands have the same messages (`standing_is_one_set`).
//!
//! STANDS ON
//!
//! `object_model` for what records say of an object, `mail_model` for records.
//!
//! WHAT IT DOES NOT DO
//!
//! It has no code, and knows no tape and no step of a cluster.
#![tactic(auto)]

mod laws;

pub use laws::standing_is_one_set;
