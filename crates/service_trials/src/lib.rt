//! service_trials: a service over yards in memory.
//!
//! SUMMARY
//!
//! Tests of `board_service` by its public call. A trial is one text: who comes at which door and when, what each says, and what
//! each is to hear, the console among them. A service is run over it, and all that it says is held against the text octet by
//! octet; so are the end that it answers and the book of the world that it gives back.
//!
//! DESCRIPTION
//!
//! | File | What is tried |
//! |---|---|
//! | `tests/held.rt` | two clients side by side: the one that comes first is held until the other was answered |
//! | `tests/mail.rt` | at one node a text of 3,000 octets goes in by SMTP and is read back by POP3; at three a message has two copies, and is read at a node that did not take it |
//! | `tests/console.rt` | each line of the console and each refusal; its end without `stop`; a node that stops in the middle of a text, starts again and is let in; one that is not let in takes no mail; two of four nodes are lost, and those that are left regroup |
//! | `tests/silent.rt` | a silent client, and one that stops in the middle of a text: others are served beside them, and the service ends |
//! | `tests/faults.rt` | each door that cannot be opened, each call of a door, of a disk, and of the console's source and sink failing in turn |
//! | `tests/untold.rt` | the same console, and mail, over disks that tell nothing of what they hold |
//!
//! What a trial is made of: `tests/script.rt` has the text, `clients.rt` who says and hears it, `doors.rt`, `gates.rt` and
//! `yards.rt` the outside of the service, `signals.rt` what they leave for one another, `plans.rt` and `worlds.rt` a cluster, and
//! `trials.rt` a run.
//!
//! STANDS ON
//!
//! `board_service`, by its public call alone; `cluster_trials` for clusters over disks in memory.
//!
//! WHAT IT DOES NOT DO
//!
//! It is a crate of its own since a crate is proved once more with its tests. Nothing stands on it. No letter is lost, and memory
//! does not run out. Whoever waits gives way after each look, and a trial fails where it has waited in vain.
#![tactic(auto)]

#[cfg(test)]
mod tests;
