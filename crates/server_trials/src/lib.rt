//! server_trials: whole tapes, and what the program writes for them.
//!
//! SUMMARY
//!
//! Tests of `porcupine_server` by its calls, over an outside in memory: a tape goes in, and its transcript, its status and
//! the disks that are given back are held against tables. `src/tests.rt` says how a table is read.
//!
//! DESCRIPTION
//!
//! | Table | What is tried |
//! |---|---|
//! | `tests/examples.rt`, `tests/cluster_examples.rt` | the tapes of the folder `examples`, with their transcripts |
//! | `tests/plans.rt`, `tests/run_lines.rt` | each line of a tape, and each fault that it may have |
//! | `tests/replies.rt`, `tests/recipients.rt`, `tests/messages.rt` | sessions that take mail |
//! | `tests/maildrops.rt`, `tests/deletions.rt` | sessions that show it, and delete it |
//! | `tests/logins.rt`, `tests/elsewhere.rt` | users who read at a node that has none of their mail: letters of a login that are lost, repeated and out of order, stops, locks; messages that are read and deleted there |
//! | `tests/pieces.rt` | octets in any pieces |
//! | `tests/clusters.rt`, `tests/three_nodes.rt`, `tests/crashes.rt` | several nodes: letters, stops, starts and losses |
//! | `tests/regroups.rt` | epochs: groups that lines open and conclude, and regroups |
//! | `tests/settles.rt`, `tests/prefixes.rt` | reports, settling, and whom managers name; a settle behind each line of a tape, against the stores |
//! | `tests/fresh.rt`, `tests/losses.rt` | a new session behind a settle, where letters were late and nodes were lost or stopped: it lists exactly the messages that stand |
//! | `tests/clocks.rt` | the clock that a tape sets, and the counts of the book |
//! | `tests/faults.rt`, `tests/command_line.rt` | each part of the outside failing in turn, and other words |
//! | `tests/word_forms.rt` | the words of the command line, and what `check` and `storm` write |
//! | `tests/serving.rt` | `serve`: its console, mail that comes in by its doors, and each of its statuses |
//! | `tests/driving.rt` | `drive_tape` by its own calls |
//!
//! STANDS ON
//!
//! `porcupine_server` and `drive_tape`, by their public calls alone, and `node_disk` and `io_edge` for an outside in memory.
//!
//! WHAT IT DOES NOT DO
//!
//! It is a crate of its own since a crate is proved once more with its tests. Nothing stands on it.
#![tactic(auto)]

#[cfg(test)]
mod tests;
