//! cluster_config: the plan file of a cluster that is served.
//!
//! SUMMARY
//!
//! `read_plan(octets)` reads a plan file, a TOML document, and gives the plan of the cluster, how many shards it has, the folder of
//! its stores and the ports of its nodes.
//!
//! DESCRIPTION
//!
//! A plan file keeps nine rules, which docs/FORMATS.md lists by number with their keys. They are tried in order, and the first that
//! is broken is the fault. A contract says of the TOML value which rule that is, and which plan the value has where it keeps all.
//!
//! DIAGNOSTICS
//!
//! A `ConfigFault` names the rule, or says that memory ran out; `rule` gives its number. Nothing else is told of the place of a
//! fault.
//!
//! LIMITS
//!
//! 1,048,576 octets, 16 nodes, 1,024 buckets, 1 shard, 4,096 users.
//!
//! STANDS ON
//!
//! `toml` for the document, `mail_base` for plans, names and secrets.
//!
//! WHAT IT DOES NOT DO
//!
//! It opens no file, and does not look whether a folder is there or a port is free.
#![tactic(auto)]

mod config_fault;
mod keys;
mod numbers;
mod outside;
mod people;
mod plan_file;

pub use config_fault::ConfigFault;
pub use plan_file::{ServePlan, read_plan};
