// The plan file as a whole.
ghost use Rattle.std.specs.Prelude.{◌≡◌, None, IfOk, IfErr};
ghost use Rattle.toml.specs.View.{view};
ghost use Rattle.cluster_config.specs.Rules.{first_broken, IsPlanOf};
ghost use Rattle.cluster_config.specs.Answers.{IsDocument, BreaksFirst, BreaksLater, Answers, IsTakenIfValid};

use crate::config_fault::ConfigFault;
use crate::keys::has_known_keys;
use crate::numbers::{read_buckets, read_copies, read_nodes, read_shards};
use crate::outside::{read_folder, read_ports};
use crate::people::{read_postmaster, read_users};
use mail_base::Plan;
use std::alloc::Global;
use toml::Value;

/// The greatest number of octets of a plan file.
const MOST_OCTETS: usize = 1_048_576;

/// What a plan file says.
#[derive(Drop)]
pub struct ServePlan {
    /// The plan of the cluster.
    pub plan: Plan,
    /// How many shards the service has.
    pub shards: u16,
    /// The folder of the stores.
    pub folder: String,
    /// The SMTP port of node 1; each further node has the next.
    pub smtp_port: u16,
    /// The POP3 port of node 1; each further node has the next.
    pub pop_port: u16,
}

// Rule 1: the document.
fn read_document(alloc: Global, octets: &[u8]) -> Result<Value, ConfigFault>
    ensures ok { IfOk result (λ file. IsDocument octets.now (view file)) }
    ensures err { IfErr result (λ fault. BreaksFirst octets.now fault) }
{
    if MOST_OCTETS < octets.len() {
        return Err(ConfigFault::Document);
    }
    match toml::table_from_slice(alloc, octets) {
        Ok(table) => Ok(Value::Table(table)),
        Err(error) => {
            if error.is_memory() {
                Err(ConfigFault::NoMemory)
            } else {
                Err(ConfigFault::Document)
            }
        }
    }
}

// Rules 2 to 9.
fn read_file(alloc: Global, file: &Value) -> Result<ServePlan, ConfigFault>
    ensures kept { IfOk result (λ plan. first_broken (view file.now) ≡ None) }
    ensures plan { IfOk result (λ plan. IsPlanOf (view file.now) plan) }
    ensures broken { IfErr result (λ fault. BreaksLater (view file.now) fault) }
{
    if !has_known_keys(file) {
        return Err(ConfigFault::Key);
    }
    let Some(nodes) = read_nodes(file) else {
        return Err(ConfigFault::Nodes);
    };
    let Some((copies, confirm)) = read_copies(file, nodes) else {
        return Err(ConfigFault::Copies);
    };
    let Some(buckets) = read_buckets(file) else {
        return Err(ConfigFault::Buckets);
    };
    let Some(shards) = read_shards(file, buckets) else {
        return Err(ConfigFault::Shards);
    };
    let Ok(users) = read_users(alloc, file) else {
        return Err(ConfigFault::NoMemory);
    };
    let Some(users) = users else {
        return Err(ConfigFault::Users);
    };
    let Ok(postmaster) = read_postmaster(alloc, file, &users) else {
        return Err(ConfigFault::NoMemory);
    };
    let Some(postmaster) = postmaster else {
        return Err(ConfigFault::Postmaster);
    };
    let Ok(folder) = read_folder(alloc, file) else {
        return Err(ConfigFault::NoMemory);
    };
    let Some(folder) = folder else {
        return Err(ConfigFault::Outside);
    };
    let Some((smtp_port, pop_port)) = read_ports(file, nodes) else {
        return Err(ConfigFault::Outside);
    };
    let plan = Plan {
        nodes,
        copies,
        confirm,
        buckets,
        users,
        postmaster,
    };
    Ok(ServePlan {
        plan,
        shards,
        folder,
        smtp_port,
        pop_port,
    })
}

/// Reads a plan file.
///
/// # Errors
///
/// The first rule that is broken; out of memory may come in place of it, or of the plan.
pub fn read_plan(alloc: Global, octets: &[u8]) -> Result<ServePlan, ConfigFault>
    ensures answers { Answers octets.now result }
    ensures taken { IsTakenIfValid octets.now result }
{
    let file = read_document(alloc, octets)?;
    read_file(alloc, &file)
}
