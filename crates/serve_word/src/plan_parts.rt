// What serving needs of a plan file.
ghost use Rattle.std.specs.Prelude.{◌≡◌, ◌≤◌, ◌+◌, ℕ, List, IfOk, IsErrOf, string_bytes};
ghost use Rattle.io_edge.specs.Causes.{Rose};
ghost use Rattle.cluster_config.specs.Answers.{BreaksFirst};
ghost use Rattle.cluster_world.specs.Opens.{CanBeOpened};
ghost use Rattle.serve_word.specs.Plans.{ports_from, ports_of, IsBrokenBy, ReadsOctets, ReadsPlan};
ghost use Rattle.serve_word.specs.declared.plan_parts.PlanFault.TheVariants as faults;

use cluster_config::{ConfigFault, ServePlan, read_plan};
use io_edge::{Protocol, Yard, YardRefusal};
use mail_base::Plan;
use mail_service::Port;
use std::alloc::{AllocError, Global};

/// Why no plan was read.
#[derive(Clone, Copy, Debug, PartialEq, Eq)]
pub enum PlanFault {
    /// The file breaks the rule of this number, and none before it.
    Broken { rule: u8 },
    /// The yard failed to read it.
    Unread,
    /// Memory ran out.
    NoMemory,
}

/// What a plan file says: its plan twice, the folder of its stores, and its ports.
#[derive(Drop)]
pub(crate) struct PlanParts {
    /// The plan of the cluster.
    pub plan: Plan,
    /// The same once more, for those who look names up.
    pub names: Plan,
    /// The folder of the stores.
    pub folder: String,
    /// The port of each node for each protocol.
    pub ports: Vec<Port>,
}

// What a fault of the file comes to.
fn fault_of(fault: ConfigFault) -> PlanFault
    ensures { (octets : List ℕ) → BreaksFirst octets fault → IsBrokenBy octets result }
{
    match fault.rule() {
        Some(rule) => PlanFault::Broken { rule },
        None => PlanFault::NoMemory,
    }
}

// The ports of so many nodes, those of node 1 being these.
fn ports_of(alloc: Global, nodes: u8, smtp: u16, pop: u16) -> Result<Vec<Port>, AllocError>
    requires smtp { smtp + nodes ≤ 65536 }
    requires pop { pop + nodes ≤ 65536 }
    ensures { IfOk result (λ ports. ports.items ≡ ports_from nodes 1 smtp pop) }
{
    let mut ports = Vec::new(alloc);
    let mut place: u8 = 0;
    while place < nodes {
        let node = place + 1;
        ports.push(Port {
            node,
            protocol: Protocol::Smtp,
            port: smtp + u16::from(place),
        })?;
        ports.push(Port {
            node,
            protocol: Protocol::Pop,
            port: pop + u16::from(place),
        })?;
        place += 1;
    }
    Ok(ports)
}

// The parts of a plan file that was read twice.
fn parts_of(alloc: Global, read: ServePlan, again: ServePlan) -> Result<PlanParts, AllocError>
    requires smtp { read.smtp_port + read.plan.nodes ≤ 65536 }
    requires pop { read.pop_port + read.plan.nodes ≤ 65536 }
    ensures plan { IfOk result (λ parts. parts.plan ≡ read.plan) }
    ensures names { IfOk result (λ parts. parts.names ≡ again.plan) }
    ensures folder { IfOk result (λ parts. string_bytes parts.folder ≡ string_bytes read.folder) }
    ensures ports { IfOk result (λ parts. parts.ports.items ≡ ports_of read) }
{
    let ServePlan {
        plan,
        folder,
        smtp_port,
        pop_port,
        ..
    } = read;
    let ServePlan { plan: names, .. } = again;
    let ports = ports_of(alloc, plan.nodes, smtp_port, pop_port)?;
    Ok(PlanParts {
        plan,
        names,
        folder,
        ports,
    })
}

// Reads octets that keep the rules of a plan file.
fn read_octets(alloc: Global, octets: &[u8]) -> Result<PlanParts, PlanFault>
    ensures reads { ReadsOctets octets.now result }
    ensures fits { IfOk result (λ parts. CanBeOpened parts.plan) }
{
    let read = match read_plan(alloc, octets) {
        Ok(read) => read,
        Err(fault) => return Err(fault_of(fault)),
    };
    let Ok(again) = read_plan(alloc, octets) else {
        return Err(PlanFault::NoMemory);
    };
    match parts_of(alloc, read, again) {
        Ok(parts) => Ok(parts),
        Err(_) => Err(PlanFault::NoMemory),
    }
}

/// Reads the plan file of this name. It is read whole before its size is looked at.
///
/// # Errors
///
/// The first rule that is broken; `Unread` where the yard failed; `NoMemory`.
pub(crate) fn read_parts<Y: Yard>(
    alloc: Global,
    yard: &mut Y,
    file: &str,
) -> Result<PlanParts, PlanFault>
    ensures reads { ReadsPlan (Y.files yard.old file.now) result }
    ensures fits { IfOk result (λ parts. CanBeOpened parts.plan) }
    ensures unread { IsErrOf result faults.Unread → Rose (Y.unread yard.old) (Y.unread yard.new) }
    ensures handed { Y.handed yard.new ≡ Y.handed yard.old }
    ensures returned { Y.returned yard.new ≡ Y.returned yard.old }
    ensures faults { Y.faults yard.new ≡ Y.faults yard.old }
    ensures opened { Y.opened yard.new ≡ Y.opened yard.old }
    ensures closed { Y.closed yard.new ≡ Y.closed yard.old }
    ensures unopened { Y.unopened yard.new ≡ Y.unopened yard.old }
{
    match yard.file(file) {
        Ok(octets) => read_octets(alloc, &octets),
        Err(YardRefusal::Failed) => Err(PlanFault::Unread),
        Err(YardRefusal::NoMemory) => Err(PlanFault::NoMemory),
    }
}
