// A node over its disk in memory, and what it does by the lines of a table.
ghost use Rattle.std.specs.Prelude.{◌≡◌, ◌≤◌, ◌<◌, ℕ, List, Option, true, false, is_some, IfOk, IsTrue, if◌then◌else◌, None, Some};
ghost use Rattle.mail_model.specs.Grammar.{IsStamp};
ghost use Rattle.mail_base.specs.Bodies.{body_seen};
ghost use Rattle.node_core.specs.Beginning.{IsTextEnded, call_seen};
ghost use Rattle.node_core.specs.Spelling.{CanBeTaken};
ghost use Rattle.object_model.specs.Letters.{is_read_body};
ghost use Rattle.joint_world.specs.Staying.{IsMailCall};
ghost use Rattle.whole_node.specs.Hearing.{FitsMaps};
ghost use Rattle.whole_node.specs.declared.node.WholeNode.{WholeNode as AWholeNode};
ghost use Rattle.whole_trials.specs.Able.{octets_told, IsAble, left_by};

use super::tells::{
    look_at, say_fault, say_named, say_owed, say_started, send, tell_begun, tell_concluded,
    tell_heard, tell_opened,
};
use call_tickets::Call;
use mail_base::{
    Body, Deliver, Letter, Name, Names, NodeNo, Octets, Plan, Sequence, Stamp, Ticket, Users,
};
use membership::Install;
use node_core::{Node, NodeFault, Outbox};
use node_disk::{Image, MemoryDisk};
use node_maps::Concluded;
use std::alloc::{AllocError, Global};
use std::marker::Model;
use whole_node::{Grouped, WholeNode, fits_maps, is_of_reads};

/// A node with its disk. It is up, or down.
#[derive(Drop)]
pub(crate) struct Site {
    pub(super) own: NodeNo,
    pub(super) disk: MemoryDisk,
    pub(super) node: Option<WholeNode>,
}

impl Model for Site {
    ghost use Rattle.std.specs.Prelude.{ℕ};
    ghost use Rattle.whole_trials.specs.Able.{octets_told, IsAble};

    ghost Value = { ℕ };

    ghost view = { λ s. s.own };

    ghost invariant = { λ s. IsAble (octets_told s.disk) s.node };
}

/// A name that is spelt right.
pub(crate) fn named(alloc: Global, octets: &[u8]) -> Result<Name, AllocError> {
    match Name::spelt(alloc, octets)? {
        Some(name) => Ok(name),
        None => Err(AllocError),
    }
}

/// A plan of three nodes with two copies, of which two confirm, and two buckets.
fn plan_of(alloc: Global) -> Result<Plan, AllocError>
    ensures nodes { IfOk result (λ plan. plan.nodes ≡ 3) }
    ensures copies { IfOk result (λ plan. plan.copies ≡ 2) }
{
    Ok(Plan {
        nodes: 3,
        copies: 2,
        confirm: 2,
        buckets: 2,
        users: Users::new(alloc),
        postmaster: named(alloc, b"ann")?,
    })
}

/// A message to ann.
fn hello(alloc: Global) -> Result<Call, AllocError>
    ensures ended { IfOk result (λ call. IsTextEnded (call_seen call)) }
    ensures mail { IfOk result (λ call. IsMailCall (call_seen call)) }
{
    let mut users = Names::new(alloc);
    users.push(named(alloc, b"ann")?)?;
    Ok(Call::Deliver(Deliver {
        users,
        sender: Octets::new(alloc),
        helo: Octets::new(alloc),
        extended: false,
        text: Octets::from_vec(Vec::from_slice(alloc, b"hello\r\n")?),
    }))
}

fn is_stamp(stamp: &Stamp) -> bool
    ensures { IsTrue result → IsStamp stamp.now }
{
    let _count = stamp.count;
    let _boot = stamp.boot;
    stamp.node <= 16
}

/// Whether a node can take what the letter says. Of the letters of messages the tables post File and Filed alone.
fn can_be_taken(body: &Body) -> bool
    ensures { IsTrue result → CanBeTaken (body_seen body.now) }
{
    match body {
        Body::File {
            stamp,
            targets,
            octets,
            ..
        } => is_stamp(stamp) && targets.mask() > 0 && octets.len() <= 1000,
        Body::Strike { .. } | Body::Push { .. } | Body::PushAck { .. } | Body::Retired { .. } =>
            false,
        Body::Filed { .. }
        | Body::StrikeTold { .. }
        | Body::LoginAsk { .. }
        | Body::LoginTold { .. }
        | Body::ListAsk { .. }
        | Body::ListTold { .. }
        | Body::FetchAsk { .. }
        | Body::FetchTold { .. }
        | Body::Unlock { .. }
        | Body::Group { .. }
        | Body::Join { .. }
        | Body::Install { .. }
        | Body::Report { .. }
        | Body::ReportAck { .. } => true,
    }
}

pub(super) fn is_up(node: &Option<WholeNode>) -> bool
    ensures { result ≡ is_some node.now }
{
    node.is_some()
}

/// Whether the node has to go down after this.
fn goes_down<T>(did: &Result<T, NodeFault>) -> bool
    ensures { (up : AWholeNode) → left_by did.now up ≡ (if result then None else Some up) }
{
    match did {
        Ok(_) => false,
        Err(NodeFault::Disk) => true,
        Err(NodeFault::Worn) => false,
        Err(NodeFault::NoMemory { down }) => *down,
    }
}

/// The node goes down, if it has to.
pub(super) fn settle<T>(node: &mut Option<WholeNode>, did: &Result<T, NodeFault>)
    ensures { (up : AWholeNode) → node.old ≡ Some up → node.new ≡ left_by did.now up }
{
    if goes_down(did) {
        *node = None;
    }
}

fn start_at(
    alloc: Global,
    disk: &mut MemoryDisk,
    node: &mut Option<WholeNode>,
    own: NodeNo,
) -> Result<(), NodeFault>
    requires down { node.old ≡ None }
    requires within { own ≤ 3 }
    ensures able { IsAble (octets_told disk.new) node.new }
{
    let plan = plan_of(alloc)?;
    let up = WholeNode::start(alloc, disk, &plan, own)?;
    *node = Some(up);
    Ok(())
}

fn hear_at(
    alloc: Global,
    disk: &mut MemoryDisk,
    node: &mut Option<WholeNode>,
    letter: &Letter,
) -> Result<Outbox, NodeFault>
    requires up { is_some node.old ≡ true }
    requires able { IsAble (octets_told disk.old) node.old }
    requires kind { is_read_body letter.now.body ≡ false }
    requires spelt { CanBeTaken letter.now.body }
    requires fits { FitsMaps letter.now }
    ensures able { IsAble (octets_told disk.new) node.new }
{
    let done = match node {
        Some(up) => up.hear(alloc, disk, letter),
        None => unreachable!(),
    };
    settle(node, &done);
    done
}

fn begin_at(
    alloc: Global,
    disk: &mut MemoryDisk,
    node: &mut Option<WholeNode>,
    call: Call,
) -> Result<(Option<Ticket>, Outbox), NodeFault>
    requires up { is_some node.old ≡ true }
    requires able { IsAble (octets_told disk.old) node.old }
    requires mail { IsMailCall (call_seen call) }
    requires ended { IsTextEnded (call_seen call) }
    ensures able { IsAble (octets_told disk.new) node.new }
{
    let done = match node {
        Some(up) => up.begin(alloc, disk, call, 0),
        None => unreachable!(),
    };
    settle(node, &done);
    done
}

fn open_at(
    alloc: Global,
    disk: &mut MemoryDisk,
    node: &mut Option<WholeNode>,
) -> Result<Grouped, NodeFault>
    requires up { is_some node.old ≡ true }
    requires able { IsAble (octets_told disk.old) node.old }
    ensures able { IsAble (octets_told disk.new) node.new }
{
    let done = match node {
        Some(up) => up.open_group(alloc, disk, 3),
        None => unreachable!(),
    };
    settle(node, &done);
    done
}

fn conclude_at(alloc: Global, node: &mut Option<WholeNode>) -> Result<Option<Concluded>, NodeFault>
    requires up { is_some node.old ≡ true }
    ensures able { (seen : Option (List ℕ)) → IsAble seen node.old → IsAble seen node.new }
{
    let done = match node {
        Some(up) => up.conclude(alloc, 2),
        None => unreachable!(),
    };
    settle(node, &done);
    done
}

fn report_at(
    alloc: Global,
    node: &Option<WholeNode>,
    to: NodeNo,
) -> Result<Sequence<Letter>, AllocError>
    requires able { (seen : Option (List ℕ)) × IsAble seen node.now }
{
    match node {
        Some(up) => up.report(alloc, to, 64),
        None => Ok(Sequence::new(alloc)),
    }
}

// The disk call of this number, from now on, fails.
fn fail_at(disk: &mut MemoryDisk, call: u8) -> Result<(), AllocError>
    ensures { octets_told disk.new ≡ octets_told disk.old }
{
    let made = disk.calls().len() as u64;
    disk.fail_at(made.saturating_add(u64::from(call)))
}

// The next start finds all that was written.
fn leave_all(disk: &mut MemoryDisk) -> Result<(), AllocError>
    ensures { octets_told disk.new ≡ octets_told disk.old }
{
    disk.leave(Image::All)
}

impl Site {
    /// A node whose journal is made, and which is down.
    pub(crate) fn new(alloc: Global, own: NodeNo) -> Result<Site, NodeFault> {
        let mut disk = MemoryDisk::new(alloc);
        Node::create(alloc, &mut disk, own)?;
        Ok(Site {
            own,
            disk,
            node: None,
        })
    }

    /// A node that begins over an empty disk: it is up in its first boot, and has made the first epoch itself.
    pub(crate) fn open(alloc: Global, own: NodeNo) -> Result<Site, NodeFault> {
        if own.number() > 3 {
            return Err(NodeFault::Disk);
        }
        let plan = plan_of(alloc)?;
        let mut disk = MemoryDisk::new(alloc);
        let node = WholeNode::first(alloc, &mut disk, &plan, own)?;
        Ok(Site {
            own,
            disk,
            node: Some(node),
        })
    }

    /// The node starts, if it is down.
    pub(crate) fn start(&mut self, alloc: Global, out: &mut Vec<u8>) -> Result<(), AllocError> {
        if is_up(&self.node) || self.own.number() > 3 {
            return out.extend_from_slice(b" up");
        }
        match start_at(alloc, &mut self.disk, &mut self.node, self.own) {
            Ok(()) => self.tell_started(out),
            Err(fault) => say_fault(out, fault),
        }
    }

    fn tell_started(&self, out: &mut Vec<u8>) -> Result<(), AllocError> {
        match &self.node {
            Some(node) => say_started(node, out),
            None => out.extend_from_slice(b" down"),
        }
    }

    /// It stops: its disk alone is left.
    pub(crate) fn halt(&mut self) {
        self.node = None;
    }

    /// The disk call of this number, from now on, fails.
    pub(crate) fn fail(&mut self, call: u8) -> Result<(), AllocError> {
        fail_at(&mut self.disk, call)
    }

    /// The next start finds all that was written, and not only what was synced.
    pub(crate) fn leave_all(&mut self) -> Result<(), AllocError> {
        leave_all(&mut self.disk)
    }

    /// It hears a letter that is none of calls that read.
    pub(crate) fn hear(
        &mut self,
        alloc: Global,
        letter: &Letter,
        flying: &mut Vec<Letter>,
        out: &mut Vec<u8>,
    ) -> Result<(), AllocError> {
        if !is_up(&self.node) {
            return out.extend_from_slice(b" down");
        }
        if is_of_reads(&letter.body) || !can_be_taken(&letter.body) || !fits_maps(letter) {
            return out.extend_from_slice(b" unfit");
        }
        let heard = hear_at(alloc, &mut self.disk, &mut self.node, letter);
        tell_heard(heard, flying, out)
    }

    /// It opens a group.
    pub(crate) fn open_group(
        &mut self,
        alloc: Global,
        flying: &mut Vec<Letter>,
        out: &mut Vec<u8>,
    ) -> Result<(), AllocError> {
        if !is_up(&self.node) {
            return out.extend_from_slice(b" down");
        }
        let opened = open_at(alloc, &mut self.disk, &mut self.node);
        tell_opened(opened, flying, out)
    }

    /// It concludes its group.
    pub(crate) fn conclude(
        &mut self,
        alloc: Global,
        flying: &mut Vec<Letter>,
        out: &mut Vec<u8>,
    ) -> Result<(), AllocError> {
        if !is_up(&self.node) {
            return out.extend_from_slice(b" down");
        }
        let concluded = conclude_at(alloc, &mut self.node);
        tell_concluded(concluded, flying, out)
    }

    /// A message to ann begins at it.
    pub(crate) fn deliver(
        &mut self,
        alloc: Global,
        flying: &mut Vec<Letter>,
        out: &mut Vec<u8>,
    ) -> Result<(), AllocError> {
        if !is_up(&self.node) {
            return out.extend_from_slice(b" down");
        }
        let call = hello(alloc)?;
        let begun = begin_at(alloc, &mut self.disk, &mut self.node, call);
        tell_begun(begun, flying, out)
    }

    /// It reports to a node.
    pub(crate) fn report(
        &mut self,
        alloc: Global,
        to: NodeNo,
        flying: &mut Vec<Letter>,
        out: &mut Vec<u8>,
    ) -> Result<(), AllocError> {
        let letters = report_at(alloc, &self.node, to)?;
        send(letters.into_vec(), flying, out)
    }

    /// Writes its promise, and the epoch that it is in.
    pub(crate) fn look(&self, out: &mut Vec<u8>) -> Result<(), AllocError> {
        match &self.node {
            Some(node) => look_at(node, out),
            None => out.extend_from_slice(b" down"),
        }
    }

    /// Writes whom it names as having mail of the user.
    pub(crate) fn name(&self, user: &Name, out: &mut Vec<u8>) -> Result<(), AllocError> {
        match &self.node {
            Some(node) => say_named(node, user, out),
            None => out.extend_from_slice(b" down"),
        }
    }

    /// Writes to whom it owes rows, and whether it has settled.
    pub(crate) fn owe(&self, out: &mut Vec<u8>) -> Result<(), AllocError> {
        match &self.node {
            Some(node) => say_owed(node, out),
            None => out.extend_from_slice(b" down"),
        }
    }

    /// The epoch that it has installed.
    pub(crate) fn installed(&self) -> Option<&Install> {
        match &self.node {
            Some(node) => node.maps().group().installed(),
            None => None,
        }
    }
}
