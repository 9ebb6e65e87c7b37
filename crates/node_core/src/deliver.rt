//! A message that is to be stored.
ghost use Rattle.std.specs.Prelude.{◌≡◌, ◌<◌, ◌≤◌, ◌+◌, ℕ, nat_le, false, length, Some, IfOk, OnOk};
ghost use Rattle.sha2.specs.Sha256.{sha256};
ghost use Rattle.mail_model.specs.Plan.{Plan as PlainPlan};
ghost use Rattle.mail_model.specs.Mail.{IsStored};
ghost use Rattle.mail_model.specs.Grammar.{IsStamp, IsCount};
ghost use Rattle.object_model.specs.Sets.{nodes_in};
ghost use Rattle.object_model.specs.Letters.Body.{File};
ghost use Rattle.mail_base.specs.Delivers.{mail_in, IsMessageWithinLimits};
ghost use Rattle.cluster_model.specs.Cluster.{members_of, epoch_of};
ghost use Rattle.cluster_model.specs.Rules.{letters_to, receivers, new_number};
ghost use Rattle.cluster_model.specs.Steps.{greatest, end_of_dates};
ghost use Rattle.cluster_model.specs.Steps.NodeCall.{Deliver as Delivers};
ghost use Rattle.node_store.specs.Disks.{view_of};
ghost use Rattle.node_store.specs.Keeps.{CanGoOn};
ghost use Rattle.node_store.specs.Writes.{WroteChange};
ghost use Rattle.node_tickets.specs.Seen.{filing_seen};
ghost use Rattle.node_core.specs.Nodes.{node_seen, IsWhole, CanWork, IsNodeOf};
ghost use Rattle.node_core.specs.Spelling.{IsShort};
ghost use Rattle.node_core.specs.Works.{LeavesUp};
ghost use Rattle.node_core.specs.Failing.{lacks_numbers};
ghost use Rattle.node_core.specs.Delivering.{filed_where, BeginsDelivery};
ghost use Rattle.node_core.specs.Beginning.{NodeBegins, IsTextEnded};

use crate::failing::{few_members_or_late, has_any};
use crate::fault::NodeFault;
use crate::filing::file;
use crate::letters::{letters_to, no_letters};
use crate::node::Node;
use crate::nodes::receivers;
use crate::outbox::Outbox;
use crate::spelling::{are_names, is_id};
use crate::targets::deliver_targets;
use io_edge::Disk;
use mail_base::{
    Body, CallKind, Deliver, Filing, Letter, MsgId, Names, NodeNo, NodeSet, Octets, Sequence,
    Stamp, Ticket,
};
use node_store::{KeepFault, NodeStore};
use sha2::{Digest, Sha256};
use std::alloc::{AllocError, Global};
use trace_lines::{Trace, TraceFault, trace_into};

// The octets of the message as it is stored: its trace lines, and its text. Its date is that of a year with four digits, so that
// only memory can run out.
fn stored_octets(
    alloc: Global,
    deliver: &Deliver,
    id: MsgId,
    seconds: u64,
) -> Result<Octets, AllocError>
    requires small { IsMessageWithinLimits deliver.now }
    requires dated { nat_le end_of_dates seconds ≡ false }
    ensures stored { IfOk result (λ octets. IsStored (mail_in deliver.now) id seconds octets) }
    ensures short { IfOk result (λ octets. IsShort octets) }
{
    is_id(id);
    let trace = Trace {
        sender: deliver.sender.as_slice(),
        helo: deliver.helo.as_slice(),
        extended: deliver.extended,
        id,
        seconds,
    };
    let mut octets = Vec::new(alloc);
    match trace_into(alloc, &mut octets, &trace) {
        Ok(()) => (),
        Err(TraceFault::NoMemory) => return Err(AllocError),
        Err(TraceFault::YearTooLarge) => unreachable!(),
    }
    octets.extend_from_slice(deliver.text.as_slice())?;
    Ok(Octets::from_vec(octets))
}

fn digest_of(octets: &[u8]) -> [u8; 32]
    ensures { result ≡ sha256 octets.now }
{
    let mut hasher = Sha256::new();
    hasher.update(octets);
    hasher.finalize()
}

// What the delivery files.
fn filing_of(users: &Names, id: MsgId, seconds: u64, octets: &Octets) -> Result<Filing, AllocError>
    ensures { IfOk result (λ filing. filing_seen filing ≡ record { id = id; users = users.now; seconds = seconds; size = length octets.now; digest = sha256 octets.now }) }
{
    let digest = digest_of(octets.as_slice());
    Ok(Filing {
        id,
        users: users.copy()?,
        seconds,
        length: octets.len() as u64,
        digest,
    })
}

// Takes the copies where the own node is a target.
fn file_where<D: Disk>(
    store: &mut NodeStore,
    alloc: Global,
    disk: &mut D,
    id: MsgId,
    stamp: Stamp,
    targets: NodeSet,
    users: &Names,
    octets: &Octets,
) -> Result<(), KeepFault>
    requires sound { CanGoOn (D.seen disk.old) store.old }
    requires stamp { IsStamp stamp }
    requires targets { IsCount 16 targets }
    requires short { IsShort octets.now }
    ensures wrote { WroteChange (view_of D.seen D.faults D.clock) (filed_where store.old.own id stamp targets users.now octets.now) result store.old disk.old store.new disk.new }
    ensures settled { OnOk result (D.settled disk.old → D.settled disk.new) }
{
    if targets.has(store.own()) {
        file(
            store,
            alloc,
            disk,
            id,
            stamp,
            targets,
            users.as_slice(),
            octets.as_slice(),
        )?;
    }
    Ok(())
}

impl Node {
    // The letters to the other targets. Each has a copy of the octets.
    fn file_letters(
        &self,
        alloc: Global,
        id: MsgId,
        stamp: Stamp,
        targets: NodeSet,
        users: &Names,
        octets: &Octets,
    ) -> Result<Sequence<Letter>, AllocError>
        requires whole { IsWhole self.now }
        requires fresh { self.now.numbers.calls + 1 ≤ greatest }
        ensures { IfOk result (λ letters. letters ≡ letters_to self.now.store.own (epoch_of (node_seen self.now)) (Some (new_number self.now.store.own (node_seen self.now)))
            (receivers self.now.store.own targets self.now.shape.nodes) (File id stamp targets users.now octets.now)) }
    {
        let own = self.store.own();
        let to = receivers(alloc, own, targets, self.shape.nodes)?;
        if to.is_empty() {
            return Ok(no_letters(alloc));
        }
        let body = Body::File {
            id,
            stamp,
            targets,
            users: users.copy()?,
            octets: octets.copy()?,
        };
        letters_to(
            alloc,
            own,
            &self.epoch(),
            &Some(self.next_ticket()),
            &to,
            &body,
        )
    }

    // Files a message, and sends it to its other targets. All memory but that of the records is taken before the first of them.
    fn file_and_send<D: Disk>(
        &mut self,
        alloc: Global,
        disk: &mut D,
        deliver: &Deliver,
        seconds: u64,
        members: &[NodeNo],
    ) -> Result<(Option<Ticket>, Outbox), NodeFault>
        requires works { CanWork (D.seen disk.old) self.old }
        requires fresh { lacks_numbers 1 1 self.old ≡ false }
        requires members { members.now ≡ nodes_in (members_of (node_seen self.old)) self.old.shape.nodes }
        requires some { 0 < length members.now }
        requires small { IsMessageWithinLimits deliver.now }
        requires dated { nat_le end_of_dates seconds ≡ false }
        ensures begins { BeginsDelivery (view_of D.seen D.faults D.clock) (mail_in deliver.now) seconds self.old disk.old self.new disk.new result }
        ensures settled { LeavesUp result → D.settled disk.old → D.settled disk.new }
    {
        are_names(deliver.users.as_slice());
        let id = self.next_id();
        is_id(id);
        let stamp = self.next_stamp();
        let ticket = self.next_ticket();
        let seq = self.numbers.drawn + 1;
        let targets = deliver_targets(alloc, self.shape.copies, self.store.own(), seq, members)?;
        let octets = stored_octets(alloc, deliver, id, seconds)?;
        let letters = self.file_letters(alloc, id, stamp, targets, &deliver.users, &octets)?;
        let filing = filing_of(&deliver.users, id, seconds, &octets)?;
        self.tickets
            .open_delivery(alloc, self.numbers.calls + 1, filing, targets)?;
        file_where(
            &mut self.store,
            alloc,
            disk,
            id,
            stamp,
            targets,
            &deliver.users,
            &octets,
        )?;
        self.numbers.draw(1, 1);
        Ok((Some(ticket), Outbox::sent(letters)))
    }

    /// Begins a delivery under the next ticket, at these seconds since 1970: the message is recorded where the node is one of its
    /// targets, and the letters to the others are answered. It fails at once where the epoch has fewer than F members or none, and
    /// where the seconds are past the last year that a date can have.
    ///
    /// # Errors
    ///
    /// `Worn` exactly where a number that the call would draw is used up.
    pub fn deliver<D: Disk>(
        &mut self,
        alloc: Global,
        disk: &mut D,
        deliver: Deliver,
        seconds: u64,
    ) -> Result<(Option<Ticket>, Outbox), NodeFault>
        requires works { CanWork (D.seen disk.old) self.old }
        ensures begins { (plan : PlainPlan) (own : ℕ) → IsNodeOf plan own self.old → IsTextEnded (Delivers (mail_in deliver)) → NodeBegins (view_of D.seen D.faults D.clock) plan own seconds (Delivers (mail_in deliver)) self.old disk.old self.new disk.new result }
        ensures settled { LeavesUp result → D.settled disk.old → D.settled disk.new }
    {
        let members = self.members(alloc)?;
        let mishaps = few_members_or_late(&members, self.shape.confirm, seconds);
        if has_any(&mishaps) {
            return self.refuse(alloc, CallKind::Deliver, mishaps, 1);
        }
        if self.numbers.lack(1, 1) {
            return Err(NodeFault::Worn);
        }
        self.file_and_send(alloc, disk, &deliver, seconds, &members)
    }
}
