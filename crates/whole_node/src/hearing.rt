//! Letters of membership and maps.
ghost use Rattle.std.specs.Prelude.{◌≡◌, ◌↔◌, ◌||◌, [], Some, All, IfOk, IsTrue, option_map};
ghost use Rattle.mail_base.specs.Bodies.{body_seen};
ghost use Rattle.whole_model.specs.Rules.{IsMapsBody};
ghost use Rattle.whole_world.specs.Makes.{promise_by};
ghost use Rattle.node_store.specs.Disks.{view_of};
ghost use Rattle.node_maps.specs.Nodes.{node_of};
ghost use Rattle.node_maps.specs.Hearing.{TellsOwnRow};
ghost use Rattle.node_core.specs.Nodes.{CanWork};
ghost use Rattle.node_core.specs.Hearing.{why_seen};
ghost use Rattle.node_core.specs.Works.{LeavesUp};
ghost use Rattle.node_core.specs.declared.fault.NodeFault.TheVariants.{NoMemory};
ghost use Rattle.node_core.specs.declared.outbox.Why.TheVariants.{Stale};
ghost use Rattle.joint_model.specs.Joint.Life.{Up};
ghost use Rattle.joint_world.specs.Staying.{KeepsReads};
ghost use Rattle.whole_node.specs.Nodes.{joint_seen, KeepsBeside, WholeWorks};
ghost use Rattle.whole_node.specs.Hearing.{NamesANode, FitsMaps, why_refused, is_install, MakesPromise, TakesLetter, HearsOfMaps};

use crate::node::WholeNode;
use io_edge::Disk;
use mail_base::{Body, Letter, Sequence};
use node_core::{NodeFault, Outbox, Why};
use node_maps::{Answer, Refusal, tells_own_row};
use std::alloc::{AllocError, Global};

/// Whether a letter speaks of membership or maps, and not of messages.
pub fn is_of_maps(body: &Body) -> bool
    ensures { IsTrue result ↔ IsMapsBody (body_seen body.now) }
{
    match body {
        Body::Group { .. }
        | Body::Join { .. }
        | Body::Install { .. }
        | Body::Report { .. }
        | Body::ReportAck { .. } => true,
        Body::File { .. }
        | Body::Filed { .. }
        | Body::LoginAsk { .. }
        | Body::LoginTold { .. }
        | Body::ListAsk { .. }
        | Body::ListTold { .. }
        | Body::FetchAsk { .. }
        | Body::FetchTold { .. }
        | Body::Strike { .. }
        | Body::StrikeTold { .. }
        | Body::Unlock { .. }
        | Body::Push { .. }
        | Body::PushAck { .. }
        | Body::Retired { .. } => false,
    }
}

// Whether a letter, if it is a Group, names a node that there can be.
fn names_a_node(body: &Body) -> bool
    ensures { IsTrue result ↔ NamesANode (body_seen body.now) }
{
    match body {
        Body::Group { epoch } => 1 <= epoch.node && epoch.node <= 16,
        Body::File { .. }
        | Body::Filed { .. }
        | Body::LoginAsk { .. }
        | Body::LoginTold { .. }
        | Body::ListAsk { .. }
        | Body::ListTold { .. }
        | Body::FetchAsk { .. }
        | Body::FetchTold { .. }
        | Body::Strike { .. }
        | Body::StrikeTold { .. }
        | Body::Unlock { .. }
        | Body::Push { .. }
        | Body::PushAck { .. }
        | Body::Retired { .. }
        | Body::Join { .. }
        | Body::Install { .. }
        | Body::Report { .. }
        | Body::ReportAck { .. } => true,
    }
}

/// Whether a node can hear the letter: a Group names a node that there can be, and a Report tells the row of its sender.
pub fn fits_maps(letter: &Letter) -> bool
    ensures { IsTrue result ↔ FitsMaps letter.now }
{
    names_a_node(&letter.body) && tells_own_row(letter)
}

/// Whether it is an Install.
pub(crate) fn is_install(body: &Body) -> bool
    ensures { result ≡ is_install (body_seen body.now) }
{
    match body {
        Body::Install { .. } => true,
        Body::File { .. }
        | Body::Filed { .. }
        | Body::LoginAsk { .. }
        | Body::LoginTold { .. }
        | Body::ListAsk { .. }
        | Body::ListTold { .. }
        | Body::FetchAsk { .. }
        | Body::FetchTold { .. }
        | Body::Strike { .. }
        | Body::StrikeTold { .. }
        | Body::Unlock { .. }
        | Body::Push { .. }
        | Body::PushAck { .. }
        | Body::Retired { .. }
        | Body::Group { .. }
        | Body::Join { .. }
        | Body::Report { .. }
        | Body::ReportAck { .. } => false,
    }
}

// Whether the node has to go down where memory runs out over such a letter.
fn goes_down(promised: bool, body: &Body) -> bool
    ensures { result ≡ (promised || is_install (body_seen body.now)) }
{
    promised || is_install(body)
}

fn why_of(refusal: Refusal) -> Why
    ensures { why_seen result ≡ why_refused refusal }
{
    match refusal {
        Refusal::Stale => Why::Stale,
        Refusal::Old => Why::Old,
        Refusal::NotPromised => Why::NotPromised,
        Refusal::NotMember => Why::NotMember,
        Refusal::Late => Why::Late,
    }
}

fn why_thrown(thrown: Option<Refusal>) -> Option<Why>
    ensures { option_map why_seen result ≡ option_map why_refused thrown }
{
    match thrown {
        Some(refusal) => Some(why_of(refusal)),
        None => None,
    }
}

fn outbox_of(answer: Answer) -> Outbox
    ensures letters { result.letters ≡ answer.letters }
    ensures thrown { option_map why_seen result.thrown ≡ option_map why_refused answer.thrown }
{
    Outbox {
        thrown: why_thrown(answer.thrown),
        letters: answer.letters,
    }
}

// Nothing is sent, and the letter is of another epoch.
fn stale(alloc: Global) -> Outbox
    ensures letters { result.letters ≡ [] }
    ensures thrown { result.thrown ≡ Some Stale }
{
    Outbox {
        letters: Sequence::new(alloc),
        thrown: Some(Why::Stale),
    }
}

fn no_memory(down: bool) -> NodeFault
    ensures { result ≡ NoMemory down }
{
    NodeFault::NoMemory { down }
}

impl WholeNode {
    // Appends the promise that a letter of this body makes due, and answers whether there was one.
    fn promise_for<D: Disk>(
        &mut self,
        alloc: Global,
        disk: &mut D,
        body: &Body,
    ) -> Result<bool, NodeFault>
        requires works { CanWork (D.seen disk.old) self.old.mail }
        requires named { NamesANode (body_seen body.now) }
        ensures promises { MakesPromise (view_of D.seen D.faults D.clock) (promise_by (node_of self.old.maps) (body_seen body.now)) result self.old disk.old self.new disk.new }
        ensures maps { self.new.maps ≡ self.old.maps }
        ensures beside { KeepsBeside self.old self.new }
        ensures settled { LeavesUp result → D.settled disk.old → D.settled disk.new }
    {
        match self.maps.promise_due(body) {
            Some(epoch) => {
                self.mail.promise(alloc, disk, epoch)?;
                Ok(true)
            }
            None => Ok(false),
        }
    }

    // The letter is taken in. The promise that it makes due stands on the disk. After an Install messages go by the epoch that the
    // maps have.
    fn take_letter(&mut self, alloc: Global, letter: &Letter) -> Result<Outbox, AllocError>
        requires row { TellsOwnRow letter.now.from letter.now.body }
        ensures takes { TakesLetter letter.now result self.old self.new }
        ensures beside { KeepsBeside self.old self.new }
    {
        let answer = self.maps.hear(alloc, letter)?;
        self.share_after(&letter.body)?;
        self.mail.learn(&letter.body);
        Ok(outbox_of(answer))
    }

    /// Hears a letter of membership or maps that is for this node, or throws it. One that is of another epoch is thrown before
    /// the node looks at it. Where it makes the node promise an epoch, the record of it is appended and synced before anything
    /// is said. A Group that is old is thrown, and answered all the same. Where another epoch is installed all locks are let go.
    ///
    /// # Errors
    ///
    /// It is never `Worn`. Where the disk fails as the node promises, the record stands, or may stand, or does not; nothing is
    /// sent, and the node has to go down. So it has to where memory runs out once the record stands, or over an Install.
    pub fn hear_maps<D: Disk>(
        &mut self,
        alloc: Global,
        disk: &mut D,
        letter: &Letter,
    ) -> Result<Outbox, NodeFault>
        requires works { WholeWorks (D.seen disk.old) self.old }
        requires kind { IsMapsBody letter.now.body }
        requires fits { FitsMaps letter.now }
        ensures hears { HearsOfMaps (view_of D.seen D.faults D.clock) letter.now self.old disk.old self.new disk.new result }
        ensures beside { LeavesUp result → KeepsReads (Up (joint_seen self.old)) (joint_seen self.new) }
        ensures works { LeavesUp result → WholeWorks (D.seen disk.new) self.new }
        ensures fits { IfOk result (λ outbox. All FitsMaps outbox.letters) }
        ensures settled { LeavesUp result → D.settled disk.old → D.settled disk.new }
    {
        if self.mail.is_stale(letter) {
            return Ok(stale(alloc));
        }
        let epoch = self.mail.epoch();
        let promised = self.promise_for(alloc, disk, &letter.body)?;
        match self.take_letter(alloc, letter) {
            Ok(outbox) => {
                self.keep_locks(epoch);
                Ok(outbox)
            }
            Err(AllocError) => Err(no_memory(goes_down(promised, &letter.body))),
        }
    }
}
