// What a node keeps of the epochs that it promises, forms and enters.
ghost use Rattle.std.specs.Prelude.{◌≡◌, ◌<◌, ◌-◌, ◌^◌, max, Some, None, IfOk, OnOk, OnErr};
ghost use Rattle.std.specs.Option.{option_copied, option_map};
ghost use Rattle.maps_model.specs.Cluster.{epoch_in, member_of};
ghost use Rattle.maps_model.specs.Rules.{claims_from, claims_in};
ghost use Rattle.membership.specs.Groups.{new_group, next_epoch, own_join, promised, with_one_joined, joins_in};
ghost use Rattle.membership.specs.Checks.{is_open, is_of_boot, FormsMembership};
ghost use Rattle.membership.specs.Rounds.{StartsGroup, HearsGroup, HearsJoin, Concludes, HearsInstall, IsJoined};

use crate::epochs::{is_before, is_same};
use crate::fault::GroupFault;
use crate::install::Install;
use crate::opened::{Joined, OpenGroup};
use mail_base::{Claim, EpochId, Member, NodeNo, NodeSet, Sequence, UserMap};
use std::alloc::{AllocError, Global};
use std::marker::Model;

/// What a node keeps of epochs. A contract sees the record `Group` of `specs/Groups.antt`.
#[derive(Drop)]
pub struct Group {
    own: NodeNo,
    boot: u32,
    promise: EpochId,
    heard: u64,
    opened: Option<OpenGroup>,
    installed: Option<Install>,
}

impl Model for Group {
    ghost use Rattle.membership.specs.Groups.{Group as Seen};

    ghost Value = { Seen };

    ghost view = { λ g. record {
      own = g.own;
      boot = g.boot;
      promise = g.promise;
      heard = g.heard;
      opened = g.opened;
      installed = g.installed;
    } };
}

// The buckets that a node manages in a map, each with its `since`.
fn claims_of(alloc: Global, own: NodeNo, map: &UserMap) -> Result<Sequence<Claim>, AllocError>
    ensures { IfOk result (λ claims. claims ≡ claims_from own 0 map.now) }
{
    let rows = map.rows();
    let mut claims = Sequence::new(alloc);
    for bucket in 0..map.buckets() {
        let row = &rows[bucket as usize];
        if row.manager == own {
            claims.push(Claim::new(own, bucket, row.since))?;
        }
    }
    Ok(claims)
}

fn copy_of(alloc: Global, claims: &[Claim]) -> Result<Sequence<Claim>, AllocError>
    ensures { IfOk result (λ copy. copy ≡ claims.now) }
{
    let mut copy = Sequence::new(alloc);
    for claim in claims {
        copy.push(*claim)?;
    }
    Ok(copy)
}

// Whether this group is open, and of that epoch.
fn is_open(opened: &Option<OpenGroup>, epoch: EpochId) -> bool
    ensures { result ≡ is_open opened.now epoch }
{
    match opened {
        Some(group) => is_same(group.epoch(), epoch),
        None => false,
    }
}

fn add_to(opened: &mut Option<OpenGroup>, join: Joined) -> Result<(), AllocError>
    ensures ok { OnOk result (opened.new ≡ option_map (with_one_joined join) opened.old) }
    ensures err { OnErr result (opened.new ≡ opened.old) }
{
    match opened {
        Some(group) => group.add(join),
        None => Ok(()),
    }
}

fn concluded(alloc: Global, opened: &Option<OpenGroup>, buckets: u32) -> Result<Install, GroupFault>
    ensures { FormsMembership result buckets opened.now }
{
    match opened {
        Some(group) => Ok(group.conclude(alloc, buckets)?),
        None => Err(GroupFault::NotAGroup),
    }
}

fn epoch_in(installed: &Option<Install>) -> EpochId
    ensures { result ≡ epoch_in installed.now }
{
    match installed {
        Some(install) => install.epoch,
        None => EpochId::none(),
    }
}

fn claims_in(
    alloc: Global,
    own: NodeNo,
    installed: &Option<Install>,
) -> Result<Sequence<Claim>, AllocError>
    ensures { IfOk result (λ claims. claims ≡ claims_in own installed.now) }
{
    match installed {
        Some(install) => claims_of(alloc, own, &install.map),
        None => Ok(Sequence::new(alloc)),
    }
}

// Whether the first of these members with that number is of that boot.
fn is_named_in(members: &[Member], node: NodeNo, boot: u32) -> bool
    ensures { result ≡ is_of_boot (member_of members.now node) boot }
{
    for member in members {
        if member.node == node {
            return member.boot == boot;
        }
    }
    false
}

fn joined_in(opened: &Option<OpenGroup>) -> Option<NodeSet>
    ensures { IsJoined result opened.now }
{
    match opened {
        Some(group) => Some(group.nodes()),
        None => None,
    }
}

fn size_in(opened: &Option<OpenGroup>) -> Option<usize>
    ensures { result ≡ option_map joins_in opened.now }
{
    match opened {
        Some(group) => Some(group.size()),
        None => None,
    }
}

impl Group {
    /// What a node has as it starts in this boot: no open group, no installed epoch, and the promise that its disk tells.
    /// It takes no memory.
    pub fn new(own: NodeNo, boot: u32, promise: EpochId) -> Group
        ensures { result ≡ new_group own boot promise }
    {
        let heard = promise.count;
        Group {
            own,
            boot,
            promise,
            heard,
            opened: None,
            installed: None,
        }
    }

    /// The node whose group this is. It takes no memory.
    pub fn own(&self) -> NodeNo
        ensures { result ≡ self.now.own }
    {
        self.own
    }

    /// The boot in which it started. It takes no memory.
    pub fn boot(&self) -> u32
        ensures { result ≡ self.now.boot }
    {
        self.boot
    }

    /// The greatest epoch that it has promised. It takes no memory.
    pub fn promise(&self) -> EpochId
        ensures { result ≡ self.now.promise }
    {
        self.promise
    }

    /// The membership of the installed epoch; nothing where none is installed. It takes no memory.
    pub fn installed(&self) -> Option<&Install>
        ensures { option_copied result ≡ self.now.installed }
    {
        self.installed.as_ref()
    }

    /// The greatest count of an epoch that it has promised or heard. It takes no memory.
    pub fn heard(&self) -> u64
        ensures { result ≡ self.now.heard }
    {
        self.heard
    }

    /// The nodes that have joined the open group; nothing where none is open. It takes no memory.
    pub fn joined(&self) -> Option<NodeSet>
        ensures { IsJoined result self.now.opened }
    {
        joined_in(&self.opened)
    }

    /// How many nodes have joined the open group; nothing where none is open. It takes no memory.
    pub fn size(&self) -> Option<usize>
        ensures { result ≡ option_map joins_in self.now.opened }
    {
        size_in(&self.opened)
    }

    /// The buckets that the node manages, in rising order, each with the epoch since when. The time grows with the buckets.
    ///
    /// # Errors
    ///
    /// Only out of memory.
    pub fn claims(&self, alloc: Global) -> Result<Sequence<Claim>, AllocError>
        ensures { IfOk result (λ claims. claims ≡ claims_in self.now.own self.now.installed) }
    {
        claims_in(alloc, self.own, &self.installed)
    }

    // How the node joins a group of its own.
    fn own_join(&self, alloc: Global) -> Result<Joined, AllocError>
        ensures { IfOk result (λ join. join ≡ own_join self.now) }
    {
        let member = Member::new(self.own, self.boot, epoch_in(&self.installed));
        let claims = self.claims(alloc)?;
        Ok(Joined { member, claims })
    }

    fn next_epoch(&self) -> EpochId
        requires { self.now.heard < 2 ^ 64 - 1 }
        ensures { result ≡ next_epoch self.now }
    {
        EpochId::new(self.heard + 1, self.own.number())
    }

    // Promises the epoch, which closes the open group.
    fn promise_to(&mut self, epoch: EpochId)
        ensures { self.new ≡ promised self.old epoch }
    {
        self.promise = epoch;
        self.heard = self.heard.max(epoch.count);
        self.opened = None;
    }

    fn set_open(&mut self, group: OpenGroup)
        ensures { self.new ≡ record self.old { opened = Some group } }
    {
        self.opened = Some(group);
    }

    // Raises the count that was heard.
    fn hear(&mut self, count: u64)
        ensures { self.new ≡ record self.old { heard = max self.old.heard count } }
    {
        self.heard = self.heard.max(count);
    }

    fn enter(&mut self, install: Install)
        ensures { self.new ≡ record self.old { installed = Some install } }
    {
        self.installed = Some(install);
    }

    fn close(&mut self)
        ensures { self.new ≡ record self.old { opened = None } }
    {
        self.opened = None;
    }

    /// Opens a group, and closes one that is open. Its epoch is one above the greatest count promised or heard; the node
    /// promises it and joins. The promise has to be on the disk before the epoch is sent.
    ///
    /// # Errors
    ///
    /// Only out of memory; the group is then as before.
    pub fn start_group(&mut self, alloc: Global) -> Result<EpochId, GroupFault>
        requires { self.old.heard < 2 ^ 64 - 1 }
        ensures { StartsGroup result self.old self.new }
    {
        let epoch = self.next_epoch();
        let group = OpenGroup::new(alloc, epoch, self.own_join(alloc)?)?;
        self.promise_to(epoch);
        self.set_open(group);
        Ok(epoch)
    }

    /// Hears a Group. True where its epoch is above the promise: it is promised, which closes an open group. False where it
    /// is the promise, and is to be answered again. It takes no memory.
    ///
    /// # Errors
    ///
    /// `OldEpoch` exactly where the epoch is below the promise; nothing changes.
    pub fn hear_group(&mut self, epoch: EpochId) -> Result<bool, GroupFault>
        ensures { HearsGroup result epoch self.old self.new }
    {
        if is_before(epoch, self.promise) {
            return Err(GroupFault::OldEpoch);
        }
        if !is_before(self.promise, epoch) {
            return Ok(false);
        }
        self.promise_to(epoch);
        Ok(true)
    }

    /// Hears a Join of that epoch, of a member with its claims. A promise above the epoch only raises the count that was
    /// heard. Any other Join is added: of one node that of the greatest boot stays, the first among equals.
    ///
    /// # Errors
    ///
    /// `NotAGroup` exactly where no group of that epoch is open, and else `NoMemory`; nothing changes.
    pub fn hear_join(
        &mut self,
        alloc: Global,
        epoch: EpochId,
        promise: EpochId,
        member: Member,
        claims: &[Claim],
    ) -> Result<(), GroupFault>
        ensures { HearsJoin result epoch promise (record { member = member; claims = claims.now }) self.old self.new }
    {
        if !is_open(&self.opened, epoch) {
            return Err(GroupFault::NotAGroup);
        }
        if is_before(epoch, promise) {
            self.hear(promise.count);
            return Ok(());
        }
        let claims = copy_of(alloc, claims)?;
        self.add(Joined { member, claims })?;
        Ok(())
    }

    fn add(&mut self, join: Joined) -> Result<(), AllocError>
        ensures ok { OnOk result (self.new ≡ record self.old { opened = option_map (with_one_joined join) self.old.opened }) }
        ensures err { OnErr result (self.new ≡ self.old) }
    {
        add_to(&mut self.opened, join)
    }

    /// Concludes the open group: those who joined are the members, and the buckets are assigned to them. The membership is
    /// installed at this node, the group is closed, and the membership is answered, to be sent to the other members.
    ///
    /// # Errors
    ///
    /// `NotAGroup` exactly where no group is open, and else `NoMemory`; nothing changes.
    pub fn conclude(&mut self, alloc: Global, buckets: u32) -> Result<Install, GroupFault>
        requires { 0 < buckets }
        ensures { Concludes result buckets self.old self.new }
    {
        let install = concluded(alloc, &self.opened, buckets)?;
        let own = install.copy()?;
        self.enter(own);
        self.close();
        Ok(install)
    }

    // Whether the membership names this node in its boot.
    fn is_named(&self, install: &Install) -> bool
        ensures { result ≡ is_of_boot (member_of install.now.members self.now.own) self.now.boot }
    {
        is_named_in(install.members.as_slice(), self.own, self.boot)
    }

    /// Hears an Install. It is installed where its epoch is the promise and above the installed one, and it names the node
    /// in its boot.
    ///
    /// # Errors
    ///
    /// The first that applies, and nothing changes: `OldEpoch` where the epoch is below the promise or not above the installed
    /// one; `NotPromised` where it is above the promise; `NotMember` where the node is not named in its boot; `NoMemory`.
    pub fn hear_install(&mut self, install: &Install) -> Result<(), GroupFault>
        ensures { HearsInstall result install.now self.old self.new }
    {
        if is_before(install.epoch, self.promise)
            || !is_before(epoch_in(&self.installed), install.epoch)
        {
            return Err(GroupFault::OldEpoch);
        }
        if is_before(self.promise, install.epoch) {
            return Err(GroupFault::NotPromised);
        }
        if !self.is_named(install) {
            return Err(GroupFault::NotMember);
        }
        let own = install.copy()?;
        self.enter(own);
        Ok(())
    }
}
