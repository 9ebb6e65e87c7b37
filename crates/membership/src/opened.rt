// A group that is open, with those who joined it.
ghost use Rattle.std.specs.Prelude.{◌≡◌, ◌++◌, ◌∷◌, ◌<◌, [], length, map, slice_get, slice_set, flat_map, nat_eq, ℕ, OnOk, OnErr, IfOk};
ghost use Rattle.std.specs.List.{list_any, prefix_len};
ghost use Rattle.maps_model.specs.Assign.{IsAssigned};
ghost use Rattle.maps_model.specs.Rules.{with_join, membership_of};
ghost use Rattle.object_model.specs.Sets.{has};
ghost use Rattle.membership.specs.Checks.{is_lower, is_same_node, is_earlier};
ghost use Rattle.membership.specs.Groups.{all_claims, all_members, with_one_joined, has_joined, joins_in};

use crate::install::Install;
use mail_base::{Claim, EpochId, Member, NodeSet, Sequence};
use std::alloc::{AllocError, Global};
use std::marker::Model;
use user_map::assign;

/// A node that joined, with the buckets that it claims.
#[derive(Drop)]
pub(crate) struct Joined {
    pub(crate) member: Member,
    pub(crate) claims: Sequence<Claim>,
}

impl Model for Joined {
    ghost use Rattle.maps_model.specs.Cluster.{Joined as Seen};

    ghost Value = { Seen };

    ghost view = { λ j. record { member = j.member; claims = j.claims } };
}

/// A group that its node has opened and not concluded yet. Its node has joined it.
#[derive(Drop)]
pub(crate) struct OpenGroup {
    epoch: EpochId,
    joins: Vec<Joined>,
}

impl Model for OpenGroup {
    ghost use Rattle.std.specs.Prelude.{length, ◌<◌};
    ghost use Rattle.maps_model.specs.Cluster.{OpenGroup as Seen};

    ghost Value = { Seen };

    ghost view = { λ g. record { epoch = g.epoch; joins = g.joins.items } };

    ghost invariant = { λ g. 0 < length g.joins.items };
}

// How many joins are of lower nodes.
fn lower(joins: &[Joined], new: &Joined) -> usize
    ensures { result ≡ prefix_len (is_lower new.now) joins.now }
{
    let node = new.member.node;
    joins
        .iter()
        .take_while(|old| old.member.node < node)
        .count()
}

// Whether the join at that place is of the node of the new one.
fn is_same_node(joins: &[Joined], at: usize, new: &Joined) -> bool
    ensures { result ≡ is_same_node new.now (slice_get joins.now at) }
{
    match joins.get(at) {
        Some(old) => old.member.node == new.member.node,
        None => false,
    }
}

// Whether the join at that place is of a boot before that of the new one.
fn is_earlier(joins: &[Joined], at: usize, new: &Joined) -> bool
    ensures { result ≡ is_earlier new.now (slice_get joins.now at) }
{
    match joins.get(at) {
        Some(old) => old.member.boot < new.member.boot,
        None => false,
    }
}

fn replace(joins: &mut Vec<Joined>, at: usize, new: Joined)
    requires { at < length joins.old.items }
    ensures { joins.new.items ≡ slice_set joins.old.items at new }
{
    joins[at] = new;
}

// Puts the join among the others, in the order of nodes. Of one node the one of the greatest boot stays.
#[tactic(auto, using(crate::proofs::Adding::lower_within, crate::proofs::Adding::same_within, crate::proofs::Adding::added_new, crate::proofs::Adding::added_later, crate::proofs::Adding::added_not))]
fn add(joins: &mut Vec<Joined>, new: Joined) -> Result<(), AllocError>
    ensures ok { OnOk result (joins.new.items ≡ with_join new joins.old.items) }
    ensures err { OnErr result (joins.new.items ≡ joins.old.items) }
{
    let at = lower(joins, &new);
    if !is_same_node(joins, at, &new) {
        joins.insert(at, new)?;
        return Ok(());
    }
    if is_earlier(joins, at, &new) {
        replace(joins, at, new);
    }
    Ok(())
}

// Puts the claims after the others.
fn append(claims: &mut Sequence<Claim>, more: &[Claim]) -> Result<(), AllocError>
    ensures { OnOk result (claims.new ≡ claims.old ++ more.now) }
{
    for claim in more {
        claims.push(*claim)?;
    }
    Ok(())
}

fn claims_of(alloc: Global, joins: &[Joined]) -> Result<Sequence<Claim>, AllocError>
    ensures { IfOk result (λ claims. claims ≡ flat_map (λ join. join.claims) joins.now) }
{
    let mut claims = Sequence::new(alloc);
    for join in joins {
        append(&mut claims, join.claims.as_slice())?;
    }
    Ok(claims)
}

fn members_of(alloc: Global, joins: &[Joined]) -> Result<Sequence<Member>, AllocError>
    ensures { IfOk result (λ members. members ≡ map (λ join. join.member) joins.now) }
{
    let mut members = Sequence::new(alloc);
    for join in joins {
        members.push(join.member)?;
    }
    Ok(members)
}

impl OpenGroup {
    /// A group of that epoch, with the join of its own node.
    pub(crate) fn new(alloc: Global, epoch: EpochId, own: Joined) -> Result<OpenGroup, AllocError>
        ensures { IfOk result (λ group. group ≡ record { epoch = epoch; joins = own ∷ [] }) }
    {
        let mut joins = Vec::new(alloc);
        joins.push(own)?;
        Ok(OpenGroup { epoch, joins })
    }

    /// Its epoch.
    pub(crate) fn epoch(&self) -> EpochId
        ensures { result ≡ self.now.epoch }
    {
        self.epoch
    }

    /// Adds a join, unless one of the node stands from the same boot or a later one.
    #[tactic(auto, using(crate::proofs::Adding::some_joined))]
    pub(crate) fn add(&mut self, new: Joined) -> Result<(), AllocError>
        ensures ok { OnOk result (self.new ≡ with_one_joined new self.old) }
        ensures err { OnErr result (self.new ≡ self.old) }
    {
        add(&mut self.joins, new)?;
        Ok(())
    }

    /// The membership that those who joined become.
    pub(crate) fn conclude(&self, alloc: Global, buckets: u32) -> Result<Install, AllocError>
        ensures map { IfOk result (λ install. IsAssigned (all_claims self.now) (all_members self.now) buckets self.now.epoch install.map) }
        ensures is { IfOk result (λ install. install ≡ membership_of self.now install.map) }
    {
        let claims = claims_of(alloc, &self.joins)?;
        let members = members_of(alloc, &self.joins)?;
        let map = assign(
            alloc,
            claims.as_slice(),
            members.as_slice(),
            buckets,
            self.epoch,
        )?;
        Ok(Install::new(self.epoch, members, map))
    }

    /// How many nodes joined.
    pub(crate) fn size(&self) -> usize
        ensures { result ≡ joins_in self.now }
    {
        self.joins.len()
    }

    /// The nodes that joined.
    pub(crate) fn nodes(&self) -> NodeSet
        ensures { (n : ℕ) → has result n ≡ has_joined n self.now }
    {
        nodes_of(&self.joins)
    }
}

fn nodes_of(joins: &[Joined]) -> NodeSet
    ensures { (n : ℕ) → has result n ≡ list_any (λ join. nat_eq join.member.node n) joins.now }
{
    let mut nodes = NodeSet::empty();
    for join in joins {
        nodes = nodes.with(join.member.node);
    }
    nodes
}
