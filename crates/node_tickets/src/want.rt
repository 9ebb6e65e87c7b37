//! Something that is asked of nodes, and how they answered.
ghost use Rattle.std.specs.Prelude.{◌≡◌, ◌&&◌, ◌||◌, true, IsTrue, if◌then◌else◌};
ghost use Rattle.object_model.specs.Sets.{has, one_node, with_node, without_node};
ghost use Rattle.mail_base.specs.declared.body.Body.TheVariants as body;
ghost use Rattle.std.specs.List.{list_any};
ghost use Rattle.mail_model.specs.Listing.{is_same_id};
ghost use Rattle.mail_base.specs.Bodies.{body_seen};
ghost use Rattle.cluster_model.specs.Rules.{tells, told_want, failed_want, new_want};
ghost use Rattle.cluster_model.specs.Progress.{is_confirmed, can_be_confirmed};
ghost use Rattle.node_tickets.specs.Seen.{asked_seen};

use mail_base::{Body, Filing, Ids, MsgId, Name, NodeNo, NodeSet};
use std::marker::Model;

/// What is asked of nodes.
#[derive(Drop)]
pub enum Asked {
    /// Copies of a message.
    Copies(Filing),
    /// That one copy of a message be deleted.
    Deletion {
        /// Whose copy.
        user: Name,
        /// The message.
        id: MsgId,
    },
}

/// Something that is asked, and the nodes that are asked for it by how they answered. A contract sees the machine's want.
#[derive(Drop)]
pub struct Want {
    asked: Asked,
    confirmed: NodeSet,
    waiting: NodeSet,
    failed: NodeSet,
}

impl Model for Want {
    ghost use Rattle.cluster_model.specs.Cluster as plain;
    ghost use Rattle.node_tickets.specs.Seen.{asked_seen};

    ghost Value = { plain.Want };

    ghost view = { λ w. record { asked = asked_seen w.asked; confirmed = w.confirmed; waiting = w.waiting; failed = w.failed } };
}

fn same_id(one: &MsgId, id: &MsgId) -> bool
    ensures { result ≡ is_same_id one.now id.now }
{
    one.node() == id.node() && one.boot() == id.boot() && one.seq() == id.seq()
}

// Whether this id stands at the place.
fn is_at(ids: &[MsgId], place: usize, id: &MsgId) -> bool
    ensures { IsTrue result → list_any (λ one. is_same_id one id.now) ids.now ≡ true }
{
    match ids.get(place) {
        Some(one) => same_id(one, id),
        None => false,
    }
}

// Whether the ids have this one. It is looked for at the next place first, and then at each. A node that answers tells of its
// deletions in the order in which it was asked for them, which is that of the wants, so that each stands at the next place.
fn has_id(ids: &[MsgId], next: &mut usize, id: &MsgId) -> bool
    ensures { result ≡ list_any (λ one. is_same_id one id.now) ids.now }
{
    if is_at(ids, *next, id) {
        *next = next.saturating_add(1);
        return true;
    }
    ids.iter().any(|one| same_id(one, id))
}

// Whether a letter that says that this message is filed tells that this was done.
fn is_copies(asked: &Asked, id: &MsgId) -> bool
    ensures { result ≡ tells (body_seen (body.Filed id.now)) (asked_seen asked.now) }
{
    match asked {
        Asked::Copies(filing) => same_id(id, &filing.id),
        Asked::Deletion { .. } => false,
    }
}

fn is_deletion(asked: &Asked, user: &Name, ids: &Ids, next: &mut usize) -> bool
    ensures { result ≡ tells (body_seen (body.StrikeTold user.now ids.now)) (asked_seen asked.now) }
{
    match asked {
        Asked::Copies(_) => false,
        Asked::Deletion { user: name, id } => user == name && has_id(ids.as_slice(), next, id),
    }
}

fn tells_of(body: &Body, asked: &Asked, next: &mut usize) -> bool
    ensures { result ≡ tells (body_seen body.now) (asked_seen asked.now) }
{
    match body {
        Body::Filed { id } => is_copies(asked, id),
        Body::StrikeTold { user, ids } => is_deletion(asked, user, ids, next),
        _ => false,
    }
}

// The own node, where it is among the targets.
fn own_among(own: NodeNo, targets: NodeSet) -> NodeSet
    ensures { result ≡ (if has targets own then one_node own else 0) }
{
    if targets.has(own) {
        NodeSet::empty().with(own)
    } else {
        NodeSet::empty()
    }
}

impl Want {
    /// A want that begins: the own node has confirmed where it is asked, and the others are waited for.
    pub(crate) fn new(own: NodeNo, asked: Asked, targets: NodeSet) -> Want
        ensures { result ≡ new_want own (asked_seen asked) targets }
    {
        Want {
            asked,
            confirmed: own_among(own, targets),
            waiting: targets.without(own),
            failed: NodeSet::empty(),
        }
    }

    /// What is asked.
    pub fn asked(&self) -> &Asked
        ensures { asked_seen result.now ≡ self.now.asked }
    {
        &self.asked
    }

    /// The nodes that confirmed it.
    pub fn confirmed(&self) -> NodeSet
        ensures { result ≡ self.now.confirmed }
    {
        self.confirmed
    }

    /// The nodes that are waited for.
    pub fn waiting(&self) -> NodeSet
        ensures { result ≡ self.now.waiting }
    {
        self.waiting
    }

    // The node has confirmed it.
    fn confirm(&mut self, from: NodeNo)
        ensures { self.new ≡ record { asked = self.old.asked; confirmed = with_node self.old.confirmed from; waiting = without_node self.old.waiting from; failed = without_node self.old.failed from } }
    {
        self.confirmed = self.confirmed.with(from);
        self.waiting = self.waiting.without(from);
        self.failed = self.failed.without(from);
    }

    // Whether the node is asked for it, and has not confirmed it.
    fn awaits(&self, from: NodeNo) -> bool
        ensures { result ≡ (has self.now.waiting from || has self.now.failed from) }
    {
        self.waiting.has(from) || self.failed.has(from)
    }

    /// Who waits or failed is confirmed, where the letter tells so. Of the letter's ids the next is expected at this place.
    pub(crate) fn told(&mut self, body: &Body, from: NodeNo, next: &mut usize)
        ensures { self.new ≡ told_want (body_seen body.now) from self.old }
    {
        if self.awaits(from) && tells_of(body, &self.asked, next) {
            self.confirm(from);
        }
    }

    /// A node fails, where it is waited for.
    pub(crate) fn fail(&mut self, at: NodeNo)
        ensures { self.new ≡ failed_want at self.old }
    {
        if self.waiting.has(at) {
            self.waiting = self.waiting.without(at);
            self.failed = self.failed.with(at);
        }
    }

    /// Whether F nodes confirmed it at least.
    pub(crate) fn is_confirmed(&self, confirm: u8) -> bool
        ensures { result ≡ is_confirmed confirm self.now }
    {
        u32::from(confirm) <= self.confirmed.count()
    }

    /// Whether F nodes confirmed it or may still do so.
    pub(crate) fn can_be_confirmed(&self, confirm: u8) -> bool
        ensures { result ≡ can_be_confirmed confirm self.now }
    {
        u32::from(confirm) <= self.confirmed.union(self.waiting).count()
    }
}
