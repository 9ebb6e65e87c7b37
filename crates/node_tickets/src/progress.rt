//! How far a call has come.
ghost use Rattle.std.specs.Prelude.{◌≡◌, ◌≤◌, ◌-◌, ℕ, [], length, map, true, false, Some, None, vec_len, vec_capacity};
ghost use Rattle.std.specs.Option.{option_copied};
ghost use Rattle.std.specs.List.{list_any, list_all, filter};
ghost use Rattle.object_model.specs.Sets.{has};
ghost use Rattle.mail_base.specs.Bodies.{body_seen};
ghost use Rattle.cluster_model.specs.Rules.{told_want, failed_want, told_ticket};
ghost use Rattle.cluster_model.specs.Progress.{is_confirmed, can_be_confirmed, has_failed, answer_once_confirmed, ask_of_wants, ask_of};
ghost use Rattle.cluster_model.specs.Progress.Ask.{Done};
ghost use Rattle.node_tickets.specs.Seen.{kind_of_mishap, kind_seen, mishaps_seen, ask_seen, progress_seen};
ghost use Rattle.node_tickets.specs.Standing.{is_done, failed_ticket, filed_seen, filing_wanted};

use crate::mishap::{MishapKind, count};
use crate::want::{Asked, Want};
use call_tickets::{Answer, Ask, Mishaps};
use mail_base::{Body, CallKind, Filing, NodeNo, NodeSet};
use std::marker::Model;

/// A ticket: the kind of its call, what it wants, and what befell it. A contract sees the machine's ticket.
#[derive(Drop)]
pub(crate) struct Progress {
    kind: CallKind,
    wants: Vec<Want>,
    mishaps: Mishaps,
    // room for the confirmers of each want, so that the answer to a deletion takes no memory
    room: Vec<NodeSet>,
}

impl Model for Progress {
    ghost use Rattle.std.specs.Prelude.{◌≡◌, ◌≤◌, ◌-◌, [], length, vec_len, vec_capacity};
    ghost use Rattle.cluster_model.specs.Cluster as plain;
    ghost use Rattle.node_tickets.specs.Seen.{kind_seen, mishaps_seen};

    ghost Value = { plain.Ticket };

    ghost view = { λ p. record { kind = kind_seen p.kind; wants = p.wants.items; mishaps = mishaps_seen p.mishaps } };

    ghost invariant = { λ p. (p.room.items ≡ []) × (length p.wants.items ≤ vec_capacity p.room - vec_len p.room) };
}

fn tell_all(wants: &mut Vec<Want>, body: &Body, from: NodeNo)
    ensures { wants.new.items ≡ map (told_want (body_seen body.now) from) wants.old.items }
{
    let mut next = 0;
    for want in wants.iter_mut() {
        want.told(body, from, &mut next);
    }
}

fn fail_all(wants: &mut Vec<Want>, at: NodeNo)
    ensures { wants.new.items ≡ map (failed_want at) wants.old.items }
{
    for want in wants.iter_mut() {
        want.fail(at);
    }
}

fn all_confirmed(wants: &[Want], confirm: u8) -> bool
    ensures { result ≡ list_all (is_confirmed confirm) wants.now }
{
    wants.iter().all(|want| want.is_confirmed(confirm))
}

fn all_can_be(wants: &[Want], confirm: u8) -> bool
    ensures { result ≡ list_all (can_be_confirmed confirm) wants.now }
{
    wants.iter().all(|want| want.can_be_confirmed(confirm))
}

fn some_failed(wants: &[Want], confirm: u8) -> bool
    ensures { result ≡ has_failed confirm wants.now }
{
    match wants.first() {
        Some(_) => !all_can_be(wants, confirm),
        None => true,
    }
}

fn count_confirmed(wants: &[Want], confirm: u8) -> usize
    ensures { result ≡ length (filter (is_confirmed confirm) wants.now) }
{
    wants
        .iter()
        .filter(|want| want.is_confirmed(confirm))
        .count()
}

// Of each want the nodes that confirmed it, in room that was made for them.
fn confirmers_of(wants: &[Want], room: Vec<NodeSet>) -> Vec<NodeSet>
    requires empty { room.items ≡ [] }
    requires spare { length wants.now ≤ vec_capacity room - vec_len room }
    ensures { result.items ≡ map (λ want. want.confirmed) wants.now }
{
    let mut confirmers = room;
    for want in wants.iter() {
        confirmers.push_reserved(want.confirmed());
    }
    confirmers
}

// The answer to a call of which all is confirmed, where this is its first want.
fn confirmed_answer(wants: &[Want], want: &Want, room: Vec<NodeSet>) -> Answer
    requires empty { room.items ≡ [] }
    requires spare { length wants.now ≤ vec_capacity room - vec_len room }
    ensures { progress_seen result ≡ answer_once_confirmed wants.now want.now want.now.asked }
{
    match want.asked() {
        Asked::Copies(filing) => Answer::Stored {
            id: filing.id,
            confirmers: want.confirmed(),
        },
        Asked::Deletion { .. } => Answer::Dropped {
            confirmers: confirmers_of(wants, room),
        },
    }
}

// The answer to a call that asked nodes and is done.
fn answer_of(wants: &[Want], mishaps: Mishaps, room: Vec<NodeSet>, confirm: u8) -> Answer
    requires empty { room.items ≡ [] }
    requires spare { length wants.now ≤ vec_capacity room - vec_len room }
    requires done { is_done (ask_of_wants confirm (mishaps_seen mishaps) wants.now) ≡ true }
    ensures { Done (progress_seen result) ≡ ask_of_wants confirm (mishaps_seen mishaps) wants.now }
{
    if !all_confirmed(wants, confirm) {
        return Answer::Failed(mishaps);
    }
    match wants.first() {
        Some(want) => confirmed_answer(wants, want, room),
        None => Answer::Failed(mishaps),
    }
}

impl Progress {
    /// The ticket of a call that begins.
    pub(crate) fn new(
        kind: CallKind,
        wants: Vec<Want>,
        mishaps: Mishaps,
        room: Vec<NodeSet>,
    ) -> Progress
        requires empty { room.items ≡ [] }
        requires spare { length wants.items ≤ vec_capacity room - vec_len room }
        ensures { result ≡ record { kind = kind_seen kind; wants = wants.items; mishaps = mishaps_seen mishaps } }
    {
        Progress {
            kind,
            wants,
            mishaps,
            room,
        }
    }

    /// The kind of its call.
    pub(crate) fn kind(&self) -> CallKind
        ensures { kind_seen result ≡ self.now.kind }
    {
        self.kind
    }

    /// What it wants.
    pub(crate) fn wants(&self) -> &[Want]
        ensures { result.now ≡ self.now.wants }
    {
        &self.wants
    }

    /// What a delivery filed.
    pub(crate) fn filing(&self) -> Option<&Filing>
        ensures { filed_seen (option_copied result) ≡ filing_wanted self.now.wants }
    {
        match self.wants.first() {
            Some(want) => match want.asked() {
                Asked::Copies(filing) => Some(filing),
                Asked::Deletion { .. } => None,
            },
            None => None,
        }
    }

    /// A letter of this node is heard.
    pub(crate) fn told(&mut self, body: &Body, from: NodeNo)
        ensures { self.new ≡ told_ticket (body_seen body.now) from self.old }
    {
        tell_all(&mut self.wants, body, from);
    }

    /// A mishap is counted, and the node fails where it is waited for.
    pub(crate) fn befell(&mut self, kind: MishapKind, at: NodeNo)
        ensures { self.new ≡ failed_ticket (kind_of_mishap kind) at self.old }
    {
        fail_all(&mut self.wants, at);
        count(&mut self.mishaps, kind);
    }

    /// The nodes that it waits for.
    pub(crate) fn waiting(&self) -> NodeSet
        ensures { (m : ℕ) → has result m ≡ list_any (λ want. has want.waiting m) self.now.wants }
    {
        let mut nodes = NodeSet::empty();
        for want in self.wants.iter() {
            nodes = nodes.union(want.waiting());
        }
        nodes
    }

    /// Whether an ask would be answered.
    #[tactic(auto, using(crate::proofs::Asks::done_is))]
    pub(crate) fn is_done(&self, confirm: u8) -> bool
        ensures { result ≡ is_done (ask_of confirm self.now) }
    {
        all_confirmed(&self.wants, confirm) || some_failed(&self.wants, confirm)
    }

    /// How far a call has come that is not done.
    pub(crate) fn pending(&self, confirm: u8) -> Ask
        requires { is_done (ask_of confirm self.now) ≡ false }
        ensures { ask_seen result ≡ ask_of confirm self.now }
    {
        match self.wants.first() {
            Some(want) => match want.asked() {
                Asked::Copies(_) => Ask::Pending {
                    got: u64::from(want.confirmed().count()),
                    wanted: u64::from(confirm),
                },
                Asked::Deletion { .. } => Ask::Pending {
                    got: count_confirmed(&self.wants, confirm) as u64,
                    wanted: self.wants.len() as u64,
                },
            },
            None => unreachable!(),
        }
    }

    /// The answer to a call that is done. It takes no memory.
    pub(crate) fn into_answer(self, confirm: u8) -> Answer
        requires { is_done (ask_of confirm self) ≡ true }
        ensures { Done (progress_seen result) ≡ ask_of confirm self }
    {
        let Progress {
            kind: _,
            wants,
            mishaps,
            room,
        } = self;
        answer_of(&wants, mishaps, room, confirm)
    }
}
