//! How far a fetch of a part of a message has come.
ghost use Rattle.std.specs.Prelude.{◌≡◌, ◌≤◌, ◌<◌, [], ◌∷◌, ◌++◌, true, length, All, Some, None, IfOk};
ghost use Rattle.object_model.specs.Sets.{has, count_in};
ghost use Rattle.mail_base.specs.Bodies.{part_seen};
ghost use Rattle.login_model.specs.Readings.FetchStage.{AsksHolder as AsksOne, IsAnswered as IsAnsweredBy};
ghost use Rattle.login_model.specs.Rules.{ask_next, part_at, fetch_befell};
ghost use Rattle.login_model.specs.Progress.{fetch_ask, fetch_chances};
ghost use Rattle.login_model.specs.Progress.ReadAnswer.{Gives};
ghost use Rattle.object_model.specs.Letters as plain;
ghost use Rattle.object_model.specs.Mishaps as befell;
ghost use Rattle.node_tickets.specs.Seen.{mishaps_seen};
ghost use Rattle.node_reads.specs.Asking.{AnswersAs, DoneAs, pending_of};
ghost use Rattle.node_reads.specs.Readings.{listed, fetch_did, asks_first, left_after, has_part};
ghost use Rattle.node_reads.specs.FetchStages.{fetch_stage_seen};

use crate::letters::ask;
use crate::nodes::lowest_other;
use crate::under::Under;
use call_tickets::{Answer, Ask, Mishaps};
use mail_base::{Body, Letter, MsgId, Name, NodeNo, NodeSet, ToldPart};
use std::alloc::{AllocError, Global};
use std::marker::Model;

/// How far a fetch has come: it asks one holder, and others are left; one has answered; or nobody is left.
#[derive(Drop)]
pub(crate) enum FetchStage {
    AsksHolder { holder: NodeNo, left: NodeSet },
    IsAnswered { by: NodeNo, part: ToldPart },
    NobodyLeft,
}

/// A fetch of so many octets at most of a message, from a number of them on.
#[derive(Drop)]
pub(crate) struct Fetch {
    user: Name,
    // a copy of the name for each holder that is left, so that to ask the next one takes no memory
    spares: Vec<Name>,
    id: MsgId,
    from: u64,
    most: u64,
    stage: FetchStage,
}

impl Model for Fetch {
    ghost use Rattle.login_model.specs.Readings.{Fetch as Seen};
    ghost use Rattle.node_reads.specs.FetchStages.{fetch_stage_seen};
    ghost use Rattle.node_reads.specs.Readings.{HasSpares};

    ghost Value = { Seen };

    ghost view = { λ f. record { user = f.user; id = f.id; at = f.from; most = f.most; stage = fetch_stage_seen f.stage } };

    ghost invariant = { λ f. HasSpares (fetch_stage_seen f.stage) f.user f.spares.items };
}

// So many copies of the name.
fn copies(alloc: Global, name: &Name, count: u32) -> Result<Vec<Name>, AllocError>
    ensures many { IfOk result (λ list. length list.items ≡ count) }
    ensures same { IfOk result (λ list. All (λ one. one ≡ name.now) list.items) }
{
    if count == 0 {
        return Ok(Vec::new(alloc));
    }
    let mut list = copies(alloc, name, count - 1)?;
    list.push(name.copy()?)?;
    Ok(list)
}

// Takes one of the names, of which there is one. It takes no memory.
fn take_one(names: &mut Vec<Name>) -> Name
    requires { 0 < length names.old.items }
    ensures { names.old.items ≡ names.new.items ++ result ∷ [] }
{
    names.pop().unwrap()
}

// A part as the answer to a fetch. Its octets are moved.
fn answer_of(part: ToldPart) -> Answer
    ensures { (number : plain.Number) → AnswersAs number (Gives (part_seen part)) result }
{
    match part {
        ToldPart::Octets { octets, whole } => Answer::Part { octets, whole },
        ToldPart::Gone { stamp: _ } => Answer::GoneAlready,
    }
}

impl Fetch {
    /// A fetch that can ask each of these holders. It has asked nobody of them yet.
    ///
    /// # Errors
    ///
    /// Out of memory alone.
    pub(crate) fn new(
        alloc: Global,
        own: NodeNo,
        user: Name,
        id: MsgId,
        from: u64,
        most: u64,
        holders: NodeSet,
    ) -> Result<Fetch, AllocError>
        ensures { IfOk result (λ fetch. fetch ≡ record { user = user; id = id; at = from; most = most; stage = AsksOne own holders }) }
    {
        let spares = copies(alloc, &user, holders.count())?;
        Ok(Fetch {
            user,
            spares,
            id,
            from,
            most,
            stage: FetchStage::AsksHolder {
                holder: own,
                left: holders,
            },
        })
    }

    /// A fetch that its own node answers. It takes no memory.
    pub(crate) fn answered(
        alloc: Global,
        user: Name,
        id: MsgId,
        from: u64,
        most: u64,
        by: NodeNo,
        part: ToldPart,
    ) -> Fetch
        ensures { result ≡ record { user = user; id = id; at = from; most = most; stage = IsAnsweredBy by (part_seen part) } }
    {
        Fetch {
            user,
            spares: Vec::new(alloc),
            id,
            from,
            most,
            stage: FetchStage::IsAnswered { by, part },
        }
    }

    // Asks this holder; the others of those that are left stay so. It takes no memory.
    #[tactic(auto, using(crate::proofs::Spares::some_left, crate::proofs::Spares::fewer_left, crate::proofs::Spares::all_but_one))]
    fn ask_holder(&mut self, u: &Under, left: NodeSet, holder: NodeNo) -> Letter
        requires enough { count_in left ≤ fetch_chances self.old.stage }
        requires inside { has left holder ≡ true }
        ensures { fetch_did self.new (result ∷ []) ≡ asks_first u.now self.old left (Some holder) }
    {
        let user = take_one(&mut self.spares);
        self.stage = FetchStage::AsksHolder {
            holder,
            left: left.without(holder),
        };
        let body = Body::FetchAsk {
            user,
            id: self.id,
            from: self.from,
            most: self.most,
        };
        ask(u, holder, body)
    }

    /// Asks the lowest holder that is left; where there is none, nobody is left. Those that are left are as many at most as were. It
    /// takes no memory.
    #[tactic(auto, using(crate::proofs::Stages::asked_first, crate::proofs::Spares::first_inside))]
    pub(crate) fn ask_next(&mut self, u: &Under, left: NodeSet) -> Option<Letter>
        requires { count_in left ≤ fetch_chances self.old.stage }
        ensures { fetch_did self.new (listed result) ≡ ask_next u.now self.old left }
    {
        match lowest_other(u.own, left) {
            Some(holder) => Some(self.ask_holder(u, left, holder)),
            None => {
                self.stage = FetchStage::NobodyLeft;
                None
            }
        }
    }

    /// It is answered by this node. The part is moved. It takes no memory.
    pub(crate) fn answer(&mut self, by: NodeNo, part: ToldPart)
        ensures { self.new ≡ record { user = self.old.user; id = self.old.id; at = self.old.at; most = self.old.most; stage = IsAnsweredBy by (part_seen part) } }
    {
        self.stage = FetchStage::IsAnswered { by, part };
    }

    // Whether it has a part.
    fn has_part(&self) -> bool
        ensures { result ≡ has_part self.now.stage }
    {
        match &self.stage {
            FetchStage::AsksHolder { .. } => false,
            FetchStage::IsAnswered { .. } => true,
            FetchStage::NobodyLeft => false,
        }
    }

    /// A part is heard from any holder that was asked; the first counts. It is moved. It takes no memory.
    #[tactic(auto, using(crate::proofs::Stages::part_is))]
    pub(crate) fn hear_part(&mut self, from: NodeNo, part: ToldPart)
        ensures { fetch_did self.new [] ≡ part_at from self.old (part_seen part) self.old.stage }
    {
        if !self.has_part() {
            self.answer(from, part);
        }
    }

    // The holders that are left, where it asks this one.
    fn left_after(&self, at: NodeNo) -> Option<NodeSet>
        ensures { result ≡ left_after at self.now.stage }
    {
        match &self.stage {
            FetchStage::AsksHolder { holder, left } => {
                if at == *holder {
                    Some(left.without(at))
                } else {
                    None
                }
            }
            FetchStage::IsAnswered { .. } => None,
            FetchStage::NobodyLeft => None,
        }
    }

    /// A mishap at a node: the next holder is asked, where the fetch waits for the node. It takes no memory.
    #[tactic(auto, using(crate::proofs::Stages::fetch_befell_is, crate::proofs::Spares::left_after_fewer))]
    pub(crate) fn befell(&mut self, u: &Under, at: NodeNo) -> Option<Letter>
        ensures { fetch_did self.new (listed result) ≡ fetch_befell u.now at self.old self.old.stage }
    {
        match self.left_after(at) {
            Some(left) => self.ask_next(u, left),
            None => None,
        }
    }

    /// How many letters mishaps may still send for it: one to each holder that is left.
    pub(crate) fn chances(&self) -> u32
        ensures { result ≡ fetch_chances self.now.stage }
    {
        match &self.stage {
            FetchStage::AsksHolder { holder: _, left } => left.count(),
            FetchStage::IsAnswered { .. } => 0,
            FetchStage::NobodyLeft => 0,
        }
    }

    /// How far it has come; nothing exactly where it is done.
    pub(crate) fn pending(&self) -> Option<Ask>
        ensures { (mishaps : befell.Mishaps) → result ≡ pending_of (fetch_ask mishaps self.now.stage) }
    {
        match &self.stage {
            FetchStage::AsksHolder { .. } => Some(Ask::Pending { got: 0, wanted: 1 }),
            FetchStage::IsAnswered { .. } => None,
            FetchStage::NobodyLeft => None,
        }
    }

    /// The answer to a fetch that is done. Its octets are moved. It takes no memory.
    pub(crate) fn into_answer(self, mishaps: Mishaps) -> Answer
        requires { pending_of (fetch_ask (mishaps_seen mishaps) self.stage) ≡ None }
        ensures { (number : plain.Number) → DoneAs number (fetch_ask (mishaps_seen mishaps) self.stage) result }
    {
        let Fetch {
            user: _user,
            spares: _spares,
            id: _,
            from: _,
            most: _,
            stage,
        } = self;
        match stage {
            FetchStage::AsksHolder { .. } => unreachable!(),
            FetchStage::IsAnswered { by: _, part } => answer_of(part),
            FetchStage::NobodyLeft => Answer::Failed(mishaps),
        }
    }
}
