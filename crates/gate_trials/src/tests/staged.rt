// A desk that plays each call as a letter of its script says.
ghost use Rattle.std.specs.Prelude.{◌≡◌, None, ⊤, IfOk};
ghost use Rattle.session_model.specs.Calls as model;
ghost use Rattle.call_tickets.specs.Seen.{answer_seen};
ghost use Rattle.call_tickets.specs.Passes.{NoneFell, AnswerCounted, with_leave};
ghost use Rattle.call_tickets.specs.Asks.{FitsKind, AcksFor};
ghost use Rattle.io_edge.specs.Causes.{Rose};

use super::filing::begun_of;
use call_tickets::{Answer, Ask, Call, Desk, DeskFault, DeskTicket, Life, Mishaps, Posted, Tally};
use mail_base::{
    Begun, CallKind, Filing, Item, Items, MsgId, NodeNo, NodeSet, Octets, Stamp, Ticket,
};
use std::alloc::{AllocError, Global};

// The octets that each message holds.
pub(super) const MESSAGE: &[u8] = b"Subject: x\r\n\r\n.\r\n";

// A desk whose node is up or not. Call n is played as letter n of the script: `l` it is pending twice, `f` it fails, `x` its
// proof is wrong, or its message was deleted; `u` another login has the maildrop, and `p` its manager has no profile; `w` and `d`
// its beginning finds a number used up, or its node down; `W` and `D` its asking does; `n` and `N` memory runs out there. Else it
// serves.
#[derive(Drop)]
pub(super) struct StagedDesk<'a> {
    pub(super) up: bool,
    pub(super) script: &'a [u8],
}

// What it is held by.
#[derive(Drop)]
pub(super) struct StagedPass {
    pub(super) tally: Tally,
    // how many letters were posted
    pub(super) posts: u64,
    calls: usize,
    play: u8,
    late: u8,
}

impl StagedPass {
    pub(super) fn new() -> StagedPass {
        StagedPass {
            tally: Tally {
                stored: 0,
                listed: 0,
                wrong: 0,
                in_use: 0,
                no_profile: 0,
                part: 0,
                gone: 0,
                dropped: 0,
                failed: 0,
                down: 0,
                worn: 0,
                leaves: 0,
            },
            posts: 0,
            calls: 0,
            play: b's',
            late: 0,
        }
    }
}

fn one_more(count: u64) -> u64
    ensures { Rose count result }
{
    count.saturating_add(1)
}

fn count_down(tally: &mut Tally)
    ensures fell { NoneFell tally.old tally.new }
    ensures rose { Rose tally.old.down tally.new.down }
{
    tally.down = one_more(tally.down);
}

fn count_worn(tally: &mut Tally)
    ensures fell { NoneFell tally.old tally.new }
    ensures rose { Rose tally.old.worn tally.new.worn }
{
    tally.worn = one_more(tally.worn);
}

fn count_leave(tally: &mut Tally)
    ensures { NoneFell (with_leave tally.old) tally.new }
{
    tally.leaves = tally.leaves.saturating_add(1);
}

fn count_answer(tally: &mut Tally, answer: &Answer)
    ensures fell { NoneFell tally.old tally.new }
    ensures rose { AnswerCounted (answer_seen answer.now) tally.old tally.new }
{
    match answer {
        Answer::Stored { .. } => tally.stored = one_more(tally.stored),
        Answer::Listed { .. } => tally.listed = one_more(tally.listed),
        Answer::Wrong { .. } => tally.wrong = one_more(tally.wrong),
        Answer::InUse { .. } => tally.in_use = one_more(tally.in_use),
        Answer::NoProfile { .. } => tally.no_profile = one_more(tally.no_profile),
        Answer::Part { .. } => tally.part = one_more(tally.part),
        Answer::GoneAlready => tally.gone = one_more(tally.gone),
        Answer::Dropped { .. } => tally.dropped = one_more(tally.dropped),
        Answer::Failed(_) => tally.failed = one_more(tally.failed),
    }
}

fn failed() -> Answer
    ensures { answer_seen result ≡ model.Answer.Failed }
{
    Answer::Failed(Mishaps {
        few_members: 1,
        year: 0,
        dropped: 0,
        stale: 0,
        down: 0,
        disk: 0,
        crowded: 0,
    })
}

fn stored(filing: &Option<Filing>) -> Answer
    ensures kind { FitsKind CallKind.Deliver (answer_seen result) }
    ensures acks { AcksFor filing.now (answer_seen result) None None }
{
    match filing {
        Some(filing) => Answer::Stored {
            id: filing.id,
            confirmers: NodeSet::empty(),
        },
        None => failed(),
    }
}

fn item(node: NodeNo, seq: u64) -> Option<Item> {
    Some(Item {
        id: MsgId::new(node, 1, seq)?,
        stamp: Stamp::new(seq, 1, 1),
        targets: NodeSet::empty(),
        holders: NodeSet::empty().with(node),
        length: MESSAGE.len() as u64,
    })
}

// Two messages.
fn listed(alloc: Global, node: NodeNo) -> Result<Answer, AllocError>
    ensures { IfOk result (λ answer. FitsKind CallKind.Login (answer_seen answer) × AcksFor None (answer_seen answer) None None) }
{
    let mut items = Items::new(alloc);
    items.push(item(node, 1).ok_or(AllocError)?)?;
    items.push(item(node, 2).ok_or(AllocError)?)?;
    Ok(Answer::Listed {
        login: Ticket::new(node, 3, 7),
        manager: node,
        asked: NodeSet::empty().with(node),
        items,
    })
}

// What a login is answered that is played so.
fn let_in(alloc: Global, node: NodeNo, play: u8) -> Result<Answer, AllocError>
    ensures { IfOk result (λ answer. FitsKind CallKind.Login (answer_seen answer) × AcksFor None (answer_seen answer) None None) }
{
    match play {
        b'x' => Ok(Answer::Wrong {
            stamp: Stamp::new(0, 0, 0),
        }),
        b'u' => Ok(Answer::InUse {
            by: Ticket::new(node, 3, 6),
        }),
        b'p' => Ok(Answer::NoProfile { manager: node }),
        _ => listed(alloc, node),
    }
}

// What a call of this kind is answered that does not fail, and is played so.
fn served(alloc: Global, node: NodeNo, play: u8, begun: &Begun) -> Result<Answer, AllocError>
    ensures kind { IfOk result (λ answer. FitsKind begun.now.kind (answer_seen answer)) }
    ensures acks { IfOk result (λ answer. AcksFor begun.now.filing (answer_seen answer) None None) }
{
    match begun.kind {
        CallKind::Deliver => Ok(stored(&begun.filing)),
        CallKind::Login => let_in(alloc, node, play),
        CallKind::Fetch if play == b'x' => Ok(Answer::GoneAlready),
        CallKind::Fetch => Ok(Answer::Part {
            octets: Octets::from_vec(MESSAGE.to_vec(alloc)?),
            whole: MESSAGE.len() as u64,
        }),
        CallKind::Strike => Ok(Answer::Dropped {
            confirmers: Vec::new(alloc),
        }),
    }
}

// What a call is answered that is played so.
fn played(alloc: Global, node: NodeNo, play: u8, begun: &Begun) -> Result<Answer, AllocError>
    ensures kind { IfOk result (λ answer. FitsKind begun.now.kind (answer_seen answer)) }
    ensures acks { IfOk result (λ answer. AcksFor begun.now.filing (answer_seen answer) None None) }
{
    if play == b'f' {
        Ok(failed())
    } else {
        served(alloc, node, play, begun)
    }
}

impl<'a> Desk for StagedDesk<'a> {
    ghost use Rattle.std.specs.Prelude.{⊤, None};

    type Pass = StagedPass;

    ghost belongs = { λ _ _. ⊤ };

    ghost own = { λ _. None };

    ghost counts = { λ p. p.tally };

    fn is_up(&self, pass: &mut StagedPass, node: NodeNo) -> Option<Life> {
        let _ = node;
        if self.up {
            Some(Life {
                boot: 3,
                seconds: 1_000_000_000,
            })
        } else {
            count_down(&mut pass.tally);
            None
        }
    }

    fn begin(
        &self,
        alloc: Global,
        pass: &mut StagedPass,
        node: NodeNo,
        call: Call,
    ) -> Result<DeskTicket, DeskFault> {
        let play = self.script.get(pass.calls).copied().unwrap_or(b's');
        pass.calls = pass.calls.saturating_add(1);
        pass.play = play;
        pass.late = 2;
        if play == b'd' {
            count_down(&mut pass.tally);
            return Err(DeskFault::Down);
        }
        if play == b'w' {
            count_worn(&mut pass.tally);
            return Err(DeskFault::Worn);
        }
        if play == b'n' {
            return Err(DeskFault::NoMemory);
        }
        let Ok(begun) = begun_of(alloc, node, &call) else {
            return Err(DeskFault::NoMemory);
        };
        Ok(DeskTicket {
            ticket: Ticket::new(node, 3, 7),
            begun,
        })
    }

    fn leave(
        &self,
        alloc: Global,
        pass: &mut StagedPass,
        node: NodeNo,
        call: Call,
    ) -> Result<(), DeskFault> {
        let _ = (alloc, node);
        drop(call);
        count_leave(&mut pass.tally);
        Ok(())
    }

    fn ask(
        &self,
        alloc: Global,
        pass: &mut StagedPass,
        ticket: &DeskTicket,
    ) -> Result<Ask, DeskFault> {
        if pass.play == b'D' {
            count_down(&mut pass.tally);
            return Err(DeskFault::Down);
        }
        if pass.play == b'W' {
            count_worn(&mut pass.tally);
            return Err(DeskFault::Worn);
        }
        if pass.play == b'N' {
            return Err(DeskFault::NoMemory);
        }
        if pass.play == b'l' && pass.late > 0 {
            pass.late -= 1;
            return Ok(Ask::Pending { got: 0, wanted: 1 });
        }
        let node = ticket.ticket.node;
        let Ok(answer) = played(alloc, node, pass.play, &ticket.begun) else {
            return Err(DeskFault::NoMemory);
        };
        count_answer(&mut pass.tally, &answer);
        Ok(Ask::Done(answer))
    }

    fn give_up(
        &self,
        alloc: Global,
        pass: &mut StagedPass,
        ticket: DeskTicket,
    ) -> Result<(), DeskFault> {
        let _ = alloc;
        pass.late = 0;
        drop(ticket);
        Ok(())
    }

    fn post_one(&self, alloc: Global, pass: &mut StagedPass) -> Result<Posted, DeskFault> {
        let _ = alloc;
        pass.posts = one_more(pass.posts);
        Ok(Posted::Quiet)
    }

    fn tally(&self, pass: &StagedPass) -> Tally {
        pass.tally
    }
}
