// One session: octets as they come, and what each line of them leads to.
ghost use Rattle.std.specs.Prelude.{◌≡◌, ◌<◌, ◌≤◌, ◌+◌, ◌++◌, ℕ, List, None, length, map, MatchBool, IfOk, OnOk, OnErr};
ghost use Rattle.mail_model.specs.Plan.{Plan as Plans};
ghost use Rattle.mail_model.specs.PopReplies.{ready_text};
ghost use Rattle.mail_model.specs.Tape.Protocol.{Pop};
ghost use Rattle.session_model.specs.Calls as calls;
ghost use Rattle.session_model.specs.Calls.{IsReply};
ghost use Rattle.session_model.specs.Talk.{TalkState, IsOn, entered_as};
ghost use Rattle.session_model.specs.Talk.Standing.{Waiting};
ghost use Rattle.session_model.specs.Sessions.{Session, exchanges_of};
ghost use Rattle.session_model.specs.Acts.{opened_session};
ghost use Rattle.call_tickets.specs.Seen.{given_answer};
ghost use Rattle.call_tickets.specs.Moves as moves;
ghost use Rattle.call_tickets.specs.Moves.{Fed, Fell, HasEnded};
ghost use Rattle.pop_session.specs.Shown.{login_in};
ghost use Rattle.pop_session.specs.Slots.{listed_slot};
ghost use Rattle.pop_session.specs.Dues.{items_told};
ghost use Rattle.pop_session.specs.Follows.{Follows, Moved, LeadsTurn, EntersTransaction, HasReply, KeepsLogin, TakesAnswer, fetch_of, opening_line, login_of, leave_of_login, user_of_login, due_count, left, held};

use crate::banner::Banner;
use crate::due::{Asked, Due};
use crate::listing::Listing;
use crate::reply::{down_into, line_into, message_into, ready_into};
use crate::stage::{Heard, Stage};
use call_tickets::{Answer, Call, Move};
use dot_text::{Line, LineCutter};
use mail_base::{Item, Name, NodeNo, Plan};
use std::alloc::{AllocError, Global};

// The most octets of a line with its CRLF.
const LIMIT: usize = 1024;

// Whose turn it is, and what a session has to say before it hears on.
#[derive(Debug, Drop)]
enum Turn {
    // It has its greeting to say.
    Greets,
    // It hears its next line.
    Hears,
    // It waits for the answer to its call.
    Waits(Asked),
    // It has this to say to the answer.
    Replies(Due),
    // It has ended.
    Ended,
}

/// A session: what it has been told, and the octets that it was fed and no line has taken yet.
#[derive(Debug, Drop)]
pub struct PopSession {
    // whose session it is
    node: NodeNo,
    // what its greeting names: the boot of the node, the session's number, and the seconds at its opening
    boot: u32,
    number: u64,
    seconds: u64,
    turn: Turn,
    stage: Stage,
    cutter: LineCutter,
}

// The call that fetches this message of the user.
fn fetch(user: Name, item: Item) -> Call
    ensures { result ≡ fetch_of user item }
{
    Call::Fetch {
        user,
        id: item.id,
        holders: item.holders,
        from: 0,
        most: u64::MAX,
    }
}

impl PopSession {
    /// A session at that node, which has its greeting to say. The greeting names the boot of the node, the
    /// number of the session, and the seconds at its opening (RFC 1939, section 4). It takes no memory.
    pub fn new(alloc: Global, node: NodeNo, boot: u32, number: u64, seconds: u64) -> PopSession
        ensures follows { Follows result (opened_session Pop node) moves.Due.Greeting }
        ensures greets { opening_line result ≡ ready_text node boot number seconds }
        ensures login { login_of result ≡ None }
    {
        PopSession {
            node,
            boot,
            number,
            seconds,
            turn: Turn::Greets,
            stage: Stage::Authorization { user: None },
            cutter: LineCutter::new(alloc, LIMIT),
        }
    }

    /// Takes up the next octets of the client, however they are cut. Nothing is heard before `next`, but of a
    /// line that is too long no more than a CR is kept.
    ///
    /// # Errors
    ///
    /// Out of memory alone; the session is then as before.
    pub fn feed(&mut self, piece: &[u8]) -> Result<(), AllocError>
        ensures ok { OnOk result ((plain : Session) (due : moves.Due) → Follows self.old plain due → Fed (Follows self.new) plain due piece.now) }
        ensures stays { KeepsLogin self.old self.new }
        ensures held { OnOk result (held self.new ≤ held self.old + length piece.now) }
        ensures left { OnOk result (left self.new ≤ left self.old + length piece.now) }
        ensures err { OnErr result (self.new ≡ self.old) }
    {
        self.cutter.feed(piece)?;
        self.cutter.find();
        Ok(())
    }

    /// Makes the session's next move. It says its greeting, or the reply to the answer of its call, or hears the
    /// next line of what was fed, if one is whole. What that leads to is what the definition of a session says
    /// (RFC 1939, sections 3 to 7): octets that are appended to `out`, or a call. Where it waits, is idle or has
    /// ended, it does nothing. What it holds of its client while it is idle is bounded.
    ///
    /// # Errors
    ///
    /// Out of memory alone; the session and `out` are then as before.
    pub fn next(
        &mut self,
        alloc: Global,
        plan: &Plan,
        out: &mut Vec<u8>,
    ) -> Result<Move, AllocError>
        ensures ok { IfOk result (λ did. (octets : List ℕ) × (out.new.items ≡ out.old.items ++ octets) × Moved plan.now self.old did octets self.new) }
        ensures err { OnErr result ((self.new ≡ self.old) × (out.new.items ≡ out.old.items)) }
    {
        match &self.turn {
            Turn::Greets => self.greet(alloc, out),
            Turn::Hears => self.hear(alloc, plan, out),
            Turn::Waits(_) => Ok(Move::Wait),
            Turn::Replies(_) => self.reply(alloc, out),
            Turn::Ended => Ok(Move::End),
        }
    }

    // Says its greeting.
    fn greet(&mut self, alloc: Global, out: &mut Vec<u8>) -> Result<Move, AllocError>
        requires { self.old.turn ≡ Turn.Greets }
        ensures ok { IfOk result (λ did. (octets : List ℕ) × (out.new.items ≡ out.old.items ++ octets) × ((plan : Plans) → Moved plan self.old did octets self.new)) }
        ensures err { OnErr result ((self.new ≡ self.old) × (out.new.items ≡ out.old.items)) }
    {
        ready_into(out, alloc, self.node, self.boot, self.number, self.seconds)?;
        self.turn = Turn::Hears;
        Ok(Move::Said)
    }

    // Hears the next line, if one is whole.
    fn hear(&mut self, alloc: Global, plan: &Plan, out: &mut Vec<u8>) -> Result<Move, AllocError>
        requires { self.old.turn ≡ Turn.Hears }
        ensures ok { IfOk result (λ did. (octets : List ℕ) × (out.new.items ≡ out.old.items ++ octets) × Moved plan.now self.old did octets self.new) }
        ensures err { OnErr result ((self.new ≡ self.old) × (out.new.items ≡ out.old.items)) }
    {
        match self.cutter.find() {
            None => Ok(Move::Idle),
            Some(Line::Long(length)) => {
                self.stage.hear_long(out)?;
                self.cutter.take(Line::Long(length));
                Ok(Move::Said)
            }
            Some(Line::Whole(length)) => {
                let line = &self.cutter.rest()[..length];
                let banner = Banner {
                    node: self.node,
                    boot: self.boot,
                    number: self.number,
                    seconds: self.seconds,
                };
                let heard = self.stage.hear(alloc, plan, &banner, line, out)?;
                self.cutter.take(Line::Whole(length));
                let (turn, did) = begun(heard);
                self.turn = turn;
                Ok(did)
            }
        }
    }

    // Says what it has to say to the answer of its call.
    fn reply(&mut self, alloc: Global, out: &mut Vec<u8>) -> Result<Move, AllocError>
        requires { HasReply self.old.turn }
        ensures ok { IfOk result (λ did. (octets : List ℕ) × (out.new.items ≡ out.old.items ++ octets) × ((plan : Plans) → Moved plan self.old did octets self.new)) }
        ensures err { OnErr result ((self.new ≡ self.old) × (out.new.items ≡ out.old.items)) }
    {
        match &self.turn {
            Turn::Replies(due) => match due {
                Due::Shown(octets, lines) => {
                    message_into(out, alloc, *lines, octets.as_slice())?;
                    self.turn = Turn::Hears;
                    Ok(Move::Said)
                }
                Due::Said(text) => {
                    text.line_into(out)?;
                    self.turn = Turn::Hears;
                    Ok(Move::Said)
                }
                Due::Last(text) => {
                    text.line_into(out)?;
                    self.turn = Turn::Ended;
                    Ok(Move::Said)
                }
                Due::Entered { listed, .. } => {
                    let listing = listing_of(alloc, listed)?;
                    line_into(out, b"+OK maildrop open")?;
                    self.enter(listing);
                    Ok(Move::Said)
                }
            },
            Turn::Greets => Ok(Move::Said),
            Turn::Hears => Ok(Move::Said),
            Turn::Waits(_) => Ok(Move::Said),
            Turn::Ended => Ok(Move::Said),
        }
    }

    // TRANSACTION begins with this listing, where its user is let in (RFC 1939, section 5).
    fn enter(&mut self, listing: Listing)
        ensures { EntersTransaction self.old listing self.new }
    {
        if let Turn::Replies(Due::Entered { login, .. }) = std::mem::replace(
            &mut self.turn,
            Turn::Hears,
        ) {
            self.stage = Stage::Transaction { login, listing };
        }
    }

    /// Takes the answer to its call; `None` is a call that was given up. The next `next` says the reply to it.
    /// A session that waits for no answer takes none. It takes no memory: the octets of a message and the
    /// messages of a listing are moved.
    pub fn answer(&mut self, answer: Option<Answer>)
        ensures replies { (plain : Session) (state : TalkState) (call : calls.Call) (reply : List (List ℕ)) → Follows self.old plain moves.Due.Nothing → plain.standing ≡ Waiting state call
            → IsReply call (given_answer answer) reply → Follows self.new plain (moves.Due.Reply (given_answer answer)) }
        ensures takes { TakesAnswer answer self.old self.new }
        ensures left { left self.new + due_count self.old.turn ≡ left self.old + due_count self.new.turn }
    {
        match std::mem::replace(&mut self.turn, Turn::Ended) {
            Turn::Waits(asked) => self.turn = Turn::Replies(asked.due(answer)),
            other => self.turn = other,
        }
    }

    /// The node goes down: appends the last line of the session, which has then ended. What it had to say and
    /// what it waited for is given up.
    ///
    /// # Errors
    ///
    /// Out of memory alone; the session and `out` are then as before.
    pub fn node_down(&mut self, alloc: Global, out: &mut Vec<u8>) -> Result<(), AllocError>
        ensures ok { OnOk result ((octets : List ℕ) × (out.new.items ≡ out.old.items ++ octets)
            × ((plain : Session) (due : moves.Due) → Follows self.old plain due → IsOn plain.standing → Fell (Follows self.new) plain octets)) }
        ensures err { OnErr result ((self.new ≡ self.old) × (out.new.items ≡ out.old.items)) }
    {
        down_into(out, alloc, self.node)?;
        self.turn = Turn::Ended;
        Ok(())
    }

    /// The Leave of a session that has ended or is closed; nothing exactly where TRANSACTION never began. Its
    /// caller begins it once the session's last octets were written, and not where its node went down. It takes
    /// no memory.
    #[tactic(auto, using(crate::proofs::Replying::leaves_as))]
    pub fn leave(mut self) -> Option<Call>
        ensures leaves { result ≡ leave_of_login (login_in self.stage) }
        ensures user { (plain : Session) (due : moves.Due) → Follows self plain due → user_of_login (login_in self.stage) ≡ entered_as (exchanges_of plain) }
    {
        match std::mem::replace(&mut self.stage, Stage::Authorization { user: None }) {
            Stage::Authorization { .. } => None,
            Stage::Transaction { login, .. } => Some(Call::Leave {
                user: login.user,
                login: login.ticket,
                manager: login.manager,
            }),
        }
    }

    /// Whether it has ended: its next move is `Move::End`.
    pub fn has_ended(&self) -> bool
        ensures { (plain : Session) (due : moves.Due) → Follows self.now plain due → MatchBool result (HasEnded plain.standing) (IsOn plain.standing) }
    {
        matches!(self.turn, Turn::Ended)
    }

    /// How many octets of its client it holds.
    pub fn held(&self) -> usize
        ensures { result ≡ held self.now }
    {
        self.cutter.rest().len()
    }
}

// The messages that the answer lists, none of which is marked.
fn listing_of(alloc: Global, listed: &Answer) -> Result<Listing, AllocError>
    ensures { IfOk result (λ listing. listing ≡ map listed_slot (items_told listed.now)) }
{
    match listed {
        Answer::Listed { items, .. } => Listing::listed(alloc, items),
        Answer::Stored { .. } => Ok(Listing::new(alloc)),
        Answer::Wrong { .. } => Ok(Listing::new(alloc)),
        Answer::InUse { .. } => Ok(Listing::new(alloc)),
        Answer::NoProfile { .. } => Ok(Listing::new(alloc)),
        Answer::Part { .. } => Ok(Listing::new(alloc)),
        Answer::GoneAlready => Ok(Listing::new(alloc)),
        Answer::Dropped { .. } => Ok(Listing::new(alloc)),
        Answer::Failed(_) => Ok(Listing::new(alloc)),
    }
}

// Whose turn it is once a line was heard, and the move that this was.
fn begun(heard: Heard) -> (Turn, Move)
    ensures { LeadsTurn heard result }
{
    match heard {
        Heard::Said(_) => (Turn::Hears, Move::Said),
        Heard::Ended(_) => (Turn::Ended, Move::Said),
        Heard::LogsIn { user, kept, proof } => (
            Turn::Waits(Asked::Login(kept)),
            Move::Begin(Call::Login { user, proof }),
        ),
        Heard::Fetches {
            user,
            lines,
            item,
            ..
        } => (
            Turn::Waits(Asked::Message(lines)),
            Move::Begin(fetch(user, item)),
        ),
        Heard::Deletes { user, items } => (
            Turn::Waits(Asked::Deletion),
            Move::Begin(Call::Strike { user, items }),
        ),
    }
}
