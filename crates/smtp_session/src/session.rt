// One session: octets as they come, and what each unit of them leads to.
ghost use Rattle.std.specs.Prelude.{◌≡◌, ◌<◌, ◌≤◌, ◌+◌, ◌^◌, ◌++◌, [], List, ℕ, true, false, length, MatchBool, OnOk, OnErr, IfOk};
ghost use Rattle.mail_model.specs.PopReplies.{one_line};
ghost use Rattle.mail_model.specs.Session.{undotted};
ghost use Rattle.mail_model.specs.Told.{Mail};
ghost use Rattle.mail_model.specs.Plan.{Plan as Plans};
ghost use Rattle.mail_model.specs.Tape.Protocol.{Smtp};
ghost use Rattle.session_model.specs.Calls as calls;
ghost use Rattle.session_model.specs.Calls.{IsReply};
ghost use Rattle.session_model.specs.Talk.{TalkState, IsOn};
ghost use Rattle.session_model.specs.Talk.Standing.{Waiting};
ghost use Rattle.session_model.specs.Sessions.{Session};
ghost use Rattle.session_model.specs.Acts.{opened_session};
ghost use Rattle.call_tickets.specs.Seen.{given_answer};
ghost use Rattle.call_tickets.specs.Moves.{Due, Fed, Fell, HasEnded};
ghost use Rattle.smtp_session.specs.Replies.{text_of};
ghost use Rattle.smtp_session.specs.Talks.{talk_of};
ghost use Rattle.smtp_session.specs.Follows.{Follows, Moved, EndsText, IsOwnMove, IsDue, Turns, due_count, left, held};
ghost use Rattle.smtp_session.specs.Texts.{IsGivenText};

use crate::told::Heard;
use crate::{Reply, Text, Told};
use call_tickets::{Answer, Call, Move};
use dot_text::{Cut, Line, LineCutter, Undotter};
use mail_base::{Deliver, NodeNo, Plan};
use std::alloc::{AllocError, Global};

// the most octets of a command line with its CRLF (RFC 5321, section 4.5.3.1.4, asks for 512 at least)
const LINE_LIMIT: usize = 1024;

// Whose turn it is, and what a session has to say before it hears on.
#[derive(Clone, Copy, Debug, PartialEq, Eq)]
enum Turn {
    // It has its greeting to say.
    Greets,
    // It hears its next unit.
    Hears,
    // It waits until its message is stored.
    Waits,
    // It has this to say to what became of its message.
    Replies(Reply),
    // It has ended.
    Ended,
}

/// A session: what it has been told, and the octets that it was fed and no unit has taken yet.
#[derive(Debug, Drop)]
pub struct SmtpSession {
    // whose session it is
    node: NodeNo,
    turn: Turn,
    // what the units so far have told
    told: Told,
    // the octets that were fed and not looked at further
    cutter: LineCutter,
    // where in a line of a text the octets stand that were read; at its beginning outside a text
    undotter: Undotter,
    // the text so far; none outside one
    text: Text,
}

// What comes next once a command line was heard.
fn turn_behind(heard: Heard) -> Turn
    ensures { Turns heard result }
{
    match heard {
        Heard::GoesOn(_) => Turn::Hears,
        Heard::Ends(_) => Turn::Ended,
    }
}

impl SmtpSession {
    /// A session at that node, which has its greeting to say. It takes no memory.
    pub fn new(alloc: Global, node: NodeNo) -> SmtpSession
        ensures { Follows result (opened_session Smtp node) Due.Greeting }
    {
        SmtpSession {
            node,
            turn: Turn::Greets,
            told: Told::new(),
            cutter: LineCutter::new(alloc, LINE_LIMIT),
            undotter: Undotter::new(),
            text: Text::new(alloc),
        }
    }

    /// Takes up the next octets of the client, however they are cut. Nothing is heard before `next`, but of a
    /// command line that is too long no more than a CR is kept.
    ///
    /// # Errors
    ///
    /// Out of memory alone; the session is then as before.
    pub fn feed(&mut self, piece: &[u8]) -> Result<(), AllocError>
        ensures ok { OnOk result ((plain : Session) (due : Due) → Follows self.old plain due → Fed (Follows self.new) plain due piece.now) }
        ensures held { OnOk result (held self.new ≤ held self.old + length piece.now) }
        ensures left { OnOk result (left self.new ≤ left self.old + length piece.now) }
        ensures err { OnErr result (self.new ≡ self.old) }
    {
        self.cutter.feed(piece)?;
        self.let_go();
        Ok(())
    }

    // Lets go what is held of a command line that is too long.
    fn let_go(&mut self)
        ensures follows { (plain : Session) (due : Due) → Follows self.old plain due → Follows self.new plain due }
        ensures held { held self.new ≤ held self.old }
        ensures left { left self.new ≤ left self.old }
    {
        if !self.told.in_text {
            self.cutter.find();
        }
    }

    /// Makes the session's next move. It says its greeting, or the reply to the answer of its call, or takes
    /// the next unit of what was fed, if one is whole: after a 354 a text, through the first line that is one
    /// period, else a command line through its CRLF. What that leads to is what the definition of a session
    /// says (RFC 5321, sections 3.3 and 4.1.4): octets that are appended to `out`, or a call. Where it waits, is
    /// idle or has ended, it does nothing. What it holds of its client while it is idle is bounded.
    ///
    /// # Errors
    ///
    /// Out of memory alone; the session and `out` are then as before.
    pub fn next(
        &mut self,
        alloc: Global,
        plan: &Plan,
        out: &mut Vec<u8>,
    ) -> Result<Move, AllocError>
        ensures ok { IfOk result (λ did. (octets : List ℕ) × (out.new.items ≡ out.old.items ++ octets) × Moved plan.now self.old did octets self.new) }
        ensures err { OnErr result ((self.new ≡ self.old) × (out.new.items ≡ out.old.items)) }
    {
        match self.turn {
            Turn::Greets => self.say(alloc, Reply::Ready, out),
            Turn::Replies(reply) => self.say(alloc, reply, out),
            Turn::Waits => Ok(Move::Wait),
            Turn::Ended => Ok(Move::End),
            Turn::Hears if self.told.in_text => self.hear_text(alloc, out),
            Turn::Hears => self.hear_line(alloc, plan, out),
        }
    }

    // Says what is to be said before it hears on.
    fn say(&mut self, alloc: Global, reply: Reply, out: &mut Vec<u8>) -> Result<Move, AllocError>
        requires { IsDue self.old.turn reply }
        ensures ok { IfOk result (λ did. (octets : List ℕ) × (out.new.items ≡ out.old.items ++ octets) × ((plan : Plans) → Moved plan self.old did octets self.new)) }
        ensures err { OnErr result ((self.new ≡ self.old) × (out.new.items ≡ out.old.items)) }
    {
        reply.line_into(alloc, self.node, out)?;
        self.turn = Turn::Hears;
        Ok(Move::Said)
    }

    // Hears the next command line, if one is whole.
    fn hear_line(
        &mut self,
        alloc: Global,
        plan: &Plan,
        out: &mut Vec<u8>,
    ) -> Result<Move, AllocError>
        requires turn { self.old.turn ≡ Turn.Hears }
        requires outside { self.old.told.in_text ≡ false }
        ensures ok { IfOk result (λ did. (octets : List ℕ) × (out.new.items ≡ out.old.items ++ octets) × Moved plan.now self.old did octets self.new) }
        ensures err { OnErr result ((self.new ≡ self.old) × (out.new.items ≡ out.old.items)) }
    {
        match self.cutter.find() {
            None => Ok(Move::Idle),
            Some(Line::Long(length)) => {
                Reply::LineTooLong.line_into(alloc, self.node, out)?;
                self.cutter.take(Line::Long(length));
                Ok(Move::Said)
            }
            Some(Line::Whole(length)) => {
                let line = &self.cutter.rest()[..length];
                let heard = self.told.hear(alloc, plan, self.node, line, out)?;
                self.cutter.take(Line::Whole(length));
                self.turn = turn_behind(heard);
                Ok(Move::Said)
            }
        }
    }

    // Reads on in a text, and hears it where it ends.
    fn hear_text(&mut self, alloc: Global, out: &mut Vec<u8>) -> Result<Move, AllocError>
        requires turn { self.old.turn ≡ Turn.Hears }
        requires inside { self.old.told.in_text ≡ true }
        ensures ok { IfOk result (λ did. (octets : List ℕ) × (out.new.items ≡ out.old.items ++ octets) × ((plan : Plans) → Moved plan self.old did octets self.new)) }
        ensures err { OnErr result ((self.new ≡ self.old) × (out.new.items ≡ out.old.items)) }
    {
        let undotter = self.undotter;
        let kept = self.text.kept();
        let count = self.cutter.rest().len();
        match self
            .text
            .read(alloc, &mut self.undotter, self.cutter.rest())?
        {
            Cut::More => {
                self.text.settle(alloc);
                self.cutter.skip(count);
                Ok(Move::Idle)
            }
            Cut::Ended(used) => match self.end_text(alloc, out) {
                Ok(did) => {
                    self.cutter.skip(used);
                    Ok(did)
                }
                Err(error) => {
                    self.undotter = undotter;
                    self.text.truncate(kept);
                    Err(error)
                }
            },
        }
    }

    // A text has ended: its message is to be stored, unless the text is too large. Unchanged on refusal.
    fn end_text(&mut self, alloc: Global, out: &mut Vec<u8>) -> Result<Move, AllocError>
        ensures ok { IfOk result (λ did. (octets : List ℕ) × (out.new.items ≡ out.old.items ++ octets)
            × ((plan : Plans) (lines : List (List ℕ)) → IsGivenText self.old.text (undotted lines) → EndsText plan self.old.node (talk_of self.old.told) lines did octets (talk_of self.new.told) self.old.turn self.new.turn)) }
        ensures text { OnOk result (self.new.text ≡ ([], false)) }
        ensures few { IfOk result IsOwnMove }
        ensures quiet { OnOk result (due_count self.new.turn ≤ due_count self.old.turn) }
        ensures same { (self.new.node ≡ self.old.node) × (self.new.cutter ≡ self.old.cutter) × (self.new.undotter ≡ self.old.undotter) }
        ensures err { OnErr result ((self.new ≡ self.old) × (out.new.items ≡ out.old.items)) }
    {
        if self.text.is_large() {
            Reply::TooLarge.line_into(alloc, self.node, out)?;
            self.told.end_text(alloc);
            self.text = Text::new(alloc);
            return Ok(Move::Said);
        }
        let helo = self.told.name(alloc)?;
        let extended = self.told.is_extended();
        let envelope = self.told.end_text(alloc);
        let text = std::mem::replace(&mut self.text, Text::new(alloc));
        self.turn = Turn::Waits;
        Ok(Move::Begin(Call::Deliver(Deliver {
            users: envelope.mailboxes,
            sender: envelope.sender,
            helo,
            extended,
            text: text.into_octets(),
        })))
    }

    /// Takes the answer to its call; `None` is a call that was given up. The next `next` says the reply to it.
    /// A session that waits for no answer takes none. It takes no memory.
    pub fn answer(&mut self, answer: Option<Answer>)
        ensures replies { (plain : Session) (state : TalkState) (call : calls.Call) (reply : List (List ℕ)) → Follows self.old plain Due.Nothing → plain.standing ≡ Waiting state call
            → IsReply call (given_answer answer) reply → Follows self.new plain (Due.Reply (given_answer answer)) }
        ensures left { left self.new + due_count self.old.turn ≡ left self.old + due_count self.new.turn }
    {
        if matches!(self.turn, Turn::Waits) {
            self.turn = Turn::Replies(reply_to(&answer));
        }
    }

    /// The node goes down: appends the last line of the session, which has then ended. What it had to say and
    /// what it waited for is given up.
    ///
    /// # Errors
    ///
    /// Out of memory alone; the session and `out` are then as before.
    pub fn node_down(&mut self, alloc: Global, out: &mut Vec<u8>) -> Result<(), AllocError>
        ensures ok { OnOk result ((octets : List ℕ) × (out.new.items ≡ out.old.items ++ octets)
            × ((plain : Session) (due : Due) → Follows self.old plain due → IsOn plain.standing → Fell (Follows self.new) plain octets)) }
        ensures err { OnErr result ((self.new ≡ self.old) × (out.new.items ≡ out.old.items)) }
    {
        Reply::Down.line_into(alloc, self.node, out)?;
        self.turn = Turn::Ended;
        Ok(())
    }

    /// Whether it has ended: its next move is `Move::End`.
    pub fn has_ended(&self) -> bool
        ensures { (plain : Session) (due : Due) → Follows self.now plain due → MatchBool result (HasEnded plain.standing) (IsOn plain.standing) }
    {
        matches!(self.turn, Turn::Ended)
    }

    /// How many octets of its client it holds: those that no unit has taken yet, and those of a text so far.
    pub fn held(&self) -> usize
        ensures { held self.now < 2 ^ 64 → result ≡ held self.now }
    {
        self.cutter.rest().len().saturating_add(self.text.kept())
    }
}

// The reply to what became of a message.
fn reply_to(answer: &Option<Answer>) -> Reply
    ensures { (mail : Mail) (n : ℕ) (reply : List (List ℕ)) → IsReply (calls.Call.Deliver mail) (given_answer answer.now) reply → reply ≡ one_line (text_of result n) }
{
    match answer {
        Some(Answer::Stored { .. }) => Reply::Stored,
        Some(Answer::Failed(_)) => Reply::NotStored,
        Some(Answer::Listed { .. }) => Reply::NotStored,
        Some(Answer::Wrong { .. }) => Reply::NotStored,
        Some(Answer::InUse { .. }) => Reply::NotStored,
        Some(Answer::NoProfile { .. }) => Reply::NotStored,
        Some(Answer::Part { .. }) => Reply::NotStored,
        Some(Answer::GoneAlready) => Reply::NotStored,
        Some(Answer::Dropped { .. }) => Reply::NotStored,
        None => Reply::NotStored,
    }
}
