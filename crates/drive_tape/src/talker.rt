// One session of a tape: it speaks SMTP or POP3.
ghost use Rattle.std.specs.Prelude.{◌≡◌, ◌≤◌, ◌<◌, ◌++◌, [], ℕ, List, Option, OnOk, IfOk, MatchBool};
ghost use Rattle.mail_model.specs.Lines.{HasNoCrlf, sent_line};
ghost use Rattle.session_model.specs.Calls as calls;
ghost use Rattle.session_model.specs.Calls.{IsReply};
ghost use Rattle.session_model.specs.Talk.{TalkState, IsOn, entered_as};
ghost use Rattle.session_model.specs.Talk.Standing.{Waiting};
ghost use Rattle.session_model.specs.Sessions.{Session, exchanges_of};
ghost use Rattle.session_model.specs.Acts.{opened_session, greeting_of};
ghost use Rattle.call_tickets.specs.Moves.{Due, Moves, Replied, Fed, HasEnded, IsBusy};
ghost use Rattle.call_tickets.specs.Seen.{given_answer};
ghost use Rattle.tape_lines.specs.Orders.{protocol_seen};
ghost use Rattle.drive_tape.specs.Kinds.{AsksNoLeave};
ghost use Rattle.drive_tape.specs.Leaving.{IsLeaveOf, AsksALeave};
ghost use Rattle.drive_tape.specs.Speakers.{Matches, Fell, talker_left};

use call_tickets::{Answer, Call, Move};
use mail_base::{NodeNo, Plan};
use pop_session::PopSession;
use session_speaker::Speaker;
use smtp_session::SmtpSession;
use std::alloc::{AllocError, Global};
use tape_lines::Protocol;

/// A session of a tape. It has said its greeting.
#[derive(Debug, Drop)]
pub(crate) enum Talker {
    /// It takes mail.
    Smtp(SmtpSession),
    /// It reads mail.
    Pop(PopSession),
}

impl Talker {
    /// Opens a session of this number at the node, which is in this boot, at these seconds, and appends its greeting.
    ///
    /// # Errors
    ///
    /// Out of memory alone.
    pub fn open(
        alloc: Global,
        protocol: Protocol,
        node: NodeNo,
        boot: u32,
        number: u64,
        seconds: u64,
        plan: &Plan,
        out: &mut Vec<u8>,
    ) -> Result<Talker, AllocError>
        ensures greets { OnOk result (out.new.items ≡ out.old.items ++ sent_line (greeting_of (protocol_seen protocol) node boot number seconds)) }
        ensures line { OnOk result (HasNoCrlf (greeting_of (protocol_seen protocol) node boot number seconds)) }
        ensures opened { IfOk result (λ talker. Matches talker (opened_session (protocol_seen protocol) node) Due.Nothing) }
    {
        match protocol {
            Protocol::Smtp => {
                let mut session = SmtpSession::new(alloc, node);
                session.next(alloc, plan, out)?;
                Ok(Talker::Smtp(session))
            }
            Protocol::Pop => {
                let mut session = PopSession::new(alloc, node, boot, number, seconds);
                session.next(alloc, plan, out)?;
                Ok(Talker::Pop(session))
            }
        }
    }

    /// Takes up octets of its client.
    ///
    /// # Errors
    ///
    /// Out of memory alone.
    pub fn feed(&mut self, octets: &[u8]) -> Result<(), AllocError>
        ensures ok { OnOk result ((plain : Session) → Matches self.old plain Due.Nothing → IsOn plain.standing → Fed (Matches self.new) plain Due.Nothing octets.now) }
    {
        match self {
            Talker::Smtp(session) => session.feed(octets),
            Talker::Pop(session) => session.feed(octets),
        }
    }

    /// Makes the session's next move, and appends what it says.
    ///
    /// # Errors
    ///
    /// Out of memory alone.
    pub fn next(
        &mut self,
        alloc: Global,
        plan: &Plan,
        out: &mut Vec<u8>,
    ) -> Result<Move, AllocError>
        ensures moved { IfOk result (λ move. (octets : List ℕ) × (out.new.items ≡ out.old.items ++ octets)
            × ((plain : Session) → Matches self.old plain Due.Nothing → Moves (Matches self.new) [] plan.now plain Due.Nothing move octets)) }
        ensures less { IfOk result (λ move. (IsBusy move → talker_left self.new < talker_left self.old) × (talker_left self.new ≤ talker_left self.old)) }
        ensures asks { IfOk result AsksNoLeave }
    {
        match self {
            Talker::Smtp(session) => session.next(alloc, plan, out),
            Talker::Pop(session) => session.next(alloc, plan, out),
        }
    }

    /// Takes the answer to its call, or that it was given up, and appends its reply.
    ///
    /// # Errors
    ///
    /// Out of memory alone.
    pub fn reply(
        &mut self,
        alloc: Global,
        plan: &Plan,
        answer: Option<Answer>,
        out: &mut Vec<u8>,
    ) -> Result<(), AllocError>
        ensures replied { OnOk result ((octets : List ℕ) × (out.new.items ≡ out.old.items ++ octets)
            × ((plain : Session) (state : TalkState) (call : calls.Call) (reply : List (List ℕ)) → Matches self.old plain Due.Nothing → plain.standing ≡ Waiting state call
            → IsReply call (given_answer answer) reply → Replied (Matches self.new) plan.now plain (given_answer answer) octets)) }
        ensures less { OnOk result (talker_left self.new ≤ talker_left self.old) }
    {
        match self {
            Talker::Smtp(session) => session.reply(alloc, plan, answer, out),
            Talker::Pop(session) => session.reply(alloc, plan, answer, out),
        }
    }

    /// The node went down: appends its last line.
    ///
    /// # Errors
    ///
    /// Out of memory alone.
    pub fn node_down(&mut self, alloc: Global, out: &mut Vec<u8>) -> Result<(), AllocError>
        ensures fell { OnOk result ((octets : List ℕ) × (out.new.items ≡ out.old.items ++ octets)
            × ((plain : Session) → Matches self.old plain Due.Nothing → IsOn plain.standing → Fell (Matches self.new) plain octets)) }
    {
        match self {
            Talker::Smtp(session) => session.node_down(alloc, out),
            Talker::Pop(session) => session.node_down(alloc, out),
        }
    }

    /// Whether it has ended.
    pub fn has_ended(&self) -> bool
        ensures { (plain : Session) → Matches self.now plain Due.Nothing → MatchBool result (HasEnded plain.standing) (IsOn plain.standing) }
    {
        match self {
            Talker::Smtp(session) => session.has_ended(),
            Talker::Pop(session) => session.has_ended(),
        }
    }

    /// It ends: the leave of a session that was let in. It takes no memory.
    pub fn leave(self) -> Option<Call>
        ensures own { (plain : Session) → Matches self plain Due.Nothing → IsLeaveOf result (entered_as (exchanges_of plain)) }
        ensures leaves { AsksALeave result }
    {
        match self {
            Talker::Smtp(_) => None,
            Talker::Pop(session) => session.leave(),
        }
    }
}
