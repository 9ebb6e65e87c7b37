//! A session of either protocol, which has said its greeting.
ghost use Rattle.std.specs.Prelude.{◌≡◌, ◌≤◌, ◌<◌, ◌++◌, [], ℕ, List, Option, OnOk, IfOk, MatchBool};
ghost use Rattle.session_model.specs.Calls as calls;
ghost use Rattle.session_model.specs.Calls.{IsReply};
ghost use Rattle.session_model.specs.Talk.{TalkState, IsOn};
ghost use Rattle.session_model.specs.Talk.Standing.{Waiting};
ghost use Rattle.session_model.specs.Sessions.{Session};
ghost use Rattle.call_tickets.specs.Moves.{Due, Moves, Replied, Fed, Fell, HasEnded, IsBusy};
ghost use Rattle.call_tickets.specs.Seen.{given_answer};

use call_tickets::{Answer, Call, Move};
use mail_base::Plan;
use pop_session::PopSession;
use smtp_session::SmtpSession;
use std::alloc::{AllocError, Global};

/// A session that has said its greeting.
pub trait Speaker {
    /// Which session of the definitions it is.
    ghost follows: { Self → Session → Due → Type 0 };

    /// How much is left for it to do.
    ghost left: { Self → ℕ };

    /// Takes up octets of its client.
    ///
    /// # Errors
    ///
    /// Out of memory alone.
    fn feed(&mut self, piece: &[u8]) -> Result<(), AllocError>
        ensures ok { OnOk result ((plain : Session) → follows self.old plain Due.Nothing → Fed (follows self.new) plain Due.Nothing piece.now) };

    /// Makes its next move, and appends what it says.
    ///
    /// # Errors
    ///
    /// Out of memory alone.
    fn next(&mut self, alloc: Global, plan: &Plan, out: &mut Vec<u8>) -> Result<Move, AllocError>
        ensures moved { IfOk result (λ move. (octets : List ℕ) × (out.new.items ≡ out.old.items ++ octets)
            × ((plain : Session) → follows self.old plain Due.Nothing → Moves (follows self.new) [] plan.now plain Due.Nothing move octets)) }
        ensures less { IfOk result (λ move. (IsBusy move → left self.new < left self.old) × (left self.new ≤ left self.old)) };

    /// Takes the answer to its call, or that it was given up, and appends its reply.
    ///
    /// # Errors
    ///
    /// Out of memory alone.
    fn reply(
        &mut self,
        alloc: Global,
        plan: &Plan,
        answer: Option<Answer>,
        out: &mut Vec<u8>,
    ) -> Result<(), AllocError>
        ensures replied { OnOk result ((octets : List ℕ) × (out.new.items ≡ out.old.items ++ octets)
            × ((plain : Session) (state : TalkState) (call : calls.Call) (reply : List (List ℕ)) → follows self.old plain Due.Nothing → plain.standing ≡ Waiting state call
            → IsReply call (given_answer answer) reply → Replied (follows self.new) plan.now plain (given_answer answer) octets)) }
        ensures less { OnOk result (left self.new ≤ left self.old) };

    /// Its node went down: appends its last line.
    ///
    /// # Errors
    ///
    /// Out of memory alone.
    fn node_down(&mut self, alloc: Global, out: &mut Vec<u8>) -> Result<(), AllocError>
        ensures fell { OnOk result ((octets : List ℕ) × (out.new.items ≡ out.old.items ++ octets)
            × ((plain : Session) → follows self.old plain Due.Nothing → IsOn plain.standing → Fell (follows self.new) plain octets)) };

    /// Whether it has ended.
    fn has_ended(&self) -> bool
        ensures { (plain : Session) → follows self.now plain Due.Nothing → MatchBool result (HasEnded plain.standing) (IsOn plain.standing) };
}

impl Speaker for SmtpSession {
    ghost use Rattle.smtp_session.specs.Follows as mail;

    ghost follows = { mail.Follows };

    ghost left = { mail.left };

    fn feed(&mut self, piece: &[u8]) -> Result<(), AllocError> {
        SmtpSession::feed(self, piece)
    }

    fn next(&mut self, alloc: Global, plan: &Plan, out: &mut Vec<u8>) -> Result<Move, AllocError> {
        SmtpSession::next(self, alloc, plan, out)
    }

    fn reply(
        &mut self,
        alloc: Global,
        plan: &Plan,
        answer: Option<Answer>,
        out: &mut Vec<u8>,
    ) -> Result<(), AllocError> {
        SmtpSession::answer(self, answer);
        SmtpSession::next(self, alloc, plan, out)?;
        Ok(())
    }

    fn node_down(&mut self, alloc: Global, out: &mut Vec<u8>) -> Result<(), AllocError> {
        SmtpSession::node_down(self, alloc, out)
    }

    fn has_ended(&self) -> bool {
        SmtpSession::has_ended(self)
    }
}

impl Speaker for PopSession {
    ghost use Rattle.pop_session.specs.Follows as reader;

    ghost follows = { reader.Follows };

    ghost left = { reader.left };

    fn feed(&mut self, piece: &[u8]) -> Result<(), AllocError> {
        PopSession::feed(self, piece)
    }

    fn next(&mut self, alloc: Global, plan: &Plan, out: &mut Vec<u8>) -> Result<Move, AllocError> {
        PopSession::next(self, alloc, plan, out)
    }

    fn reply(
        &mut self,
        alloc: Global,
        plan: &Plan,
        answer: Option<Answer>,
        out: &mut Vec<u8>,
    ) -> Result<(), AllocError> {
        PopSession::answer(self, answer);
        PopSession::next(self, alloc, plan, out)?;
        Ok(())
    }

    fn node_down(&mut self, alloc: Global, out: &mut Vec<u8>) -> Result<(), AllocError> {
        PopSession::node_down(self, alloc, out)
    }

    fn has_ended(&self) -> bool {
        PopSession::has_ended(self)
    }
}
