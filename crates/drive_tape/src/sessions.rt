// All sessions of a tape, in order of `open`.
ghost use Rattle.std.specs.Prelude.{◌≡◌, ◌⊎◌, ◌+◌, ◌-◌, ◌<◌, ◌≤◌, ◌∷◌, ◌++◌, [], List, ℕ, true, false, length, OnOk, IfOk, IfSome, if◌then◌else◌, Option, Some, None, slice_get, slice_set, MatchBool};
ghost use Rattle.mail_model.specs.Lines.{HasNoCrlf, sent_line};
ghost use Rattle.session_model.specs.Calls as calls;
ghost use Rattle.session_model.specs.Calls.{IsReply};
ghost use Rattle.session_model.specs.Talk.{TalkState, IsOn, entered_as};
ghost use Rattle.session_model.specs.Talk.Standing.{Waiting, EndedClosed};
ghost use Rattle.session_model.specs.Sessions.{Session, exchanges_of};
ghost use Rattle.session_model.specs.Acts.{opened_session, greeting_of};
ghost use Rattle.call_tickets.specs.Moves.{Due, HasEnded, IsBusy};
ghost use Rattle.call_tickets.specs.Seen.{given_answer};
ghost use Rattle.tape_lines.specs.Orders.{protocol_seen};
ghost use Rattle.drive_tape.specs.Kinds.{AsksNoLeave};
ghost use Rattle.drive_tape.specs.Leaving.{IsLeaveOf, AsksALeave, EndsInLeave};
ghost use Rattle.drive_tape.specs.Talks.{Converse, SessionIsFound};
ghost use Rattle.drive_tape.specs.Speakers.{Matches};
ghost use Rattle.drive_tape.specs.Moving.{MovesTo, RepliesTo, FallsTo, GoesOn, left_at, AreOver};

use crate::open_call::OpenCall;
use crate::talker::Talker;
use call_tickets::{Answer, Call, Move};
use mail_base::{NodeNo, Plan};
use std::alloc::{AllocError, Global};
use tape_lines::Protocol;

/// The sessions by number, from 1, with the calls that they wait for.
#[derive(Drop)]
pub(crate) struct Sessions {
    /// Session k is at place k - 1; none where it has ended.
    pub talkers: Vec<Option<Talker>>,
    /// The node that it is at.
    pub nodes: Vec<NodeNo>,
    /// Its call in progress, where it waits.
    pub calls: Vec<Option<OpenCall>>,
    /// How many of them have not ended.
    pub standing: u64,
    /// So many from the first on have ended and are not asked any more.
    pub over: usize,
}

/// How a session goes on after what it said.
#[derive(Debug, Drop)]
pub(crate) enum After {
    /// It has not ended.
    Stays,
    /// It has ended, and asks this as it leaves.
    Ends(Option<Call>),
}

impl Sessions {
    /// No session was opened. It takes no memory.
    pub fn new(alloc: Global) -> Sessions
        ensures talkers { result.talkers.items ≡ [] }
        ensures nodes { result.nodes.items ≡ [] }
        ensures calls { result.calls.items ≡ [] }
        ensures standing { result.standing ≡ 0 }
        ensures over { result.over ≡ 0 }
    {
        Sessions {
            talkers: Vec::new(alloc),
            nodes: Vec::new(alloc),
            calls: Vec::new(alloc),
            standing: 0,
            over: 0,
        }
    }

    // The place of the session of this number, where there is one.
    fn place_of(&self, number: u64) -> Option<usize>
        ensures some { IfSome result (λ place. (number ≡ place + 1) × (place < length self.now.talkers.items)) }
        ensures none { result ≡ None → (number ≡ 0) ⊎ (length self.now.talkers.items < number) }
    {
        if number == 0 || number > self.talkers.len() as u64 {
            return None;
        }
        Some((number - 1) as usize)
    }

    // Whether the session at this place has not ended.
    fn is_on(&self, place: usize) -> bool
        requires within { place < length self.now.talkers.items }
        ensures { (sessions : List Session) (plain : Session) → Converse self.now.talkers.items sessions → slice_get sessions place ≡ Some plain
            → MatchBool result (IsOn plain.standing) (HasEnded plain.standing) }
    {
        match &self.talkers[place] {
            Some(talker) => !talker.has_ended(),
            None => false,
        }
    }

    /// The place of the session of this number, where it was opened and has not ended.
    pub fn find(&self, number: u64) -> Option<usize>
        ensures some { IfSome result (λ place. (number ≡ place + 1) × (place < length self.now.talkers.items)) }
        ensures found { (sessions : List Session) → Converse self.now.talkers.items sessions → SessionIsFound number result sessions }
    {
        match self.place_of(number) {
            Some(place) => { if self.is_on(place) { Some(place) } else { None } }
            None => None,
        }
    }

    /// One session more, with its greeting appended; the clock shows these seconds.
    ///
    /// # Errors
    ///
    /// Out of memory alone.
    pub fn open(
        &mut self,
        alloc: Global,
        plan: &Plan,
        protocol: Protocol,
        node: NodeNo,
        boot: u32,
        seconds: u64,
        out: &mut Vec<u8>,
    ) -> Result<(), AllocError>
        requires few { self.old.standing < 256 }
        ensures greets { OnOk result (out.new.items ≡ out.old.items ++ sent_line (greeting_of (protocol_seen protocol) node boot (length self.old.talkers.items + 1) seconds)) }
        ensures line { OnOk result (HasNoCrlf (greeting_of (protocol_seen protocol) node boot (length self.old.talkers.items + 1) seconds)) }
        ensures talks { OnOk result ((sessions : List Session) → Converse self.old.talkers.items sessions
            → Converse self.new.talkers.items (sessions ++ opened_session (protocol_seen protocol) node ∷ [])) }
        ensures nodes { OnOk result (self.new.nodes.items ≡ self.old.nodes.items ++ node ∷ []) }
        ensures calls { OnOk result (self.new.calls.items ≡ self.old.calls.items ++ None ∷ []) }
        ensures length { OnOk result (length self.new.talkers.items ≡ length self.old.talkers.items + 1) }
        ensures count { OnOk result (self.new.standing ≡ self.old.standing + 1) }
        ensures over { OnOk result (AreOver self.old.over self.old.talkers.items → AreOver self.new.over self.new.talkers.items) }
    {
        let number = self.talkers.len() as u64 + 1;
        let talker = Talker::open(alloc, protocol, node, boot, number, seconds, plan, out)?;
        self.talkers.push(Some(talker))?;
        self.nodes.push(node)?;
        self.calls.push(None)?;
        self.standing += 1;
        Ok(())
    }

    /// The session at this place takes up octets of its client.
    ///
    /// # Errors
    ///
    /// Out of memory alone.
    pub fn feed(&mut self, place: usize, octets: &[u8]) -> Result<(), AllocError>
        requires within { place < length self.old.talkers.items }
        ensures talks { OnOk result ((sessions : List Session) (plain : Session) → Converse self.old.talkers.items sessions → slice_get sessions place ≡ Some plain → IsOn plain.standing
            → Converse self.new.talkers.items (slice_set sessions place (record plain { octets = plain.octets ++ octets.now; rest = plain.rest ++ octets.now }))) }
        ensures nodes { self.new.nodes ≡ self.old.nodes }
        ensures calls { self.new.calls ≡ self.old.calls }
        ensures count { self.new.standing ≡ self.old.standing }
        ensures length { length self.new.talkers.items ≡ length self.old.talkers.items }
        ensures over { AreOver self.old.over self.old.talkers.items → AreOver self.new.over self.new.talkers.items }
    {
        match &mut self.talkers[place] {
            Some(talker) => talker.feed(octets),
            None => Ok(()),
        }
    }

    // How the session at this place goes on: if it has ended, one fewer stands.
    fn after(&mut self, place: usize) -> After
        requires within { place < length self.old.talkers.items }
        ensures goes_on { (sessions : List Session) (plain : Session) (talker : Talker) → slice_get self.old.talkers.items place ≡ Some (Some talker) → Matches talker plain Due.Nothing
            → Converse self.old.talkers.items (slice_set sessions place plain)
            → Converse self.new.talkers.items (slice_set sessions place plain) × GoesOn result plain self.old.standing self.new.standing }
        ensures nodes { self.new.nodes ≡ self.old.nodes }
        ensures calls { self.new.calls ≡ self.old.calls }
        ensures length { length self.new.talkers.items ≡ length self.old.talkers.items }
        ensures over { AreOver self.old.over self.old.talkers.items → AreOver self.new.over self.new.talkers.items }
        ensures less { left_at place self.new ≤ left_at place self.old }
        ensures leaves { EndsInLeave result }
    {
        if self.is_on(place) {
            return After::Stays;
        }
        self.standing = self.standing.saturating_sub(1);
        match self.talkers[place].take() {
            Some(talker) => After::Ends(talker.leave()),
            None => After::Ends(None),
        }
    }

    /// The next move of the session at this place, and how it goes on; what it says is appended.
    ///
    /// # Errors
    ///
    /// Out of memory alone.
    pub fn next(
        &mut self,
        alloc: Global,
        plan: &Plan,
        place: usize,
        out: &mut Vec<u8>,
    ) -> Result<(Move, After), AllocError>
        requires within { place < length self.old.talkers.items }
        requires empty { out.old.items ≡ [] }
        ensures moved { IfOk result (λ move. (sessions : List Session) (plain : Session) → Converse self.old.talkers.items sessions → slice_get sessions place ≡ Some plain
            → MovesTo plan.now sessions place plain move.0 move.1 out.new.items self.old.standing self.new) }
        ensures nodes { self.new.nodes ≡ self.old.nodes }
        ensures calls { self.new.calls ≡ self.old.calls }
        ensures length { length self.new.talkers.items ≡ length self.old.talkers.items }
        ensures over { AreOver self.old.over self.old.talkers.items → AreOver self.new.over self.new.talkers.items }
        ensures less { IfOk result (λ move. (IsBusy move.0 → left_at place self.new < left_at place self.old) × (left_at place self.new ≤ left_at place self.old)) }
        ensures asks { IfOk result (λ move. AsksNoLeave move.0 × EndsInLeave move.1) }
    {
        let did = match &mut self.talkers[place] {
            Some(talker) => talker.next(alloc, plan, out)?,
            None => return Ok((Move::End, After::Stays)),
        };
        match did {
            Move::Said => Ok((Move::Said, self.after(place))),
            Move::Begin(call) => Ok((Move::Begin(call), After::Stays)),
            Move::Wait => Ok((Move::Wait, After::Stays)),
            Move::Idle => Ok((Move::Idle, After::Stays)),
            Move::End => Ok((Move::End, After::Stays)),
        }
    }

    /// The session at this place, which waits, is answered, or told that its call was given up; its reply is appended. How
    /// it goes on.
    ///
    /// # Errors
    ///
    /// Out of memory alone.
    pub fn reply(
        &mut self,
        alloc: Global,
        plan: &Plan,
        place: usize,
        answer: Option<Answer>,
        out: &mut Vec<u8>,
    ) -> Result<After, AllocError>
        requires within { place < length self.old.talkers.items }
        requires empty { out.old.items ≡ [] }
        ensures replied { IfOk result (λ after. (sessions : List Session) (plain : Session) (state : TalkState) (call : calls.Call) (reply : List (List ℕ)) → Converse self.old.talkers.items sessions
            → slice_get sessions place ≡ Some plain → plain.standing ≡ Waiting state call → IsReply call (given_answer answer) reply
            → RepliesTo plan.now sessions place plain (given_answer answer) after out.new.items self.old.standing self.new) }
        ensures nodes { self.new.nodes ≡ self.old.nodes }
        ensures calls { self.new.calls ≡ self.old.calls }
        ensures length { length self.new.talkers.items ≡ length self.old.talkers.items }
        ensures over { AreOver self.old.over self.old.talkers.items → AreOver self.new.over self.new.talkers.items }
        ensures less { OnOk result (left_at place self.new ≤ left_at place self.old) }
        ensures leaves { IfOk result EndsInLeave }
    {
        match &mut self.talkers[place] {
            Some(talker) => talker.reply(alloc, plan, answer, out)?,
            None => return Ok(After::Stays),
        }
        Ok(self.after(place))
    }

    /// The node of the session at this place went down: its last line is appended, where it has not ended, and it has then.
    ///
    /// # Errors
    ///
    /// Out of memory alone.
    pub fn fall(
        &mut self,
        alloc: Global,
        place: usize,
        out: &mut Vec<u8>,
    ) -> Result<bool, AllocError>
        requires within { place < length self.old.talkers.items }
        requires calls { length self.old.calls.items ≡ length self.old.talkers.items }
        requires empty { out.old.items ≡ [] }
        ensures fell { IfOk result (λ fell. (sessions : List Session) (plain : Session) → Converse self.old.talkers.items sessions → slice_get sessions place ≡ Some plain
            → FallsTo sessions place plain fell out.new.items self.old.standing self.new) }
        ensures nodes { self.new.nodes ≡ self.old.nodes }
        ensures calls { OnOk result (self.new.calls.items ≡ slice_set self.old.calls.items place None) }
        ensures length { length self.new.talkers.items ≡ length self.old.talkers.items }
        ensures over { AreOver self.old.over self.old.talkers.items → AreOver self.new.over self.new.talkers.items }
        ensures call_length { length self.new.calls.items ≡ length self.old.calls.items }
        ensures left { (other : ℕ) → left_at other self.new ≤ left_at other self.old }
    {
        self.calls[place] = None;
        match self.talkers[place].take() {
            Some(mut talker) => {
                if talker.has_ended() {
                    return Ok(false);
                }
                talker.node_down(alloc, out)?;
                self.standing = self.standing.saturating_sub(1);
                Ok(true)
            }
            None => Ok(false),
        }
    }

    /// Passes over those from the first on that have ended. The place where the others begin.
    pub fn pass_over(&mut self) -> usize
        ensures over { AreOver self.old.over self.old.talkers.items → AreOver result self.old.talkers.items }
        ensures others { self.new ≡ record self.old { over = result } }
    {
        let mut over = self.over;
        while over < self.talkers.len() && self.talkers[over].is_none() {
            over += 1;
        }
        self.over = over;
        over
    }

    /// The client of the session at this place, which has not ended, closed it. What it asks as it leaves.
    pub fn close(&mut self, place: usize) -> Option<Call>
        requires within { place < length self.old.talkers.items }
        ensures closed { (sessions : List Session) (plain : Session) → Converse self.old.talkers.items sessions → slice_get sessions place ≡ Some plain → IsOn plain.standing
            → IsLeaveOf result (entered_as (exchanges_of plain)) × Converse self.new.talkers.items (slice_set sessions place (record plain { standing = EndedClosed })) }
        ensures nodes { self.new.nodes ≡ self.old.nodes }
        ensures calls { self.new.calls ≡ self.old.calls }
        ensures count { self.new.standing ≡ self.old.standing - 1 }
        ensures length { length self.new.talkers.items ≡ length self.old.talkers.items }
        ensures over { AreOver self.old.over self.old.talkers.items → AreOver self.new.over self.new.talkers.items }
        ensures leaves { AsksALeave result }
    {
        self.standing = self.standing.saturating_sub(1);
        match self.talkers[place].take() {
            Some(talker) => talker.leave(),
            None => None,
        }
    }
}
