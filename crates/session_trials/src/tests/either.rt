// A session of either kind, by the calls that both have.
use call_tickets::{Answer, Call, Move};
use mail_base::{Name, NodeNo, Plan, Ticket};
use pop_session::PopSession;
use smtp_session::SmtpSession;
use std::alloc::{AllocError, Global};

#[derive(Drop)]
pub(super) enum Either {
    Smtp(SmtpSession),
    Pop(PopSession),
}

fn pop(alloc: Global, node: NodeNo) -> PopSession {
    PopSession::new(alloc, node, 3, 12, 1_000_000_000)
}

// Whose login the session asks to end, and which; none where it asks for nothing.
fn left(session: PopSession) -> Option<(Name, Ticket)> {
    match session.leave() {
        Some(Call::Leave { user, login, .. }) => Some((user, login)),
        _ => None,
    }
}

impl Either {
    pub(super) fn smtp(alloc: Global, node: NodeNo) -> Either {
        Either::Smtp(SmtpSession::new(alloc, node))
    }

    pub(super) fn pop(alloc: Global, node: NodeNo) -> Either {
        Either::Pop(pop(alloc, node))
    }

    pub(super) fn feed(&mut self, piece: &[u8]) -> Result<(), AllocError> {
        match self {
            Either::Smtp(session) => session.feed(piece),
            Either::Pop(session) => session.feed(piece),
        }
    }

    pub(super) fn next(
        &mut self,
        alloc: Global,
        plan: &Plan,
        out: &mut Vec<u8>,
    ) -> Result<Move, AllocError> {
        match self {
            Either::Smtp(session) => session.next(alloc, plan, out),
            Either::Pop(session) => session.next(alloc, plan, out),
        }
    }

    pub(super) fn answer(&mut self, answer: Option<Answer>) {
        match self {
            Either::Smtp(session) => session.answer(answer),
            Either::Pop(session) => session.answer(answer),
        }
    }

    pub(super) fn node_down(&mut self, alloc: Global, out: &mut Vec<u8>) -> Result<(), AllocError> {
        match self {
            Either::Smtp(session) => session.node_down(alloc, out),
            Either::Pop(session) => session.node_down(alloc, out),
        }
    }

    // Another session takes its place, which begins.
    pub(super) fn leave(&mut self, alloc: Global, node: NodeNo) -> Option<(Name, Ticket)> {
        match self {
            Either::Smtp(_) => None,
            Either::Pop(session) => left(std::mem::replace(session, pop(alloc, node))),
        }
    }

    pub(super) fn has_ended(&self) -> bool {
        match self {
            Either::Smtp(session) => session.has_ended(),
            Either::Pop(session) => session.has_ended(),
        }
    }

    pub(super) fn held(&self) -> usize {
        match self {
            Either::Smtp(session) => session.held(),
            Either::Pop(session) => session.held(),
        }
    }
}
