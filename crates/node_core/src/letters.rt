//! Letters that a node sends.
ghost use Rattle.std.specs.Prelude.{◌≡◌, ◌∷◌, [], map, IfOk};
ghost use Rattle.mail_base.specs.Bodies.{body_seen};
ghost use Rattle.cluster_model.specs.Rules.{answer, letters_to};
ghost use Rattle.node_core.specs.Answering.{answers_to};

use mail_base::{Body, EpochId, Ids, Letter, NodeNo, Sequence, StrikeMark, Ticket};
use std::alloc::{AllocError, Global};

fn copy_ticket(ticket: &Option<Ticket>) -> Option<Ticket>
    ensures { result ≡ ticket.now }
{
    match ticket {
        Some(ticket) => Some(Ticket::new(ticket.node, ticket.boot, ticket.seq)),
        None => None,
    }
}

fn copy_epoch(epoch: &EpochId) -> EpochId
    ensures { result ≡ epoch.now }
{
    EpochId::new(epoch.count, epoch.node)
}

/// No letters. It takes no memory.
pub(crate) fn no_letters(alloc: Global) -> Sequence<Letter>
    ensures { result ≡ [] }
{
    Sequence::new(alloc)
}

// The letter that answers this one.
fn answer(letter: &Letter, body: Body) -> Letter
    ensures { result ≡ answer letter.now (body_seen body) }
{
    Letter {
        from: letter.to,
        to: letter.from,
        epoch: copy_epoch(&letter.epoch),
        ticket: copy_ticket(&letter.ticket),
        body,
    }
}

fn one_answer(alloc: Global, letter: &Letter, body: Body) -> Result<Sequence<Letter>, AllocError>
    ensures { IfOk result (λ letters. letters ≡ answer letter.now (body_seen body) ∷ []) }
{
    let mut letters = no_letters(alloc);
    letters.push(answer(letter, body))?;
    Ok(letters)
}

// The messages of these deletions.
fn ids_of(alloc: Global, marks: &[StrikeMark]) -> Result<Ids, AllocError>
    ensures { IfOk result (λ ids. ids ≡ map (λ mark. mark.id) marks.now) }
{
    let mut ids = Ids::new(alloc);
    for mark in marks {
        ids.push(mark.id)?;
    }
    Ok(ids)
}

/// What a node answers to a letter that it hears and that is to be confirmed.
pub(crate) fn answers_to(alloc: Global, letter: &Letter) -> Result<Sequence<Letter>, AllocError>
    ensures { IfOk result (λ letters. letters ≡ answers_to letter.now letter.now.body) }
{
    match &letter.body {
        Body::File { id, .. } => one_answer(alloc, letter, Body::Filed { id: *id }),
        Body::Strike { user, marks } => {
            let user = user.copy()?;
            let ids = ids_of(alloc, marks.as_slice())?;
            one_answer(alloc, letter, Body::StrikeTold { user, ids })
        }
        Body::Push { key, state, .. } => {
            let key = key.copy()?;
            let state = state.copy()?;
            one_answer(alloc, letter, Body::PushAck { key, state })
        }
        Body::Filed { .. }
        | Body::LoginAsk { .. }
        | Body::LoginTold { .. }
        | Body::ListAsk { .. }
        | Body::ListTold { .. }
        | Body::FetchAsk { .. }
        | Body::FetchTold { .. }
        | Body::StrikeTold { .. }
        | Body::Unlock { .. }
        | Body::PushAck { .. }
        | Body::Retired { .. }
        | Body::Group { .. }
        | Body::Join { .. }
        | Body::Install { .. }
        | Body::Report { .. }
        | Body::ReportAck { .. } => Ok(no_letters(alloc)),
    }
}

// One letter with a copy of the body.
fn letter_to(
    own: NodeNo,
    epoch: &EpochId,
    ticket: &Option<Ticket>,
    to: NodeNo,
    body: &Body,
) -> Result<Letter, AllocError>
    ensures { IfOk result (λ letter. letter ≡ record { from = own; to = to; epoch = epoch.now; ticket = ticket.now; body = body_seen body.now }) }
{
    let body = body.copy()?;
    Ok(Letter {
        from: own,
        to,
        epoch: copy_epoch(epoch),
        ticket: copy_ticket(ticket),
        body,
    })
}

/// The same to each of these nodes.
pub(crate) fn letters_to(
    alloc: Global,
    own: NodeNo,
    epoch: &EpochId,
    ticket: &Option<Ticket>,
    to: &[NodeNo],
    body: &Body,
) -> Result<Sequence<Letter>, AllocError>
    ensures { IfOk result (λ letters. letters ≡ letters_to own epoch.now ticket.now to.now (body_seen body.now)) }
{
    let mut letters = no_letters(alloc);
    for node in to {
        letters.push(letter_to(own, epoch, ticket, *node, body)?)?;
    }
    Ok(letters)
}
