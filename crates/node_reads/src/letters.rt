//! Letters of calls that read.
ghost use Rattle.std.specs.Prelude.{◌≡◌, ◌∷◌, [], Some, IfOk};
ghost use Rattle.mail_base.specs.Bodies.{body_seen};
ghost use Rattle.object_model.specs.Letters.Body.{ListAsk};
ghost use Rattle.cluster_model.specs.Rules.{answer, letters_to};
ghost use Rattle.login_model.specs.Rules.{ask, unlock};
ghost use Rattle.node_reads.specs.Readings.{listed};

use crate::under::Under;
use mail_base::{Body, Letter, Name, NodeNo, Sequence, Ticket};
use std::alloc::{AllocError, Global};

/// No letters. It takes no memory.
pub(crate) fn no_letters(alloc: Global) -> Sequence<Letter>
    ensures { result ≡ [] }
{
    Sequence::new(alloc)
}

/// A letter of the call to another node.
pub(crate) fn ask(u: &Under, to: NodeNo, body: Body) -> Letter
    ensures { result ≡ ask u.now to (body_seen body) }
{
    Letter {
        from: u.own,
        to,
        epoch: u.epoch,
        ticket: Some(u.number),
        body,
    }
}

// Asks a node for the user's messages.
fn list_ask(u: &Under, to: NodeNo, user: &Name) -> Result<Letter, AllocError>
    ensures { IfOk result (λ letter. letter ≡ ask u.now to (ListAsk user.now)) }
{
    let user = user.copy()?;
    Ok(ask(u, to, Body::ListAsk { user }))
}

/// Each of these nodes is asked for the user's messages.
pub(crate) fn ask_lists(
    alloc: Global,
    u: &Under,
    to: &[NodeNo],
    user: &Name,
) -> Result<Sequence<Letter>, AllocError>
    ensures { IfOk result (λ letters. letters ≡ letters_to u.now.own u.now.epoch (Some u.now.number) to.now (ListAsk user.now)) }
{
    let mut letters = no_letters(alloc);
    for node in to {
        letters.push(list_ask(u, *node, user)?)?;
    }
    Ok(letters)
}

/// The lock of a login goes back to the manager that gave it; where that is the own node no letter is needed.
pub(crate) fn unlock(u: &Under, user: Name, manager: NodeNo) -> Option<Letter>
    ensures { listed result ≡ unlock u.now user u.now.number manager }
{
    if manager == u.own {
        return None;
    }
    Some(Letter {
        from: u.own,
        to: manager,
        epoch: u.epoch,
        ticket: None,
        body: Body::Unlock {
            user,
            login: u.number,
        },
    })
}

fn copy_ticket(ticket: &Option<Ticket>) -> Option<Ticket>
    ensures { result ≡ ticket.now }
{
    match ticket {
        Some(ticket) => Some(*ticket),
        None => None,
    }
}

/// The letter that answers this one.
pub(crate) fn answer(letter: &Letter, body: Body) -> Letter
    ensures { result ≡ answer letter.now (body_seen body) }
{
    Letter {
        from: letter.to,
        to: letter.from,
        epoch: letter.epoch,
        ticket: copy_ticket(&letter.ticket),
        body,
    }
}
