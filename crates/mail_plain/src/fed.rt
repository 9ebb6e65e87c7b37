// The octets that a tape sends to a session.
ghost use Rattle.std.specs.Prelude.{◌≡◌, Some, IfOk};
ghost use Rattle.mail_model.specs.Lines.{sent_line};
ghost use Rattle.mail_model.specs.Tape.{tape_order};
ghost use Rattle.mail_model.specs.Told.{fed_by, sent};
ghost use Rattle.mail_model.specs.Plain.{lists_of};
ghost use Rattle.tape_lines.specs.Orders.{order_seen};

use std::alloc::{AllocError, Global};
use tape_lines::{Order, read_order};

fn said(alloc: Global, text: &[u8]) -> Result<Vec<u8>, AllocError>
    ensures { IfOk result (λ octets. octets.items ≡ sent_line text.now) }
{
    let mut octets = Vec::from_slice(alloc, text)?;
    octets.extend_from_slice(b"\r\n")?;
    Ok(octets)
}

fn fed_by(alloc: Global, wanted: u64, order: &Order<'_>) -> Result<Vec<u8>, AllocError>
    ensures { IfOk result (λ octets. octets.items ≡ fed_by wanted (Some (order_seen order.now))) }
{
    match order {
        Order::Say { session, text } if *session == wanted => said(alloc, text),
        Order::Feed { session, octets } if *session == wanted => Vec::from_slice(alloc, octets),
        Order::Say { .. }
        | Order::Feed { .. }
        | Order::Open { .. }
        | Order::Close { .. }
        | Order::GiveUp { .. }
        | Order::Moves(_)
        | Order::End => Ok(Vec::new(alloc)),
    }
}

fn fed_in(alloc: Global, wanted: u64, line: &[u8]) -> Result<Vec<u8>, AllocError>
    ensures { IfOk result (λ octets. octets.items ≡ fed_by wanted (tape_order line.now)) }
{
    match read_order(alloc, line)? {
        Some(order) => fed_by(alloc, wanted, &order),
        None => Ok(Vec::new(alloc)),
    }
}

/// All octets that the run lines of a tape send to the session: of `say` its text with CRLF, and of `feed` what its digits spell.
///
/// # Errors
///
/// Out of memory alone.
pub fn sent(alloc: Global, session: u64, lines: &[Vec<u8>]) -> Result<Vec<u8>, AllocError>
    ensures { IfOk result (λ octets. octets.items ≡ sent session (lists_of lines.now)) }
{
    let mut octets = Vec::new(alloc);
    for line in lines {
        octets.extend_from_slice(&fed_in(alloc, session, line)?)?;
    }
    Ok(octets)
}
