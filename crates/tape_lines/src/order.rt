// The run lines of a tape.
ghost use Rattle.std.specs.Prelude.{◌≡◌, codes, option_and_then, IfOk};
ghost use Rattle.std.specs.Option.{option_map};
ghost use Rattle.mail_model.specs.Tape as tape;
ghost use Rattle.mail_model.specs.Tape.{strip, open_line, say_line, hex_octets, feed_line, close_line, giveup_line, end_line, cluster_order_of, order_of, tape_order};
ghost use Rattle.tape_lines.specs.Orders.{protocol_seen, order_seen};

use crate::cluster_order::{ClusterOrder, cluster_order};
use crate::protocol::Protocol;
use crate::words::{strip, tape_line};
use hex::FromHexError;
use line_words::{behind_word, first_word, number};
use std::alloc::{AllocError, Global};

/// A run line. Its numbers are as the tape gives them, below 2^64: whether there is such a node or session is not asked
/// here.
#[derive(Debug, Drop, PartialEq, Eq)]
pub enum Order<'a> {
    /// A session is opened at a node.
    Open { protocol: Protocol, node: u64 },
    /// A session hears the text with its CRLF.
    Say { session: u64, text: &'a [u8] },
    /// A session hears these octets and no more: one at least, and maybe a part of a line.
    Feed { session: u64, octets: Vec<u8> },
    /// A session is closed.
    Close { session: u64 },
    /// The call that a session waits for is given up.
    GiveUp { session: u64 },
    /// The cluster itself is moved.
    Moves(ClusterOrder),
    /// The tape ends.
    End,
}

fn open_at(protocol: Protocol, rest: &[u8]) -> Option<Order<'_>>
    ensures { option_map order_seen result ≡ open_line (protocol_seen protocol) rest.now }
{
    Some(Order::Open {
        protocol,
        node: number(rest)?,
    })
}

fn say_to(rest: &[u8]) -> Option<Order<'_>>
    ensures { option_map order_seen result ≡ say_line rest.now }
{
    Some(Order::Say {
        session: number(first_word(rest))?,
        text: behind_word(rest),
    })
}

// The octets that the text spells. Out of memory alone is an error: other faults mean that it spells none.
fn hex_octets(alloc: Global, text: &[u8]) -> Result<Option<Vec<u8>>, AllocError>
    ensures { IfOk result (λ octets. option_map (λ held. held.items) octets ≡ hex_octets text.now) }
{
    if text.is_empty() {
        return Ok(None);
    }
    match hex::decode(alloc, text) {
        Ok(octets) => Ok(Some(octets)),
        Err(FromHexError::OutOfMemory) => Err(AllocError),
        Err(
            FromHexError::OddLength
            | FromHexError::InvalidHexCharacter { .. }
            | FromHexError::InvalidStringLength,
        ) => Ok(None),
    }
}

fn feed_to(alloc: Global, rest: &[u8]) -> Result<Option<Order<'_>>, AllocError>
    ensures { IfOk result (λ order. option_map order_seen order ≡ feed_line rest.now) }
{
    let Some(session) = number(first_word(rest)) else {
        return Ok(None);
    };
    match hex_octets(alloc, behind_word(rest))? {
        Some(octets) => Ok(Some(Order::Feed { session, octets })),
        None => Ok(None),
    }
}

fn close_at(rest: &[u8]) -> Option<Order<'_>>
    ensures { option_map order_seen result ≡ close_line rest.now }
{
    Some(Order::Close {
        session: number(rest)?,
    })
}

fn give_up_at(rest: &[u8]) -> Option<Order<'_>>
    ensures { option_map order_seen result ≡ giveup_line rest.now }
{
    Some(Order::GiveUp {
        session: number(rest)?,
    })
}

fn end_at(rest: &[u8]) -> Option<Order<'_>>
    ensures { option_map order_seen result ≡ end_line rest.now }
{
    if !rest.is_empty() {
        return None;
    }
    Some(Order::End)
}

fn opens_smtp(line: &[u8]) -> Option<Order<'_>>
    ensures { option_map order_seen result ≡ option_and_then (open_line tape.Protocol.Smtp) (strip (codes "open smtp ") line.now) }
{
    open_at(Protocol::Smtp, strip(b"open smtp ", line)?)
}

fn opens_pop(line: &[u8]) -> Option<Order<'_>>
    ensures { option_map order_seen result ≡ option_and_then (open_line tape.Protocol.Pop) (strip (codes "open pop ") line.now) }
{
    open_at(Protocol::Pop, strip(b"open pop ", line)?)
}

fn says(line: &[u8]) -> Option<Order<'_>>
    ensures { option_map order_seen result ≡ option_and_then say_line (strip (codes "say ") line.now) }
{
    say_to(strip(b"say ", line)?)
}

fn feeds(alloc: Global, line: &[u8]) -> Result<Option<Order<'_>>, AllocError>
    ensures { IfOk result (λ order. option_map order_seen order ≡ option_and_then feed_line (strip (codes "feed ") line.now)) }
{
    match strip(b"feed ", line) {
        Some(rest) => feed_to(alloc, rest),
        None => Ok(None),
    }
}

fn closes(line: &[u8]) -> Option<Order<'_>>
    ensures { option_map order_seen result ≡ option_and_then close_line (strip (codes "close ") line.now) }
{
    close_at(strip(b"close ", line)?)
}

fn gives_up(line: &[u8]) -> Option<Order<'_>>
    ensures { option_map order_seen result ≡ option_and_then giveup_line (strip (codes "giveup ") line.now) }
{
    give_up_at(strip(b"giveup ", line)?)
}

fn moves(alloc: Global, line: &[u8]) -> Result<Option<Order<'_>>, AllocError>
    ensures { IfOk result (λ order. option_map order_seen order ≡ cluster_order_of line.now) }
{
    match cluster_order(alloc, line)? {
        Some(order) => Ok(Some(Order::Moves(order))),
        None => Ok(None),
    }
}

fn ends(line: &[u8]) -> Option<Order<'_>>
    ensures { option_map order_seen result ≡ option_and_then end_line (strip (codes "end") line.now) }
{
    end_at(strip(b"end", line)?)
}

fn spelt_order(alloc: Global, line: &[u8]) -> Result<Option<Order<'_>>, AllocError>
    ensures { IfOk result (λ order. option_map order_seen order ≡ order_of line.now) }
{
    if let Some(order) = opens_smtp(line) {
        return Ok(Some(order));
    }
    if let Some(order) = opens_pop(line) {
        return Ok(Some(order));
    }
    if let Some(order) = says(line) {
        return Ok(Some(order));
    }
    if let Some(order) = feeds(alloc, line)? {
        return Ok(Some(order));
    }
    if let Some(order) = closes(line) {
        return Ok(Some(order));
    }
    if let Some(order) = gives_up(line) {
        return Ok(Some(order));
    }
    if let Some(order) = moves(alloc, line)? {
        return Ok(Some(order));
    }
    Ok(ends(line))
}

/// The run line that stands on the tape, given without its LF; nothing where it is no run line. Only `feed`, `widen` and
/// `maps` take memory: an octet for two digits, and a name.
///
/// # Errors
///
/// Out of memory alone, for the octets of `feed` and the name of `widen` or `maps`.
pub fn read_order(alloc: Global, raw: &[u8]) -> Result<Option<Order<'_>>, AllocError>
    ensures { IfOk result (λ order. option_map order_seen order ≡ tape_order raw.now) }
{
    match tape_line(raw) {
        Some(line) => spelt_order(alloc, line),
        None => Ok(None),
    }
}
