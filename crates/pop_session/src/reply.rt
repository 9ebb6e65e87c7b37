// The replies of a session.
ghost use Rattle.std.specs.Prelude.{◌≡◌, ℕ, List, ◌++◌, ◌∷◌, [], flat_map, codes, IfOk, OnOk, OnErr};
ghost use Rattle.mail_model.specs.Lines.{sent_line};
ghost use Rattle.mail_model.specs.PopReplies.{one_line, ready_text, down_text, size_line, id_line, octets_text, stat_text, deleted_text, listing_reply, capability_reply, shown_part, shown_text};
ghost use Rattle.mail_base.specs.Items.{item_seen};
ghost use Rattle.pop_session.specs.Slots.{slots_seen};
ghost use Rattle.pop_session.specs.Messages.{ShowsPartIn};

use crate::banner::Banner;
use crate::listing::Listing;
use crate::text::{with_number, with_text};
use crate::top::top;
use dot_text::dot_into;
use mail_base::{Item, NodeNo, Octets};
use std::alloc::{AllocError, Global};
use std::marker::Model;

/// The reply to a command line (RFC 1939, section 3): one line or several, without their CRLF, each after
/// the other. A contract sees the lines.
#[derive(Debug, Drop)]
pub(crate) struct Reply {
    held: Vec<Octets>,
}

impl Model for Reply {
    ghost use Rattle.std.specs.Prelude.{List, ℕ};

    ghost Value = { List (List ℕ) };

    ghost view = { λ r. r.held.items };
}

// What LIST shows of a message (RFC 1939, section 5).
fn size_line(alloc: Global, number: u64, item: &Item) -> Result<Vec<u8>, AllocError>
    ensures { IfOk result (λ line. line.items ≡ size_line number (item_seen item.now)) }
{
    let line = with_number(Vec::new(alloc), alloc, u128::from(number))?;
    with_number(with_text(line, b" ")?, alloc, u128::from(item.length))
}

// What UIDL shows of a message (RFC 1939, section 7).
fn id_line(alloc: Global, number: u64, item: &Item) -> Result<Vec<u8>, AllocError>
    ensures { IfOk result (λ line. line.items ≡ id_line number (item_seen item.now)) }
{
    let line = with_number(Vec::new(alloc), alloc, u128::from(number))?;
    with_text(with_text(line, b" ")?, item.id.id_text(alloc)?.as_bytes())
}

// The first line to RETR (RFC 1939, section 5).
fn octets_line(alloc: Global, octets: u128) -> Result<Vec<u8>, AllocError>
    ensures { IfOk result (λ line. line.items ≡ octets_text octets) }
{
    let line = with_number(b"+OK ".to_vec(alloc)?, alloc, octets)?;
    with_text(line, b" octets")
}

impl Reply {
    // The reply of this one line.
    fn of_line(alloc: Global, line: Vec<u8>) -> Result<Reply, AllocError>
        ensures { IfOk result (λ reply. reply ≡ one_line line.items) }
    {
        let mut reply = Reply {
            held: Vec::new(alloc),
        };
        reply.push(line)?;
        Ok(reply)
    }

    // One line more. Unchanged on refusal.
    fn push(&mut self, line: Vec<u8>) -> Result<(), AllocError>
        ensures ok { OnOk result (self.new ≡ self.old ++ line.items ∷ []) }
        ensures err { OnErr result (self.new ≡ self.old) }
    {
        self.held.push(Octets::from_vec(line))?;
        Ok(())
    }

    // One line more, which stays where it is too. Unchanged on refusal.
    fn push_copy(&mut self, alloc: Global, line: &[u8]) -> Result<(), AllocError>
        ensures ok { OnOk result (self.new ≡ self.old ++ line.now ∷ []) }
        ensures err { OnErr result (self.new ≡ self.old) }
    {
        self.push(line.to_vec(alloc)?)
    }

    // The lines, each with its CRLF.
    fn octets(&self, alloc: Global) -> Result<Vec<u8>, AllocError>
        ensures { IfOk result (λ octets. octets.items ≡ flat_map sent_line self.now) }
    {
        let mut octets = Vec::new(alloc);
        for line in &self.held {
            octets.extend_from_slice(line.as_slice())?;
            octets.extend_from_slice(b"\r\n")?;
        }
        Ok(octets)
    }

    /// Appends the lines, each with its CRLF.
    ///
    /// # Errors
    ///
    /// Out of memory alone; the octets are then as before.
    pub(crate) fn lines_into(&self, alloc: Global, out: &mut Vec<u8>) -> Result<(), AllocError>
        ensures ok { OnOk result (out.new.items ≡ out.old.items ++ flat_map sent_line self.now) }
        ensures err { OnErr result (out.new.items ≡ out.old.items) }
    {
        out.extend_from_slice(&self.octets(alloc)?)
    }

    /// The reply of this one line.
    pub(crate) fn said(alloc: Global, text: &[u8]) -> Result<Reply, AllocError>
        ensures { IfOk result (λ reply. reply ≡ one_line text.now) }
    {
        Reply::of_line(alloc, text.to_vec(alloc)?)
    }

    /// To DELE of the message of this number (RFC 1939, section 5).
    pub(crate) fn deleted(alloc: Global, number: u32) -> Result<Reply, AllocError>
        ensures { IfOk result (λ reply. reply ≡ one_line (deleted_text number)) }
    {
        let line = with_number(b"+OK message ".to_vec(alloc)?, alloc, u128::from(number))?;
        Reply::of_line(alloc, with_text(line, b" deleted")?)
    }

    /// To STAT (RFC 1939, section 5).
    #[tactic(auto, using(crate::proofs::Marks::unmarked_count, crate::proofs::Marks::unmarked_octets))]
    pub(crate) fn count(alloc: Global, listing: &Listing) -> Result<Reply, AllocError>
        ensures { IfOk result (λ reply. reply ≡ one_line (stat_text (slots_seen listing.now))) }
    {
        let line = with_number(b"+OK ".to_vec(alloc)?, alloc, listing.count() as u128)?;
        let line = with_number(with_text(line, b" ")?, alloc, listing.octets())?;
        Reply::of_line(alloc, line)
    }

    /// To LIST of one message (RFC 1939, section 5).
    pub(crate) fn size(alloc: Global, number: u32, item: &Item) -> Result<Reply, AllocError>
        ensures { IfOk result (λ reply. reply ≡ one_line (codes "+OK " ++ size_line number (item_seen item.now))) }
    {
        let line = size_line(alloc, u64::from(number), item)?;
        Reply::of_line(alloc, with_text(b"+OK ".to_vec(alloc)?, &line)?)
    }

    /// To UIDL of one message (RFC 1939, section 7).
    pub(crate) fn id(alloc: Global, number: u32, item: &Item) -> Result<Reply, AllocError>
        ensures { IfOk result (λ reply. reply ≡ one_line (codes "+OK " ++ id_line number (item_seen item.now))) }
    {
        let line = id_line(alloc, u64::from(number), item)?;
        Reply::of_line(alloc, with_text(b"+OK ".to_vec(alloc)?, &line)?)
    }

    /// To CAPA (RFC 2449, section 5).
    pub(crate) fn capabilities(alloc: Global) -> Result<Reply, AllocError>
        ensures { IfOk result (λ reply. reply ≡ capability_reply) }
    {
        let mut reply = Reply::said(alloc, b"+OK capabilities")?;
        reply.push_copy(alloc, b"TOP")?;
        reply.push_copy(alloc, b"USER")?;
        reply.push_copy(alloc, b"UIDL")?;
        reply.push_copy(alloc, b"PIPELINING")?;
        reply.push_copy(alloc, b"RESP-CODES")?;
        reply.push_copy(alloc, b".")?;
        Ok(reply)
    }

    /// To LIST of every message (RFC 1939, section 5).
    pub(crate) fn sizes(alloc: Global, listing: &Listing) -> Result<Reply, AllocError>
        ensures { IfOk result (λ reply. reply ≡ listing_reply (codes "+OK listing") size_line (slots_seen listing.now)) }
    {
        let mut reply = Reply::said(alloc, b"+OK listing")?;
        for (at, slot) in listing.slots().iter().enumerate() {
            if !slot.marked {
                reply.push(size_line(alloc, at as u64 + 1, &slot.item)?)?;
            }
        }
        reply.push_copy(alloc, b".")?;
        Ok(reply)
    }

    /// To UIDL of every message (RFC 1939, section 7).
    pub(crate) fn ids(alloc: Global, listing: &Listing) -> Result<Reply, AllocError>
        ensures { IfOk result (λ reply. reply ≡ listing_reply (codes "+OK unique ids") id_line (slots_seen listing.now)) }
    {
        let mut reply = Reply::said(alloc, b"+OK unique ids")?;
        for (at, slot) in listing.slots().iter().enumerate() {
            if !slot.marked {
                reply.push(id_line(alloc, at as u64 + 1, &slot.item)?)?;
            }
        }
        reply.push_copy(alloc, b".")?;
        Ok(reply)
    }
}

/// Appends the line that opens a session, with its CRLF (RFC 1939, section 4): the node and its boot, the
/// number of the session, and the seconds at its opening.
///
/// # Errors
///
/// Out of memory alone; the octets are then as before.
pub(crate) fn ready_into(
    out: &mut Vec<u8>,
    alloc: Global,
    node: NodeNo,
    boot: u32,
    number: u64,
    seconds: u64,
) -> Result<(), AllocError>
    ensures ok { OnOk result (out.new.items ≡ out.old.items ++ sent_line (ready_text node boot number seconds)) }
    ensures err { OnErr result (out.new.items ≡ out.old.items) }
{
    let line = with_number(b"+OK node".to_vec(alloc)?, alloc, u128::from(node.number()))?;
    let line = with_text(line, b" ready ")?;
    let banner = Banner {
        node,
        boot,
        number,
        seconds,
    };
    line_into(out, &with_text(line, &banner.text(alloc)?)?)
}

/// Appends the last line of a session whose node goes down, with its CRLF.
///
/// # Errors
///
/// Out of memory alone; the octets are then as before.
pub(crate) fn down_into(out: &mut Vec<u8>, alloc: Global, node: NodeNo) -> Result<(), AllocError>
    ensures ok { OnOk result (out.new.items ≡ out.old.items ++ sent_line (down_text node)) }
    ensures err { OnErr result (out.new.items ≡ out.old.items) }
{
    let line = b"-ERR [SYS/TEMP] node".to_vec(alloc)?;
    let line = with_number(line, alloc, u128::from(node.number()))?;
    line_into(out, &with_text(line, b" down")?)
}

/// Appends the line with its CRLF.
///
/// # Errors
///
/// Out of memory alone; the octets are then as before.
pub(crate) fn line_into(out: &mut Vec<u8>, line: &[u8]) -> Result<(), AllocError>
    ensures ok { OnOk result (out.new.items ≡ out.old.items ++ sent_line line.now) }
    ensures err { OnErr result (out.new.items ≡ out.old.items) }
{
    let kept = out.len();
    out.extend_from_slice(line)?;
    let done = out.extend_from_slice(b"\r\n");
    if done.is_err() {
        out.truncate(kept);
    }
    done
}

// What is shown of a message: all of it, or its header and so many lines after it.
fn shown(octets: &[u8], lines: Option<u32>) -> &[u8]
    ensures { result.now ≡ shown_part lines octets.now }
{
    match lines {
        None => octets,
        Some(lines) => top(octets, lines),
    }
}

// The first line of the reply to RETR or TOP, of a message of so many octets.
fn shown_line(alloc: Global, lines: Option<u32>, octets: u128) -> Result<Vec<u8>, AllocError>
    ensures { IfOk result (λ line. line.items ≡ shown_text lines octets) }
{
    match lines {
        None => octets_line(alloc, octets),
        Some(_) => b"+OK top".to_vec(alloc),
    }
}

/// Appends the reply to RETR or TOP of a message of these octets (RFC 1939, sections 3, 5 and 7): for RETR how
/// many they are; its lines, or those of its header and so many more, a period that leads one doubled; and the
/// line that is one period. A line is what stands before CRLF; a lone CR or LF is an octet of it. What follows the
/// last CRLF is a line too, where it is not empty. Of the message no more is read than is shown.
///
/// # Errors
///
/// Out of memory alone; `out` is then as before.
pub(crate) fn message_into(
    out: &mut Vec<u8>,
    alloc: Global,
    lines: Option<u32>,
    octets: &[u8],
) -> Result<(), AllocError>
    ensures ok { OnOk result (ShowsPartIn lines octets.now out.old.items out.new.items) }
    ensures err { OnErr result (out.new.items ≡ out.old.items) }
{
    let kept = out.len();
    line_into(out, &shown_line(alloc, lines, octets.len() as u128)?)?;
    let done = dot_into(out, shown(octets, lines));
    if done.is_err() {
        out.truncate(kept);
    }
    done
}
