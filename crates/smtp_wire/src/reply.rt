// Replies of SMTP, and how they are spelt.
ghost use Rattle.std.specs.Prelude.{◌≡◌, ◌++◌, ◌∷◌, ◌<◌, length, IfOk, OnOk, OnErr, true, nat_eq, if◌then◌else◌, string_bytes};
ghost use Rattle.std.specs.Fmt.{decimal};
ghost use Rattle.std.specs.List.{list_all};
ghost use Rattle.mail_model.specs.Lines.{sent_line};
ghost use Rattle.smtp_wire.specs.Replies.{is_text_octet, is_reply_text, is_code, reply_octets};
ghost use Rattle.smtp_wire.specs.ReplyLaws.{IsReply};

use std::alloc::{AllocError, Global};
use std::marker::Model;

/// A text in a reply: at most 1,018 octets of printable ASCII, or none (RFC 5321, section 4.2). A
/// contract sees its octets.
#[derive(Debug, Drop)]
pub struct ReplyLine {
    text: Vec<u8>,
}

impl Model for ReplyLine {
    ghost use Rattle.std.specs.Prelude.{◌≡◌, true, List, ℕ};
    ghost use Rattle.smtp_wire.specs.Replies.{is_reply_text};

    ghost Value = { List ℕ };

    ghost view = { λ l. l.text.items };

    ghost invariant = { λ l. is_reply_text l.text.items ≡ true };
}

fn is_text_octet(x: u8) -> bool
    ensures { result ≡ is_text_octet x }
{
    32 <= x && x <= 126
}

fn all_text(text: &[u8]) -> bool
    ensures { result ≡ list_all is_text_octet text.now }
{
    text.iter().all(|x| is_text_octet(*x))
}

/// Whether a line of a reply may have this text: at most 1,018 octets, each of printable ASCII.
pub fn is_reply_text(text: &[u8]) -> bool
    ensures { result ≡ is_reply_text text.now }
{
    text.len() <= 1018 && all_text(text)
}

impl ReplyLine {
    /// The line of this text.
    ///
    /// # Errors
    ///
    /// Out of memory alone.
    pub fn new(alloc: Global, text: &[u8]) -> Result<ReplyLine, AllocError>
        requires { is_reply_text text.now ≡ true }
        ensures { IfOk result (λ line. line ≡ text.now) }
    {
        Ok(ReplyLine {
            text: text.to_vec(alloc)?,
        })
    }

    /// The octets of the text.
    pub fn as_slice(&self) -> &[u8]
        ensures text { result.now ≡ self.now }
        ensures is { is_reply_text result.now ≡ true }
    {
        &self.text
    }
}

/// A reply: a code, and the text of each of its lines (RFC 5321, sections 4.2 and 4.2.1).
#[derive(Debug, Drop)]
pub struct Reply {
    /// From 200 to 599.
    pub code: u16,
    /// At least one.
    pub lines: Vec<ReplyLine>,
    ghost known: { is_code code ≡ true },
    ghost some: { 0 < length lines.items },
}

// The number in decimal.
fn number_text(alloc: Global, number: u16) -> Result<String, AllocError>
    ensures { IfOk result (λ text. string_bytes text ≡ decimal number) }
{
    format!(in alloc; "{number}")
}

// One line of a reply with its CRLF.
fn line_text(alloc: Global, code: u16, mark: u8, text: &[u8]) -> Result<Vec<u8>, AllocError>
    ensures { IfOk result (λ line. line.items ≡ sent_line (decimal code ++ mark ∷ text.now)) }
{
    let number = number_text(alloc, code)?;
    let mut line = Vec::new(alloc);
    line.extend_from_slice(number.as_bytes())?;
    line.push(mark)?;
    line.extend_from_slice(text)?;
    line.extend_from_slice(b"\r\n")?;
    Ok(line)
}

// What stands behind the code on a line before which so many more come: a space on the last.
fn mark_of(left: usize) -> u8
    ensures { result ≡ (if nat_eq left 0 then 32 else 45) }
{
    if left == 0 { b' ' } else { b'-' }
}

// All octets of a reply.
fn octets_of(alloc: Global, code: u16, lines: &[ReplyLine]) -> Result<Vec<u8>, AllocError>
    ensures octets { IfOk result (λ octets. octets.items ≡ reply_octets code lines.now) }
    ensures texts { IfOk result (λ _. list_all is_reply_text lines.now ≡ true) }
{
    let mut octets = Vec::new(alloc);
    for at in 0..lines.len() {
        let line = line_text(
            alloc,
            code,
            mark_of(lines.len() - 1 - at),
            lines[at].as_slice(),
        )?;
        octets.extend_from_slice(&line)?;
    }
    Ok(octets)
}

/// Appends the octets of the reply: on each line its code, then a hyphen, and on the last a space, then
/// the text and CRLF (RFC 5321, section 4.2.1). A `ReplyReader` reads it again, by the law
/// `replies_are_read_back`.
///
/// # Errors
///
/// Out of memory alone; `out` is then as before.
pub fn reply_into(out: &mut Vec<u8>, reply: &Reply) -> Result<(), AllocError>
    ensures ok { OnOk result (out.new.items ≡ out.old.items ++ reply_octets reply.now.code reply.now.lines.items) }
    ensures is { OnOk result (IsReply reply.now.code reply.now.lines.items) }
    ensures err { OnErr result (out.new.items ≡ out.old.items) }
{
    let octets = octets_of(*out.allocator(), reply.code, &reply.lines)?;
    out.extend_from_slice(&octets)?;
    Ok(())
}
