// Replies of POP3, and how they are spelt.
ghost use Rattle.std.specs.Prelude.{◌≡◌, ◌++◌, ◌∷◌, [], IfOk, OnOk, OnErr, true, ◌||◌, is_none};
ghost use Rattle.mail_model.specs.Lines.{sent_line};
ghost use Rattle.mail_model.specs.PopReplies.{dotted_line};
ghost use Rattle.dot_text.specs.Dots.{dotted};
ghost use Rattle.pop_wire.specs.Replies.{first_word, first_line, is_reply_text, reply_octets, texts_of};
ghost use Rattle.pop_wire.specs.ReplyLaws.{IsReply};
ghost use Rattle.std.specs.List.{list_all};

use crate::reply_line::{ReplyLine, period_before, space_before};
use std::alloc::{AllocError, Global};

/// A reply (RFC 1939, section 3).
#[derive(Debug, Drop)]
pub struct PopReply {
    /// Whether it begins with `+OK`, and not with `-ERR`.
    pub good: bool,
    /// What follows that word in its first line.
    pub text: ReplyLine,
    /// The lines after the first, where the reply is one of several lines, without that of one period, and
    /// none of them dotted. Only a good reply has them.
    pub lines: Option<Vec<ReplyLine>>,
    ghost one: { (good || is_none lines) ≡ true },
}

// The word that a reply begins with.
fn first_word(good: bool) -> &'static [u8]
    ensures { result.now ≡ first_word good }
{
    if good { b"+OK" } else { b"-ERR" }
}

// The first line with its CRLF.
fn first_octets(alloc: Global, good: bool, text: &[u8]) -> Result<Vec<u8>, AllocError>
    ensures { IfOk result (λ line. line.items ≡ sent_line (first_line good text.now)) }
{
    let mut line = Vec::from_slice(alloc, first_word(good))?;
    line.extend_from_slice(space_before(text))?;
    line.extend_from_slice(text)?;
    line.extend_from_slice(b"\r\n")?;
    Ok(line)
}

// A further line with its CRLF: a period that leads it is doubled.
fn further_octets(alloc: Global, text: &[u8]) -> Result<Vec<u8>, AllocError>
    ensures { IfOk result (λ line. line.items ≡ sent_line (dotted_line text.now)) }
{
    let mut line = Vec::from_slice(alloc, period_before(text))?;
    line.extend_from_slice(text)?;
    line.extend_from_slice(b"\r\n")?;
    Ok(line)
}

// The further lines, and the line that is one period.
fn all_further(alloc: Global, lines: &[ReplyLine]) -> Result<Vec<u8>, AllocError>
    ensures octets { IfOk result (λ octets. octets.items ≡ dotted lines.now ++ sent_line (46 ∷ [])) }
    ensures texts { IfOk result (λ _. list_all is_reply_text lines.now ≡ true) }
{
    let mut octets = Vec::new(alloc);
    for at in 0..lines.len() {
        octets.extend_from_slice(&further_octets(alloc, lines[at].as_slice())?)?;
    }
    octets.extend_from_slice(b".\r\n")?;
    Ok(octets)
}

// All octets of a reply.
fn octets_of(alloc: Global, reply: &PopReply) -> Result<Vec<u8>, AllocError>
    ensures octets { IfOk result (λ octets. octets.items ≡ reply_octets reply.now.good reply.now.text (texts_of reply.now.lines)) }
    ensures is { IfOk result (λ _. IsReply reply.now.good reply.now.text (texts_of reply.now.lines)) }
{
    let mut octets = first_octets(alloc, reply.good, reply.text.as_slice())?;
    match &reply.lines {
        None => Ok(octets),
        Some(lines) => {
            octets.extend_from_slice(&all_further(alloc, lines)?)?;
            Ok(octets)
        }
    }
}

/// Appends the octets of the reply: `+OK` or `-ERR`, a space and the text where there is one, and CRLF; and
/// where it has several lines, each of those with a period that leads it doubled, and the line that is one
/// period (RFC 1939, section 3). A `ReplyReader` reads it again, by the law `replies_are_read_back`.
///
/// # Errors
///
/// Out of memory alone; `out` is then as before.
pub fn reply_into(out: &mut Vec<u8>, reply: &PopReply) -> Result<(), AllocError>
    ensures ok { OnOk result (out.new.items ≡ out.old.items ++ reply_octets reply.now.good reply.now.text (texts_of reply.now.lines)) }
    ensures is { OnOk result (IsReply reply.now.good reply.now.text (texts_of reply.now.lines)) }
    ensures err { OnErr result (out.new.items ≡ out.old.items) }
{
    let octets = octets_of(*out.allocator(), reply)?;
    out.extend_from_slice(&octets)?;
    Ok(())
}
