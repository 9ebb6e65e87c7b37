// The texts of replies, and the periods before them.
ghost use Rattle.std.specs.Prelude.{◌≡◌, true, option_and_then, IfOk, IfSome, [], ◌++◌};
ghost use Rattle.std.specs.Option.{option_copied};
ghost use Rattle.std.specs.List.{list_all};
ghost use Rattle.mail_model.specs.Names.{begins_with, is_printable};
ghost use Rattle.mail_model.specs.PopReplies.{dotted_line};
ghost use Rattle.mail_model.specs.Session.{is_period};
ghost use Rattle.pop_wire.specs.Replies.{is_reply_text, text_behind, text_after, undoubled, reply_text, spaced};

use std::alloc::{AllocError, Global};
use std::marker::Model;

/// A text in a reply: at most 1,017 octets of printable ASCII, or none (RFC 1939, section 3). A contract
/// sees its octets.
#[derive(Debug, Drop)]
pub struct ReplyLine {
    text: Vec<u8>,
}

impl Model for ReplyLine {
    ghost use Rattle.std.specs.Prelude.{◌≡◌, true, List, ℕ};
    ghost use Rattle.pop_wire.specs.Replies.{is_reply_text};

    ghost Value = { List ℕ };

    ghost view = { λ l. l.text.items };

    ghost invariant = { λ l. is_reply_text l.text.items ≡ true };
}

fn is_printable(x: u8) -> bool
    ensures { result ≡ is_printable x }
{
    0x20 <= x && x <= 0x7E
}

fn all_printable(text: &[u8]) -> bool
    ensures { result ≡ list_all is_printable text.now }
{
    text.iter().all(|x| is_printable(*x))
}

/// Whether a line of a reply may have this text: at most 1,017 octets, each of printable ASCII.
pub fn is_reply_text(text: &[u8]) -> bool
    ensures { result ≡ is_reply_text text.now }
{
    text.len() <= 1017 && all_printable(text)
}

impl ReplyLine {
    /// The line of this text.
    ///
    /// # Errors
    ///
    /// Out of memory alone.
    pub fn new(alloc: Global, text: &[u8]) -> Result<ReplyLine, AllocError>
        requires { is_reply_text text.now ≡ true }
        ensures { IfOk result (λ line. line ≡ text.now) }
    {
        Ok(ReplyLine {
            text: text.to_vec(alloc)?,
        })
    }

    /// The line of no text. It takes no memory.
    pub fn empty(alloc: Global) -> ReplyLine
        ensures { result ≡ [] }
    {
        ReplyLine {
            text: Vec::new(alloc),
        }
    }

    /// The octets of the text.
    pub fn as_slice(&self) -> &[u8]
        ensures text { result.now ≡ self.now }
        ensures is { is_reply_text result.now ≡ true }
    {
        &self.text
    }
}

// The text behind the first word of a reply: none, or that after one space.
fn text_behind(rest: &[u8]) -> Option<&[u8]>
    ensures text { option_copied result ≡ text_behind rest.now }
    ensures is { IfSome result (λ text. is_reply_text text.now ≡ true) }
{
    let Some((space, text)) = rest.split_first() else {
        return Some(b"");
    };
    if *space == b' ' && is_reply_text(text) {
        Some(text)
    } else {
        None
    }
}

/// The text behind this word, where the line begins with it.
pub fn text_after<'a>(word: &[u8], line: &'a [u8]) -> Option<&'a [u8]>
    ensures text { option_copied result ≡ text_after word.now line.now }
    ensures is { IfSome result (λ text. is_reply_text text.now ≡ true) }
{
    match line.strip_prefix(word) {
        Some(rest) => text_behind(rest),
        None => None,
    }
}

/// Whether the line is one period.
pub fn is_period(line: &[u8]) -> bool
    ensures { result ≡ is_period line.now }
{
    line == b".".as_slice()
}

// Whether the line begins with a period.
fn leads_with_period(line: &[u8]) -> bool
    ensures { result ≡ begins_with 46 line.now }
{
    match line.first() {
        Some(first) => *first == b'.',
        None => false,
    }
}

// The line with one period off, where two lead it; `None` where one does.
fn undoubled(line: &[u8]) -> Option<&[u8]>
    ensures text { option_copied result ≡ undoubled line.now }
{
    let Some((first, rest)) = line.split_first() else {
        return Some(line);
    };
    if *first != b'.' {
        return Some(line);
    }
    if leads_with_period(rest) {
        Some(rest)
    } else {
        None
    }
}

// The text, where it may stand in a reply.
fn reply_text(text: &[u8]) -> Option<&[u8]>
    ensures text { option_copied result ≡ reply_text text.now }
    ensures is { IfSome result (λ text. is_reply_text text.now ≡ true) }
{
    if is_reply_text(text) {
        Some(text)
    } else {
        None
    }
}

/// The text of a further line of a reply.
pub fn further_text(line: &[u8]) -> Option<&[u8]>
    ensures text { option_copied result ≡ option_and_then reply_text (undoubled line.now) }
    ensures is { IfSome result (λ text. is_reply_text text.now ≡ true) }
{
    reply_text(undoubled(line)?)
}

/// What is written before the text of a first line.
pub fn space_before(text: &[u8]) -> &'static [u8]
    ensures { result.now ++ text.now ≡ spaced text.now }
{
    if text.is_empty() { b"" } else { b" " }
}

/// What is written before the text of a further line.
pub fn period_before(text: &[u8]) -> &'static [u8]
    ensures { result.now ++ text.now ≡ dotted_line text.now }
{
    if leads_with_period(text) { b"." } else { b"" }
}
