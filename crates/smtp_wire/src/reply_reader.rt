// Replies out of octets as they come.
ghost use Rattle.std.specs.Prelude.{◌≡◌, ◌≤◌, ◌+◌, ◌<◌, ◌∷◌, ◌++◌, [], ℕ, List, length, take, drop, true, OnOk, OnErr, IfOk, Some};
ghost use Rattle.std.specs.Option.{option_map};
ghost use Rattle.dot_text.specs.Shown.{IsLine, Finds, line_length};
ghost use Rattle.smtp_wire.specs.Replies.{is_code, code_if, code_of, line_says, may_follow, part_of};
ghost use Rattle.smtp_wire.specs.Readers.{HasHeard, part_seen, IsNext, IsStep, IsTaken, Falls};

use crate::reply::{Reply, ReplyLine, is_reply_text};
use crate::reply_state::{Part, ReplyReader};
use dot_text::{Line, LineCutter};
use line_words::number;
use std::alloc::{AllocError, Global};

/// Why there is no reply.
#[derive(Clone, Copy, Debug, PartialEq, Eq)]
pub enum ReplyFault {
    /// The next whole line is none of a reply.
    BadReply,
    /// No memory was left.
    NoMemory,
}

impl From<AllocError> for ReplyFault {
    ghost use Rattle.std.specs.Prelude.{◌≡◌};
    ghost use Rattle.smtp_wire.specs.declared.reply_reader.ReplyFault.TheVariants.{NoMemory};

    ghost from_gives = { λ _ e. e ≡ NoMemory };

    fn from(_: AllocError) -> ReplyFault {
        ReplyFault::NoMemory
    }
}

// What one line leads to.
#[derive(Debug, Drop)]
enum Step {
    More,
    Waits,
    Given(Reply),
}

// The number, where it is a code.
fn code_if(number: Option<u64>) -> Option<u16>
    ensures { result ≡ code_if number }
{
    let number = number?;
    if 200 <= number && number <= 599 {
        Some(number as u16)
    } else {
        None
    }
}

// The first three octets; all where there are no more.
fn first_three(line: &[u8]) -> &[u8]
    ensures { result.now ≡ take 3 line.now }
{
    if line.len() < 3 { line } else { &line[..3] }
}

// What stands behind them.
fn behind_three(line: &[u8]) -> &[u8]
    ensures { result.now ≡ drop 3 line.now }
{
    if line.len() < 3 { b"" } else { &line[3..] }
}

// The code that the line begins with.
fn code_of(line: &[u8]) -> Option<u16>
    ensures { result ≡ code_of line.now }
{
    code_if(number(first_three(line)))
}

// What a line of this code says, by what stands behind the code.
fn part_of(alloc: Global, code: u16, rest: &[u8]) -> Result<Option<Part>, AllocError>
    requires { is_code code ≡ true }
    ensures { IfOk result (λ part. option_map part_seen part ≡ part_of (Some code) rest.now) }
{
    let Some((mark, text)) = rest.split_first() else {
        return Ok(Some(Part {
            code,
            ends: true,
            text: ReplyLine::new(alloc, b"")?,
        }));
    };
    if (*mark != b' ' && *mark != b'-') || !is_reply_text(text) {
        return Ok(None);
    }
    Ok(Some(Part {
        code,
        ends: *mark == b' ',
        text: ReplyLine::new(alloc, text)?,
    }))
}

// What the line says; `None` where it is none of a reply.
fn line_says(alloc: Global, line: &[u8]) -> Result<Option<Part>, AllocError>
    ensures { IfOk result (λ part. option_map part_seen part ≡ line_says line.now) }
{
    match code_of(line) {
        Some(code) => part_of(alloc, code, behind_three(line)),
        None => Ok(None),
    }
}

// What the line says that was found.
fn found_says(alloc: Global, cutter: &LineCutter, found: Line) -> Result<Option<Part>, AllocError>
    requires { line_length found + 2 ≤ length cutter.now.rest }
    ensures { IfOk result (λ part. (line : List ℕ) → cutter.now.limit ≡ 1024 → IsLine cutter.now found line → option_map part_seen part ≡ line_says line) }
{
    match found {
        Line::Whole(length) => line_says(alloc, &cutter.rest()[..length]),
        Line::Long(_) => Ok(None),
    }
}

// Whether a part may follow the lines of a reply.
fn may_follow(code: u16, lines: &[ReplyLine], part: &Part) -> bool
    ensures { result ≡ may_follow code lines.now (Some (part_seen part.now)) }
{
    lines.is_empty() || part.code == code
}

fn push(lines: &mut Vec<ReplyLine>, line: ReplyLine) -> Result<(), AllocError>
    ensures ok { OnOk result (lines.new.items ≡ lines.old.items ++ line ∷ []) }
    ensures err { OnErr result (lines.new.items ≡ lines.old.items) }
{
    lines.push(line)?;
    Ok(())
}

impl ReplyReader {
    /// A reader that was fed nothing. It takes no memory.
    pub fn new(alloc: Global) -> ReplyReader
        ensures { HasHeard result [] }
    {
        ReplyReader {
            cutter: LineCutter::new(alloc, 1024),
            code: 200,
            lines: Vec::new(alloc),
        }
    }

    /// Takes up the next octets.
    ///
    /// # Errors
    ///
    /// Out of memory alone; the reader is then as before.
    pub fn feed(&mut self, piece: &[u8]) -> Result<(), AllocError>
        ensures ok { OnOk result ((octets : List ℕ) → HasHeard self.old octets → HasHeard self.new (octets ++ piece.now)) }
        ensures err { OnErr result ((octets : List ℕ) → HasHeard self.old octets → HasHeard self.new octets) }
    {
        self.cutter.feed(piece)?;
        Ok(())
    }

    // The reply whose last line was pushed.
    fn given(&mut self) -> Reply
        requires { 0 < length self.old.lines.items }
        ensures { (result.code ≡ self.old.code) × (result.lines.items ≡ self.old.lines.items) × (self.new.lines.items ≡ []) × (self.new.cutter ≡ self.old.cutter) }
    {
        let alloc = *self.lines.allocator();
        let lines = std::mem::replace(&mut self.lines, Vec::new(alloc));
        Reply {
            code: self.code,
            lines,
        }
    }

    // Takes the line with its part.
    fn take_part(&mut self, found: Line, part: Part) -> Result<Step, ReplyFault>
        requires { line_length found + 2 ≤ length self.old.cutter.rest }
        ensures { IsTaken self.old found part result self.new }
    {
        let Part { code, ends, text } = part;
        push(&mut self.lines, text)?;
        self.code = code;
        self.cutter.take(found);
        if ends {
            Ok(Step::Given(self.given()))
        } else {
            Ok(Step::More)
        }
    }

    // Hears the line that was found.
    fn hear(&mut self, found: Line) -> Result<Step, ReplyFault>
        requires { Finds self.old.cutter found self.old.cutter }
        ensures is { (octets : List ℕ) → HasHeard self.old octets → IsStep octets result self.new }
        ensures less { Falls result (length self.new.cutter.rest) (length self.old.cutter.rest) }
    {
        let alloc = *self.lines.allocator();
        let Some(part) = found_says(alloc, &self.cutter, found)? else {
            return Err(ReplyFault::BadReply);
        };
        if !may_follow(self.code, &self.lines, &part) {
            return Err(ReplyFault::BadReply);
        }
        self.take_part(found, part)
    }

    // Hears the next line, where it is whole.
    fn step(&mut self) -> Result<Step, ReplyFault>
        ensures is { (octets : List ℕ) → HasHeard self.old octets → IsStep octets result self.new }
        ensures less { Falls result (length self.new.cutter.rest) (length self.old.cutter.rest) }
    {
        match self.cutter.find() {
            None => Ok(Step::Waits),
            Some(found) => self.hear(found),
        }
    }

    /// The next reply, which is then taken away; `None` exactly where the octets that are left hold neither a
    /// whole reply nor a whole line that is none of a reply.
    ///
    /// # Errors
    ///
    /// `BadReply` exactly where the next whole line is none of the reply: it has another form, or another code
    /// than the lines before it. It stays, so that the same is answered again. `NoMemory` where no memory was
    /// left; nothing is lost then.
    pub fn next(&mut self) -> Result<Option<Reply>, ReplyFault>
        ensures { (octets : List ℕ) → HasHeard self.old octets → IsNext octets result self.new }
    {
        loop {
            match self.step()? {
                Step::More => {}
                Step::Waits => return Ok(None),
                Step::Given(reply) => return Ok(Some(reply)),
            }
        }
    }
}
