// Replies out of octets as they come.
ghost use Rattle.std.specs.Prelude.{◌≡◌, ◌≤◌, ◌+◌, ◌<◌, ◌∷◌, ◌++◌, [], ℕ, Bool, List, length, true, false, OnOk, OnErr, IfOk, Ok, Some, None};
ghost use Rattle.std.specs.Option.{option_map};
ghost use Rattle.dot_text.specs.Shown.{IsLine, Finds, line_length};
ghost use Rattle.pop_wire.specs.Replies.{first_says, further_says, texts_of};
ghost use Rattle.pop_wire.specs.Readers.{HasHeard, Awaits, first_seen, heard_seen, IsNext, IsStep, IsFirstTaken, IsFurtherTaken, Falls};

use crate::reply::PopReply;
use crate::reply_line::{ReplyLine, further_text, is_period, text_after};
use crate::reply_state::{First, Heard, ReplyReader};
use dot_text::{Line, LineCutter};
use std::alloc::{AllocError, Global};

/// Why there is no reply.
#[derive(Clone, Copy, Debug, PartialEq, Eq)]
pub enum ReplyFault {
    /// The next whole line is none of a reply.
    BadReply,
    /// No memory was left.
    NoMemory,
}

impl From<AllocError> for ReplyFault {
    ghost use Rattle.std.specs.Prelude.{◌≡◌};
    ghost use Rattle.pop_wire.specs.declared.reply_reader.ReplyFault.TheVariants.{NoMemory};

    ghost from_gives = { λ _ e. e ≡ NoMemory };

    fn from(_: AllocError) -> ReplyFault {
        ReplyFault::NoMemory
    }
}

// What one line leads to.
#[derive(Debug, Drop)]
enum Step {
    More,
    Waits,
    Given(PopReply),
}

// What the line says as the first of a reply; `None` where it is none.
fn first_says(alloc: Global, line: &[u8]) -> Result<Option<First>, AllocError>
    ensures { IfOk result (λ first. option_map first_seen first ≡ first_says line.now) }
{
    if let Some(text) = text_after(b"+OK", line) {
        return Ok(Some(First {
            good: true,
            text: ReplyLine::new(alloc, text)?,
        }));
    }
    if let Some(text) = text_after(b"-ERR", line) {
        return Ok(Some(First {
            good: false,
            text: ReplyLine::new(alloc, text)?,
        }));
    }
    Ok(None)
}

// What it says as a further line.
fn further_says(alloc: Global, line: &[u8]) -> Result<Option<Heard>, AllocError>
    ensures { IfOk result (λ said. option_map heard_seen said ≡ further_says line.now) }
{
    if is_period(line) {
        return Ok(Some(Heard::Ends));
    }
    match further_text(line) {
        Some(text) => Ok(Some(Heard::Says(ReplyLine::new(alloc, text)?))),
        None => Ok(None),
    }
}

// What the line that was found says as the first of a reply.
fn found_first(alloc: Global, cutter: &LineCutter, found: Line) -> Result<Option<First>, AllocError>
    requires { line_length found + 2 ≤ length cutter.now.rest }
    ensures { IfOk result (λ first. (line : List ℕ) → cutter.now.limit ≡ 1024 → IsLine cutter.now found line → option_map first_seen first ≡ first_says line) }
{
    match found {
        Line::Whole(length) => first_says(alloc, &cutter.rest()[..length]),
        Line::Long(_) => Ok(None),
    }
}

// What it says as a further one.
fn found_further(
    alloc: Global,
    cutter: &LineCutter,
    found: Line,
) -> Result<Option<Heard>, AllocError>
    requires { line_length found + 2 ≤ length cutter.now.rest }
    ensures { IfOk result (λ said. (line : List ℕ) → cutter.now.limit ≡ 1024 → IsLine cutter.now found line → option_map heard_seen said ≡ further_says line) }
{
    match found {
        Line::Whole(length) => further_says(alloc, &cutter.rest()[..length]),
        Line::Long(_) => Ok(None),
    }
}

fn push(lines: &mut Vec<ReplyLine>, line: ReplyLine) -> Result<(), AllocError>
    ensures ok { OnOk result (lines.new.items ≡ lines.old.items ++ line ∷ []) }
    ensures err { OnErr result (lines.new.items ≡ lines.old.items) }
{
    lines.push(line)?;
    Ok(())
}

impl ReplyReader {
    /// A reader that was fed nothing, and to which a good reply has one line. It takes no memory.
    pub fn new(alloc: Global) -> ReplyReader
        ensures { Awaits false [] result }
    {
        ReplyReader {
            cutter: LineCutter::new(alloc, 1024),
            several: false,
            begun: false,
            text: ReplyLine::empty(alloc),
            lines: Vec::new(alloc),
        }
    }

    /// Tells whether the next reply has several lines, where it is good; which it has depends on the command
    /// that it answers. It holds until it is told otherwise. A reply of several lines whose first line
    /// `next` has come past is read to its end whatever is told. It takes no memory.
    pub fn expect(&mut self, several: bool)
        ensures told { (self.new.several ≡ several) × (self.new.begun ≡ self.old.begun) }
        ensures heard { (octets : List ℕ) → HasHeard self.old octets → HasHeard self.new octets }
    {
        self.several = several;
    }

    /// Takes up the next octets.
    ///
    /// # Errors
    ///
    /// Out of memory alone; the reader is then as before.
    pub fn feed(&mut self, piece: &[u8]) -> Result<(), AllocError>
        ensures ok { OnOk result ((octets : List ℕ) → HasHeard self.old octets → HasHeard self.new (octets ++ piece.now)) }
        ensures err { OnErr result ((octets : List ℕ) → HasHeard self.old octets → HasHeard self.new octets) }
        ensures same { (self.new.several ≡ self.old.several) × (self.new.begun ≡ self.old.begun) }
    {
        self.cutter.feed(piece)?;
        Ok(())
    }

    // Takes the first line of a reply with what it says.
    fn take_first(&mut self, found: Line, first: First) -> Step
        requires { (line_length found + 2 ≤ length self.old.cutter.rest) × (self.old.begun ≡ false) }
        ensures taken { IsFirstTaken self.old found first result self.new }
        ensures same { self.new.several ≡ self.old.several }
    {
        let First { good, text } = first;
        self.cutter.take(found);
        if good && self.several {
            self.begun = true;
            self.text = text;
            return Step::More;
        }
        Step::Given(PopReply {
            good,
            text,
            lines: None,
        })
    }

    // The reply of several lines whose last line was heard.
    fn given(&mut self) -> PopReply
        ensures { (result.good ≡ true) × (result.text ≡ self.old.text) × (texts_of result.lines ≡ Some self.old.lines.items)
            × (self.new.begun ≡ false) × (self.new.lines.items ≡ []) × (self.new.cutter ≡ self.old.cutter) × (self.new.several ≡ self.old.several) }
    {
        let alloc = *self.lines.allocator();
        let lines = std::mem::replace(&mut self.lines, Vec::new(alloc));
        let text = std::mem::replace(&mut self.text, ReplyLine::empty(alloc));
        self.begun = false;
        PopReply {
            good: true,
            text,
            lines: Some(lines),
        }
    }

    // Takes a further line with what it says.
    fn take_further(&mut self, found: Line, said: Heard) -> Result<Step, ReplyFault>
        requires { (line_length found + 2 ≤ length self.old.cutter.rest) × (self.old.begun ≡ true) }
        ensures taken { IsFurtherTaken self.old found said result self.new }
        ensures same { self.new.several ≡ self.old.several }
    {
        match said {
            Heard::Ends => {
                self.cutter.take(found);
                Ok(Step::Given(self.given()))
            }
            Heard::Says(text) => {
                push(&mut self.lines, text)?;
                self.cutter.take(found);
                Ok(Step::More)
            }
        }
    }

    // Hears the line that was found as the first of a reply.
    fn hear_first(&mut self, found: Line) -> Result<Step, ReplyFault>
        requires { Finds self.old.cutter found self.old.cutter × (self.old.begun ≡ false) }
        ensures is { (several : Bool) (octets : List ℕ) → Awaits several octets self.old → IsStep several octets result self.new }
        ensures less { Falls result (length self.new.cutter.rest) (length self.old.cutter.rest) }
        ensures same { self.new.several ≡ self.old.several }
    {
        let alloc = *self.lines.allocator();
        let Some(first) = found_first(alloc, &self.cutter, found)? else {
            return Err(ReplyFault::BadReply);
        };
        Ok(self.take_first(found, first))
    }

    // Hears it as a further line.
    fn hear_further(&mut self, found: Line) -> Result<Step, ReplyFault>
        requires { Finds self.old.cutter found self.old.cutter × (self.old.begun ≡ true) }
        ensures is { (several : Bool) (octets : List ℕ) → Awaits several octets self.old → IsStep several octets result self.new }
        ensures less { Falls result (length self.new.cutter.rest) (length self.old.cutter.rest) }
        ensures same { self.new.several ≡ self.old.several }
    {
        let alloc = *self.lines.allocator();
        let Some(said) = found_further(alloc, &self.cutter, found)? else {
            return Err(ReplyFault::BadReply);
        };
        self.take_further(found, said)
    }

    // Hears the line that was found.
    fn hear(&mut self, found: Line) -> Result<Step, ReplyFault>
        requires { Finds self.old.cutter found self.old.cutter }
        ensures is { (several : Bool) (octets : List ℕ) → Awaits several octets self.old → IsStep several octets result self.new }
        ensures less { Falls result (length self.new.cutter.rest) (length self.old.cutter.rest) }
        ensures same { self.new.several ≡ self.old.several }
    {
        if self.begun {
            self.hear_further(found)
        } else {
            self.hear_first(found)
        }
    }

    // Hears the next line, where it is whole.
    fn step(&mut self) -> Result<Step, ReplyFault>
        ensures is { (several : Bool) (octets : List ℕ) → Awaits several octets self.old → IsStep several octets result self.new }
        ensures less { Falls result (length self.new.cutter.rest) (length self.old.cutter.rest) }
        ensures same { self.new.several ≡ self.old.several }
    {
        match self.cutter.find() {
            None => Ok(Step::Waits),
            Some(found) => self.hear(found),
        }
    }

    /// The next reply, which is then taken away; `None` exactly where the octets that are left hold neither a
    /// whole reply nor a whole line that is none of a reply.
    ///
    /// # Errors
    ///
    /// `BadReply` exactly where the next whole line is none of the reply. It stays, so that the same is
    /// answered again. `NoMemory` where no memory was left; nothing is lost then.
    pub fn next(&mut self) -> Result<Option<PopReply>, ReplyFault>
        ensures is { (several : Bool) (octets : List ℕ) → Awaits several octets self.old → IsNext several octets result self.new }
        ensures same { self.new.several ≡ self.old.several }
    {
        loop {
            match self.step()? {
                Step::More => {}
                Step::Waits => return Ok(None),
                Step::Given(reply) => return Ok(Some(reply)),
            }
        }
    }
}
