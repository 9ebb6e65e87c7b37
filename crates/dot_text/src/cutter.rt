// Lines out of octets as they come.
ghost use Rattle.std.specs.Prelude.{◌≡◌, ◌⊎◌, true, MatchBool, ◌≤◌, ◌<◌, ◌+◌, ◌^◌, ◌++◌, ◌∷◌, [], List, ℕ, false, length, take, drop, MatchOption, OnOk, OnErr};
ghost use Rattle.mail_model.specs.Lines.{HasNoCrlf};
ghost use Rattle.dot_text.specs.Cuts.{Taken, Cuts, HasNoneBefore, IsFirstCrlf};
ghost use Rattle.dot_text.specs.Cuts.Taken.{Skipped};
ghost use Rattle.dot_text.specs.Shown.{ends_in_cr, Pending, Finds, FindsNone, LetsGo, IsKind, line_length, behind_line};

use std::alloc::{AllocError, Global};
use std::marker::Model;

/// The next line of a cutter: how many of the octets that it holds stand before the CRLF, and whether the
/// line keeps the limit.
#[derive(Clone, Copy, Debug, PartialEq, Eq)]
pub enum Line {
    /// With its CRLF it has at most as many octets as the limit. These are all of them.
    Whole(usize),
    /// With its CRLF it has more. Its first octets may have been let go.
    Long(usize),
}

impl Line {
    /// How many of the octets that the cutter holds stand before the CRLF.
    pub fn length(self) -> usize
        ensures { result ≡ line_length self }
    {
        match self {
            Line::Whole(length) => length,
            Line::Long(length) => length,
        }
    }
}

/// Cuts octets that come in pieces into lines, which end in CRLF (RFC 5321, section 2.3.8). Of a line that is
/// longer than the limit no more is held than a CR. A contract sees the limit, the octets that are held, and
/// whether those before them, of the same line, were let go.
#[derive(Debug, Drop)]
pub struct LineCutter {
    limit: usize,
    octets: Vec<u8>,
    // where the octets begin that no line has taken yet
    start: usize,
    // how many of those were looked at, and begin no CRLF
    seen: usize,
    // whether octets of their first line were let go
    past: bool,
}

impl Model for LineCutter {
    ghost use Rattle.std.specs.Prelude.{◌+◌, ◌≤◌, length, drop};
    ghost use Rattle.dot_text.specs.Cuts.{HasNoneBefore};
    ghost use Rattle.dot_text.specs.Shown.{Shown};

    ghost Value = { Shown };

    ghost view = { λ c. record { limit = c.limit; past = c.past; rest = drop c.start c.octets.items } };

    ghost invariant = { λ c. (2 ≤ c.limit) × (c.start ≤ length c.octets.items) × HasNoneBefore (drop c.start c.octets.items) c.seen };
}

// Where the first CRLF begins. None begins before the place `seen`.
fn crlf_at(octets: &[u8], seen: usize) -> Option<usize>
    requires { HasNoneBefore octets.now seen }
    ensures { MatchOption result (HasNoCrlf octets.now) (IsFirstCrlf octets.now) }
{
    for at in seen + 1..octets.len() {
        if octets[at - 1] == b'\r' && octets[at] == b'\n' {
            return Some(at - 1);
        }
    }
    None
}

// A line of which so many octets are held before the CRLF, and others were let go where it is `past`.
fn kind_of(length: usize, limit: usize, past: bool) -> Line
    requires { length + 2 < 2 ^ 64 }
    ensures { IsKind result length limit past }
{
    if past || length + 2 > limit {
        Line::Long(length)
    } else {
        Line::Whole(length)
    }
}

// Whether a line that has no CRLF yet is too long already, where so many octets of it are held.
fn is_over(past: bool, held: usize, limit: usize) -> bool
    ensures { MatchBool result ((past ≡ true) ⊎ (limit ≤ held)) (held < limit) }
{
    past || held >= limit
}

// Whether the last octet is a CR.
fn ends_in_cr(octets: &[u8]) -> bool
    ensures { result ≡ ends_in_cr octets.now }
{
    !octets.is_empty() && octets[octets.len() - 1] == b'\r'
}

impl LineCutter {
    /// A cutter that was fed nothing. A line keeps the limit where it has at most `limit` octets with its
    /// CRLF (RFC 5321, section 4.5.3.1.4, asks for 512 at least). It takes no memory.
    pub fn new(alloc: Global, limit: usize) -> LineCutter
        requires { 2 ≤ limit }
        ensures { result ≡ record { limit = limit; past = false; rest = [] } }
    {
        LineCutter {
            limit,
            octets: Vec::new(alloc),
            start: 0,
            seen: 0,
            past: false,
        }
    }

    /// Takes up the next octets, as many as memory holds.
    ///
    /// # Errors
    ///
    /// Out of memory alone; the cutter is then as before.
    pub fn feed(&mut self, piece: &[u8]) -> Result<(), AllocError>
        ensures ok { OnOk result (self.new ≡ record self.old { rest = self.old.rest ++ piece.now }) }
        ensures pends { OnOk result ((pending : List ℕ) → Pending self.old pending → Pending self.new (pending ++ piece.now)) }
        ensures shows { OnOk result ((fed : List ℕ) (taken : List Taken) (pending : List ℕ) → Cuts fed taken pending → Cuts (fed ++ piece.now) taken (pending ++ piece.now)) }
        ensures err { OnErr result (self.new ≡ self.old) }
    {
        self.compact();
        self.append(piece)
    }

    // Moves the octets that are held to the beginning, where as many were taken before them. Mostly none is held.
    fn compact(&mut self)
        ensures { self.new ≡ self.old }
    {
        let start = self.start;
        let left = self.octets.len() - start;
        if left <= start {
            self.octets.copy_within(start.., 0);
            self.octets.truncate(left);
            self.start = 0;
        }
    }

    // Puts the octets behind those that are held.
    fn append(&mut self, piece: &[u8]) -> Result<(), AllocError>
        ensures ok { OnOk result (self.new ≡ record self.old { rest = self.old.rest ++ piece.now }) }
        ensures pends { OnOk result ((pending : List ℕ) → Pending self.old pending → Pending self.new (pending ++ piece.now)) }
        ensures shows { OnOk result ((fed : List ℕ) (taken : List Taken) (pending : List ℕ) → Cuts fed taken pending → Cuts (fed ++ piece.now) taken (pending ++ piece.now)) }
        ensures err { OnErr result (self.new ≡ self.old) }
    {
        self.octets.extend_from_slice(piece)?;
        Ok(())
    }

    // Lets the octets of a line go that is too long already, all but a CR, which may be that of its CRLF.
    fn let_go(&mut self)
        requires { HasNoCrlf self.old.rest }
        ensures { LetsGo self.old self.new }
    {
        let rest = &self.octets[self.start..];
        if !is_over(self.past, rest.len(), self.limit) {
            return;
        }
        let keeps = ends_in_cr(rest);
        self.start = 0;
        self.seen = 0;
        self.past = true;
        if keeps {
            self.octets[0] = b'\r';
            self.octets.truncate(1);
        } else {
            self.octets.clear();
        }
    }

    /// Finds the next line, and says whether it keeps the limit. The octets of one that does begin the rest.
    /// Nothing is taken: `take` does that. `None` exactly where no whole line is left; what is held of a line
    /// that is too long already is then let go. It takes no memory.
    pub fn find(&mut self) -> Option<Line>
        ensures { MatchOption result (FindsNone self.old self.new) (λ line. Finds self.old line self.new) }
    {
        let rest = &self.octets[self.start..];
        match crlf_at(rest, self.seen) {
            None => {
                self.seen = rest.len().saturating_sub(1);
                self.let_go();
                None
            }
            Some(length) => Some(kind_of(length, self.limit, self.past)),
        }
    }

    /// Takes the line away that was found, with its CRLF; the next one begins after it. It takes no memory.
    pub fn take(&mut self, line: Line)
        requires { line_length line + 2 ≤ length self.old.rest }
        ensures { self.new ≡ behind_line self.old line }
    {
        let start = self.start;
        self.start = start + (line.length() + 2);
        self.seen = 0;
        self.past = false;
    }

    /// The octets that were fed, no line has taken yet, and were not let go or skipped.
    pub fn rest(&self) -> &[u8]
        ensures { result.now ≡ self.now.rest }
    {
        &self.octets[self.start..]
    }

    /// Takes the first octets of the rest away, no more than it has; the next line begins after them, unless
    /// octets of it were let go. It takes no memory.
    pub fn skip(&mut self, count: usize)
        requires { count ≤ length self.old.rest }
        ensures rest { self.new ≡ record self.old { rest = drop count self.old.rest } }
        ensures shows { (fed : List ℕ) (taken : List Taken) → Cuts fed taken self.old.rest → Cuts fed (taken ++ Skipped (take count self.old.rest) ∷ []) self.new.rest }
    {
        self.start += count;
        self.seen = self.seen.saturating_sub(count);
    }
}
