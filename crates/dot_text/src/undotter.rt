// A text out of its octets as they come.
ghost use Rattle.std.specs.Prelude.{◌≡◌, ◌≤◌, ◌++◌, [], List, ℕ, length, take, IfOk, OnOk, OnErr};
ghost use Rattle.dot_text.specs.Places.{next_place, told, IsRun, Undots, UndotsAt, Behind, Feeds, IsWithin};

use line_words::len_before;
use std::alloc::AllocError;

/// Where a text stands after a piece of its octets.
#[derive(Clone, Copy, Debug, PartialEq, Eq)]
pub enum Cut {
    /// It goes on.
    More,
    /// So many octets of the piece were used, and the last of them ended the text.
    Ended(usize),
}

// Where in its line an undotter stands.
#[derive(Clone, Copy, Debug, PartialEq, Eq)]
enum Place {
    // No octet of the line has come.
    LineStart,
    // One period has.
    Period,
    // One period and CR have.
    PeriodCr,
    // Something else has, and its last octet is no CR.
    Inside,
    // Something else has, and its last octet is CR.
    Cr,
}

/// Reads a text whose lines come with a period before those that begin with one, and which the line
/// that is one period ends (RFC 5321, section 4.5.2, and RFC 1939, section 3). A line is what stands before
/// CRLF; a lone CR or LF is an octet of the text.
#[derive(Clone, Copy, Debug, PartialEq, Eq)]
pub struct Undotter {
    place: Place,
}

impl Undotter {
    /// An undotter at the beginning of a text. It takes no memory.
    pub fn new() -> Undotter
        ensures { Undots result [] [] }
    {
        Undotter {
            place: Place::LineStart,
        }
    }

    /// Appends to `out` what the next octets of the text give: each line with its CRLF, without the period
    /// that leads it. A period that leads a line waits for the octet after it, and so does a CR after
    /// that period; all else is given at once.
    ///
    /// `Ended` comes exactly with the LF of the line that is one period, of which nothing is given. The
    /// octets after it are not used, and what is fed next is another text. A text has no limit here.
    ///
    /// # Errors
    ///
    /// Out of memory alone; the undotter and `out` are then as before.
    pub fn feed(&mut self, piece: &[u8], out: &mut Vec<u8>) -> Result<Cut, AllocError>
        ensures ok { IfOk result (λ cut. (more : List ℕ) × (out.new.items ≡ out.old.items ++ more)
            × ((fed given : List ℕ) → Undots self.old fed given → Feeds cut self.new fed piece.now (given ++ more))) }
        ensures used { IfOk result (λ cut. IsWithin cut piece.now) }
        ensures err { OnErr result ((out.new.items ≡ out.old.items) × (self.new ≡ self.old)) }
    {
        let mut place = self.place;
        let kept = out.len();
        match undot(&mut place, piece, out) {
            Ok(cut) => {
                self.place = place;
                Ok(cut)
            }
            Err(error) => {
                out.truncate(kept);
                Err(error)
            }
        }
    }
}

// The place after the octet; none where it ends the line that is one period.
fn next_place(place: Place, octet: u8) -> Option<Place>
    ensures { result ≡ next_place place octet }
{
    match (place, octet) {
        (Place::LineStart, b'.') => Some(Place::Period),
        (Place::Period, b'\r') => Some(Place::PeriodCr),
        (Place::Period, _) => Some(Place::Inside),
        (Place::PeriodCr, b'\n') => None,
        (Place::Cr, b'\n') => Some(Place::LineStart),
        (_, b'\r') => Some(Place::Cr),
        (_, _) => Some(Place::Inside),
    }
}

// Appends to `out` what the octet gives.
fn tell(place: Place, octet: u8, out: &mut Vec<u8>) -> Result<(), AllocError>
    ensures ok { OnOk result (out.new.items ≡ out.old.items ++ told place octet) }
    ensures err { OnErr result (out.new.items ≡ out.old.items) }
{
    match (place, octet) {
        (Place::LineStart, b'.') | (Place::Period, b'\r') | (Place::PeriodCr, b'\n') => Ok(()),
        (Place::PeriodCr, _) => out.extend_from_slice(&[b'\r', octet]),
        (_, _) => out.extend_from_slice(&[octet]),
    }
}

// How many octets at the beginning are given as they are and change no place: inside a line those before a CR.
fn run_len(place: Place, rest: &[u8]) -> usize
    ensures within { result ≤ length rest.now }
    ensures run { IsRun place (take result rest.now) }
{
    match place {
        Place::Inside => len_before(b'\r', rest),
        Place::LineStart | Place::Period | Place::PeriodCr | Place::Cr => 0,
    }
}

// Appends those octets to `out`, and says how many they are.
fn give_run(place: Place, rest: &[u8], out: &mut Vec<u8>) -> Result<usize, AllocError>
    ensures ok { IfOk result (λ count. (count ≤ length rest.now) × IsRun place (take count rest.now) × (out.new.items ≡ out.old.items ++ take count rest.now)) }
    ensures err { OnErr result (out.new.items ≡ out.old.items) }
{
    let count = run_len(place, rest);
    out.extend_from_slice(&rest[..count])?;
    Ok(count)
}

// Appends to `out` what the octets give, up to the end of the text.
fn undot(place: &mut Place, piece: &[u8], out: &mut Vec<u8>) -> Result<Cut, AllocError>
    ensures ok { IfOk result (λ cut. (more : List ℕ) × (out.new.items ≡ out.old.items ++ more)
        × ((fed given : List ℕ) → UndotsAt place.old fed given → Behind cut place.new fed piece.now (given ++ more))) }
    ensures used { IfOk result (λ cut. IsWithin cut piece.now) }
    ensures err { OnErr result ((more : List ℕ) × (out.new.items ≡ out.old.items ++ more)) }
{
    let mut at = 0;
    while at < piece.len() {
        let run = give_run(*place, &piece[at..], out)?;
        if run > 0 {
            at += run;
            continue;
        }
        tell(*place, piece[at], out)?;
        match next_place(*place, piece[at]) {
            Some(next) => *place = next,
            None => {
                *place = Place::LineStart;
                return Ok(Cut::Ended(at + 1));
            }
        }
        at += 1;
    }
    Ok(Cut::More)
}
