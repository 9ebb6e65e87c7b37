// Lines from a source.
ghost use Rattle.std.specs.Prelude.{◌≡◌, ◌+◌, ◌≤◌, List, ℕ, length, IsErrOf};
ghost use Rattle.std.specs.Io.KnownBytes.{Consumes};
ghost use Rattle.io_edge.specs.Causes.{Rose};
ghost use Rattle.drive_tape.specs.Reads.{ReadsLine};

use line_source::{LinePart, LineSource, PartFault};
use std::alloc::Global;
use std::marker::Model;

/// How many octets a line of a tape may have, its LF among them.
const LONGEST: usize = 65_536;

/// Why no line was read.
#[derive(Clone, Copy, Debug, PartialEq, Eq)]
pub enum LineStop {
    /// The source failed.
    ReadFault,
    /// The source ended before the line was whole.
    EndedEarly,
    /// 65,536 octets were taken, and no LF is among them.
    LongLine,
    /// As many octets were taken as might be, and the line is not whole.
    TooLong,
    /// Memory ran out.
    NoMemory,
}

impl From<PartFault> for LineStop {
    ghost use Rattle.drive_tape.specs.Reads.{stop_of};

    ghost from_gives = { λ fault stop. stop ≡ stop_of fault };

    fn from(fault: PartFault) -> LineStop {
        match fault {
            PartFault::Failed => LineStop::ReadFault,
            PartFault::NoMemory => LineStop::NoMemory,
        }
    }
}

/// A line without its LF. A contract sees its octets.
#[derive(Drop)]
pub(crate) struct Line {
    octets: Vec<u8>,
}

impl Model for Line {
    ghost use Rattle.std.specs.Prelude.{List, ℕ};

    ghost Value = { List ℕ };

    ghost view = { λ line. line.octets.items };
}

impl Line {
    /// The octets of the line, without its LF. A CR before the LF is one of them.
    pub fn octets(&self) -> &[u8]
        ensures { result.now ≡ self.now }
    {
        &self.octets
    }
}

/// The next line: its octets are taken through its LF, and none after it. `room` is how many octets may
/// still be taken, and falls by one for each.
///
/// # Errors
///
/// `LongLine` where 65,536 octets were taken without an LF, `TooLong` where no more may be taken,
/// `EndedEarly` where the source has ended, `ReadFault` where it failed, and `NoMemory`.
pub(crate) fn next_line<S: LineSource>(
    alloc: Global,
    source: &mut S,
    room: &mut u64,
) -> Result<Line, LineStop>
    ensures read { (taken : List ℕ) × Consumes (S.left source.old) (S.left source.new) taken
        × (room.new + length taken ≡ room.old) × ReadsLine result (S.left source.new) taken room.new }
    ensures later { S.faults source.old ≤ S.faults source.new }
    ensures failed { IsErrOf result LineStop.ReadFault → Rose (S.faults source.old) (S.faults source.new) }
{
    let mut octets = Vec::new(alloc);
    while octets.len() < LONGEST {
        if *room == 0 {
            return Err(LineStop::TooLong);
        }
        let before = octets.len();
        let most = (LONGEST - before).min(usize::try_from(*room).unwrap_or(LONGEST));
        let part = source.take_part(most, &mut octets)?;
        *room -= (octets.len() - before) as u64;
        match part {
            LinePart::Open => {}
            LinePart::End => return Err(LineStop::EndedEarly),
            LinePart::Whole => {
                *room -= 1;
                return Ok(Line { octets });
            }
        }
    }
    Err(LineStop::LongLine)
}
