// The tape of a storm, written to a sink round by round.
ghost use Rattle.std.specs.Prelude.{◌≡◌, ◌≤◌, IsErrOf};
ghost use Rattle.io_edge.specs.Causes.{Rose};
ghost use Rattle.io_edge.specs.Octets.{Writes};
ghost use Rattle.storm_maker.specs.Tape.{text_of, lines_of, end_lines, storm_tape};

use crate::storm::{Happening, happens};
use crate::texts::{add_round, end_text};
use io_edge::{Sink, write_all};
use rand_pcg::Lcg64Xsh32;
use std::alloc::Global;

/// Why a storm's tape was not written whole.
#[derive(Clone, Copy, Debug, PartialEq, Eq)]
pub enum StormFault {
    /// The sink failed.
    WriteFault,
    /// Memory ran out.
    NoMemory,
}

/// The plan at the head of each tape.
const PLAN: &[u8] =
    b"nodes 5\ncopies 3 2\nbuckets 16\nuser u0 s0\nuser u1 s1\nuser u2 s2\nuser u3 s3\nuser u4 s4\nuser u5 s5\nuser u6 s6\nuser u7 s7\npostmaster u0\ngo\n";

/// The stream of the generator.
const STREAM: u64 = 54;

// Writes a part of the tape.
fn put<K: Sink>(sink: &mut K, part: &[u8]) -> Result<(), StormFault>
    ensures octets { Writes (K.contents sink.old) (K.contents sink.new) result part.now }
    ensures later { K.faults sink.old ≤ K.faults sink.new }
    ensures write_fault { IsErrOf result StormFault.WriteFault → Rose (K.faults sink.old) (K.faults sink.new) }
{
    match write_all(sink, part) {
        Ok(()) => Ok(()),
        Err(_) => Err(StormFault::WriteFault),
    }
}

// Writes the lines of one round.
fn put_round<K: Sink>(
    alloc: Global,
    sink: &mut K,
    session: u64,
    happening: Happening,
) -> Result<(), StormFault>
    ensures octets { Writes (K.contents sink.old) (K.contents sink.new) result (text_of (lines_of session happening)) }
    ensures later { K.faults sink.old ≤ K.faults sink.new }
    ensures write_fault { IsErrOf result StormFault.WriteFault → Rose (K.faults sink.old) (K.faults sink.new) }
{
    let mut text = Vec::new(alloc);
    let Ok(()) = add_round(alloc, &mut text, session, happening) else {
        return Err(StormFault::NoMemory);
    };
    put(sink, &text)
}

// Writes the end of the tape.
fn put_end<K: Sink>(alloc: Global, sink: &mut K, down: Option<u32>) -> Result<(), StormFault>
    ensures octets { Writes (K.contents sink.old) (K.contents sink.new) result (text_of (end_lines down)) }
    ensures later { K.faults sink.old ≤ K.faults sink.new }
    ensures write_fault { IsErrOf result StormFault.WriteFault → Rose (K.faults sink.old) (K.faults sink.new) }
{
    let Ok(text) = end_text(alloc, down) else {
        return Err(StormFault::NoMemory);
    };
    put(sink, &text)
}

/// Writes the tape of this number, of so many rounds.
///
/// # Errors
///
/// `WriteFault` comes only where the sink counted a fault, and `NoMemory` where memory ran out. A prefix of the tape was then
/// written, and never all of it.
pub fn storm_into<K: Sink>(
    alloc: Global,
    sink: &mut K,
    number: u64,
    rounds: u32,
) -> Result<(), StormFault>
    ensures tape { Writes (K.contents sink.old) (K.contents sink.new) result (storm_tape number rounds) }
    ensures later { K.faults sink.old ≤ K.faults sink.new }
    ensures write_fault { IsErrOf result StormFault.WriteFault → Rose (K.faults sink.old) (K.faults sink.new) }
{
    let mut draws = Lcg64Xsh32::new(number, STREAM);
    let mut down = None;
    let mut session = 1;
    put(sink, PLAN)?;
    for round in 0..rounds {
        let happening = happens(&mut draws, down);
        put_round(alloc, sink, session, happening)?;
        down = happening.down_after(down);
        session = happening.session_after(session);
    }
    put_end(alloc, sink, down)
}
