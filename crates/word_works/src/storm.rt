// The word `storm`.
ghost use Rattle.std.specs.Prelude.{◌≡◌, ◌⊎◌};
ghost use Rattle.io_edge.specs.Causes.{Rose};
ghost use Rattle.word_works.specs.Storms.{WritesStorm};

use io_edge::Sink;
use std::alloc::Global;
use storm_maker::{StormFault, storm_into};

/// Writes the tape of this number, of so many rounds, and answers the exit status.
///
/// | Status | Comes where | What is written |
/// |---|---|---|
/// | 0 | the tape was written | the tape |
/// | 5 | the sink failed | a part of the tape, never the whole |
/// | 7 | memory ran out | a part of the tape, never the whole |
pub fn write_storm<K: Sink>(alloc: Global, sink: &mut K, number: u64, size: u32) -> u8
    ensures storm { WritesStorm (K.contents sink.old) (K.contents sink.new) number size result }
    ensures write_fault { result ≡ 5 → Rose (K.faults sink.old) (K.faults sink.new) }
    ensures complete { (Rose (K.faults sink.old) (K.faults sink.new) → ⊥) → (result ≡ 0) ⊎ (result ≡ 7) }
{
    match storm_into(alloc, sink, number, size) {
        Ok(()) => 0,
        Err(StormFault::WriteFault) => 5,
        Err(StormFault::NoMemory) => 7,
    }
}
