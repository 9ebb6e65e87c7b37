// Octets that come in and octets that go out. What is left and what is held are told or not.
ghost use Rattle.std.specs.Prelude.{◌≡◌, ◌<◌, List, ℕ, Option, length, IfOk};
ghost use Rattle.std.specs.Io.{ReadsAtMost, WritesAtMost};
ghost use Rattle.std.specs.Io.KnownBytes.{ReadConsumes, WriteAppends};
ghost use Rattle.io_edge.specs.Causes.{Rose, HasCause};
ghost use Rattle.io_edge.specs.Octets.{Writes};

use crate::Failed;

/// Where octets come from. Its count of faults never falls.
pub trait Source {
    /// The octets that are left, where told.
    ghost left: { Self → Option (List ℕ) };

    /// How often it has failed.
    ghost faults: { Self → ℕ };

    /// Takes octets from the beginning of what is left. 0 for a slice that is not empty is the end.
    /// A failed call takes none, and a later call may go on.
    fn read(&mut self, into: &mut [u8]) -> Result<usize, Failed>
        ensures bound { ReadsAtMost result into.new }
        ensures octets { ReadConsumes (left self.old) (left self.new) result into.new }
        ensures cause { HasCause (faults self.old) (faults self.new) result };
}

/// Where octets go. Its count of faults never falls.
pub trait Sink {
    /// The octets that it holds, where told.
    ghost contents: { Self → Option (List ℕ) };

    /// How often it has failed.
    ghost faults: { Self → ℕ };

    /// Appends that many octets from the beginning of the piece. A failed call appends none.
    /// Taking 0 octets of a piece that is not empty counts as a fault.
    fn write(&mut self, piece: &[u8]) -> Result<usize, Failed>
        ensures bound { WritesAtMost result piece.now }
        ensures octets { WriteAppends (contents self.old) (contents self.new) result piece.now }
        ensures nothing { IfOk result (λ n. n ≡ 0 → 0 < length piece.now → Rose (faults self.old) (faults self.new)) }
        ensures cause { HasCause (faults self.old) (faults self.new) result };
}

/// Writes the whole piece, in as many calls as the sink needs.
///
/// At a fault a prefix of the piece is written, and never all of it.
pub fn write_all<K: Sink>(sink: &mut K, piece: &[u8]) -> Result<(), Failed>
    ensures octets { Writes (K.contents sink.old) (K.contents sink.new) result piece.now }
    ensures cause { HasCause (K.faults sink.old) (K.faults sink.new) result }
{
    let mut rest = piece;
    while !rest.is_empty() {
        let count = sink.write(rest)?;
        if count == 0 {
            return Err(Failed);
        }
        rest = &rest[count..];
    }
    Ok(())
}
