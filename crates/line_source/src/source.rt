//! Lines by parts.
ghost use Rattle.std.specs.Prelude.{◌≡◌, ◌++◌, ◌<◌, ◌≤◌, List, ℕ, Ok, IsErrOf};
ghost use Rattle.std.specs.Io.KnownBytes.{Consumes, IsAtEnd};
ghost use Rattle.io_edge.specs.Causes.{Rose};
ghost use Rattle.line_source.specs.Parts.{IsPart};
ghost use Rattle.line_source.specs.declared.source.PartFault.TheVariants.{Failed as SourceFailed};

use io_edge::{Failed, Source};
use std::alloc::AllocError;

/// How far a part goes.
#[derive(Clone, Copy, Debug, PartialEq, Eq)]
pub enum LinePart {
    /// Through the line's LF.
    Whole,
    /// Not as far as the line's LF. It has an octet at least.
    Open,
    /// The source has ended, and the part is empty.
    End,
}

/// Why no part was taken.
#[derive(Clone, Copy, Debug, PartialEq, Eq)]
pub enum PartFault {
    /// The source failed, and its count rose.
    Failed,
    /// Memory ran out.
    NoMemory,
}

impl From<Failed> for PartFault {
    ghost use Rattle.std.specs.Prelude.{◌≡◌};
    ghost use Rattle.line_source.specs.declared.source.PartFault.TheVariants.{Failed as SourceFailed};

    ghost from_gives = { λ _ e. e ≡ SourceFailed };

    fn from(_: Failed) -> PartFault {
        PartFault::Failed
    }
}

impl From<AllocError> for PartFault {
    ghost use Rattle.std.specs.Prelude.{◌≡◌};
    ghost use Rattle.line_source.specs.declared.source.PartFault.TheVariants.{NoMemory};

    ghost from_gives = { λ _ e. e ≡ NoMemory };

    fn from(_: AllocError) -> PartFault {
        PartFault::NoMemory
    }
}

/// A source that can tell where its next LF stands.
pub trait LineSource: Source {
    /// Takes what is at hand of a line, through its LF and no further, and at most so many octets. All but the LF are appended
    /// to `line`.
    ///
    /// # Errors
    ///
    /// `Failed` and `NoMemory`. No octet was taken then.
    fn take_part(&mut self, most: usize, line: &mut Vec<u8>) -> Result<LinePart, PartFault>
        requires some { 0 < most }
        ensures took { (taken more : List ℕ) × Consumes (Self.left self.old) (Self.left self.new) taken
            × (line.new.items ≡ line.old.items ++ more) × IsPart most taken more result }
        ensures end { result ≡ Ok LinePart.End → IsAtEnd (Self.left self.new) }
        ensures later { Self.faults self.old ≤ Self.faults self.new }
        ensures failed { IsErrOf result SourceFailed → Rose (Self.faults self.old) (Self.faults self.new) };
}
