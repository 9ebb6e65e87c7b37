// The sources of io_edge as sources of lines.
ghost use Rattle.std.specs.Prelude.{◌≡◌, ◌++◌, ◌<◌, ◌≤◌, List, ℕ, Ok, IsErrOf};
ghost use Rattle.std.specs.Io.KnownBytes.{Consumes, IsAtEnd};
ghost use Rattle.io_edge.specs.Causes.{Rose};
ghost use Rattle.line_source.specs.Parts.{IsCut, IsPart, lf_of};
ghost use Rattle.line_source.specs.declared.source.PartFault.TheVariants.{Failed as SourceFailed};

use crate::{LinePart, LineSource, PartFault};
use io_edge::faulty::FaultySource;
use io_edge::{ReadSource, SliceSource, Source};
use memchr::memchr;
use std::io::BufRead;

impl LinePart {
    // How many octets it takes beside those of the line.
    fn lf(self) -> usize
        ensures { result ≡ lf_of self }
    {
        match self {
            LinePart::Whole => 1,
            LinePart::Open | LinePart::End => 0,
        }
    }
}

// How many of these octets come before the first LF, or all.
fn cut(held: &[u8]) -> (usize, LinePart)
    ensures { IsCut held.now result.0 result.1 }
{
    match memchr(b'\n', held) {
        Some(at) => (at, LinePart::Whole),
        None if held.is_empty() => (0, LinePart::End),
        None => (held.len(), LinePart::Open),
    }
}

// Takes a part of what the reader holds. It is empty where nothing is held.
fn take_held<B: BufRead>(
    reader: &mut B,
    most: usize,
    line: &mut Vec<u8>,
) -> Result<LinePart, PartFault>
    requires some { 0 < most }
    ensures took { (taken more : List ℕ) × Consumes (B.remaining reader.old) (B.remaining reader.new) taken
        × (line.new.items ≡ line.old.items ++ more) × IsPart most taken more result }
{
    let held = match reader.fill_buf() {
        Ok(held) => held,
        Err(_) => return Err(PartFault::Failed),
    };
    let here = &held[..held.len().min(most)];
    let (count, part) = cut(here);
    line.extend_from_slice(&here[..count])?;
    reader.consume(count + part.lf());
    Ok(part)
}

// Takes one octet.
fn take_octet<S: Source>(source: &mut S, line: &mut Vec<u8>) -> Result<LinePart, PartFault>
    ensures took { (taken more : List ℕ) × Consumes (S.left source.old) (S.left source.new) taken
        × (line.new.items ≡ line.old.items ++ more) × IsPart 1 taken more result }
    ensures end { result ≡ Ok LinePart.End → IsAtEnd (S.left source.new) }
    ensures later { S.faults source.old ≤ S.faults source.new }
    ensures failed { IsErrOf result SourceFailed → Rose (S.faults source.old) (S.faults source.new) }
{
    line.reserve(1)?;
    let mut octet = [0u8];
    if source.read(&mut octet)? == 0 {
        return Ok(LinePart::End);
    }
    if octet[0] == b'\n' {
        return Ok(LinePart::Whole);
    }
    line.push_reserved(octet[0]);
    Ok(LinePart::Open)
}

// One fault more.
fn count_fault(faults: &mut u64)
    ensures rose { Rose faults.old faults.new }
    ensures later { faults.old ≤ faults.new }
{
    *faults = faults.saturating_add(1);
}

impl<R: BufRead> LineSource for ReadSource<R> {
    fn take_part(&mut self, most: usize, line: &mut Vec<u8>) -> Result<LinePart, PartFault> {
        match take_held(&mut self.inner, most, line) {
            // What a reader does at its end is said of a read alone.
            Ok(LinePart::End) => take_octet(self, line),
            Err(PartFault::Failed) => {
                count_fault(&mut self.faults);
                Err(PartFault::Failed)
            }
            taken => taken,
        }
    }
}

impl<'a> LineSource for SliceSource<'a> {
    fn take_part(&mut self, most: usize, line: &mut Vec<u8>) -> Result<LinePart, PartFault> {
        let here = &self.rest[..self.rest.len().min(most)];
        let (count, part) = cut(here);
        line.extend_from_slice(&here[..count])?;
        self.rest = &self.rest[count + part.lf()..];
        Ok(part)
    }
}

// Octet by octet, so that the read of each can be the one that fails.
impl<S: Source> LineSource for FaultySource<S> {
    fn take_part(&mut self, _: usize, line: &mut Vec<u8>) -> Result<LinePart, PartFault> {
        take_octet(self, line)
    }
}
