// Sources and sinks in memory.
ghost use Rattle.std.specs.Prelude.{◌≡◌, [], Some};

use crate::{Failed, Sink, Source};
use std::alloc::Global;

/// A source over octets in memory. It never fails.
#[derive(Drop)]
pub struct SliceSource<'a> {
    /// The octets that are left.
    pub rest: &'a [u8],
}

impl<'a> SliceSource<'a> {
    /// A source that gives these octets and then ends.
    pub fn new(octets: &'a [u8]) -> SliceSource<'a>
        ensures { result.rest.now ≡ octets.now }
    {
        SliceSource { rest: octets }
    }
}

impl<'a> Source for SliceSource<'a> {
    ghost left = { λ s. Some s.rest.now };

    ghost faults = { λ _. 0 };

    fn read(&mut self, into: &mut [u8]) -> Result<usize, Failed> {
        let count = into.len().min(self.rest.len());
        into[..count].copy_from_slice(&self.rest[..count]);
        self.rest = &self.rest[count..];
        Ok(count)
    }
}

/// A sink into memory. It takes each piece whole, and fails where memory is lacking.
#[derive(Drop)]
pub struct VecSink {
    /// The octets that were written.
    pub held: Vec<u8>,
    /// How often memory was lacking.
    pub faults: u64,
}

impl VecSink {
    /// An empty sink.
    pub fn new(alloc: Global) -> VecSink
        ensures held { result.held.items ≡ [] }
        ensures faults { result.faults ≡ 0 }
    {
        VecSink {
            held: Vec::new(alloc),
            faults: 0,
        }
    }
}

impl Sink for VecSink {
    ghost contents = { λ s. Some s.held.items };

    ghost faults = { λ s. s.faults };

    fn write(&mut self, piece: &[u8]) -> Result<usize, Failed> {
        match self.held.extend_from_slice(piece) {
            Ok(()) => Ok(piece.len()),
            Err(_) => {
                self.faults = self.faults.saturating_add(1);
                Err(Failed)
            }
        }
    }
}
