// Ends of a connection.
ghost use Rattle.std.specs.Prelude.{None};

use io_edge::{Failed, Sink, Source};

// A source that gives its octets in two reads, where each has room.
#[derive(Drop)]
pub(super) struct CutSource<'a> {
    pub(super) front: &'a [u8],
    pub(super) back: &'a [u8],
}

impl<'a> Source for CutSource<'a> {
    ghost use Rattle.std.specs.Prelude.{None};

    ghost left = { λ _. None };

    ghost faults = { λ _. 0 };

    fn read(&mut self, into: &mut [u8]) -> Result<usize, Failed> {
        if self.front.is_empty() {
            self.front = self.back;
            self.back = &[];
        }
        let count = into.len().min(self.front.len());
        into[..count].copy_from_slice(&self.front[..count]);
        self.front = &self.front[count..];
        Ok(count)
    }
}

// A sink that takes nothing.
#[derive(Drop)]
pub(super) struct FullSink {
    pub(super) faults: u64,
}

impl Sink for FullSink {
    ghost use Rattle.std.specs.Prelude.{None};

    ghost contents = { λ _. None };

    ghost faults = { λ k. k.faults };

    fn write(&mut self, piece: &[u8]) -> Result<usize, Failed> {
        let _ = piece;
        self.faults = self.faults.saturating_add(1);
        Ok(0)
    }
}
