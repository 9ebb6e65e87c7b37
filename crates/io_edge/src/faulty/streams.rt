// Sources and sinks that fail once, and a sink that takes little at a time.
ghost use Rattle.std.specs.Prelude.{◌≡◌, ◌+◌};

use super::Countdown;
use crate::{Failed, Sink, Source};

/// A source of which one read fails. The octets are those of the inner source.
#[derive(Drop)]
pub struct FaultySource<S> {
    /// The source that gives the octets.
    pub inner: S,
    /// Which read fails.
    pub countdown: Countdown,
}

impl<S: Source> FaultySource<S> {
    /// Wraps the source. The read of this number fails, the first one being 1. At 0 none fails.
    pub fn new(inner: S, call: u64) -> FaultySource<S>
        ensures inner { result.inner ≡ inner }
        ensures left { result.countdown.left ≡ call }
        ensures faults { result.countdown.faults ≡ 0 }
    {
        FaultySource {
            inner,
            countdown: Countdown::new(call),
        }
    }
}

impl<S: Source> Source for FaultySource<S> {
    ghost left = { λ s. S.left s.inner };

    ghost faults = { λ s. S.faults s.inner + s.countdown.faults };

    fn read(&mut self, into: &mut [u8]) -> Result<usize, Failed> {
        if self.countdown.strikes() {
            return Err(Failed);
        }
        self.inner.read(into)
    }
}

/// A sink of which one write fails. The octets are those of the inner sink.
#[derive(Drop)]
pub struct FaultySink<K> {
    /// The sink that takes the octets.
    pub inner: K,
    /// Which write fails.
    pub countdown: Countdown,
}

impl<K: Sink> FaultySink<K> {
    /// Wraps the sink. The write of this number fails, the first one being 1. At 0 none fails.
    pub fn new(inner: K, call: u64) -> FaultySink<K>
        ensures inner { result.inner ≡ inner }
        ensures left { result.countdown.left ≡ call }
        ensures faults { result.countdown.faults ≡ 0 }
    {
        FaultySink {
            inner,
            countdown: Countdown::new(call),
        }
    }
}

impl<K: Sink> Sink for FaultySink<K> {
    ghost contents = { λ s. K.contents s.inner };

    ghost faults = { λ s. K.faults s.inner + s.countdown.faults };

    fn write(&mut self, piece: &[u8]) -> Result<usize, Failed> {
        if self.countdown.strikes() {
            return Err(Failed);
        }
        self.inner.write(piece)
    }
}

/// A sink that passes on a few octets in each call.
#[derive(Drop)]
pub struct ShortSink<K> {
    /// The sink that takes the octets.
    pub inner: K,
    /// How many octets a call passes on at most. At 0 it passes on one.
    pub most: usize,
}

impl<K: Sink> Sink for ShortSink<K> {
    ghost contents = { λ s. K.contents s.inner };

    ghost faults = { λ s. K.faults s.inner };

    fn write(&mut self, piece: &[u8]) -> Result<usize, Failed> {
        let count = piece.len().min(self.most.max(1));
        self.inner.write(&piece[..count])
    }
}
