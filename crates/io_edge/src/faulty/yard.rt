// A yard that fails once.
ghost use Rattle.std.specs.Prelude.{◌≡◌, ◌+◌};

use super::Countdown;
use crate::{Protocol, Yard, YardRefusal};

/// A yard of which one call of `store` and one of `door` fail. Taking back never fails, and a file is read as the yard inside
/// reads it.
#[derive(Drop)]
pub struct FaultyYard<Y> {
    /// The yard that makes the stores and the doors, and reads the files.
    pub inner: Y,
    /// Which call of `store` fails.
    pub countdown: Countdown,
    /// Which call of `door` fails.
    pub doors: Countdown,
}

impl<Y: Yard> FaultyYard<Y> {
    /// Wraps the yard. The call of `store` of this number fails, the first one being 1. At 0 none fails.
    pub fn new(inner: Y, call: u64) -> FaultyYard<Y>
        ensures inner { result.inner ≡ inner }
        ensures left { result.countdown.left ≡ call }
        ensures faults { result.countdown.faults ≡ 0 }
        ensures doors_left { result.doors.left ≡ 0 }
        ensures door_faults { result.doors.faults ≡ 0 }
    {
        FaultyYard {
            inner,
            countdown: Countdown::new(call),
            doors: Countdown::new(0),
        }
    }

    /// Wraps the yard. The call of `door` of this number fails, the first one being 1. At 0 none fails.
    pub fn at_door(inner: Y, call: u64) -> FaultyYard<Y>
        ensures inner { result.inner ≡ inner }
        ensures left { result.countdown.left ≡ 0 }
        ensures faults { result.countdown.faults ≡ 0 }
        ensures doors_left { result.doors.left ≡ call }
        ensures door_faults { result.doors.faults ≡ 0 }
    {
        FaultyYard {
            inner,
            countdown: Countdown::new(0),
            doors: Countdown::new(call),
        }
    }
}

impl<Y: Yard> Yard for FaultyYard<Y> {
    type Store = Y::Store;

    type Door = Y::Door;

    type Fate = Y::Fate;

    type Clock = Y::Clock;

    type Gate = Y::Gate;

    ghost handed = { λ y. Y.handed y.inner };

    ghost returned = { λ y. Y.returned y.inner };

    ghost opened = { λ y. Y.opened y.inner };

    ghost closed = { λ y. Y.closed y.inner };

    ghost files = { λ y. Y.files y.inner };

    ghost faults = { λ y. Y.faults y.inner + y.countdown.faults };

    ghost unread = { λ y. Y.unread y.inner };

    ghost unopened = { λ y. Y.unopened y.inner + y.doors.faults };

    fn store(&mut self, shard: u16, node: u8, folder: &str) -> Result<Y::Store, YardRefusal> {
        if self.countdown.strikes() {
            return Err(YardRefusal::Failed);
        }
        self.inner.store(shard, node, folder)
    }

    fn give_back(&mut self, shard: u16, node: u8, store: Y::Store) {
        self.inner.give_back(shard, node, store);
    }

    fn file(&mut self, name: &str) -> Result<Vec<u8>, YardRefusal> {
        self.inner.file(name)
    }

    fn door(&mut self, node: u8, protocol: Protocol, port: u16) -> Result<Y::Door, YardRefusal> {
        if self.doors.strikes() {
            return Err(YardRefusal::Failed);
        }
        self.inner.door(node, protocol, port)
    }

    fn shut(&mut self, node: u8, protocol: Protocol, door: Y::Door) {
        self.inner.shut(node, protocol, door);
    }

    fn fate(&mut self) -> Y::Fate {
        self.inner.fate()
    }

    fn clock(&mut self) -> Y::Clock {
        self.inner.clock()
    }

    fn gate(&mut self) -> Y::Gate {
        self.inner.gate()
    }
}
