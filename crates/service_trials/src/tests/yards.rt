// A yard whose doors are those of a script.
ghost use Rattle.std.specs.Prelude.{None};

use super::doors::ScriptDoor;
use super::gates::{Holds, TrialGate};
use super::signals::Signals;
use io_edge::faulty::FaultyDoor;
use io_edge::{CarryAll, Disk, Protocol, SetClock, Yard, YardRefusal};
use std::marker::PhantomData;

/// A yard in memory, whose doors are those of a script. It has no stores and no files. Its fates carry each letter, and its clocks
/// stand at 0.
#[derive(Drop)]
pub(super) struct TrialYard<'a, D> {
    text: &'static [u8],
    signals: &'a Signals,
    holds: Holds,
    // which call of each door fails; none where it is 0
    accept: u64,
    faults: u64,
    unread: u64,
    store: PhantomData<D>,
}

impl<'a, D> TrialYard<'a, D> {
    /// A yard whose gates hold whom that says, and of each of whose doors this call fails; none where it is 0.
    pub(super) fn new(
        text: &'static [u8],
        signals: &'a Signals,
        holds: Holds,
        accept: u64,
    ) -> TrialYard<'a, D> {
        TrialYard {
            text,
            signals,
            holds,
            accept,
            faults: 0,
            unread: 0,
            store: PhantomData,
        }
    }
}

impl<'a, D: Disk + Drop + Send> Yard for TrialYard<'a, D> {
    type Store = D;

    type Door = FaultyDoor<ScriptDoor<'a>>;

    type Fate = CarryAll;

    type Clock = SetClock;

    type Gate = TrialGate<'a>;

    ghost handed = { λ _. None };

    ghost returned = { λ _. None };

    ghost opened = { λ _. None };

    ghost closed = { λ _. None };

    ghost files = { λ _ _. None };

    ghost faults = { λ y. y.faults };

    ghost unread = { λ y. y.unread };

    ghost unopened = { λ _. 0 };

    fn store(&mut self, shard: u16, node: u8, folder: &str) -> Result<D, YardRefusal> {
        let _ = folder;
        let _ = (shard, node);
        self.faults = self.faults.saturating_add(1);
        Err(YardRefusal::Failed)
    }

    fn give_back(&mut self, shard: u16, node: u8, store: D) {
        let _ = (shard, node);
        drop(store);
    }

    fn file(&mut self, name: &str) -> Result<Vec<u8>, YardRefusal> {
        let _ = name;
        self.unread = self.unread.saturating_add(1);
        Err(YardRefusal::Failed)
    }

    fn door(
        &mut self,
        node: u8,
        protocol: Protocol,
        port: u16,
    ) -> Result<FaultyDoor<ScriptDoor<'a>>, YardRefusal> {
        let _ = port;
        let door = ScriptDoor::new(self.text, self.signals, node, protocol);
        Ok(FaultyDoor::new(door, self.accept))
    }

    fn shut(&mut self, node: u8, protocol: Protocol, door: FaultyDoor<ScriptDoor<'a>>) {
        let _ = (node, protocol);
        drop(door);
        self.signals.leave(0);
    }

    fn fate(&mut self) -> CarryAll {
        CarryAll
    }

    fn clock(&mut self) -> SetClock {
        SetClock { seconds: 0 }
    }

    fn gate(&mut self) -> TrialGate<'a> {
        TrialGate::new(self.holds, self.signals)
    }
}
