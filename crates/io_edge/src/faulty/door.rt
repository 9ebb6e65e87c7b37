// A door that fails once.
ghost use Rattle.std.specs.Prelude.{◌≡◌, ◌+◌};

use super::Countdown;
use crate::{Accepted, Door, Failed};

/// A door of which one call fails. The connections are those of the inner door.
#[derive(Drop)]
pub struct FaultyDoor<G> {
    /// The door that gives the connections.
    pub inner: G,
    /// Which call fails.
    pub countdown: Countdown,
}

impl<G: Door> FaultyDoor<G> {
    /// Wraps the door. The call of this number fails, the first one being 1. At 0 none fails.
    pub fn new(inner: G, call: u64) -> FaultyDoor<G>
        ensures inner { result.inner ≡ inner }
        ensures left { result.countdown.left ≡ call }
        ensures faults { result.countdown.faults ≡ 0 }
    {
        FaultyDoor {
            inner,
            countdown: Countdown::new(call),
        }
    }
}

impl<G: Door> Door for FaultyDoor<G> {
    type In = G::In;

    type Out = G::Out;

    ghost left = { λ d. G.left d.inner };

    ghost quiets = { λ d. G.quiets d.inner };

    ghost faults = { λ d. G.faults d.inner + d.countdown.faults };

    fn accept(&mut self) -> Result<Accepted<G::In, G::Out>, Failed> {
        if self.countdown.strikes() {
            return Err(Failed);
        }
        self.inner.accept()
    }
}
