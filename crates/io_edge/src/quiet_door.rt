// A door in memory.
ghost use Rattle.std.specs.Prelude.{◌≡◌, Some};

use crate::{Accepted, Door, Failed, Sink, Source};
use std::collections::VecDeque;

/// A door that gives connections in memory, in order, and is quiet where none is left. It never fails.
#[derive(Drop)]
pub struct QuietDoor<I, O> {
    /// The connections that are left, the next one first.
    pub conns: VecDeque<(I, O)>,
    /// How many calls found none.
    pub quiets: u64,
}

impl<I: Source + Drop + Send, O: Sink + Drop + Send> QuietDoor<I, O> {
    /// A door that gives these connections, the first one first.
    pub fn new(conns: Vec<(I, O)>) -> QuietDoor<I, O>
        ensures conns { result.conns.items ≡ conns.items }
        ensures quiets { result.quiets ≡ 0 }
    {
        QuietDoor {
            conns: VecDeque::from(conns),
            quiets: 0,
        }
    }
}

impl<I: Source + Drop + Send, O: Sink + Drop + Send> Door for QuietDoor<I, O> {
    type In = I;

    type Out = O;

    ghost left = { λ d. Some d.conns.items };

    ghost quiets = { λ d. d.quiets };

    ghost faults = { λ _. 0 };

    fn accept(&mut self) -> Result<Accepted<I, O>, Failed> {
        match self.conns.pop_front() {
            Some((source, sink)) => Ok(Accepted::Conn(source, sink)),
            None => {
                self.quiets = self.quiets.saturating_add(1);
                Ok(Accepted::Quiet)
            }
        }
    }
}
