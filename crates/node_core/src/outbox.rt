//! What a call of a node sends.

ghost use Rattle.std.specs.Prelude.{◌≡◌, [], Some, None};

use mail_base::{Letter, Sequence};
use std::alloc::Global;

/// Why a letter is thrown.
#[derive(Clone, Copy, Debug, PartialEq, Eq)]
pub enum Why {
    /// Its receiver is not up.
    Down,
    /// It carries an epoch, and its receiver has installed another or none.
    Stale,
    /// A letter of membership: its epoch is over.
    Old,
    /// Its epoch was never promised.
    NotPromised,
    /// Its epoch does not name its receiver.
    NotMember,
    /// It answers a ticket or a group that is not there.
    Late,
}

/// What a call of a node sends, and why the letter that it was handed was thrown, if it was.
#[derive(Drop)]
pub struct Outbox {
    /// The letters to other nodes, in order of receiver.
    pub letters: Sequence<Letter>,
    /// Why the letter was thrown.
    pub thrown: Option<Why>,
}

impl Outbox {
    /// These letters are sent.
    pub(crate) fn sent(letters: Sequence<Letter>) -> Outbox
        ensures letters { result.letters ≡ letters }
        ensures thrown { result.thrown ≡ None }
    {
        Outbox {
            letters,
            thrown: None,
        }
    }

    /// Nothing is sent, and the letter was thrown.
    pub(crate) fn thrown(alloc: Global, why: Why) -> Outbox
        ensures letters { result.letters ≡ [] }
        ensures thrown { result.thrown ≡ Some why }
    {
        Outbox {
            letters: Sequence::new(alloc),
            thrown: Some(why),
        }
    }
}
