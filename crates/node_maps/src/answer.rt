// What a node answers to a letter.
ghost use Rattle.std.specs.Prelude.{◌≡◌, Some, None};

use mail_base::{Letter, Sequence};

/// Why a node throws a letter of membership or maps.
#[derive(Clone, Copy, Debug, PartialEq, Eq)]
pub enum Refusal {
    /// It is of another epoch than the one that is installed.
    Stale,
    /// Its epoch is below the promise, or not above the one that is installed.
    Old,
    /// Its epoch is above the promise.
    NotPromised,
    /// Its membership does not name the node in its boot.
    NotMember,
    /// It answers a group that is not open.
    Late,
}

/// What a node sends once it has heard a letter, and why it threw the letter, if it did.
#[derive(Drop)]
pub struct Answer {
    /// The letters to other nodes.
    pub letters: Sequence<Letter>,
    /// Why the letter was thrown.
    pub thrown: Option<Refusal>,
}

impl Answer {
    /// The letter was heard.
    pub(crate) fn heard(letters: Sequence<Letter>) -> Answer
        ensures { result ≡ record { letters = letters; thrown = None } }
    {
        Answer {
            letters,
            thrown: None,
        }
    }

    /// The letter was thrown.
    pub(crate) fn thrown(letters: Sequence<Letter>, refusal: Refusal) -> Answer
        ensures { result ≡ record { letters = letters; thrown = Some refusal } }
    {
        Answer {
            letters,
            thrown: Some(refusal),
        }
    }
}
