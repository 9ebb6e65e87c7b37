//! A letter in flight, with its number.
ghost use Rattle.std.specs.Prelude.{◌≡◌, ◌<◌, ◌^◌};
ghost use Rattle.cluster_model.specs.Room.{octets_of};

use mail_base::Letter;
use std::marker::Model;

/// A letter in flight, with its number.
#[derive(Drop)]
pub(crate) struct Flight {
    number: u64,
    letter: Letter,
}

impl Model for Flight {
    ghost use Rattle.cluster_model.specs.Room.{Flight as Seen};

    ghost Value = { Seen };

    ghost view = { λ f. record { number = f.number; letter = f.letter } };
}

/// What a letter counts for: 64 octets, and those of the message that it carries.
pub(crate) fn octets_of(letter: &Letter) -> u128
    ensures is { result ≡ octets_of letter.now }
    ensures small { result < 2 ^ 65 }
{
    64 + letter.body.carried() as u128
}

impl Flight {
    pub(crate) fn new(number: u64, letter: Letter) -> Flight
        ensures { result ≡ record { number = number; letter = letter } }
    {
        Flight { number, letter }
    }

    pub(crate) fn number(&self) -> u64
        ensures { result ≡ self.now.number }
    {
        self.number
    }

    pub(crate) fn letter(&self) -> &Letter
        ensures { result.now ≡ self.now.letter }
    {
        &self.letter
    }
}
