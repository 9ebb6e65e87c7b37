//! The letters in flight, with room in memory for more.
ghost use Rattle.std.specs.Prelude.{◌≡◌, ◌≤◌, IfSome};
ghost use Rattle.std.specs.Option.{option_copied};
ghost use Rattle.std.specs.VecDeque.{deque_len, deque_capacity};
ghost use Rattle.cluster_model.specs.Steps.{letter_at};
ghost use Rattle.cluster_world.specs.Flights.{FlightIsCounted, taken_out, flights_without};
ghost use Rattle.cluster_world.specs.Hears.{CanBeHeard};
ghost use Rattle.cluster_world.specs.Posts.{out_of};
ghost use Rattle.cluster_world.specs.Reading.{flying_of};

use crate::flight::Flight;
use crate::flying::{place_in, take_out_named};
use mail_base::Letter;
use std::collections::VecDeque;

/// The letters in flight, taken out of the world as long as a step goes on, with room in memory for more.
#[derive(Drop)]
pub(crate) struct Roomy {
    pub(crate) flights: VecDeque<Flight>,
    // the octets of all of them
    pub(crate) octets: u64,
    pub(crate) sent: u64,
}

impl Roomy {
    /// The letter of this number, if it is in flight.
    pub(crate) fn letter(&self, number: u64) -> Option<&Letter>
        requires { FlightIsCounted self.now.octets self.now.sent self.now.flights.items }
        ensures is { option_copied result ≡ letter_at number self.now.flights.items }
        ensures heard { IfSome result (λ letter. CanBeHeard letter.now) }
    {
        let place = place_in(&self.flights, number)?;
        let flight = self.flights.get(place)?;
        Some(flight.letter())
    }

    /// The letter leaves, if one is named. It takes no memory.
    pub(crate) fn leave(&mut self, posted: Option<u64>)
        requires { FlightIsCounted self.old.octets self.old.sent self.old.flights.items }
        ensures left { flying_of self.new ≡ taken_out posted (flying_of self.old) }
        ensures counted { FlightIsCounted self.new.octets self.new.sent self.new.flights.items }
        ensures len { deque_len self.new.flights ≤ deque_len self.old.flights }
        ensures capacity { deque_capacity self.new.flights ≡ deque_capacity self.old.flights }
    {
        self.octets -= take_out_named(&mut self.flights, posted);
    }
}
