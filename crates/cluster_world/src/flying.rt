//! The letters in flight, in order of number.
ghost use Rattle.std.specs.Prelude.{nat_le, ◌≡◌, ◌+◌, ◌≤◌, ◌<◌, ◌++◌, ◌∷◌, [], IfOk, IfSome, is_some, true, OnErr, MatchOption, None, Some, length, ◌^◌, vec_len, vec_capacity};
ghost use Rattle.std.specs.Option.{option_copied};
ghost use Rattle.std.specs.VecDeque.{deque_len, deque_capacity};
ghost use Rattle.cluster_model.specs.Room.{fits, octets_flying, octets_of};
ghost use Rattle.cluster_model.specs.Steps.{letter_at, letters_end};
ghost use Rattle.cluster_model.specs.Plain.{without_letter};
ghost use Rattle.cluster_world.specs.Regroups.{has_room_for_rounds};
ghost use Rattle.cluster_world.specs.Hears.{CanBeHeard, AllCanBeHeard};
ghost use Rattle.cluster_world.specs.Reading.{flying_of};
ghost use Rattle.cluster_world.specs.Flights.{NumbersRise, AreInOrder, FlightIsCounted, put_one, put_all, put_down, flights_without, taken_out, HasAt, first_number};

use crate::flight::{Flight, octets_of};
use crate::limits::{LETTERS_END, MOST_LETTERS, MOST_OCTETS};
use crate::roomy::Roomy;
use mail_base::Letter;
use std::alloc::{AllocError, Global};
use std::collections::VecDeque;
use std::marker::Model;

/// The letters in flight, in order of number. A contract sees their list and the number of the last letter that was sent.
#[derive(Drop)]
pub(crate) struct Flying {
    flights: VecDeque<Flight>,
    // the octets of all of them
    octets: u64,
    sent: u64,
}

impl Model for Flying {
    ghost use Rattle.cluster_world.specs.Flights.{InFlight, FlightIsCounted};

    ghost Value = { InFlight };

    ghost view = { λ f. record { flights = f.flights.items; sent = f.sent } };

    ghost invariant = { λ f. FlightIsCounted f.octets f.sent f.flights.items };
}

/// Whether no letter is sent any more once this was the last number.
pub(crate) fn is_worn(sent: u64) -> bool
    ensures { result ≡ nat_le letters_end sent }
{
    sent >= LETTERS_END
}

/// Where the letter of this number is.
pub(crate) fn place_in(flights: &VecDeque<Flight>, number: u64) -> Option<usize>
    requires rising { NumbersRise flights.now.items }
    ensures place { MatchOption result (letter_at number flights.now.items ≡ None) (λ k. HasAt flights.now.items number k) }
{
    flights
        .binary_search_by_key(&number, |flight| flight.number())
        .ok()
}

/// Whether a letter finds room beside so many letters of so many octets.
pub(crate) fn finds_room(letters: usize, octets: u64, letter: &Letter) -> bool
    ensures { result ≡ fits letters octets (octets_of letter.now) }
{
    letters < MOST_LETTERS && u128::from(octets) + octets_of(letter) <= u128::from(MOST_OCTETS)
}

/// Takes out the letter of this number, if it is in flight, and says how many octets it had.
pub(crate) fn take_out(flights: &mut VecDeque<Flight>, number: u64) -> u64
    requires rising { NumbersRise flights.old.items }
    requires few { octets_flying flights.old.items < 2 ^ 30 }
    ensures items { flights.new.items ≡ without_letter number flights.old.items }
    ensures octets { result + octets_flying flights.new.items ≡ octets_flying flights.old.items }
    ensures len { deque_len flights.new ≤ deque_len flights.old }
    ensures capacity { deque_capacity flights.new ≡ deque_capacity flights.old }
{
    let Some(place) = place_in(flights, number) else {
        return 0;
    };
    let Some(flight) = flights.remove(place) else {
        return 0;
    };
    octets_of(flight.letter()) as u64
}

/// The same of a letter that may be named.
pub(crate) fn take_out_named(flights: &mut VecDeque<Flight>, posted: Option<u64>) -> u64
    requires rising { NumbersRise flights.old.items }
    requires few { octets_flying flights.old.items < 2 ^ 30 }
    ensures items { flights.new.items ≡ flights_without posted flights.old.items }
    ensures octets { result + octets_flying flights.new.items ≡ octets_flying flights.old.items }
    ensures len { deque_len flights.new ≤ deque_len flights.old }
    ensures capacity { deque_capacity flights.new ≡ deque_capacity flights.old }
{
    match posted {
        Some(number) => take_out(flights, number),
        None => 0,
    }
}

/// Puts a letter behind the others, into room that was made before.
pub(crate) fn push(flights: &mut VecDeque<Flight>, flight: Flight)
    requires { deque_len flights.old < deque_capacity flights.old }
    ensures items { flights.new.items ≡ flights.old.items ++ flight ∷ [] }
    ensures len { deque_len flights.new ≡ deque_len flights.old + 1 }
    ensures capacity { deque_capacity flights.new ≡ deque_capacity flights.old }
{
    let _ = flights.push_back(flight);
}

/// Puts a letter in flight under the next number, or among those that are left where it finds no room. There is room in
/// memory for both.
fn put_one(
    flights: &mut VecDeque<Flight>,
    octets: &mut u64,
    sent: &mut u64,
    letter: Letter,
    left: &mut Vec<Letter>,
)
    requires counted { FlightIsCounted octets.old sent.old flights.old.items }
    requires numbers { sent.old + 1 < 2 ^ 64 }
    requires room { deque_len flights.old < deque_capacity flights.old }
    requires spare { vec_len left.old < vec_capacity left.old }
    requires heard { CanBeHeard letter }
    ensures counted { FlightIsCounted octets.new sent.new flights.new.items }
    ensures put { (record { flying = record { flights = flights.new.items; sent = sent.new }; left = left.new.items }) ≡ put_one letter (record { flying = record { flights = flights.old.items; sent = sent.old }; left = left.old.items }) }
    ensures len { deque_len flights.new ≤ deque_len flights.old + 1 }
    ensures capacity { deque_capacity flights.new ≡ deque_capacity flights.old }
    ensures left_len { vec_len left.new ≤ vec_len left.old + 1 }
    ensures left_capacity { vec_capacity left.new ≡ vec_capacity left.old }
    ensures number { sent.new ≤ sent.old + 1 }
{
    if finds_room(flights.len(), *octets, &letter) {
        *octets += octets_of(&letter) as u64;
        *sent += 1;
        push(flights, Flight::new(*sent, letter));
    } else {
        left.push_reserved(letter);
    }
}

/// Puts letters in flight, one by one. There is room in memory for each.
fn put_all(
    flights: &mut VecDeque<Flight>,
    octets: &mut u64,
    sent: &mut u64,
    letters: Vec<Letter>,
    left: &mut Vec<Letter>,
)
    requires counted { FlightIsCounted octets.old sent.old flights.old.items }
    requires numbers { sent.old + length letters.items < 2 ^ 64 }
    requires room { deque_len flights.old + length letters.items ≤ deque_capacity flights.old }
    requires spare { vec_len left.old + length letters.items ≤ vec_capacity left.old }
    requires heard { AllCanBeHeard letters.items }
    ensures counted { FlightIsCounted octets.new sent.new flights.new.items }
    ensures put { (record { flying = record { flights = flights.new.items; sent = sent.new }; left = left.new.items }) ≡ put_all letters.items (record { flying = record { flights = flights.old.items; sent = sent.old }; left = left.old.items }) }
{
    for letter in letters {
        put_one(flights, octets, sent, letter, left);
    }
}

// The letters, taken out of the world. It takes no memory.
fn taken(alloc: Global, flights: &mut VecDeque<Flight>, octets: &mut u64, sent: u64) -> Roomy
    ensures flights { result.flights ≡ flights.old }
    ensures octets { result.octets ≡ octets.old }
    ensures sent { result.sent ≡ sent }
    ensures none { flights.new.items ≡ [] }
    ensures zero { octets.new ≡ 0 }
{
    let flights = std::mem::replace(flights, VecDeque::new(alloc));
    let octets = std::mem::replace(octets, 0);
    Roomy {
        flights,
        octets,
        sent,
    }
}

impl Flying {
    /// No letters, and none was sent. It takes no memory.
    pub(crate) fn new(alloc: Global) -> Flying
        ensures { result ≡ record { flights = []; sent = 0 } }
    {
        Flying {
            flights: VecDeque::new(alloc),
            octets: 0,
            sent: 0,
        }
    }

    /// The number of the last letter that was sent.
    pub(crate) fn sent(&self) -> u64
        ensures { result ≡ self.now.sent }
    {
        self.sent
    }

    /// How many letters are in flight.
    pub(crate) fn count(&self) -> usize
        ensures { result ≡ length self.now.flights }
    {
        self.flights.len()
    }

    /// How many octets they have together.
    pub(crate) fn octets(&self) -> u64
        ensures { result ≡ octets_flying self.now.flights }
    {
        self.octets
    }

    /// Whether there is room for all letters of a regroup of so many nodes.
    pub(crate) fn has_room_for_rounds(&self, nodes: u8) -> bool
        requires { nodes ≤ 16 }
        ensures room { result ≡ has_room_for_rounds nodes self.now.flights }
        ensures order { AreInOrder self.now }
    {
        let letters = 6 * usize::from(nodes);
        self.flights.len() <= MOST_LETTERS - letters
            && self.octets <= MOST_OCTETS - 64 * letters as u64
    }

    /// The lowest number of a letter in flight.
    pub(crate) fn first(&self) -> Option<u64>
        ensures first { result ≡ first_number self.now.flights }
        ensures order { AreInOrder self.now }
    {
        self.flights.front().map(|flight| flight.number())
    }

    /// The letter of this number, if it is in flight.
    pub(crate) fn letter(&self, number: u64) -> Option<&Letter>
        ensures is { option_copied result ≡ letter_at number self.now.flights }
        ensures heard { IfSome result (λ letter. CanBeHeard letter.now) }
        ensures order { AreInOrder self.now }
    {
        let place = place_in(&self.flights, number)?;
        let flight = self.flights.get(place)?;
        Some(flight.letter())
    }

    /// Takes out the letter of this number, which is in flight. It takes no memory.
    pub(crate) fn take(&mut self, number: u64)
        ensures { self.new ≡ taken_out (Some number) self.old }
    {
        self.octets -= take_out(&mut self.flights, number);
    }

    /// Makes room in memory for so many letters more, and takes the letters out of the world.
    ///
    /// # Errors
    ///
    /// Out of memory alone, and nothing has changed.
    pub(crate) fn make_room(&mut self, alloc: Global, letters: usize) -> Result<Roomy, AllocError>
        ensures taken { IfOk result (λ roomy. flying_of roomy ≡ self.old) }
        ensures counted { IfOk result (λ roomy. FlightIsCounted roomy.octets roomy.sent roomy.flights.items) }
        ensures room { IfOk result (λ roomy. deque_len roomy.flights + letters ≤ deque_capacity roomy.flights) }
        ensures err { OnErr result (self.new ≡ self.old) }
    {
        self.flights.reserve(letters)?;
        Ok(taken(alloc, &mut self.flights, &mut self.octets, self.sent))
    }

    /// Takes the letter of this number, which is in flight, out of the others, and these out of the world. Its place is room in
    /// memory for one letter. It takes no memory.
    pub(crate) fn take_with_place(&mut self, alloc: Global, number: u64) -> Roomy
        requires { is_some (letter_at number self.old.flights) ≡ true }
        ensures taken { flying_of result ≡ taken_out (Some number) self.old }
        ensures counted { FlightIsCounted result.octets result.sent result.flights.items }
        ensures room { deque_len result.flights < deque_capacity result.flights }
    {
        let mut roomy = taken(alloc, &mut self.flights, &mut self.octets, self.sent);
        roomy.octets -= take_out(&mut roomy.flights, number);
        roomy
    }

    /// The letters are back in the world.
    pub(crate) fn put_back(&mut self, roomy: Roomy)
        requires { FlightIsCounted roomy.octets roomy.sent roomy.flights.items }
        ensures { self.new ≡ flying_of roomy }
    {
        self.flights = roomy.flights;
        self.octets = roomy.octets;
        self.sent = roomy.sent;
    }

    /// Takes a letter out of flight, if one is named, and puts these in flight: it gives those that find no room.
    ///
    /// # Errors
    ///
    /// Out of memory alone, and nothing has changed.
    pub(crate) fn put(
        &mut self,
        alloc: Global,
        letters: Vec<Letter>,
        posted: Option<u64>,
    ) -> Result<Vec<Letter>, AllocError>
        requires heard { AllCanBeHeard letters.items }
        ensures ok { IfOk result (λ left. put_down letters.items (taken_out posted self.old) ≡ record { flying = self.new; left = left.items }) }
        ensures err { OnErr result (self.new ≡ self.old) }
    {
        // A step that sends is refused as worn from 2 ^ 64 - 2 ^ 32 letters on, so the sum has no place only where this list has
        // 2 ^ 32 letters and more. Below, room is asked for all of them, and no machine has memory for so many.
        let Some(_) = self.sent.checked_add(letters.len() as u64) else {
            return Err(AllocError);
        };
        self.flights.reserve(letters.len())?;
        let mut left = Vec::with_capacity(alloc, letters.len())?;
        self.octets -= take_out_named(&mut self.flights, posted);
        put_all(
            &mut self.flights,
            &mut self.octets,
            &mut self.sent,
            letters,
            &mut left,
        );
        Ok(left)
    }
}
