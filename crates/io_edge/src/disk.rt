// A disk: what it holds, where it tells that, what a failed call leaves, and what a stop of the machine may leave.
ghost use Rattle.std.specs.Prelude.{◌≡◌, ◌+◌, ◌≤◌, ◌<◌, List, ℕ, Option, take, drop, length, IfOk, IfSome, OnOk};
ghost use Rattle.std.specs.Io.{ReadsAtMost};
ghost use Rattle.io_edge.specs.Causes.{HasCause};
ghost use Rattle.io_edge.specs.Moments.{Clock, Keeps, Tears, Restarts, IsOnly};
ghost use Rattle.io_edge.specs.Octets.{IsToldAlike, WritesAt};

use crate::Failed;
use std::alloc::AllocError;

/// A disk of one node. What it holds is told or not; its count of faults never falls.
pub trait Disk {
    /// The octets that reads give, where told.
    ghost seen: { Self → Option (List ℕ) };

    /// How many octets past the end a write may reach.
    ghost room: { Self → ℕ };

    /// How often it has failed.
    ghost faults: { Self → ℕ };

    /// Nothing was written since the last sync that succeeded: what reads give stands, whatever happens.
    ghost settled: { Self → Type 0 };

    /// Its images, which are the octets that a stop of the machine may leave: now, and since each earlier moment.
    ghost clock: { Clock Self };

    /// How many octets it holds.
    fn len(&mut self) -> Result<u64, Failed>
        ensures length { IfOk result (λ n. IfSome (seen self.old) (λ octets. n ≡ length octets)) }
        ensures seen { seen self.new ≡ seen self.old }
        ensures room { room self.new ≡ room self.old }
        ensures settled { settled self.old → settled self.new }
        ensures images { Keeps clock self.old self.new }
        ensures cause { HasCause (faults self.old) (faults self.new) result }
        ensures quiet { OnOk result (faults self.new ≡ faults self.old) };

    /// Gives what it holds from the offset on. 0 for a slice that is not empty is the end.
    fn read(&mut self, at: u64, into: &mut [u8]) -> Result<usize, Failed>
        ensures bound { ReadsAtMost result into.new }
        ensures octets { IfOk result (λ n. IfSome (seen self.old) (λ octets. take n into.new ≡ take n (drop at octets))) }
        ensures end { IfOk result (λ n. n ≡ 0 → 0 < length into.new → IfSome (seen self.old) (λ octets. length octets ≤ at)) }
        ensures seen { seen self.new ≡ seen self.old }
        ensures room { room self.new ≡ room self.old }
        ensures settled { settled self.old → settled self.new }
        ensures images { Keeps clock self.old self.new }
        ensures cause { HasCause (faults self.old) (faults self.new) result }
        ensures quiet { OnOk result (faults self.new ≡ faults self.old) };

    /// Makes room past the end. It fails only where memory runs out, and then changes nothing.
    fn reserve(&mut self, extra: u64) -> Result<(), AllocError>
        ensures room { OnOk result (extra ≤ room self.new) }
        ensures never_less { room self.old ≤ room self.new }
        ensures seen { seen self.new ≡ seen self.old }
        ensures settled { settled self.old → settled self.new }
        ensures images { Keeps clock self.old self.new }
        ensures faults { faults self.new ≡ faults self.old };

    /// Writes over what is there, and past the end. A failed write may leave any octets in its range.
    fn write_at(&mut self, at: u64, octets: &[u8]) -> Result<(), Failed>
        requires { IfSome (seen self.old) (λ held. (at ≤ length held) × (at + length octets.now ≤ length held + room self.old)) }
        ensures written { WritesAt (seen self.old) (seen self.new) result at octets.now }
        ensures images { Tears clock self.old self.new at (length octets.now) }
        ensures cause { HasCause (faults self.old) (faults self.new) result }
        ensures quiet { OnOk result (faults self.new ≡ faults self.old) };

    /// After it what reads give stands on the disk, whatever happens.
    fn sync(&mut self) -> Result<(), Failed>
        ensures seen { seen self.new ≡ seen self.old }
        ensures room { room self.new ≡ room self.old }
        ensures settled { OnOk result (settled self.new) }
        ensures images { Keeps clock self.old self.new }
        ensures cause { HasCause (faults self.old) (faults self.new) result }
        ensures quiet { OnOk result (faults self.new ≡ faults self.old) };

    /// Starts it again, as after a stop of the machine: what it holds is then one of the images that it had.
    fn restart(&mut self) -> Result<(), Failed>
        ensures restarted { OnOk result (Restarts clock self.old (seen self.old) (seen self.new)) }
        ensures told { IsToldAlike (seen self.old) (seen self.new) }
        ensures settled { OnOk result (settled self.new) }
        ensures images { Keeps clock self.old self.new }
        ensures cause { HasCause (faults self.old) (faults self.new) result }
        ensures quiet { OnOk result (faults self.new ≡ faults self.old) };

    /// What reads give is one of its images.
    ghost seen_is_image: { (disk : Self) → IfSome (seen disk) (λ held. clock.is_image disk held) };

    /// It is the one image where the disk is settled.
    ghost settled_is_only: { (disk : Self) → settled disk → IfSome (seen disk) (λ held. IsOnly clock disk held) };

    /// An image of now is one since each moment that has come.
    ghost image_since: { (disk : Self) (t : ℕ) (c : List ℕ) → t ≤ clock.moment disk → clock.is_image disk c → clock.was_image disk t c };

    /// Since this moment there is no other.
    ghost only_now: { (disk : Self) (c : List ℕ) → clock.was_image disk (clock.moment disk) c → clock.is_image disk c };
}
