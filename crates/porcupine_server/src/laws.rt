//! Laws of tapes.
ghost use Rattle.porcupine_server.specs.Complete.{IsGoodTape};
ghost use Rattle.porcupine_server.specs.PostedTape.{posted_tape};
ghost use Rattle.porcupine_server.specs.SmallTape.{small_tape};
ghost use Rattle.porcupine_server.specs.WrongRuns.{EmptyStoreIsRefused, FirstLineIsHandled};

/// The tape of one message is good: the premise of `porcupine`'s clause `complete` can be met.
pub fn one_tape_is_good()
    ensures { IsGoodTape small_tape }
{}

/// Over the octets of that tape and of its transcript, at status 0, a store that lacks the message does not
/// keep what `promises` says: no fewer lines and no other sessions can be chosen.
pub fn empty_store_is_refused()
    ensures { EmptyStoreIsRefused }
{}

/// At status 3 no line that has no fault is left out of the run lines: not the first line of that tape,
/// whatever was written.
pub fn first_line_is_handled()
    ensures { FirstLineIsHandled }
{}

/// A tape of three nodes is good, on which letters are heard twice and out of their order, until the message
/// that they carry is stored.
pub fn posted_tape_is_good()
    ensures { IsGoodTape posted_tape }
{}
