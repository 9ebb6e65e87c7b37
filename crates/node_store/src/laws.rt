//! What a start finds, and the record of its own boot.
ghost use Rattle.node_store.specs.Recovers.{BootsChangeNothing, PromisesChangeNothing};

/// The record of a boot changes nothing of what a start finds, but that this is the last boot: so what `open` found stands
/// once the boot is recorded.
pub fn boots_change_nothing()
    ensures { BootsChangeNothing }
{}

/// The record of a promise changes nothing of what a start finds, but that this is the last promise: a node finds its messages
/// again as if it were not there.
pub fn promises_change_nothing()
    ensures { PromisesChangeNothing }
{}
