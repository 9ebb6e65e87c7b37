//! What a service leaves, of which the definitions alone speak: functions that do nothing.
ghost use Rattle.node_store.specs.Disks.{view_of};
ghost use Rattle.board_service.specs.Served.{ServedIsSound};
ghost use Rattle.board_service.specs.Booked.{ToldIsBooked};

use io_edge::Disk;

/// Where each disk tells what it holds, a world that was served is sound.
pub fn served_is_sound<D: Disk>()
    ensures { ServedIsSound (view_of D.seen D.faults D.clock) }
{}

/// Where each disk tells what it holds, each message that a service told a client is stored has its copies in the book of the world that it leaves, one for each
/// mailbox, with the length and the digest of exactly what was told.
pub fn told_is_booked<D: Disk>()
    ensures { ToldIsBooked (view_of D.seen D.faults D.clock) }
{}
