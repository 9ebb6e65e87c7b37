// Over which worlds a desk can be.
ghost use Rattle.node_store.specs.Disks.{view_of};
ghost use Rattle.solo_desk.specs.Laws.{OpenedServe, StepsServe};

use io_edge::Disk;

/// A desk can be over a world that was opened.
pub fn opened_serve<D: Disk>()
    ensures { OpenedServe (view_of D.seen D.faults D.clock) }
{}

/// And over one that comes of a step over such a world, where what the machine does in the step is known.
pub fn steps_serve<D: Disk>()
    ensures { StepsServe (view_of D.seen D.faults D.clock) }
{}
