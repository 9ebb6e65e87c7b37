//! What stays of a world, whatever is done with it: functions that do nothing, whose contracts hold of the definitions alone.
ghost use Rattle.node_store.specs.Disks.{view_of};
ghost use Rattle.shard_board.specs.Worlds.{StepsKeepWorld, FlowsKeepWorld, OpenedIsSound, SoundRestsRight};
ghost use Rattle.shard_board.specs.Boards.{PassTells};
ghost use Rattle.shard_board.specs.declared.board.BoardPass.{BoardPass as APass};

use io_edge::Disk;

/// Over steps of which the machine's are known, whatever comes of them, a world keeps its plan, its book only grows, and a sound
/// world stays sound.
pub fn steps_keep_world<D: Disk>()
    ensures { StepsKeepWorld (view_of D.seen D.faults D.clock) }
{}

/// So it is where all letters in flight are posted.
pub fn flows_keep_world<D: Disk>()
    ensures { FlowsKeepWorld (view_of D.seen D.faults D.clock) }
{}

/// A world that was opened is sound.
pub fn opened_is_sound<D: Disk>()
    ensures { OpenedIsSound (view_of D.seen D.faults D.clock) }
{}

/// A sound world that is at rest has right maps.
pub fn sound_rests_right<D: Disk>()
    ensures { SoundRestsRight (view_of D.seen D.faults D.clock) }
{}

/// Over disks of which each tells what it holds, each pass of a board tells still.
pub fn passes_tell<D: Disk, F, C>()
    ensures { (pass : APass D F C) → PassTells D.seen pass }
{}
