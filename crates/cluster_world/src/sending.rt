//! Letters are put in flight.
ghost use Rattle.std.specs.Prelude.{◌≡◌, IfOk, OnErr};
ghost use Rattle.node_store.specs.Disks.{view_of};
ghost use Rattle.cluster_world.specs.Hears.{AllCanBeHeard};
ghost use Rattle.cluster_world.specs.Lives.{CanWorkOn};
ghost use Rattle.cluster_world.specs.Missing.{SentOff};

use crate::flying::Flying;
use crate::mishaps::note_all;
use crate::nodes::Nodes;
use io_edge::Disk;
use mail_base::Letter;
use node_tickets::MishapKind;
use std::alloc::{AllocError, Global};

/// Takes a letter out of flight, if one is named, and puts these in flight. Those that find no room have a mishap.
///
/// # Errors
///
/// Out of memory alone, and nothing has changed.
pub(crate) fn send<D: Disk>(
    alloc: Global,
    nodes: &mut Nodes<D>,
    flying: &mut Flying,
    letters: Vec<Letter>,
    posted: Option<u64>,
) -> Result<(), AllocError>
    requires works { CanWorkOn D.seen nodes.old.plan nodes.old.lives.items nodes.old.disks.items }
    requires heard { AllCanBeHeard letters.items }
    ensures ok { IfOk result (λ _. SentOff (view_of D.seen D.faults D.clock) nodes.old.plan letters.items posted flying.old flying.new nodes.old nodes.new) }
    ensures err { OnErr result (flying.new ≡ flying.old) }
    ensures same { OnErr result (nodes.new ≡ nodes.old) }
{
    let left = flying.put(alloc, letters, posted)?;
    note_all(nodes, MishapKind::Crowded, &left);
    Ok(())
}
