//! The turn of a session: what it said is written, and then its call is begun and comes to something.
ghost use Rattle.std.specs.Prelude.{◌≡◌, ◌≤◌, [], Some, OnOk, IsErrOf};
ghost use Rattle.io_edge.specs.Causes.{Rose, HasCause};
ghost use Rattle.io_edge.specs.Octets.{Writes};
ghost use Rattle.session_model.specs.Calls as calls;
ghost use Rattle.call_tickets.specs.Seen.{call_seen};
ghost use Rattle.call_tickets.specs.Passes.{known_to};
ghost use Rattle.session_gate.specs.Deals.{Settles};
ghost use Rattle.session_gate.specs.Turns.{WritesFirst};

use crate::calls::{Dealing, settle};
use crate::stop::Stop;
use call_tickets::{Call, Desk};
use io_edge::{Failed, Gate, Sink, write_all};
use mail_base::NodeNo;
use std::alloc::Global;
use std::sync::Wait;

/// Which connection it is, and how many turns it has had.
#[derive(Clone, Copy, Debug, PartialEq, Eq)]
pub(crate) struct Visit {
    pub(crate) alloc: Global,
    pub(crate) node: NodeNo,
    // the number of the session, as the gate is told it
    session: u64,
    // the turns that were begun; a count at its greatest stays there
    turns: u64,
}

impl Visit {
    pub fn new(alloc: Global, node: NodeNo, session: u64) -> Visit {
        Visit {
            alloc,
            node,
            session,
            turns: 0,
        }
    }

    fn begin_turn<G: Gate>(&mut self, gate: &G) {
        self.turns = self.turns.saturating_add(1);
        gate.before(self.session, self.turns);
    }

    pub fn end_turn<G: Gate>(&self, gate: &G) {
        gate.after(self.session, self.turns);
    }
}

// Writes what was said, and holds none of it any more.
pub(crate) fn flush<K: Sink>(sink: &mut K, out: &mut Vec<u8>) -> Result<(), Failed>
    ensures octets { Writes (K.contents sink.old) (K.contents sink.new) result out.old.items }
    ensures empty { OnOk result (out.new.items ≡ []) }
    ensures cause { HasCause (K.faults sink.old) (K.faults sink.new) result }
{
    write_all(sink, out)?;
    out.clear();
    Ok(())
}

// Writes all that was said, and only then has the call begun, and waits until it has its answer. Where the sink fails, the desk
// is asked for nothing.
#[tactic(auto, using(crate::proofs::Turns::settled_writes, crate::proofs::Knows::dealt_asked))]
pub(crate) fn take_turn<E: Desk, G: Gate, K: Sink, R: Wait>(
    rt: &R,
    gate: &G,
    desk: &E,
    pass: &mut E::Pass,
    visit: &mut Visit,
    call: Call,
    out: &mut Vec<u8>,
    sink: &mut K,
) -> Result<Dealing, Stop>
    requires belongs { E.belongs desk.now pass.old }
    ensures belongs { E.belongs desk.now pass.new }
    ensures written { WritesFirst result (K.contents sink.old) (K.contents sink.new) out.old.items out.new.items }
    ensures untouched { IsErrOf result Stop.WriteFault → pass.new ≡ pass.old }
    ensures settled { (asked : calls.Call) → call_seen call ≡ Some asked
        → Settles asked result (known_to (E.own pass.old) (E.counts pass.old)) (known_to (E.own pass.new) (E.counts pass.new)) }
    ensures later { K.faults sink.old ≤ K.faults sink.new }
    ensures failed { IsErrOf result Stop.WriteFault → Rose (K.faults sink.old) (K.faults sink.new) }
{
    let Ok(()) = flush(sink, out) else {
        return Err(Stop::WriteFault);
    };
    visit.begin_turn(gate);
    settle(rt, visit.alloc, desk, pass, visit.node, call)
}
