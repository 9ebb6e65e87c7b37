//! How an acknowledgement and a retirement are heard.
ghost use Rattle.std.specs.Prelude.{◌≡◌};
ghost use Rattle.std.specs.FinMap as fin;
ghost use Rattle.object_model.specs.UpdateLog.{retired, is_of};
ghost use Rattle.mail_base.specs.Seen.{key_seen};
ghost use Rattle.update_log.specs.Answers.{answer_at};
ghost use Rattle.replica_push.specs.Acks.{after_ack};

use mail_base::{Key, NodeNo, ObjState};
use update_log::{Acked, UpdateLog};

/// Hears that a node has acknowledged a state: the node is taken out of an entry of that very state, and the entry is
/// taken out with the last one. At `Emptied` a Retired record and the Retired letters follow. It takes no memory, and time
/// logarithmic in the number of entries.
pub fn hear_ack(log: &mut UpdateLog, key: &Key, state: &ObjState, by: NodeNo) -> Acked
    ensures answer { result ≡ answer_at state.now by (fin.get log.old (key_seen key.now)) }
    ensures log { log.new ≡ after_ack (key_seen key.now) state.now by result log.old }
{
    match log.acknowledged(key, state, by) {
        Acked::Emptied => {
            log.retire(key, state);
            Acked::Emptied
        }
        Acked::Cleared => Acked::Cleared,
        Acked::Other => Acked::Other,
    }
}

/// Hears that all targets of a state have it: the entry of that very state is taken out. At true a Retired record follows.
/// It takes no memory, and time logarithmic in the number of entries.
pub fn hear_retired(log: &mut UpdateLog, key: &Key, state: &ObjState) -> bool
    ensures stood { result ≡ is_of state.now (fin.get log.old (key_seen key.now)) }
    ensures log { log.new ≡ retired (key_seen key.now) state.now log.old }
{
    log.retire(key, state)
}
