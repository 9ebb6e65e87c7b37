//! States that are pushed to other nodes, and copies that get a target more.
ghost use Rattle.std.specs.Prelude.{◌≡◌, ◌++◌, [], ℕ, List, map, None, IfOk, OnOk};
ghost use Rattle.std.specs.FinMap as fin;
ghost use Rattle.mail_model.specs.Identity.Key.{Message};
ghost use Rattle.mail_model.specs.Listing.{octets_in};
ghost use Rattle.mail_model.specs.Plan.{Plan as PlainPlan};
ghost use Rattle.mail_model.specs.Record.{Record};
ghost use Rattle.object_model.specs.Letters.Body.{Push};
ghost use Rattle.object_model.specs.Said.{said};
ghost use Rattle.mail_base.specs.Seen.{key_seen};
ghost use Rattle.cluster_model.specs.Cluster.{epoch_of};
ghost use Rattle.cluster_model.specs.Rules.{can_widen, widen, pushed_octets, push_of, push};
ghost use Rattle.node_store.specs.Disks.{view_of};
ghost use Rattle.node_store.specs.Keeps.{HoldsLogged};
ghost use Rattle.node_core.specs.Nodes.{node_seen, CanWork, IsNodeOf, NodeKeeps};
ghost use Rattle.node_core.specs.Spelling.{AllCanBeTaken};
ghost use Rattle.node_core.specs.Works.{LeavesUp, WroteNode};
ghost use Rattle.node_core.specs.Pushing.{PushesOut, WidensCopy};
ghost use Rattle.node_core.specs.PushReads.{ReadsOctets, ReadsLetters};

use crate::fault::NodeFault;
use crate::letters::no_letters;
use crate::node::Node;
use crate::outbox::Outbox;
use io_edge::Disk;
use mail_base::{Body, Key, Letter, MsgId, Name, NodeNo, ObjState, Octets, Sequence, Value};
use node_store::{KeepFault, ReadFault};
use std::alloc::{AllocError, Global};

impl Node {
    // The octets of a message. Memory counts as out where a letter has no room for them: no record of a node is as long, so that
    // only a disk may give so many that does not hold what was written.
    fn message<D: Disk>(
        &self,
        alloc: Global,
        disk: &mut D,
        id: MsgId,
    ) -> Result<Option<Octets>, NodeFault>
        ensures read { ReadsOctets (view_of D.seen D.faults D.clock) self.now disk.old disk.new (octets_in id) result }
        ensures settled { D.settled disk.old → D.settled disk.new }
    {
        match self.store.octets(alloc, disk, id) {
            Ok(Some(octets)) => {
                if octets.len() > 16_842_738 {
                    return Err(NodeFault::NoMemory { down: false });
                }
                Ok(Some(Octets::from_vec(octets)))
            }
            Ok(None) => Ok(None),
            Err(ReadFault::Disk) => Err(NodeFault::Disk),
            Err(ReadFault::NotAJournal) => Err(NodeFault::Disk),
            Err(ReadFault::NoMemory) => Err(NodeFault::NoMemory { down: false }),
        }
    }

    // The octets that go with a state that is pushed.
    fn pushed_octets<D: Disk>(
        &self,
        alloc: Global,
        disk: &mut D,
        key: &Key,
        state: &ObjState,
    ) -> Result<Option<Octets>, NodeFault>
        ensures read { ReadsOctets (view_of D.seen D.faults D.clock) self.now disk.old disk.new (pushed_octets (key_seen key.now) state.now.value) result }
        ensures settled { D.settled disk.old → D.settled disk.new }
    {
        let Key::Message(_, id) = key else {
            return Ok(None);
        };
        if !matches!(state.value, Value::Here) {
            return Ok(None);
        }
        self.message(alloc, disk, *id)
    }

    // The letter that pushes the state.
    fn push_letter(
        &self,
        to: NodeNo,
        key: &Key,
        state: &ObjState,
        octets: Option<Octets>,
    ) -> Result<Letter, AllocError>
        ensures { IfOk result (λ letter. letter ≡ record { from = self.now.store.own; to = to; epoch = epoch_of (node_seen self.now); ticket = None; body = Push (key_seen key.now) state.now octets }) }
    {
        Ok(Letter {
            from: self.store.own(),
            to,
            epoch: self.epoch(),
            ticket: None,
            body: Body::Push {
                key: key.copy()?,
                state: state.copy()?,
                octets,
            },
        })
    }

    // These letters, and after them the one with the state of the key, if it is due to the node.
    fn with_push<D: Disk>(
        &self,
        alloc: Global,
        disk: &mut D,
        mut letters: Sequence<Letter>,
        to: NodeNo,
        key: &Key,
    ) -> Result<Sequence<Letter>, NodeFault>
        requires logged { HoldsLogged self.now.store.log }
        requires fits { AllCanBeTaken letters }
        ensures read { ReadsLetters (view_of D.seen D.faults D.clock) self.now disk.old disk.new (λ records. letters ++ push_of self.now.store.own to (epoch_of (node_seen self.now)) records (key_seen key.now) (fin.get self.now.store.log (key_seen key.now))) result }
        ensures settled { D.settled disk.old → D.settled disk.new }
    {
        let Some(entry) = self.store.entry(key) else {
            return Ok(letters);
        };
        if !entry.remaining.has(to) {
            return Ok(letters);
        }
        let octets = self.pushed_octets(alloc, disk, key, &entry.state)?;
        letters.push(self.push_letter(to, key, &entry.state, octets)?)?;
        Ok(letters)
    }

    // These letters, and after them those with the states of the keys.
    fn with_pushes<D: Disk>(
        &self,
        alloc: Global,
        disk: &mut D,
        letters: Sequence<Letter>,
        to: NodeNo,
        keys: &[Key],
    ) -> Result<Sequence<Letter>, NodeFault>
        requires logged { HoldsLogged self.now.store.log }
        requires fits { AllCanBeTaken letters }
        ensures read { ReadsLetters (view_of D.seen D.faults D.clock) self.now disk.old disk.new (λ records. letters ++ (push self.now.store.own to (map key_seen keys.now) (node_seen self.now) records).out) result }
        ensures settled { D.settled disk.old → D.settled disk.new }
    {
        let Some((key, others)) = keys.split_first() else {
            return Ok(letters);
        };
        let letters = self.with_push(alloc, disk, letters, to, key)?;
        self.with_pushes(alloc, disk, letters, to, others)
    }

    /// Pushes to the member what is due to it: of the first 64 due entries, in order of keys, at most `most`, ended before the
    /// first with which the octets of their letters together would pass `room`. The disk is read for each letter that carries
    /// octets: the head of the record, and the octets.
    ///
    /// # Errors
    ///
    /// It is never `Worn`, and changes nothing.
    pub fn push<D: Disk>(
        &mut self,
        alloc: Global,
        disk: &mut D,
        to: NodeNo,
        most: usize,
        room: u64,
    ) -> Result<Outbox, NodeFault>
        requires works { CanWork (D.seen disk.old) self.old }
        ensures pushes { (plan : PlainPlan) (own : ℕ) → IsNodeOf plan own self.old → PushesOut (view_of D.seen D.faults D.clock) own to most room self.old disk.old self.new disk.new result }
        ensures settled { D.settled disk.old → D.settled disk.new }
    {
        let keys = self.keys_within(alloc, to, most, room)?;
        let letters = self.with_pushes(alloc, disk, no_letters(alloc), to, &keys)?;
        Ok(Outbox::sent(letters))
    }

    // An object's state gets the node as a target.
    fn widen_key<D: Disk>(
        &mut self,
        alloc: Global,
        disk: &mut D,
        key: &Key,
        to: NodeNo,
    ) -> Result<bool, KeepFault>
        requires works { CanWork (D.seen disk.old) self.old }
        ensures answer { IfOk result (λ did. (records : List Record) → NodeKeeps records self.old → did ≡ can_widen to (said (key_seen key.now) records)) }
        ensures wrote { WroteNode (view_of D.seen D.faults D.clock) (λ node disk. widen self.old.store.own to (key_seen key.now) node disk) [] result self.old disk.old self.new disk.new }
        ensures settled { OnOk result (D.settled disk.old → D.settled disk.new) }
    {
        let own = self.store.own();
        let did = self.store.widen(alloc, disk, key, to)?;
        if did {
            self.numbers.know_key(own, key);
            return Ok(true);
        }
        Ok(false)
    }

    /// The user's copy of the message gets the node as a target, where it is here and has it not; false exactly where that
    /// does not hold.
    ///
    /// # Errors
    ///
    /// It is never `Worn`.
    pub fn widen<D: Disk>(
        &mut self,
        alloc: Global,
        disk: &mut D,
        user: &Name,
        id: MsgId,
        to: NodeNo,
    ) -> Result<bool, NodeFault>
        requires works { CanWork (D.seen disk.old) self.old }
        ensures widens { (plan : PlainPlan) (own : ℕ) → IsNodeOf plan own self.old → WidensCopy (view_of D.seen D.faults D.clock) own to (Message user.now id) self.old disk.old self.new disk.new result }
        ensures settled { LeavesUp result → D.settled disk.old → D.settled disk.new }
    {
        let key = Key::Message(user.copy()?, id);
        let did = self.widen_key(alloc, disk, &key, to)?;
        Ok(did)
    }
}
