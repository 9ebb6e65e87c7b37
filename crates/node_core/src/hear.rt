//! A letter that is heard.
ghost use Rattle.std.specs.Prelude.{◌≡◌, ◌<◌, ◌≤◌, ◌^◌, ◌∷◌, [], ℕ, None, All, IfOk, IfSome, OnOk};
ghost use Rattle.mail_model.specs.Plan.{Plan as PlainPlan};
ghost use Rattle.mail_model.specs.Grammar.{IsStamp, IsCount, IsObject};
ghost use Rattle.object_model.specs.Letters.{Letter as PlainLetter};
ghost use Rattle.object_model.specs.Letters.Body.{Filed, PushAck, Retire, Strike as StrikeBody};
ghost use Rattle.mail_base.specs.Bodies.{body_seen};
ghost use Rattle.mail_base.specs.Seen.{key_seen};
ghost use Rattle.cluster_model.specs.Cluster.{epoch_of};
ghost use Rattle.cluster_model.specs.Rules.{answer, hear_file, hear_strike, hear_push, hear_ack, hear_retired, letters_to, receivers};
ghost use Rattle.cluster_model.specs.Deeds.{hear, hear_body};
ghost use Rattle.object_model.specs.Sets.{all_nodes};
ghost use Rattle.node_store.specs.Disks.{view_of};
ghost use Rattle.node_core.specs.Nodes.{node_seen, IsWhole, CanWork, IsNodeOf};
ghost use Rattle.node_core.specs.Spelling.{CanBeTaken, IsShort};
ghost use Rattle.node_core.specs.Answering.{answers_to};
ghost use Rattle.node_core.specs.Works.{LeavesUp, WroteNode, SentLetters, HasLearned, TicketsAreTold};
ghost use Rattle.node_core.specs.Hearing.{HearsLetter};

use crate::fault::NodeFault;
use crate::filing::{file, take_pushed};
use crate::letters::{answers_to, letters_to, no_letters};
use crate::node::Node;
use crate::nodes::{all_nodes, receivers};
use crate::outbox::Outbox;
use crate::spelling::{are_ids, are_names, is_id, is_name};
use io_edge::Disk;
use mail_base::{
    Body, Key, Letter, MsgId, Name, NodeNo, NodeSet, ObjState, Octets, Sequence, Stamp, StrikeMark,
    Ticket,
};
use node_store::KeepFault;
use std::alloc::{AllocError, Global};
use update_log::Acked;

impl Node {
    /// Knows the stamps of a letter, so that what it writes later has a later one. `hear` does so before anything else.
    pub fn learn(&mut self, body: &Body)
        ensures { HasLearned (body_seen body.now) self.old self.new }
    {
        self.numbers.learn(body);
    }

    // All nodes of the plan.
    pub(crate) fn everyone(&self) -> NodeSet
        requires whole { IsWhole self.now }
        ensures value { result ≡ all_nodes self.now.shape.nodes }
        ensures some { 0 < result }
        ensures bound { result < 2 ^ 16 }
    {
        all_nodes(self.shape.nodes)
    }

    // A message is to be filed.
    fn hear_file<D: Disk>(
        &mut self,
        alloc: Global,
        disk: &mut D,
        id: MsgId,
        stamp: Stamp,
        targets: NodeSet,
        users: &[Name],
        octets: &[u8],
    ) -> Result<(), KeepFault>
        requires works { CanWork (D.seen disk.old) self.old }
        requires stamp { IsStamp stamp }
        requires targets { IsCount 16 targets }
        requires short { IsShort octets.now }
        ensures wrote { (letter : PlainLetter) → WroteNode (view_of D.seen D.faults D.clock) (λ node disk. hear_file self.old.store.own node disk letter id stamp targets users.now octets.now) (answer letter (Filed id) ∷ []) result self.old disk.old self.new disk.new }
        ensures settled { OnOk result (D.settled disk.old → D.settled disk.new) }
    {
        is_id(id);
        are_names(users);
        let own = self.store.own();
        file(
            &mut self.store,
            alloc,
            disk,
            id,
            stamp,
            targets,
            users,
            octets,
        )?;
        self.numbers.know_copies(own, id, users);
        Ok(())
    }

    // Copies are to be deleted.
    fn hear_strike<D: Disk>(
        &mut self,
        alloc: Global,
        disk: &mut D,
        user: &Name,
        marks: &[StrikeMark],
    ) -> Result<(), KeepFault>
        requires works { CanWork (D.seen disk.old) self.old }
        requires stamps { All (λ mark. IsStamp mark.stamp) marks.now }
        ensures wrote { (letter : PlainLetter) → WroteNode (view_of D.seen D.faults D.clock) (λ node disk. hear_strike self.old.store.own self.old.shape.nodes node disk letter user.now marks.now) (answers_to letter (StrikeBody user.now marks.now)) result self.old disk.old self.new disk.new }
        ensures settled { OnOk result (D.settled disk.old → D.settled disk.new) }
    {
        is_name(user);
        are_ids(marks);
        let own = self.store.own();
        let targets = self.everyone();
        self.store.take_gone(alloc, disk, user, targets, marks)?;
        self.numbers.know_marks(own, marks);
        Ok(())
    }

    // A state is pushed.
    fn hear_push<D: Disk>(
        &mut self,
        alloc: Global,
        disk: &mut D,
        key: &Key,
        state: &ObjState,
        octets: &Option<Octets>,
    ) -> Result<(), KeepFault>
        requires works { CanWork (D.seen disk.old) self.old }
        requires object { IsObject (key_seen key.now) state.now }
        requires short { IfSome octets.now IsShort }
        ensures wrote { (letter : PlainLetter) → WroteNode (view_of D.seen D.faults D.clock) (λ node disk. hear_push self.old.store.own node disk letter (key_seen key.now) state.now octets.now) (answer letter (PushAck (key_seen key.now) state.now) ∷ []) result self.old disk.old self.new disk.new }
        ensures settled { OnOk result (D.settled disk.old → D.settled disk.new) }
    {
        let own = self.store.own();
        take_pushed(&mut self.store, alloc, disk, key, state, octets)?;
        self.numbers.know_key(own, key);
        Ok(())
    }

    // What tells all other targets that the state is retired.
    fn retirement(
        &self,
        alloc: Global,
        key: &Key,
        state: &ObjState,
    ) -> Result<Sequence<Letter>, AllocError>
        requires whole { IsWhole self.now }
        ensures { IfOk result (λ letters. letters ≡ letters_to self.now.store.own (epoch_of (node_seen self.now)) None (receivers self.now.store.own state.now.targets self.now.shape.nodes) (Retire (key_seen key.now) state.now)) }
    {
        let own = self.store.own();
        let to = receivers(alloc, own, state.targets, self.shape.nodes)?;
        let body = Body::Retired {
            key: key.copy()?,
            state: state.copy()?,
        };
        letters_to(alloc, own, &self.epoch(), &None, &to, &body)
    }

    // A state is acknowledged.
    fn hear_ack<D: Disk>(
        &mut self,
        alloc: Global,
        disk: &mut D,
        key: &Key,
        state: &ObjState,
        from: NodeNo,
    ) -> Result<Sequence<Letter>, KeepFault>
        requires works { CanWork (D.seen disk.old) self.old }
        requires object { IsObject (key_seen key.now) state.now }
        ensures wrote { SentLetters (view_of D.seen D.faults D.clock) (λ node disk. hear_ack self.old.store.own self.old.shape.nodes node disk (key_seen key.now) state.now from) result self.old disk.old self.new disk.new }
        ensures settled { OnOk result (D.settled disk.old → D.settled disk.new) }
    {
        match self.store.acknowledged(alloc, disk, key, state, from)? {
            Acked::Emptied => Ok(self.retirement(alloc, key, state)?),
            Acked::Cleared => Ok(no_letters(alloc)),
            Acked::Other => Ok(no_letters(alloc)),
        }
    }

    // All targets of a state have it.
    fn hear_retired<D: Disk>(
        &mut self,
        alloc: Global,
        disk: &mut D,
        key: &Key,
        state: &ObjState,
    ) -> Result<(), KeepFault>
        requires works { CanWork (D.seen disk.old) self.old }
        requires object { IsObject (key_seen key.now) state.now }
        ensures wrote { WroteNode (view_of D.seen D.faults D.clock) (λ node disk. hear_retired node disk (key_seen key.now) state.now) [] result self.old disk.old self.new disk.new }
        ensures settled { OnOk result (D.settled disk.old → D.settled disk.new) }
    {
        self.store.retired(alloc, disk, key, state)?;
        Ok(())
    }

    // Something that a ticket asked for was done.
    fn hear_told(&mut self, letter: &Letter)
        requires whole { IsWhole self.old }
        ensures { TicketsAreTold letter.now self.old self.new }
    {
        match &letter.ticket {
            Some(ticket) => {
                let ticket = Ticket::new(ticket.node, ticket.boot, ticket.seq);
                self.tickets.told(ticket, letter.from, &letter.body);
            }
            None => {}
        }
    }

    // Does what the letter says. What it is answered whatever is done comes along, and goes on to its sender.
    fn hear_body<D: Disk>(
        &mut self,
        alloc: Global,
        disk: &mut D,
        letter: &Letter,
        answers: Sequence<Letter>,
    ) -> Result<Sequence<Letter>, KeepFault>
        requires works { CanWork (D.seen disk.old) self.old }
        requires spelt { CanBeTaken letter.now.body }
        requires answers { answers ≡ answers_to letter.now letter.now.body }
        ensures wrote { SentLetters (view_of D.seen D.faults D.clock) (λ node disk. hear_body self.old.store.own self.old.shape.nodes node disk letter.now letter.now.body) result self.old disk.old self.new disk.new }
        ensures settled { OnOk result (D.settled disk.old → D.settled disk.new) }
    {
        match &letter.body {
            Body::File {
                id,
                stamp,
                targets,
                users,
                octets,
            } => {
                self.hear_file(
                    alloc,
                    disk,
                    *id,
                    *stamp,
                    *targets,
                    users.as_slice(),
                    octets.as_slice(),
                )?;
                Ok(answers)
            }
            Body::Strike { user, marks } => {
                self.hear_strike(alloc, disk, user, marks.as_slice())?;
                Ok(answers)
            }
            Body::Push { key, state, octets } => {
                self.hear_push(alloc, disk, key, state, octets)?;
                Ok(answers)
            }
            Body::PushAck { key, state } => self.hear_ack(alloc, disk, key, state, letter.from),
            Body::Retired { key, state } => {
                self.hear_retired(alloc, disk, key, state)?;
                Ok(answers)
            }
            Body::Filed { .. } | Body::StrikeTold { .. } => {
                self.hear_told(letter);
                Ok(answers)
            }
            Body::LoginAsk { .. }
            | Body::LoginTold { .. }
            | Body::ListAsk { .. }
            | Body::ListTold { .. }
            | Body::FetchAsk { .. }
            | Body::FetchTold { .. }
            | Body::Unlock { .. }
            | Body::Group { .. }
            | Body::Join { .. }
            | Body::Install { .. }
            | Body::Report { .. }
            | Body::ReportAck { .. } => Ok(answers),
        }
    }

    // Hears a letter that is not thrown.
    fn take_in<D: Disk>(
        &mut self,
        alloc: Global,
        disk: &mut D,
        letter: &Letter,
        answers: Sequence<Letter>,
    ) -> Result<Sequence<Letter>, KeepFault>
        requires works { CanWork (D.seen disk.old) self.old }
        requires spelt { CanBeTaken letter.now.body }
        requires answers { answers ≡ answers_to letter.now letter.now.body }
        ensures wrote { SentLetters (view_of D.seen D.faults D.clock) (λ node disk. hear self.old.store.own self.old.shape.nodes node disk letter.now) result self.old disk.old self.new disk.new }
        ensures settled { OnOk result (D.settled disk.old → D.settled disk.new) }
    {
        self.learn(&letter.body);
        let sent = self.hear_body(alloc, disk, letter, answers)?;
        Ok(sent)
    }

    /// Hears a letter that is for this node, or throws it. It learns the letter's stamps, and then does what the letter says.
    ///
    /// # Errors
    ///
    /// It is never `Worn`.
    pub fn hear<D: Disk>(
        &mut self,
        alloc: Global,
        disk: &mut D,
        letter: &Letter,
    ) -> Result<Outbox, NodeFault>
        requires works { CanWork (D.seen disk.old) self.old }
        requires spelt { CanBeTaken letter.now.body }
        ensures hears { (plan : PlainPlan) (own : ℕ) → IsNodeOf plan own self.old → HearsLetter (view_of D.seen D.faults D.clock) own plan.nodes letter.now self.old disk.old self.new disk.new result }
        ensures settled { LeavesUp result → D.settled disk.old → D.settled disk.new }
    {
        if let Some(why) = self.throws(letter) {
            return Ok(Outbox::thrown(alloc, why));
        }
        let answers = answers_to(alloc, letter)?;
        let letters = self.take_in(alloc, disk, letter, answers)?;
        Ok(Outbox::sent(letters))
    }
}
