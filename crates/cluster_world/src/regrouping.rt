//! A whole regroup in one call: its rounds, its conclusion and its installs.
ghost use Rattle.std.specs.Prelude.{◌≡◌, ◌-◌, ◌≤◌, false, None, ◌&&◌, ◌||◌, not, is_some};
ghost use Rattle.node_store.specs.Disks.{view_of};
ghost use Rattle.std.specs.Option.{option_copied};
ghost use Rattle.cluster_world.specs.Worlds.{state_of, plan_of, life_of, CanMakeSteps};
ghost use Rattle.cluster_world.specs.Flights.{AreInOrder};
ghost use Rattle.cluster_world.specs.Turns.{node_refusal};
ghost use Rattle.cluster_world.specs.Steps.{AreSettled};
ghost use Rattle.cluster_world.specs.Regroups.{has_room_for_rounds, used_up_in, group_is_worn, is_old, failed_in, ended, StepsOn, PostsOn, AsksOn, AsksAgain, ConcludesOn, FormsOn, HasRegrouped};
ghost use Rattle.cluster_world.specs.declared.step.Step.TheVariants.{Group};

use crate::fault::StepFault;
use crate::flying::is_worn;
use crate::life::Life;
use crate::step::{Said, Step};
use crate::steps::group::is_used_up;
use crate::world::World;
use io_edge::Disk;
use mail_base::{EpochId, NodeNo, NodeSet};
use node_core::Why;
use std::alloc::Global;

/// What came of a regroup.
#[derive(Debug, Drop)]
pub enum Regroup {
    /// An epoch was formed.
    Formed {
        /// The epoch.
        epoch: EpochId,
        /// Its members.
        members: NodeSet,
    },
    /// The disk of this node failed in a step, and the node is down.
    Fault(NodeNo),
}

/// Why a regroup goes no further.
#[derive(Clone, Copy, Debug)]
pub enum Halt {
    /// The disk of this node failed.
    Fault(NodeNo),
    /// A step was refused.
    Refused(StepFault),
}

impl From<StepFault> for Halt {
    ghost use Rattle.std.specs.Prelude.{◌≡◌};
    ghost use Rattle.cluster_world.specs.declared.regrouping.Halt.TheVariants as halt;

    ghost from_gives = { λ why h. h ≡ halt.Refused why };

    fn from(why: StepFault) -> Halt {
        Halt::Refused(why)
    }
}

/// What a regroup answers that goes no further.
fn ended(halt: Halt) -> Result<Regroup, StepFault>
    ensures { result ≡ ended halt }
{
    match halt {
        Halt::Fault(failed) => Ok(Regroup::Fault(failed)),
        Halt::Refused(why) => Err(why),
    }
}

/// The node whose disk failed.
fn failed(said: &Said) -> Option<NodeNo>
    ensures { result ≡ failed_in said.now }
{
    match said {
        Said::Faulted(node) => Some(*node),
        _ => None,
    }
}

/// Whether a letter was thrown as old.
fn is_old(said: &Said) -> bool
    ensures { result ≡ is_old said.now }
{
    match said {
        Said::Thrown(why) => *why == Why::Old,
        _ => false,
    }
}

/// The same, or that one was before.
fn or_old(old: bool, said: &Said) -> bool
    ensures { result ≡ (old || is_old said.now) }
{
    old || is_old(said)
}

/// Whether the count of epochs of a node that is up is used up, if the plan has it.
fn used_up_in(life: Option<&Life>) -> bool
    ensures { result ≡ used_up_in (option_copied life.entry) }
{
    match life {
        Some(life) => is_used_up(life),
        None => false,
    }
}

impl<D: Disk> World<D> {
    // Makes a step that is to go on.
    pub(crate) fn step_on(&mut self, alloc: Global, step: Step) -> Result<Said, Halt>
        requires ready { CanMakeSteps D.seen self.old }
        ensures ready { CanMakeSteps D.seen self.new }
        ensures did { StepsOn (view_of D.seen D.faults D.clock) step result self.old self.new }
        ensures settled { AreSettled D.settled (state_of self.old) → AreSettled D.settled (state_of self.new) }
    {
        let said = self.step(alloc, step)?;
        match failed(&said) {
            Some(node) => Err(Halt::Fault(node)),
            None => Ok(said),
        }
    }

    // Posts the letters whose numbers are above this one, up to that one. It answers whether one was thrown as old.
    fn post_up_to(&mut self, alloc: Global, after: u64, last: u64) -> Result<bool, Halt>
        requires ready { CanMakeSteps D.seen self.old }
        ensures ready { CanMakeSteps D.seen self.new }
        ensures posted { PostsOn (view_of D.seen D.faults D.clock) after (last - after) result self.old self.new }
        ensures settled { AreSettled D.settled (state_of self.old) → AreSettled D.settled (state_of self.new) }
    {
        let mut posted = after;
        let mut old = false;
        while posted < last {
            posted += 1;
            let step = Step::Post {
                letter: posted,
                keep: false,
            };
            let said = self.step_on(alloc, step)?;
            old = or_old(old, &said);
        }
        Ok(old)
    }

    // A round: the node opens a group, and its letters are posted, and then what answers them. It answers whether a node threw
    // one as old.
    fn ask_all(&mut self, alloc: Global, node: NodeNo) -> Result<bool, Halt>
        requires ready { CanMakeSteps D.seen self.old }
        ensures ready { CanMakeSteps D.seen self.new }
        ensures asked { AsksOn (view_of D.seen D.faults D.clock) node result self.old self.new }
        ensures settled { AreSettled D.settled (state_of self.old) → AreSettled D.settled (state_of self.new) }
    {
        let before = self.flying.sent();
        self.step_on(alloc, Step::Group { node })?;
        let asked = self.flying.sent();
        let old = self.post_up_to(alloc, before, asked)?;
        let answered = self.flying.sent();
        self.post_up_to(alloc, asked, answered)?;
        Ok(old)
    }

    // A round more, if one is to be made.
    fn ask_again(&mut self, alloc: Global, node: NodeNo, again: bool) -> Result<(), Halt>
        requires ready { CanMakeSteps D.seen self.old }
        ensures ready { CanMakeSteps D.seen self.new }
        ensures asked { AsksAgain (view_of D.seen D.faults D.clock) node again result self.old self.new }
        ensures settled { AreSettled D.settled (state_of self.old) → AreSettled D.settled (state_of self.new) }
    {
        if again {
            self.ask_all(alloc, node)?;
        }
        Ok(())
    }

    // The group is concluded, and its letters are posted.
    fn conclude_all(&mut self, alloc: Global, node: NodeNo) -> Result<(EpochId, NodeSet), Halt>
        requires ready { CanMakeSteps D.seen self.old }
        ensures ready { CanMakeSteps D.seen self.new }
        ensures concluded { ConcludesOn (view_of D.seen D.faults D.clock) node result self.old self.new }
        ensures settled { AreSettled D.settled (state_of self.old) → AreSettled D.settled (state_of self.new) }
    {
        let before = self.flying.sent();
        let Said::Concluded { epoch, members } = self.step_on(alloc, Step::Conclude { node })?
        else {
            unreachable!()
        };
        let sent = self.flying.sent();
        self.post_up_to(alloc, before, sent)?;
        Ok((epoch, members))
    }

    // A regroup for which there is room.
    fn form(&mut self, alloc: Global, node: NodeNo) -> Result<(EpochId, NodeSet), Halt>
        requires ready { CanMakeSteps D.seen self.old }
        ensures ready { CanMakeSteps D.seen self.new }
        ensures formed { FormsOn (view_of D.seen D.faults D.clock) node result self.old self.new }
        ensures settled { AreSettled D.settled (state_of self.old) → AreSettled D.settled (state_of self.new) }
    {
        let again = self.ask_all(alloc, node)?;
        self.ask_again(alloc, node, again)?;
        self.conclude_all(alloc, node)
    }

    // Whether a number that the node's group needs is used up.
    fn group_is_worn(&self, node: NodeNo) -> bool
        ensures { result ≡ group_is_worn node (state_of self.now) }
    {
        is_worn(self.flying.sent()) || used_up_in(self.nodes.life(node))
    }

    // Whether the node could begin, and there is no room for the letters of it.
    fn lacks_room(&self, node: NodeNo) -> bool
        ensures lacks { result ≡ ((not (is_some (node_refusal (plan_of self.now) (life_of self.now) (Group node))) && not (group_is_worn node (state_of self.now))) && not (has_room_for_rounds (plan_of self.now).nodes (state_of self.now).flying.flights)) }
        ensures order { AreInOrder (state_of self.now).flying }
    {
        let room = self.flying.has_room_for_rounds(self.nodes.plan().nodes);
        self.nodes.refuses(&Step::Group { node }).is_none() && !self.group_is_worn(node) && !room
    }

    /// The node forms an epoch of just the nodes that are up: it opens a group, whose letters are posted in order, and then
    /// what answers them; once more where a node threw one as old; then it concludes, and the installs are posted. Other
    /// letters in flight stay. That just the nodes which were up are members, and that each has installed the epoch, is said of
    /// a world that stands for a sound one of the whole machine. It stops with the first step that is refused, and with the node whose disk failed.
    ///
    /// # Errors
    ///
    /// `NoRoom` where there is not room for six letters for each node of the plan as it begins, and as the steps are refused;
    /// what was done before stays done. Where a number is used up that its first step needs, it is refused as `Worn`, also
    /// where there is no room.
    pub fn regroup(&mut self, alloc: Global, node: NodeNo) -> Result<Regroup, StepFault>
        requires ready { CanMakeSteps D.seen self.old }
        ensures ready { CanMakeSteps D.seen self.new }
        ensures regrouped { HasRegrouped (view_of D.seen D.faults D.clock) node result self.old self.new }
        ensures settled { AreSettled D.settled (state_of self.old) → AreSettled D.settled (state_of self.new) }
    {
        if self.lacks_room(node) {
            return Err(StepFault::NoRoom);
        }
        match self.form(alloc, node) {
            Ok((epoch, members)) => Ok(Regroup::Formed { epoch, members }),
            Err(halt) => ended(halt),
        }
    }
}
