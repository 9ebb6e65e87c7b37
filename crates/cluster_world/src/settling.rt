//! A whole settle in one call: all letters, and then sweeps until the latest epoch is at rest; and what a world tells of its maps.
ghost use Rattle.std.specs.Prelude.{◌≡◌, ◌≢◌, ◌≤◌, ◌+◌, ◌&&◌, not, nat_eq, ℕ, drop, ◌∷◌, []};
ghost use Rattle.object_model.specs.Sets.{has};
ghost use Rattle.node_store.specs.Disks.{view_of};
ghost use Rattle.cluster_world.specs.Worlds.{state_of, CanMakeSteps};
ghost use Rattle.cluster_world.specs.Lives.{CanWorkOn};
ghost use Rattle.cluster_world.specs.Steps.{AreSettled};
ghost use Rattle.cluster_world.specs.Settling.{rest_in, rest_of, latest_in, pairs_from, pairs_up_to, pairs_in, settle_refusal, FlowsOn, StepFlowsOn, TellsOn, HasLeft, SweepsOnce, SweepsAll, GoesOn, maps_in, due_in, unsettled_from, settle_ended, absent_by, is_owing, settle_by};
ghost use Rattle.cluster_world.specs.Rests.{HasSettled};
ghost use Rattle.cluster_world.specs.declared.settling.Rest.TheVariants.{Owing, Absent};
ghost use Rattle.cluster_world.specs.declared.step.Step.TheVariants.{Push, Report};

use crate::fault::StepFault;
use crate::nodes::{Nodes, node_at, numbered};
use crate::regrouping::Halt;
use crate::resting::{is_unsettled, latest, latest_members};
use crate::step::Step;
use crate::world::World;
use io_edge::Disk;
use mail_base::{Name, NodeNo, NodeSet};
use std::alloc::Global;
use user_map::manager;

/// What came of a settle.
#[derive(Clone, Copy, Debug)]
pub enum Settle {
    /// The latest epoch is settled, and no letter is in flight.
    Settled,
    /// This member of it is not live, and is the lowest; or no node that is up has an epoch, and it is node 1.
    NotAllUp(NodeNo),
    /// The disk of this node failed in a step, and the node is down.
    Fault(NodeNo),
}

/// How the latest epoch of a world is.
#[derive(Clone, Copy, Debug)]
pub enum Rest {
    /// This member is not live, and is the lowest.
    Absent(NodeNo),
    /// All are live, and nothing is due.
    Calm,
    /// All are live, and something is due.
    Owing,
}

/// What a settle answers to the refusal of a step.
fn refusal(why: StepFault) -> StepFault
    ensures { result ≡ settle_refusal why }
{
    match why {
        StepFault::Worn => StepFault::Worn,
        StepFault::NoMemory { down } => StepFault::NoMemory { down },
        StepFault::NoSuchNode
        | StepFault::NodeLost
        | StepFault::NodeDown
        | StepFault::NodeUp
        | StepFault::NoSuchLetter
        | StepFault::NoSuchTicket
        | StepFault::NotAGroup
        | StepFault::NoRoom => StepFault::NoMemory { down: None },
    }
}

/// What a settle answers that goes no further.
fn ended(halt: Halt) -> Result<Settle, StepFault>
    ensures { result ≡ settle_ended halt }
{
    match halt {
        Halt::Fault(failed) => Ok(Settle::Fault(failed)),
        Halt::Refused(why) => Err(refusal(why)),
    }
}

/// Who is absent, if it is so.
fn absent(rest: Rest) -> Option<NodeNo>
    ensures { result ≡ absent_by rest }
{
    match rest {
        Rest::Absent(node) => Some(node),
        Rest::Calm | Rest::Owing => None,
    }
}

/// Whether something is due.
fn is_owing(rest: Rest) -> bool
    ensures { result ≡ is_owing rest }
{
    match rest {
        Rest::Owing => true,
        Rest::Absent(_) | Rest::Calm => false,
    }
}

/// What a settle answers where nothing is due.
fn settle_of(rest: Rest) -> Settle
    ensures { result ≡ settle_by rest }
{
    match rest {
        Rest::Absent(node) => Settle::NotAllUp(node),
        Rest::Calm | Rest::Owing => Settle::Settled,
    }
}

/// Whether the second node is one of these members, and another than the first.
fn is_other(members: NodeSet, from: NodeNo, to: NodeNo) -> bool
    ensures { result ≡ (has members to && not (nat_eq from to)) }
{
    members.has(to) && from != to
}

impl<D: Disk> Nodes<D> {
    /// How the latest epoch is.
    fn rest(&self) -> Rest
        requires ready { CanWorkOn D.seen self.now.plan self.now.lives.items self.now.disks.items }
        ensures { result ≡ rest_of self.now.lives.items (latest_in self.now.lives.items) }
    {
        let Some(install) = latest(&self.lives) else {
            return Rest::Absent(numbered(1));
        };
        if let Some(node) = self.absent(install) {
            return Rest::Absent(node);
        }
        if self.have_settled(install.members.as_slice()) {
            Rest::Calm
        } else {
            Rest::Owing
        }
    }

    /// Whether something is due in it.
    fn is_owing(&self) -> bool
        requires ready { CanWorkOn D.seen self.now.plan self.now.lives.items self.now.disks.items }
        ensures { result ≡ is_owing (rest_of self.now.lives.items (latest_in self.now.lives.items)) }
    {
        is_owing(self.rest())
    }

    /// The first of these nodes that is up and not settled, of those from this place on.
    fn unsettled(&self, place: usize) -> Option<NodeNo>
        requires ready { CanWorkOn D.seen self.now.plan self.now.lives.items self.now.disks.items }
        ensures { result ≡ unsettled_from (place + 1) (drop place self.now.lives.items) }
    {
        let life = self.lives.get(place)?;
        let node = node_at(place);
        if is_unsettled(life, node) {
            Some(node)
        } else {
            self.unsettled(place + 1)
        }
    }
}

impl<D: Disk> World<D> {
    // Posts all letters.
    fn flow_on(&mut self, alloc: Global) -> Result<(), Halt>
        requires ready { CanMakeSteps D.seen self.old }
        ensures ready { CanMakeSteps D.seen self.new }
        ensures flowed { FlowsOn (view_of D.seen D.faults D.clock) result self.old self.new }
        ensures settled { AreSettled D.settled (state_of self.old) → AreSettled D.settled (state_of self.new) }
    {
        let fell = self.flow(alloc)?;
        match fell {
            Some(node) => Err(Halt::Fault(node)),
            None => Ok(()),
        }
    }

    // A step is made, and all letters are posted.
    fn step_and_flow(&mut self, alloc: Global, step: Step) -> Result<(), Halt>
        requires ready { CanMakeSteps D.seen self.old }
        ensures ready { CanMakeSteps D.seen self.new }
        ensures made { StepFlowsOn (view_of D.seen D.faults D.clock) step result self.old self.new }
        ensures settled { AreSettled D.settled (state_of self.old) → AreSettled D.settled (state_of self.new) }
    {
        self.step_on(alloc, step)?;
        self.flow_on(alloc)
    }

    fn push_all(&mut self, alloc: Global, from: NodeNo, to: NodeNo) -> Result<(), Halt>
        requires ready { CanMakeSteps D.seen self.old }
        ensures ready { CanMakeSteps D.seen self.new }
        ensures made { StepFlowsOn (view_of D.seen D.faults D.clock) (Push from to) result self.old self.new }
        ensures settled { AreSettled D.settled (state_of self.old) → AreSettled D.settled (state_of self.new) }
    {
        self.step_and_flow(alloc, Step::Push { from, to })
    }

    fn report_all(&mut self, alloc: Global, from: NodeNo, to: NodeNo) -> Result<(), Halt>
        requires ready { CanMakeSteps D.seen self.old }
        ensures ready { CanMakeSteps D.seen self.new }
        ensures made { StepFlowsOn (view_of D.seen D.faults D.clock) (Report from to) result self.old self.new }
        ensures settled { AreSettled D.settled (state_of self.old) → AreSettled D.settled (state_of self.new) }
    {
        self.step_and_flow(alloc, Step::Report { from, to })
    }

    // One node pushes to another, and all letters are posted; then it reports, and all letters are posted.
    fn tell_one(&mut self, alloc: Global, from: NodeNo, to: NodeNo) -> Result<(), Halt>
        requires ready { CanMakeSteps D.seen self.old }
        requires other { from ≢ to }
        ensures ready { CanMakeSteps D.seen self.new }
        ensures told { TellsOn (view_of D.seen D.faults D.clock) ((from, to) ∷ []) result self.old self.new }
        ensures settled { AreSettled D.settled (state_of self.old) → AreSettled D.settled (state_of self.new) }
    {
        self.push_all(alloc, from, to)?;
        self.report_all(alloc, from, to)
    }

    // A node tells each other of these members, of the nodes from 1 to so many.
    fn tell_each(
        &mut self,
        alloc: Global,
        from: NodeNo,
        members: NodeSet,
        nodes: u8,
    ) -> Result<(), Halt>
        requires ready { CanMakeSteps D.seen self.old }
        requires few { nodes ≤ 16 }
        ensures ready { CanMakeSteps D.seen self.new }
        ensures told { TellsOn (view_of D.seen D.faults D.clock) (pairs_from from members nodes) result self.old self.new }
        ensures settled { AreSettled D.settled (state_of self.old) → AreSettled D.settled (state_of self.new) }
    {
        if nodes == 0 {
            return Ok(());
        }
        self.tell_each(alloc, from, members, nodes - 1)?;
        let to = numbered(nodes);
        if is_other(members, from, to) {
            self.tell_one(alloc, from, to)
        } else {
            Ok(())
        }
    }

    // Each of the first of these members tells each other, of the nodes from 1 to so many.
    fn tell_all(
        &mut self,
        alloc: Global,
        members: NodeSet,
        nodes: u8,
        first: u8,
    ) -> Result<(), Halt>
        requires ready { CanMakeSteps D.seen self.old }
        requires few { nodes ≤ 16 }
        requires fewer { first ≤ 16 }
        ensures ready { CanMakeSteps D.seen self.new }
        ensures told { TellsOn (view_of D.seen D.faults D.clock) (pairs_up_to members nodes first) result self.old self.new }
        ensures settled { AreSettled D.settled (state_of self.old) → AreSettled D.settled (state_of self.new) }
    {
        if first == 0 {
            return Ok(());
        }
        self.tell_all(alloc, members, nodes, first - 1)?;
        let from = numbered(first);
        if members.has(from) {
            self.tell_each(alloc, from, members, nodes)
        } else {
            Ok(())
        }
    }

    // A sweep: each member of the latest epoch tells each other.
    fn sweep(&mut self, alloc: Global) -> Result<(), Halt>
        requires ready { CanMakeSteps D.seen self.old }
        ensures ready { CanMakeSteps D.seen self.new }
        ensures told { TellsOn (view_of D.seen D.faults D.clock) (pairs_in (state_of self.old)) result self.old self.new }
        ensures settled { AreSettled D.settled (state_of self.old) → AreSettled D.settled (state_of self.new) }
    {
        let members = latest_members(&self.nodes.lives);
        let nodes = self.nodes.plan().nodes;
        self.tell_all(alloc, members, nodes, nodes)
    }

    // How many numbers of letters are left.
    fn numbers_left(&self) -> u64
        ensures { HasLeft result self.now }
    {
        u64::MAX - self.flying.sent()
    }

    // A sweep that sends a letter: fewer numbers are left. One that sends none has pushed what no rule knows of, which never
    // comes over disks that tell what they hold: it is answered as out of memory, so that sweeps come to an end.
    fn sweep_once(&mut self, alloc: Global, left: u64) -> Result<u64, Halt>
        requires ready { CanMakeSteps D.seen self.old }
        requires due { rest_in (state_of self.old) ≡ Owing }
        requires left { HasLeft left self.old }
        ensures ready { CanMakeSteps D.seen self.new }
        ensures swept { SweepsOnce (view_of D.seen D.faults D.clock) left result self.old self.new }
        ensures settled { AreSettled D.settled (state_of self.old) → AreSettled D.settled (state_of self.new) }
    {
        self.sweep(alloc)?;
        let now = self.numbers_left();
        if now < left {
            Ok(now)
        } else {
            Err(Halt::Refused(StepFault::NoMemory { down: None }))
        }
    }

    // Sweeps until the epoch is at rest, or a member is not live.
    fn sweep_all(&mut self, alloc: Global) -> Result<Settle, Halt>
        requires ready { CanMakeSteps D.seen self.old }
        requires clear { (state_of self.old).flying.flights ≡ [] }
        ensures ready { CanMakeSteps D.seen self.new }
        ensures swept { SweepsAll (view_of D.seen D.faults D.clock) result self.old self.new }
        ensures settled { AreSettled D.settled (state_of self.old) → AreSettled D.settled (state_of self.new) }
    {
        let mut left = self.numbers_left();
        while self.nodes.is_owing() {
            left = self.sweep_once(alloc, left)?;
        }
        Ok(settle_of(self.nodes.rest()))
    }

    // All letters, and then sweeps.
    fn settle_on(&mut self, alloc: Global) -> Result<Settle, Halt>
        requires ready { CanMakeSteps D.seen self.old }
        requires present { (n : ℕ) → rest_in (state_of self.old) ≡ Absent n → ⊥ }
        ensures ready { CanMakeSteps D.seen self.new }
        ensures goes { GoesOn (view_of D.seen D.faults D.clock) result self.old self.new }
        ensures settled { AreSettled D.settled (state_of self.old) → AreSettled D.settled (state_of self.new) }
    {
        self.flow_on(alloc)?;
        self.sweep_all(alloc)
    }

    /// Brings the latest epoch to rest: the greatest that a node which is up has installed. Where each of its members is up in
    /// its boot of the epoch and has installed it, all letters are posted, the lowest number first. Then, as long as something
    /// is due, each member pushes to each other, and reports to it, and all letters are posted after each. At rest nothing in
    /// the log of a member is owed to another, no row is due, and no letter is in flight. In a world that stands for a sound one
    /// of the whole machine all maps are right then. It stops with the node whose disk failed.
    ///
    /// # Errors
    ///
    /// `Worn` and `NoMemory`; what was done before stays done. `NoMemory` is also answered where a stored message has more
    /// octets than a letter has room for, and where a sweep sent nothing, which never comes over disks that tell what they hold.
    pub fn settle(&mut self, alloc: Global) -> Result<Settle, StepFault>
        requires ready { CanMakeSteps D.seen self.old }
        ensures ready { CanMakeSteps D.seen self.new }
        ensures settles { HasSettled (view_of D.seen D.faults D.clock) result self.old self.new }
        ensures settled { AreSettled D.settled (state_of self.old) → AreSettled D.settled (state_of self.new) }
    {
        if let Some(node) = absent(self.nodes.rest()) {
            return Ok(Settle::NotAllUp(node));
        }
        match self.settle_on(alloc) {
            Ok(settle) => Ok(settle),
            Err(halt) => ended(halt),
        }
    }

    /// The manager of the user in the latest epoch, and the nodes that it names, by its own rows and its own epoch. Nothing
    /// exactly where no node that is up has an epoch, or that manager is not live. It takes no memory.
    pub fn maps(&self, user: &Name) -> Option<(NodeNo, NodeSet)>
        ensures { result ≡ maps_in (state_of self.now) user.now }
    {
        let install = latest(&self.nodes.lives)?;
        let node = manager(&install.map, user)?;
        if !self.nodes.is_live_in(install, node) {
            return None;
        }
        Some((node, self.nodes.named(node, user)))
    }

    /// The lowest node that is up and not settled: something in its log is owed to another member of its epoch, or a row of it
    /// is due. It takes no memory.
    pub fn due(&self) -> Option<NodeNo>
        requires ready { CanMakeSteps D.seen self.now }
        ensures { result ≡ due_in (state_of self.now) }
    {
        self.nodes.unsettled(0)
    }
}
