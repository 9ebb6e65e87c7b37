//! A world: nodes with their disks, letters in flight, and the book.
ghost use Rattle.std.specs.Prelude.{◌≡◌, ◌≤◌, ◌*◌, [], length};
ghost use Rattle.world_book.specs.Books.{spare_of};
ghost use Rattle.cluster_world.specs.Lives.{all_falls_left};

use crate::fault::{OpenFault, StepFault};
use crate::flying::Flying;
use crate::life::Life;
use crate::nodes::Nodes;
use crate::opening::{open_all, roomy_book};
use crate::step::{Said, Step};
use crate::steps::conclude::conclude_node;
use crate::steps::crash::crash_node;
use crate::steps::group::group_node;
use crate::steps::lose::lose_node;
use crate::steps::push::push_states;
use crate::steps::report::report_rows;
use crate::steps::sorting::{begin_any, drop_any, post_any};
use crate::steps::start::start_node;
use crate::steps::tickets::{ask_any, give_up_any};
use crate::steps::widen::widen_copy;
use call_tickets::Call;
use io_edge::Disk;
use mail_base::{NodeNo, Plan};
use std::alloc::Global;
use world_book::Book;

/// The nodes of a cluster with their disks, the letters between them, and the book.
#[derive(Drop)]
pub struct World<D> {
    pub(crate) nodes: Nodes<D>,
    pub(crate) flying: Flying,
    pub(crate) book: Book,
    // since 1970
    pub(crate) seconds: u64,
    // how many steps it was asked for; the count stays at its type's end
    pub(crate) steps: u64,
    // whoever goes down or is lost finds room in the book
    ghost room_for_falls: { all_falls_left nodes.lives.items ≤ spare_of book },
}

#[tactic(auto, using(crate::proofs::Turned::most_falls))]
/// A world of these nodes, in which nothing has been done.
fn opened<D>(alloc: Global, plan: Plan, lives: Vec<Life>, disks: Vec<D>, book: Book) -> World<D>
    requires few { plan.nodes ≤ 16 }
    requires copied { 1 ≤ plan.copies }
    requires bucketed { 1 ≤ plan.buckets }
    requires all { length lives.items ≡ plan.nodes }
    requires disk_each { length disks.items ≡ plan.nodes }
    requires room { 2 * plan.nodes ≤ spare_of book }
    ensures plan { result.nodes.plan ≡ plan }
    ensures lives { result.nodes.lives.items ≡ lives.items }
    ensures disks { result.nodes.disks.items ≡ disks.items }
    ensures flights { result.flying.flights ≡ [] }
    ensures sent { result.flying.sent ≡ 0 }
    ensures book { result.book ≡ book }
    ensures seconds { result.seconds ≡ 0 }
    ensures steps { result.steps ≡ 0 }
{
    let flying = Flying::new(alloc);
    let nodes = Nodes { plan, lives, disks };
    World {
        nodes,
        flying,
        book,
        seconds: 0,
        steps: 0,
    }
}

impl<D: Disk> World<D> {
    ghost use Rattle.std.specs.Prelude.{◌≡◌, length, Option, None, IfOk, IfErr};
    ghost use Rattle.world_book.specs.Books.{entries_of};
    ghost use Rattle.node_store.specs.Disks.{view_of};
    ghost use Rattle.cluster_world.specs.Worlds.{state_of, life_of, plan_of, disks_of, book_of, CanMakeSteps};
    ghost use Rattle.cluster_world.specs.Books.{booked_by};
    ghost use Rattle.cluster_world.specs.Installs.{installs_in, installs_of, BooksInstalls};
    ghost use Rattle.cluster_world.specs.Steps.{IsStep, StepDid, AreSettled};
    ghost use Rattle.cluster_world.specs.Sure.{IsSurelyDone};
    ghost use Rattle.cluster_world.specs.Turns.{node_refusal, BeginsNone};
    ghost use Rattle.cluster_world.specs.Lives.{is_up_life, is_lost_life, boot_in_life};
    ghost use Rattle.cluster_world.specs.Flows.{HasFlowed};
    ghost use Rattle.cluster_world.specs.declared.step.Step.TheVariants.{Begin};
    ghost use Rattle.cluster_world.specs.Opens.{CanBeOpened, AreEmpty, Opened, Refused};

    /// A new world on empty disks, one for each node of the plan, in order: a journal each, and the records of each node's
    /// first boot and of its promise of the first epoch, in which all nodes are. A refusal hands the disks back.
    pub fn open(alloc: Global, plan: Plan, disks: Vec<D>) -> Result<World<D>, (OpenFault, Vec<D>)>
        requires fit { CanBeOpened plan }
        requires one_each { length disks.items ≡ plan.nodes }
        requires empty { AreEmpty D.seen disks.items }
        ensures opened { IfOk result (λ world. Opened (view_of D.seen D.faults D.clock) D.settled plan disks.items world) }
        ensures refused { IfErr result (λ refused. Refused (view_of D.seen D.faults D.clock) refused.0 disks.items (refused.1).items) }
    {
        let mut held = disks;
        let Ok(book) = roomy_book(alloc, held.len()) else {
            return Err((OpenFault::NoMemory, held));
        };
        let mut lives = Vec::new(alloc);
        match open_all(alloc, &plan, &mut held, &mut lives) {
            Ok(()) => Ok(opened(alloc, plan, lives, held, book)),
            Err(fault) => Err((fault, held)),
        }
    }

    /// The disks of a world that is done with, in order of node, in the list in which they were handed over. It takes no
    /// memory.
    pub fn close(self) -> Vec<D>
        ensures { result.items ≡ disks_of self }
    {
        let World { nodes, .. } = self;
        nodes.into_disks()
    }

    /// The plan of the cluster.
    pub fn plan(&self) -> &Plan
        ensures { result.now ≡ plan_of self.now }
    {
        self.nodes.plan()
    }

    /// What was acknowledged, deleted and dropped so far, which node installed which epoch, and which nodes went down, came up and
    /// were lost.
    pub fn book(&self) -> &Book
        ensures seen { booked_by result.now ≡ book_of self.now }
        ensures installs { installs_in (entries_of result.now) ≡ installs_of self.now }
    {
        &self.book
    }

    // A step that begins no call.
    fn make_other(&mut self, alloc: Global, step: &Step) -> Result<Said, StepFault>
        requires fit { node_refusal (plan_of self.old) (life_of self.old) step.now ≡ None }
        requires other { BeginsNone step.now }
        requires ready { CanMakeSteps D.seen self.old }
        ensures ready { CanMakeSteps D.seen self.new }
        ensures did { StepDid (view_of D.seen D.faults D.clock) result step.now (state_of self.old) (state_of self.new) }
        ensures settled { AreSettled D.settled (state_of self.old) → AreSettled D.settled (state_of self.new) }
        ensures steps { self.new.steps ≡ self.old.steps }
        ensures installs { BooksInstalls step.now self.old self.new }
        ensures sure { IsSurelyDone (state_of self.old) step.now result }
    {
        match step {
            Step::Ask { ticket } => ask_any(alloc, &mut self.nodes, &mut self.book, ticket),
            Step::GiveUp { ticket } => {
                give_up_any(alloc, &mut self.nodes, &mut self.flying, ticket)
            }
            Step::Start { node } => {
                start_node(alloc, &mut self.nodes, &self.flying, &mut self.book, *node)
            }
            Step::Drop { letter } => drop_any(alloc, &mut self.nodes, &mut self.flying, *letter),
            Step::Crash { node } => {
                crash_node(&mut self.nodes, &mut self.book, *node);
                Ok(Said::Done)
            }
            Step::Lose { node } => {
                lose_node(&mut self.nodes, &mut self.book, *node);
                Ok(Said::Done)
            }
            Step::Post { letter, keep } => post_any(
                alloc,
                &mut self.nodes,
                &mut self.flying,
                &mut self.book,
                *letter,
                *keep,
            ),
            Step::Push { from, to } => push_states(
                alloc,
                &mut self.nodes,
                &mut self.flying,
                &mut self.book,
                *from,
                *to,
            ),
            Step::Widen { at, user, id, to } => widen_copy(
                alloc,
                &mut self.nodes,
                &self.flying,
                &mut self.book,
                *at,
                user,
                *id,
                *to,
            ),
            Step::Group { node } => group_node(
                alloc,
                &mut self.nodes,
                &mut self.flying,
                &mut self.book,
                *node,
            ),
            Step::Conclude { node } => conclude_node(
                alloc,
                &mut self.nodes,
                &mut self.flying,
                &mut self.book,
                *node,
            ),
            Step::Report { from, to } => {
                report_rows(alloc, &mut self.nodes, &mut self.flying, *from, *to)
            }
            Step::Tick { seconds } => {
                self.seconds = *seconds;
                Ok(Said::Done)
            }
            // `make_fit` takes the beginning of a call.
            Step::Begin { .. } => unreachable!(),
        }
    }

    // A call begins.
    fn begin(&mut self, alloc: Global, node: NodeNo, call: Call) -> Result<Said, StepFault>
        requires fit { node_refusal (plan_of self.old) (life_of self.old) (Begin node call) ≡ None }
        requires ready { CanMakeSteps D.seen self.old }
        ensures ready { CanMakeSteps D.seen self.new }
        ensures did { StepDid (view_of D.seen D.faults D.clock) result (Begin node call) (state_of self.old) (state_of self.new) }
        ensures settled { AreSettled D.settled (state_of self.old) → AreSettled D.settled (state_of self.new) }
        ensures steps { self.new.steps ≡ self.old.steps }
        ensures installs { BooksInstalls (Begin node call) self.old self.new }
    {
        begin_any(
            alloc,
            &mut self.nodes,
            &mut self.flying,
            &mut self.book,
            node,
            call,
            self.seconds,
        )
    }

    // A step that is not refused for the sake of a node.
    fn make_fit(&mut self, alloc: Global, step: Step) -> Result<Said, StepFault>
        requires fit { node_refusal (plan_of self.old) (life_of self.old) step ≡ None }
        requires ready { CanMakeSteps D.seen self.old }
        ensures ready { CanMakeSteps D.seen self.new }
        ensures did { StepDid (view_of D.seen D.faults D.clock) result step (state_of self.old) (state_of self.new) }
        ensures settled { AreSettled D.settled (state_of self.old) → AreSettled D.settled (state_of self.new) }
        ensures steps { self.new.steps ≡ self.old.steps }
        ensures installs { BooksInstalls step self.old self.new }
        ensures sure { IsSurelyDone (state_of self.old) step result }
    {
        match step {
            Step::Begin { node, call } => self.begin(alloc, node, call),
            other => self.make_other(alloc, &other),
        }
    }

    /// The step, which is not counted here.
    fn make_step(&mut self, alloc: Global, step: Step) -> Result<Said, StepFault>
        requires ready { CanMakeSteps D.seen self.old }
        ensures ready { CanMakeSteps D.seen self.new }
        ensures did { StepDid (view_of D.seen D.faults D.clock) result step (state_of self.old) (state_of self.new) }
        ensures settled { AreSettled D.settled (state_of self.old) → AreSettled D.settled (state_of self.new) }
        ensures steps { self.new.steps ≡ self.old.steps }
        ensures installs { BooksInstalls step self.old self.new }
        ensures sure { IsSurelyDone (state_of self.old) step result }
    {
        if let Some(fault) = self.nodes.refuses(&step) {
            return Err(fault);
        }
        self.make_fit(alloc, step)
    }

    /// Makes one step.
    pub fn step(&mut self, alloc: Global, step: Step) -> Result<Said, StepFault>
        requires ready { CanMakeSteps D.seen self.old }
        ensures ready { CanMakeSteps D.seen self.new }
        ensures is { IsStep (view_of D.seen D.faults D.clock) result step self.old self.new }
        ensures settled { AreSettled D.settled (state_of self.old) → AreSettled D.settled (state_of self.new) }
        ensures sure { IsSurelyDone (state_of self.old) step result }
    {
        self.steps = self.steps.saturating_add(1);
        self.make_step(alloc, step)
    }

    /// Whether the node is up.
    pub fn is_up(&self, node: NodeNo) -> bool
        ensures { result ≡ is_up_life (life_of self.now node) }
    {
        match self.nodes.life(node) {
            Some(life) => life.is_up(),
            None => false,
        }
    }

    /// Whether the node is lost for good; and whether the plan has no such node.
    pub fn is_lost(&self, node: NodeNo) -> bool
        ensures { result ≡ is_lost_life (life_of self.now node) }
    {
        match self.nodes.life(node) {
            Some(life) => life.is_lost(),
            None => true,
        }
    }

    /// The boot of a node that is up.
    pub fn boot(&self, node: NodeNo) -> Option<u32>
        ensures { result ≡ boot_in_life (life_of self.now node) }
    {
        match self.nodes.life(node) {
            Some(life) => life.boot(),
            None => None,
        }
    }

    /// Posts the letter of the lowest number, and the next, until none is in flight. It stops with the node whose disk
    /// failed.
    ///
    /// # Errors
    ///
    /// `Worn` and `NoMemory`; what was posted before stays posted.
    pub fn flow(&mut self, alloc: Global) -> Result<Option<NodeNo>, StepFault>
        requires ready { CanMakeSteps D.seen self.old }
        ensures ready { CanMakeSteps D.seen self.new }
        ensures flowed { HasFlowed (view_of D.seen D.faults D.clock) result self.old self.new }
        ensures settled { AreSettled D.settled (state_of self.old) → AreSettled D.settled (state_of self.new) }
    {
        while let Some(letter) = self.flying.first() {
            let step = Step::Post {
                letter,
                keep: false,
            };
            match self.step(alloc, step)? {
                Said::Faulted(node) => return Ok(Some(node)),
                _ => {}
            }
        }
        Ok(None)
    }
}
