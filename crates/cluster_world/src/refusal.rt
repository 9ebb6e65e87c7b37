//! Why a step is refused for the sake of a node that it names.
ghost use Rattle.std.specs.Prelude.{◌≡◌};
ghost use Rattle.std.specs.List.{list_all};
ghost use Rattle.cluster_model.specs.Steps.{actor_of, is_node, nodes_of_call};
ghost use Rattle.node_core.specs.Beginning.{call_seen};
ghost use Rattle.cluster_world.specs.Seen.{step_seen};
ghost use Rattle.cluster_world.specs.Lives.{life_seen};
ghost use Rattle.cluster_world.specs.Worlds.{life_among};
ghost use Rattle.cluster_world.specs.Turns.{life_refusal, nodes_of_step, node_refusal};

use crate::fault::StepFault;
use crate::life::Life;
use crate::nodes::Nodes;
use crate::step::Step;
use call_tickets::Call;
use mail_base::NodeNo;

/// What is wrong with the life of the node that is to act.
fn for_life(step: &Step, life: &Life) -> Option<StepFault>
    ensures { result ≡ life_refusal step.now (life_seen life.now) }
{
    match life {
        Life::Lost => Some(StepFault::NodeLost),
        Life::Up(_) => match step {
            Step::Start { .. } => Some(StepFault::NodeUp),
            _ => None,
        },
        Life::Down => match step {
            Step::Start { .. } | Step::Lose { .. } => None,
            _ => Some(StepFault::NodeDown),
        },
    }
}

/// The node that acts, or that is to stop, to start or to be lost.
fn actor(step: &Step) -> Option<NodeNo>
    ensures { result ≡ actor_of (step_seen step.now) }
{
    match step {
        Step::Begin { node, .. }
        | Step::Group { node }
        | Step::Conclude { node }
        | Step::Crash { node }
        | Step::Start { node }
        | Step::Lose { node } => Some(*node),
        Step::Ask { ticket } | Step::GiveUp { ticket } => Some(ticket.node),
        Step::Post { .. } | Step::Drop { .. } | Step::Tick { .. } => None,
        Step::Push { from, .. } | Step::Report { from, .. } => Some(*from),
        Step::Widen { at, .. } => Some(*at),
    }
}

impl<D> Nodes<D> {
    fn has(&self, node: NodeNo) -> bool
        ensures { result ≡ is_node self.now.plan node }
    {
        usize::from(node.number()) <= self.lives.len()
    }

    // the node that a call names beside its own
    fn has_named_by(&self, call: &Call) -> bool
        ensures { result ≡ list_all (is_node self.now.plan) (nodes_of_call (call_seen call.now)) }
    {
        match call {
            Call::Leave { manager, .. } => self.has(*manager),
            Call::Deliver(_) | Call::Login { .. } | Call::Fetch { .. } | Call::Strike { .. } =>
                true,
        }
    }

    fn has_named(&self, step: &Step) -> bool
        ensures { result ≡ list_all (is_node self.now.plan) (nodes_of_step step.now) }
    {
        match step {
            Step::Begin { node, call } => self.has(*node) && self.has_named_by(call),
            Step::Group { node }
            | Step::Conclude { node }
            | Step::Crash { node }
            | Step::Start { node }
            | Step::Lose { node } => self.has(*node),
            Step::Ask { ticket } | Step::GiveUp { ticket } => self.has(ticket.node),
            Step::Post { .. } | Step::Drop { .. } | Step::Tick { .. } => true,
            Step::Push { from, to } | Step::Report { from, to } => {
                self.has(*from) && self.has(*to)
            }
            Step::Widen { at, to, .. } => self.has(*at) && self.has(*to),
        }
    }

    /// Why the step is refused for the sake of a node.
    pub(crate) fn refuses(&self, step: &Step) -> Option<StepFault>
        ensures { result ≡ node_refusal self.now.plan (life_among self.now) step.now }
    {
        if !self.has_named(step) {
            return Some(StepFault::NoSuchNode);
        }
        let Some(node) = actor(step) else {
            return None;
        };
        let Some(life) = self.life(node) else {
            return Some(StepFault::NodeLost);
        };
        for_life(step, life)
    }
}
