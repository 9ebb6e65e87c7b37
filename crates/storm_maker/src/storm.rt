// What happens in the rounds of a storm, as it is drawn.
ghost use Rattle.std.specs.Prelude.{◌≡◌, ◌+◌, ◌<◌, ◌≤◌, ◌^◌};
ghost use Rattle.storm_maker.specs.Draws.{pick, passed, up};
ghost use Rattle.storm_maker.specs.Storm.{sends, turns, reads, happens_at, happens, down_after, session_after};

use rand_core::utils::NextWord;
use rand_pcg::Lcg64Xsh32;

/// What happens in a round of a storm.
#[derive(Clone, Copy, Debug, PartialEq, Eq)]
pub(crate) enum Happening {
    /// A session at the node sends this number to the user.
    Message { node: u32, user: u32, number: u32 },
    /// The node stops.
    Crash { node: u32 },
    /// The node that is down starts, and the cluster forms anew at it.
    Start { node: u32 },
    /// A session at the node reads the user's mail, and deletes the first message.
    Reading { node: u32, user: u32 },
    /// The node pushes and reports what it owes.
    Pushing { node: u32 },
    /// All is settled.
    Settling,
}

// The next word, modulo `below`.
fn pick(draws: &mut Lcg64Xsh32, below: u32) -> u32
    requires { 0 < below }
    ensures { (result, draws.new) ≡ pick below draws.old }
{
    draws.next_word() % below
}

// The node after this one in the circle of five where this one is down.
fn passed(down: Option<u32>, node: u32) -> u32
    requires { node ≤ 5 }
    ensures { result ≡ passed down node }
{
    match down {
        None => node,
        Some(fallen) => { if node == fallen { node % 5 + 1 } else { node } }
    }
}

// A node that is up.
fn up(draws: &mut Lcg64Xsh32, down: Option<u32>) -> u32
    ensures { (result, draws.new) ≡ up down draws.old }
{
    passed(down, pick(draws, 5) + 1)
}

// A message.
fn sends(draws: &mut Lcg64Xsh32, down: Option<u32>) -> Happening
    ensures { (result, draws.new) ≡ sends down draws.old }
{
    let node = up(draws, down);
    let user = pick(draws, 8);
    let number = pick(draws, 1000);
    Happening::Message { node, user, number }
}

// A node stops, or the one that is down starts.
fn turns(draws: &mut Lcg64Xsh32, down: Option<u32>) -> Happening
    ensures { (result, draws.new) ≡ turns down draws.old }
{
    match down {
        None => Happening::Crash {
            node: up(draws, None),
        },
        Some(node) => Happening::Start { node },
    }
}

// Mail is read.
fn reads(draws: &mut Lcg64Xsh32, down: Option<u32>) -> Happening
    ensures { (result, draws.new) ≡ reads down draws.old }
{
    let node = up(draws, down);
    let user = pick(draws, 8);
    Happening::Reading { node, user }
}

// What happens where this was drawn of eight.
fn happens_at(which: u32, draws: &mut Lcg64Xsh32, down: Option<u32>) -> Happening
    ensures { (result, draws.new) ≡ happens_at which down draws.old }
{
    match which {
        0..=3 => sends(draws, down),
        4 => turns(draws, down),
        5 => reads(draws, down),
        6 => Happening::Pushing {
            node: up(draws, down),
        },
        _ => Happening::Settling,
    }
}

/// What happens next, where this node is down.
pub(crate) fn happens(draws: &mut Lcg64Xsh32, down: Option<u32>) -> Happening
    ensures { (result, draws.new) ≡ happens down draws.old }
{
    let which = pick(draws, 8);
    happens_at(which, draws, down)
}

impl Happening {
    /// Which node is down after it.
    pub(crate) fn down_after(self, down: Option<u32>) -> Option<u32>
        ensures { result ≡ down_after self down }
    {
        match self {
            Happening::Crash { node } => Some(node),
            Happening::Start { .. } => None,
            Happening::Message { .. } => down,
            Happening::Reading { .. } => down,
            Happening::Pushing { .. } => down,
            Happening::Settling => down,
        }
    }

    /// The number of the next session after it.
    pub(crate) fn session_after(self, session: u64) -> u64
        requires { session + 1 < 2 ^ 64 }
        ensures after { result ≡ session_after self session }
        ensures next { result ≤ session + 1 }
    {
        match self {
            Happening::Message { .. } => session + 1,
            Happening::Reading { .. } => session + 1,
            Happening::Crash { .. } => session,
            Happening::Start { .. } => session,
            Happening::Pushing { .. } => session,
            Happening::Settling => session,
        }
    }
}
