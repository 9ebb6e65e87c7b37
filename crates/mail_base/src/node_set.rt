// A set of nodes, in one word.
ghost use Rattle.std.specs.Prelude.{◌≡◌, ◌<◌, ◌≤◌, ◌+◌, ◌-◌, ◌^◌, ◌||◌, ◌&&◌, not, false, ℕ, nat_eq, bit_or};
ghost use Rattle.object_model.specs.Sets.{has, with_node, without_node, count_in};

use crate::NodeNo;
use std::marker::Model;

/// A set of nodes, so of numbers from 1 to 16. A contract sees its mask, whose bit n - 1 is node n.
#[derive(Clone, Copy, Debug, PartialEq, Eq)]
pub struct NodeSet {
    word: u64,
}

impl Model for NodeSet {
    ghost use Rattle.std.specs.Prelude.{ℕ, ◌<◌, ◌^◌};

    ghost Value = { ℕ };

    ghost view = { λ s. s.word };

    ghost inverse = { λ m. record { word = m } };

    ghost invariant = { λ s. s.word < 2 ^ 16 };
}

fn bit_of(node: NodeNo) -> u64
    ensures word { result ≡ 2 ^ (node - 1) }
    ensures low { 0 < node }
    ensures high { node ≤ 16 }
{
    1 << (node.number() - 1)
}

#[tactic(auto, using(crate::proofs::Sets::has_shifted))]
fn holds(word: u64, at: u8) -> bool
    requires { at < 64 }
    ensures { result ≡ has word (at + 1) }
{
    (word >> at) & 1 == 1
}

impl NodeSet {
    /// The set without nodes.
    pub fn empty() -> NodeSet
        ensures mask { result ≡ 0 }
        ensures none { (n : ℕ) → has result n ≡ false }
    {
        NodeSet { word: 0 }
    }

    /// The set of this mask.
    pub fn from_mask(mask: u16) -> NodeSet
        ensures { result ≡ mask }
    {
        NodeSet {
            word: u64::from(mask),
        }
    }

    /// Its mask: bit n - 1 is node n.
    pub fn mask(self) -> u16
        ensures { result ≡ self }
    {
        self.word as u16
    }

    /// Whether it has the node.
    pub fn has(self, node: NodeNo) -> bool
        ensures { result ≡ has self node }
    {
        holds(self.word, node.number() - 1)
    }

    /// The set with this node in it.
    pub fn with(self, node: NodeNo) -> NodeSet
        ensures mask { result ≡ with_node self node }
        ensures members { (n : ℕ) → has result n ≡ (nat_eq n node || has self n) }
    {
        NodeSet {
            word: self.word | bit_of(node),
        }
    }

    /// The set without this node.
    pub fn without(self, node: NodeNo) -> NodeSet
        ensures mask { result ≡ without_node self node }
        ensures members { (n : ℕ) → has result n ≡ (not (nat_eq n node) && has self n) }
    {
        NodeSet {
            word: self.word & !bit_of(node),
        }
    }

    /// The nodes of either set.
    pub fn union(self, other: NodeSet) -> NodeSet
        ensures mask { result ≡ bit_or self other }
        ensures members { (n : ℕ) → has result n ≡ (has self n || has other n) }
    {
        NodeSet {
            word: self.word | other.word,
        }
    }

    /// How many nodes it has.
    #[tactic(auto, using(crate::proofs::Sets::count_none, crate::proofs::Sets::count_more))]
    pub fn count(self) -> u32
        ensures { result ≡ count_in self }
    {
        let mut count = 0;
        for at in 0..64u8 {
            if holds(self.word, at) {
                count += 1;
            }
        }
        count
    }
}
