// How many buckets each node has.
ghost use Rattle.std.specs.Prelude.{◌≡◌, ◌<◌, ◌-◌, ◌^◌, length};
ghost use Rattle.user_map.specs.Plain.{raised, is_less, least};
ghost use Rattle.user_map.specs.Loads.{load_in};

use mail_base::{Member, NodeNo};
use std::marker::Model;

/// For each node the number of its buckets so far.
#[derive(Drop)]
pub(crate) struct Loads {
    of_node: [u64; 17],
}

impl Loads {
    /// No buckets anywhere.
    pub(crate) fn new() -> Loads
        ensures { load_in result.of_node ≡ (λ n. 0) }
    {
        Loads { of_node: [0; 17] }
    }

    fn of(&self, node: NodeNo) -> u64
        ensures { result ≡ load_in self.now.of_node node }
    {
        self.of_node[usize::from(node.number())]
    }

    /// One bucket more for the node.
    pub(crate) fn raise(&mut self, node: NodeNo)
        requires { load_in self.old.of_node node < 2 ^ 64 - 1 }
        ensures { load_in self.new.of_node ≡ raised (load_in self.old.of_node) node }
    {
        self.of_node[usize::from(node.number())] += 1;
    }

    fn is_less(&self, a: NodeNo, b: NodeNo) -> bool
        ensures { result ≡ is_less (load_in self.now.of_node) a b }
    {
        self.of(a) < self.of(b) || (self.of(a) == self.of(b) && a < b)
    }

    /// The member with the fewest buckets, the lowest number among equals.
    pub(crate) fn least(&self, members: &[Member]) -> NodeNo
        requires { 0 < length members.now }
        ensures { result ≡ least (load_in self.now.of_node) members.now }
    {
        let first = &members[0];
        let mut node = first.node;
        for member in members {
            if self.is_less(member.node, node) {
                node = member.node;
            }
        }
        node
    }
}
