// The number of a node.
ghost use Rattle.std.specs.Prelude.{◌≡◌, ◌&&◌, ◌<◌, ◌≤◌, nat_le, Some, None, if◌then◌else◌};

use std::marker::Model;

/// The number of a node, from 1 to 16. A contract sees the number.
#[derive(Clone, Copy, Debug, PartialEq, Eq, PartialOrd, Ord)]
pub struct NodeNo {
    count: u8,
}

impl Model for NodeNo {
    ghost use Rattle.std.specs.Prelude.{ℕ, ◌≤◌};

    ghost Value = { ℕ };

    ghost view = { λ n. n.count };

    ghost inverse = { λ n. record { count = n } };

    ghost invariant = { λ n. (1 ≤ n.count) × (n.count ≤ 16) };
}

impl NodeNo {
    /// The node of this number; nothing at 0 and above 16.
    pub fn new(number: u8) -> Option<NodeNo>
        ensures { result ≡ (if nat_le 1 number && nat_le number 16 then Some number else None) }
    {
        if number == 0 || number > 16 {
            return None;
        }
        Some(NodeNo { count: number })
    }

    /// Its number, from 1 to 16.
    pub fn number(self) -> u8
        ensures number { result ≡ self }
        ensures low { 1 ≤ result }
        ensures high { result ≤ 16 }
    {
        self.count
    }
}
