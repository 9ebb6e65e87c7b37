//! How a node of the world is.
ghost use Rattle.std.specs.Prelude.{◌≡◌};
ghost use Rattle.cluster_world.specs.Lives.{life_seen, is_up_life, is_lost_life, boot_in_life};

use whole_node::WholeNode;

/// How a node is, with all that it has in memory where it is up.
#[derive(Drop)]
pub enum Life {
    /// It is up.
    Up(WholeNode),
    /// It is down. Its disk stays.
    Down,
    /// It has lost its disk for good, and never returns.
    Lost,
}

impl Life {
    /// Whether it is up.
    pub(crate) fn is_up(&self) -> bool
        ensures { result ≡ is_up_life (life_seen self.now) }
    {
        match self {
            Life::Up(_) => true,
            Life::Down | Life::Lost => false,
        }
    }

    /// Whether it is lost for good.
    pub(crate) fn is_lost(&self) -> bool
        ensures { result ≡ is_lost_life (life_seen self.now) }
    {
        match self {
            Life::Lost => true,
            Life::Up(_) | Life::Down => false,
        }
    }

    /// The boot of a node that is up.
    pub(crate) fn boot(&self) -> Option<u32>
        ensures { result ≡ boot_in_life (life_seen self.now) }
    {
        match self {
            Life::Up(node) => Some(node.mail().boot()),
            Life::Down | Life::Lost => None,
        }
    }
}
