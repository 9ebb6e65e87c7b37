// Which rule of a plan file is broken.
ghost use Rattle.std.specs.Prelude.{◌≡◌};
ghost use Rattle.cluster_config.specs.Faults.{rule_of};

use thiserror::Error;

/// Why octets are no plan file: the first rule that they break, in the order in which the rules are tried.
#[derive(Clone, Copy, Debug, Drop, PartialEq, Eq, Error)]
pub enum ConfigFault {
    /// Rule 1: more than 1,048,576 octets, or no TOML document.
    #[error("the file is longer than 1,048,576 octets, or is no TOML document")]
    Document,
    /// Rule 2: a key that a plan file does not have.
    #[error("a key is not known")]
    Key,
    /// Rule 3: `nodes` is no whole number from 1 to 16.
    #[error("`nodes` has to be a whole number from 1 to 16")]
    Nodes,
    /// Rule 4: `copies` or `confirm` is no whole number, or `1 <= confirm <= copies <= nodes` does not hold.
    #[error("`copies` and `confirm` have to be whole numbers with 1 <= confirm <= copies <= nodes")]
    Copies,
    /// Rule 5: `buckets` is no whole number from 1 to 1,024.
    #[error("`buckets` has to be a whole number from 1 to 1024")]
    Buckets,
    /// Rule 6: `shards` is there and is not 1.
    #[error("`shards` has to be 1, or to be left out")]
    Shards,
    /// Rule 7: `users` is no list of at most 4,096 users, or a name or secret is none, or a name comes twice.
    #[error("`users` has to be a list of at most 4096 users, each with a name of its own and a secret")]
    Users,
    /// Rule 8: `postmaster` names no user.
    #[error("`postmaster` has to be the name of a user")]
    Postmaster,
    /// Rule 9: `folder` is no text or an empty one, or a port is none, or the nodes' ports pass 65,535 or meet.
    #[error("`folder` has to be a text that is not empty, and the nodes' ports have to lie within 1 to 65535 and apart")]
    Outside,
    /// Memory ran out.
    #[error("out of memory")]
    NoMemory,
}

impl ConfigFault {
    /// The number of the rule that is broken; nothing where memory ran out.
    pub fn rule(self) -> Option<u8>
        ensures { result ≡ rule_of self }
    {
        match self {
            ConfigFault::Document => Some(1),
            ConfigFault::Key => Some(2),
            ConfigFault::Nodes => Some(3),
            ConfigFault::Copies => Some(4),
            ConfigFault::Buckets => Some(5),
            ConfigFault::Shards => Some(6),
            ConfigFault::Users => Some(7),
            ConfigFault::Postmaster => Some(8),
            ConfigFault::Outside => Some(9),
            ConfigFault::NoMemory => None,
        }
    }
}
