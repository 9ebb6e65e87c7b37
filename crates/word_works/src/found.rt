// What the look at a plan file found.
ghost use Rattle.std.specs.Prelude.{◌≡◌, IfOk, string_bytes};
ghost use Rattle.word_works.specs.Checks.{line_of, status_of, IsFoundIn};

use cluster_config::read_plan;
use std::alloc::{AllocError, Global};

/// What the look at a plan file found.
#[derive(Clone, Copy, Debug, PartialEq, Eq)]
pub enum Found {
    /// It keeps all rules.
    Good,
    /// It breaks the rule of this number, and none before it.
    Broken { rule: u8 },
    /// It could not be read.
    Unread,
    /// Memory ran out.
    NoMemory,
}

impl Found {
    /// What the octets of a plan file are found to be.
    pub(crate) fn of(alloc: Global, octets: &[u8]) -> Found
        ensures { IsFoundIn octets.now result }
    {
        match read_plan(alloc, octets) {
            Ok(_) => Found::Good,
            Err(fault) => match fault.rule() {
                Some(rule) => Found::Broken { rule },
                None => Found::NoMemory,
            },
        }
    }

    /// The exit status.
    pub(crate) fn status(self) -> u8
        ensures { result ≡ status_of self }
    {
        match self {
            Found::Good => 0,
            Found::Broken { .. } => 2,
            Found::Unread => 4,
            Found::NoMemory => 7,
        }
    }

    /// The line that is written, with its LF; nothing where memory ran out.
    pub(crate) fn line(self, alloc: Global) -> Result<String, AllocError>
        ensures { IfOk result (λ line. string_bytes line ≡ line_of self) }
    {
        match self {
            Found::Good => String::from_str(alloc, "ok\n"),
            Found::Broken { rule } => format!(in alloc; "! plan {rule}\n"),
            Found::Unread => String::from_str(alloc, "! read\n"),
            Found::NoMemory => Ok(String::new(alloc)),
        }
    }
}
