// A message on its way to its mailboxes.
ghost use Rattle.std.specs.Prelude.{◌≤◌, length};

use crate::{Names, Octets};

/// One message for one or more mailboxes, as a session hands it on and a node stores it.
#[derive(Debug, Drop)]
pub struct Deliver {
    /// The mailboxes, each once.
    pub users: Names,
    /// The sender's path, at most 512 octets.
    pub sender: Octets,
    /// The HELO or EHLO argument in force, at most 255 octets.
    pub helo: Octets,
    /// Whether that was EHLO.
    pub extended: bool,
    /// The text without its leading periods, at most 16,777,216 octets, empty or ended by CRLF.
    pub text: Octets,
    ghost sender_is_short: { length sender ≤ 512 },
    ghost helo_is_short: { length helo ≤ 255 },
    ghost text_is_short: { length text ≤ 16777216 },
}
