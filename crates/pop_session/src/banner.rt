// What tells one session from each other.
ghost use Rattle.std.specs.Prelude.{◌≡◌, IfOk};
ghost use Rattle.pop_session.specs.Banners.{banner_seen};

use crate::text::{with_number, with_text};
use mail_base::NodeNo;
use std::alloc::{AllocError, Global};

/// What the banner of a session names.
#[derive(Debug, Drop)]
pub(crate) struct Banner {
    /// The node of the session.
    pub(crate) node: NodeNo,
    /// The boot of the node.
    pub(crate) boot: u32,
    /// The number of the session.
    pub(crate) number: u64,
    /// The seconds at its opening.
    pub(crate) seconds: u64,
}

impl Banner {
    /// Its octets, from `<` to `>` (RFC 1939, section 7).
    ///
    /// # Errors
    ///
    /// Out of memory alone.
    pub(crate) fn text(&self, alloc: Global) -> Result<Vec<u8>, AllocError>
        ensures { IfOk result (λ text. text.items ≡ banner_seen self.now) }
    {
        let line = with_number(b"<".to_vec(alloc)?, alloc, u128::from(self.boot))?;
        let line = with_number(with_text(line, b".")?, alloc, u128::from(self.number))?;
        let line = with_number(with_text(line, b".")?, alloc, u128::from(self.seconds))?;
        let at = u128::from(self.node.number());
        let line = with_number(with_text(line, b"@node")?, alloc, at)?;
        with_text(line, b">")
    }
}
