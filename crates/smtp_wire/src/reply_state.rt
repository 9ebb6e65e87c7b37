// What a reader of replies holds.
ghost use Rattle.std.specs.Prelude.{◌≡◌, true};
ghost use Rattle.smtp_wire.specs.Replies.{is_code};

use crate::reply::ReplyLine;
use dot_text::LineCutter;

/// Reads replies out of octets that come in pieces (RFC 5321, sections 4.2 and 4.2.1). Of a line that is too
/// long for a reply no more is held than a CR.
#[derive(Debug, Drop)]
pub struct ReplyReader {
    pub(crate) cutter: LineCutter,
    // of the lines of the reply that is under way
    pub(crate) code: u16,
    pub(crate) lines: Vec<ReplyLine>,
    ghost known: { is_code code ≡ true },
}

// What one line of a reply says.
#[derive(Debug, Drop)]
pub(crate) struct Part {
    pub(crate) code: u16,
    pub(crate) ends: bool,
    pub(crate) text: ReplyLine,
    ghost known: { is_code code ≡ true },
}
