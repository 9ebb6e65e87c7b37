// What a reader of replies holds.
use crate::reply_line::ReplyLine;
use dot_text::LineCutter;

/// Reads replies out of octets that come in pieces (RFC 1939, section 3). Of a line that is too long for a
/// reply no more is held than a CR.
#[derive(Debug, Drop)]
pub struct ReplyReader {
    pub(crate) cutter: LineCutter,
    // whether a good reply that begins has several lines
    pub(crate) several: bool,
    // whether the first line of such a reply was taken, and its end was not
    pub(crate) begun: bool,
    // of that reply
    pub(crate) text: ReplyLine,
    pub(crate) lines: Vec<ReplyLine>,
}

// What the first line of a reply says.
#[derive(Debug, Drop)]
pub(crate) struct First {
    pub(crate) good: bool,
    pub(crate) text: ReplyLine,
}

// What a further line says.
#[derive(Debug, Drop)]
pub(crate) enum Heard {
    Ends,
    Says(ReplyLine),
}
