//! dot_text: lines and texts out of octets that come in pieces, and texts into octets.
//!
//! SUMMARY
//!
//! `LineCutter` cuts the octets of a connection into lines: `feed(piece)` takes octets up, `find()` finds
//! the next line, `rest()` has the octets that no line has taken yet, that line first, `take(line)` takes the
//! line away, and `skip(count)` octets of any kind. `Undotter` reads a text that ends with a line that is one
//! period: `feed(piece, out)` appends to `out` what the piece gives, and says whether the text goes on
//! or where it ended. `dot_into(out, text)` writes such a text.
//!
//! DESCRIPTION
//!
//! A line is what stands before CRLF; a lone CR or LF is an octet of it (RFC 5321, section 2.3.8). In a
//! text the line that is one period ends it, and a period that leads a longer line is removed; on the
//! way out it is put there (RFC 5321, section 4.5.2, and RFC 1939, section 3). A text is read with each
//! line's CRLF. Where one is written that is not empty and does not end in CRLF, CRLF is put after it.
//!
//! A session feeds a piece, and takes lines until there is none:
//!
//!     cutter.feed(piece)?;
//!     while let Some(line) = cutter.find() {
//!         match line {
//!             Line::Whole(length) => hear(&cutter.rest()[..length])?,
//!             Line::Long(_) => refuse()?,
//!         }
//!         cutter.take(line);
//!     }
//!
//! A line is taken once it was heard, so one that could not be heard as memory ran out is found again.
//!
//! Where a line asks for a text, it feeds `cutter.rest()` to an undotter, and skips the octets that were
//! used: all of them at `Cut::More`, and `used` of them at `Cut::Ended(used)`.
//!
//! It does not matter how the octets were cut into pieces. The lines are those of the joined octets, those
//! that were skipped left out, and the rest is what follows the last of them. An undotter gives the text
//! up to the line that is one period, and ends just after that line's LF. What `dot_into` writes, with
//! anything after it, is read back as the text. These are the laws in `src/laws.rt`, and the contracts
//! of the calls say that they take steps of what the laws speak of.
//!
//! Feeding is linear in the octets: none is looked at again for each piece, and what is pending is
//! moved only where as many octets were taken off before it. To find or take a line and to skip takes no memory
//! and move nothing.
//!
//! DIAGNOSTICS
//!
//! Out of memory alone, an `AllocError`. The call has then changed nothing that its caller sees, and may
//! be made again. A line that passes the limit of its cutter is found as `Line::Long`, once it is whole. What
//! is held of it before that is let go as it comes.
//!
//! STANDS ON
//!
//! `mail_model`, for what a line with its CRLF is, which lines a text has, and what they give.
//!
//! WHAT IT DOES NOT DO
//!
//! It does not bound what is fed at once: lines that are whole are held until they are taken. It bounds no
//! text and no line of one. It reads and writes no socket.
#![tactic(auto)]

mod cutter;
mod dotting;
mod laws;
mod undotter;

pub use cutter::{Line, LineCutter};
pub use dotting::dot_into;
pub use laws::{
    begun_texts_have_no_end, lines_are_all, lines_are_one, texts_are_one, texts_are_read_back,
    texts_are_sent_in_one_way, worked_as_received, worked_as_sent,
};
pub use undotter::{Cut, Undotter};
