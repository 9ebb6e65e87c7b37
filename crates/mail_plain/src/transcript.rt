// What the sessions of a transcript got.
ghost use Rattle.std.specs.Prelude.{◌≡◌, ◌∷◌, ◌++◌, List, slice_index, IfOk};
ghost use Rattle.std.specs.Option.{option_copied};
ghost use Rattle.mail_model.specs.Transcript as transcript;
ghost use Rattle.mail_model.specs.Transcript.{ends_reply, got, has_code};
ghost use Rattle.mail_model.specs.Shown.{lines_to};
ghost use Rattle.mail_model.specs.Plain.{lists_of};
ghost use Rattle.mail_plain.specs.SeenRecords.{listed};
ghost use Rattle.mail_plain.specs.SeenEntries.{entries_seen, entry_seen};

use std::alloc::{AllocError, Global};

/// One line of a transcript.
#[derive(Clone, Copy, Debug)]
pub enum Entry<'a> {
    /// A line of a reply of a session.
    Said { session: u64, text: &'a [u8] },
    /// What happened in the cluster.
    Event { text: &'a [u8] },
    /// Why the program ended.
    Refused { text: &'a [u8] },
}

fn octet_at(text: &[u8], at: usize) -> u8
    ensures { result ≡ slice_index text.now at }
{
    match text.get(at) {
        Some(x) => *x,
        None => 0,
    }
}

/// Whether the reply begins with this code of three digits.
pub(crate) fn has_code(code: &[u8], text: &[u8]) -> bool
    ensures { result ≡ has_code code.now text.now }
{
    let digits = [octet_at(text, 0), octet_at(text, 1), octet_at(text, 2)];
    digits.as_slice() == code
}

// The last line of a reply has no `-` after its code.
fn ends_reply(text: &[u8]) -> bool
    ensures { result ≡ ends_reply text.now }
{
    octet_at(text, 3) != b'-'
}

fn line_to<'a>(wanted: u64, entry: &Entry<'a>) -> Option<&'a [u8]>
    ensures { (more : List transcript.Entry) → lines_to wanted (entry_seen entry.now ∷ more) ≡ listed (option_copied result) ++ lines_to wanted more }
{
    match entry {
        Entry::Said { session, text } if *session == wanted => Some(text),
        Entry::Said { .. } | Entry::Event { .. } | Entry::Refused { .. } => None,
    }
}

/// All lines that the session got.
///
/// # Errors
///
/// Out of memory alone.
pub fn lines_to(
    alloc: Global,
    session: u64,
    entries: &[Entry<'_>],
) -> Result<Vec<Vec<u8>>, AllocError>
    ensures { IfOk result (λ lines. lists_of lines.items ≡ lines_to session (entries_seen entries.now)) }
{
    let mut lines = Vec::new(alloc);
    for entry in entries {
        if let Some(line) = line_to(session, entry) {
            lines.push(Vec::from_slice(alloc, line)?)?;
        }
    }
    Ok(lines)
}

fn answer_to<'a>(wanted: u64, entry: &Entry<'a>) -> Option<&'a [u8]>
    ensures { (more : List transcript.Entry) → got wanted (entry_seen entry.now ∷ more) ≡ listed (option_copied result) ++ got wanted more }
{
    match entry {
        Entry::Said { session, text }
            if *session == wanted && ends_reply(text) && !has_code(b"421", text) => Some(text),
        Entry::Said { .. } | Entry::Event { .. } | Entry::Refused { .. } => None,
    }
}

/// The last lines of the replies that the session got, but not 421, which answers no unit.
///
/// # Errors
///
/// Out of memory alone.
pub fn answers_to(
    alloc: Global,
    session: u64,
    entries: &[Entry<'_>],
) -> Result<Vec<Vec<u8>>, AllocError>
    ensures { IfOk result (λ lines. lists_of lines.items ≡ got session (entries_seen entries.now)) }
{
    let mut lines = Vec::new(alloc);
    for entry in entries {
        if let Some(line) = answer_to(session, entry) {
            lines.push(Vec::from_slice(alloc, line)?)?;
        }
    }
    Ok(lines)
}
