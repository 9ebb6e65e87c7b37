// Lines of the transcript.
ghost use Rattle.std.specs.Prelude.{◌≡◌, ◌++◌, ◌∷◌, ◌≤◌, ◌<◌, [], IfOk, OnOk, IsErrOf};
ghost use Rattle.io_edge.specs.Causes.{Rose};
ghost use Rattle.mail_model.specs.Lines.{ended};
ghost use Rattle.mail_model.specs.Transcript as transcript;
ghost use Rattle.mail_model.specs.Transcript.{entry_line, escaped, escaped_octet, hex_digit};
ghost use Rattle.drive_tape.specs.Entries.{transcript_entry, transcript_entries, WritesEntries};

use io_edge::{Failed, Sink, write_all};
use mail_base::Octets;
use std::alloc::{AllocError, Global};

/// One line that a tape makes the program write.
#[derive(Debug, Drop)]
pub enum Entry {
    /// A line of a reply of this session, without its CRLF: `k TEXT`, with octets that are not printable as `\xHH`.
    Said { session: u64, text: Octets },
    /// What happened in the cluster: `* TEXT`, the text as it is.
    Event { text: Octets },
    /// Why the program ended: `! TEXT`, the text as it is.
    Refused { text: Octets },
}

/// Why lines were not written.
#[derive(Clone, Copy, Debug, PartialEq, Eq)]
pub enum WriteStop {
    /// The sink failed. The line that it failed at was written in part at most.
    WriteFault,
    /// Memory ran out between two lines.
    NoMemory,
}

impl From<Failed> for WriteStop {
    ghost use Rattle.std.specs.Prelude.{◌≡◌};
    ghost use Rattle.drive_tape.specs.declared.entry.WriteStop.TheVariants.{WriteFault};

    ghost from_gives = { λ _ e. e ≡ WriteFault };

    fn from(_: Failed) -> WriteStop {
        WriteStop::WriteFault
    }
}

impl From<AllocError> for WriteStop {
    ghost use Rattle.std.specs.Prelude.{◌≡◌};
    ghost use Rattle.drive_tape.specs.declared.entry.WriteStop.TheVariants.{NoMemory};

    ghost from_gives = { λ _ e. e ≡ NoMemory };

    fn from(_: AllocError) -> WriteStop {
        WriteStop::NoMemory
    }
}

// An upper-case hexadecimal digit.
fn hex_digit(n: u8) -> u8
    requires { n < 16 }
    ensures { result ≡ hex_digit n }
{
    if n < 10 { b'0' + n } else { b'7' + n }
}

// Appends one octet as the transcript shows it.
fn escape_octet(out: &mut Vec<u8>, octet: u8) -> Result<(), AllocError>
    ensures { OnOk result (out.new.items ≡ out.old.items ++ escaped_octet octet) }
{
    if 0x20 <= octet && octet <= 0x7e && octet != b'\\' {
        out.push(octet)?;
    } else {
        out.extend_from_slice(&[b'\\', b'x', hex_digit(octet / 16), hex_digit(octet % 16)])?;
    }
    Ok(())
}

// Appends the octets as the transcript shows them.
fn escape(out: &mut Vec<u8>, text: &[u8]) -> Result<(), AllocError>
    ensures { OnOk result (out.new.items ≡ out.old.items ++ escaped text.now) }
{
    for octet in text {
        escape_octet(out, *octet)?;
    }
    Ok(())
}

// The line of a reply of the session.
pub(crate) fn said_line(alloc: Global, session: u64, text: &[u8]) -> Result<Vec<u8>, AllocError>
    ensures { IfOk result (λ line. line.items ≡ ended (entry_line (transcript.Entry.Said session text.now))) }
{
    let number = session.to_string(alloc)?;
    let mut line = Vec::from_slice(alloc, number.as_bytes())?;
    line.push(b' ')?;
    escape(&mut line, text)?;
    line.push(b'\n')?;
    Ok(line)
}

// The line of an event or of the end, by its mark.
fn marked_line(alloc: Global, mark: u8, text: &[u8]) -> Result<Vec<u8>, AllocError>
    ensures { IfOk result (λ line. line.items ≡ mark ∷ 32 ∷ text.now ++ 10 ∷ []) }
{
    let mut line = Vec::from_slice(alloc, &[mark, b' '])?;
    line.extend_from_slice(text)?;
    line.push(b'\n')?;
    Ok(line)
}

impl Entry {
    /// The line of the entry in a transcript, with its LF.
    ///
    /// # Errors
    ///
    /// Out of memory alone.
    pub fn line(&self, alloc: Global) -> Result<Vec<u8>, AllocError>
        ensures { IfOk result (λ line. line.items ≡ ended (entry_line (transcript_entry self.now))) }
    {
        match self {
            Entry::Said { session, text } => Ok(said_line(alloc, *session, text.as_slice())?),
            Entry::Event { text } => Ok(marked_line(alloc, b'*', text.as_slice())?),
            Entry::Refused { text } => Ok(marked_line(alloc, b'!', text.as_slice())?),
        }
    }
}

/// Writes the lines of the entries, one after the other, each in as many writes as the sink needs.
///
/// # Errors
///
/// `WriteFault` where the sink failed, and `NoMemory`. Then the lines of the entries before it were written, and of the
/// next at most a part.
pub fn write_entries<K: Sink>(
    alloc: Global,
    sink: &mut K,
    entries: &[Entry],
) -> Result<(), WriteStop>
    ensures written { WritesEntries (K.contents sink.old) (K.contents sink.new) result (transcript_entries entries.now) }
    ensures later { K.faults sink.old ≤ K.faults sink.new }
    ensures failed { IsErrOf result WriteStop.WriteFault → Rose (K.faults sink.old) (K.faults sink.new) }
{
    for entry in entries {
        let line = entry.line(alloc)?;
        write_all(sink, &line)?;
    }
    Ok(())
}
