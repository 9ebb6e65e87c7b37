//! The console: lines that order something, and what is said of it.
ghost use Rattle.std.specs.Prelude.{◌≡◌, ◌≤◌, ◌∷◌, ◌++◌, [], ℕ, List, OnOk};
ghost use Rattle.std.specs.Io.KnownBytes.{Consumes};
ghost use Rattle.io_edge.specs.Causes.{Rose, HasCause};
ghost use Rattle.mail_service.specs.declared.console.Heard.TheVariants as heard;
ghost use Rattle.mail_service.specs.declared.console.ConsoleEnd.TheVariants as ends;
ghost use Rattle.mail_service.specs.Consoles.{IsReadFault, IsWriteFault, HasListened, HasHeard, HasTurned, IsKept, MayEndSaying, TakesOctet, is_stop, whole_line};

use crate::backend::Backend;
use io_edge::{Failed, Sink, Source, write_all};
use std::alloc::{AllocError, Global};
use std::sync::Wait;

/// So many octets has a line at most, without its LF.
const MOST: usize = 65_535;

/// How a line was read.
#[derive(Clone, Copy, Debug, PartialEq, Eq)]
enum Heard {
    /// It is there.
    Line,
    /// It is too long, and was passed over.
    Long,
    /// The console ended before it.
    Ended,
    /// The source failed.
    ReadFault,
    /// Memory ran out.
    NoMemory,
}

/// How the console ended.
#[derive(Clone, Copy, Debug, PartialEq, Eq)]
pub enum ConsoleEnd {
    /// The line `stop` was read.
    Stopped,
    /// The source ended before it, at the line of this number.
    Early { line: u64 },
    /// The source failed.
    ReadFault,
    /// The sink failed.
    WriteFault,
    /// Memory ran out.
    NoMemory,
}

// Reads the next octet; nothing at the end.
fn next_octet<S: Source>(source: &mut S) -> Result<Option<u8>, Failed>
    ensures octet { TakesOctet (S.left source.old) (S.left source.new) result }
    ensures cause { HasCause (S.faults source.old) (S.faults source.new) result }
{
    let mut octet = [0u8; 1];
    match source.read(&mut octet) {
        Ok(0) => Ok(None),
        Ok(_) => Ok(Some(octet[0])),
        Err(_) => Err(Failed),
    }
}

// Keeps an octet of a line whose LF was not read yet, as long as the line is not too long.
fn keep_octet(line: &mut Vec<u8>, long: &mut bool, octet: u8) -> Result<(), AllocError>
    ensures kept { (taken : List ℕ) → IsKept long.old taken line.old.items → OnOk result (IsKept long.new (taken ++ octet ∷ []) line.new.items) }
{
    if *long || line.len() >= MOST {
        *long = true;
        return Ok(());
    }
    line.push(octet)?;
    Ok(())
}

// How a line was read that is whole.
fn whole_line(long: bool) -> Heard
    ensures { result ≡ whole_line long }
{
    if long { Heard::Long } else { Heard::Line }
}

// Reads a line through its LF, without it.
fn read_line<R: Wait, S: Source>(rt: &R, source: &mut S, line: &mut Vec<u8>) -> Heard
    ensures later { S.faults source.old ≤ S.faults source.new }
    ensures fault { result ≡ heard.ReadFault → Rose (S.faults source.old) (S.faults source.new) }
    ensures heard { (taken : List ℕ) × Consumes (S.left source.old) (S.left source.new) taken × HasHeard result (S.left source.new) taken line.new.items }
{
    line.clear();
    let mut long = false;
    for _ in rt.forever() {
        let octet = match next_octet(source) {
            Ok(Some(octet)) => octet,
            Ok(None) => return Heard::Ended,
            Err(_) => return Heard::ReadFault,
        };
        if octet == b'\n' {
            return whole_line(long);
        }
        if keep_octet(line, &mut long, octet).is_err() {
            return Heard::NoMemory;
        }
    }
    unreachable!()
}

// Whether the line ends the console. A CR at its end is not looked at.
fn is_stop(line: &[u8]) -> bool
    ensures { result ≡ is_stop line.now }
{
    line == b"stop".as_slice() || line == b"stop\r".as_slice()
}

// Appends the answer to a line that is too long.
fn refuse_long(alloc: Global, number: u64, out: &mut Vec<u8>) -> Result<(), AllocError> {
    out.extend_from_slice(b"! line ")?;
    out.extend_from_slice(number.to_string(alloc)?.as_bytes())?;
    out.extend_from_slice(b" BadLine\n")
}

// Writes what is to be said of a line, where there was memory for it.
fn say<K: Sink>(sink: &mut K, made: Result<(), AllocError>, out: &[u8]) -> Option<ConsoleEnd>
    ensures later { K.faults sink.old ≤ K.faults sink.new }
    ensures fault { IsWriteFault result → Rose (K.faults sink.old) (K.faults sink.new) }
    ensures end { MayEndSaying result }
{
    match made {
        Ok(()) => match write_all(sink, out) {
            Ok(()) => None,
            Err(_) => Some(ConsoleEnd::WriteFault),
        },
        Err(_) => Some(ConsoleEnd::NoMemory),
    }
}

// One line. Answers nothing where the console goes on.
fn turn<R: Wait, B: Backend, S: Source, K: Sink>(
    rt: &R,
    alloc: Global,
    backend: &B,
    pass: &mut B::Pass,
    number: u64,
    line: &mut Vec<u8>,
    source: &mut S,
    sink: &mut K,
) -> Option<ConsoleEnd>
    requires belongs { B.belongs backend.now pass.old }
    ensures belongs { B.belongs backend.now pass.new }
    ensures quota { B.quota pass.new ≡ B.quota pass.old }
    ensures read_later { S.faults source.old ≤ S.faults source.new }
    ensures write_later { K.faults sink.old ≤ K.faults sink.new }
    ensures read_fault { IsReadFault result → Rose (S.faults source.old) (S.faults source.new) }
    ensures write_fault { IsWriteFault result → Rose (K.faults sink.old) (K.faults sink.new) }
    ensures turned { (taken : List ℕ) × Consumes (S.left source.old) (S.left source.new) taken × HasTurned result (S.left source.new) number taken }
{
    let mut out = Vec::new(alloc);
    match read_line(rt, source, line) {
        Heard::Line => {
            if is_stop(line) {
                return Some(ConsoleEnd::Stopped);
            }
            let made = backend.obey(alloc, pass, line, number, &mut out);
            say(sink, made, &out)
        }
        Heard::Long => {
            let made = refuse_long(alloc, number, &mut out);
            say(sink, made, &out)
        }
        Heard::Ended => Some(ConsoleEnd::Early { line: number }),
        Heard::ReadFault => Some(ConsoleEnd::ReadFault),
        Heard::NoMemory => Some(ConsoleEnd::NoMemory),
    }
}

/// Does what the lines of the console order, and answers each, until the line `stop`. It answers `Stopped` only at that line, and
/// `Early` only where the source has ended and no line before was `stop`, with the number of the line that was not whole, or of the
/// next. Numbers of lines stay at the end of their type. May wait.
pub fn listen<R: Wait, B: Backend, S: Source, K: Sink>(
    rt: &R,
    alloc: Global,
    backend: &B,
    pass: &mut B::Pass,
    source: &mut S,
    sink: &mut K,
) -> ConsoleEnd
    requires belongs { B.belongs backend.now pass.old }
    ensures belongs { B.belongs backend.now pass.new }
    ensures quota { B.quota pass.new ≡ B.quota pass.old }
    ensures read_later { S.faults source.old ≤ S.faults source.new }
    ensures write_later { K.faults sink.old ≤ K.faults sink.new }
    ensures read_fault { result ≡ ends.ReadFault → Rose (S.faults source.old) (S.faults source.new) }
    ensures write_fault { result ≡ ends.WriteFault → Rose (K.faults sink.old) (K.faults sink.new) }
    ensures listened { HasListened (S.left source.old) (S.left source.new) result }
{
    let mut line = Vec::new(alloc);
    let mut number: u64 = 0;
    for _ in rt.forever() {
        number = number.saturating_add(1);
        let came = turn(rt, alloc, backend, pass, number, &mut line, source, sink);
        if let Some(end) = came {
            return end;
        }
    }
    unreachable!()
}
