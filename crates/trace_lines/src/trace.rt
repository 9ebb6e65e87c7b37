//! The trace lines of a message: its return path, and the line that says who took it from whom (RFC 5321, section 4.4).
ghost use Rattle.std.specs.Prelude.{◌≡◌, ◌++◌, OnOk, IfOk, take, codes, string_bytes};
ghost use Rattle.httpdate.specs.Date.{date_text};
ghost use Rattle.mail_model.specs.Lines.{sent_line};
ghost use Rattle.mail_model.specs.Mail.{protocol_of};
ghost use Rattle.mail_model.specs.Identity.{id_text};
ghost use Rattle.trace_lines.specs.Trace.{by_line, lines_of, Traced};

use httpdate::HttpDate;
use mail_base::MsgId;
use std::alloc::{AllocError, Global};

/// What the trace lines of a message say.
#[derive(Clone, Copy, Debug)]
pub struct Trace<'a> {
    /// The sender's path, without its brackets.
    pub sender: &'a [u8],
    /// What the client called itself in HELO or EHLO.
    pub helo: &'a [u8],
    /// Whether that was EHLO.
    pub extended: bool,
    /// The message's id.
    pub id: MsgId,
    /// When it was taken, in seconds since 1970.
    pub seconds: u64,
}

/// Why no trace lines were written.
#[derive(Clone, Copy, Debug, PartialEq, Eq)]
pub enum TraceFault {
    /// The date is in the year 10000 or later.
    YearTooLarge,
    /// Out of memory.
    NoMemory,
}

impl From<AllocError> for TraceFault {
    ghost use Rattle.std.specs.Prelude.{◌≡◌};
    ghost use Rattle.trace_lines.specs.declared.trace.TraceFault.TheVariants as fault;

    ghost from_gives = { λ _ e. e ≡ fault.NoMemory };

    fn from(_: AllocError) -> TraceFault {
        TraceFault::NoMemory
    }
}

fn add_return_path(out: &mut Vec<u8>, sender: &[u8]) -> Result<(), AllocError>
    ensures { OnOk result (out.new.items ≡ out.old.items ++ sent_line (codes "Return-Path: <" ++ sender.now ++ codes ">")) }
{
    out.extend_from_slice(b"Return-Path: <")?;
    out.extend_from_slice(sender)?;
    out.extend_from_slice(b">\r\n")?;
    Ok(())
}

fn add_received(out: &mut Vec<u8>, helo: &[u8]) -> Result<(), AllocError>
    ensures { OnOk result (out.new.items ≡ out.old.items ++ sent_line (codes "Received: from " ++ helo.now)) }
{
    out.extend_from_slice(b"Received: from ")?;
    out.extend_from_slice(helo)?;
    out.extend_from_slice(b"\r\n")?;
    Ok(())
}

fn protocol(extended: bool) -> &'static str
    ensures { result.now ≡ protocol_of extended }
{
    if extended { "ESMTP" } else { "SMTP" }
}

fn by_text(alloc: Global, node: u8, protocol: &str, id: &str) -> Result<String, AllocError>
    ensures { IfOk result (λ text. string_bytes text ≡ by_line node protocol.now id.now) }
{
    format!(in alloc; " by node{node} with {protocol} id <{id}@node{node}>;\r\n")
}

fn add_by(alloc: Global, out: &mut Vec<u8>, extended: bool, id: MsgId) -> Result<(), AllocError>
    ensures { OnOk result (out.new.items ≡ out.old.items ++ by_line id.node (protocol_of extended) (id_text id)) }
{
    let text = id.id_text(alloc)?;
    let line = by_text(alloc, id.node().number(), protocol(extended), text.as_str())?;
    out.extend_from_slice(line.as_bytes())?;
    Ok(())
}

// The text of a date ends in `GMT`, which mail calls obsolete (RFC 5322, section 4.3).
fn without_zone(text: &[u8; 29]) -> &[u8]
    ensures { result.now ≡ take 26 text.now }
{
    &text[..26]
}

fn add_date(out: &mut Vec<u8>, date: HttpDate) -> Result<(), AllocError>
    ensures { OnOk result (out.new.items ≡ out.old.items ++ sent_line (codes " " ++ (take 26 (date_text date) ++ codes "+0000"))) }
{
    let text = date.to_bytes();
    out.extend_from_slice(b" ")?;
    out.extend_from_slice(without_zone(&text))?;
    out.extend_from_slice(b"+0000\r\n")?;
    Ok(())
}

/// All trace lines, the date's with the others.
fn trace_text(alloc: Global, trace: &Trace<'_>, date: HttpDate) -> Result<Vec<u8>, AllocError>
    ensures { IfOk result (λ text. text.items ≡ lines_of trace.now (take 26 (date_text date) ++ codes "+0000")) }
{
    let mut text = Vec::new(alloc);
    add_return_path(&mut text, trace.sender)?;
    add_received(&mut text, trace.helo)?;
    add_by(alloc, &mut text, trace.extended, trace.id)?;
    add_date(&mut text, date)?;
    Ok(text)
}

/// Puts the trace lines after the octets in `out`. The year 10000 is refused before memory is asked for, and a refusal
/// leaves `out` as it was.
pub fn trace_into(alloc: Global, out: &mut Vec<u8>, trace: &Trace<'_>) -> Result<(), TraceFault>
    ensures { Traced result trace.now out.old.items out.new.items }
{
    let Ok(date) = HttpDate::from_unix_secs(trace.seconds) else {
        return Err(TraceFault::YearTooLarge);
    };
    let text = trace_text(alloc, trace, date)?;
    out.extend_from_slice(&text)?;
    Ok(())
}
