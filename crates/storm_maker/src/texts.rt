// The lines of a storm's tape, as text.
ghost use Rattle.std.specs.Prelude.{◌≡◌, ◌++◌, ◌∷◌, [], OnOk, IfOk, codes};
ghost use Rattle.std.specs.Fmt.{decimal};
ghost use Rattle.storm_maker.specs.Tape.{text_of, at, say, lines_of, start_lines, end_lines};
ghost use Rattle.storm_maker.specs.declared.storm.Happening.TheVariants as happening;

use crate::storm::Happening;
use std::alloc::{AllocError, Global};

fn add_line(out: &mut Vec<u8>, line: &[u8]) -> Result<(), AllocError>
    ensures { OnOk result (out.new.items ≡ out.old.items ++ text_of (line.now ∷ [])) }
{
    out.extend_from_slice(line)?;
    out.push(b'\n')?;
    Ok(())
}

// The line of this word that names a node.
fn add_at(alloc: Global, out: &mut Vec<u8>, word: &str, node: u32) -> Result<(), AllocError>
    ensures { OnOk result (out.new.items ≡ out.old.items ++ text_of (at word.now node ∷ [])) }
{
    let line = format!(in alloc; "{word} {node}")?;
    add_line(out, line.as_bytes())
}

// The line that feeds this text to the session.
fn add_say(alloc: Global, out: &mut Vec<u8>, session: u64, text: &str) -> Result<(), AllocError>
    ensures { OnOk result (out.new.items ≡ out.old.items ++ text_of (say session text.now ∷ [])) }
{
    let line = format!(in alloc; "say {session} {text}")?;
    add_line(out, line.as_bytes())
}

// The line that feeds a text and then a number to the session.
fn add_numbered(
    alloc: Global,
    out: &mut Vec<u8>,
    session: u64,
    text: &str,
    number: u32,
) -> Result<(), AllocError>
    ensures { OnOk result (out.new.items ≡ out.old.items ++ text_of (say session (text.now ++ decimal number) ∷ [])) }
{
    let text = format!(in alloc; "{text}{number}")?;
    add_say(alloc, out, session, text.as_str())
}

// The line that names the recipient.
fn add_recipient(
    alloc: Global,
    out: &mut Vec<u8>,
    session: u64,
    user: u32,
) -> Result<(), AllocError>
    ensures { OnOk result (out.new.items ≡ out.old.items ++ text_of (say session (codes "RCPT TO:<u" ++ decimal user ++ codes ">") ∷ [])) }
{
    let text = format!(in alloc; "RCPT TO:<u{user}>")?;
    add_say(alloc, out, session, text.as_str())
}

fn add_message(
    alloc: Global,
    out: &mut Vec<u8>,
    session: u64,
    node: u32,
    user: u32,
    number: u32,
) -> Result<(), AllocError>
    ensures { OnOk result (out.new.items ≡ out.old.items ++ text_of (lines_of session (happening.Message node user number))) }
{
    add_at(alloc, out, "open smtp", node)?;
    add_say(alloc, out, session, "HELO storm")?;
    add_say(alloc, out, session, "MAIL FROM:<>")?;
    add_recipient(alloc, out, session, user)?;
    add_say(alloc, out, session, "DATA")?;
    add_numbered(alloc, out, session, "", number)?;
    add_say(alloc, out, session, ".")?;
    add_line(out, b"flow")?;
    add_say(alloc, out, session, "QUIT")?;
    Ok(())
}

fn add_reading(
    alloc: Global,
    out: &mut Vec<u8>,
    session: u64,
    node: u32,
    user: u32,
) -> Result<(), AllocError>
    ensures { OnOk result (out.new.items ≡ out.old.items ++ text_of (lines_of session (happening.Reading node user))) }
{
    add_at(alloc, out, "open pop", node)?;
    add_numbered(alloc, out, session, "USER u", user)?;
    add_numbered(alloc, out, session, "PASS s", user)?;
    add_line(out, b"flow")?;
    add_say(alloc, out, session, "DELE 1")?;
    add_say(alloc, out, session, "QUIT")?;
    add_line(out, b"flow")?;
    Ok(())
}

fn add_start(alloc: Global, out: &mut Vec<u8>, node: u32) -> Result<(), AllocError>
    ensures { OnOk result (out.new.items ≡ out.old.items ++ text_of (at (codes "start") node ∷ at (codes "regroup") node ∷ [])) }
{
    add_at(alloc, out, "start", node)?;
    add_at(alloc, out, "regroup", node)
}

fn add_pushing(alloc: Global, out: &mut Vec<u8>, node: u32) -> Result<(), AllocError>
    ensures { OnOk result (out.new.items ≡ out.old.items ++ text_of (at (codes "push") node ∷ at (codes "report") node ∷ codes "flow" ∷ [])) }
{
    add_at(alloc, out, "push", node)?;
    add_at(alloc, out, "report", node)?;
    add_line(out, b"flow")
}

/// Appends the lines of what happens in a round, where this is the number of the next session.
pub(crate) fn add_round(
    alloc: Global,
    out: &mut Vec<u8>,
    session: u64,
    happening: Happening,
) -> Result<(), AllocError>
    ensures { OnOk result (out.new.items ≡ out.old.items ++ text_of (lines_of session happening)) }
{
    match happening {
        Happening::Message { node, user, number } => add_message(
            alloc, out, session, node, user, number,
        ),
        Happening::Crash { node } => add_at(alloc, out, "crash", node),
        Happening::Start { node } => add_start(alloc, out, node),
        Happening::Reading { node, user } => add_reading(alloc, out, session, node, user),
        Happening::Pushing { node } => add_pushing(alloc, out, node),
        Happening::Settling => add_line(out, b"settle"),
    }
}

// The line that starts the node that is down, where one is.
fn add_down(alloc: Global, out: &mut Vec<u8>, down: Option<u32>) -> Result<(), AllocError>
    ensures { OnOk result (out.new.items ≡ out.old.items ++ text_of (start_lines down)) }
{
    match down {
        Some(node) => add_at(alloc, out, "start", node),
        None => Ok(()),
    }
}

/// The end of the tape, where this node is down.
pub(crate) fn end_text(alloc: Global, down: Option<u32>) -> Result<Vec<u8>, AllocError>
    ensures { IfOk result (λ text. text.items ≡ text_of (end_lines down)) }
{
    let mut text = Vec::new(alloc);
    add_down(alloc, &mut text, down)?;
    text.extend_from_slice(b"regroup 1\nsettle\nsum\nend\n")?;
    Ok(text)
}
