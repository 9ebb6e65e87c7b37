// A text into the octets that are sent.
ghost use Rattle.std.specs.Prelude.{◌≡◌, ◌++◌, List, ℕ, OnOk, OnErr};
ghost use Rattle.dot_text.specs.Dots.{Dots, next_tail, dotted_octet, ending};

use std::alloc::AllocError;

// What the octets so far end in.
#[derive(Clone, Copy, Debug, PartialEq, Eq)]
enum Tail {
    // CRLF, or there are none.
    LineEnd,
    // CR.
    Cr,
    // Anything else.
    Other,
}

// The same with one octet more.
fn next_tail(tail: Tail, octet: u8) -> Tail
    ensures { result ≡ next_tail tail octet }
{
    match (tail, octet) {
        (Tail::Cr, b'\n') => Tail::LineEnd,
        (_, b'\r') => Tail::Cr,
        (_, _) => Tail::Other,
    }
}

// Appends the octet to `out`, twice where it is a period that leads a line.
fn dot_octet(tail: Tail, octet: u8, out: &mut Vec<u8>) -> Result<(), AllocError>
    ensures ok { OnOk result (out.new.items ≡ out.old.items ++ dotted_octet tail octet) }
    ensures err { OnErr result (out.new.items ≡ out.old.items) }
{
    match (tail, octet) {
        (Tail::LineEnd, b'.') => out.extend_from_slice(b".."),
        (_, _) => out.extend_from_slice(&[octet]),
    }
}

// Appends the end of a text to `out`.
fn end_text(tail: Tail, out: &mut Vec<u8>) -> Result<(), AllocError>
    ensures ok { OnOk result (out.new.items ≡ out.old.items ++ ending tail) }
    ensures err { OnErr result (out.new.items ≡ out.old.items) }
{
    match tail {
        Tail::LineEnd => out.extend_from_slice(b".\r\n"),
        Tail::Cr | Tail::Other => out.extend_from_slice(b"\r\n.\r\n"),
    }
}

// Appends the text to `out` as it is sent.
fn push_dotted(out: &mut Vec<u8>, text: &[u8]) -> Result<(), AllocError>
    ensures ok { OnOk result ((octets : List ℕ) × (out.new.items ≡ out.old.items ++ octets) × Dots text.now octets) }
    ensures err { OnErr result ((octets : List ℕ) × (out.new.items ≡ out.old.items ++ octets)) }
{
    let mut tail = Tail::LineEnd;
    for octet in text {
        dot_octet(tail, *octet, out)?;
        tail = next_tail(tail, *octet);
    }
    end_text(tail, out)
}

/// Appends the text to `out` as it is sent: a period before each line that begins with one, CRLF where
/// the text is not empty and does not end in CRLF, and the line that is one period (RFC 5321, section
/// 4.5.2, and RFC 1939, section 3). A line is what stands before CRLF; a lone CR or LF is an octet of it.
///
/// # Errors
///
/// Out of memory alone; `out` is then as before.
pub fn dot_into(out: &mut Vec<u8>, text: &[u8]) -> Result<(), AllocError>
    ensures ok { OnOk result ((octets : List ℕ) × (out.new.items ≡ out.old.items ++ octets) × Dots text.now octets) }
    ensures err { OnErr result (out.new.items ≡ out.old.items) }
{
    let kept = out.len();
    let done = push_dotted(out, text);
    if done.is_err() {
        out.truncate(kept);
    }
    done
}
