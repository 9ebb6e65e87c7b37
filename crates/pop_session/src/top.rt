// What TOP shows of a message (RFC 1939, section 7).
ghost use Rattle.std.specs.Prelude.{◌≡◌, ◌≤◌, take, drop, length};
ghost use Rattle.mail_model.specs.PopReplies.{header_of, first_lines, top_of};
ghost use Rattle.pop_session.specs.Messages.{begins_crlf};

// Whether a CRLF stands at this place.
fn is_crlf_at(octets: &[u8], at: usize) -> bool
    ensures { result ≡ begins_crlf (drop at octets.now) }
{
    match octets.get(at..) {
        Some([b'\r', b'\n', ..]) => true,
        _ => false,
    }
}

// How many octets the header has, with the empty line that ends it; all where none does.
fn header_len(octets: &[u8]) -> usize
    ensures header { take result octets.now ≡ header_of octets.now }
    ensures within { result ≤ length octets.now }
{
    let mut at = 0;
    let mut begins = true;
    while at < octets.len() {
        if !is_crlf_at(octets, at) {
            begins = false;
            at += 1;
        } else if begins {
            return at + 2;
        } else {
            begins = true;
            at += 2;
        }
    }
    at
}

// How many octets so many lines have, each with its CRLF; all where there are no more.
fn lines_len(octets: &[u8], lines: u32) -> usize
    ensures lines { take result octets.now ≡ first_lines lines octets.now }
    ensures within { result ≤ length octets.now }
{
    let mut at = 0;
    let mut left = lines;
    while left > 0 && at < octets.len() {
        if is_crlf_at(octets, at) {
            left -= 1;
            at += 2;
        } else {
            at += 1;
        }
    }
    at
}

/// The header of a message, and so many lines after the empty one that ends it.
#[tactic(auto, using(crate::proofs::Tops::top_is))]
pub(crate) fn top(octets: &[u8], lines: u32) -> &[u8]
    ensures { result.now ≡ top_of lines octets.now }
{
    let header = header_len(octets);
    let (_header, behind) = octets.split_at(header);
    &octets[..header + lines_len(behind, lines)]
}
