// Words of a line, which one space parts.
ghost use Rattle.std.specs.Prelude.{◌≡◌, ◌≤◌, nat_eq, length};
ghost use Rattle.std.specs.List.{position_or_len};
ghost use Rattle.mail_model.specs.Tape.{first_word, behind_word, has_space};

use crate::len_before;

// Where the first space stands, or the length.
#[tactic(auto, using(crate::proofs::Fronts::octet_counts))]
fn word_len(octets: &[u8]) -> usize
    ensures len { result ≡ position_or_len (λ x. nat_eq x 32) octets.now }
    ensures within { result ≤ length octets.now }
{
    len_before(b' ', octets)
}

/// The octets before the first space; all where there is none.
pub fn first_word(octets: &[u8]) -> &[u8]
    ensures { result.now ≡ first_word octets.now }
{
    &octets[..word_len(octets)]
}

/// The octets after the first space; none where there is none.
pub fn behind_word(octets: &[u8]) -> &[u8]
    ensures { result.now ≡ behind_word octets.now }
{
    let len = word_len(octets);
    if len < octets.len() {
        &octets[len + 1..]
    } else {
        &octets[len..]
    }
}

/// Whether a space stands in the octets.
pub fn has_space(octets: &[u8]) -> bool
    ensures { result ≡ has_space octets.now }
{
    octets.iter().any(|x| *x == b' ')
}
