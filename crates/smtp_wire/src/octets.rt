// The beginning of a path, and the parts of a parameter.
ghost use Rattle.std.specs.Prelude.{◌≡◌, ◌≤◌, nat_eq, length, take, drop};
ghost use Rattle.std.specs.List.{list_all, position_or_len};
ghost use Rattle.mail_model.specs.Names.{begins_with};
ghost use Rattle.mail_model.specs.Smtp.{is_visible, keyword_of, value_of};

use line_words::len_before;

/// Whether the octet is one of those that words are made of.
pub fn is_visible(x: u8) -> bool
    ensures { result ≡ is_visible x }
{
    0x21 <= x && x <= 0x7E
}

/// Whether all octets are.
pub fn all_visible(octets: &[u8]) -> bool
    ensures { result ≡ list_all is_visible octets.now }
{
    octets.iter().all(|x| is_visible(*x))
}

/// Whether the first octet is this one.
pub fn begins_with(wanted: u8, octets: &[u8]) -> bool
    ensures { result ≡ begins_with wanted octets.now }
{
    match octets.first() {
        Some(first) => *first == wanted,
        None => false,
    }
}

/// The first octets, as many as are wanted where there are so many, and the others.
pub fn split_front(octets: &[u8], wanted: usize) -> (&[u8], &[u8])
    ensures front { result.0.now ≡ take wanted octets.now }
    ensures others { result.1.now ≡ drop wanted octets.now }
{
    octets.split_at(octets.len().min(wanted))
}

// Where the first `=` stands, or the length.
#[tactic(auto, using(line_words::proofs::Fronts::octet_counts))]
fn keyword_len(word: &[u8]) -> usize
    ensures len { result ≡ position_or_len (λ x. nat_eq x 61) word.now }
    ensures within { result ≤ length word.now }
{
    len_before(b'=', word)
}

/// What stands before the first `=` of a parameter; all where there is none.
pub fn keyword_of(word: &[u8]) -> &[u8]
    ensures { result.now ≡ keyword_of word.now }
{
    &word[..keyword_len(word)]
}

/// What stands after it; nothing where there is none.
pub fn value_of(word: &[u8]) -> &[u8]
    ensures { result.now ≡ value_of word.now }
{
    let len = keyword_len(word);
    if len < word.len() {
        &word[len + 1..]
    } else {
        &word[len..]
    }
}
