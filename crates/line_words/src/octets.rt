// Octets of a line: blanks, verbs and where they end.
ghost use Rattle.std.specs.Prelude.{◌≡◌, nat_eq};
ghost use Rattle.std.specs.List.{list_all, zip, prefix_len, position_or_len};
ghost use Rattle.std.specs.Char.{to_ascii_uppercase};
ghost use Rattle.mail_model.specs.Smtp.{is_blank, trimmed, verb_of, rest_of, is_word, unspaced};

fn is_blank(x: u8) -> bool
    ensures { result ≡ is_blank x }
{
    x == b' ' || x == b'\t'
}

/// The line without the spaces and tabs at its end.
pub fn trimmed(line: &[u8]) -> &[u8]
    ensures { result.now ≡ trimmed line.now }
{
    let mut end = line.len();
    while end > 0 && is_blank(line[end - 1]) {
        end -= 1;
    }
    &line[..end]
}

/// How many octets stand before the first of this kind; all where there is none.
#[tactic(auto, using(crate::proofs::Fronts::octet_counts))]
pub fn len_before(stop: u8, octets: &[u8]) -> usize
    ensures { result ≡ position_or_len (λ x. nat_eq x stop) octets.now }
{
    octets.iter().take_while(|x| **x != stop).count()
}

/// The octets up to the first space, and what follows them.
#[tactic(auto, using(crate::proofs::Fronts::octet_counts))]
pub fn split_verb(line: &[u8]) -> (&[u8], &[u8])
    ensures verb { result.0.now ≡ verb_of line.now }
    ensures rest { result.1.now ≡ rest_of line.now }
{
    line.split_at(len_before(b' ', line))
}

fn same_letters(octets: &[u8], word: &[u8]) -> bool
    ensures { result ≡ list_all (λ pair. nat_eq (to_ascii_uppercase pair.0) pair.1) (zip octets.now word.now) }
{
    octets
        .iter()
        .zip(word.iter())
        .all(|(x, wanted)| x.to_ascii_uppercase() == *wanted)
}

/// Whether the octets are the word, which is in upper case, in any case.
#[tactic(auto, using(crate::proofs::Fronts::same_word))]
pub fn is_word(octets: &[u8], word: &[u8]) -> bool
    ensures { result ≡ is_word octets.now word.now }
{
    octets.len() == word.len() && same_letters(octets, word)
}

#[tactic(auto, using(crate::proofs::Fronts::octet_counts))]
fn space_count(octets: &[u8]) -> usize
    ensures { result ≡ prefix_len (λ x. nat_eq x 32) octets.now }
{
    octets.iter().take_while(|x| **x == b' ').count()
}

/// The octets without the spaces at their beginning.
#[tactic(auto, using(crate::proofs::Fronts::octet_counts))]
pub fn unspaced(octets: &[u8]) -> &[u8]
    ensures { result.now ≡ unspaced octets.now }
{
    let (_spaces, others) = octets.split_at(space_count(octets));
    others
}
