// Numbers of messages (RFC 1939, section 5).
ghost use Rattle.std.specs.Prelude.{◌≡◌};
ghost use Rattle.mail_model.specs.Pop.{short_number_of};

use line_words::number;

// the most digits that a number has
const DIGIT_LIMIT: usize = 10;

/// The number that the word is: 1 to 10 digits, below 2^32.
#[tactic(auto, using(crate::proofs::Shorts::short_is))]
pub fn short_number(word: &[u8]) -> Option<u32>
    ensures { result ≡ short_number_of word.now }
{
    if word.len() > DIGIT_LIMIT {
        return None;
    }
    u32::try_from(number(word)?).ok()
}
