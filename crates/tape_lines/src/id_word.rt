// The id of a message as a word of a line: its node, boot and number, joined by periods.
ghost use Rattle.std.specs.Prelude.{◌≡◌, ◌≤◌, length, nat_eq};
ghost use Rattle.std.specs.List.{position_or_len};
ghost use Rattle.mail_model.specs.Tape.{before_period, behind_period, id_of_numbers, id_of_word};

use line_words::{len_before, number};
use mail_base::{MsgId, NodeNo};

// Where the first period stands, or the length.
#[tactic(auto, using(crate::proofs::Counts::counts))]
fn len_to_period(octets: &[u8]) -> usize
    ensures len { result ≡ position_or_len (λ x. nat_eq x 46) octets.now }
    ensures within { result ≤ length octets.now }
{
    len_before(b'.', octets)
}

fn before_period(octets: &[u8]) -> &[u8]
    ensures { result.now ≡ before_period octets.now }
{
    &octets[..len_to_period(octets)]
}

fn behind_period(octets: &[u8]) -> &[u8]
    ensures { result.now ≡ behind_period octets.now }
{
    let len = len_to_period(octets);
    if len < octets.len() {
        &octets[len + 1..]
    } else {
        &octets[len..]
    }
}

// The id of these numbers, where each has the range of its type.
fn id_of_numbers(node: u64, boot: u64, seq: u64) -> Option<MsgId>
    ensures { result ≡ id_of_numbers node boot seq }
{
    let node = NodeNo::new(u8::try_from(node).ok()?)?;
    let boot = u32::try_from(boot).ok()?;
    MsgId::new(node, boot, seq)
}

/// The id that the word spells, its parts joined by periods.
pub(crate) fn id_of_word(word: &[u8]) -> Option<MsgId>
    ensures { result ≡ id_of_word word.now }
{
    let node = number(before_period(word))?;
    let rest = behind_period(word);
    let boot = number(before_period(rest))?;
    let seq = number(behind_period(rest))?;
    id_of_numbers(node, boot, seq)
}
