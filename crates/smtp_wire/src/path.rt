// Paths of MAIL and RCPT (RFC 5321, section 4.1.2).
ghost use Rattle.std.specs.Prelude.{◌≡◌, ◌<◌, ◌≤◌, length, IfSome};
ghost use Rattle.std.specs.List.{prefix_len};
ghost use Rattle.std.specs.Option.{option_copied};
ghost use Rattle.mail_model.specs.Smtp.{is_path_octet, routed, path_content, behind_path, behind_keyword, sender_in, recipient_in};

use crate::octets::{begins_with, split_front};
use line_words::{is_word, len_before, unspaced};

// the most octets of a path without its source route
const PATH_LIMIT: usize = 512;

fn is_path_octet(x: u8) -> bool
    ensures { result ≡ is_path_octet x }
{
    0x20 <= x && x <= 0x7E && x != b'<' && x != b'>'
}

#[tactic(auto, using(line_words::proofs::Fronts::octet_counts))]
fn path_octet_count(octets: &[u8]) -> usize
    ensures { result ≡ prefix_len is_path_octet octets.now }
{
    octets.iter().take_while(|x| is_path_octet(**x)).count()
}

/// The octets without a source route; `None` where one has no end.
#[tactic(auto, using(crate::proofs::Routes::route_found, crate::proofs::Routes::no_route))]
fn routed(content: &[u8]) -> Option<&[u8]>
    ensures { option_copied result ≡ routed content.now }
{
    if !begins_with(b'@', content) {
        return Some(content);
    }
    let colon = len_before(b':', content);
    if colon < content.len() {
        Some(split_front(content, colon + 1).1)
    } else {
        None
    }
}

/// What stands between the brackets of the path that the octets begin with.
#[tactic(auto, using(line_words::proofs::Fronts::octet_counts))]
pub fn path_content(octets: &[u8]) -> Option<&[u8]>
    ensures { option_copied result ≡ path_content octets.now }
{
    let (first, behind) = octets.split_first()?;
    let (content, closing) = behind.split_at(path_octet_count(behind));
    if *first == b'<' && begins_with(b'>', closing) {
        Some(content)
    } else {
        None
    }
}

/// What follows that path.
#[tactic(auto, using(line_words::proofs::Fronts::octet_counts))]
pub fn behind_path(octets: &[u8]) -> &[u8]
    ensures { result.now ≡ behind_path octets.now }
{
    match octets.split_first() {
        Some((_, behind)) => {
            let (_content, closing) = behind.split_at(path_octet_count(behind));
            split_front(closing, 1).1
        }
        None => octets,
    }
}

/// What follows the keyword, which is in upper case, and the spaces after it.
pub fn behind_keyword<'a>(keyword: &[u8], rest: &'a [u8]) -> Option<&'a [u8]>
    ensures { option_copied result ≡ behind_keyword keyword.now rest.now }
{
    let (word, behind) = split_front(unspaced(rest), keyword.len());
    if begins_with(b' ', rest) && is_word(word, keyword) {
        Some(unspaced(behind))
    } else {
        None
    }
}

/// The sender that the content of a path means; it is empty only where the content is.
pub fn sender_in(content: &[u8]) -> Option<&[u8]>
    ensures sender { option_copied result ≡ sender_in content.now }
    ensures short { IfSome result (λ sender. length sender.now ≤ 512) }
{
    let value = routed(content)?;
    if value.len() <= PATH_LIMIT && (!value.is_empty() || content.is_empty()) {
        Some(value)
    } else {
        None
    }
}

/// The recipient that the content of a path means, which is not empty.
pub fn recipient_in(content: &[u8]) -> Option<&[u8]>
    ensures recipient { option_copied result ≡ recipient_in content.now }
    ensures some { IfSome result (λ path. 0 < length path.now) }
    ensures short { IfSome result (λ path. length path.now ≤ 512) }
{
    let value = routed(content)?;
    if value.len() <= PATH_LIMIT && !value.is_empty() {
        Some(value)
    } else {
        None
    }
}
