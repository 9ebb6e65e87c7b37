// Parameters of MAIL and RCPT (RFC 5321, section 4.1.2).
ghost use Rattle.std.specs.Prelude.{◌≡◌};
ghost use Rattle.std.specs.Option.{option_map};
ghost use Rattle.mail_model.specs.Smtp.{is_parted, with_body, with_size, with_parameter, with_word, mail_parameters, rcpt_fault, unknown_parameter};
ghost use Rattle.smtp_wire.specs.Seen.{fault_seen, given_seen, given_result};

use crate::command::SmtpFault;
use crate::octets::{all_visible, begins_with, keyword_of, split_front, value_of};
use line_words::{is_word, long_number, split_verb, unspaced};

/// What the parameters of MAIL said so far.
#[derive(Clone, Copy, Debug, PartialEq, Eq)]
pub struct Given {
    /// How many octets the message has, as its client says (RFC 1870).
    pub size: Option<u128>,
    /// Whether there was a BODY (RFC 6152).
    pub body: bool,
}

// SIZE, which stands once.
fn with_size(given: Given, value: &[u8]) -> Result<Given, SmtpFault>
    ensures { given_result result ≡ with_size (given_seen given) value.now }
{
    if given.size.is_some() {
        return Err(SmtpFault::BadArgument);
    }
    match long_number(value) {
        Some(size) => Ok(Given {
            size: Some(size),
            body: given.body,
        }),
        None => Err(SmtpFault::BadArgument),
    }
}

// BODY, which stands once. Whatever it says, all octets of a message are kept.
fn with_body(given: Given, value: &[u8]) -> Result<Given, SmtpFault>
    ensures { given_result result ≡ with_body (given_seen given) value.now }
{
    if given.body {
        return Err(SmtpFault::BadArgument);
    }
    if is_word(value, b"7BIT") || is_word(value, b"8BITMIME") {
        Ok(Given {
            size: given.size,
            body: true,
        })
    } else {
        Err(SmtpFault::BadArgument)
    }
}

// One parameter more.
fn with_parameter(given: Given, word: &[u8]) -> Result<Given, SmtpFault>
    ensures { given_result result ≡ with_parameter (given_seen given) word.now }
{
    let keyword = keyword_of(word);
    if !all_visible(word) {
        Err(SmtpFault::BadArgument)
    } else if is_word(keyword, b"SIZE") {
        with_size(given, value_of(word))
    } else if is_word(keyword, b"BODY") {
        with_body(given, value_of(word))
    } else {
        Err(SmtpFault::BadParameter)
    }
}

// The octets between two spaces, which may be none.
fn with_word(given: Given, word: &[u8]) -> Result<Given, SmtpFault>
    ensures { given_result result ≡ with_word (given_seen given) word.now }
{
    if word.is_empty() {
        Ok(given)
    } else {
        with_parameter(given, word)
    }
}

// Nothing follows a path, or a space does.
fn is_parted(behind: &[u8]) -> bool
    ensures { result ≡ is_parted behind.now }
{
    behind.is_empty() || begins_with(b' ', behind)
}

/// What the parameters after the path of MAIL say, from the left.
pub fn mail_parameters(behind: &[u8]) -> Result<Given, SmtpFault>
    ensures { given_result result ≡ mail_parameters behind.now }
{
    let mut given = Given {
        size: None,
        body: false,
    };
    if !is_parted(behind) {
        return Err(SmtpFault::BadArgument);
    }
    let mut rest = behind;
    while !rest.is_empty() {
        let (word, others) = split_verb(rest);
        match with_word(given, word) {
            Ok(next) => given = next,
            Err(fault) => return Err(fault),
        }
        rest = split_front(others, 1).1;
    }
    Ok(given)
}

// RCPT has no parameter that is known: the fault of one.
fn unknown_parameter(word: &[u8]) -> Option<SmtpFault>
    ensures { option_map fault_seen result ≡ unknown_parameter word.now }
{
    if word.is_empty() {
        None
    } else if all_visible(word) {
        Some(SmtpFault::BadParameter)
    } else {
        Some(SmtpFault::BadArgument)
    }
}

/// What is wrong after the path of RCPT, if anything is.
pub fn rcpt_fault(behind: &[u8]) -> Option<SmtpFault>
    ensures { option_map fault_seen result ≡ rcpt_fault behind.now }
{
    if is_parted(behind) {
        unknown_parameter(split_verb(unspaced(behind)).0)
    } else {
        Some(SmtpFault::BadArgument)
    }
}
