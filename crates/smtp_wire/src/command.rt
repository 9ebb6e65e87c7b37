// Commands and the lines that they are read from.
ghost use Rattle.std.specs.Prelude.{◌≡◌, ◌<◌, ◌≤◌, length, IfOk, IfSome, codes};
ghost use Rattle.std.specs.Option.{option_copied};
ghost use Rattle.mail_model.specs.Smtp.{is_helo_name, alone, vrfy_command, helo_command, mail_of_sender, rcpt_of_path, mail_of_argument, rcpt_of_argument, behind_keyword, command_of};
ghost use Rattle.smtp_wire.specs.Seen.{seen, IsWithinLimits, command_seen};

use crate::octets::all_visible;
use crate::parameter::{mail_parameters, rcpt_fault};
use crate::path::{behind_keyword, behind_path, path_content, recipient_in, sender_in};
use line_words::{is_word, split_verb, trimmed, unspaced};

/// A command, whose words are parts of its line.
#[derive(Clone, Copy, Debug, PartialEq, Eq)]
pub enum Command<'a> {
    /// The client's name for itself, 1 to 255 visible octets, and whether it said EHLO in place of
    /// HELO (RFC 5321, section 4.1.1.1).
    Helo {
        name: &'a [u8],
        extended: bool,
    },
    /// A message begins. The sender has no source route and at most 512 octets, and is empty for
    /// `<>` (section 4.1.1.2). The size in octets is what SIZE says, of any 20 digits (RFC 1870).
    Mail {
        sender: &'a [u8],
        size: Option<u128>,
    },
    /// One more recipient, with no source route, 1 to 512 octets (section 4.1.1.3).
    Rcpt {
        path: &'a [u8],
    },
    /// The text comes next (section 4.1.1.4).
    Data,
    /// The transaction is over (section 4.1.1.5).
    Rset,
    /// Nothing is asked (section 4.1.1.9).
    Noop,
    /// The client takes its leave (section 4.1.1.10).
    Quit,
    /// The client asks whether an address is one, of which nothing is kept (section 4.1.1.6).
    Vrfy,
}

/// The first rule that a command line breaks.
#[derive(Clone, Copy, Debug, PartialEq, Eq)]
pub enum SmtpFault {
    /// The verb is none of those that are read here.
    UnknownVerb,
    /// The verb is one of those, and what follows it is not its argument, or a parameter that is known
    /// is not as it should be.
    BadArgument,
    /// The verb is EXPN or HELP.
    NotDone,
    /// A parameter is none that is known.
    BadParameter,
}

// the longest name that HELO takes
const NAME_LIMIT: usize = 255;

fn is_helo_name(word: &[u8]) -> bool
    ensures { result ≡ is_helo_name word.now }
{
    !word.is_empty() && word.len() <= NAME_LIMIT && all_visible(word)
}

fn read_helo(extended: bool, rest: &[u8]) -> Result<Command<'_>, SmtpFault>
    ensures exact { seen result ≡ helo_command extended rest.now }
    ensures limits { IfOk result IsWithinLimits }
{
    let name = unspaced(rest);
    if is_helo_name(name) {
        Ok(Command::Helo { name, extended })
    } else {
        Err(SmtpFault::BadArgument)
    }
}

// MAIL with this sender, and what follows the path.
fn mail_with<'a>(sender: Option<&'a [u8]>, behind: &[u8]) -> Result<Command<'a>, SmtpFault>
    requires { IfSome sender (λ s. length s.now ≤ 512) }
    ensures exact { seen result ≡ mail_of_sender (option_copied sender.entry) behind.now }
    ensures limits { IfOk result IsWithinLimits }
{
    match sender {
        Some(sender) => match mail_parameters(behind) {
            Ok(given) => Ok(Command::Mail {
                sender,
                size: given.size,
            }),
            Err(fault) => Err(fault),
        },
        None => Err(SmtpFault::BadArgument),
    }
}

fn read_mail(rest: &[u8]) -> Result<Command<'_>, SmtpFault>
    ensures exact { seen result ≡ mail_of_argument (behind_keyword (codes "FROM:") rest.now) }
    ensures limits { IfOk result IsWithinLimits }
{
    match behind_keyword(b"FROM:", rest) {
        Some(octets) => mail_with(
            path_content(octets).and_then(sender_in),
            behind_path(octets),
        ),
        None => Err(SmtpFault::BadArgument),
    }
}

// RCPT with this path, and what follows it.
fn rcpt_with<'a>(path: Option<&'a [u8]>, behind: &[u8]) -> Result<Command<'a>, SmtpFault>
    requires { IfSome path (λ p. (0 < length p.now) × (length p.now ≤ 512)) }
    ensures exact { seen result ≡ rcpt_of_path (option_copied path.entry) behind.now }
    ensures limits { IfOk result IsWithinLimits }
{
    match path {
        Some(path) => match rcpt_fault(behind) {
            None => Ok(Command::Rcpt { path }),
            Some(fault) => Err(fault),
        },
        None => Err(SmtpFault::BadArgument),
    }
}

fn read_rcpt(rest: &[u8]) -> Result<Command<'_>, SmtpFault>
    ensures exact { seen result ≡ rcpt_of_argument (behind_keyword (codes "TO:") rest.now) }
    ensures limits { IfOk result IsWithinLimits }
{
    match behind_keyword(b"TO:", rest) {
        Some(octets) => rcpt_with(
            path_content(octets).and_then(recipient_in),
            behind_path(octets),
        ),
        None => Err(SmtpFault::BadArgument),
    }
}

fn read_alone<'a>(command: Command<'a>, rest: &[u8]) -> Result<Command<'a>, SmtpFault>
    requires { IsWithinLimits command }
    ensures exact { seen result ≡ alone (command_seen command.entry) rest.now }
    ensures limits { IfOk result IsWithinLimits }
{
    if rest.is_empty() {
        Ok(command)
    } else {
        Err(SmtpFault::BadArgument)
    }
}

// VRFY takes any argument, but takes one.
fn read_vrfy(rest: &[u8]) -> Result<Command<'_>, SmtpFault>
    ensures exact { seen result ≡ vrfy_command rest.now }
    ensures limits { IfOk result IsWithinLimits }
{
    if rest.is_empty() {
        Err(SmtpFault::BadArgument)
    } else {
        Ok(Command::Vrfy)
    }
}

/// Reads a line, given without its CRLF (RFC 5321, section 4.1.1). It takes no memory.
///
/// The command comes exactly where the line is that command, and a fault exactly where it is the
/// first rule that the line breaks.
pub fn read_command(line: &[u8]) -> Result<Command<'_>, SmtpFault>
    ensures exact { seen result ≡ command_of line.now }
    ensures limits { IfOk result IsWithinLimits }
{
    let (verb, rest) = split_verb(trimmed(line));
    if is_word(verb, b"HELO") {
        read_helo(false, rest)
    } else if is_word(verb, b"EHLO") {
        read_helo(true, rest)
    } else if is_word(verb, b"MAIL") {
        read_mail(rest)
    } else if is_word(verb, b"RCPT") {
        read_rcpt(rest)
    } else if is_word(verb, b"DATA") {
        read_alone(Command::Data, rest)
    } else if is_word(verb, b"RSET") {
        read_alone(Command::Rset, rest)
    } else if is_word(verb, b"NOOP") {
        Ok(Command::Noop)
    } else if is_word(verb, b"QUIT") {
        read_alone(Command::Quit, rest)
    } else if is_word(verb, b"VRFY") {
        read_vrfy(rest)
    } else if is_word(verb, b"EXPN") || is_word(verb, b"HELP") {
        Err(SmtpFault::NotDone)
    } else {
        Err(SmtpFault::UnknownVerb)
    }
}
