// Commands and the lines that they are read from.
ghost use Rattle.std.specs.Prelude.{◌≡◌, IfOk};
ghost use Rattle.mail_model.specs.Pop as pop;
ghost use Rattle.mail_model.specs.Pop.{alone, apop_command, digest_of, mapped, number_in, maybe_number_in, numbers_in, pass_of, pop_command_of, user_command};
ghost use Rattle.pop_wire.specs.Seen.{seen, IsWithinLimits, command_seen, faults_seen};

use crate::number::short_number;
use hex::FromHex;
use line_words::{behind_word, first_word, has_space, is_word, split_verb, trimmed, unspaced};
use mail_base::spells_name;

/// A command, whose words are parts of its line.
#[derive(Clone, Copy, Debug, PartialEq, Eq)]
pub enum PopCommand<'a> {
    /// The mailbox that the client asks for, as it was sent: 1 to 64 octets (RFC 1939, section 7).
    User { name: &'a [u8] },
    /// The secret of that mailbox, with every space in it, not empty (section 7).
    Pass { secret: &'a [u8] },
    /// The mailbox as it was sent, and the digest of the session's banner and the mailbox's secret (section 7).
    Apop { name: &'a [u8], digest: [u8; 16] },
    /// How many messages there are, and of how many octets (section 5).
    Stat,
    /// The size of one message, or of each (section 5).
    List { number: Option<u32> },
    /// The id of one message, or of each (section 7).
    Uidl { number: Option<u32> },
    /// The octets of a message (section 5).
    Retr { number: u32 },
    /// A message is marked to be deleted (section 5).
    Dele { number: u32 },
    /// The header of a message, and so many lines after it (section 7).
    Top { number: u32, lines: u32 },
    /// Nothing is asked (section 5).
    Noop,
    /// No message is marked any more (section 5).
    Rset,
    /// The client takes its leave (sections 4 and 6).
    Quit,
    /// What may be done beyond the commands that every server has (RFC 2449, section 5).
    Capa,
}

/// The first rule that a command line breaks.
#[derive(Clone, Copy, Debug, PartialEq, Eq)]
pub enum PopFault {
    /// The verb is none of those that are read here.
    UnknownVerb,
    /// The verb is one of those, and what follows it is too much, too little, no name or no digest.
    BadArgument,
    /// As many words follow as should, and one in the place of a number is none of 1 to 10 digits below
    /// 2^32.
    BadNumber,
}

fn read_user(rest: &[u8]) -> Result<PopCommand<'_>, PopFault>
    ensures exact { seen result ≡ user_command rest.now }
    ensures limits { IfOk result IsWithinLimits }
{
    let name = unspaced(rest);
    if spells_name(name) {
        Ok(PopCommand::User { name })
    } else {
        Err(PopFault::BadArgument)
    }
}

fn read_pass(line: &[u8]) -> Result<PopCommand<'_>, PopFault>
    ensures exact { seen result ≡ pass_of line.now }
    ensures limits { IfOk result IsWithinLimits }
{
    let secret = behind_word(line);
    if secret.is_empty() {
        Err(PopFault::BadArgument)
    } else {
        Ok(PopCommand::Pass { secret })
    }
}

// The octets that 32 hexadecimal digits spell.
fn digest(word: &[u8]) -> Option<[u8; 16]>
    ensures { result ≡ digest_of word.now }
{
    match <[u8; 16] as FromHex>::from_hex(word) {
        Ok(digest) => Some(digest),
        Err(_) => None,
    }
}

fn read_apop(rest: &[u8]) -> Result<PopCommand<'_>, PopFault>
    ensures exact { seen result ≡ apop_command rest.now }
    ensures limits { IfOk result IsWithinLimits }
{
    let words = unspaced(rest);
    let name = first_word(words);
    if !spells_name(name) {
        return Err(PopFault::BadArgument);
    }
    match digest(unspaced(behind_word(words))) {
        Some(digest) => Ok(PopCommand::Apop { name, digest }),
        None => Err(PopFault::BadArgument),
    }
}

fn read_number(rest: &[u8]) -> Result<u32, PopFault>
    ensures { faults_seen result ≡ number_in rest.now }
{
    let word = unspaced(rest);
    if word.is_empty() || has_space(word) {
        return Err(PopFault::BadArgument);
    }
    short_number(word).ok_or(PopFault::BadNumber)
}

fn read_maybe_number(rest: &[u8]) -> Result<Option<u32>, PopFault>
    ensures { faults_seen result ≡ maybe_number_in rest.now }
{
    if rest.is_empty() {
        return Ok(None);
    }
    Ok(Some(read_number(rest)?))
}

fn read_list(rest: &[u8]) -> Result<PopCommand<'_>, PopFault>
    ensures exact { seen result ≡ mapped pop.Command.Listing (maybe_number_in rest.now) }
    ensures limits { IfOk result IsWithinLimits }
{
    Ok(PopCommand::List {
        number: read_maybe_number(rest)?,
    })
}

fn read_uidl(rest: &[u8]) -> Result<PopCommand<'_>, PopFault>
    ensures exact { seen result ≡ mapped pop.Command.Uidl (maybe_number_in rest.now) }
    ensures limits { IfOk result IsWithinLimits }
{
    Ok(PopCommand::Uidl {
        number: read_maybe_number(rest)?,
    })
}

fn read_retr(rest: &[u8]) -> Result<PopCommand<'_>, PopFault>
    ensures exact { seen result ≡ mapped pop.Command.Retr (number_in rest.now) }
    ensures limits { IfOk result IsWithinLimits }
{
    Ok(PopCommand::Retr {
        number: read_number(rest)?,
    })
}

fn read_dele(rest: &[u8]) -> Result<PopCommand<'_>, PopFault>
    ensures exact { seen result ≡ mapped pop.Command.Dele (number_in rest.now) }
    ensures limits { IfOk result IsWithinLimits }
{
    Ok(PopCommand::Dele {
        number: read_number(rest)?,
    })
}

// The two words after a verb, which are numbers.
fn read_numbers(rest: &[u8]) -> Result<(u32, u32), PopFault>
    ensures { faults_seen result ≡ numbers_in rest.now }
{
    let words = unspaced(rest);
    let second = unspaced(behind_word(words));
    if second.is_empty() || has_space(second) {
        return Err(PopFault::BadArgument);
    }
    match short_number(first_word(words)) {
        Some(number) => match short_number(second) {
            Some(lines) => Ok((number, lines)),
            None => Err(PopFault::BadNumber),
        },
        None => Err(PopFault::BadNumber),
    }
}

fn read_top(rest: &[u8]) -> Result<PopCommand<'_>, PopFault>
    ensures exact { seen result ≡ mapped (λ numbers. pop.Command.Top numbers.0 numbers.1) (numbers_in rest.now) }
    ensures limits { IfOk result IsWithinLimits }
{
    let (number, lines) = read_numbers(rest)?;
    Ok(PopCommand::Top { number, lines })
}

fn read_alone<'a>(command: PopCommand<'a>, rest: &[u8]) -> Result<PopCommand<'a>, PopFault>
    requires { IsWithinLimits command }
    ensures exact { seen result ≡ alone (command_seen command.entry) rest.now }
    ensures limits { IfOk result IsWithinLimits }
{
    if rest.is_empty() {
        Ok(command)
    } else {
        Err(PopFault::BadArgument)
    }
}

/// Reads a line, given without its CRLF (RFC 1939, section 3). It takes no memory.
///
/// The command comes exactly where the line is that command, and a fault exactly where it is the
/// first rule that the line breaks.
pub fn read_command(line: &[u8]) -> Result<PopCommand<'_>, PopFault>
    ensures exact { seen result ≡ pop_command_of line.now }
    ensures limits { IfOk result IsWithinLimits }
{
    let (verb, rest) = split_verb(trimmed(line));
    if is_word(verb, b"USER") {
        read_user(rest)
    } else if is_word(verb, b"PASS") {
        read_pass(line)
    } else if is_word(verb, b"APOP") {
        read_apop(rest)
    } else if is_word(verb, b"STAT") {
        read_alone(PopCommand::Stat, rest)
    } else if is_word(verb, b"LIST") {
        read_list(rest)
    } else if is_word(verb, b"UIDL") {
        read_uidl(rest)
    } else if is_word(verb, b"RETR") {
        read_retr(rest)
    } else if is_word(verb, b"DELE") {
        read_dele(rest)
    } else if is_word(verb, b"TOP") {
        read_top(rest)
    } else if is_word(verb, b"NOOP") {
        read_alone(PopCommand::Noop, rest)
    } else if is_word(verb, b"RSET") {
        read_alone(PopCommand::Rset, rest)
    } else if is_word(verb, b"QUIT") {
        read_alone(PopCommand::Quit, rest)
    } else if is_word(verb, b"CAPA") {
        read_alone(PopCommand::Capa, rest)
    } else {
        Err(PopFault::UnknownVerb)
    }
}
