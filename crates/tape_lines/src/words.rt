// The text of a line, and the word at its head.
ghost use Rattle.std.specs.Prelude.{◌≡◌};
ghost use Rattle.std.specs.Option.{option_copied};
ghost use Rattle.mail_model.specs.Lines.{without_cr};
ghost use Rattle.mail_model.specs.Tape.{strip};
ghost use Rattle.tape_lines.specs.Words.{tape_line};

/// What follows the word at the head of the line; nothing where the line does not begin with the word.
pub fn strip<'a>(word: &[u8], line: &'a [u8]) -> Option<&'a [u8]>
    ensures { option_copied result ≡ strip word.now line.now }
{
    line.strip_prefix(word)
}

/// The line without the CR that stands last in it.
pub fn without_cr(line: &[u8]) -> &[u8]
    ensures { result.now ≡ without_cr line.now }
{
    match line.strip_suffix(b"\r") {
        Some(rest) => rest,
        None => line,
    }
}

/// The text of a line as it stands on the tape without its LF; nothing where it has more than 65,535 octets.
pub fn tape_line(raw: &[u8]) -> Option<&[u8]>
    ensures { option_copied result ≡ tape_line raw.now }
{
    if raw.len() > 65_535 {
        return None;
    }
    Some(without_cr(raw))
}
