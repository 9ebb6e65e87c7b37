// What the words ask for.
ghost use Rattle.std.specs.Prelude.{◌≡◌, ◌≤◌, false, None, [], ◌∷◌, length, map, slice_get, IfOk, OnErr, option_map, string_bytes};
ghost use Rattle.std.specs.Option.{option_copied};
ghost use Rattle.command_words.specs.Forms.{task_of, form_of, form_at, has_option, begins_with_dash, size_of};
ghost use Rattle.command_words.specs.Seen.{task_seen};

use crate::given::placed;
use line_words::number;
use std::alloc::{AllocError, Global};

/// What the words of a command line ask for.
#[derive(Clone, Copy, Debug, PartialEq, Eq)]
pub enum Task<'a> {
    /// To drive the tape that is read.
    Drive,
    /// To write the storm tape of this number and so many rounds.
    Storm { number: u64, size: u32 },
    /// To look at a plan file.
    Check { file: &'a str },
    /// To serve the cluster of a plan file.
    Serve { file: &'a str },
}

fn begins_with_dash(word: &str) -> bool
    ensures { result ≡ begins_with_dash word.now }
{
    match word.as_bytes() {
        [first, ..] => *first == b'-',
        [] => false,
    }
}

#[tactic(auto, using(crate::proofs::Options::option_next))]
fn has_option(words: &[String]) -> bool
    ensures { result ≡ has_option (map string_bytes words.now) }
{
    for word in words {
        if begins_with_dash(word.as_str()) {
            return true;
        }
    }
    false
}

fn drive<'a>(verb: &str) -> Option<Task<'a>>
    ensures { option_map task_seen result ≡ form_of (verb.now ∷ []) }
{
    if verb == "drive" {
        Some(Task::Drive)
    } else {
        None
    }
}

fn with_file<'a>(verb: &str, file: &'a str) -> Option<Task<'a>>
    ensures { option_map task_seen result ≡ form_of (verb.now ∷ file.now ∷ []) }
{
    if file.is_empty() {
        return None;
    }
    if verb == "check" {
        return Some(Task::Check { file });
    }
    if verb == "serve" {
        return Some(Task::Serve { file });
    }
    None
}

fn size_of(word: &str) -> Option<u32>
    ensures { result ≡ size_of word.now }
{
    match number(word.as_bytes()) {
        Some(size) if word.len() <= 6 && 1 <= size && size <= 100_000 => Some(size as u32),
        _ => None,
    }
}

fn storm<'a>(verb: &str, number_word: &str, size_word: &str) -> Option<Task<'a>>
    ensures { option_map task_seen result ≡ form_of (verb.now ∷ number_word.now ∷ size_word.now ∷ []) }
{
    if verb != "storm" {
        return None;
    }
    let number = number(number_word.as_bytes())?;
    let size = size_of(size_word)?;
    Some(Task::Storm { number, size })
}

fn form<'a>(
    first: Option<&'a str>,
    second: Option<&'a str>,
    third: Option<&'a str>,
) -> Option<Task<'a>>
    ensures { option_map task_seen result ≡ form_at (option_copied first.entry) (option_copied second.entry) (option_copied third.entry) }
{
    match (first, second, third) {
        (Some(verb), None, None) => drive(verb),
        (Some(verb), Some(file), None) => with_file(verb, file),
        (Some(verb), Some(number), Some(size)) => storm(verb, number, size),
        _ => None,
    }
}

// The word at this place.
fn word_at(words: &[String], place: usize) -> Option<&str>
    ensures { option_copied result ≡ slice_get (map string_bytes words.now) place }
{
    match words.get(place) {
        Some(word) => Some(word.as_str()),
        None => None,
    }
}

// Words of no form are refused also where no memory is left to read them.
fn without_memory<'a>(words: &'a [String]) -> Result<Option<Task<'a>>, AllocError>
    requires few { length words.now ≤ 3 }
    requires plain { has_option (map string_bytes words.now) ≡ false }
    ensures none { IfOk result (λ task. (task ≡ None) × (task_of (map string_bytes words.now) ≡ None)) }
    ensures of_a_form { OnErr result (task_of (map string_bytes words.now) ≡ None → ⊥) }
{
    match form(word_at(words, 0), word_at(words, 1), word_at(words, 2)) {
        None => Ok(None),
        Some(_) => Err(AllocError),
    }
}

/// What the words after the program's name ask for; nothing exactly where they are of no form.
///
/// # Errors
///
/// Out of memory alone, and never where the words are of no form.
pub fn read_words<'a>(alloc: Global, words: &'a [String]) -> Result<Option<Task<'a>>, AllocError>
    ensures task { IfOk result (λ task. option_map task_seen task ≡ task_of (map string_bytes words.now)) }
    ensures of_a_form { OnErr result (task_of (map string_bytes words.now) ≡ None → ⊥) }
{
    if 3 < words.len() || has_option(words) {
        return Ok(None);
    }
    let Ok(placed) = placed(alloc, words) else {
        return without_memory(words);
    };
    let (first, second, third) = (
        placed.get_str("first"),
        placed.get_str("second"),
        placed.get_str("third"),
    );
    Ok(form(first, second, third))
}
