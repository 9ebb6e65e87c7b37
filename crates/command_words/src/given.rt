// Which word is which.
ghost use Rattle.std.specs.Prelude.{◌≡◌, ◌≤◌, false, length, map, IfOk, string_bytes};
ghost use Rattle.clap.specs.Words.{app_of, found_of, matches_of, rows_of};
ghost use Rattle.command_words.specs.Forms.{has_option};
ghost use Rattle.command_words.specs.Places.{places};

use clap::error::ErrorKind;
use clap::{Arg, ArgMatches, Command};
use std::alloc::{AllocError, Global};

// The words of the command line are three at most, each in its place; the program has no options.
fn three_places<'a>(alloc: Global) -> Result<Command<'a>, AllocError>
    ensures { IfOk result (λ command. app_of command ≡ places) }
{
    let command = Command::new(alloc, "porcupine")
        .no_binary_name(true)
        .disable_help_flag(true);
    let command = command.arg(Arg::new(alloc, "first"))?;
    let command = command.arg(Arg::new(alloc, "second"))?;
    command.arg(Arg::new(alloc, "third"))
}

/// The words, each in its place. At most three words, none of which begins with `-`, always have their places.
pub(crate) fn placed<'a>(alloc: Global, words: &'a [String]) -> Result<ArgMatches<'a>, AllocError>
    requires few { length words.now ≤ 3 }
    requires plain { has_option (map string_bytes words.now) ≡ false }
    ensures { IfOk result (λ placed. rows_of (found_of placed) ≡ matches_of places (map string_bytes words.now)) }
{
    let command = three_places(alloc)?;
    match command.try_get_matches_from(words) {
        Ok(placed) => Ok(placed),
        Err(error) => match error.kind() {
            ErrorKind::OutOfMemory => Err(AllocError),
            _ => unreachable!(),
        },
    }
}
