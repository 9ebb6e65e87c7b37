// The words of the command line.
ghost use Rattle.std.specs.Prelude.{◌≡◌, IfOk, OnErr};
ghost use Rattle.porcupine_server.specs.Words.{IsNotText, serves_first, words_after_name};

use std::alloc::{AllocError, Global};
use std::env::Args;
use std::io;
use std::io::ErrorKind;

/// The words after the program's name, of those that the system hands over. Where one of them is not text there are none: no
/// form has such a word, and none has no words.
///
/// # Errors
///
/// Only out of memory.
pub fn words_of(alloc: Global, arguments: io::Result<Args>) -> Result<Vec<String>, AllocError>
    ensures words { IfOk result (λ words. words.items ≡ words_after_name arguments) }
    ensures text { OnErr result (IsNotText arguments → ⊥) }
{
    match arguments {
        Ok(mut arguments) => {
            let _name = arguments.next();
            let mut words = Vec::new(alloc);
            for word in arguments {
                words.push(word)?;
            }
            Ok(words)
        }
        Err(fault) => match fault.kind() {
            ErrorKind::InvalidData => Ok(Vec::new(alloc)),
            _ => Err(AllocError),
        },
    }
}

/// Whether the first word is `serve`.
pub fn asks_to_serve(words: &[String]) -> bool
    ensures { result ≡ serves_first words.now }
{
    match words.first() {
        Some(word) => word.as_str() == "serve",
        None => false,
    }
}
