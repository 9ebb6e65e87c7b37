//! line_words: words and numbers of a line.
//!
//! SUMMARY
//!
//! What the crates that read lines share: the blanks at the ends of a line, its verb, its words and
//! the number that a word is. What is read borrows the line: nothing is copied or allocated.
//!
//! DESCRIPTION
//!
//! - `trimmed(line)` is the line without the spaces and tabs at its end, and `unspaced(octets)` the
//!   octets without the spaces at their beginning.
//! - `split_verb(line)` gives the octets up to the first space, and what follows them, with that space
//!   before. `is_word(octets, word)` says whether the octets are a word, given in upper case, in any
//!   case.
//! - `first_word`, `behind_word` and `has_space` cut at the first space, which belongs to neither
//!   side. Where there is none, all octets are the first word, and nothing stands after it.
//! - `len_before(stop, octets)` counts the octets before the first of a kind.
//! - `number(word)` is the number of 1 to 20 decimal digits, leading zeros among them, below 2^64;
//!   `None` where the word is none. `long_number(word)` is the same without the bound on its value.
//!
//! STANDS ON
//!
//! `mail_model`, whose definitions say what each call answers. A contract here is that definition.
//!
//! WHAT IT DOES NOT DO
//!
//! It knows no command and no line of a tape, and takes no CR or LF off.
#![tactic(auto)]

mod digits;
mod octets;
mod words;

pub use digits::{long_number, number};
pub use octets::{is_word, len_before, split_verb, trimmed, unspaced};
pub use words::{behind_word, first_word, has_space};
