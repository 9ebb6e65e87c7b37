//! turnstile_trials: threads that take turns at a list of numbers.
//!
//! SUMMARY
//!
//! A value to try the turnstile with, and what several threads may say of it: `append_both` lets two threads append their numbers,
//! and its contract says that both lists stand in the result in their order, each number once, and nothing else.
//!
//! DESCRIPTION
//!
//! `Numbers` are the numbers in the order in which they came, and a limit that stays. `Append` is the work of adding one number.
//! `append_all` takes a turn for each number of a list. The contracts of these three are proved; the tests run them with two and
//! with four threads, and 40,000 turns.
//!
//! STANDS ON
//!
//! `turnstile`, by its public calls alone.
//!
//! WHAT IT DOES NOT DO
//!
//! It is a crate of its own since a crate is proved once more with its tests. Nothing stands on it. That two threads ran at the
//! same time is not shown by a test.
#![tactic(auto)]

mod appends;
mod numbers;
#[cfg(test)]
mod tests;

pub use appends::{append_all, append_both};
pub use numbers::{Append, Numbers};
